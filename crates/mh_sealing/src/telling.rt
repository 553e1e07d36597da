//! `seal_of`: what is told of a service.
ghost use Rattle.std.specs.Prelude.{◌≡◌, ◌≢◌, true, map, IfOk, IfErr, OnOk};
ghost use Rattle.std.specs.List.{list_all};
ghost use Rattle.sha2.specs.Sha256.{sha256};
ghost use Rattle.mh_codec.specs.Tags.{profile};
ghost use Rattle.mh_group.specs.Fit.{is_group};
ghost use Rattle.mh_laws.specs.Budget.{Bounds};
ghost use Rattle.mh_seal.specs.Digests.{digest_of};
ghost use Rattle.mh_seal_laws.specs.Digests.{is_spelled};
ghost use Rattle.mh_seal_laws.specs.Told.{IsSealOf, told_bounds, told_group};
ghost use Rattle.mh_sealing.specs.Sealing.{IsUnsealable, IsUnspelled};

use indexmap::IndexSet;
use mh_base::{GroupName, Octets, Seq};
use mh_codec::CodecError;
use mh_group::Group;
use mh_model::SharedGroup;
use mh_seal::{Digest, Seal, SealedBounds, SealedGroup};
use mh_service::Service;
use mh_service::contents::each_once;
use mh_told::unplayable::Unplayable;
use std::alloc::Global;

/// The seal of a service with these bounds, and with these octets of the file that names tags. Of the first group that the
/// binary notation cannot hold the name is told, with 13 at 0.
pub fn seal_of(
    alloc: Global,
    service: &Service,
    bounds: SealedBounds,
    tags: &[u8],
) -> Result<Seal, Unplayable>
    ensures told { (b : Bounds) → bounds ≡ told_bounds b → IfOk result (IsSealOf service.now b tags.now) }
    ensures fit { OnOk result (list_all (λ f. is_group f.1) service.now.files ≡ true) }
    ensures spelled { OnOk result (list_all (λ f. is_spelled profile sha256 f.1) service.now.files ≡ true) }
    ensures refused { IfErr result (λ e. e ≢ Unplayable.NoMemory → IsUnsealable service.now.files e) }
{
    let groups = told_groups(alloc, service)?;
    let contents = service.content_names(alloc)?.to_list(alloc)?;
    let start = service.start().clone()?;
    Ok(Seal {
        start,
        groups,
        contents,
        bounds,
        tags: Digest::of(tags),
    })
}

/// What is told of each group, in the order of the service.
fn told_groups(alloc: Global, service: &Service) -> Result<Seq<SealedGroup>, Unplayable>
    ensures told { IfOk result (λ groups. groups ≡ map (told_group service.now.late) service.now.files) }
    ensures fit { OnOk result (list_all (λ f. is_group f.1) service.now.files ≡ true) }
    ensures spelled { OnOk result (list_all (λ f. is_spelled profile sha256 f.1) service.now.files ≡ true) }
    ensures refused { IfErr result (λ e. e ≢ Unplayable.NoMemory → IsUnsealable service.now.files e) }
{
    let late = each_once(alloc, service.late())?;
    told_among(alloc, service.files(), &late)
}

/// The same, where these are the names of the late scenes.
fn told_among(
    alloc: Global,
    files: &[(GroupName, SharedGroup)],
    late: &IndexSet<GroupName>,
) -> Result<Seq<SealedGroup>, Unplayable>
    ensures told { IfOk result (λ groups. groups ≡ map (told_group late.now.keys) files.now) }
    ensures fit { OnOk result (list_all (λ f. is_group f.1) files.now ≡ true) }
    ensures spelled { OnOk result (list_all (λ f. is_spelled profile sha256 f.1) files.now ≡ true) }
    ensures refused { IfErr result (λ e. e ≢ Unplayable.NoMemory → IsUnsealable files.now e) }
{
    let mut groups = Seq::new(alloc);
    for file in files {
        groups.push(told_group(alloc, file, late)?)?;
    }
    Ok(groups)
}

fn told_group(
    alloc: Global,
    file: &(GroupName, SharedGroup),
    late: &IndexSet<GroupName>,
) -> Result<SealedGroup, Unplayable>
    ensures told { IfOk result (λ group. group ≡ told_group late.now.keys file.now) }
    ensures fit { OnOk result (is_group file.now.1 ≡ true) }
    ensures spelled { OnOk result (is_spelled profile sha256 file.now.1 ≡ true) }
    ensures refused { IfErr result (λ e. e ≢ Unplayable.NoMemory → IsUnspelled file.now e) }
{
    let digest = digest_of(alloc, &file.0, file.1.group())?;
    let name = file.0.clone()?;
    let is_late = late.contains(&name);
    Ok(SealedGroup {
        name,
        digest,
        is_late,
    })
}

/// The digest of the group of this name.
#[tactic(auto, using(crate::proofs::SpelledLemmas::spelled_so))]
fn digest_of(alloc: Global, name: &GroupName, group: &Group) -> Result<Digest, Unplayable>
    ensures told { IfOk result (λ digest. digest ≡ digest_of group.now) }
    ensures fit { OnOk result (is_group group.now ≡ true) }
    ensures spelled { OnOk result (is_spelled profile sha256 group.now ≡ true) }
    ensures refused { IfErr result (λ e. e ≢ Unplayable.NoMemory → IsUnspelled (name.now, group.now) e) }
{
    // Whatever is a group is one that the tables allow.
    let _ = group.written();
    match Digest::of_group(alloc, group) {
        Ok(digest) => Ok(digest),
        Err(CodecError::At { why, offset }) => Err(Unplayable::File {
            name: Octets::from_slice(alloc, name.as_bytes())?,
            number: why.number(),
            offset,
        }),
        Err(CodecError::NoMemory) => Err(Unplayable::NoMemory),
    }
}
