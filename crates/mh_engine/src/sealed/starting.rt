//! The service that is known of a seal and the files that are there, and whether a file is the sealed one.
ghost use Rattle.std.specs.Prelude.{◌≡◌, map, Some, None, IfOk, IfErr, IfSome, OnOk};
ghost use Rattle.std.specs.List.{find, position, remove};
ghost use Rattle.std.specs.Option.{option_copied, option_map, option_map_or};
ghost use Rattle.std.specs.Str.{bytes_eq};
ghost use Rattle.sha2.specs.Sha256.{sha256};
ghost use Rattle.mh_codec.specs.Tags.{profile};
ghost use Rattle.mh_seal_laws.specs.Digests.{has_digest, listed_at};
ghost use Rattle.mh_seal_laws.specs.Seal.{is_unfit};
ghost use Rattle.mh_seal_laws.specs.Told.{by_told};
ghost use Rattle.mh_model.specs.Late.{written_at};
ghost use Rattle.mh_engine.specs.Sealed.{IsToldOf, entries_of, file_at, files_behind, first_unsealed, sealed_refusal, service_of, unsealed_at, unsealed_by, unsealed_group, unsealed_number};

use mh_base::GroupName;
use mh_codec::CodecError;
use mh_group::Group;
use mh_model::Input;
use mh_seal::{Digest, Seal, SealedGroup};
use mh_service::{Service, ServiceError, Why};
use std::alloc::{AllocError, AllocFailed, Global};

/// Why an engine does not begin by a seal.
#[derive(Drop)]
pub enum Unsealed {
    /// Number 72: the file of this group is not there, and the seal does not say that it comes late.
    Missing(GroupName),
    /// Number 58: the file of this group is not the sealed one.
    Differs(GroupName),
    /// The groups of the seal make no service, for this reason (30 to 35) and with this group.
    NoService { why: Why, group: GroupName },
    NoMemory,
}

impl Unsealed {
    /// The number under which it is reported; want of memory has none.
    pub fn number(&self) -> Option<u32>
        ensures { result ≡ unsealed_number self.now }
    {
        match self {
            Unsealed::Missing(_) => Some(72),
            Unsealed::Differs(_) => Some(58),
            Unsealed::NoService { why, .. } => Some(why.number()),
            Unsealed::NoMemory => None,
        }
    }

    /// The group that is told; want of memory has none.
    pub fn group(&self) -> Option<&GroupName>
        ensures { option_copied result ≡ unsealed_group self.now }
    {
        match self {
            Unsealed::Missing(group) => Some(group),
            Unsealed::Differs(group) => Some(group),
            Unsealed::NoService { group, .. } => Some(group),
            Unsealed::NoMemory => None,
        }
    }
}

impl From<AllocError> for Unsealed {
    ghost use Rattle.std.specs.Prelude.{◌≡◌};
    ghost use Rattle.mh_engine.specs.declared.sealed.starting.Unsealed.TheVariants.{NoMemory};

    ghost from_gives = { λ _ e. e ≡ NoMemory };

    fn from(_refused: AllocError) -> Unsealed {
        Unsealed::NoMemory
    }
}

impl<T: Drop> From<AllocFailed<T>> for Unsealed {
    ghost use Rattle.std.specs.Prelude.{◌≡◌};
    ghost use Rattle.mh_engine.specs.declared.sealed.starting.Unsealed.TheVariants.{NoMemory};

    ghost from_gives = { λ _ e. e ≡ NoMemory };

    fn from(_refused: AllocFailed<T>) -> Unsealed {
        Unsealed::NoMemory
    }
}

/// The service of the seal, with stubs for its late scenes.
#[tactic(auto, using(crate::proofs::SealedLemmas::told_first, crate::proofs::SealedLemmas::told_service, crate::proofs::SealedLemmas::unrefused, crate::proofs::SealedLemmas::service_so))]
pub fn service_of(
    alloc: Global,
    seal: &Seal,
    files: Vec<(GroupName, Group)>,
) -> Result<Service, Unsealed>
    ensures known { IfOk result (λ service. service ≡ service_of seal.now files.items) }
    ensures accepted { OnOk result (sealed_refusal seal.now files.items ≡ None) }
    ensures refused { IfErr result (IsToldOf (sealed_refusal seal.now files.items)) }
{
    let entries = entries_of(alloc, seal, files)?;
    let start = seal.start.clone()?;
    match Service::of_seal(alloc, entries, start) {
        Ok(service) => Ok(service),
        Err(ServiceError::Refused { why, group }) => Err(Unsealed::NoService { why, group }),
        Err(ServiceError::NoMemory) => Err(Unsealed::NoMemory),
    }
}

/// The groups of the seal, in its order, each with its file; late ones without.
#[tactic(auto, using(crate::proofs::SealedLemmas::told_first))]
fn entries_of(
    alloc: Global,
    seal: &Seal,
    files: Vec<(GroupName, Group)>,
) -> Result<Vec<(GroupName, Option<Group>)>, Unsealed>
    ensures found { IfOk result (λ entries. entries.items ≡ entries_of seal.now.groups files.items) }
    ensures sealed { OnOk result (first_unsealed seal.now seal.now.groups files.items ≡ None) }
    ensures refused { IfErr result (IsToldOf (first_unsealed seal.now seal.now.groups files.items)) }
{
    let mut files = files;
    let mut entries = Vec::new(alloc);
    for group in seal.groups.as_slice() {
        let file = file_of(alloc, seal, group, &mut files)?;
        entries.push((group.name.clone()?, file))?;
    }
    Ok(entries)
}

/// The file of a group, taken from those that are there; none where the group is late.
fn file_of(
    alloc: Global,
    seal: &Seal,
    group: &SealedGroup,
    files: &mut Vec<(GroupName, Group)>,
) -> Result<Option<Group>, Unsealed>
    ensures found { IfOk result (λ file. file ≡ file_at group.now files.old.items) }
    ensures behind { OnOk result (files.new.items ≡ files_behind group.now files.old.items) }
    ensures sealed { OnOk result (unsealed_at seal.now group.now (written_at group.now.name files.old.items) ≡ None) }
    ensures refused { IfErr result (IsToldOf (unsealed_at seal.now group.now (written_at group.now.name files.old.items))) }
{
    if group.is_late {
        return Ok(None);
    }
    here_file(alloc, seal, &group.name, files)
}

/// The file of this name, taken from those that are there, if it is the sealed one.
#[tactic(auto, using(crate::proofs::SealedLemmas::here_so, crate::proofs::SealedLemmas::here_told))]
fn here_file(
    alloc: Global,
    seal: &Seal,
    name: &GroupName,
    files: &mut Vec<(GroupName, Group)>,
) -> Result<Option<Group>, Unsealed>
    ensures found { IfOk result (λ file. file ≡ written_at name.now files.old.items) }
    ensures left { files.new.items ≡ option_map_or (remove files.old.items) (position (λ file. bytes_eq file.0 name.now) files.old.items) files.old.items }
    ensures sealed { OnOk result (unsealed_by seal.now name.now (written_at name.now files.old.items) ≡ None) }
    ensures refused { IfErr result (IsToldOf (unsealed_by seal.now name.now (written_at name.now files.old.items))) }
{
    match take_file(files, name) {
        Some((name, file)) => sealed_file(alloc, seal, name, file),
        None => Err(Unsealed::Missing(name.clone()?)),
    }
}

/// The first file of this name, taken from those that are there.
fn take_file(files: &mut Vec<(GroupName, Group)>, name: &GroupName) -> Option<(GroupName, Group)>
    ensures found { option_map (λ file. file.1) result ≡ written_at name.now files.old.items }
    ensures named { IfSome result (λ file. file.0 ≡ name.now) }
    ensures left { files.new.items ≡ option_map_or (remove files.old.items) (position (λ file. bytes_eq file.0 name.now) files.old.items) files.old.items }
{
    match place_of(files.as_slice(), name) {
        Some(place) => Some(files.remove(place)),
        None => None,
    }
}

fn place_of(files: &[(GroupName, Group)], name: &GroupName) -> Option<usize>
    ensures { result ≡ position (λ file. bytes_eq file.0 name.now) files.now }
{
    files.iter().position(|file| file.0 == *name)
}

/// The file, if it is the sealed one of this name.
fn sealed_file(
    alloc: Global,
    seal: &Seal,
    name: GroupName,
    file: Group,
) -> Result<Option<Group>, Unsealed>
    ensures found { IfOk result (λ found. found ≡ Some file) }
    ensures sealed { OnOk result (unsealed_by seal.now name (Some file) ≡ None) }
    ensures refused { IfErr result (IsToldOf (unsealed_by seal.now name (Some file))) }
{
    if fits(alloc, seal, &name, &file)? {
        Ok(Some(file))
    } else {
        Err(Unsealed::Differs(name))
    }
}

/// Whether the input is the file of a scene that is not the sealed one.
pub fn is_unfit(alloc: Global, seal: &Seal, input: &Input) -> Result<bool, AllocError>
    ensures { IfOk result (λ unfit. unfit ≡ is_unfit (by_told seal.now) input.now) }
{
    match input {
        Input::Scene(scene, group) => Ok(!fits(alloc, seal, scene, group.group())?),
        _ => Ok(false),
    }
}

/// Whether the group is the sealed one of this name.
fn fits(alloc: Global, seal: &Seal, name: &GroupName, group: &Group) -> Result<bool, AllocError>
    ensures { IfOk result (λ fits. fits ≡ (by_told seal.now).fits name.now group.now) }
{
    match digest_in(seal, name) {
        Some(digest) => has_digest(alloc, group, digest),
        None => Ok(false),
    }
}

/// The digest that the seal lists under this name.
fn digest_in<'s>(seal: &'s Seal, name: &GroupName) -> Option<&'s Digest>
    ensures { option_copied result ≡ listed_at profile sha256 name.now (map (λ g. (g.name, g.digest)) seal.now.groups) }
{
    match group_in(seal.groups.as_slice(), name) {
        Some(group) => Some(&group.digest),
        None => None,
    }
}

fn group_in<'s>(groups: &'s [SealedGroup], name: &GroupName) -> Option<&'s SealedGroup>
    ensures { option_copied result ≡ find (λ g. bytes_eq g.name name.now) groups.now }
{
    groups.iter().find(|group| group.name == *name)
}

/// Whether this is the digest of the group.
#[tactic(auto, using(crate::proofs::SealedLemmas::has_so, crate::proofs::SealedLemmas::has_not))]
fn has_digest(alloc: Global, group: &Group, digest: &Digest) -> Result<bool, AllocError>
    ensures { IfOk result (λ has. has ≡ has_digest profile sha256 group.now (Some digest.now)) }
{
    match Digest::of_group(alloc, group) {
        Ok(own) => Ok(own.bytes() == digest.bytes()),
        Err(CodecError::NoMemory) => Err(AllocError),
        // What has no spelling has no digest.
        Err(_) => Ok(false),
    }
}
