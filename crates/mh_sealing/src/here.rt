//! What a receiver reads of files beside a seal: the groups that are here from the start, and the content files.
//!
//! Promise: each function answers what the definition of its name in `specs/Here` says.
ghost use Rattle.std.specs.Prelude.{◌≡◌, ◌∷◌, ◌++◌, [], Ok, filter, IfOk, IfErr, OnOk};
ghost use Rattle.std.specs.List.{list_any};
ghost use Rattle.std.specs.Str.{bytes_eq};
ghost use Rattle.mh_told.specs.Reading.{Fails, Gives, read_files, with_file};
ghost use Rattle.mh_sealing.specs.Here.{content_of, contents_by, groups_here, is_content, is_here};

use mh_base::{GroupName, Octets, Seq};
use mh_codec::TagTable;
use mh_group::Group;
use mh_model::File;
use mh_seal::Seal;
use mh_told::reading::{is_group_file, read_file};
use mh_told::unplayable::Unplayable;
use std::alloc::{AllocError, Global};

/// The groups that are here from the start, of those whose files are there. Of other files nothing is looked at.
pub fn groups_here(
    alloc: Global,
    seal: &Seal,
    tags: &TagTable,
    files: &[(GroupName, Vec<u8>)],
) -> Result<Vec<(GroupName, Group)>, Unplayable>
    ensures { Gives (λ groups. groups.items) result (groups_here seal.now tags.now files.now) }
{
    let mut groups = Vec::new(alloc);
    let added = add_groups(alloc, seal, tags, &mut groups, files);
    added.and(Ok(groups))
}

#[tactic(auto, using(crate::proofs::HereLemmas::groups_more))]
fn add_groups(
    alloc: Global,
    seal: &Seal,
    tags: &TagTable,
    groups: &mut Vec<(GroupName, Group)>,
    files: &[(GroupName, Vec<u8>)],
) -> Result<(), Unplayable>
    ensures added { OnOk result (read_files tags.now groups.old.items (filter (is_here seal.now) files.now) ≡ Ok groups.new.items) }
    ensures refused { IfErr result (λ why. Fails why (read_files tags.now groups.old.items (filter (is_here seal.now) files.now))) }
{
    for file in files {
        add_here(alloc, seal, tags, groups, file)?;
    }
    Ok(())
}

/// Puts the group of a file behind the others, if it is one that is here.
#[tactic(auto, using(crate::proofs::HereLemmas::here_one, crate::proofs::HereLemmas::here_fails, crate::proofs::HereLemmas::not_here))]
fn add_here(
    alloc: Global,
    seal: &Seal,
    tags: &TagTable,
    groups: &mut Vec<(GroupName, Group)>,
    file: &(GroupName, Vec<u8>),
) -> Result<(), Unplayable>
    ensures added { OnOk result (read_files tags.now groups.old.items (filter (is_here seal.now) (file.now ∷ [])) ≡ Ok groups.new.items) }
    ensures refused { IfErr result (λ why. Fails why (read_files tags.now groups.old.items (filter (is_here seal.now) (file.now ∷ [])))) }
{
    if is_here(seal, file) {
        add_group(alloc, tags, groups, file)?;
    }
    Ok(())
}

/// Whether it is the file of a group that is here from the start.
fn is_here(seal: &Seal, file: &(GroupName, Vec<u8>)) -> bool
    ensures { result ≡ is_here seal.now file.now }
{
    let groups = seal.groups.as_slice();
    groups
        .iter()
        .any(|group| !group.is_late && group.name == file.0)
}

/// Puts the group of a file behind the others, if it is one.
#[tactic(auto, unfolding(mh_told::specs::Reading::with_file))]
fn add_group(
    alloc: Global,
    tags: &TagTable,
    groups: &mut Vec<(GroupName, Group)>,
    file: &(GroupName, Vec<u8>),
) -> Result<(), Unplayable>
    ensures added { OnOk result (with_file tags.now groups.old.items file.now ≡ Ok groups.new.items) }
    ensures refused { IfErr result (λ why. Fails why (with_file tags.now groups.old.items file.now)) }
{
    let bytes = file.1.as_slice();
    if is_group_file(tags, bytes) {
        let name = file.0.clone()?;
        let group = read_file(alloc, tags, file.0.as_bytes(), bytes)?;
        groups.push((name, group))?;
    }
    Ok(())
}

/// The content files of which the seal tells, of those that are there, in order.
#[tactic(auto, using(crate::proofs::HereLemmas::contents_more))]
pub fn contents_by(
    alloc: Global,
    seal: &Seal,
    tags: &TagTable,
    files: &[(GroupName, Vec<u8>)],
) -> Result<Seq<File>, AllocError>
    ensures { IfOk result (λ found. found ≡ contents_by seal.now tags.now files.now) }
{
    let mut found = Seq::new(alloc);
    for file in files {
        add_content(alloc, seal, tags, &mut found, file)?;
    }
    Ok(found)
}

/// Puts a file behind the others as content, where it is no group and the seal names it.
#[tactic(auto, using(crate::proofs::HereLemmas::content_one, crate::proofs::HereLemmas::no_content))]
fn add_content(
    alloc: Global,
    seal: &Seal,
    tags: &TagTable,
    found: &mut Seq<File>,
    file: &(GroupName, Vec<u8>),
) -> Result<(), AllocError>
    ensures { OnOk result (found.new ≡ found.old ++ contents_by seal.now tags.now (file.now ∷ [])) }
{
    if is_content(seal, tags, file) {
        found.push(content_of(alloc, file)?)?;
    }
    Ok(())
}

/// Whether a file is no group, and the seal names it.
fn is_content(seal: &Seal, tags: &TagTable, file: &(GroupName, Vec<u8>)) -> bool
    ensures { result ≡ is_content seal.now tags.now file.now }
{
    if is_group_file(tags, file.1.as_slice()) {
        return false;
    }
    is_named(seal, &file.0)
}

/// Whether the seal names a content file so.
fn is_named(seal: &Seal, name: &GroupName) -> bool
    ensures { result ≡ list_any (bytes_eq name.now) seal.now.contents }
{
    let names = seal.contents.as_slice();
    names.iter().any(|one| *name == *one)
}

fn content_of(alloc: Global, file: &(GroupName, Vec<u8>)) -> Result<File, AllocError>
    ensures { IfOk result (λ content. content ≡ content_of file.now) }
{
    Ok(File {
        name: file.0.clone()?,
        content: Octets::from_slice(alloc, file.1.as_slice())?,
    })
}
