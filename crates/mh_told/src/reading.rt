//! Reading: the service that files make, or what cannot be read.
//!
//! Promise: each function answers what the definition of its name in `specs/Reading` says. Where the files come
//! from is left to the caller, and so is what the service is for.
ghost use Rattle.std.specs.Prelude.{◌≡◌, [], Ok, map, IfOk, IfErr, OnOk};
ghost use Rattle.std.specs.Option.{option_copied};
ghost use Rattle.mh_service.specs.Refusals.{refusal_of};
ghost use Rattle.mh_service.specs.Resolved.{resolved};
ghost use Rattle.mh_service.specs.Numbers.{why_number};
ghost use Rattle.mh_text.specs.Reading.{read};
ghost use Rattle.mh_codec.specs.Reading.{read as read_octets_lem};
ghost use Rattle.mh_told.specs.Reading.{with_file, is_group_file, group_in, spelled, read_files, service_of, service_read, service_tagged, named, unless_refused, unstartable_for, unserviceable, Gives, Fails};

use crate::late::with_late;
use crate::tags::table_of;
use crate::unplayable::Unplayable;
use mh_base::{GroupName, NameError, Octets};
use mh_codec::{CodecError, TagTable, decode_group};
use mh_group::Group;
use mh_service::{Service, ServiceError, Why, double_name};
use mh_text::{TextError, read_group};
use std::alloc::{AllocError, Global};

/// The service of the groups among the files, which begins with the group that `start` names, and in which the
/// scenes come late that `late` names, a name a line; or the first thing that is in the way, memory apart. A
/// file that does not begin as a group does is passed over. `tags` has the tags of the binary notation.
#[tactic(auto, unfolding(crate::specs::Reading::service_read))]
pub fn read_service(
    alloc: Global,
    tags: &TagTable,
    files: &[(GroupName, Vec<u8>)],
    start: &[u8],
    late: Option<&[u8]>,
) -> Result<Service, Unplayable>
    ensures { Gives (λ service. service) result (service_read tags.now start.now (option_copied late.entry) files.now) }
{
    let groups = read_files(alloc, tags, files)?;
    let service = service_of(alloc, groups, start)?;
    with_late(alloc, service, late)
}

/// The same with the tags of the binary notation that a file gives, a tag a line. What is wrong with it comes before all
/// else.
#[tactic(auto, unfolding(crate::specs::Reading::service_tagged))]
pub fn read_tagged_service(
    alloc: Global,
    tags: Option<&[u8]>,
    files: &[(GroupName, Vec<u8>)],
    start: &[u8],
    late: Option<&[u8]>,
) -> Result<Service, Unplayable>
    ensures { Gives (λ service. service) result (service_tagged (option_copied tags.entry) start.now (option_copied late.entry) files.now) }
{
    let tags = table_of(alloc, tags)?;
    read_service(alloc, &tags, files, start, late)
}

/// The groups of the files that are groups, in order.
fn read_files(
    alloc: Global,
    tags: &TagTable,
    files: &[(GroupName, Vec<u8>)],
) -> Result<Vec<(GroupName, Group)>, Unplayable>
    ensures { Gives (λ groups. groups.items) result (read_files tags.now [] files.now) }
{
    let mut groups = Vec::new(alloc);
    let added = add_files(alloc, tags, &mut groups, files);
    added.and(Ok(groups))
}

/// Puts the groups of the files that are groups behind the others, in order.
fn add_files(
    alloc: Global,
    tags: &TagTable,
    groups: &mut Vec<(GroupName, Group)>,
    files: &[(GroupName, Vec<u8>)],
) -> Result<(), Unplayable>
    ensures added { OnOk result (read_files tags.now groups.old.items files.now ≡ Ok groups.new.items) }
    ensures refused { IfErr result (λ why. Fails why (read_files tags.now groups.old.items files.now)) }
{
    for file in files {
        add_file(alloc, tags, groups, file)?;
    }
    Ok(())
}

/// Puts the group of a file behind the others, if it is one.
#[tactic(auto, unfolding(crate::specs::Reading::with_file))]
fn add_file(
    alloc: Global,
    tags: &TagTable,
    groups: &mut Vec<(GroupName, Group)>,
    file: &(GroupName, Vec<u8>),
) -> Result<(), Unplayable>
    ensures added { OnOk result (with_file tags.now groups.old.items file.now ≡ Ok groups.new.items) }
    ensures refused { IfErr result (λ why. Fails why (with_file tags.now groups.old.items file.now)) }
{
    let bytes = file.1.as_slice();
    if is_group_file(tags, bytes) {
        let name = file.0.clone()?;
        let group = read_file(alloc, tags, file.0.as_bytes(), bytes)?;
        groups.push((name, group))?;
    }
    Ok(())
}

/// Whether the bytes begin as a group does, in either notation, the binary one with these tags.
pub fn is_group_file(tags: &TagTable, bytes: &[u8]) -> bool
    ensures { result ≡ is_group_file tags.now bytes.now }
{
    mh_text::begins_group(bytes) || mh_codec::begins_group(tags, bytes)
}

/// The group that the file writes, in the notation in which it begins. A refusal calls the file by its
/// name.
#[tactic(auto, unfolding(crate::specs::Reading::group_in))]
pub fn read_file(
    alloc: Global,
    tags: &TagTable,
    name: &[u8],
    bytes: &[u8],
) -> Result<Group, Unplayable>
    ensures { Gives (λ g. g) result (group_in tags.now name.now bytes.now) }
{
    if mh_codec::begins_group(tags, bytes) {
        read_octets(alloc, tags, name, bytes)
    } else {
        read_text(alloc, name, bytes)
    }
}

fn read_octets(
    alloc: Global,
    tags: &TagTable,
    name: &[u8],
    octets: &[u8],
) -> Result<Group, Unplayable>
    ensures { Gives (λ g. g) result (spelled name.now (read_octets_lem tags.now octets.now)) }
{
    match decode_group(alloc, tags, octets) {
        Ok(group) => Ok(group),
        Err(CodecError::At { why, offset }) => Err(Unplayable::File {
            name: Octets::from_slice(alloc, name)?,
            number: why.number(),
            offset,
        }),
        Err(CodecError::NoMemory) => Err(Unplayable::NoMemory),
    }
}

fn read_text(alloc: Global, name: &[u8], bytes: &[u8]) -> Result<Group, Unplayable>
    ensures { Gives (λ g. g) result (named name.now (read bytes.now)) }
{
    match read_group(alloc, bytes) {
        Ok(group) => Ok(group),
        Err(TextError::At { why, offset }) => Err(Unplayable::File {
            name: Octets::from_slice(alloc, name)?,
            number: why.number(),
            offset,
        }),
        Err(TextError::NoMemory) => Err(Unplayable::NoMemory),
    }
}

/// The service of the groups.
#[tactic(auto, unfolding(crate::specs::Reading::service_of, crate::specs::Reading::refusal_for))]
fn service_of(
    alloc: Global,
    groups: Vec<(GroupName, Group)>,
    start: &[u8],
) -> Result<Service, Unplayable>
    ensures { Gives (λ service. service) result (service_of start.now groups.items) }
{
    match GroupName::of_path(alloc, start) {
        Ok(name) => started_service(alloc, groups, name),
        Err(NameError::BadName) => Err(unstartable(alloc, groups.as_slice(), start)?),
        Err(NameError::NoMemory) => Err(Unplayable::NoMemory),
    }
}

fn started_service(
    alloc: Global,
    groups: Vec<(GroupName, Group)>,
    start: GroupName,
) -> Result<Service, Unplayable>
    ensures { Gives (λ service. service) result (unless_refused (refusal_of start groups.items) (record { groups = map resolved groups.items; start = start; programs = []; files = groups.items; late = [] })) }
{
    match Service::of_files(alloc, groups, start) {
        Ok(service) => Ok(service),
        Err(ServiceError::Refused { why, group }) => {
            Err(refused_for(alloc, why, group.as_bytes())?)
        }
        Err(ServiceError::NoMemory) => Err(Unplayable::NoMemory),
    }
}

/// Why the groups make no service where the start is no path, and so the name of none of them.
fn unstartable(
    alloc: Global,
    groups: &[(GroupName, Group)],
    start: &[u8],
) -> Result<Unplayable, AllocError>
    ensures { IfOk result (λ why. why ≡ unserviceable (unstartable_for start.now groups.now)) }
{
    match double_name(alloc, groups)? {
        Some(name) => refused_for(alloc, Why::DoubleName, name.as_bytes()),
        None => refused_for(alloc, Why::NoStart, start),
    }
}

fn refused_for(alloc: Global, why: Why, group: &[u8]) -> Result<Unplayable, AllocError>
    ensures { IfOk result (λ said. said ≡ Unplayable.Service (why_number why) group.now) }
{
    Ok(Unplayable::Service {
        number: why.number(),
        group: Octets::from_slice(alloc, group)?,
    })
}
