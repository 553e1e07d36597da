//! Files as a caller in C gives them, and the service that they make.
ghost use Rattle.std.specs.Prelude.{◌≡◌, ℕ, Some, None, IfOk, IfErr, IsErrOf, OnOk, true, false, []};
ghost use Rattle.mh_base.specs.Path.{is_path};
ghost use Rattle.mh_codec.specs.Tags.{profile};
ghost use Rattle.mh_told.specs.Reading.{Gives, group_in};
ghost use Rattle.redplay_c.specs.Files.{AreHanded, IsUnreadable, chosen_service, handed, have_paths, kept, reading_number};

use crate::crossing::Source;
use mh_base::{GroupName, NameError};
use mh_codec::TagTable;
use mh_group::Group;
use mh_model::SharedGroup;
use mh_service::Service;
use mh_told::reading::{read_file, read_service};
use mh_told::unplayable::Unplayable;
use std::alloc::Global;

/// The files in memory of the library's own, each under its name.
pub fn owned_files(
    alloc: Global,
    sources: &[Source],
) -> Result<Vec<(GroupName, Vec<u8>)>, NameError>
    ensures same { IfOk result (λ files. AreHanded sources.now files.items) }
    ensures good { OnOk result (have_paths sources.now ≡ true) }
    ensures bad { IsErrOf result NameError.BadName → have_paths sources.now ≡ false }
{
    let mut files = Vec::new(alloc);
    for source in sources {
        let file = owned_file(alloc, source)?;
        if files.push(file).is_err() {
            return Err(NameError::NoMemory);
        }
    }
    Ok(files)
}

fn owned_file(alloc: Global, source: &Source) -> Result<(GroupName, Vec<u8>), NameError>
    ensures same { IfOk result (λ file. kept file ≡ handed source.now) }
    ensures good { OnOk result (is_path source.now.name.now ≡ true) }
    ensures bad { IsErrOf result NameError.BadName → is_path source.now.name.now ≡ false }
{
    let name = GroupName::of_path(alloc, source.name)?;
    let bytes = Vec::from_slice(alloc, source.content)?;
    Ok((name, bytes))
}

/// The service of the files, in which the scenes come late that `late` names, a name a line.
pub fn read_chosen(
    alloc: Global,
    tags: &TagTable,
    files: &[(GroupName, Vec<u8>)],
    start: &[u8],
    late: &[u8],
) -> Result<Service, Unplayable>
    requires { tags.now ≡ profile }
    ensures gives { Gives (λ service. service) result (chosen_service start.now late.now files.now) }
    ensures plain { IfOk result (λ service. service.programs ≡ []) }
    ensures told { IfErr result (λ why. (n : ℕ) → reading_number why ≡ Some n → IsUnreadable (chosen_service start.now late.now files.now) n) }
{
    read_service(alloc, tags, files, start, Some(late))
}

/// The group that a file writes, by the tags of the profile.
pub fn read_group(alloc: Global, name: &GroupName, bytes: &[u8]) -> Result<SharedGroup, Unplayable>
    ensures gives { Gives (λ group. group) result (group_in profile name.now bytes.now) }
    ensures told { IfErr result (λ why. reading_number why ≡ None → why ≡ Unplayable.NoMemory) }
{
    match TagTable::profile(alloc) {
        Ok(tags) => read_tagged(alloc, &tags, name, bytes),
        Err(_) => Err(Unplayable::NoMemory),
    }
}

#[tactic(auto, using(crate::proofs::ReadingLemmas::shared_so, crate::proofs::ReadingLemmas::memory_told, crate::proofs::ReadingLemmas::unread_group))]
fn read_tagged(
    alloc: Global,
    tags: &TagTable,
    name: &GroupName,
    bytes: &[u8],
) -> Result<SharedGroup, Unplayable>
    requires { tags.now ≡ profile }
    ensures gives { Gives (λ group. group) result (group_in profile name.now bytes.now) }
    ensures told { IfErr result (λ why. reading_number why ≡ None → why ≡ Unplayable.NoMemory) }
{
    match read_file(alloc, tags, name.as_bytes(), bytes) {
        Ok(group) => shared(alloc, group),
        Err(why) => Err(why),
    }
}

fn shared(alloc: Global, group: Group) -> Result<SharedGroup, Unplayable>
    ensures same { IfOk result (λ made. made ≡ group) }
    ensures memory { IfErr result (λ why. why ≡ Unplayable.NoMemory) }
{
    match SharedGroup::new(alloc, group) {
        Ok(made) => Ok(made),
        Err(_) => Err(Unplayable::NoMemory),
    }
}
