//! Reading: what is to be played, which is the service that files make (`mh_told` reads that), its content
//! files, and the commands of a script; or what cannot be read.
//!
//! Promise: each function answers what the definition of its name in `specs/Reading` says.
ghost use Rattle.mh_told.specs.Reading.{Gives};
ghost use Rattle.mh_report.specs.Reading.{chosen_service, readied, readied_with, service_with, commands_of};

use crate::material::Material;
use crate::options::Options;
use mh_base::{GroupName, Seq};
use mh_codec::TagTable;
use mh_script::{Command, ScriptError, read_contents, read_script};
use mh_service::Service;
use mh_told::reading::{read_service, read_tagged_service};
use mh_told::tags::table_of;
use mh_told::unplayable::Unplayable;
use std::alloc::Global;

/// What is to be played: a service, its content files and commands.
#[tactic(auto, unfolding(crate::specs::Reading::readied))]
pub fn ready(
    alloc: Global,
    files: &[(GroupName, Vec<u8>)],
    script: &[u8],
    options: &Options,
) -> Result<Material, Unplayable>
    ensures { Gives (λ material. material) result (readied options.now files.now script.now) }
{
    let tags = table_of(alloc, options.tags())?;
    ready_with(alloc, &tags, files, script, options)
}

/// The same, with these tags of the binary notation.
#[tactic(auto, unfolding(crate::specs::Reading::readied_with))]
fn ready_with(
    alloc: Global,
    tags: &TagTable,
    files: &[(GroupName, Vec<u8>)],
    script: &[u8],
    options: &Options,
) -> Result<Material, Unplayable>
    ensures { Gives (λ material. material) result (readied_with options.now files.now script.now tags.now) }
{
    let service = service_with(alloc, tags, files, options)?;
    let commands = read_commands(alloc, tags, &service, script)?;
    let files = read_contents(alloc, tags, &service, files)?;
    Ok(Material {
        service,
        files,
        commands,
    })
}

/// The service of the files, with the tags, the start and the late scenes that are chosen.
pub fn chosen_service(
    alloc: Global,
    files: &[(GroupName, Vec<u8>)],
    options: &Options,
) -> Result<Service, Unplayable>
    ensures { Gives (λ service. service) result (chosen_service options.now files.now) }
{
    read_tagged_service(
        alloc,
        options.tags(),
        files,
        options.start.as_slice(),
        options.late(),
    )
}

/// The same, with these tags of the binary notation.
fn service_with(
    alloc: Global,
    tags: &TagTable,
    files: &[(GroupName, Vec<u8>)],
    options: &Options,
) -> Result<Service, Unplayable>
    ensures { Gives (λ service. service) result (service_with options.now files.now tags.now) }
{
    let late = options.late();
    read_service(alloc, tags, files, options.start.as_slice(), late)
}

/// The commands of a script that is played on this service.
#[tactic(auto, unfolding(crate::specs::Reading::commands_of))]
pub fn read_commands(
    alloc: Global,
    tags: &TagTable,
    service: &Service,
    script: &[u8],
) -> Result<Seq<Command>, Unplayable>
    ensures { Gives (λ found. found) result (commands_of tags.now service.now.files script.now) }
{
    match read_script(alloc, tags, service, script) {
        Ok(commands) => Ok(commands),
        Err(ScriptError::Wrong(number)) => Err(Unplayable::Script(number)),
        Err(ScriptError::NoMemory) => Err(Unplayable::NoMemory),
    }
}
