//! Scripts that are played on a service, and what is told of them.
//!
//! A service is played whatever the verifier would say of it, and with the built-in programs alone.
ghost use Rattle.std.specs.Prelude.{◌≡◌, IfOk};
ghost use Rattle.std.specs.Option.{option_copied, option_map};
ghost use Rattle.mh_told.specs.Reading.{Gives};
ghost use Rattle.mh_try.specs.Directory.{directory_of as written_in};
ghost use Rattle.mh_try.specs.Tried as spec;

use crate::directory::directory_of;
use crate::naming::narrowed;
use mh_base::{GroupName, ObjRef, Seq, both};
use mh_codec::TagTable;
use mh_machine::Machine;
use mh_model::File;
use mh_script::{Command, ScriptError, read_contents, read_script};
use mh_service::Service;
use mh_told::reading::read_service;
use mh_told::tags::table_of;
use mh_told::text::Text;
use mh_told::unplayable::Unplayable;
use mh_trace::{Directory, Telling, Tracer};
use std::alloc::{AllocError, Global};

/// What is chosen of a service and of a play.
#[derive(Drop)]
pub struct Chosen {
    /// The path of the application to start with, as it was given.
    pub start: Vec<u8>,
    /// The file that names the scenes whose files come late, a name a line; without it none does.
    pub late: Option<Vec<u8>>,
    /// The file that gives the tags of the binary notation, a tag a line; without it they are the profile's.
    pub tags: Option<Vec<u8>>,
    /// The modified Julian day on which the play begins, at most 1,000,000.
    pub mjd: u32,
}

/// A play that is told: its lines, and what was traced.
#[derive(Drop)]
pub(crate) struct Play {
    pub(crate) text: Text,
    pub(crate) tracer: Tracer,
}

/// The trace of a script that is played on the service of these files, with the steps and in the form that are asked for;
/// with `only` the lines of it that name this object.
#[tactic(auto, unfolding(crate::specs::Tried::trace_read))]
pub fn trace_of(
    alloc: Global,
    files: &[(GroupName, Vec<u8>)],
    script: &[u8],
    chosen: &Chosen,
    telling: &Telling,
    only: Option<&ObjRef>,
) -> Result<Text, Unplayable>
    ensures { Gives (λ text. text) result
        (spec.trace_read telling.now chosen.now (option_copied only.entry) files.now script.now) }
{
    let tags = table_of(alloc, bytes_of(&chosen.tags))?;
    let text = told_of(alloc, &tags, files, script, chosen, telling)?;
    let lines = narrowed(alloc, telling.form, only, text)?;
    Ok(lines)
}

/// What is told of a script, whole.
#[tactic(auto, unfolding(crate::specs::Tried::told_with))]
fn told_of(
    alloc: Global,
    tags: &TagTable,
    files: &[(GroupName, Vec<u8>)],
    script: &[u8],
    chosen: &Chosen,
    telling: &Telling,
) -> Result<Text, Unplayable>
    ensures { Gives (λ text. text) result
        (spec.told_with telling.now chosen.now files.now script.now tags.now) }
{
    let played = played_as(alloc, tags, files, script, chosen, telling)?;
    Ok(text_in(played))
}

fn text_in(played: Play) -> Text
    ensures { result ≡ played.text }
{
    let Play { text, tracer } = played;
    drop(tracer);
    text
}

/// The bytes that an option holds, lent.
pub(crate) fn bytes_of(bytes: &Option<Vec<u8>>) -> Option<&[u8]>
    ensures { option_copied result ≡ option_map (λ held. held.items) bytes.now }
{
    match bytes {
        Some(bytes) => Some(bytes.as_slice()),
        None => None,
    }
}

/// The service of the files, with what is chosen.
pub fn service_of(
    alloc: Global,
    tags: &TagTable,
    files: &[(GroupName, Vec<u8>)],
    chosen: &Chosen,
) -> Result<Service, Unplayable>
    ensures { Gives (λ service. service) result (spec.service_with chosen.now files.now tags.now) }
{
    let late = bytes_of(&chosen.late);
    read_service(alloc, tags, files, chosen.start.as_slice(), late)
}

/// Plays a script, and tells no step of it.
pub(crate) fn played(
    alloc: Global,
    tags: &TagTable,
    files: &[(GroupName, Vec<u8>)],
    script: &[u8],
    chosen: &Chosen,
) -> Result<Play, Unplayable>
    ensures { Gives (λ played. (played.text, played.tracer)) result
        (spec.played_with chosen.now files.now script.now tags.now) }
{
    played_as(alloc, tags, files, script, chosen, &Telling::nothing())
}

/// Plays a script, and tells what it does.
#[tactic(auto, unfolding(crate::specs::Tried::played_as))]
fn played_as(
    alloc: Global,
    tags: &TagTable,
    files: &[(GroupName, Vec<u8>)],
    script: &[u8],
    chosen: &Chosen,
    telling: &Telling,
) -> Result<Play, Unplayable>
    ensures { Gives (λ played. (played.text, played.tracer)) result
        (spec.played_as telling.now chosen.now files.now script.now tags.now) }
{
    let service = service_of(alloc, tags, files, chosen)?;
    let commands = read_commands(alloc, tags, &service, script)?;
    let contents = read_contents(alloc, tags, &service, files)?;
    let played = played_on(
        alloc,
        files,
        service,
        chosen.mjd,
        telling,
        contents.as_slice(),
        commands.as_slice(),
    )?;
    Ok(played)
}

/// Plays these commands on the service of the files, with these content files there, and tells what they do.
fn played_on(
    alloc: Global,
    files: &[(GroupName, Vec<u8>)],
    service: Service,
    mjd: u32,
    telling: &Telling,
    contents: &[File],
    commands: &[Command],
) -> Result<Play, AllocError>
    ensures { IfOk result (λ played. (played.text, played.tracer)
        ≡ spec.told telling.now contents.now commands.now (spec.beginning (written_in files.now) service mjd)) }
{
    let directory = directory_of(alloc, files)?;
    let tracer = begun(alloc, directory, service, mjd)?;
    let told = told(alloc, telling, tracer, contents, commands)?;
    Ok(told)
}

/// What a play begins with.
pub fn begun(
    alloc: Global,
    directory: Directory,
    service: Service,
    mjd: u32,
) -> Result<Tracer, AllocError>
    ensures { IfOk result (λ tracer. tracer ≡ spec.beginning directory service mjd) }
{
    match Machine::new(alloc, service, mjd) {
        Ok(machine) => Ok(Tracer::new(alloc, machine, directory)),
        Err(_) => Err(AllocError),
    }
}

/// Puts the content files there, does the commands, and tells both.
fn told(
    alloc: Global,
    telling: &Telling,
    tracer: Tracer,
    contents: &[File],
    commands: &[Command],
) -> Result<Play, AllocError>
    ensures { IfOk result (λ played. (played.text, played.tracer) ≡ spec.told telling.now contents.now commands.now tracer) }
{
    let mut tracer = tracer;
    let text = tell(alloc, telling, &mut tracer, contents, commands);
    let (text, tracer) = both(text, Ok(tracer))?;
    Ok(Play { text, tracer })
}

/// The same with a tracer that is lent, so that no machine is dropped where memory is refused.
fn tell(
    alloc: Global,
    telling: &Telling,
    tracer: &mut Tracer,
    contents: &[File],
    commands: &[Command],
) -> Result<Text, AllocError>
    ensures { IfOk result (λ text. (text, tracer.new) ≡ spec.told telling.now contents.now commands.now tracer.old) }
{
    let mut text = Text::new(alloc);
    tracer.preset_all(telling, contents, &mut text)?;
    tracer.play(telling, commands, &mut text)?;
    Ok(text)
}

/// The commands of a script that is played on this service.
#[tactic(auto, unfolding(crate::specs::Tried::commands_of))]
pub fn read_commands(
    alloc: Global,
    tags: &TagTable,
    service: &Service,
    script: &[u8],
) -> Result<Seq<Command>, Unplayable>
    ensures { Gives (λ found. found) result (spec.commands_of tags.now service.now.files script.now) }
{
    match read_script(alloc, tags, service, script) {
        Ok(commands) => Ok(commands),
        Err(ScriptError::Wrong(number)) => Err(Unplayable::Script(number)),
        Err(ScriptError::NoMemory) => Err(Unplayable::NoMemory),
    }
}
