//! A script that leads a service to a goal: a fault, work that does not end, a scene, a text.
//!
//! Promise: what is handed out leads there; the search that proposes it is not trusted, and where it finds none that says
//! nothing of the service.
ghost use Rattle.std.specs.Prelude.{◌≡◌, IfOk, IfSome, Ok, true};
ghost use Rattle.mh_find.specs.Goal.{is_led};
ghost use Rattle.mh_told.specs.Reading.{Gives};
ghost use Rattle.mh_try.specs.Led as spec;

use crate::running::run;
use crate::tried::{Chosen, bytes_of, read_commands, service_of};
use mh_base::{GroupName, both};
use mh_codec::TagTable;
use mh_find::{Goal, Question, Unwatched, Watcher, Within, proposal};
use mh_machine::Machine;
use mh_model::File;
use mh_script::{Command, read_contents};
use mh_service::Service;
use mh_told::tags::table_of;
use mh_told::text::Text;
use mh_told::unplayable::Unplayable;
use std::alloc::{AllocError, Global};

/// A script that leads the service of these files to a fault, if one is found within so many inputs and steps.
pub fn fault_script(
    alloc: Global,
    files: &[(GroupName, Vec<u8>)],
    chosen: &Chosen,
    within: Within,
) -> Result<Option<Text>, Unplayable>
    ensures { IfOk result (λ found. IfSome found (λ script. spec.LeadsTo Goal.Fault chosen.now files.now script)) }
{
    let (goal, mut nobody) = (Goal::Fault, Unwatched);
    script_to(alloc, files, chosen, &goal, within, &mut nobody)
}

/// A script that leads the service of these files to the goal, if one is found within so many inputs and steps. The watcher
/// is told of each play.
pub fn script_to<W: Watcher>(
    alloc: Global,
    files: &[(GroupName, Vec<u8>)],
    chosen: &Chosen,
    goal: &Goal,
    within: Within,
    watcher: &mut W,
) -> Result<Option<Text>, Unplayable>
    ensures { IfOk result (λ found. IfSome found (λ script. spec.LeadsTo goal.now chosen.now files.now script)) }
{
    let tags = table_of(alloc, bytes_of(&chosen.tags))?;
    match proposed(alloc, &tags, files, chosen, goal, within, watcher)? {
        Some(script) => believed(alloc, &tags, files, chosen, goal, script),
        None => Ok(None),
    }
}

/// The script that the search proposes.
fn proposed<W: Watcher>(
    alloc: Global,
    tags: &TagTable,
    files: &[(GroupName, Vec<u8>)],
    chosen: &Chosen,
    goal: &Goal,
    within: Within,
    watcher: &mut W,
) -> Result<Option<Text>, Unplayable> {
    let service = service_of(alloc, tags, files, chosen)?;
    proposed_for(alloc, tags, files, chosen, goal, within, &service, watcher)
}

/// The script that the search proposes for this service of the files.
fn proposed_for<W: Watcher>(
    alloc: Global,
    tags: &TagTable,
    files: &[(GroupName, Vec<u8>)],
    chosen: &Chosen,
    goal: &Goal,
    within: Within,
    service: &Service,
    watcher: &mut W,
) -> Result<Option<Text>, Unplayable> {
    let contents = read_contents(alloc, tags, service, files)?;
    let question = question_of(
        alloc,
        tags,
        files,
        chosen,
        contents.as_slice(),
        goal,
        within,
    );
    let script = proposal(&question, watcher)?;
    Ok(script)
}

fn question_of<'a>(
    alloc: Global,
    tags: &'a TagTable,
    files: &'a [(GroupName, Vec<u8>)],
    chosen: &'a Chosen,
    contents: &'a [File],
    goal: &'a Goal,
    within: Within,
) -> Question<'a> {
    Question {
        alloc,
        files,
        tags,
        start: chosen.start.as_slice(),
        late: bytes_of(&chosen.late),
        contents,
        mjd: chosen.mjd,
        goal,
        within,
    }
}

/// The script, if it leads to the goal.
fn believed(
    alloc: Global,
    tags: &TagTable,
    files: &[(GroupName, Vec<u8>)],
    chosen: &Chosen,
    goal: &Goal,
    script: Text,
) -> Result<Option<Text>, Unplayable>
    ensures { IfOk result (λ found. IfSome found (λ it. spec.leads goal.now chosen.now files.now it tags.now ≡ Ok true)) }
{
    if leads(alloc, tags, files, chosen, goal, &script)? {
        return Ok(Some(script));
    }
    Ok(None)
}

#[tactic(auto, unfolding(crate::specs::Led::leads))]
fn leads(
    alloc: Global,
    tags: &TagTable,
    files: &[(GroupName, Vec<u8>)],
    chosen: &Chosen,
    goal: &Goal,
    script: &Text,
) -> Result<bool, Unplayable>
    ensures { Gives (λ leads. leads) result (spec.leads goal.now chosen.now files.now script.now tags.now) }
{
    let machine = ran(alloc, tags, files, script.as_slice(), chosen)?;
    Ok(is_reached(machine, goal))
}

/// Whether this machine is where a script is to lead.
fn is_reached(machine: Machine, goal: &Goal) -> bool
    ensures { result ≡ is_led goal.now machine }
{
    let mut machine = machine;
    goal.is_reached(&mut machine)
}

/// Where a script leads.
#[tactic(auto, unfolding(crate::specs::Led::run_with))]
fn ran(
    alloc: Global,
    tags: &TagTable,
    files: &[(GroupName, Vec<u8>)],
    script: &[u8],
    chosen: &Chosen,
) -> Result<Machine, Unplayable>
    ensures { Gives (λ machine. machine) result (spec.run_with chosen.now files.now script.now tags.now) }
{
    let service = service_of(alloc, tags, files, chosen)?;
    let commands = read_commands(alloc, tags, &service, script)?;
    let contents = read_contents(alloc, tags, &service, files)?;
    let end = ran_on(
        alloc,
        service,
        chosen.mjd,
        contents.as_slice(),
        commands.as_slice(),
    )?;
    Ok(end)
}

/// Where these lead on this service.
fn ran_on(
    alloc: Global,
    service: Service,
    mjd: u32,
    contents: &[File],
    commands: &[Command],
) -> Result<Machine, AllocError>
    ensures { IfOk result (λ end. end ≡ spec.run_of contents.now commands.now (spec.beginning service mjd)) }
{
    let machine = begun(alloc, service, mjd)?;
    let end = run_in(machine, contents, commands)?;
    Ok(end)
}

/// What a play begins with.
fn begun(alloc: Global, service: Service, mjd: u32) -> Result<Machine, AllocError>
    ensures { IfOk result (λ machine. machine ≡ spec.beginning service mjd) }
{
    match Machine::new(alloc, service, mjd) {
        Ok(machine) => Ok(machine),
        Err(_) => Err(AllocError),
    }
}

/// The machine behind the content files and the commands.
fn run_in(machine: Machine, contents: &[File], commands: &[Command]) -> Result<Machine, AllocError>
    ensures { IfOk result (λ end. end ≡ spec.run_of contents.now commands.now machine) }
{
    let mut machine = machine;
    let made = run(&mut machine, contents, commands);
    let (_, machine) = both(made, Ok(machine))?;
    Ok(machine)
}
