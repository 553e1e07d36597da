//! The state behind some steps of a script.
//!
//! Promise: what is told is that of the state to which the commands lead, up to so many steps; `traces_stand_in_runs` of
//! `mh_trace` says that it is the state of the run.
ghost use Rattle.std.specs.Prelude.{◌≡◌, ◌++◌, [], IfOk, OnOk};
ghost use Rattle.mh_told.specs.Reading.{Gives};
ghost use Rattle.mh_try.specs.Standing as spec;
ghost use Rattle.mh_try.specs.Tried.{beginning};

use crate::tried::{Chosen, begun, bytes_of, read_commands, service_of};
use mh_base::{GroupName, ObjRef};
use mh_codec::TagTable;
use mh_machine::Machine;
use mh_model::File;
use mh_script::{Command, read_contents};
use mh_service::Service;
use mh_state::{put_cell, put_object, put_state};
use mh_told::tags::table_of;
use mh_told::text::Text;
use mh_told::unplayable::Unplayable;
use mh_trace::{Directory, Telling, Tracer};
use std::alloc::{AllocError, Global};

/// What is told of a state.
#[derive(Drop)]
pub enum Part {
    /// All of it.
    All,
    /// This object.
    Object(ObjRef),
    /// The cell with this number: its row times 60, and its column.
    Cell(usize),
}

/// The state behind so many steps of a script that is played on the service of these files, or behind all of them where
/// there are fewer, or of a part of it.
#[tactic(auto, unfolding(crate::specs::Standing::state_read))]
pub fn state_of(
    alloc: Global,
    files: &[(GroupName, Vec<u8>)],
    script: &[u8],
    chosen: &Chosen,
    steps: u64,
    part: &Part,
) -> Result<Text, Unplayable>
    ensures { Gives (λ text. text) result
        (spec.state_read steps part.now chosen.now files.now script.now) }
{
    let tags = table_of(alloc, bytes_of(&chosen.tags))?;
    let text = state_with(alloc, &tags, files, script, chosen, steps, part)?;
    Ok(text)
}

#[tactic(auto, unfolding(crate::specs::Standing::state_with))]
fn state_with(
    alloc: Global,
    tags: &TagTable,
    files: &[(GroupName, Vec<u8>)],
    script: &[u8],
    chosen: &Chosen,
    steps: u64,
    part: &Part,
) -> Result<Text, Unplayable>
    ensures { Gives (λ text. text) result
        (spec.state_with steps part.now chosen.now files.now script.now tags.now) }
{
    let service = service_of(alloc, tags, files, chosen)?;
    let commands = read_commands(alloc, tags, &service, script)?;
    let contents = read_contents(alloc, tags, &service, files)?;
    let text = state_on(
        alloc,
        service,
        chosen.mjd,
        contents.as_slice(),
        commands.as_slice(),
        steps,
        part,
    )?;
    Ok(text)
}

/// What is told of the state to which these lead on this service.
fn state_on(
    alloc: Global,
    service: Service,
    mjd: u32,
    contents: &[File],
    commands: &[Command],
    steps: u64,
    part: &Part,
) -> Result<Text, AllocError>
    ensures { IfOk result (λ text. text
        ≡ spec.told_behind steps part.now contents.now commands.now (beginning [] service mjd)) }
{
    let tracer = begun(alloc, Directory::new(alloc), service, mjd)?;
    let text = state_behind(alloc, tracer, contents, commands, steps, part)?;
    Ok(text)
}

/// What is told of the state to which these lead.
fn state_behind(
    alloc: Global,
    tracer: Tracer,
    contents: &[File],
    commands: &[Command],
    steps: u64,
    part: &Part,
) -> Result<Text, AllocError>
    ensures { IfOk result (λ text. text
        ≡ spec.told_behind steps part.now contents.now commands.now tracer) }
{
    let mut tracer = tracer;
    let text = tell_behind(alloc, &mut tracer, contents, commands, steps, part);
    drop(tracer);
    text
}

fn tell_behind(
    alloc: Global,
    tracer: &mut Tracer,
    contents: &[File],
    commands: &[Command],
    steps: u64,
    part: &Part,
) -> Result<Text, AllocError>
    ensures { IfOk result (λ text. text
        ≡ spec.told_behind steps part.now contents.now commands.now tracer.old) }
{
    let mut unread = Text::new(alloc);
    tracer.preset_all(&Telling::nothing(), contents, &mut unread)?;
    tracer.play_until(steps, commands)?;
    told_of(alloc, tracer.machine(), part)
}

fn told_of(alloc: Global, machine: &Machine, part: &Part) -> Result<Text, AllocError>
    ensures { IfOk result (λ text. text ≡ spec.told_of part.now machine.now) }
{
    let mut text = Text::new(alloc);
    put_told(alloc, &mut text, machine, part)?;
    Ok(text)
}

fn put_told(
    alloc: Global,
    text: &mut Text,
    machine: &Machine,
    part: &Part,
) -> Result<(), AllocError>
    ensures { OnOk result (text.new ≡ text.old ++ spec.told_of part.now machine.now) }
{
    match part {
        Part::All => put_state(alloc, text, machine),
        Part::Object(at) => put_object(alloc, text, machine.objects(), at),
        Part::Cell(cell) => put_cell(alloc, text, machine, *cell),
    }
}
