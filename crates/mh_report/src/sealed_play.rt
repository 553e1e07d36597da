//! `play_sealed_bytes`: a seal, the files that are there and a script as bytes, and the report that playing them writes.
//!
//! The engine begins while late scenes are not there; the script brings their files. What the seal says of the service is
//! believed, and no verifier is asked.
ghost use Rattle.std.specs.Prelude.{◌≡◌, ◌-◌, ◌<◌, ◌^◌, List, Option, Some, Ok, Result, IfOk, OnOk, OnErr, IsErrOf};
ghost use Rattle.std.specs.Option.{option_copied};
ghost use Rattle.std.specs.Io.KnownBytes.{Appends};
ghost use Rattle.mh_seal.specs.declared.seal.Seal.{Seal as ASeal};
ghost use Rattle.mh_model.specs.State.{State};
ghost use Rattle.mh_script.specs.declared.script.Command.{Command as ACommand};
ghost use Rattle.mh_told.specs.declared.unplayable.Unplayable.{Unplayable as Unreadable};
ghost use Rattle.mh_told.specs.Reading.{Gives};
ghost use Rattle.mh_report.specs.BySeal.{Is, PlaysBySeal, commanded, readied_by, scripted, seal_line, started, told_by, unstarted, unstarted_by};
ghost use Rattle.mh_report.specs.Played.{HasBegun, HasWritten};
ghost use Rattle.mh_report.specs.Sink.{IsBeginning};

use crate::by_seal::{Ready, ready_by};
use crate::options::Options;
use crate::play::{complain, play_on};
use crate::play_error::PlayError;
use crate::playable::Playable;
use crate::player::Player;
use crate::reading::read_commands;
use crate::sink::{Sink, write_all};
use crate::status::Status;
use mh_base::{GroupName, Octets, Seq};
use mh_codec::TagTable;
use mh_engine::{SealedEngine, Unsealed};
use mh_group::Group;
use mh_model::File;
use mh_script::Command;
use mh_seal::{Seal, SealError, read_seal};
use mh_told::text::Text;
use mh_told::unplayable::Unplayable;
use std::alloc::{AllocError, Global};

/// Plays a script by the seal with these bytes, with those of the files that are there from the start, and writes the
/// report to the sink. After an error a beginning of the report was written, or nothing.
pub fn play_sealed_bytes<S: Sink>(
    alloc: Global,
    files: &[(GroupName, Vec<u8>)],
    bytes: &[u8],
    script: &[u8],
    options: &Options,
    sink: &mut S,
) -> Result<Status, PlayError>
    requires { S.failures sink.old < 2 ^ 64 - 1 }
    ensures written { IfOk result (HasWritten (PlaysBySeal options.now files.now bytes.now script.now) (S.written sink.old) (S.written sink.new)) }
    ensures begun { OnErr result (HasBegun (PlaysBySeal options.now files.now bytes.now script.now) (S.written sink.old) (S.written sink.new)) }
    ensures write { IsErrOf result PlayError.Write → S.failures sink.old < S.failures sink.new }
{
    match read_seal(alloc, bytes) {
        Ok(seal) => play_by(alloc, seal, files, script, options, sink),
        Err(why) => match why {
            SealError::NoMemory => Err(PlayError::NoMemory),
            _ => tell_seal(alloc, why, sink),
        },
    }
}

/// Says what is wrong with a seal.
fn tell_seal<S: Sink>(alloc: Global, why: SealError, sink: &mut S) -> Result<Status, PlayError>
    requires { S.failures sink.old < 2 ^ 64 - 1 }
    ensures report { OnOk result (Appends (S.written sink.old) (S.written sink.new) (seal_line why)) }
    ensures status { IfOk result (λ status. status ≡ Status.Unreadable) }
    ensures cut { OnErr result (IsBeginning (S.written sink.old) (S.written sink.new) (seal_line why)) }
    ensures write { IsErrOf result PlayError.Write → S.failures sink.old < S.failures sink.new }
{
    let line = seal_line(alloc, why)?;
    write_all(sink, line.as_slice())?;
    Ok(Status::Unreadable)
}

/// The line on bytes that are no seal.
#[tactic(auto, unfolding(crate::specs::BySeal::seal_line))]
fn seal_line(alloc: Global, why: SealError) -> Result<Text, AllocError>
    ensures { IfOk result (λ text. text ≡ seal_line why) }
{
    let mut text = Text::new(alloc);
    match why {
        SealError::Line(number) => {
            text.put(b"seal 70 ")?;
            text.put_number(number as u64)?;
        }
        SealError::Version => text.put(b"seal 71 1")?,
        SealError::NoMemory => return Ok(text),
    }
    text.put(b"\n")?;
    Ok(text)
}

/// Plays by a seal, where what it wants can be read.
fn play_by<S: Sink>(
    alloc: Global,
    seal: Seal,
    files: &[(GroupName, Vec<u8>)],
    script: &[u8],
    options: &Options,
    sink: &mut S,
) -> Result<Status, PlayError>
    requires { S.failures sink.old < 2 ^ 64 - 1 }
    ensures written { let told = told_by seal options.now.mjd script.now (readied_by seal files.now options.now) in
        IfOk result (HasWritten (Is told) (S.written sink.old) (S.written sink.new)) }
    ensures begun { let told = told_by seal options.now.mjd script.now (readied_by seal files.now options.now) in
        OnErr result (HasBegun (Is told) (S.written sink.old) (S.written sink.new)) }
    ensures write { IsErrOf result PlayError.Write → S.failures sink.old < S.failures sink.new }
{
    match ready_by(alloc, &seal, files, options) {
        Ok(ready) => play_ready(alloc, seal, ready, script, options.mjd, sink),
        Err(why) => match why {
            Unplayable::NoMemory => Err(PlayError::NoMemory),
            _ => complain(alloc, &why, sink),
        },
    }
}

/// Begins by a seal, and plays.
fn play_ready<S: Sink>(
    alloc: Global,
    seal: Seal,
    ready: Ready,
    script: &[u8],
    mjd: u32,
    sink: &mut S,
) -> Result<Status, PlayError>
    requires { S.failures sink.old < 2 ^ 64 - 1 }
    ensures written { let told = told_by seal mjd script.now (Ok ready) in
        IfOk result (HasWritten (Is told) (S.written sink.old) (S.written sink.new)) }
    ensures begun { let told = told_by seal mjd script.now (Ok ready) in
        OnErr result (HasBegun (Is told) (S.written sink.old) (S.written sink.new)) }
    ensures write { IsErrOf result PlayError.Write → S.failures sink.old < S.failures sink.new }
{
    let Ready {
        tags,
        groups,
        contents,
    } = ready;
    let started = start(alloc, seal, groups.into_vec(), mjd);
    play_started(alloc, &tags, started, contents.as_slice(), script, sink)
}

/// An engine that begins by the seal with these groups, or which group stands in the way.
#[tactic(auto, using(crate::proofs::SealedPlayLemmas::started_so, crate::proofs::SealedPlayLemmas::unstarted_so))]
fn start(
    alloc: Global,
    seal: Seal,
    groups: Vec<(GroupName, Group)>,
    mjd: u32,
) -> Result<SealedEngine, Unplayable>
    ensures started { Gives (λ engine. engine.state) result (started seal groups.items mjd) }
    ensures seal { IfOk result (λ engine. engine.seal ≡ seal) }
{
    match SealedEngine::start(alloc, seal, groups, mjd) {
        Ok(engine) => Ok(engine),
        Err(why) => {
            let said = unstarted(alloc, &why);
            drop(why);
            Err(or_memory(said))
        }
    }
}

/// What is said, or that memory was refused for it.
fn or_memory(said: Result<Unplayable, AllocError>) -> Unplayable
    ensures said { IfOk said (λ e. result ≡ e) }
    ensures memory { OnErr said (result ≡ Unplayable.NoMemory) }
{
    match said {
        Ok(said) => said,
        Err(_) => Unplayable::NoMemory,
    }
}

/// What is told of the group that stands in the way.
fn unstarted(alloc: Global, why: &Unsealed) -> Result<Unplayable, AllocError>
    ensures { IfOk result (λ said. said ≡ unstarted why.now) }
{
    match why.number() {
        Some(number) => named(alloc, number, why.group()),
        None => Ok(Unplayable::NoMemory),
    }
}

/// What is told of a group under this number.
fn named(alloc: Global, number: u32, group: Option<&GroupName>) -> Result<Unplayable, AllocError>
    ensures { IfOk result (λ said. said ≡ unstarted_by (Some number) (option_copied group.entry)) }
{
    match group {
        Some(group) => Ok(Unplayable::Service {
            number,
            group: Octets::from_slice(alloc, group.as_bytes())?,
        }),
        None => Ok(Unplayable::NoMemory),
    }
}

/// Plays a script on an engine that has just begun, where there is one.
fn play_started<E: Playable, S: Sink>(
    alloc: Global,
    tags: &TagTable,
    started: Result<E, Unplayable>,
    contents: &[File],
    script: &[u8],
    sink: &mut S,
) -> Result<Status, PlayError>
    requires { S.failures sink.old < 2 ^ 64 - 1 }
    ensures written { (k : Option ASeal) (r : Result State Unreadable) → IfOk started (λ e. E.seal e ≡ k) → Gives E.state started r →
        IfOk result (HasWritten (Is (scripted k tags.now contents.now script.now r)) (S.written sink.old) (S.written sink.new)) }
    ensures begun { (k : Option ASeal) (r : Result State Unreadable) → IfOk started (λ e. E.seal e ≡ k) → Gives E.state started r →
        OnErr result (HasBegun (Is (scripted k tags.now contents.now script.now r)) (S.written sink.old) (S.written sink.new)) }
    ensures write { IsErrOf result PlayError.Write → S.failures sink.old < S.failures sink.new }
{
    match started {
        Ok(engine) => {
            let service = engine.looked_at().service();
            let commands = read_commands(alloc, tags, service, script);
            play_commands(alloc, engine, commands, contents, sink)
        }
        Err(why) => match why {
            Unplayable::NoMemory => Err(PlayError::NoMemory),
            _ => complain(alloc, &why, sink),
        },
    }
}

/// Plays the commands of the script, where it could be read.
fn play_commands<E: Playable, S: Sink>(
    alloc: Global,
    engine: E,
    commands: Result<Seq<Command>, Unplayable>,
    contents: &[File],
    sink: &mut S,
) -> Result<Status, PlayError>
    requires { S.failures sink.old < 2 ^ 64 - 1 }
    ensures written { (r : Result (List ACommand) Unreadable) → Gives (λ cs. cs) commands r →
        IfOk result (HasWritten (Is (commanded (E.seal engine) contents.now (E.state engine) r)) (S.written sink.old) (S.written sink.new)) }
    ensures begun { (r : Result (List ACommand) Unreadable) → Gives (λ cs. cs) commands r →
        OnErr result (HasBegun (Is (commanded (E.seal engine) contents.now (E.state engine) r)) (S.written sink.old) (S.written sink.new)) }
    ensures write { IsErrOf result PlayError.Write → S.failures sink.old < S.failures sink.new }
{
    match commands {
        Ok(commands) => play_on(
            alloc,
            Player::with_files(alloc, engine, contents),
            commands.as_slice(),
            sink,
        ),
        Err(why) => {
            drop(engine);
            match why {
                Unplayable::NoMemory => Err(PlayError::NoMemory),
                _ => complain(alloc, &why, sink),
            }
        }
    }
}
