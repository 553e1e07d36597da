//! `play_bytes`: a service and a script as bytes, and the report that playing them writes.
//!
//! Either something cannot be read: then one line says what, and nothing is played. Or everything is
//! read; then the verifier is asked, unless a lenient play is wanted, the content files are put there, and
//! `player` plays the script. Where the bytes come from and go to is left to the caller.
ghost use Rattle.std.specs.Prelude.{◌≡◌, ◌-◌, ◌<◌, ◌^◌, [], false, Ok, Result, IfOk, OnOk, OnErr, IsErrOf};
ghost use Rattle.std.specs.Io.KnownBytes.{Appends};
ghost use Rattle.mh_told.specs.declared.unplayable.Unplayable.{Unplayable as Unreadable};
ghost use Rattle.mh_report.specs.Sink.{IsBeginning};
ghost use Rattle.mh_report.specs.Report.{Session};
ghost use Rattle.mh_verdict.specs.Lines.{complaint, refusal_lines};
ghost use Rattle.mh_told.specs.Reading.{Gives};
ghost use Rattle.mh_report.specs.Reading.{readied};
ghost use Rattle.mh_report.specs.Presets.{opened};
ghost use Rattle.mh_report.specs.Played.{play_lines, play_status, Plays, HasWritten, HasBegun};

use crate::material::Material;
use crate::options::Options;
use crate::play_error::PlayError;
use crate::player::{Player, Plays};
use crate::reading::ready;
use crate::sink::{Sink, write_all};
use crate::status::Status;
use crate::verdict::verified;
use mh_base::GroupName;
use mh_model::File;
use mh_script::Command;
use mh_service::Service;
use mh_told::unplayable::Unplayable;
use mh_verdict::{complaint_text, refusal_text};
use mh_verify::{Accepted, Refusal, RefusalKind};
use std::alloc::Global;

/// Plays a script on the service of these files, and writes the report to the sink. The content files
/// that the service names are there from the start. After an error a beginning of the report was written,
/// or nothing.
pub fn play_bytes<S: Sink>(
    alloc: Global,
    files: &[(GroupName, Vec<u8>)],
    script: &[u8],
    options: &Options,
    sink: &mut S,
) -> Result<Status, PlayError>
    requires { S.failures sink.old < 2 ^ 64 - 1 }
    ensures written { IfOk result (HasWritten (Plays options.now.mjd options.now.lenient (readied options.now files.now script.now)) (S.written sink.old) (S.written sink.new)) }
    ensures begun { OnErr result (HasBegun (Plays options.now.mjd options.now.lenient (readied options.now files.now script.now)) (S.written sink.old) (S.written sink.new)) }
    ensures write { IsErrOf result PlayError.Write → S.failures sink.old < S.failures sink.new }
{
    match ready(alloc, files, script, options) {
        Ok(material) => play_ready(alloc, material, options, sink),
        Err(why) => match why {
            Unplayable::NoMemory => Err(PlayError::NoMemory),
            _ => complain(alloc, &why, sink),
        },
    }
}

fn play_ready<S: Sink>(
    alloc: Global,
    material: Material,
    options: &Options,
    sink: &mut S,
) -> Result<Status, PlayError>
    requires plain { material.service.programs ≡ [] }
    requires room { S.failures sink.old < 2 ^ 64 - 1 }
    ensures written { IfOk result (HasWritten (Plays options.now.mjd options.now.lenient (Ok material)) (S.written sink.old) (S.written sink.new)) }
    ensures begun { OnErr result (HasBegun (Plays options.now.mjd options.now.lenient (Ok material)) (S.written sink.old) (S.written sink.new)) }
    ensures write { IsErrOf result PlayError.Write → S.failures sink.old < S.failures sink.new }
{
    let Material {
        service,
        files,
        commands,
    } = material;
    let mjd = options.mjd;
    let lenient = options.lenient;
    if lenient {
        play_service(
            alloc,
            service,
            mjd,
            files.as_slice(),
            commands.as_slice(),
            sink,
        )
    } else {
        play_verified(
            alloc,
            service,
            mjd,
            files.as_slice(),
            commands.as_slice(),
            sink,
        )
    }
}

/// Plays on a service if the verifier accepts it, and else says why not.
fn play_verified<S: Sink>(
    alloc: Global,
    service: Service,
    mjd: u32,
    files: &[File],
    commands: &[Command],
    sink: &mut S,
) -> Result<Status, PlayError>
    requires plain { service.programs ≡ [] }
    requires room { S.failures sink.old < 2 ^ 64 - 1 }
    ensures written { IfOk result (HasWritten (Plays mjd false (Ok (record { service = service; files = files.now; commands = commands.now }))) (S.written sink.old) (S.written sink.new)) }
    ensures begun { OnErr result (HasBegun (Plays mjd false (Ok (record { service = service; files = files.now; commands = commands.now }))) (S.written sink.old) (S.written sink.new)) }
    ensures write { IsErrOf result PlayError.Write → S.failures sink.old < S.failures sink.new }
{
    match verified(alloc, service) {
        Ok(accepted) => play_accepted(alloc, accepted, mjd, files, commands, sink),
        Err(refusal) => match refusal.kind {
            RefusalKind::NoMemory => Err(PlayError::NoMemory),
            _ => refuse(alloc, &refusal, sink),
        },
    }
}

/// Plays the commands on a service.
fn play_service<S: Sink>(
    alloc: Global,
    service: Service,
    mjd: u32,
    files: &[File],
    commands: &[Command],
    sink: &mut S,
) -> Result<Status, PlayError>
    requires plain { service.programs ≡ [] }
    requires room { S.failures sink.old < 2 ^ 64 - 1 }
    ensures report { OnOk result (Appends (S.written sink.old) (S.written sink.new) (play_lines commands.now (opened service mjd files.now))) }
    ensures status { IfOk result (λ status. status ≡ play_status commands.now (opened service mjd files.now)) }
    ensures cut { OnErr result (IsBeginning (S.written sink.old) (S.written sink.new) (play_lines commands.now (opened service mjd files.now))) }
    ensures write { IsErrOf result PlayError.Write → S.failures sink.old < S.failures sink.new }
{
    play_on(
        alloc,
        Player::of_service(alloc, service, mjd, files),
        commands,
        sink,
    )
}

/// Plays the commands on a service that the verifier accepts, which has no programs but the built-in ones.
fn play_accepted<S: Sink>(
    alloc: Global,
    accepted: Accepted,
    mjd: u32,
    files: &[File],
    commands: &[Command],
    sink: &mut S,
) -> Result<Status, PlayError>
    requires plain { accepted.service.programs ≡ [] }
    requires room { S.failures sink.old < 2 ^ 64 - 1 }
    ensures report { OnOk result (Appends (S.written sink.old) (S.written sink.new) (play_lines commands.now (opened accepted.service mjd files.now))) }
    ensures status { IfOk result (λ status. status ≡ play_status commands.now (opened accepted.service mjd files.now)) }
    ensures cut { OnErr result (IsBeginning (S.written sink.old) (S.written sink.new) (play_lines commands.now (opened accepted.service mjd files.now))) }
    ensures write { IsErrOf result PlayError.Write → S.failures sink.old < S.failures sink.new }
{
    play_on(
        alloc,
        Player::of_accepted(alloc, accepted, mjd, files),
        commands,
        sink,
    )
}

/// Plays the commands, where there is a player, and else says which file is not put there.
pub(crate) fn play_on<P: Plays, S: Sink>(
    alloc: Global,
    player: Result<P, Unplayable>,
    commands: &[Command],
    sink: &mut S,
) -> Result<Status, PlayError>
    requires count { IfOk player (λ p. (P.session p).frames ≡ 0) }
    requires room { S.failures sink.old < 2 ^ 64 - 1 }
    ensures report { (r : Result Session Unreadable) → Gives P.session player r →
        OnOk result (Appends (S.written sink.old) (S.written sink.new) (play_lines commands.now r)) }
    ensures status { (r : Result Session Unreadable) → Gives P.session player r →
        IfOk result (λ status. status ≡ play_status commands.now r) }
    ensures cut { (r : Result Session Unreadable) → Gives P.session player r →
        OnErr result (IsBeginning (S.written sink.old) (S.written sink.new) (play_lines commands.now r)) }
    ensures write { IsErrOf result PlayError.Write → S.failures sink.old < S.failures sink.new }
{
    match player {
        Ok(mut player) => player.play_all(commands, sink),
        Err(why) => match why {
            Unplayable::NoMemory => Err(PlayError::NoMemory),
            _ => complain(alloc, &why, sink),
        },
    }
}

/// Says what cannot be read.
pub fn complain<S: Sink>(alloc: Global, why: &Unplayable, sink: &mut S) -> Result<Status, PlayError>
    requires { S.failures sink.old < 2 ^ 64 - 1 }
    ensures report { OnOk result (Appends (S.written sink.old) (S.written sink.new) (complaint why.now)) }
    ensures status { IfOk result (λ status. status ≡ Status.Unreadable) }
    ensures cut { OnErr result (IsBeginning (S.written sink.old) (S.written sink.new) (complaint why.now)) }
    ensures write { IsErrOf result PlayError.Write → S.failures sink.old < S.failures sink.new }
{
    let line = complaint_text(alloc, why)?;
    write_all(sink, line.as_slice())?;
    Ok(Status::Unreadable)
}

/// Says why the verifier does not accept a service.
pub fn refuse<S: Sink>(alloc: Global, refusal: &Refusal, sink: &mut S) -> Result<Status, PlayError>
    requires { S.failures sink.old < 2 ^ 64 - 1 }
    ensures report { OnOk result (Appends (S.written sink.old) (S.written sink.new) (refusal_lines refusal.now)) }
    ensures status { IfOk result (λ status. status ≡ Status.Refused) }
    ensures cut { OnErr result (IsBeginning (S.written sink.old) (S.written sink.new) (refusal_lines refusal.now)) }
    ensures write { IsErrOf result PlayError.Write → S.failures sink.old < S.failures sink.new }
{
    let lines = refusal_text(alloc, refusal)?;
    write_all(sink, lines.as_slice())?;
    Ok(Status::Refused)
}
