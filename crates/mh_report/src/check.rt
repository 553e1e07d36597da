//! `check_bytes`: a service as bytes, and what the verifier says of it.
ghost use Rattle.std.specs.Prelude.{◌≡◌, ◌-◌, ◌<◌, ◌^◌, [], IfOk, OnOk, OnErr, IsErrOf};
ghost use Rattle.std.specs.Io.KnownBytes.{Appends};
ghost use Rattle.mh_model.specs.Service.{Service as ServiceValue};
ghost use Rattle.mh_report.specs.Sink.{IsBeginning};
ghost use Rattle.mh_report.specs.Played.{Checks, Refuses, HasWritten, HasBegun};
ghost use Rattle.mh_verdict.specs.Lines.{accepted_lines};
ghost use Rattle.mh_report.specs.Reading.{chosen_service};
ghost use Rattle.mh_verify.specs.Order.{IsTold};

use crate::options::Options;
use crate::play::{complain, refuse};
use crate::play_error::PlayError;
use crate::reading::chosen_service;
use crate::sink::{Sink, write_all};
use crate::status::Status;
use crate::verdict::verified;
use mh_base::GroupName;
use mh_layers::Bounds;
use mh_service::Service;
use mh_told::unplayable::Unplayable;
use mh_verdict::accepted_text;
use mh_verify::{Refusal, RefusalKind};
use std::alloc::Global;

/// Says whether the verifier accepts the service of these files, with its bounds, or why not. After an error a beginning of
/// that was written, or nothing.
pub fn check_bytes<S: Sink>(
    alloc: Global,
    files: &[(GroupName, Vec<u8>)],
    options: &Options,
    sink: &mut S,
) -> Result<Status, PlayError>
    requires { S.failures sink.old < 2 ^ 64 - 1 }
    ensures written { IfOk result (HasWritten (Checks (chosen_service options.now files.now)) (S.written sink.old) (S.written sink.new)) }
    ensures begun { OnErr result (HasBegun (Checks (chosen_service options.now files.now)) (S.written sink.old) (S.written sink.new)) }
    ensures write { IsErrOf result PlayError.Write → S.failures sink.old < S.failures sink.new }
{
    match chosen_service(alloc, files, options) {
        Ok(service) => judge(alloc, service, sink),
        Err(why) => match why {
            Unplayable::NoMemory => Err(PlayError::NoMemory),
            _ => complain(alloc, &why, sink),
        },
    }
}

fn judge<S: Sink>(alloc: Global, service: Service, sink: &mut S) -> Result<Status, PlayError>
    requires plain { service.programs ≡ [] }
    requires room { S.failures sink.old < 2 ^ 64 - 1 }
    ensures written { IfOk result (HasWritten (Checks (Ok service)) (S.written sink.old) (S.written sink.new)) }
    ensures begun { OnErr result (HasBegun (Checks (Ok service)) (S.written sink.old) (S.written sink.new)) }
    ensures write { IsErrOf result PlayError.Write → S.failures sink.old < S.failures sink.new }
{
    match verified(alloc, service) {
        Ok(accepted) => {
            let bounds = accepted.bounds();
            drop(accepted);
            accept(alloc, &bounds, sink)
        }
        Err(refusal) => {
            let status = answer_refusal(alloc, &refusal, sink);
            drop(refusal);
            status
        }
    }
}

/// Says why a service is refused; nothing where that is for want of memory.
pub(crate) fn answer_refusal<S: Sink>(
    alloc: Global,
    refusal: &Refusal,
    sink: &mut S,
) -> Result<Status, PlayError>
    requires { S.failures sink.old < 2 ^ 64 - 1 }
    ensures written { (s : ServiceValue) → IsTold s [] refusal.now →
        IfOk result (HasWritten (Refuses s) (S.written sink.old) (S.written sink.new)) }
    ensures begun { (s : ServiceValue) → IsTold s [] refusal.now →
        OnErr result (HasBegun (Refuses s) (S.written sink.old) (S.written sink.new)) }
    ensures write { IsErrOf result PlayError.Write → S.failures sink.old < S.failures sink.new }
{
    match refusal.kind {
        RefusalKind::NoMemory => Err(PlayError::NoMemory),
        _ => refuse(alloc, refusal, sink),
    }
}

fn accept<S: Sink>(alloc: Global, bounds: &Bounds, sink: &mut S) -> Result<Status, PlayError>
    requires { S.failures sink.old < 2 ^ 64 - 1 }
    ensures report { OnOk result (Appends (S.written sink.old) (S.written sink.new) (accepted_lines bounds.now)) }
    ensures status { IfOk result (λ status. status ≡ Status.Good) }
    ensures cut { OnErr result (IsBeginning (S.written sink.old) (S.written sink.new) (accepted_lines bounds.now)) }
    ensures write { IsErrOf result PlayError.Write → S.failures sink.old < S.failures sink.new }
{
    let lines = accepted_text(alloc, bounds)?;
    write_all(sink, lines.as_slice())?;
    Ok(Status::Good)
}
