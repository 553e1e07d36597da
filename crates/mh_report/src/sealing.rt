//! `seal_bytes`: a service as bytes, and its seal where the verifier accepts it.
//!
//! Promise: the seal is that of the service, with the verifier's bounds (`mh_sealing`). Who signs it is left to others.
ghost use Rattle.std.specs.Prelude.{◌≡◌, ◌-◌, ◌<◌, ◌^◌, [], IfOk, IfErr, OnOk, OnErr, IsErrOf};
ghost use Rattle.mh_model.specs.Service.{Service as ServiceValue};
ghost use Rattle.mh_report.specs.Played.{HasBegun, HasWritten};
ghost use Rattle.mh_report.specs.Reading.{chosen_service};
ghost use Rattle.mh_report.specs.Sealed.{IsMeant, Seals, SealsOrdered, tag_octets};
ghost use Rattle.mh_seal_laws.specs.Bringing.{AreScenes};
ghost use Rattle.mh_seal_laws.specs.Joined.{IsOfFiles};
ghost use Rattle.mh_seal_laws.specs.Told.{told_bounds};
ghost use Rattle.mh_sealing.specs.Sealing.{IsWhole, in_order};

use crate::check::answer_refusal;
use crate::convert::hand_out;
use crate::options::Options;
use crate::play::complain;
use crate::play_error::PlayError;
use crate::reading::chosen_service;
use crate::sink::Sink;
use crate::status::Status;
use crate::verdict::verified;
use mh_base::GroupName;
use mh_layers::Bounds;
use mh_seal::{SealedBounds, seal_text};
use mh_sealing::{in_order, seal_of};
use mh_service::Service;
use mh_told::unplayable::Unplayable;
use mh_verify::Accepted;
use std::alloc::Global;

/// Prints the seal of the service of these files where the verifier accepts it; else why it does not, or what cannot be
/// read, as `check_bytes` does. Of a group that the binary notation cannot hold the name is told, with 13 at 0. After an
/// error a beginning of that was written, or nothing.
pub fn seal_bytes<S: Sink>(
    alloc: Global,
    files: &[(GroupName, Vec<u8>)],
    options: &Options,
    sink: &mut S,
) -> Result<Status, PlayError>
    requires { S.failures sink.old < 2 ^ 64 - 1 }
    ensures written { IfOk result (HasWritten (Seals (tag_octets options.now) (chosen_service options.now files.now)) (S.written sink.old) (S.written sink.new)) }
    ensures begun { OnErr result (HasBegun (Seals (tag_octets options.now) (chosen_service options.now files.now)) (S.written sink.old) (S.written sink.new)) }
    ensures write { IsErrOf result PlayError.Write → S.failures sink.old < S.failures sink.new }
{
    match chosen_service(alloc, files, options) {
        Ok(service) => seal_service(alloc, service, options, sink),
        Err(why) => match why {
            Unplayable::NoMemory => Err(PlayError::NoMemory),
            _ => complain(alloc, &why, sink),
        },
    }
}

/// Puts the late scenes in order, and seals the service.
fn seal_service<S: Sink>(
    alloc: Global,
    service: Service,
    options: &Options,
    sink: &mut S,
) -> Result<Status, PlayError>
    requires whole { IsWhole service }
    requires room { S.failures sink.old < 2 ^ 64 - 1 }
    ensures written { IfOk result (HasWritten (SealsOrdered (tag_octets options.now) (in_order service)) (S.written sink.old) (S.written sink.new)) }
    ensures begun { OnErr result (HasBegun (SealsOrdered (tag_octets options.now) (in_order service)) (S.written sink.old) (S.written sink.new)) }
    ensures write { IsErrOf result PlayError.Write → S.failures sink.old < S.failures sink.new }
{
    match in_order(alloc, service) {
        Ok(ordered) => seal_ordered(alloc, ordered, options.tag_octets(), sink),
        Err(_) => Err(PlayError::NoMemory),
    }
}

/// Writes the seal of a service whose late scenes are in the order of its groups, or why it has none.
fn seal_ordered<S: Sink>(
    alloc: Global,
    service: Service,
    tags: &[u8],
    sink: &mut S,
) -> Result<Status, PlayError>
    requires files { IsOfFiles service }
    requires scenes { AreScenes service service.late }
    requires room { S.failures sink.old < 2 ^ 64 - 1 }
    ensures written { IfOk result (HasWritten (SealsOrdered tags.now service) (S.written sink.old) (S.written sink.new)) }
    ensures begun { OnErr result (HasBegun (SealsOrdered tags.now service) (S.written sink.old) (S.written sink.new)) }
    ensures write { IsErrOf result PlayError.Write → S.failures sink.old < S.failures sink.new }
{
    match verified(alloc, service) {
        Ok(accepted) => {
            let text = text_of(alloc, &accepted, tags);
            drop(accepted);
            put_text(alloc, text, sink)
        }
        Err(refusal) => {
            let status = answer_refusal(alloc, &refusal, sink);
            drop(refusal);
            status
        }
    }
}

/// The text of the seal of an accepted service, or what stands in the way.
fn text_of(alloc: Global, accepted: &Accepted, tags: &[u8]) -> Result<Vec<u8>, Unplayable>
    requires files { IsOfFiles accepted.now.service }
    requires scenes { AreScenes accepted.now.service accepted.now.service.late }
    ensures { IsMeant tags.now accepted.now.service result }
{
    let bounds = sealed_bounds(accepted.bounds());
    let seal = seal_of(alloc, accepted.service(), bounds, tags)?;
    Ok(seal_text(alloc, &seal)?)
}

fn sealed_bounds(bounds: Bounds) -> SealedBounds
    ensures { result ≡ told_bounds bounds }
{
    SealedBounds {
        start: bounds.start,
        key: bounds.key,
        tick: bounds.tick,
        stream: bounds.stream,
        engine: bounds.engine,
        arrive: bounds.arrive,
    }
}

/// Writes the text, or the line on what stands in the way.
fn put_text<S: Sink>(
    alloc: Global,
    text: Result<Vec<u8>, Unplayable>,
    sink: &mut S,
) -> Result<Status, PlayError>
    requires { S.failures sink.old < 2 ^ 64 - 1 }
    ensures written { (tags : _) (v : ServiceValue) → IsMeant tags v text → IfOk result (HasWritten (SealsOrdered tags v) (S.written sink.old) (S.written sink.new)) }
    ensures begun { (tags : _) (v : ServiceValue) → IsMeant tags v text → OnErr result (HasBegun (SealsOrdered tags v) (S.written sink.old) (S.written sink.new)) }
    ensures write { IsErrOf result PlayError.Write → S.failures sink.old < S.failures sink.new }
{
    match text {
        Ok(text) => hand_out(text.as_slice(), sink),
        Err(why) => match why {
            Unplayable::NoMemory => Err(PlayError::NoMemory),
            _ => complain(alloc, &why, sink),
        },
    }
}
