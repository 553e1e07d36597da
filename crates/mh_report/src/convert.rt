//! `convert_bytes`: one group's file as bytes, and the same group in the notation that is wanted.
//!
//! Either the file cannot be read or written: then one line says where. Or the group is written, and
//! nothing else.
ghost use Rattle.std.specs.Prelude.{◌≡◌, ◌-◌, ◌<◌, ◌^◌, Ok, IfOk, OnOk, OnErr, IsErrOf};
ghost use Rattle.std.specs.Io.KnownBytes.{Appends};
ghost use Rattle.mh_report.specs.Sink.{IsBeginning};
ghost use Rattle.mh_report.specs.Played.{HasWritten, HasBegun};
ghost use Rattle.mh_told.specs.Reading.{Gives};
ghost use Rattle.mh_report.specs.Converted.{converted, converted_with, written_in, in_octets, in_text, Converts};

use crate::options::Options;
use crate::play::complain;
use crate::play_error::PlayError;
use crate::sink::{Sink, write_all};
use crate::status::Status;
use mh_base::Octets;
use mh_codec::{CodecError, TagTable, encode_group};
use mh_group::Group;
use mh_text::{TextError, print_group};
use mh_told::reading::read_file;
use mh_told::tags::table_of;
use mh_told::unplayable::Unplayable;
use std::alloc::Global;

/// The two notations of groups.
#[derive(Clone, Copy, PartialEq, Eq)]
pub enum Notation {
    /// By the distinguished encoding rules (ITU-T X.690).
    Binary,
    Textual,
}

/// Writes the group of a file in the notation that is wanted, or the line on what cannot be read or
/// written, of which the file of tags is the first; of the options the tags alone are taken. `name` is what the line
/// calls the file. After an error a beginning of that was written, or nothing.
pub fn convert_bytes<S: Sink>(
    alloc: Global,
    name: &[u8],
    bytes: &[u8],
    to: Notation,
    options: &Options,
    sink: &mut S,
) -> Result<Status, PlayError>
    requires { S.failures sink.old < 2 ^ 64 - 1 }
    ensures written { IfOk result (HasWritten (Converts (converted options.now to name.now bytes.now)) (S.written sink.old) (S.written sink.new)) }
    ensures begun { OnErr result (HasBegun (Converts (converted options.now to name.now bytes.now)) (S.written sink.old) (S.written sink.new)) }
    ensures write { IsErrOf result PlayError.Write → S.failures sink.old < S.failures sink.new }
{
    match converted(alloc, name, bytes, to, options) {
        Ok(group) => hand_out(group.as_slice(), sink),
        Err(why) => match why {
            Unplayable::NoMemory => Err(PlayError::NoMemory),
            _ => complain(alloc, &why, sink),
        },
    }
}

/// Writes these bytes.
pub(crate) fn hand_out<S: Sink>(bytes: &[u8], sink: &mut S) -> Result<Status, PlayError>
    requires { S.failures sink.old < 2 ^ 64 - 1 }
    ensures report { OnOk result (Appends (S.written sink.old) (S.written sink.new) bytes.now) }
    ensures status { IfOk result (λ status. status ≡ Status.Good) }
    ensures cut { OnErr result (IsBeginning (S.written sink.old) (S.written sink.new) bytes.now) }
    ensures write { IsErrOf result PlayError.Write → S.failures sink.old < S.failures sink.new }
{
    write_all(sink, bytes)?;
    Ok(Status::Good)
}

/// The group of the file, in the notation that is wanted.
#[tactic(auto, unfolding(crate::specs::Converted::converted))]
fn converted(
    alloc: Global,
    name: &[u8],
    bytes: &[u8],
    to: Notation,
    options: &Options,
) -> Result<Vec<u8>, Unplayable>
    ensures { Gives (λ found. found.items) result (converted options.now to name.now bytes.now) }
{
    let tags = table_of(alloc, options.tags())?;
    converted_with(alloc, &tags, name, bytes, to)
}

/// The same, with these tags of the binary notation.
#[tactic(auto, unfolding(crate::specs::Converted::converted_with))]
fn converted_with(
    alloc: Global,
    tags: &TagTable,
    name: &[u8],
    bytes: &[u8],
    to: Notation,
) -> Result<Vec<u8>, Unplayable>
    ensures { Gives (λ found. found.items) result (converted_with to name.now bytes.now tags.now) }
{
    let group = read_file(alloc, tags, name, bytes)?;
    written_in(alloc, tags, name, &group, to)
}

fn written_in(
    alloc: Global,
    tags: &TagTable,
    name: &[u8],
    group: &Group,
    to: Notation,
) -> Result<Vec<u8>, Unplayable>
    ensures { Gives (λ found. found.items) result (written_in tags.now to name.now group.now) }
{
    match to {
        Notation::Binary => in_octets(alloc, tags, name, group),
        Notation::Textual => in_text(alloc, name, group),
    }
}

#[tactic(auto, using(crate::proofs::ConvertLemmas::spelled, crate::proofs::ConvertLemmas::unspelled), unfolding(crate::specs::Converted::in_octets))]
fn in_octets(
    alloc: Global,
    tags: &TagTable,
    name: &[u8],
    group: &Group,
) -> Result<Vec<u8>, Unplayable>
    ensures { Gives (λ found. found.items) result (in_octets tags.now name.now group.now) }
{
    match encode_group(alloc, tags, group) {
        Ok(octets) => Ok(octets),
        Err(CodecError::At { why, offset }) => Err(Unplayable::File {
            name: Octets::from_slice(alloc, name)?,
            number: why.number(),
            offset,
        }),
        Err(CodecError::NoMemory) => Err(Unplayable::NoMemory),
    }
}

#[tactic(auto, unfolding(crate::specs::Converted::in_text))]
fn in_text(alloc: Global, name: &[u8], group: &Group) -> Result<Vec<u8>, Unplayable>
    ensures { Gives (λ found. found.items) result (in_text name.now group.now) }
{
    match print_group(alloc, group) {
        Ok(text) => Ok(text),
        Err(TextError::At { why, offset }) => Err(Unplayable::File {
            name: Octets::from_slice(alloc, name)?,
            number: why.number(),
            offset,
        }),
        Err(TextError::NoMemory) => Err(Unplayable::NoMemory),
    }
}
