//! The line of a script that brings the file of a scene: that of the service, or another, by its octets.
//!
//! Promise: each function answers what the definition of its name in `specs/Script` says.
ghost use Rattle.std.specs.Prelude.{◌≡◌, IfOk, Some};
ghost use Rattle.mh_model.specs.Late.{written_at};
ghost use Rattle.mh_told.specs.Reading.{group_in};
ghost use Rattle.mh_script.specs.Script.{scene_line, own_line, brought_line, sent_line, as_group, written_by, octets_of};

use crate::script::{Command, Line, first_space};
use crate::words::octets_of;
use mh_base::{GroupName, NameError};
use mh_codec::TagTable;
use mh_model::{Input, SharedGroup};
use mh_service::Service;
use mh_told::reading::read_file;
use mh_told::unplayable::Unplayable;
use std::alloc::{AllocError, Global};

/// A scene by its name alone, or by its name and the octets of its file: the first space stands between them.
pub(crate) fn scene_line(
    alloc: Global,
    tags: &TagTable,
    service: &Service,
    words: &[u8],
) -> Result<Line, AllocError>
    ensures { IfOk result (λ line. line ≡ scene_line tags.now service.now.files words.now) }
{
    match first_space(words) {
        Some(at) => brought_line(alloc, tags, &words[..at], &words[at + 1..]),
        None => own_line(alloc, service, words),
    }
}

/// The file that the service has under this name, if it is a path.
fn own_line(alloc: Global, service: &Service, name: &[u8]) -> Result<Line, AllocError>
    ensures { IfOk result (λ line. line ≡ own_line service.now.files name.now) }
{
    match GroupName::of_path(alloc, name) {
        Ok(name) => found_line(service, name),
        Err(NameError::BadName) => Ok(Line::Wrong),
        Err(NameError::NoMemory) => Err(AllocError),
    }
}

fn found_line(service: &Service, name: GroupName) -> Result<Line, AllocError>
    ensures { IfOk result (λ line. line ≡ sent_line name (written_at name service.now.files)) }
{
    match service.written(&name) {
        Some(group) => Ok(sent(name, group.clone()?)),
        None => Ok(Line::Wrong),
    }
}

/// The file that the digits write under this name, if it is a path.
fn brought_line(
    alloc: Global,
    tags: &TagTable,
    name: &[u8],
    digits: &[u8],
) -> Result<Line, AllocError>
    ensures { IfOk result (λ line. line ≡ brought_line tags.now name.now digits.now) }
{
    match GroupName::of_path(alloc, name) {
        Ok(name) => written_line(alloc, tags, name, digits),
        Err(NameError::BadName) => Ok(Line::Wrong),
        Err(NameError::NoMemory) => Err(AllocError),
    }
}

fn written_line(
    alloc: Global,
    tags: &TagTable,
    name: GroupName,
    digits: &[u8],
) -> Result<Line, AllocError>
    ensures { IfOk result (λ line. line ≡ sent_line name (written_by tags.now name (octets_of digits.now))) }
{
    match octets_of(alloc, digits)? {
        Some(octets) => group_line(alloc, tags, name, octets.as_slice()),
        None => Ok(Line::Wrong),
    }
}

/// The file with these octets, if they write a group.
fn group_line(
    alloc: Global,
    tags: &TagTable,
    name: GroupName,
    octets: &[u8],
) -> Result<Line, AllocError>
    ensures { IfOk result (λ line. line ≡ sent_line name (as_group (group_in tags.now name octets.now))) }
{
    match read_file(alloc, tags, name.as_bytes(), octets) {
        Ok(group) => Ok(sent(name, SharedGroup::new(alloc, group)?)),
        Err(Unplayable::NoMemory) => Err(AllocError),
        Err(_) => Ok(Line::Wrong),
    }
}

/// The post of a scene's file.
fn sent(name: GroupName, group: SharedGroup) -> Line
    ensures { result ≡ sent_line name (Some group) }
{
    Line::Says(Command::Post(Input::Scene(name, group)))
}
