//! What is found of files that make no service.
//!
//! Promise: each function answers or pushes what the definition of the same matter in `specs/Unread` says.
ghost use Rattle.std.specs.Prelude.{◌≡◌, ◌++◌, codes, IfOk, OnOk};
ghost use Rattle.mh_judged.specs.Unread as spec;

use crate::advice::{advice_in, found_as};
use crate::mistakes::{from_named, number_text, push_told};
use crate::sites::{file_named, site_at};
use crate::spans::beginning;
use mh_base::{GroupName, Seq};
use mh_findings::{Finding, Grade, Site, Words};
use mh_places::{Span, span_at};
use mh_text::landmarks;
use mh_told::text::Text;
use mh_told::unplayable::Unplayable;
use mh_why::explanation::advice::{readings, services, tags};
use mh_why::explanation::service::landmark_for;
use std::alloc::{AllocError, Global};

/// Pushes what is found, by why the files make no service; the file that gives tags is called so.
pub(crate) fn push_unread(
    alloc: Global,
    found: &mut Vec<Finding>,
    given: &[u8],
    folder: &[u8],
    files: &[(GroupName, Vec<u8>)],
    why: &Unplayable,
) -> Result<(), AllocError>
    ensures { OnOk result (found.new.items ≡ found.old.items ++ spec.unread_findings given.now folder.now files.now why.now) }
{
    match why {
        Unplayable::File {
            name,
            number,
            offset,
        } => push_told(
            alloc,
            found,
            folder,
            from_named(files, name.as_slice()),
            *number,
            *offset,
        ),
        Unplayable::Service { number, group } => {
            found.push(service_finding(alloc, folder, files, *number, group.as_slice())?)?;
            Ok(())
        }
        Unplayable::Tags { number, place } => {
            found.push(tags_finding(alloc, given, *number, *place)?)?;
            Ok(())
        }
        Unplayable::Script(_) | Unplayable::NoMemory => Ok(()),
    }
}

/// What is found of a file, or a folder, that has no bytes to be read.
#[tactic(auto, unfolding(crate::specs::Unread::path_finding))]
pub fn unread_path(alloc: Global, folder: &[u8], name: &[u8]) -> Result<Finding, AllocError>
    ensures { IfOk result (λ finding. finding ≡ spec.path_finding folder.now name.now) }
{
    let at = site_at(alloc, folder, name, None)?;
    let advice = advice_in(alloc, readings(), b"", b"read")?;
    found_as(alloc, Grade::Unread, b"read", at, advice, Seq::new(alloc))
}

/// A group with which the files make no service.
#[tactic(auto, unfolding(crate::specs::Unread::service_finding))]
fn service_finding(
    alloc: Global,
    folder: &[u8],
    files: &[(GroupName, Vec<u8>)],
    number: u32,
    group: &[u8],
) -> Result<Finding, AllocError>
    ensures { IfOk result (λ finding. finding ≡ spec.service_finding folder.now files.now number group.now) }
{
    let word = number_text(alloc, number)?;
    let span = span_in(alloc, files, group, word.as_slice())?;
    let at = site_at(alloc, folder, group, span)?;
    let front = group_front(alloc, group)?;
    let advice = advice_in(alloc, services(), front.as_slice(), word.as_slice())?;
    found_as(
        alloc,
        Grade::Unread,
        word.as_slice(),
        at,
        advice,
        Seq::new(alloc),
    )
}

/// What the number leads to in the file of the group, if it is there.
fn span_in(
    alloc: Global,
    files: &[(GroupName, Vec<u8>)],
    group: &[u8],
    number: &[u8],
) -> Result<Option<Span>, AllocError>
    ensures { IfOk result (λ span. span ≡ spec.span_in number.now files.now group.now) }
{
    match file_named(files, group) {
        Some(file) => span_for(alloc, number, &file.0, file.1.as_slice()),
        None => Ok(None),
    }
}

/// What the number leads to in the text of this group.
fn span_for(
    alloc: Global,
    number: &[u8],
    group: &GroupName,
    bytes: &[u8],
) -> Result<Option<Span>, AllocError>
    ensures { IfOk result (λ span. span ≡ spec.span_for number.now group.now bytes.now) }
{
    let landmarks = landmarks(alloc, bytes)?;
    match landmark_for(alloc, number, group, landmarks.as_slice())? {
        Some(landmark) => Ok(Some(span_at(bytes, landmark.start, landmark.length))),
        None => Ok(None),
    }
}

/// A line of the file that gives tags, or a context in which a tag stands twice.
#[tactic(auto, unfolding(crate::specs::Unread::tags_finding))]
fn tags_finding(
    alloc: Global,
    file: &[u8],
    number: u32,
    place: usize,
) -> Result<Finding, AllocError>
    ensures { IfOk result (λ finding. finding ≡ spec.tags_finding file.now number place) }
{
    let word = number_text(alloc, number)?;
    let at = Site {
        file: Words::of_bytes(alloc, file)?,
        span: beginning(),
    };
    let front = tag_front(alloc, number, place)?;
    let advice = advice_in(alloc, tags(), front.as_slice(), word.as_slice())?;
    found_as(
        alloc,
        Grade::Unread,
        word.as_slice(),
        at,
        advice,
        Seq::new(alloc),
    )
}

fn group_front(alloc: Global, group: &[u8]) -> Result<Text, AllocError>
    ensures { IfOk result (λ front. front ≡ group.now ++ codes ": ") }
{
    let mut front = Text::new(alloc);
    front.put(group)?;
    front.put(b": ")?;
    Ok(front)
}

fn tag_front(alloc: Global, number: u32, place: usize) -> Result<Text, AllocError>
    ensures { IfOk result (λ front. front ≡ spec.tag_front number place) }
{
    let mut front = Text::new(alloc);
    front.put(if number == 60 { b"line " } else { b"context " })?;
    front.put_number(place as u64)?;
    front.put(b": ")?;
    Ok(front)
}
