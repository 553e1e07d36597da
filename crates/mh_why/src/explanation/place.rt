//! Places of actions and objects, as an author is shown them.

pub(crate) mod marked;
pub(crate) mod named;
pub(crate) mod spot;
pub mod values;

ghost use Rattle.std.specs.Prelude.{◌≡◌, ◌++◌, OnOk, IfOk};
ghost use Rattle.std.specs.Option.{option_copied};
ghost use Rattle.mh_text.specs.Landmarks.{sight_of};
ghost use Rattle.mh_why.specs.Sources.{shown_mark, shown_numbered, shown_action, shown_landmark, is_object, object_in, shown_object_in, shown_object, shown_byte, shown_in, shown_offset, is_octets, octet_of};

use crate::explanation::token::token_size;
use crate::files::shown::{Source, source_named};
use crate::place::octets::put_octet;
use mh_text::{Landmark, Mark, Sight, landmarks, mark_of};
use mh_told::text::Text;
use std::alloc::{AllocError, Global};

// What stands behind the name of a file that is shown in its printed form.
pub const AS_PRINTED: &[u8] = b", as `to-text` prints it";

/// Puts where an action, or with the number 0 the members, of an object of this group stand, if they are found.
#[tactic(auto, unfolding(crate::specs::Sources::shown_action))]
pub(crate) fn put_action(
    alloc: Global,
    text: &mut Text,
    sources: &[Source<'_>],
    group: &[u8],
    object: u32,
    index: usize,
) -> Result<(), AllocError>
    ensures { OnOk result (text.new ≡ text.old ++ shown_action sources.now group.now object index) }
{
    match source_named(sources, group) {
        Some(source) => put_numbered(alloc, text, source, object, index),
        None => Ok(()),
    }
}

fn put_numbered(
    alloc: Global,
    text: &mut Text,
    source: &Source<'_>,
    object: u32,
    index: usize,
) -> Result<(), AllocError>
    ensures { OnOk result (text.new ≡ text.old ++ shown_numbered object index source.now) }
{
    match mark_of(source.marks(), object, index) {
        Some(mark) => put_mark(alloc, text, source, &mark),
        None => Ok(()),
    }
}

pub(crate) fn put_mark(
    alloc: Global,
    text: &mut Text,
    source: &Source<'_>,
    mark: &Mark,
) -> Result<(), AllocError>
    ensures { OnOk result (text.new ≡ text.old ++ shown_mark source.now mark.now) }
{
    put_in(alloc, text, source, mark.start, mark.length)
}

/// Puts where so many bytes of the text stand behind so many others.
#[tactic(auto, unfolding(crate::specs::Sources::shown_in))]
pub(crate) fn put_in(
    alloc: Global,
    text: &mut Text,
    source: &Source<'_>,
    start: usize,
    size: usize,
) -> Result<(), AllocError>
    ensures { OnOk result (text.new ≡ text.old ++ shown_in source.now start size) }
{
    let name = source.name().as_bytes();
    if source.is_printed() {
        let mut title = Text::new(alloc);
        title.put(name)?;
        title.put(AS_PRINTED)?;
        return source.put_place(alloc, text, title.as_slice(), start, size);
    }
    source.put_place(alloc, text, name, start, size)
}

/// Puts where an object of this group stands, if it is found.
#[tactic(auto, unfolding(crate::specs::Sources::shown_object))]
pub(crate) fn put_object_place(
    alloc: Global,
    text: &mut Text,
    sources: &[Source<'_>],
    group: &[u8],
    number: u32,
) -> Result<(), AllocError>
    ensures { OnOk result (text.new ≡ text.old ++ shown_object sources.now group.now number) }
{
    match source_named(sources, group) {
        Some(source) => put_object_in(alloc, text, source, number),
        None => Ok(()),
    }
}

fn put_object_in(
    alloc: Global,
    text: &mut Text,
    source: &Source<'_>,
    number: u32,
) -> Result<(), AllocError>
    ensures { OnOk result (text.new ≡ text.old ++ shown_object_in number source.now) }
{
    let landmarks = landmarks(alloc, source.text())?;
    match object_in(landmarks.as_slice(), number) {
        Some(landmark) => put_landmark(alloc, text, source, landmark),
        None => Ok(()),
    }
}

/// The landmark of the object with this number.
fn object_in<'a, 'b>(landmarks: &'a [Landmark<'b>], number: u32) -> Option<&'a Landmark<'b>>
    ensures { option_copied result ≡ object_in number landmarks.now }
{
    landmarks
        .iter()
        .find(|landmark| is_object(landmark.sight, number))
}

/// Whether it is the number of this ingredient, or the class of the group itself, whose number is 0.
fn is_object(sight: Sight<'_>, number: u32) -> bool
    ensures { result ≡ is_object number (sight_of sight.entry) }
{
    match sight {
        Sight::Class => number == 0,
        Sight::Number(other) => number == other,
        Sight::Name(_) => false,
    }
}

/// Puts where a landmark of the file stands.
pub(crate) fn put_landmark(
    alloc: Global,
    text: &mut Text,
    source: &Source<'_>,
    landmark: &Landmark<'_>,
) -> Result<(), AllocError>
    ensures { OnOk result (text.new ≡ text.old ++ shown_landmark source.now landmark.now) }
{
    put_in(alloc, text, source, landmark.start, landmark.length)
}

/// Puts where a byte of this file stands, if the file is there and a text.
#[tactic(auto, unfolding(crate::specs::Sources::shown_offset))]
pub(crate) fn put_offset(
    alloc: Global,
    text: &mut Text,
    sources: &[Source<'_>],
    name: &[u8],
    offset: usize,
) -> Result<(), AllocError>
    ensures { OnOk result (text.new ≡ text.old ++ shown_offset sources.now name.now offset) }
{
    match source_named(sources, name) {
        Some(source) => put_byte(alloc, text, source, offset),
        None => Ok(()),
    }
}

pub(crate) fn put_byte(
    alloc: Global,
    text: &mut Text,
    source: &Source<'_>,
    offset: usize,
) -> Result<(), AllocError>
    ensures { OnOk result (text.new ≡ text.old ++ shown_byte offset source.now) }
{
    if !source.is_written() {
        return put_octet_of(alloc, text, source, offset);
    }
    let name = source.name().as_bytes();
    let size = token_size(source.text().get(offset..).unwrap_or(&[]));
    source.put_place(alloc, text, name, offset, size)
}

/// Puts where an octet of this file stands, if the file is a group in octets.
fn put_octet_of(
    alloc: Global,
    text: &mut Text,
    source: &Source<'_>,
    offset: usize,
) -> Result<(), AllocError>
    ensures { OnOk result (text.new ≡ text.old ++ octet_of offset source.now) }
{
    if is_octets(source) {
        return put_octet(alloc, text, source.name().as_bytes(), source.text(), offset);
    }
    Ok(())
}

fn is_octets(source: &Source<'_>) -> bool
    ensures { result ≡ is_octets source.now }
{
    source.is_group() && !source.is_printed()
}
