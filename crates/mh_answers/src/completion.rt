//! What may be written at a place, by the tables.
use crate::candidates::{
    Offer, push_actions, push_attributes, push_classes, push_events, push_kinds, push_words,
};
use crate::locations::range_at;
use crate::objects::{File, spots_in};
use crate::standing::{Fit, Wanted, is_fit, wanted_at};
use crate::symbols::objects_in;
use crate::texts::{put_number, put_object};
use mh_edit::{Extent, Outlined, Word, words_of};
use mh_group::Class;
use mh_protocol::{Range, Unit};
use mh_text::TokenKind;
use serde_json::Value;
use std::alloc::{AllocError, Global};

/// What may be written at a place of a file.
pub fn completions(
    alloc: Global,
    unit: Unit,
    files: &[File],
    file: &File,
    offset: usize,
) -> Result<Value, AllocError> {
    let mut items = Vec::new(alloc);
    push_completions(alloc, &mut items, unit, files, file, offset)?;
    Ok(Value::Array(items))
}

fn push_completions(
    alloc: Global,
    items: &mut Vec<Value>,
    unit: Unit,
    files: &[File],
    file: &File,
    offset: usize,
) -> Result<(), AllocError> {
    let bytes = file.1.as_slice();
    let words = words_of(alloc, bytes)?;
    let start = start_at(bytes, words.as_slice(), offset);
    let wanted = wanted_at(alloc, bytes, words.as_slice(), start)?;
    drop(words);
    let length = offset.saturating_sub(start);
    let written = Extent { start, length };
    let range = range_at(unit, bytes, written);
    push_wanted(alloc, items, files, file, wanted, written, range)
}

/// What a text is without what is being written.
fn text_without(alloc: Global, bytes: &[u8], written: Extent) -> Result<Vec<u8>, AllocError> {
    let end = written.start.saturating_add(written.length);
    let mut text = Vec::from_slice(alloc, bytes.get(..written.start).unwrap_or(bytes))?;
    text.extend_from_slice(bytes.get(end..).unwrap_or(&[]))?;
    Ok(text)
}

/// Pushes the attributes that an object takes and has not, whatever is being written in it.
fn push_missing(
    alloc: Global,
    items: &mut Vec<Value>,
    bytes: &[u8],
    class: Class,
    object: u32,
    written: Extent,
    range: Range,
) -> Result<(), AllocError> {
    let text = text_without(alloc, bytes, written)?;
    let spots = spots_in(alloc, text.as_slice())?;
    drop(text);
    push_attributes(alloc, items, range, class, object, spots.as_slice())
}

/// Where what is being written at a place begins: a word, a number or a keyword that reaches up to it, or a colon alone.
fn start_at(bytes: &[u8], words: &[Word], offset: usize) -> usize {
    for word in words {
        if is_written(*word, offset) {
            return word.at.start;
        }
    }
    match offset.checked_sub(1) {
        Some(before) if bytes.get(before).copied() == Some(b':') => before,
        _ => offset,
    }
}

fn is_written(word: Word, offset: usize) -> bool {
    let Extent { start, length } = word.at;
    start < offset && offset - start <= length && is_open_ended(word.kind)
}

fn is_open_ended(kind: TokenKind) -> bool {
    matches!(
        kind,
        TokenKind::Keyword | TokenKind::Word | TokenKind::Integer
    )
}

fn push_wanted(
    alloc: Global,
    items: &mut Vec<Value>,
    files: &[File],
    file: &File,
    wanted: Wanted,
    written: Extent,
    range: Range,
) -> Result<(), AllocError> {
    match wanted {
        Wanted::Nothing => Ok(()),
        Wanted::GroupClass => push_classes(alloc, items, range, true),
        Wanted::Class => push_classes(alloc, items, range, false),
        Wanted::Attribute(class, object) => {
            let bytes = file.1.as_slice();
            push_missing(alloc, items, bytes, class, object, written, range)
        }
        Wanted::Action => push_actions(alloc, items, range),
        Wanted::Object(fit) => push_objects(alloc, items, files, file, fit, range),
        Wanted::Event => push_events(alloc, items, range),
        Wanted::Truth => push_words(alloc, items, range, &["true", "false"]),
        Wanted::Justification => push_words(alloc, items, range, &["start", "end", "centre"]),
        Wanted::Kind => push_kinds(alloc, items, range),
    }
}

/// Pushes the objects that fit: those of the file by their number, those of an application and groups with their name.
fn push_objects(
    alloc: Global,
    items: &mut Vec<Value>,
    files: &[File],
    file: &File,
    fit: Fit,
    range: Range,
) -> Result<(), AllocError> {
    for other in files {
        let is_here = other.0.as_bytes() == file.0.as_bytes();
        push_objects_of(alloc, items, other, is_here, fit, range)?;
    }
    Ok(())
}

fn push_objects_of(
    alloc: Global,
    items: &mut Vec<Value>,
    file: &File,
    is_here: bool,
    fit: Fit,
    range: Range,
) -> Result<(), AllocError> {
    let objects = objects_in(alloc, file.1.as_slice())?;
    let offered = Offered {
        file,
        is_here,
        is_near: is_here || is_application(objects.as_slice()),
    };
    push_fitting(alloc, items, offered, objects.as_slice(), fit, range)
}

/// A file of which objects are offered.
#[derive(Clone, Copy)]
struct Offered<'a> {
    file: &'a File,
    is_here: bool,
    /// Whether objects in it are offered, and not the group alone.
    is_near: bool,
}

fn is_application(objects: &[Outlined]) -> bool {
    match objects.first() {
        Some(object) => matches!(object.class, Class::Application),
        None => false,
    }
}

fn push_fitting(
    alloc: Global,
    items: &mut Vec<Value>,
    offered: Offered<'_>,
    objects: &[Outlined],
    fit: Fit,
    range: Range,
) -> Result<(), AllocError> {
    for object in objects {
        if is_offered(offered, object.class) && is_fit(fit, object.class) {
            push_object(alloc, items, offered, object, range)?;
        }
    }
    Ok(())
}

fn is_offered(offered: Offered<'_>, class: Class) -> bool {
    offered.is_near || class.is_group()
}

fn push_object(
    alloc: Global,
    items: &mut Vec<Value>,
    offered: Offered<'_>,
    object: &Outlined,
    range: Range,
) -> Result<(), AllocError> {
    let text = reference_text(alloc, offered, object.number)?;
    let mut detail = Vec::new(alloc);
    put_object(alloc, &mut detail, object.class, object.number)?;
    let offer = Offer {
        text: text.as_slice(),
        kind: 6,
        detail: detail.as_slice(),
    };
    offer.push(alloc, items, range)
}

/// How an object is named.
fn reference_text(alloc: Global, offered: Offered<'_>, number: u32) -> Result<Vec<u8>, AllocError> {
    let mut text = Vec::new(alloc);
    if offered.is_here {
        put_number(alloc, &mut text, u64::from(number))?;
        return Ok(text);
    }
    text.extend_from_slice(b"(\"~/")?;
    text.extend_from_slice(offered.file.0.as_bytes())?;
    text.extend_from_slice(b"\" ")?;
    put_number(alloc, &mut text, u64::from(number))?;
    text.push(b')')?;
    Ok(text)
}
