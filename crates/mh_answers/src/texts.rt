//! Texts that are put together.
use mh_base::Kind;
use mh_group::{ActionName, Class, Need, Shape};
use std::alloc::{AllocError, Global};

pub(crate) fn put_number(alloc: Global, text: &mut Vec<u8>, number: u64) -> Result<(), AllocError> {
    let digits = format!(in alloc; "{number}")?;
    text.extend_from_slice(digits.as_bytes())
}

/// Puts a class and a number.
pub(crate) fn put_object(
    alloc: Global,
    text: &mut Vec<u8>,
    class: Class,
    number: u32,
) -> Result<(), AllocError> {
    text.extend_from_slice(class.word())?;
    text.push(b' ')?;
    put_number(alloc, text, u64::from(number))
}

/// Puts how an action is written.
pub(crate) fn put_call(text: &mut Vec<u8>, action: ActionName) -> Result<(), AllocError> {
    text.push(b':')?;
    text.extend_from_slice(action.word())?;
    text.extend_from_slice(b" (target")?;
    let needs = action.needs();
    let written = needs.len().saturating_sub(action.optional());
    for (place, need) in needs.iter().enumerate() {
        put_need(text, *need)?;
        if place >= written {
            text.push(b'?')?;
        }
    }
    text.push(b')')?;
    Ok(())
}

fn put_need(text: &mut Vec<u8>, need: Need) -> Result<(), AllocError> {
    text.push(b' ')?;
    match need {
        Need::Receiver(kind) => {
            text.extend_from_slice(b"variable-for-")?;
            text.extend_from_slice(kind_name(kind))
        }
        _ => text.extend_from_slice(need_name(need)),
    }
}

fn kind_name(kind: Kind) -> &'static [u8] {
    match kind {
        Kind::Bool => b"truth",
        Kind::Int => b"number",
        Kind::Octets => b"octets",
        Kind::Object => b"object",
        Kind::Content => b"content",
    }
}

fn need_name(need: Need) -> &'static [u8] {
    match need {
        Need::Bool => b"truth",
        Need::Int => b"number",
        Need::Octets => b"octets",
        Need::Ref => b"object",
        Need::Content => b"content",
        Need::Data => b"data",
        Need::Event => b"event",
        Need::Receiver(_) => b"variable",
        Need::Typed => b"kind value",
        Need::Arguments => b"(kind value ...)",
    }
}

/// What a value of the shape is.
pub(crate) fn shape_name(shape: Shape) -> &'static [u8] {
    match shape {
        Shape::Items => b"a list of objects",
        Shape::Effect => b"a list of actions",
        Shape::Bool => b"`true` or `false`",
        Shape::Int => b"a number",
        Shape::Natural => b"a number from 0",
        Shape::Length => b"a number from 1 to 255",
        Shape::Pair => b"two numbers",
        Shape::Size => b"two numbers from 0",
        Shape::Screen => b"`720 576`",
        Shape::Ref => b"an object",
        Shape::Event => b"a type of events",
        Shape::Data => b"a number, `true` or `false`",
        Shape::Octets => b"octets",
        Shape::Colour => b"a colour: red, green, blue and transparency, as `'=FF=00=00=00'`",
        Shape::Content => b"octets, or `:ContentRef` and the name of a file",
        Shape::ContentRef => b"`:ContentRef` and the name of a file",
        Shape::Justification => b"`start`, `end` or `centre`",
        Shape::MovementTable => b"a list of rows of numbers",
        Shape::Members => b"a list of members, each an object and its slots",
        Shape::ListItems => b"a list of objects",
        Shape::Positions => b"a list of pairs of numbers",
        Shape::NextScenes => b"a list of names with numbers",
    }
}

/// A word with a colon in front.
pub(crate) fn keyword_of(alloc: Global, word: &[u8]) -> Result<Vec<u8>, AllocError> {
    let mut text = Vec::new(alloc);
    text.push(b':')?;
    text.extend_from_slice(word)?;
    Ok(text)
}
