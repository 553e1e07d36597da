//! What is told below everything while a service is played.
use crate::following::Given;
use mh_told::text::Text;
use mh_told::unplayable::Unplayable;
use mh_try::complaint_of;
use std::alloc::{AllocError, Global};

/// How far the play is, where a step back has left something.
pub fn back_text(alloc: Global, inputs: (usize, usize)) -> Result<Text, AllocError> {
    let mut text = Text::new(alloc);
    text.put(b"back: ")?;
    text.put_number(inputs.0 as u64)?;
    text.put(b" of ")?;
    text.put_number(inputs.1 as u64)?;
    text.put(b" inputs; > goes forth, another key goes on from here")?;
    Ok(text)
}

/// The files have changed, and were played again.
pub fn changed_text(alloc: Global, inputs: (usize, usize)) -> Result<Text, AllocError> {
    let mut text = Text::new(alloc);
    text.put(b"the files have changed; inputs that were played again: ")?;
    text.put_number(inputs.0 as u64)?;
    Ok(text)
}

/// A file cannot be read.
pub fn unread_text(alloc: Global, name: &str) -> Result<Text, AllocError> {
    let mut text = Text::new(alloc);
    text.put(b"cannot read ")?;
    text.put(name.as_bytes())?;
    text.put(b"; the play is that of before")?;
    Ok(text)
}

/// The files cannot be played.
pub fn unreadable_text(alloc: Global, given: &Given, why: &Unplayable) -> Result<Text, AllocError> {
    let mut text = complaint_of(alloc, given.files.as_slice(), why)?;
    text.put(b"; the play is that of before")?;
    Ok(text)
}
