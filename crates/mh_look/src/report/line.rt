//! The parts of a report that are one line, read back, and its last line.
//!
//! A line is read by its words, as far as they tell a part; that part is printed again, and has to
//! stand there.
ghost use Rattle.std.specs.Prelude.{◌≡◌, ◌++◌, IfOk, IfSome, OnOk};
ghost use Rattle.mh_look.specs.Lines.{IsLineFound, IsTotalFound, IsGoodLine, TakesPart, TakesDid, left_of, line_text};

use crate::report::Part;
use crate::report::fault::{guess_fault, guess_short};
use crate::report::front::{before, behind, length_in_front};
use crate::report::number::read_number;
use mh_model::Rest;
use mh_told::text::Text;
use mh_told::told::{put_did, put_fault, put_refused, put_total};
use std::alloc::{AllocError, Global};

/// The part that is one line with which the bytes begin, and how long that line is.
pub fn read_line(alloc: Global, bytes: &[u8]) -> Result<Option<(Part, usize)>, AllocError>
    ensures { IfOk result (IsLineFound bytes.now) }
{
    let Some(part) = guess_part(alloc, bytes)? else {
        return Ok(None);
    };
    let mut text = Text::new(alloc);
    put_part(&mut text, &part)?;
    match length_in_front(bytes, text.as_slice()) {
        Some(length) => Ok(Some((part, length))),
        None => Ok(None),
    }
}

/// The part whose line the bytes can begin with, if with any.
fn guess_part(alloc: Global, bytes: &[u8]) -> Result<Option<Part>, AllocError>
    ensures taken { IfOk result (TakesPart bytes.now) }
    ensures good { IfOk result (λ found. IfSome found IsGoodLine) }
{
    let word = before(bytes, b' ');
    if word == b"fault".as_slice() {
        let fault = guess_fault(alloc, bytes)?;
        return Ok(fault.map(Part::Fault));
    }
    if word == b"refused".as_slice() {
        return Ok(guess_short(behind(bytes, b' ')).map(Part::Refused));
    }
    if word == b"did".as_slice() {
        return Ok(guess_did(behind(bytes, b' ')));
    }
    Ok(None)
}

/// The steps that were done and what was left to do, behind the first word.
fn guess_did(words: &[u8]) -> Option<Part>
    ensures taken { TakesDid words.now result }
    ensures good { IfSome result IsGoodLine }
{
    let (steps, digits) = read_number(words)?;
    let rest = guess_rest(before(&words[digits..], b'\n'))?;
    Some(Part::Did(steps, rest))
}

fn guess_rest(word: &[u8]) -> Option<Rest>
    ensures { result ≡ left_of word.now }
{
    if word == b" idle".as_slice() {
        return Some(Rest::Idle);
    }
    if word == b" more".as_slice() {
        return Some(Rest::More);
    }
    if word == b" ended".as_slice() {
        return Some(Rest::Ended);
    }
    None
}

/// Puts the line of a part that is one line; nothing for a frame.
fn put_part(text: &mut Text, part: &Part) -> Result<(), AllocError>
    ensures { OnOk result (text.new ≡ text.old ++ line_text part.now) }
{
    match part {
        Part::Fault(fault) => put_fault(text, fault),
        Part::Refused(number) => put_refused(text, *number),
        Part::Did(steps, rest) => put_did(text, *steps, *rest),
        Part::Frame(_) => Ok(()),
    }
}

/// The steps that were done in all, if the bytes are the line that ends a report.
pub fn read_total(alloc: Global, bytes: &[u8]) -> Result<Option<u64>, AllocError>
    ensures { IfOk result (IsTotalFound bytes.now) }
{
    let Some((steps, _)) = read_number(behind(bytes, b' ')) else {
        return Ok(None);
    };
    let mut text = Text::new(alloc);
    put_total(&mut text, steps)?;
    if text.as_slice() == bytes {
        Ok(Some(steps))
    } else {
        Ok(None)
    }
}
