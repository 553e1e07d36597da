//! Tables of cases. A table is a text: each case is a question of one or more lines, `=> ` and its answer,
//! and perhaps ` -- ` and what is said of it, with one space or a line's end in front of the case and of
//! the sign; and behind each case but the last stands `;;`.
//!
//! Where a table writes bytes, `|` is a line feed, a line's end is a space, and what stands between
//! backslashes is hexadecimal.
use std::alloc::{AllocError, Global};

/// How questions of a kind are answered.
pub trait Question {
    /// The answer to what is asked, which is also given as bytes. None where the question cannot be read.
    fn answer(alloc: Global, asked: &str, bytes: &[u8]) -> Option<Vec<u8>>;
}

fn put_octets(alloc: Global, bytes: &mut Vec<u8>, words: &str) -> Option<()> {
    for word in words.split_whitespace() {
        let octets = hex::decode(alloc, word).ok()?;
        bytes.extend_from_slice(octets.as_slice()).ok()?;
    }
    Some(())
}

fn put_text(bytes: &mut Vec<u8>, text: &str) -> Option<()> {
    for byte in text.as_bytes() {
        let byte = match *byte {
            b'|' => b'\n',
            b'\n' => b' ',
            other => other,
        };
        bytes.push(byte).ok()?;
    }
    Some(())
}

/// The bytes that a table writes so.
pub fn bytes(alloc: Global, written: &str) -> Option<Vec<u8>> {
    let mut bytes = Vec::new(alloc);
    let mut is_text = true;
    for piece in written.split('\\') {
        let put = if is_text {
            put_text(&mut bytes, piece)
        } else {
            put_octets(alloc, &mut bytes, piece)
        };
        put?;
        is_text = !is_text;
    }
    Some(bytes)
}

/// An answer of these bytes.
pub fn said(alloc: Global, answer: &[u8]) -> Option<Vec<u8>> {
    Vec::from_slice(alloc, answer).ok()
}

/// An answer of a number and a place.
pub fn placed(alloc: Global, number: u32, place: usize) -> Option<Vec<u8>> {
    Some(format!(in alloc; "{number} {place}").ok()?.into_bytes())
}

/// The word at this place of a question.
pub fn word(asked: &str, at: usize) -> &str {
    asked.split(' ').nth(at).unwrap_or("")
}

/// The number at this place of a question.
pub fn number(asked: &str, at: usize) -> Option<u32> {
    word(asked, at).parse::<u32>().ok()
}

/// The bytes of a question behind its first word.
pub fn behind<'a>(asked: &str, bytes: &'a [u8]) -> Option<&'a [u8]> {
    bytes.get(word(asked, 0).len() + 1..)
}

pub fn are(found: Option<Vec<u8>>, wanted: &[u8]) -> bool {
    match found {
        Some(found) => found.as_slice() == wanted,
        None => false,
    }
}

/// Whether the question of the case has its answer. What is said of the case in the end is left out.
fn is_answered<Q: Question>(alloc: Global, case: &str) -> Option<bool> {
    let case = case.get(1..)?;
    let (case, _) = case.split_once(" -- ").unwrap_or((case, ""));
    let (asked, wanted) = case.split_once("=> ")?;
    let asked = asked.get(..asked.len().checked_sub(1)?)?;
    let (question, wanted) = bytes(alloc, asked).zip(bytes(alloc, wanted))?;
    let found = Q::answer(alloc, asked, question.as_slice());
    Some(are(found, wanted.as_slice()))
}

/// The first case with another answer, or nothing.
pub fn first_wrong<Q: Question>(alloc: Global, table: &'static str) -> &'static str {
    for case in table.split(";;") {
        if is_answered::<Q>(alloc, case) != Some(true) {
            return case;
        }
    }
    ""
}

/// A front, so many times the same, and what stands behind it.
pub fn repeated(
    alloc: Global,
    front: &[u8],
    member: &[u8],
    count: usize,
    behind: &[u8],
) -> Result<Vec<u8>, AllocError> {
    let mut bytes = Vec::from_slice(alloc, front)?;
    for _ in 0..count {
        bytes.extend_from_slice(member)?;
    }
    let ended = bytes.extend_from_slice(behind);
    ended.and(Ok(bytes))
}
