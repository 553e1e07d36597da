//! The bytes that the lines of a block write.
use crate::fault::Fault;
use hex::FromHexError;
use std::alloc::Global;

/// How many times a line may stand at most.
const MOST_TURNS: u32 = 2_000_000;

/// Puts what a line writes, and says whether the next line begins where it ends.
pub fn put_line(alloc: Global, bytes: &mut Vec<u8>, line: &str, at: usize) -> Result<bool, Fault> {
    let (turns, text) = turns_of(line, at)?;
    let (text, is_joined) = match text.strip_suffix('\\') {
        Some(text) => (text, true),
        None => (text, false),
    };
    for before in 0..turns.count {
        put_text(alloc, bytes, text, turns.first.saturating_add(before), at)?;
        if !is_joined {
            bytes.push(b'\n')?;
        }
    }
    Ok(is_joined)
}

/// How many times a line stands, and the number of the first time.
#[derive(Clone, Copy)]
struct Turns {
    first: u32,
    count: u32,
}

/// The turns of a line, and what it says at each.
fn turns_of(line: &str, at: usize) -> Result<(Turns, &str), Fault> {
    let Some(rest) = line.strip_prefix("\\*") else {
        let once = Turns { first: 1, count: 1 };
        return Ok((once, line));
    };
    let (numbers, text) = rest.split_once(' ').unwrap_or((rest, ""));
    match turns_in(numbers) {
        Some(turns) => Ok((turns, text)),
        None => Err(Fault::Line(
            at,
            "`\\*` stands before how many times, or from which number to which, and a blank",
        )),
    }
}

/// The turns that these words say: `N`, or `FIRST-LAST`.
fn turns_in(numbers: &str) -> Option<Turns> {
    let (first, last) = numbers.split_once('-').unwrap_or(("1", numbers));
    let (first, last) = (first.parse::<u32>().ok()?, last.parse::<u32>().ok()?);
    let count = last.checked_sub(first)?.checked_add(1)?;
    if count > MOST_TURNS {
        return None;
    }
    Some(Turns { first, count })
}

/// Puts a text with its escapes, at this turn.
fn put_text(
    alloc: Global,
    bytes: &mut Vec<u8>,
    text: &str,
    turn: u32,
    at: usize,
) -> Result<(), Fault> {
    let mut is_first = true;
    for piece in text.split('\\') {
        if is_first {
            bytes.extend_from_slice(piece.as_bytes())?;
        } else {
            put_escape(alloc, bytes, piece, turn, at)?;
        }
        is_first = false;
    }
    Ok(())
}

/// Puts what stands behind a backslash.
fn put_escape(
    alloc: Global,
    bytes: &mut Vec<u8>,
    piece: &str,
    turn: u32,
    at: usize,
) -> Result<(), Fault> {
    if let Some(rest) = piece.strip_prefix('#') {
        let number = format!(in alloc; "{turn}")?;
        bytes.extend_from_slice(number.as_bytes())?;
        bytes.extend_from_slice(rest.as_bytes())?;
        return Ok(());
    }
    let (Some(digits), Some(rest)) = (piece.get(..2), piece.get(2..)) else {
        return Err(Fault::Line(
            at,
            "a backslash stands before two hexadecimal digits, or at the end",
        ));
    };
    put_octets(alloc, bytes, digits, at)?;
    bytes.extend_from_slice(rest.as_bytes())?;
    Ok(())
}

/// Puts octets that are written as hexadecimal digits.
pub fn put_octets(
    alloc: Global,
    bytes: &mut Vec<u8>,
    digits: &str,
    at: usize,
) -> Result<(), Fault> {
    match hex::decode(alloc, digits) {
        Ok(octets) => {
            bytes.extend_from_slice(octets.as_slice())?;
            Ok(())
        }
        Err(FromHexError::OutOfMemory) => Err(Fault::NoMemory),
        Err(_) => Err(Fault::Line(at, "an octet is written by two hexadecimal digits")),
    }
}
