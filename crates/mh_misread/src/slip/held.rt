//! A keyword that stands in a string: the mark that ends the string seems to be missing in front of it.
//!
//! Promise: each function answers what the definition of the same matter in `specs/Held` or `specs/Misreads` says.
ghost use Rattle.std.specs.Prelude.{◌≡◌, ◌≤◌, ◌==◌, length, not, IfOk};
ghost use Rattle.std.specs.List.{prefix_len};
ghost use Rattle.mh_text.specs.Bytes.{is_letter_or_digit as is_letter_or_digit_lem};
ghost use Rattle.mh_misread.specs.Held.{first_keyword, keyword_here, last_start, line_of};
ghost use Rattle.mh_misread.specs.Misreads.{held_before};

use crate::gap::is_letter_or_digit;
use crate::misread::ends_string;
use crate::name::{Name, keyword_named};
use crate::piece::{Piece, pieces_before};
use crate::span::{behind, front};
use std::alloc::{AllocError, Global};

/// How many letters and digits stand at the front.
fn name_length(bytes: &[u8]) -> usize
    ensures exact { result ≡ prefix_len is_letter_or_digit_lem bytes.now }
    ensures within { result ≤ length bytes.now }
{
    bytes
        .iter()
        .take_while(|byte| is_letter_or_digit(**byte))
        .count()
}

/// The keyword with which these bytes begin.
fn keyword_here(bytes: &[u8]) -> Option<Name>
    ensures { result ≡ keyword_here bytes.now }
{
    match bytes {
        [b':', rest @ ..] => keyword_named(front(rest, name_length(rest))),
        _ => None,
    }
}

/// The first keyword in these bytes that a table has.
#[tactic(auto, unfolding(crate::specs::Held::first_keyword))]
pub(crate) fn first_keyword(bytes: &[u8]) -> Option<Name>
    ensures { result ≡ first_keyword bytes.now }
{
    let mut left = bytes;
    while let [_, rest @ ..] = left {
        if let Some(name) = keyword_here(left) {
            return Some(name);
        }
        left = rest;
    }
    None
}

/// Where the last of these tokens begins.
fn last_start(pieces: &[Piece]) -> usize
    ensures { result ≡ last_start pieces.now }
{
    match pieces.last() {
        Some(piece) => piece.start,
        None => 0,
    }
}

/// How many bytes stand in front of the end of the line.
fn line_length(bytes: &[u8]) -> usize
    ensures exact { result ≡ prefix_len (λ b. not (b == 10)) bytes.now }
    ensures within { result ≤ length bytes.now }
{
    bytes.iter().take_while(|byte| **byte != b'\n').count()
}

/// The bytes up to the end of their first line.
#[tactic(auto, unfolding(crate::specs::Held::line_of))]
pub(crate) fn line_of(bytes: &[u8]) -> &[u8]
    ensures { result.now ≡ line_of bytes.now }
{
    front(bytes, line_length(bytes))
}

/// The keyword in the string that ends right in front of the offset, if one does.
#[tactic(auto, unfolding(crate::specs::Misreads::held_before))]
pub(crate) fn held_before(
    alloc: Global,
    file: &[u8],
    offset: usize,
) -> Result<Option<Name>, AllocError>
    ensures { IfOk result (λ held. held ≡ held_before file.now offset) }
{
    let before = front(file, offset);
    if !ends_string(before) {
        return Ok(None);
    }
    let pieces = pieces_before(alloc, file, offset)?;
    Ok(first_keyword(behind(before, last_start(pieces.as_slice()))))
}
