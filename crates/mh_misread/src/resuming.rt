//! Where reading goes on in a text behind what is wrong there, and what is read then.
ghost use Rattle.std.specs.Prelude.{◌≡◌, ◌≤◌, ◌++◌, ℕ, List, drop, length, not, IfOk, OnOk, MatchResult};
ghost use Rattle.std.specs.List.{filter, prefix_len};
ghost use Rattle.mh_base.specs.Reading.{whole};
ghost use Rattle.mh_text.specs.Left.{lexed};
ghost use Rattle.mh_misread.specs.Resuming.{brace_in, fills_line, from_brace, head, head_of, is_application, is_line_end, is_open_brace, skipped, text_from};

use crate::name::Name;
use crate::piece::Sign;
use crate::span::{behind, front};
use crate::token::first_sign;
use mh_group::Class;
use mh_text::{TextError, TokenKind, Tokens};
use std::alloc::{AllocError, Global};

// Beginnings of groups, up to the bracket behind which their ingredients stand.

pub const APPLICATION_HEAD: &[u8] = b"{:Application(\"~/a\"0):Items(";

pub const SCENE_HEAD: &[u8] = b"{:Scene(\"~/a\"0):Items(";

/// The bytes from the first brace on that opens; none where no brace does.
#[tactic(auto, unfolding(crate::specs::Resuming::from_brace))]
pub(crate) fn from_brace(bytes: &[u8]) -> &[u8]
    ensures { result.now ≡ from_brace bytes.now }
{
    let mut left = bytes;
    // A text has no more tokens than bytes.
    for _ in 0..bytes.len() {
        match brace_or_rest(left) {
            Ok(found) => return found,
            Err(rest) => left = rest,
        }
    }
    &[]
}

/// The bytes from a brace on that opens, or none, where that is all that is found in front; else what stands behind it.
fn brace_or_rest(bytes: &[u8]) -> Result<&[u8], &[u8]>
    ensures { (further : List ℕ → List ℕ) → MatchResult result
        (λ found. brace_in further bytes.now (lexed (whole bytes.now)) ≡ found.now)
        (λ rest. brace_in further bytes.now (lexed (whole bytes.now)) ≡ further rest.now) }
{
    match Tokens::new(bytes).next() {
        Ok(None) => Ok(&[]),
        Ok(Some(token)) if is_open_brace(token.kind) => Ok(behind(bytes, token.start)),
        Ok(Some(token)) => Err(behind(behind(bytes, token.start), token.text.len())),
        Err(TextError::At { offset, .. }) => Err(behind_bad(behind(bytes, offset))),
        Err(TextError::NoMemory) => unreachable!(),
    }
}

fn is_open_brace(kind: TokenKind) -> bool
    ensures { result ≡ is_open_brace kind }
{
    matches!(kind, TokenKind::OpenBrace)
}

/// What stands behind bytes that begin no token.
fn behind_bad(bytes: &[u8]) -> &[u8]
    ensures { result.now ≡ drop (skipped bytes.now) bytes.now }
{
    behind(bytes, skipped(bytes))
}

/// How many bytes are passed over where no token begins.
fn skipped(bytes: &[u8]) -> usize
    ensures { result ≡ skipped bytes.now }
{
    match bytes {
        [] => 0,
        [first, ..] if fills_line(*first) => line_length(bytes),
        _ => 1,
    }
}

/// Whether a string, or what may be meant as a comment, goes on from this byte to the end of the line.
fn fills_line(byte: u8) -> bool
    ensures { result ≡ fills_line byte }
{
    byte == b'"' || byte == b'\'' || byte == b'#' || byte == b'/'
}

/// How many bytes stand in front of the end of the line.
fn line_length(bytes: &[u8]) -> usize
    ensures exact { result ≡ prefix_len (λ b. not (is_line_end b)) bytes.now }
    ensures within { result ≤ length bytes.now }
{
    bytes.iter().take_while(|byte| !is_line_end(**byte)).count()
}

fn is_line_end(byte: u8) -> bool
    ensures { result ≡ is_line_end byte }
{
    byte == b'\n'
}

/// The beginning of a group of the class that the file names behind its brace, if that is an application's, or else a
/// scene's.
#[tactic(auto, unfolding(crate::specs::Resuming::head_of))]
fn head_of(file: &[u8]) -> &'static [u8]
    ensures { result.now ≡ head_of file.now }
{
    head(is_application(first_sign(behind(from_brace(file), 1))))
}

fn head(is_application: bool) -> &'static [u8]
    ensures { result.now ≡ head is_application }
{
    if is_application {
        APPLICATION_HEAD
    } else {
        SCENE_HEAD
    }
}

fn is_application(sign: Option<Sign>) -> bool
    ensures { result ≡ is_application sign }
{
    matches!(sign, Some(Sign::Name(Name::Class(Class::Application))))
}

/// The whole file, or the group of which the first ingredient stands behind so many bytes: its line has the number that it
/// has in the file.
#[tactic(auto, unfolding(crate::specs::Resuming::text_from))]
pub fn text_from(alloc: Global, file: &[u8], from: usize) -> Result<Vec<u8>, AllocError>
    ensures { IfOk result (λ text. text.items ≡ text_from file.now from) }
{
    if from == 0 {
        return Vec::from_slice(alloc, file);
    }
    let mut text = Vec::from_slice(alloc, head_of(file))?;
    put_line_ends(&mut text, front(file, from))?;
    text.extend_from_slice(behind(file, from))?;
    Ok(text)
}

/// Puts the ends of the lines that end in these bytes.
fn put_line_ends(text: &mut Vec<u8>, bytes: &[u8]) -> Result<(), AllocError>
    ensures { OnOk result (text.new.items ≡ text.old.items ++ filter is_line_end bytes.now) }
{
    for byte in bytes {
        if is_line_end(*byte) {
            text.push(*byte)?;
        }
    }
    Ok(())
}
