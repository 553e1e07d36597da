//! `Misread`: what is wrong with a text that is not read, case by case.
ghost use Rattle.std.specs.Prelude.{◌≡◌, ◌∷◌, [], List, take, drop, IfOk};
ghost use Rattle.std.specs.List.{find};
ghost use Rattle.std.specs.Option.{option_map};
ghost use Rattle.mh_misread.specs.Goals.{wanted_behind};
ghost use Rattle.mh_misread.specs.Pieces.{pieces_before};
ghost use Rattle.mh_misread.specs.Misreads.{misread_of, is_of_token, own_misread, token_misread, syntax, syntax_at, unknown_name, unknown_at, out_of_range, range_at, first_token, top_of, is_behind_string, ends_string, is_string_mark, is_word};

use crate::goal::{Frame, Goal};
use crate::name::Name;
use crate::piece::pieces_before;
use crate::slip::held::held_before;
use crate::slip::{Slip, slip_of};
use crate::span::{behind, front};
use crate::stack::Stack;
use crate::syntax::syntax;
use crate::token::first_token;
use crate::unknown::unknown;
use mh_group::{Attribute, Class};
use mh_model::Key;
use mh_text::TokenKind;
use std::alloc::{AllocError, Global};

/// What is wrong with a text at the place where reading stopped.
#[derive(Clone, Copy)]
pub enum Misread {
    /// No token begins there.
    Slip(Slip),
    /// A word that is a keyword without its colon.
    NoColon(Name),
    /// A keyword or a word that no table has, where this is wanted; and the name that is most like it.
    Unknown(Goal, Option<Name>),
    /// A word right behind the end of a string.
    BehindString,
    /// What stands right behind a string that holds this keyword.
    HoldsKeyword(Name),
    /// A key by its name, where its number is wanted.
    KeyName(Key),
    /// No white space stands in front of the token.
    Tight,
    /// A token behind the group.
    Behind,
    /// The text ends while the bracket at this offset is open.
    TextEnds(usize),
    /// A bracket, a brace or a field, while the brace or the bracket at this offset is open.
    Unclosed(usize),
    /// A field that the class does not take.
    NotTaken(Class, Attribute),
    /// A field that stands there already.
    Twice(Class, Attribute),
    /// An object that ends without this field.
    Lacks(Class, Attribute),
    /// A name that wants brackets of its own.
    BareName,
    /// Another token than what is wanted, and the action or the field that is being read.
    Unwanted(Goal, Option<Goal>),
    /// A value outside the limits of what is wanted.
    OutOfRange(Goal),
}

/// What is wrong with a file that is refused at the offset by the number; none where no case is known.
#[tactic(auto, unfolding(crate::specs::Misreads::misread_of))]
pub fn misread_of(
    alloc: Global,
    file: &[u8],
    offset: usize,
    number: u32,
) -> Result<Option<Misread>, AllocError>
    ensures { IfOk result (λ misread. misread ≡ misread_of file.now offset number) }
{
    if is_of_token(number) {
        return token_misread(alloc, file, offset, number);
    }
    if number == 23 {
        return out_of_range(alloc, file, offset);
    }
    Ok(None)
}

/// Whether it is at a token that reading stopped, by the number of the refusal.
fn is_of_token(number: u32) -> bool
    ensures { result ≡ is_of_token number }
{
    number == 20 || number == 21 || number == 22
}

/// What is wrong at a token; a string in front that holds a keyword is the first cause.
#[tactic(auto, unfolding(crate::specs::Misreads::token_misread))]
fn token_misread(
    alloc: Global,
    file: &[u8],
    offset: usize,
    number: u32,
) -> Result<Option<Misread>, AllocError>
    ensures { IfOk result (λ misread. misread ≡ token_misread file.now offset number) }
{
    match held_before(alloc, file, offset)? {
        Some(name) => Ok(Some(Misread::HoldsKeyword(name))),
        None => own_misread(alloc, file, offset, number),
    }
}

/// What is wrong with the token itself.
#[tactic(auto, unfolding(crate::specs::Misreads::own_misread))]
fn own_misread(
    alloc: Global,
    file: &[u8],
    offset: usize,
    number: u32,
) -> Result<Option<Misread>, AllocError>
    ensures { IfOk result (λ misread. misread ≡ own_misread file.now offset number) }
{
    match number {
        20 => Ok(slip_of(behind(file, offset)).map(Misread::Slip)),
        21 => Ok(Some(syntax(alloc, file, offset)?)),
        _ => unknown_name(alloc, file, offset),
    }
}

/// A name that no table has.
#[tactic(auto, unfolding(crate::specs::Misreads::unknown_name))]
fn unknown_name(alloc: Global, file: &[u8], offset: usize) -> Result<Option<Misread>, AllocError>
    ensures { IfOk result (λ misread. misread ≡ unknown_name file.now offset) }
{
    if is_behind_string(front(file, offset), behind(file, offset)) {
        return Ok(Some(Misread::BehindString));
    }
    let top = top_at(alloc, file, offset)?;
    Ok(unknown_at(top, behind(file, offset)))
}

/// Whether the first bytes end with a string, and the others begin with a word.
fn is_behind_string(before: &[u8], bytes: &[u8]) -> bool
    ensures { result ≡ is_behind_string before.now (first_token bytes.now) }
{
    match first_token(bytes) {
        Some(token) => ends_string(before) && is_word(token.kind),
        None => false,
    }
}

pub(crate) fn ends_string(bytes: &[u8]) -> bool
    ensures { result ≡ ends_string bytes.now }
{
    is_string_mark(bytes.last().copied())
}

fn is_string_mark(byte: Option<u8>) -> bool
    ensures { result ≡ is_string_mark byte }
{
    match byte {
        Some(byte) => byte == b'"' || byte == b'\'',
        None => false,
    }
}

fn is_word(kind: TokenKind) -> bool
    ensures { result ≡ is_word kind }
{
    matches!(kind, TokenKind::Word)
}

/// A name that no table has, at the front of these bytes, where this is wanted.
fn unknown_at(top: Option<Frame>, bytes: &[u8]) -> Option<Misread>
    ensures { result ≡ unknown_at top (first_token bytes.now) }
{
    let frame = top?;
    let token = first_token(bytes)?;
    Some(unknown(frame.goal, token.kind, token.text))
}

/// A value outside its limits.
#[tactic(auto, unfolding(crate::specs::Misreads::out_of_range))]
fn out_of_range(alloc: Global, file: &[u8], offset: usize) -> Result<Option<Misread>, AllocError>
    ensures { IfOk result (λ misread. misread ≡ out_of_range file.now offset) }
{
    let top = top_at(alloc, file, offset)?;
    Ok(range_at(top))
}

fn range_at(top: Option<Frame>) -> Option<Misread>
    ensures { result ≡ range_at top }
{
    match top {
        Some(frame) => Some(Misread::OutOfRange(frame.goal)),
        None => None,
    }
}

/// What is wanted at the offset.
fn top_at(alloc: Global, file: &[u8], offset: usize) -> Result<Option<Frame>, AllocError>
    ensures { IfOk result (λ top. top ≡ top_of (wanted_behind (pieces_before file.now offset))) }
{
    let pieces = pieces_before(alloc, file, offset)?;
    let mut stack = Stack::behind(alloc, pieces.as_slice())?;
    Ok(stack.top())
}
