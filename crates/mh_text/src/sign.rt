//! `Sign`: what a token means. Keywords, words and integers are looked up here, wherever they stand;
//! what may stand where is left to the readers.
ghost use Rattle.std.specs.Prelude.{◌≡◌, Some, None, nat_le, if◌then◌else◌, ◌+◌, ◌*◌};
ghost use Rattle.mh_text.specs.Signs.{sign_of, keyword_sign, word_sign, integer_sign, integer_of, positive, negative};
ghost use Rattle.mh_text.specs.Bytes.{number_behind};
ghost use Rattle.mh_text.specs.Reading.{is_open, is_close, is_open_brace, is_close_brace, is_indirect, is_content_ref};

use crate::keyword::name_sign;
use crate::{TokenKind, Why};
use mh_base::{EventType, Kind};
use mh_group::{ActionName, Attribute, Class, Justification};

/// What a token means.
#[derive(Clone, Copy)]
pub(crate) enum Sign {
    OpenBrace,
    CloseBrace,
    OpenParenthesis,
    CloseParenthesis,
    Class(Class),
    Attribute(Attribute),
    Action(ActionName),
    /// The keyword in front of a value of this kind.
    Kind(Kind),
    /// The keyword in front of the name of a content file.
    ContentRef,
    /// The keyword in front of the reference of a variable that holds the value.
    IndirectRef,
    Event(EventType),
    Justification(Justification),
    Truth(bool),
    Integer(i32),
    Text,
    Quoted,
}

impl Sign {
    pub(crate) fn is_open(self) -> bool
        ensures { result ≡ is_open self }
    {
        matches!(self, Sign::OpenParenthesis)
    }

    pub(crate) fn is_close(self) -> bool
        ensures { result ≡ is_close self }
    {
        matches!(self, Sign::CloseParenthesis)
    }

    pub(crate) fn is_open_brace(self) -> bool
        ensures { result ≡ is_open_brace self }
    {
        matches!(self, Sign::OpenBrace)
    }

    pub(crate) fn is_close_brace(self) -> bool
        ensures { result ≡ is_close_brace self }
    {
        matches!(self, Sign::CloseBrace)
    }

    pub(crate) fn is_indirect(self) -> bool
        ensures { result ≡ is_indirect self }
    {
        matches!(self, Sign::IndirectRef)
    }

    pub(crate) fn is_content_ref(self) -> bool
        ensures { result ≡ is_content_ref self }
    {
        matches!(self, Sign::ContentRef)
    }
}

/// What the token means: 22 where no table has its name, 23 where its number has more than 32 bits.
#[tactic(auto, unfolding(crate::specs::Signs::sign_of))]
pub(crate) fn sign_of(kind: TokenKind, text: &[u8]) -> Result<Sign, Why>
    ensures { result ≡ sign_of kind text.now }
{
    match kind {
        TokenKind::OpenBrace => Ok(Sign::OpenBrace),
        TokenKind::CloseBrace => Ok(Sign::CloseBrace),
        TokenKind::OpenParenthesis => Ok(Sign::OpenParenthesis),
        TokenKind::CloseParenthesis => Ok(Sign::CloseParenthesis),
        TokenKind::Keyword => keyword_sign(text).ok_or(Why::UnknownName),
        TokenKind::Word => word_sign(text).ok_or(Why::UnknownName),
        TokenKind::Integer => integer_sign(text).ok_or(Why::Range),
        TokenKind::Text => Ok(Sign::Text),
        TokenKind::Quoted => Ok(Sign::Quoted),
    }
}

/// What the keyword means, with its colon in front.
fn keyword_sign(text: &[u8]) -> Option<Sign>
    ensures { result ≡ keyword_sign text.now }
{
    match text {
        [_, name @ ..] => name_sign(name),
        [] => None,
    }
}

#[inline(never)]
#[tactic(auto, unfolding(crate::specs::Signs::word_sign))]
fn word_sign(text: &[u8]) -> Option<Sign>
    ensures { result ≡ word_sign text.now }
{
    if text == b"true".as_slice() {
        return Some(Sign::Truth(true));
    }
    if text == b"false".as_slice() {
        return Some(Sign::Truth(false));
    }
    if let Some(event) = mh_group::event_of_word(text) {
        return Some(Sign::Event(event));
    }
    match Justification::of_word(text) {
        Some(justification) => Some(Sign::Justification(justification)),
        None => None,
    }
}

fn integer_sign(text: &[u8]) -> Option<Sign>
    ensures { result ≡ integer_sign text.now }
{
    match integer_of(text) {
        Some(value) => Some(Sign::Integer(value)),
        None => None,
    }
}

/// The number that the digits write, perhaps behind a minus sign, if 32 bits can hold it.
#[tactic(auto, unfolding(crate::specs::Signs::integer_of))]
fn integer_of(text: &[u8]) -> Option<i32>
    ensures { result ≡ integer_of text.now }
{
    match text {
        [] => None,
        [b'-', digits @ ..] => negative(digits),
        _ => positive(text),
    }
}

fn positive(digits: &[u8]) -> Option<i32>
    ensures { result ≡ positive (number_behind 0 digits.now) }
{
    let magnitude = magnitude(digits)?;
    if magnitude < 2147483648 {
        Some(magnitude as i32)
    } else {
        None
    }
}

fn negative(digits: &[u8]) -> Option<i32>
    ensures { result ≡ negative (number_behind 0 digits.now) }
{
    let magnitude = magnitude(digits)?;
    Some((-i64::from(magnitude)) as i32)
}

/// The number that the digits write, if it is at most 2,147,483,648.
fn magnitude(digits: &[u8]) -> Option<u32>
    ensures { result ≡ (if nat_le (number_behind 0 digits.now) 2147483648 then Some (number_behind 0 digits.now) else None) }
{
    let mut value = 0u64;
    for digit in digits {
        value = value * 10 + u64::from(digit.saturating_sub(b'0'));
        if value > 2147483648 {
            return None;
        }
    }
    Some(value as u32)
}
