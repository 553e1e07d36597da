//! `Sense`: what a token means, whatever stands around it.
ghost use Rattle.std.specs.Prelude.{◌≡◌, nat_le, if◌then◌else◌, Some, None};
ghost use Rattle.mh_edit.specs.Senses as spec;

use crate::word::{Extent, Word, text_of};
use mh_base::Kind;
use mh_group::{ActionName, Attribute, Class};
use mh_text::TokenKind;

/// What a token means.
#[derive(Clone, Copy)]
pub enum Sense {
    OpenBrace,
    CloseBrace,
    Open,
    Close,
    Class(Class),
    Attribute(Attribute),
    Action(ActionName),
    /// The keyword in front of a value of this kind.
    Kind(Kind),
    ContentRef,
    IndirectRef,
    /// A number from 0 on.
    Number(u32),
    /// A string in quotation marks: where what stands between them is.
    Text(Extent),
    /// Any other value.
    Value,
    /// No table has it.
    Unknown,
}

/// What the token means.
#[tactic(auto, unfolding(crate::specs::Senses::sense_of))]
pub fn sense_of(bytes: &[u8], word: Word) -> Sense
    ensures { result ≡ spec.sense_of bytes.now word }
{
    match word.kind {
        TokenKind::OpenBrace => Sense::OpenBrace,
        TokenKind::CloseBrace => Sense::CloseBrace,
        TokenKind::OpenParenthesis => Sense::Open,
        TokenKind::CloseParenthesis => Sense::Close,
        TokenKind::Keyword => keyword_sense(text_of(bytes, word.at)),
        TokenKind::Integer => integer_sense(text_of(bytes, word.at)),
        TokenKind::Text => Sense::Text(inner_of(word.at)),
        TokenKind::Word | TokenKind::Quoted => Sense::Value,
    }
}

/// Where what stands between the marks of a string is.
pub fn inner_of(at: Extent) -> Extent
    ensures { result ≡ spec.inner_of at }
{
    Extent {
        start: at.start.saturating_add(1),
        length: at.length.saturating_sub(2),
    }
}

/// What a keyword means, with its colon in front.
fn keyword_sense(text: &[u8]) -> Sense
    ensures { result ≡ spec.keyword_sense text.now }
{
    match text {
        [_, name @ ..] => name_sense(name),
        [] => Sense::Unknown,
    }
}

#[tactic(auto, unfolding(crate::specs::Senses::name_sense))]
fn name_sense(name: &[u8]) -> Sense
    ensures { result ≡ spec.name_sense name.now }
{
    if let Some(attribute) = attribute_named(name) {
        return Sense::Attribute(attribute);
    }
    if let Some(action) = action_named(name) {
        return Sense::Action(action);
    }
    if let Some(class) = class_named(name) {
        return Sense::Class(class);
    }
    if let Some(kind) = kind_named(name) {
        return Sense::Kind(kind);
    }
    mark_sense(name)
}

#[tactic(auto, unfolding(crate::specs::Senses::mark_sense))]
fn mark_sense(name: &[u8]) -> Sense
    ensures { result ≡ spec.mark_sense name.now }
{
    if name == b"IndirectRef".as_slice() {
        return Sense::IndirectRef;
    }
    if name == b"ContentRef".as_slice() {
        return Sense::ContentRef;
    }
    Sense::Unknown
}

#[tactic(auto, unfolding(crate::specs::Senses::class_named))]
fn class_named(name: &[u8]) -> Option<Class>
    ensures { result ≡ spec.class_named name.now }
{
    Class::of_word(name)
}

#[tactic(auto, unfolding(crate::specs::Senses::attribute_named))]
fn attribute_named(name: &[u8]) -> Option<Attribute>
    ensures { result ≡ spec.attribute_named name.now }
{
    Attribute::of_word(name)
}

#[tactic(auto, unfolding(crate::specs::Senses::action_named))]
fn action_named(name: &[u8]) -> Option<ActionName>
    ensures { result ≡ spec.action_named name.now }
{
    ActionName::of_word(name)
}

#[tactic(auto, unfolding(crate::specs::Senses::kind_named))]
fn kind_named(name: &[u8]) -> Option<Kind>
    ensures { result ≡ spec.kind_named name.now }
{
    mh_group::kind_of_word(name)
}

fn integer_sense(text: &[u8]) -> Sense
    ensures { result ≡ spec.integer_sense text.now }
{
    match text {
        [b'-', ..] => Sense::Value,
        _ => number_sense(text),
    }
}

fn number_sense(digits: &[u8]) -> Sense
    ensures { result ≡ spec.number_sense digits.now }
{
    match magnitude(digits) {
        Some(number) => Sense::Number(number),
        None => Sense::Value,
    }
}

/// The number that the digits write, if it is at most 2,147,483,647.
#[tactic(auto, unfolding(crate::specs::Senses::magnitude))]
fn magnitude(digits: &[u8]) -> Option<u32>
    ensures { result ≡ spec.magnitude digits.now }
{
    let mut value = 0u64;
    for digit in digits {
        value = value * 10 + u64::from(digit.saturating_sub(b'0'));
        if value > 2147483647 {
            return None;
        }
    }
    Some(value as u32)
}
