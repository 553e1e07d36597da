//! Words for what is found in a text: tokens, bytes, lines and brackets.
ghost use Rattle.std.specs.Prelude.{◌≡◌, ◌++◌, ◌≤◌, ◌<◌, OnOk, length};
ghost use Rattle.std.specs.List.{prefix_len};
ghost use Rattle.mh_misread.specs.Telling.{marked, keyword_written, written, word_shown, token_words, found, hex_digit, hex_byte, escapes, escaped, is_continuation, character_of, byte_words, lines_before, line_words, bracket_words};

use crate::name::Name;
use crate::phrases::{THIS_STRING, THIS_WORD};
use crate::span::{behind, front};
use crate::token::first_token;
use mh_text::TokenKind;
use mh_told::text::Text;
use std::alloc::AllocError;

/// Puts a word between marks, as it stands in a text.
#[tactic(auto, unfolding(crate::specs::Telling::marked))]
pub(crate) fn put_marked(text: &mut Text, word: &[u8]) -> Result<(), AllocError>
    ensures { OnOk result (text.new ≡ text.old ++ marked word.now) }
{
    text.put(b"`")?;
    text.put(word)?;
    text.put(b"`")
}

/// Puts a keyword as it is written.
#[tactic(auto, unfolding(crate::specs::Telling::keyword_written))]
pub(crate) fn put_keyword_written(text: &mut Text, word: &[u8]) -> Result<(), AllocError>
    ensures { OnOk result (text.new ≡ text.old ++ keyword_written word.now) }
{
    text.put(b"`:")?;
    text.put(word)?;
    text.put(b"`")
}

/// Puts a keyword or a word as it is written.
pub(crate) fn put_written(text: &mut Text, name: Name) -> Result<(), AllocError>
    ensures { OnOk result (text.new ≡ text.old ++ written name) }
{
    match name {
        Name::Event(event) => put_marked(text, mh_group::event_word(event)),
        Name::Justification(justification) => put_marked(text, justification.word()),
        Name::Truth(truth) => put_marked(text, Name::Truth(truth).word()),
        _ => put_keyword_written(text, name.word()),
    }
}

/// Puts words for a token of this kind and these bytes.
fn put_token_words(text: &mut Text, kind: TokenKind, word: &[u8]) -> Result<(), AllocError>
    ensures { OnOk result (text.new ≡ text.old ++ token_words kind word.now) }
{
    match kind {
        TokenKind::Text | TokenKind::Quoted => text.put(THIS_STRING),
        _ => put_word(text, word),
    }
}

/// Puts a word, if it is not too long to be shown.
fn put_word(text: &mut Text, word: &[u8]) -> Result<(), AllocError>
    ensures { OnOk result (text.new ≡ text.old ++ word_shown word.now) }
{
    if word.len() > 64 {
        return text.put(THIS_WORD);
    }
    put_marked(text, word)
}

/// Puts words for the token that stands at the place.
#[tactic(auto, unfolding(crate::specs::Telling::found))]
pub(crate) fn put_found(text: &mut Text, file: &[u8], offset: usize) -> Result<(), AllocError>
    ensures { OnOk result (text.new ≡ text.old ++ found file.now offset) }
{
    match first_token(behind(file, offset)) {
        Some(token) => put_token_words(text, token.kind, token.text),
        None => text.put(b"the end"),
    }
}

/// The upper-case hexadecimal digit of a number below 16.
fn hex_digit(number: u8) -> u8
    requires { number < 16 }
    ensures { result ≡ hex_digit number }
{
    if number < 10 {
        b'0' + number
    } else {
        b'A' - 10 + number
    }
}

/// Puts a byte in two hexadecimal digits.
#[tactic(auto, unfolding(crate::specs::Telling::hex_byte))]
pub fn put_hex_byte(text: &mut Text, byte: u8) -> Result<(), AllocError>
    ensures { OnOk result (text.new ≡ text.old ++ hex_byte byte) }
{
    text.put(&[hex_digit(byte / 16), hex_digit(byte % 16)])
}

/// Puts bytes as they are written in a string between `'`.
#[tactic(auto, unfolding(crate::specs::Telling::escaped))]
pub(crate) fn put_escaped(text: &mut Text, bytes: &[u8]) -> Result<(), AllocError>
    ensures { OnOk result (text.new ≡ text.old ++ escaped bytes.now) }
{
    text.put(b"`")?;
    put_escapes(text, bytes)?;
    text.put(b"`")
}

fn put_escapes(text: &mut Text, bytes: &[u8]) -> Result<(), AllocError>
    ensures { OnOk result (text.new ≡ text.old ++ escapes bytes.now) }
{
    let mut left = bytes;
    while let [byte, behind @ ..] = left {
        text.put(b"=")?;
        put_hex_byte(text, *byte)?;
        left = behind;
    }
    Ok(())
}

/// The bytes of the first character.
#[tactic(auto, unfolding(crate::specs::Telling::character_of))]
pub(crate) fn character_of(bytes: &[u8]) -> &[u8]
    ensures { result.now ≡ character_of bytes.now }
{
    front(bytes, 1 + continuations(behind(bytes, 1)))
}

/// How many bytes at the front go on with a character of several bytes.
fn continuations(bytes: &[u8]) -> usize
    ensures exact { result ≡ prefix_len is_continuation bytes.now }
    ensures within { result ≤ length bytes.now }
{
    bytes
        .iter()
        .take_while(|byte| is_continuation(**byte))
        .count()
}

fn is_continuation(byte: u8) -> bool
    ensures { result ≡ is_continuation byte }
{
    128 <= byte && byte < 192
}

/// Puts the byte itself, if it can be seen, or its number.
#[tactic(auto, unfolding(crate::specs::Telling::byte_words))]
pub(crate) fn put_byte_words(text: &mut Text, byte: u8) -> Result<(), AllocError>
    ensures { OnOk result (text.new ≡ text.old ++ byte_words byte) }
{
    if 32 < byte && byte < 127 {
        return put_marked(text, &[byte]);
    }
    text.put(b"the byte ")?;
    put_hex_byte(text, byte)
}

/// How many lines end in front of the offset.
fn lines_before(file: &[u8], offset: usize) -> usize
    ensures exact { result ≡ lines_before file.now offset }
    ensures within { result ≤ length file.now }
{
    front(file, offset)
        .iter()
        .filter(|byte| **byte == b'\n')
        .count()
}

/// Puts the number of the line in which the byte at the offset stands.
#[tactic(auto, unfolding(crate::specs::Telling::line_words))]
pub(crate) fn put_line_words(text: &mut Text, file: &[u8], offset: usize) -> Result<(), AllocError>
    ensures { OnOk result (text.new ≡ text.old ++ line_words file.now offset) }
{
    text.put(b"line ")?;
    text.put_number(lines_before(file, offset) as u64 + 1)
}

/// Puts the bracket or the brace that stands at the offset, and its line.
#[tactic(auto, unfolding(crate::specs::Telling::bracket_words))]
pub(crate) fn put_bracket_words(
    text: &mut Text,
    file: &[u8],
    offset: usize,
) -> Result<(), AllocError>
    ensures { OnOk result (text.new ≡ text.old ++ bracket_words file.now offset) }
{
    put_marked(text, front(behind(file, offset), 1))?;
    text.put(b" of ")?;
    put_line_words(text, file, offset)
}
