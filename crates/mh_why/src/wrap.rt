//! Paragraphs: text in lines of at most 80 columns, as far as its words allow.
//!
//! Promise: a paragraph is exactly what `specs/Wrapping` says.
ghost use Rattle.std.specs.Prelude.{◌≡◌, ◌≤◌, ◌<◌, ◌+◌, ◌^◌, ◌==◌, ◌&&◌, ◌++◌, IfOk, OnOk, suc, length, map, nat_lt};
ghost use Rattle.std.specs.List.{flat_map, prefix_len};
ghost use Rattle.bstr.specs.Utf8.{lossy_chars};
ghost use Rattle.mh_told.specs.Printing.{character};
ghost use Rattle.mh_why.specs.LineWords.{is_in_word};
ghost use Rattle.mh_terminal.specs.Frames.{harmless};
ghost use Rattle.mh_why.specs.Wrapping.{columns, wrapped, paragraph};

use bstr::ByteSlice;
use mh_terminal::{harmless, put_character};
use mh_told::text::Text;
use std::alloc::{AllocError, Global};

/// How many characters a line has at most, as far as the words allow.
const COLUMNS: usize = 80;

const SPACE: u32 = 32;

/// What begins a line behind the first, and how long that is.
const NEXT_LINE: &[u8] = b"\n    ";

const INDENT: usize = 4;

/// Puts these words as a paragraph.
#[tactic(auto, unfolding(crate::specs::Wrapping::paragraph))]
pub(crate) fn put_paragraph(alloc: Global, text: &mut Text, words: &[u8]) -> Result<(), AllocError>
    ensures { OnOk result (text.new ≡ text.old ++ paragraph words.now) }
{
    let characters = harmless_characters(alloc, words)?;
    put_wrapped(text, characters.as_slice())?;
    text.put(b"\n")
}

/// Puts three pieces, one behind the other, as a paragraph.
pub(crate) fn put_sentence(
    alloc: Global,
    text: &mut Text,
    front: &[u8],
    middle: &[u8],
    end: &[u8],
) -> Result<(), AllocError>
    ensures { OnOk result (text.new ≡ text.old ++ paragraph (front.now ++ middle.now ++ end.now)) }
{
    let mut sentence = Text::new(alloc);
    sentence.put(front)?;
    sentence.put(middle)?;
    sentence.put(end)?;
    put_paragraph(alloc, text, sentence.as_slice())
}

/// The characters that are shown for those of the words: none of them is an order.
fn harmless_characters(alloc: Global, words: &[u8]) -> Result<Vec<u32>, AllocError>
    ensures { IfOk result (λ characters. characters.items ≡ map harmless (lossy_chars words.now)) }
{
    let mut characters = Vec::new(alloc);
    for character in words.chars() {
        characters.push(harmless(character as u32))?;
    }
    Ok(characters)
}

/// Puts characters, and ends lines between their words.
fn put_wrapped(text: &mut Text, characters: &[u32]) -> Result<(), AllocError>
    ensures { OnOk result (text.new ≡ text.old ++ flat_map character (wrapped 0 characters.now)) }
{
    let mut column = 0;
    let mut rest = characters;
    while let [character, behind @ ..] = rest {
        if ends_line(column, *character, behind) {
            text.put(NEXT_LINE)?;
            column = INDENT;
        } else {
            put_character(text, *character)?;
            column += 1;
        }
        rest = behind;
    }
    Ok(())
}

/// Whether this character ends a line that has so many before it: it is a space, and the word behind it
/// would go past the last column.
fn ends_line(column: usize, character: u32, behind: &[u32]) -> bool
    requires { column < 2 ^ 62 }
    ensures { result ≡ (character == 32 && nat_lt columns (column + suc (prefix_len is_in_word behind.now))) }
{
    character == SPACE && column + 1 + word_length(behind) > COLUMNS
}

/// How many characters stand before the first space.
pub(crate) fn word_length(characters: &[u32]) -> usize
    ensures exact { result ≡ prefix_len is_in_word characters.now }
    ensures within { result ≤ length characters.now }
{
    characters
        .iter()
        .take_while(|character| **character != SPACE)
        .count()
}
