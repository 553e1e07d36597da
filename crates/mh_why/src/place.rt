//! What an author is shown of a place in a file: the file, the line and the column, the line itself,
//! and carets under what is meant.
//!
//! What stands in the file never tells the terminal what to do: each character that would is shown
//! as U+FFFD.

pub(crate) mod line;
pub(crate) mod lines;
pub(crate) mod octets;
pub(crate) mod stop;
pub(crate) mod window;

ghost use Rattle.std.specs.Prelude.{◌≡◌, ◌≤◌, ◌<◌, ◌^◌, ◌-◌, ◌++◌, OnOk, IfOk, length, take, drop, replicate};
ghost use Rattle.bstr.specs.Text.{without_terminator};
ghost use Rattle.bstr.specs.Utf8.{lossy_chars};
ghost use Rattle.mh_why.specs.Lines.{IsTable, shown_in_column};
ghost use Rattle.mh_why.specs.Places.{characters_of, PlacesAreHarmless, spaced, place_words, shown_at, shown_place};

use crate::place::line::Line;
use crate::place::lines::Lines;
use crate::place::window::{LOOKED_AT, MARGIN, first_shown, put_window};
use crate::wrap::put_paragraph;
use bstr::ByteSlice;
use mh_terminal::harmless;
use mh_told::text::Text;
use std::alloc::{AllocError, Global};

/// What is shown of so many bytes behind so many others of a file of this name.
pub fn place_text(
    alloc: Global,
    name: &[u8],
    bytes: &[u8],
    offset: usize,
    size: usize,
) -> Result<Text, AllocError>
    ensures { IfOk result (λ text. text ≡ shown_place name.now bytes.now offset size) }
{
    let mut text = Text::new(alloc);
    put_place(alloc, &mut text, name, bytes, offset, size)?;
    Ok(text)
}

/// No place in a file, whatever its bytes and its name are, is shown by a text that gives a terminal
/// an order.
pub fn places_are_harmless()
    ensures { PlacesAreHarmless }
{}

/// Puts where so many bytes stand in a file of this name behind so many others: the line and the
/// column, from 1 on, the line itself, and carets.
pub(crate) fn put_place(
    alloc: Global,
    text: &mut Text,
    name: &[u8],
    bytes: &[u8],
    offset: usize,
    size: usize,
) -> Result<(), AllocError>
    ensures { OnOk result (text.new ≡ text.old ++ shown_place name.now bytes.now offset size) }
{
    let lines = Lines::of_text(alloc, bytes)?;
    put_place_by(alloc, text, name, bytes, &lines, offset, size)
}

/// The same, where the table of the bytes' lines is known.
#[tactic(auto, unfolding(crate::specs::Places::shown_place))]
pub(crate) fn put_place_by(
    alloc: Global,
    text: &mut Text,
    name: &[u8],
    bytes: &[u8],
    lines: &Lines,
    offset: usize,
    size: usize,
) -> Result<(), AllocError>
    requires { IsTable bytes.now lines.now }
    ensures { OnOk result (text.new ≡ text.old ++ shown_place name.now bytes.now offset size) }
{
    put_in_line(alloc, text, name, &lines.line_at(bytes, offset), size)
}

/// Puts a place in a line, with so many bytes meant.
#[tactic(auto, unfolding(crate::specs::Places::shown_at))]
fn put_in_line(
    alloc: Global,
    text: &mut Text,
    name: &[u8],
    line: &Line<'_>,
    size: usize,
) -> Result<(), AllocError>
    ensures { OnOk result (text.new ≡ text.old ++ shown_at name.now line.now size) }
{
    let column = line.column();
    let left_out = column.saturating_sub(MARGIN);
    let characters = line.characters_behind(alloc, left_out, LOOKED_AT)?;
    put_words(alloc, text, name, line.number, column)?;
    put_seen(alloc, text, line, size, column, characters.as_slice())
}

/// Puts the line of a place in this column, by those of its characters that are looked at.
fn put_seen(
    alloc: Global,
    text: &mut Text,
    line: &Line<'_>,
    size: usize,
    column: usize,
    characters: &[u32],
) -> Result<(), AllocError>
    requires column { column < 2 ^ 63 }
    requires seen { characters.now ≡ take 111 (drop (column - 40) (characters_of line.now.bytes)) }
    ensures { OnOk result (text.new ≡ text.old ++ shown_in_column line.now column size) }
{
    let first = first_shown(characters, column);
    let more = first - column.saturating_sub(MARGIN);
    put_window(
        alloc,
        text,
        line.number,
        behind(characters, more),
        first,
        column - first,
        line.characters_meant(size),
    )
}

fn behind(characters: &[u32], count: usize) -> &[u32]
    ensures { result.now ≡ drop count characters.now }
{
    characters.get(count..).unwrap_or(&[])
}

/// The characters of a line as they are shown.
pub(crate) fn characters_of(alloc: Global, line: &[u8]) -> Result<Vec<u32>, AllocError>
    ensures { IfOk result (λ characters. characters.items ≡ characters_of line.now) }
{
    let mut characters = Vec::new(alloc);
    for character in without_terminator(line).chars() {
        characters.push(spaced(character as u32))?;
    }
    Ok(characters)
}

/// How many characters these bytes are.
pub(crate) fn characters_in(bytes: &[u8]) -> usize
    ensures exact { result ≡ length (lossy_chars bytes.now) }
    ensures within { result ≤ length bytes.now }
{
    bytes.chars().count()
}

/// Puts the file, the line and the column.
#[tactic(auto, unfolding(crate::specs::Places::place_words))]
fn put_words(
    alloc: Global,
    text: &mut Text,
    name: &[u8],
    number: u64,
    column: usize,
) -> Result<(), AllocError>
    requires { column < 2 ^ 63 }
    ensures { OnOk result (text.new ≡ text.old ++ place_words name.now number column) }
{
    let mut words = Text::new(alloc);
    words.put(b"  ")?;
    words.put(name)?;
    words.put(b", line ")?;
    words.put_number(number)?;
    words.put(b", column ")?;
    words.put_number(column as u64 + 1)?;
    put_paragraph(alloc, text, words.as_slice())
}

/// The character that is shown for one of a line: a space for a tab.
pub(crate) fn spaced(scalar: u32) -> u32
    ensures { result ≡ spaced scalar }
{
    match scalar {
        9 => 32,
        _ => harmless(scalar),
    }
}

/// A line without its line feed and a carriage return before it.
pub fn without_terminator(line: &[u8]) -> &[u8]
    ensures { result.now ≡ without_terminator line.now }
{
    match line {
        [front @ .., b'\r', b'\n'] | [front @ .., b'\n'] => front,
        _ => line,
    }
}

/// Puts a byte so many times.
pub(crate) fn put_repeated(text: &mut Text, byte: u8, count: usize) -> Result<(), AllocError>
    ensures { OnOk result (text.new ≡ text.old ++ replicate count byte) }
{
    for _ in 0..count {
        text.put_byte(byte)?;
    }
    Ok(())
}
