//! The part of a line that is shown of a place, behind a gutter with the number of the line, and carets under what is meant.
//!
//! A line that is too long is cut between words, where that can be, and a mark tells where.
ghost use Rattle.std.specs.Prelude.{◌≡◌, ◌≤◌, ◌<◌, ◌+◌, ◌-◌, ◌^◌, ◌++◌, OnOk, length};
ghost use Rattle.std.specs.List.{flat_map, prefix_len};
ghost use Rattle.mh_told.specs.Printing.{character};
ghost use Rattle.mh_why.specs.LineWords.{is_in_word};
ghost use Rattle.mh_why.specs.Lines.{first_by};
ghost use Rattle.mh_why.specs.Places.{back_mark, caret_line, cut_at, front_mark, last_space, mark_width, shown_line, size_shown, window, word_behind};

use crate::place::put_repeated;
use crate::wrap::word_length;
use mh_terminal::{put_character, put_plain};
use mh_told::text::Text;
use std::alloc::{AllocError, Global};

/// How many characters of a line are shown.
const WIDTH: usize = 70;

/// How many characters of a line are shown before what is meant.
pub(crate) const MARGIN: usize = 40;

/// How many characters are looked at behind the margin: a word that is left out, and what is shown.
pub(crate) const LOOKED_AT: usize = 111;

const SPACE: u32 = 32;

/// What tells that a line is cut.
const CUT: u32 = 0x2026;

/// How many characters are left out in front of what stands in this column, by those from the margin on.
pub(crate) fn first_shown(characters: &[u32], column: usize) -> usize
    requires { column < 2 ^ 63 }
    ensures exact { result ≡ first_by column (prefix_len is_in_word characters.now) }
    ensures within { result ≤ column }
    ensures from { column - 40 ≤ result }
{
    if column <= MARGIN {
        return 0;
    }
    word_behind(column - MARGIN, word_length(characters))
}

/// The word behind the one in which a line would be cut, if it begins before what is meant.
fn word_behind(first: usize, length: usize) -> usize
    requires { first < 2 ^ 63 }
    ensures exact { result ≡ word_behind first length }
    ensures within { result ≤ first + 40 }
    ensures from { first ≤ result }
{
    if length < MARGIN {
        first + length + 1
    } else {
        first
    }
}

/// How many of these characters are shown, where what is meant stands behind so many of them.
#[tactic(auto, unfolding(crate::specs::Places::size_shown))]
fn size_shown(characters: &[u32], shift: usize) -> usize
    ensures { result ≡ size_shown characters.now shift }
{
    if characters.len() <= WIDTH {
        return characters.len();
    }
    cut_at(last_space(characters, WIDTH), shift)
}

fn cut_at(space: usize, shift: usize) -> usize
    ensures { result ≡ cut_at space shift }
{
    if shift < space { space } else { WIDTH }
}

/// The place of the last space among so many characters in front, or 0.
#[tactic(auto, unfolding(crate::specs::Places::last_space))]
fn last_space(characters: &[u32], count: usize) -> usize
    requires { count ≤ length characters.now }
    ensures { result ≡ last_space characters.now count }
{
    let mut space = 0;
    for at in 0..count {
        if characters[at] == SPACE {
            space = at;
        }
    }
    space
}

/// Puts characters of a line of which so many are left out in front, and carets under so many behind so many others.
#[tactic(auto, unfolding(crate::specs::Places::window))]
pub(crate) fn put_window(
    alloc: Global,
    text: &mut Text,
    number: u64,
    characters: &[u32],
    first: usize,
    shift: usize,
    count: usize,
) -> Result<(), AllocError>
    ensures { OnOk result (text.new ≡ text.old ++ window number characters.now first shift count) }
{
    let mut digits = Text::new(alloc);
    digits.put_number(number)?;
    let shown = size_shown(characters, shift);
    put_line(text, digits.as_slice(), characters, first, shown)?;
    let carets = count.min(shown.saturating_sub(shift)).max(1);
    put_carets(
        text,
        digits.as_slice().len(),
        mark_width(first),
        shift,
        carets,
    )
}

/// Puts a line behind its number.
#[tactic(auto, unfolding(crate::specs::Places::shown_line))]
fn put_line(
    text: &mut Text,
    digits: &[u8],
    characters: &[u32],
    first: usize,
    shown: usize,
) -> Result<(), AllocError>
    ensures { OnOk result (text.new ≡ text.old ++ shown_line digits.now characters.now first shown) }
{
    text.put(b"  ")?;
    put_plain(text, digits)?;
    text.put(b" | ")?;
    put_front_mark(text, first)?;
    put_characters(text, characters.get(..shown).unwrap_or(characters))?;
    put_back_mark(text, shown, characters.len())?;
    text.put(b"\n")
}

#[tactic(auto, unfolding(crate::specs::Places::front_mark))]
fn put_front_mark(text: &mut Text, first: usize) -> Result<(), AllocError>
    ensures { OnOk result (text.new ≡ text.old ++ front_mark first) }
{
    if first == 0 {
        return Ok(());
    }
    put_character(text, CUT)?;
    text.put(b" ")
}

/// How many columns the mark in front takes.
fn mark_width(first: usize) -> usize
    ensures { result ≡ mark_width first }
{
    if first == 0 { 0 } else { 2 }
}

#[tactic(auto, unfolding(crate::specs::Places::back_mark))]
fn put_back_mark(text: &mut Text, shown: usize, all: usize) -> Result<(), AllocError>
    ensures { OnOk result (text.new ≡ text.old ++ back_mark shown all) }
{
    if shown < all {
        text.put(b" ")?;
        return put_character(text, CUT);
    }
    Ok(())
}

fn put_characters(text: &mut Text, characters: &[u32]) -> Result<(), AllocError>
    ensures { OnOk result (text.new ≡ text.old ++ flat_map character characters.now) }
{
    for at in characters {
        put_character(text, *at)?;
    }
    Ok(())
}

/// Puts carets, behind so many spaces, as wide a gutter, and as wide a mark.
#[tactic(auto, unfolding(crate::specs::Places::caret_line))]
fn put_carets(
    text: &mut Text,
    digits: usize,
    mark: usize,
    shift: usize,
    count: usize,
) -> Result<(), AllocError>
    ensures { OnOk result (text.new ≡ text.old ++ caret_line digits mark shift count) }
{
    text.put(b"  ")?;
    put_repeated(text, b' ', digits)?;
    text.put(b" | ")?;
    put_repeated(text, b' ', mark)?;
    put_repeated(text, b' ', shift)?;
    put_repeated(text, b'^', count)?;
    text.put(b"\n")
}
