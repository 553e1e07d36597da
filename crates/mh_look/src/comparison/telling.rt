//! What is said of two reports that differ in frames: a line for each frame that both have.
ghost use Rattle.std.specs.Prelude.{◌≡◌, ◌<◌, ◌++◌, OnOk, IfOk};
ghost use Rattle.mh_look.specs.Frames.{pictures};
ghost use Rattle.mh_look.specs.Telling.{mark, colours_line, cell_line, place_line, cells_line, counted_line, differ_words, frame_line, changed_frame, changed_frames, numbered, told};

use crate::comparison::difference::{Difference, changed_cells, first_difference};
use crate::report::frames::next_frame;
use crate::report::{Part, Report};
use mh_model::picture::{CELLS, COLUMNS};
use mh_model::{Cell, Picture};
use mh_terminal::harmless;
use mh_told::text::Text;
use std::alloc::{AllocError, Global};

/// What is said where the frames are the same, before their number.
pub const SAME: &[u8] = b"the same frames: ";

/// What is said before the number of frames that both reports have.
pub const FIRST_HAS_MORE: &[u8] = b"the first has more frames than ";

/// The other way round.
pub const SECOND_HAS_MORE: &[u8] = b"the second has more frames than ";

/// What is said between the number of cells and the row of the first of them, where there is one.
pub const ONE_DIFFERS: &[u8] = b" cell differs, in row ";

/// The same of more than one.
pub const MORE_DIFFER: &[u8] = b" cells differ, the first in row ";

/// The lines on the frames in which two reports differ.
pub fn told(
    alloc: Global,
    first: &Report,
    second: &Report,
    difference: Difference,
) -> Result<Text, AllocError>
    ensures { IfOk result (λ lines. lines ≡ told first.now second.now difference) }
{
    let mut text = Text::new(alloc);
    match difference {
        Difference::Nowhere(frames) => put_numbered(&mut text, SAME, frames)?,
        _ => put_changed_frames(&mut text, first.parts.as_slice(), second.parts.as_slice())?,
    }
    Ok(text)
}

#[tactic(auto, unfolding(crate::specs::Telling::numbered))]
fn put_numbered(text: &mut Text, words: &[u8], frames: u64) -> Result<(), AllocError>
    ensures { OnOk result (text.new ≡ text.old ++ numbered words.now frames) }
{
    text.put(words)?;
    text.put_number(frames)?;
    text.put(b"\n")
}

/// Puts a line for each frame that differs, and whether one of the reports has more.
fn put_changed_frames(text: &mut Text, first: &[Part], second: &[Part]) -> Result<(), AllocError>
    ensures { OnOk result (text.new ≡ text.old ++ changed_frames 0 (pictures first.now) (pictures second.now)) }
{
    let mut passed = 0;
    let mut ones = first;
    let mut others = second;
    while let Some((one, ones_behind)) = next_frame(ones) {
        let Some((other, others_behind)) = next_frame(others) else {
            return put_numbered(text, FIRST_HAS_MORE, passed);
        };
        passed += 1;
        put_changed_frame(text, passed, one, other)?;
        ones = ones_behind;
        others = others_behind;
    }
    match next_frame(others) {
        Some(_) => put_numbered(text, SECOND_HAS_MORE, passed),
        None => Ok(()),
    }
}

/// Puts the line of a frame, if it differs.
fn put_changed_frame(
    text: &mut Text,
    number: u64,
    one: &Picture,
    other: &Picture,
) -> Result<(), AllocError>
    ensures { OnOk result (text.new ≡ text.old ++ changed_frame number one.now other.now) }
{
    match first_difference(one, other) {
        Some(at) => put_frame_line(text, number, one, other, at),
        None => Ok(()),
    }
}

#[tactic(auto, unfolding(crate::specs::Telling::frame_line))]
fn put_frame_line(
    text: &mut Text,
    number: u64,
    one: &Picture,
    other: &Picture,
    at: usize,
) -> Result<(), AllocError>
    requires { at < 2160 }
    ensures { OnOk result (text.new ≡ text.old ++ frame_line number one.now other.now at) }
{
    put_counted(text, number, changed_cells(one, other))?;
    put_place(text, at)?;
    text.put(b": ")?;
    put_cells(text, one, other, at)?;
    text.put(b"\n")
}

/// Puts the number of a frame, and how many cells differ there.
#[tactic(auto, unfolding(crate::specs::Telling::counted_line))]
fn put_counted(text: &mut Text, number: u64, cells: u64) -> Result<(), AllocError>
    ensures { OnOk result (text.new ≡ text.old ++ counted_line number cells) }
{
    text.put(b"frame ")?;
    text.put_number(number)?;
    text.put(b": ")?;
    text.put_number(cells)?;
    text.put(differ_words(cells))
}

fn differ_words(cells: u64) -> &'static [u8]
    ensures { result.now ≡ differ_words cells }
{
    if cells == 1 { ONE_DIFFERS } else { MORE_DIFFER }
}

/// Puts the row and the column of a cell, as reports count them.
#[tactic(auto, unfolding(crate::specs::Telling::place_line))]
fn put_place(text: &mut Text, at: usize) -> Result<(), AllocError>
    ensures { OnOk result (text.new ≡ text.old ++ place_line at) }
{
    text.put_number((at / COLUMNS) as u64)?;
    text.put(b" column ")?;
    text.put_number((at % COLUMNS) as u64)
}

/// Puts a cell as both reports have it.
#[tactic(auto, unfolding(crate::specs::Telling::cells_line))]
fn put_cells(text: &mut Text, one: &Picture, other: &Picture, at: usize) -> Result<(), AllocError>
    requires { at < 2160 }
    ensures { OnOk result (text.new ≡ text.old ++ cells_line one.now other.now at) }
{
    put_cell(text, one.cell(at))?;
    text.put(b" and ")?;
    put_cell(text, other.cell(at))
}

/// Puts a cell as reports print it.
#[tactic(auto, unfolding(crate::specs::Telling::cell_line))]
fn put_cell(text: &mut Text, cell: Cell) -> Result<(), AllocError>
    ensures { OnOk result (text.new ≡ text.old ++ cell_line cell) }
{
    put_colours(text, cell.fore, cell.back)?;
    text.put(b" \"")?;
    put_mark(text, cell.scalar)?;
    text.put(b"\"")
}

fn put_colours(text: &mut Text, fore: u32, back: u32) -> Result<(), AllocError>
    ensures { OnOk result (text.new ≡ text.old ++ colours_line fore back) }
{
    text.put_colour(fore)?;
    text.put(b"/")?;
    text.put_colour(back)
}

/// Puts a character as reports print it, where it gives a terminal no order.
#[tactic(auto, unfolding(crate::specs::Telling::mark))]
fn put_mark(text: &mut Text, scalar: u32) -> Result<(), AllocError>
    ensures { OnOk result (text.new ≡ text.old ++ mark scalar) }
{
    text.put_quoted(harmless(scalar))
}
