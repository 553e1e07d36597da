//! What goes to a terminal so that it shows a screen: all of it at first, and then what has changed.
//!
//! Each row and each line is put behind an order that moves the cursor there, so that it stands in its place whatever was
//! put before.
ghost use Rattle.std.specs.Prelude.{◌≡◌, ◌<◌, ◌++◌, [], take, OnOk, IfOk, slice_get};
ghost use Rattle.std.specs.Option.{option_copied};
ghost use Rattle.mh_live.specs.Drawing.{ScreensAreDrawings};
ghost use Rattle.mh_live.specs.Screen as spec;

use crate::screen::Screen;
use mh_display::changed_rows;
use mh_model::Picture;
use mh_model::picture::ROWS;
use mh_terminal::{put_plain, put_row};
use mh_told::text::Text;
use std::alloc::{AllocError, Global};

/// How many lines there can be below the picture.
const LINES: usize = 9;

/// The number of the first of them: rows are counted from 1 on.
const FIRST_LINE: usize = 37;

/// How many columns and lines the picture and what stands below it want of a window.
pub const COLUMNS_WANTED: usize = 60;

pub const LINES_WANTED: usize = 46;

/// Puts what makes a terminal show the screen, where it shows the one before, if one was shown.
pub(crate) fn put_screen(
    text: &mut Text,
    before: Option<&Screen>,
    after: &Screen,
) -> Result<(), AllocError>
    ensures { OnOk result (text.new ≡ text.old ++ spec.drawn (option_copied before.entry) after.now) }
{
    match before {
        Some(before) => put_changes(text, before, after),
        None => put_whole(text, after),
    }
}

/// Moves the cursor below everything and clears that line, for what comes behind a play.
#[tactic(auto, unfolding(crate::specs::Screen::end_text))]
pub fn put_end(text: &mut Text) -> Result<(), AllocError>
    ensures { OnOk result (text.new ≡ text.old ++ spec.end_text) }
{
    put_move(text, FIRST_LINE + LINES)?;
    put_clear(text)
}

/// Clears the screen, and tells what window is wanted, where it has so few rows or columns.
#[tactic(auto, unfolding(crate::specs::Screen::small_text))]
pub fn put_small(text: &mut Text, alloc: Global, rows: u32, columns: u32) -> Result<(), AllocError>
    ensures { OnOk result (text.new ≡ text.old ++ spec.small_text rows columns) }
{
    let line = wanted_line(alloc, rows, columns)?;
    text.put(b"\x1b[2J")?;
    put_move(text, 1)?;
    put_fitting(text, line.as_slice(), columns as usize)
}

#[tactic(auto, unfolding(crate::specs::Screen::wanted_text))]
fn wanted_line(alloc: Global, rows: u32, columns: u32) -> Result<Text, AllocError>
    ensures { IfOk result (λ line. line ≡ spec.wanted_text rows columns) }
{
    let mut line = Text::new(alloc);
    line.put(wanted_front())?;
    line.put_number(u64::from(columns))?;
    line.put(b", ")?;
    line.put_number(u64::from(rows))?;
    Ok(line)
}

#[tactic(auto, unfolding(crate::specs::Screen::wanted_front))]
fn wanted_front() -> &'static [u8]
    ensures { result.now ≡ spec.wanted_front }
{
    b"wanted: 60 columns, 46 lines; here: "
}

/// Whatever was shown before, and whatever is to be shown, the terminal is given no order but those of drawing; nor is it
/// where the window is too small, and behind a play.
pub fn screens_are_drawings()
    ensures { ScreensAreDrawings }
{}

#[tactic(auto, unfolding(crate::specs::Screen::whole))]
fn put_whole(text: &mut Text, screen: &Screen) -> Result<(), AllocError>
    ensures { OnOk result (text.new ≡ text.old ++ spec.whole screen.now) }
{
    text.put(b"\x1b[2J")?;
    put_rows(text, &screen.picture)?;
    put_lines(text, screen.columns, &[], screen.lines.as_slice())
}

#[tactic(auto, unfolding(crate::specs::Screen::changes))]
fn put_changes(text: &mut Text, before: &Screen, after: &Screen) -> Result<(), AllocError>
    ensures { OnOk result (text.new ≡ text.old ++ spec.changes before.now after.now) }
{
    put_changed_rows(text, &before.picture, &after.picture)?;
    put_lines(
        text,
        after.columns,
        before.lines.as_slice(),
        after.lines.as_slice(),
    )
}

/// Puts all rows.
#[tactic(auto, unfolding(crate::specs::Screen::all_rows))]
fn put_rows(text: &mut Text, picture: &Picture) -> Result<(), AllocError>
    ensures { OnOk result (text.new ≡ text.old ++ spec.all_rows picture.now) }
{
    for row in 0..ROWS {
        put_drawn_row(text, picture, row)?;
    }
    Ok(())
}

/// Puts the rows that differ.
#[tactic(auto, unfolding(crate::specs::Screen::changed_rows))]
fn put_changed_rows(text: &mut Text, before: &Picture, after: &Picture) -> Result<(), AllocError>
    ensures { OnOk result (text.new ≡ text.old ++ spec.changed_rows before.now after.now) }
{
    let changed = changed_rows(before, after);
    for row in 0..ROWS {
        put_row_where(text, changed[row], after, row)?;
    }
    Ok(())
}

fn put_row_where(
    text: &mut Text,
    is_changed: bool,
    picture: &Picture,
    row: usize,
) -> Result<(), AllocError>
    requires { row < 36 }
    ensures { OnOk result (text.new ≡ text.old ++ spec.row_where is_changed picture.now row) }
{
    if is_changed {
        put_drawn_row(text, picture, row)
    } else {
        Ok(())
    }
}

#[tactic(auto, unfolding(crate::specs::Screen::drawn_row))]
fn put_drawn_row(text: &mut Text, picture: &Picture, row: usize) -> Result<(), AllocError>
    requires { row < 36 }
    ensures { OnOk result (text.new ≡ text.old ++ spec.drawn_row picture.now row) }
{
    put_move(text, row + 1)?;
    put_row(text, picture, row, false)
}

/// Puts the lines below the picture that differ.
#[tactic(auto, unfolding(crate::specs::Screen::changed_lines))]
fn put_lines(
    text: &mut Text,
    columns: usize,
    before: &[Text],
    after: &[Text],
) -> Result<(), AllocError>
    ensures { OnOk result (text.new ≡ text.old ++ spec.changed_lines columns before.now after.now) }
{
    for place in 0..LINES {
        put_line(
            text,
            columns,
            line_at(before, place),
            line_at(after, place),
            place,
        )?;
    }
    Ok(())
}

/// Puts the line at a place, if it is another than before.
#[tactic(auto, unfolding(crate::specs::Screen::changed_line))]
fn put_line(
    text: &mut Text,
    columns: usize,
    before: &[u8],
    after: &[u8],
    place: usize,
) -> Result<(), AllocError>
    requires { place < 9 }
    ensures { OnOk result (text.new ≡ text.old ++ spec.changed_line columns before.now after.now place) }
{
    if before == after {
        return Ok(());
    }
    put_drawn_line(text, columns, after, place)
}

#[tactic(auto, unfolding(crate::specs::Screen::drawn_line))]
fn put_drawn_line(
    text: &mut Text,
    columns: usize,
    line: &[u8],
    place: usize,
) -> Result<(), AllocError>
    requires { place < 9 }
    ensures { OnOk result (text.new ≡ text.old ++ spec.drawn_line columns line.now place) }
{
    put_move(text, FIRST_LINE + place)?;
    put_clear(text)?;
    put_fitting(text, line, columns)
}

/// The line at a place; where there is none, nothing.
fn line_at(lines: &[Text], place: usize) -> &[u8]
    ensures { result.now ≡ spec.line_at lines.now place }
{
    match lines.get(place) {
        Some(line) => line.as_slice(),
        None => &[],
    }
}

/// Puts so many of the bytes as text.
#[tactic(auto, unfolding(crate::specs::Screen::fitting))]
fn put_fitting(text: &mut Text, line: &[u8], width: usize) -> Result<(), AllocError>
    ensures { OnOk result (text.new ≡ text.old ++ spec.fitting line.now width) }
{
    put_plain(text, front_of(line, width))
}

fn front_of(line: &[u8], most: usize) -> &[u8]
    ensures { result.now ≡ take most line.now }
{
    if most < line.len() {
        &line[..most]
    } else {
        line
    }
}

/// Moves the cursor to the beginning of a line, from 1 on.
#[tactic(auto, unfolding(crate::specs::Screen::move_to))]
fn put_move(text: &mut Text, line: usize) -> Result<(), AllocError>
    ensures { OnOk result (text.new ≡ text.old ++ spec.move_to line) }
{
    text.put(b"\x1b[")?;
    text.put_number(line as u64)?;
    text.put(b";1H")
}

/// Clears the line from the cursor on.
#[tactic(auto, unfolding(crate::specs::Screen::clear_line))]
fn put_clear(text: &mut Text) -> Result<(), AllocError>
    ensures { OnOk result (text.new ≡ text.old ++ spec.clear_line) }
{
    text.put(b"\x1b[K")
}
