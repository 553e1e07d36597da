//! Pictures in a terminal: a frame in colours or plain, row by row.
//!
//! What stands in a picture never tells the terminal what to do: each character that would is shown as U+FFFD.
ghost use Rattle.std.specs.Prelude.{◌≡◌, ◌<◌, ◌++◌, OnOk, false};
ghost use Rattle.mh_told.specs.Printing.{character};
ghost use Rattle.mh_terminal.specs.Frames.{is_bare, is_order, harmless, plain, sign, turns, colour_order, colour_parts, colour_orders, turn, row_end, shown_cell, shown_row, shown_rows, shown_frame};

use bstr::ByteSlice;
use mh_model::picture::{COLUMNS, ROWS};
use mh_model::{Cell, Picture};
use mh_told::text::Text;
use std::alloc::AllocError;

/// The order that makes a terminal take its usual colours again, and the end of a line.
const USUAL_COLOURS: &[u8] = b"\x1b[0m\n";

/// What is shown without colours for a cell that has a colour and no character.
const SHADE: u32 = 0x2591;

/// What is shown for a character that is an order to terminals.
const REPLACEMENT: u32 = 0xFFFD;

/// Puts a frame below a line with its number.
#[tactic(auto, unfolding(crate::specs::Frames::shown_frame))]
pub fn put_frame(
    text: &mut Text,
    number: u64,
    picture: &Picture,
    plain: bool,
) -> Result<(), AllocError>
    ensures { OnOk result (text.new ≡ text.old ++ shown_frame plain number picture.now) }
{
    text.put(b"frame ")?;
    text.put_number(number)?;
    text.put(b"\n")?;
    put_rows(text, picture, plain)
}

#[tactic(auto, unfolding(crate::specs::Frames::shown_rows))]
fn put_rows(text: &mut Text, picture: &Picture, plain: bool) -> Result<(), AllocError>
    ensures { OnOk result (text.new ≡ text.old ++ shown_rows plain picture.now) }
{
    for row in 0..ROWS {
        put_row(text, picture, row, plain)?;
    }
    Ok(())
}

/// Puts a row of a frame.
#[tactic(auto, unfolding(crate::specs::Frames::shown_row))]
pub fn put_row(
    text: &mut Text,
    picture: &Picture,
    row: usize,
    plain: bool,
) -> Result<(), AllocError>
    requires { row < 36 }
    ensures { OnOk result (text.new ≡ text.old ++ shown_row plain picture.now row) }
{
    for column in 0..COLUMNS {
        put_cell(text, picture, row, column, plain)?;
    }
    put_row_end(text, plain)
}

#[tactic(auto, unfolding(crate::specs::Frames::row_end))]
fn put_row_end(text: &mut Text, plain: bool) -> Result<(), AllocError>
    ensures { OnOk result (text.new ≡ text.old ++ row_end plain) }
{
    text.put(if plain { b"\n" } else { USUAL_COLOURS })
}

#[tactic(auto, unfolding(crate::specs::Frames::shown_cell))]
fn put_cell(
    text: &mut Text,
    picture: &Picture,
    row: usize,
    column: usize,
    plain: bool,
) -> Result<(), AllocError>
    requires row { row < 36 }
    requires column { column < 60 }
    ensures { OnOk result (text.new ≡ text.old ++ shown_cell plain picture.now row column) }
{
    put_turn(text, picture, row, column, plain)?;
    let cell = picture.cell(row * COLUMNS + column);
    put_character(text, harmless(sign(plain, cell.scalar, cell.back)))
}

/// What stands for a character: without colours a sign for a cell that has a colour and no character.
fn sign(plain: bool, scalar: u32, back: u32) -> u32
    ensures { result ≡ sign plain scalar back }
{
    if plain && is_bare(scalar, back) {
        SHADE
    } else {
        scalar
    }
}

fn is_bare(scalar: u32, back: u32) -> bool
    ensures { result ≡ is_bare scalar back }
{
    scalar == 32 && back != 0
}

/// Puts the colours of a cell where they have to be said.
#[tactic(auto, unfolding(crate::specs::Frames::turn))]
fn put_turn(
    text: &mut Text,
    picture: &Picture,
    row: usize,
    column: usize,
    plain: bool,
) -> Result<(), AllocError>
    requires row { row < 36 }
    requires column { column < 60 }
    ensures { OnOk result (text.new ≡ text.old ++ turn plain picture.now row column) }
{
    if plain {
        return Ok(());
    }
    if turns(picture, row, column) {
        return put_colours(text, picture.cell(row * COLUMNS + column));
    }
    Ok(())
}

/// Whether the colours of a cell have to be said: it is the first of its row, or the one before has
/// others.
pub fn turns(picture: &Picture, row: usize, column: usize) -> bool
    requires row { row < 36 }
    requires column { column < 60 }
    ensures { result ≡ turns picture.now row column }
{
    if column == 0 {
        return true;
    }
    let at = row * COLUMNS + column;
    let before = picture.cell(at - 1);
    let cell = picture.cell(at);
    before.fore != cell.fore || before.back != cell.back
}

/// Orders the terminal to write in the colours of a cell.
#[tactic(auto, unfolding(crate::specs::Frames::colour_orders))]
fn put_colours(text: &mut Text, cell: Cell) -> Result<(), AllocError>
    ensures { OnOk result (text.new ≡ text.old ++ colour_orders cell.fore cell.back) }
{
    put_colour(text, b"38", cell.fore)?;
    put_colour(text, b"48", cell.back)
}

#[tactic(auto, unfolding(crate::specs::Frames::colour_order))]
fn put_colour(text: &mut Text, which: &[u8], colour: u32) -> Result<(), AllocError>
    ensures { OnOk result (text.new ≡ text.old ++ colour_order which.now colour) }
{
    text.put(b"\x1b[")?;
    text.put(which)?;
    text.put(b";2;")?;
    put_parts(text, colour)?;
    text.put(b"m")
}

/// Puts how much red, green and blue a colour has.
#[tactic(auto, unfolding(crate::specs::Frames::colour_parts))]
fn put_parts(text: &mut Text, colour: u32) -> Result<(), AllocError>
    ensures { OnOk result (text.new ≡ text.old ++ colour_parts colour) }
{
    text.put_number(u64::from(colour / 65_536 % 256))?;
    text.put(b";")?;
    text.put_number(u64::from(colour / 256 % 256))?;
    text.put(b";")?;
    text.put_number(u64::from(colour % 256))
}

/// The character that is shown for another: none that tells a terminal what to do.
pub fn harmless(scalar: u32) -> u32
    ensures value { result ≡ harmless scalar }
    ensures never { is_order result ≡ false }
{
    match scalar {
        0..=31 | 127..=159 => REPLACEMENT,
        _ => scalar,
    }
}

/// Puts a character.
pub fn put_character(text: &mut Text, scalar: u32) -> Result<(), AllocError>
    ensures { OnOk result (text.new ≡ text.old ++ character scalar) }
{
    match scalar {
        // the two that are written with a backslash in front between quotation marks
        34 | 92 => text.put_byte(scalar as u8),
        _ => text.put_quoted(scalar),
    }
}

/// Puts bytes as text that gives a terminal no order: what is of no character is U+FFFD, and so is
/// an order.
pub fn put_plain(text: &mut Text, bytes: &[u8]) -> Result<(), AllocError>
    ensures { OnOk result (text.new ≡ text.old ++ plain bytes.now) }
{
    for character in bytes.chars() {
        put_character(text, harmless(character as u32))?;
    }
    Ok(())
}
