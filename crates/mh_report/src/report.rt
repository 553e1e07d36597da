//! The frames of a report: which rows differ from those of the frame before.
//!
//! Everything is put together as text here; writing it is left to `sink`.
ghost use Rattle.std.specs.Prelude.{◌≡◌, ◌++◌, OnOk, IfOk};
ghost use Rattle.mh_told.specs.Frame.{row_changes, frame_text as frame_lines};

use mh_display::changed_rows;
use mh_model::Picture;
use mh_model::picture::ROWS;
use mh_told::row::put_row;
use mh_told::text::Text;
use std::alloc::{AllocError, Global};

/// Puts the lines of all rows that differ behind the text.
fn put_changes(text: &mut Text, before: &Picture, after: &Picture) -> Result<(), AllocError>
    ensures { OnOk result (text.new ≡ text.old ++ row_changes before.now after.now) }
{
    let _ = (before.cells(), after.cells());
    let changed = changed_rows(before, after);
    for row in 0..ROWS {
        if changed[row] {
            put_row(text, after, row)?;
        }
    }
    Ok(())
}

/// The lines of a frame: its number, and the rows that differ from the frame before.
fn frame_text(
    alloc: Global,
    number: u64,
    before: &Picture,
    after: &Picture,
) -> Result<Text, AllocError>
    ensures { IfOk result (λ text. text ≡ frame_lines number before.now after.now) }
{
    let mut text = Text::new(alloc);
    text.put(b"frame ")?;
    text.put_number(number)?;
    text.put(b"\n")?;
    put_changes(&mut text, before, after)?;
    Ok(text)
}

/// The same, where the frame becomes the one that was shown before.
pub fn next_frame(
    alloc: Global,
    number: u64,
    before: &mut Picture,
    after: &Picture,
) -> Result<Text, AllocError>
    ensures told { IfOk result (λ text. text ≡ frame_lines number before.old after.now) }
    ensures frame { OnOk result (before.new ≡ after.now) }
{
    let text = frame_text(alloc, number, before, after)?;
    before.copy_from(after);
    Ok(text)
}
