//! A frame, read back into a picture.
ghost use Rattle.std.specs.Prelude.{◌≡◌, ◌<◌, ◌≤◌, true, false, Some, None, IfOk, length};
ghost use Rattle.mh_told.specs.Frame.{row_cells};
ghost use Rattle.mh_look.specs.Front.{IsInFront};
ghost use Rattle.mh_look.specs.Reading.{IsFrameFound, SameBut};
ghost use Rattle.mh_look.specs.Changes.{head, row_front, IsChangeFound, AreChangesFound};

use crate::report::front::length_in_front;
use crate::report::row::read_row;
use crate::report::shown::{differ, is_row_shown};
use mh_model::Picture;
use mh_model::picture::ROWS;
use mh_told::text::Text;
use std::alloc::{AllocError, Global};

/// How far the rows of a frame were read, and whether these are all.
#[derive(Clone, Copy)]
struct Reach {
    length: usize,
    whole: bool,
}

/// Reads the frame with this number with which the bytes begin, into the picture `after`, where
/// `before` is the picture of the frame before it, and answers how long it is; none where they
/// begin with no such frame, and then the picture is anything.
pub fn read_frame(
    alloc: Global,
    bytes: &[u8],
    number: u64,
    before: &Picture,
    after: &mut Picture,
) -> Result<Option<usize>, AllocError>
    ensures found { IfOk result (IsFrameFound number before.now bytes.now after.new) }
{
    let Some(start) = read_head(alloc, bytes, number)? else {
        return Ok(None);
    };
    let reach = read_rows(alloc, &bytes[start..], before, after)?;
    if reach.whole {
        Ok(Some(start + reach.length))
    } else {
        Ok(None)
    }
}

/// How far bytes can be read that begin with no whole frame with this number.
pub fn stop_in_frame(
    alloc: Global,
    bytes: &[u8],
    number: u64,
    before: &Picture,
) -> Result<usize, AllocError>
    ensures { IfOk result (λ stop. stop ≤ length bytes.now) }
{
    let Some(start) = read_head(alloc, bytes, number)? else {
        return Ok(0);
    };
    let mut after = Picture::black(alloc)?;
    let reach = read_rows(alloc, &bytes[start..], before, &mut after)?;
    Ok(start + reach.length)
}

/// The length of the line that begins a frame.
fn read_head(alloc: Global, bytes: &[u8], number: u64) -> Result<Option<usize>, AllocError>
    ensures { IfOk result (IsInFront bytes.now (head number)) }
{
    let mut text = Text::new(alloc);
    text.put(b"frame ")?;
    text.put_number(number)?;
    text.put(b"\n")?;
    Ok(length_in_front(bytes, text.as_slice()))
}

/// Reads the rows of a frame with which the bytes begin, as far as they are right.
fn read_rows(
    alloc: Global,
    bytes: &[u8],
    before: &Picture,
    after: &mut Picture,
) -> Result<Reach, AllocError>
    ensures whole { let found = AreChangesFound before.now bytes.now after.new in
        IfOk result (λ reach. reach.whole ≡ true → found (Some reach.length)) }
    ensures part { let found = AreChangesFound before.now bytes.now after.new in
        IfOk result (λ reach. reach.whole ≡ false → found None) }
    ensures within { IfOk result (λ reach. reach.length ≤ length bytes.now) }
{
    after.copy_from(before);
    let mut length = 0;
    for row in 0..ROWS {
        let Some(more) = read_change(alloc, &bytes[length..], row, before, after)? else {
            return Ok(Reach {
                length,
                whole: false,
            });
        };
        length += more;
    }
    let _ = after.cells();
    Ok(Reach {
        length,
        whole: true,
    })
}

/// Reads the line of a row, if the bytes begin with one, into the picture `after`, in which that
/// row is the one of the picture before; the row that is read has to differ from it. Answers how
/// long the line is.
fn read_change(
    alloc: Global,
    bytes: &[u8],
    row: usize,
    before: &Picture,
    after: &mut Picture,
) -> Result<Option<usize>, AllocError>
    requires row { row < 36 }
    requires kept { row_cells after.old row ≡ row_cells before.now row }
    ensures found { let cells = row_cells after.new row in
        IfOk result (IsChangeFound row (row_cells before.now row) bytes.now cells) }
    ensures others { SameBut row after.old after.new }
{
    let Some(_) = read_row_front(alloc, bytes, row)? else {
        if is_row_shown(before, row) {
            return Ok(Some(0));
        }
        return Ok(None);
    };
    let found = read_row(alloc, bytes, row, after)?;
    if differ(before, after, row) {
        Ok(found)
    } else {
        Ok(None)
    }
}

/// The length of the front of a row's line.
fn read_row_front(alloc: Global, bytes: &[u8], row: usize) -> Result<Option<usize>, AllocError>
    requires { row < 36 }
    ensures { IfOk result (IsInFront bytes.now (row_front row)) }
{
    let mut text = Text::new(alloc);
    text.put(b"row ")?;
    text.put_two_digits(row as u8)?;
    text.put(b":")?;
    Ok(length_in_front(bytes, text.as_slice()))
}
