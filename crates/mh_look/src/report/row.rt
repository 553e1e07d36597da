//! The line of a row, read back into the cells of a picture.
ghost use Rattle.std.specs.Prelude.{◌≡◌, ◌<◌, IfOk, IfSome, length};
ghost use Rattle.std.specs.Option.{option_map};
ghost use Rattle.mh_told.specs.Frame.{row_cells};
ghost use Rattle.mh_model.specs.Planes.{IsWhole, with_cell};
ghost use Rattle.mh_look.specs.Reading.{IsRow, IsRowFound, SameBut};
ghost use Rattle.mh_look.specs.Cells.{AreCellsFound};

use crate::report::front::length_in_front;
use crate::report::run::{BLACK, fill_up, read_run};
use mh_model::picture::COLUMNS;
use mh_model::{Cell, Picture};
use mh_told::row::put_row;
use mh_told::text::Text;
use std::alloc::{AllocError, Global};

/// The bytes of a row's line in front of its runs: `row `, two digits and a colon.
const FRONT: usize = 7;

/// Reads the line of this row, counted from the top, with which the bytes begin, into that row of
/// the picture, and answers how long the line is; none where the bytes begin with no line of this
/// row, and then the row is anything. Other rows stay, whatever happens.
///
/// What is read need not be a line as it is printed: `row JJ:` is passed over, and a run may be
/// one that is not printed. So the row is printed again, and that has to stand there.
pub fn read_row(
    alloc: Global,
    bytes: &[u8],
    row: usize,
    picture: &mut Picture,
) -> Result<Option<usize>, AllocError>
    requires { row < 36 }
    ensures found { IfOk result (IsRowFound row bytes.now (row_cells picture.new row)) }
    ensures others { SameBut row picture.old picture.new }
{
    if bytes.len() < FRONT {
        return Ok(None);
    }
    let Some(cells) = read_cells(alloc, &bytes[FRONT..])? else {
        return Ok(None);
    };
    put_cells(picture, row, cells.as_slice());
    let mut text = Text::new(alloc);
    put_row(&mut text, picture, row)?;
    Ok(length_in_front(bytes, text.as_slice()))
}

/// The cells of a row whose runs these bytes begin with.
fn read_cells(alloc: Global, bytes: &[u8]) -> Result<Option<Vec<Cell>>, AllocError>
    ensures found { IfOk result (λ found.
        AreCellsFound bytes.now (option_map (λ cells. cells.items) found)) }
    ensures whole { IfOk result (λ found. IfSome found (λ cells. IsRow cells.items)) }
{
    let mut cells = Vec::new(alloc);
    let mut left = bytes;
    while let [b' ', ..] = left {
        let Some(length) = read_run(alloc, left, &mut cells)? else {
            return Ok(None);
        };
        left = &left[length..];
    }
    fill_up(&mut cells, COLUMNS, BLACK)?;
    Ok(Some(cells))
}

/// Makes these the cells of a row.
fn put_cells(picture: &mut Picture, row: usize, cells: &[Cell])
    requires row { row < 36 }
    requires whole { length cells.now ≡ 60 }
    ensures put { row_cells picture.new row ≡ cells.now }
    ensures others { SameBut row picture.old picture.new }
{
    for (column, cell) in cells.iter().enumerate() {
        put_cell(picture, row * COLUMNS + column, cell);
    }
}

fn put_cell(picture: &mut Picture, at: usize, cell: &Cell)
    requires { at < 2160 }
    ensures whole { IsWhole picture.old }
    ensures put { picture.new ≡ with_cell picture.old at cell.now }
{
    let _ = picture.cells();
    picture.set_mark(at, cell.scalar, cell.fore);
    picture.set_back(at, cell.back);
}
