//! Rows of pictures: whether they can be printed, and whether they differ.
ghost use Rattle.std.specs.Prelude.{◌≡◌, ◌<◌};
ghost use Rattle.std.specs.List.{list_all};
ghost use Rattle.mh_told.specs.Frame.{row_cells, same_cell, differ};
ghost use Rattle.mh_look.specs.Report.{is_shown};

use mh_model::picture::COLUMNS;
use mh_model::{Cell, Picture};

/// Whether the cells of a row can be printed: characters of Unicode, in colours of 24 bits.
pub fn is_row_shown(picture: &Picture, row: usize) -> bool
    requires { row < 36 }
    ensures { result ≡ list_all is_shown (row_cells picture.now row) }
{
    for column in 0..COLUMNS {
        if !is_shown(picture.cell(row * COLUMNS + column)) {
            return false;
        }
    }
    true
}

fn is_shown(cell: Cell) -> bool
    ensures { result ≡ is_shown cell }
{
    if char::from_u32(cell.scalar).is_none() {
        return false;
    }
    cell.fore < 16_777_216 && cell.back < 16_777_216
}

/// Whether a row differs in one of its cells.
pub fn differ(one: &Picture, other: &Picture, row: usize) -> bool
    requires { row < 36 }
    ensures { result ≡ differ (row_cells one.now row) (row_cells other.now row) }
{
    for column in 0..COLUMNS {
        let at = row * COLUMNS + column;
        if !is_same(one.cell(at), other.cell(at)) {
            return true;
        }
    }
    false
}

fn is_same(one: Cell, other: Cell) -> bool
    ensures { result ≡ same_cell one other }
{
    one.scalar == other.scalar && one.fore == other.fore && one.back == other.back
}
