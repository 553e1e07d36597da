//! Cells of the picture that a session shows.
ghost use Rattle.std.specs.Prelude.{◌≡◌, ◌≤◌, ◌<◌, ◌+◌, ◌*◌, ℕ, length, slice_index_or};
ghost use Rattle.mh_model.specs.Picture.{shown};
ghost use Rattle.redplay_page.specs.Cells.{AreCells, cell_at, has_cells, no_cell};

use crate::session::Session;
use mh_crossing::{GOOD, OUT_OF_RANGE};
use mh_model::Picture;
use mh_model::picture::{CELLS, COLUMNS, ROWS};

/// A cell of the picture: a code point of Unicode, its colour, and the colour behind it, in 24 bits each, red in the highest
/// eight.
#[repr(C)]
#[derive(Clone, Copy)]
pub struct Cell {
    pub scalar: u32,
    pub fore: u32,
    pub back: u32,
}

impl Session {
    /// The cells from the beginning of a row on, as many as there are places for.
    pub fn cells(&mut self, row: usize, cells: &mut [Cell]) -> u32
        ensures copied { AreCells (shown self.old.tracing.state) row cells.old cells.new result }
        ensures same { self.new ≡ self.old }
    {
        if !has_cells(row, cells.len()) {
            return OUT_OF_RANGE;
        }
        copy_cells(self.tracer.picture(), COLUMNS * row, cells);
        GOOD
    }
}

/// Whether there are so many cells from the beginning of this row on.
fn has_cells(row: usize, count: usize) -> bool
    ensures { result ≡ has_cells row count }
{
    row < ROWS && count <= CELLS - COLUMNS * row
}

/// Copies cells of the picture, from this one on.
fn copy_cells(picture: &Picture, first: usize, cells: &mut [Cell])
    requires { first + length cells.old ≤ 2160 }
    ensures all { length cells.new ≡ length cells.old }
    ensures each { (j : ℕ) → j < length cells.old → slice_index_or cells.new j no_cell ≡ cell_at picture.now (first + j) }
{
    for at in 0..cells.len() {
        let cell = picture.cell(first + at);
        cells[at] = Cell {
            scalar: cell.scalar,
            fore: cell.fore,
            back: cell.back,
        };
    }
}
