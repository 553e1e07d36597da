//! What is shown: which rows changed, and cells.
ghost use Rattle.std.specs.Prelude.{◌≡◌, ◌≤◌, ◌<◌, ◌+◌, ◌*◌, ℕ, false, length, not, slice_index_or};
ghost use Rattle.mh_display.specs.Rows.{same_row};
ghost use Rattle.mh_model.specs.Picture.{shown};
ghost use Rattle.redplay_c.specs.Rows.{AreRows, bits_of};
ghost use Rattle.redplay_c.specs.Cells.{AreCells, cell_at, has_cells, no_cell};

use crate::answer::{GOOD, OUT_OF_RANGE};
use crate::crossing::Cell;
use crate::player::{Kind, Player};
use crate::session::Session;
use mh_display::changed_rows;
use mh_model::Picture;
use mh_model::picture::{CELLS, COLUMNS, ROWS};

impl Session {
    /// The rows that differ from the picture that was seen last, a bit a row, the first row the lowest. What is shown now is
    /// what is seen.
    pub fn changed(&mut self) -> u64
        ensures rows { AreRows self.old.seen (shown self.old.engine.state) result }
        ensures seen { self.new ≡ record self.old { seen = shown self.old.engine.state } }
    {
        bits_of(&self.player.show(&mut self.seen))
    }

    /// The cells from the beginning of a row on, as many as there are places for.
    pub fn cells(&mut self, row: usize, cells: &mut [Cell]) -> u32
        ensures copied { AreCells (shown self.old.engine.state) row cells.old cells.new result }
        ensures same { self.new ≡ self.old }
    {
        if !has_cells(row, cells.len()) {
            return OUT_OF_RANGE;
        }
        self.player.copy_cells(COLUMNS * row, cells);
        GOOD
    }
}

impl Player {
    /// The rows in which what is shown differs from the picture, which becomes it.
    fn show(&mut self, seen: &mut Picture) -> [bool; 36]
        ensures all { length result ≡ 36 }
        ensures each { (j : ℕ) → j < 36 → slice_index_or result j false ≡ not (same_row seen.old (shown self.old.play.state) j) }
        ensures seen { seen.new ≡ shown self.old.play.state }
        ensures same { self.new ≡ self.old }
    {
        match &mut self.kind {
            Kind::Whole(engine) => next_rows(seen, engine.picture()),
            Kind::Sealed(engine) => next_rows(seen, engine.picture()),
        }
    }

    /// Copies cells of what is shown, from this one on.
    fn copy_cells(&mut self, first: usize, cells: &mut [Cell])
        requires { first + length cells.old ≤ 2160 }
        ensures all { length cells.new ≡ length cells.old }
        ensures each { (j : ℕ) → j < length cells.old → slice_index_or cells.new j no_cell ≡ cell_at (shown self.old.play.state) (first + j) }
        ensures same { self.new ≡ self.old }
    {
        match &mut self.kind {
            Kind::Whole(engine) => copy_cells(engine.picture(), first, cells),
            Kind::Sealed(engine) => copy_cells(engine.picture(), first, cells),
        }
    }
}

/// The rows in which the pictures differ; the first becomes the second.
fn next_rows(seen: &mut Picture, picture: &Picture) -> [bool; 36]
    ensures all { length result ≡ 36 }
    ensures each { (j : ℕ) → j < 36 → slice_index_or result j false ≡ not (same_row seen.old picture.now j) }
    ensures seen { seen.new ≡ picture.now }
{
    let rows = changed_rows(seen, picture);
    seen.copy_from(picture);
    rows
}

/// Whether there are so many cells from the beginning of this row on.
fn has_cells(row: usize, count: usize) -> bool
    ensures { result ≡ has_cells row count }
{
    row < ROWS && count <= CELLS - COLUMNS * row
}

/// The number of which each row is a bit, the first the lowest.
fn bits_of(rows: &[bool; 36]) -> u64
    ensures { result ≡ bits_of rows.now }
{
    let mut bits = 0;
    let mut at = ROWS;
    while at > 0 {
        at -= 1;
        bits = bits * 2 + u64::from(rows[at]);
    }
    bits
}

/// Copies cells of the picture, from this one on.
fn copy_cells(picture: &Picture, first: usize, cells: &mut [Cell])
    requires { first + length cells.old ≤ 2160 }
    ensures all { length cells.new ≡ length cells.old }
    ensures each { (j : ℕ) → j < length cells.old → slice_index_or cells.new j no_cell ≡ cell_at picture.now (first + j) }
{
    for at in 0..cells.len() {
        let cell = picture.cell(first + at);
        cells[at] = Cell {
            scalar: cell.scalar,
            fore: cell.fore,
            back: cell.back,
        };
    }
}
