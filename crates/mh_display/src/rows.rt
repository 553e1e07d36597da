//! Which rows of two pictures differ.
ghost use Rattle.std.specs.Prelude.{◌≡◌, ◌+◌, ◌<◌, ◌≤◌, ℕ, false, length, not, slice_index_or};
ghost use Rattle.std.specs.Simd.Lanes.{chunk};
ghost use Rattle.std.specs.Str.{bytes_eq};
ghost use Rattle.mh_display.specs.Rows.{same_row, same_stretch};

use mh_model::Picture;
use mh_model::picture::{COLUMNS, ROWS};
use std::simd::prelude::*;

/// How many numbers are compared at once.
const LANES: usize = 8;

/// Which rows of the picture (from the top, 36 rows of 60 cells) differ in a cell: in its character, in its
/// colour, or in the colour behind it.
pub fn changed_rows(before: &Picture, after: &Picture) -> [bool; 36]
    ensures all { length result ≡ 36 }
    ensures each { (j : ℕ) → j < 36 → slice_index_or result j false ≡ not (same_row before.now after.now j) }
{
    let mut changed = [false; ROWS];
    for row in 0..ROWS {
        changed[row] = !same_row(before, after, row);
    }
    changed
}

/// Whether the cells of a row are the same in both pictures.
fn same_row(before: &Picture, after: &Picture, row: usize) -> bool
    requires { row < 36 }
    ensures { result ≡ same_row before.now after.now row }
{
    let start = COLUMNS * row;
    if !same_stretch(before.scalars(), after.scalars(), start) {
        return false;
    }
    if !same_stretch(before.fores(), after.fores(), start) {
        return false;
    }
    same_stretch(before.backs(), after.backs(), start)
}

/// Whether the numbers of a row, from this place on, are the same in both planes.
fn same_stretch(before: &[u32], after: &[u32], start: usize) -> bool
    requires long { start + 60 ≤ length before.now }
    requires same { start + 60 ≤ length after.now }
    ensures { result ≡ same_stretch before.now after.now start }
{
    same_numbers(
        &before[start..start + COLUMNS],
        &after[start..start + COLUMNS],
    )
}

/// Whether both lists of 60 numbers are the same: by lanes, of which the last are looked at first, with some of
/// those before them.
fn same_numbers(before: &[u32], after: &[u32]) -> bool
    requires long { length before.now ≡ 60 }
    requires same { length after.now ≡ 60 }
    ensures { result ≡ bytes_eq before.now after.now }
{
    if !same_lanes(before, after, 52) {
        return false;
    }
    let mut at = 0;
    while at < 56 {
        if !same_lanes(before, after, at) {
            return false;
        }
        at += LANES;
    }
    true
}

/// Whether eight numbers, from this place on, are the same.
#[inline(always)]
fn same_lanes(before: &[u32], after: &[u32], at: usize) -> bool
    requires long { at + 8 ≤ length before.now }
    requires same { at + 8 ≤ length after.now }
    ensures { result ≡ bytes_eq (chunk at 8 before.now) (chunk at 8 after.now) }
{
    let before = u32x8::from_slice(&before[at..]);
    let after = u32x8::from_slice(&after[at..]);
    before.simd_ne(after).to_bitmask() == 0
}
