//! Where two reports differ: the first frame, and its first cell.
ghost use Rattle.std.specs.Prelude.{◌≡◌, ◌<◌};
ghost use Rattle.mh_look.specs.Frames.{IsFirstDifference, changed_cells, difference_of, differs_at, first_difference, is_somewhere};

use crate::report::Part;
use crate::report::frames::next_frame;
use mh_model::Picture;
use mh_model::picture::CELLS;

/// Where the frames of two reports differ.
#[derive(Clone, Copy)]
pub enum Difference {
    /// All frames are the same; there are so many.
    Nowhere(u64),
    /// The first frame that differs, counted from 1, and its first cell that does.
    At(u64, usize),
    /// So many frames are the same, which are all of the second report, and the first has more.
    FirstHasMore(u64),
    /// The other way round.
    SecondHasMore(u64),
}

impl Difference {
    /// Whether the frames differ.
    pub fn is_somewhere(self) -> bool
        ensures { result ≡ is_somewhere self }
    {
        !matches!(self, Difference::Nowhere(_))
    }
}

/// Where the frames of two reports differ.
pub fn compare(first: &[Part], second: &[Part]) -> Difference
    ensures { result ≡ difference_of first.now second.now }
{
    let mut passed = 0;
    let mut ones = first;
    let mut others = second;
    while let Some((one, ones_behind)) = next_frame(ones) {
        let Some((other, others_behind)) = next_frame(others) else {
            return Difference::FirstHasMore(passed);
        };
        if let Some(cell) = first_difference(one, other) {
            return Difference::At(passed + 1, cell);
        }
        passed += 1;
        ones = ones_behind;
        others = others_behind;
    }
    match next_frame(others) {
        Some(_) => Difference::SecondHasMore(passed),
        None => Difference::Nowhere(passed),
    }
}

/// The first cell, row by row from the top, in which two pictures differ.
pub fn first_difference(one: &Picture, other: &Picture) -> Option<usize>
    ensures told { IsFirstDifference one.now other.now result }
    ensures first { result ≡ first_difference one.now other.now }
{
    let _ = (one.cells(), other.cells());
    for at in 0..CELLS {
        if differs_at(one, other, at) {
            return Some(at);
        }
    }
    None
}

/// How many cells of two pictures differ.
pub fn changed_cells(one: &Picture, other: &Picture) -> u64
    ensures { result ≡ changed_cells one.now other.now }
{
    let mut count = 0;
    for place in 0..CELLS {
        if differs_at(one, other, place) {
            count += 1;
        }
    }
    count
}

/// Whether two pictures differ in a cell.
pub fn differs_at(one: &Picture, other: &Picture, at: usize) -> bool
    requires { at < 2160 }
    ensures { result ≡ differs_at one.now other.now at }
{
    one.cell(at) != other.cell(at)
}
