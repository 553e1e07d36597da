//! Windows: the cells of some rows and columns of the picture.
//!
//! The cells that a box covers make up a window, so that a visible is painted cell by cell of its own alone.
ghost use Rattle.std.specs.Prelude.{◌≡◌, ◌<◌, ◌≤◌, ◌*◌, ◌+ℤ◌, ℕ, true, pos, nat_lt, int_lt};
ghost use Rattle.mh_display.specs.Panels.{IsFrame, area_of_frame};
ghost use Rattle.mh_display.specs.Windows.{has, IsOf, IsMeet};

use crate::frame::Frame;
use mh_model::picture::{COLUMNS, ROWS};

/// The cells in these rows and columns, each from the first one up to the one behind the last.
#[derive(Clone, Copy)]
pub struct Window {
    pub top: usize,
    pub bottom: usize,
    pub left: usize,
    pub right: usize,
}

impl Window {
    /// All cells of the picture.
    pub fn whole() -> Window
        ensures { (c : ℕ) → c < 2160 → has result c ≡ true }
    {
        Window {
            top: 0,
            bottom: ROWS,
            left: 0,
            right: COLUMNS,
        }
    }

    /// The cells that a box covers. What of it lies off the screen counts for nothing.
    pub fn of(frame: &Frame) -> Window
        requires { IsFrame frame.now }
        ensures { IsOf (area_of_frame frame.now) result }
    {
        Window {
            top: rows_before(frame.y),
            bottom: rows_before(frame.y + frame.height),
            left: columns_before(frame.x),
            right: columns_before(frame.x + frame.width),
        }
    }

    /// The cells that lie in both.
    pub fn meet(&self, other: &Window) -> Window
        ensures { IsMeet self.now other.now result }
    {
        Window {
            top: self.top.max(other.top),
            bottom: self.bottom.min(other.bottom),
            left: self.left.max(other.left),
            right: self.right.min(other.right),
        }
    }
}

/// How many rows begin above the unit. A row is 16 units high.
fn rows_before(unit: i64) -> usize
    ensures near { result ≤ 36 }
    ensures begun { (row : ℕ) → row < 36 → nat_lt row result ≡ int_lt (pos (16 * row)) unit }
{
    if unit <= 0 {
        return 0;
    }
    let begun = (unit as usize).div_ceil(16);
    begun.min(ROWS)
}

/// How many columns begin to the left of the unit. A column is 12 units wide.
fn columns_before(unit: i64) -> usize
    ensures near { result ≤ 60 }
    ensures begun { (column : ℕ) → column < 60 → nat_lt column result ≡ int_lt (pos (12 * column)) unit }
{
    if unit <= 0 {
        return 0;
    }
    let begun = (unit as usize).div_ceil(12);
    begun.min(COLUMNS)
}
