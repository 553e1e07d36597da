//! `Frame`: a box whose numbers have room for sums.
ghost use Rattle.std.specs.Prelude.{◌≡◌, ◌^◌, ◌≤ℤ◌, ◌+ℤ◌, ◌-ℤ◌, pos};
ghost use Rattle.mh_model.specs.Boxes.{IsNear, within, is_edge, covers_beside, covers_above_and_below};
ghost use Rattle.mh_model.specs.Drawn.{box_of};
ghost use Rattle.mh_display.specs.Panels.{IsFrame, IsOnScreen, area_of_frame};

use mh_base::Area;
use mh_model::Drawing;

/// A box: its upper left corner and its size. That of a drawn rectangle can lie beyond 32 bits.
#[derive(Clone, Copy)]
pub struct Frame {
    pub x: i64,
    pub y: i64,
    pub width: i64,
    pub height: i64,
}

impl Frame {
    /// The frame of a box.
    pub fn of(area: &Area) -> Frame
        ensures same { area_of_frame result ≡ area.now }
        ensures near { IsFrame result }
    {
        Frame {
            x: i64::from(area.x),
            y: i64::from(area.y),
            width: i64::from(area.width),
            height: i64::from(area.height),
        }
    }

    /// The frame of a rectangle that is drawn into a box.
    pub fn of_drawing(area: &Area, drawing: &Drawing) -> Frame
        ensures same { area_of_frame result ≡ box_of area.now drawing.now }
        ensures near { IsFrame result }
    {
        Frame {
            x: sum(area.x, drawing.from.x),
            y: sum(area.y, drawing.from.y),
            width: difference(drawing.to.x, drawing.from.x),
            height: difference(drawing.to.y, drawing.from.y),
        }
    }
}

fn sum(start: i32, offset: i16) -> i64
    ensures number { result ≡ start +ℤ offset }
    ensures near { IsNear (2 ^ 33) result }
{
    i64::from(start) + i64::from(offset)
}

fn difference(end: i16, start: i16) -> i64
    ensures number { result ≡ end -ℤ start }
    ensures near { IsNear (2 ^ 33) result }
{
    i64::from(end) - i64::from(start)
}

/// Whether the frame does not cover one of the four neighbours of the cell at these units.
pub(crate) fn is_edge(frame: &Frame, x: i64, y: i64) -> bool
    requires near { IsFrame frame.now }
    requires right { IsOnScreen x }
    requires down { IsOnScreen y }
    ensures { result ≡ is_edge (area_of_frame frame.now) x y }
{
    if !covers_beside(frame, x) {
        return true;
    }
    !covers_above_and_below(frame, y)
}

fn covers_beside(frame: &Frame, x: i64) -> bool
    requires near { IsFrame frame.now }
    requires right { IsOnScreen x }
    ensures { result ≡ covers_beside (area_of_frame frame.now) x }
{
    let left = x - 12;
    let right = x + 12;
    covers_column(frame, left) && covers_column(frame, right)
}

fn covers_above_and_below(frame: &Frame, y: i64) -> bool
    requires near { IsFrame frame.now }
    requires down { IsOnScreen y }
    ensures { result ≡ covers_above_and_below (area_of_frame frame.now) y }
{
    let above = y - 16;
    let below = y + 16;
    covers_row(frame, above) && covers_row(frame, below)
}

fn covers_column(frame: &Frame, x: i64) -> bool
    requires near { IsFrame frame.now }
    ensures { result ≡ within frame.now.x frame.now.width x }
{
    frame.x <= x && x < right_end(frame)
}

fn covers_row(frame: &Frame, y: i64) -> bool
    requires near { IsFrame frame.now }
    ensures { result ≡ within frame.now.y frame.now.height y }
{
    frame.y <= y && y < lower_end(frame)
}

/// The first unit behind the frame.
pub(crate) fn right_end(frame: &Frame) -> i64
    requires { IsFrame frame.now }
    ensures { result ≡ frame.now.x +ℤ frame.now.width }
{
    frame.x + frame.width
}

/// The first unit below the frame.
pub(crate) fn lower_end(frame: &Frame) -> i64
    requires { IsFrame frame.now }
    ensures { result ≡ frame.now.y +ℤ frame.now.height }
{
    frame.y + frame.height
}
