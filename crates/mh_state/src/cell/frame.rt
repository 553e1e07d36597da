//! `Frame`: a box whose numbers have room for sums, and the colour that a box gives to a cell.
ghost use Rattle.std.specs.Prelude.{◌≡◌, ◌<◌, ◌^◌, ◌+ℤ◌, ◌-ℤ◌};
ghost use Rattle.mh_model.specs.Boxes.{IsNear, box_back, covers, covers_above_and_below, covers_beside, is_edge, within, x_of, y_of};
ghost use Rattle.mh_model.specs.Drawn.{box_of};
ghost use Rattle.mh_state.specs.Frames.{IsFrame, IsOnScreen, area_of_frame, colour_at};

use mh_base::Area;
use mh_model::Drawing;

/// A box: its upper left corner and its size. That of a drawn rectangle can lie beyond 32 bits.
#[derive(Clone, Copy)]
pub struct Frame {
    pub x: i64,
    pub y: i64,
    pub width: i64,
    pub height: i64,
}

impl Frame {
    /// The frame of a box.
    pub fn of(area: &Area) -> Frame
        ensures same { area_of_frame result ≡ area.now }
        ensures near { IsFrame result }
    {
        Frame {
            x: i64::from(area.x),
            y: i64::from(area.y),
            width: i64::from(area.width),
            height: i64::from(area.height),
        }
    }

    /// The frame of a rectangle that is drawn into a box.
    pub fn of_drawing(area: &Area, drawing: &Drawing) -> Frame
        ensures same { area_of_frame result ≡ box_of area.now drawing.now }
        ensures near { IsFrame result }
    {
        Frame {
            x: sum(area.x, drawing.from.x),
            y: sum(area.y, drawing.from.y),
            width: difference(drawing.to.x, drawing.from.x),
            height: difference(drawing.to.y, drawing.from.y),
        }
    }
}

fn sum(start: i32, offset: i16) -> i64
    ensures number { result ≡ start +ℤ offset }
    ensures near { IsNear (2 ^ 33) result }
{
    i64::from(start) + i64::from(offset)
}

fn difference(end: i16, start: i16) -> i64
    ensures number { result ≡ end -ℤ start }
    ensures near { IsNear (2 ^ 33) result }
{
    i64::from(end) - i64::from(start)
}

/// A box with one colour for its edge, if it has a line, and one for its inside.
#[derive(Clone, Copy)]
pub struct Panel {
    pub frame: Frame,
    pub has_line: bool,
    pub line: Option<u32>,
    pub fill: Option<u32>,
}

/// The colour that a panel gives to a cell.
pub fn back_of(panel: &Panel, cell: usize) -> Option<u32>
    requires near { IsFrame panel.now.frame }
    requires inside { cell < 2160 }
    ensures { let p = panel.now in
        result ≡ box_back (area_of_frame p.frame) p.has_line p.line p.fill (x_of cell) (y_of cell) }
{
    back_at(panel, x_of(cell), y_of(cell))
}

/// The colour at these units.
fn back_at(panel: &Panel, x: i64, y: i64) -> Option<u32>
    requires near { IsFrame panel.now.frame }
    requires right { IsOnScreen x }
    requires down { IsOnScreen y }
    ensures { let p = panel.now in result ≡ box_back (area_of_frame p.frame) p.has_line p.line p.fill x y }
{
    if covers_at(&panel.frame, x, y) {
        colour_at(panel, x, y)
    } else {
        None
    }
}

/// The colour at these units, which are covered.
fn colour_at(panel: &Panel, x: i64, y: i64) -> Option<u32>
    requires near { IsFrame panel.now.frame }
    requires right { IsOnScreen x }
    requires down { IsOnScreen y }
    ensures { result ≡ colour_at panel.now x y }
{
    if panel.has_line && is_edge(&panel.frame, x, y) {
        panel.line
    } else {
        panel.fill
    }
}

/// Whether the frame covers a cell.
pub fn covers(frame: &Frame, cell: usize) -> bool
    requires near { IsFrame frame.now }
    requires inside { cell < 2160 }
    ensures { result ≡ covers (area_of_frame frame.now) (x_of cell) (y_of cell) }
{
    covers_at(frame, x_of(cell), y_of(cell))
}

/// The unit at which a cell begins, from the left.
fn x_of(cell: usize) -> i64
    requires inside { cell < 2160 }
    ensures number { result ≡ x_of cell }
    ensures near { IsOnScreen result }
{
    (12 * (cell % 60)) as i64
}

/// The unit at which a cell begins, from above.
fn y_of(cell: usize) -> i64
    requires inside { cell < 2160 }
    ensures number { result ≡ y_of cell }
    ensures near { IsOnScreen result }
{
    (16 * (cell / 60)) as i64
}

fn covers_at(frame: &Frame, x: i64, y: i64) -> bool
    requires near { IsFrame frame.now }
    ensures { result ≡ covers (area_of_frame frame.now) x y }
{
    covers_column(frame, x) && covers_row(frame, y)
}

/// Whether the frame does not cover one of the four neighbours of the cell at these units.
fn is_edge(frame: &Frame, x: i64, y: i64) -> bool
    requires near { IsFrame frame.now }
    requires right { IsOnScreen x }
    requires down { IsOnScreen y }
    ensures { result ≡ is_edge (area_of_frame frame.now) x y }
{
    if !covers_beside(frame, x) {
        return true;
    }
    !covers_above_and_below(frame, y)
}

fn covers_beside(frame: &Frame, x: i64) -> bool
    requires near { IsFrame frame.now }
    requires right { IsOnScreen x }
    ensures { result ≡ covers_beside (area_of_frame frame.now) x }
{
    let left = x - 12;
    let right = x + 12;
    covers_column(frame, left) && covers_column(frame, right)
}

fn covers_above_and_below(frame: &Frame, y: i64) -> bool
    requires near { IsFrame frame.now }
    requires down { IsOnScreen y }
    ensures { result ≡ covers_above_and_below (area_of_frame frame.now) y }
{
    let above = y - 16;
    let below = y + 16;
    covers_row(frame, above) && covers_row(frame, below)
}

fn covers_column(frame: &Frame, x: i64) -> bool
    requires near { IsFrame frame.now }
    ensures { result ≡ within frame.now.x frame.now.width x }
{
    frame.x <= x && x < right_end(frame)
}

fn covers_row(frame: &Frame, y: i64) -> bool
    requires near { IsFrame frame.now }
    ensures { result ≡ within frame.now.y frame.now.height y }
{
    frame.y <= y && y < lower_end(frame)
}

/// The first unit behind the frame.
fn right_end(frame: &Frame) -> i64
    requires { IsFrame frame.now }
    ensures { result ≡ frame.now.x +ℤ frame.now.width }
{
    frame.x + frame.width
}

/// The first unit below the frame.
fn lower_end(frame: &Frame) -> i64
    requires { IsFrame frame.now }
    ensures { result ≡ frame.now.y +ℤ frame.now.height }
{
    frame.y + frame.height
}
