//! Drawn lines, by the cells of their two ends (LineArt of ISO/IEC 13522-5).
//!
//! The points of a drawing are told in 16 bits from one corner, so the cells of its ends are near one another,
//! and no sum or product here overflows 64 bits.
ghost use Rattle.std.specs.Prelude.{◌≡◌, ◌<◌, ◌≤◌, ◌^◌, ◌*◌, ◌*ℤ◌, ◌+ℤ◌, ◌-ℤ◌, pos, true, false, unsigned_abs};
ghost use Rattle.std.specs.Int.{int_div_euclid};
ghost use Rattle.mh_model.specs.Boxes.{IsNear};
ghost use Rattle.mh_model.specs.Drawn.{across, comes_to, comes_to_column, comes_to_row, down, goes_through, gone, spot_of, steps as steps_lem, stroke_of};
ghost use Rattle.mh_display.specs.Strokes.{IsInReach, IsOnly, IsShort, is_steep, lies_between, place_between, step_to};

use mh_base::Area;
use mh_model::{Drawing, Point, Spot, Stroke};

/// The line of a drawing in a box.
pub fn stroke_of(area: &Area, drawing: &Drawing) -> Stroke
    ensures stroke { result ≡ stroke_of area.now drawing.now }
    ensures short { IsShort result }
{
    Stroke {
        first: spot_of(area, &drawing.from),
        last: spot_of(area, &drawing.to),
    }
}

/// The cell in which a point of a drawing lies.
fn spot_of(area: &Area, point: &Point) -> Spot
    ensures spot { result ≡ spot_of area.now point.now }
    ensures column { IsNear (2 ^ 33) result.column }
    ensures row { IsNear (2 ^ 33) result.row }
    ensures near { IsInReach point.now }
{
    Spot {
        column: column_of(place(area.x, point.x)),
        row: row_of(place(area.y, point.y)),
    }
}

/// The unit so far from the start.
fn place(start: i32, offset: i16) -> i64
    ensures number { result ≡ start +ℤ offset }
    ensures near { IsNear (2 ^ 33) result }
    ensures reach { IsNear 0x8000 offset }
{
    i64::from(start) + i64::from(offset)
}

/// The column of cells that has the unit.
fn column_of(unit: i64) -> i64
    requires { IsNear (2 ^ 33) unit }
    ensures number { result ≡ int_div_euclid unit (pos 12) }
    ensures near { IsNear (2 ^ 33) result }
{
    unit.div_euclid(12)
}

/// The row of cells that has the unit.
fn row_of(unit: i64) -> i64
    requires { IsNear (2 ^ 33) unit }
    ensures number { result ≡ int_div_euclid unit (pos 16) }
    ensures near { IsNear (2 ^ 33) result }
{
    unit.div_euclid(16)
}

/// Whether the line goes through the cell in this column and row. It goes in as many equal steps as there
/// are cells in its longer direction, and in the other one to the nearest cell; from the middle between two,
/// to the one with the higher number.
pub fn goes_through(stroke: &Stroke, column: i32, row: i32) -> bool
    requires short { IsShort stroke.now }
    ensures { result ≡ goes_through stroke.now column row }
{
    let step = step_to(stroke, column, row);
    step <= steps(stroke) && comes_to(stroke, column, row, step)
}

/// The one number of steps that can come to the cell: in the longer direction each goes on by one.
fn step_to(stroke: &Stroke, column: i32, row: i32) -> u64
    requires short { IsShort stroke.now }
    ensures { result ≡ step_to stroke.now column row }
{
    if is_steep(stroke) {
        to_row(stroke, row).unsigned_abs()
    } else {
        to_column(stroke, column).unsigned_abs()
    }
}

/// Whether the line is at least as long downwards as it is to the side, so that no row has two of its cells;
/// else no column has.
pub(crate) fn is_steep(stroke: &Stroke) -> bool
    requires short { IsShort stroke.now }
    ensures { result ≡ is_steep stroke.now }
{
    across(stroke).unsigned_abs() <= down(stroke).unsigned_abs()
}

/// The column of the cell in this row through which a steep line goes, if it lies between the first column and
/// the last.
pub(crate) fn column_in(stroke: &Stroke, row: usize, first: usize, last: usize) -> Option<usize>
    requires short { IsShort stroke.now }
    requires steep { is_steep stroke.now ≡ true }
    requires low { row < 36 }
    ensures { IsOnly (λ column. goes_through stroke.now (pos column) (pos row)) first last result }
{
    if !has_row(stroke, row as i32) {
        return None;
    }
    place_between(column_at(stroke, row as i32), first, last)
}

/// The row of the cell in this column through which a flat line goes, if it lies between the first row and the
/// last.
pub(crate) fn row_in(stroke: &Stroke, column: usize, first: usize, last: usize) -> Option<usize>
    requires short { IsShort stroke.now }
    requires flat { is_steep stroke.now ≡ false }
    requires wide { column < 60 }
    ensures { IsOnly (λ row. goes_through stroke.now (pos column) (pos row)) first last result }
{
    if !has_column(stroke, column as i32) {
        return None;
    }
    place_between(row_at(stroke, column as i32), first, last)
}

/// Whether the row lies between those of the two ends.
fn has_row(stroke: &Stroke, row: i32) -> bool
    ensures { result ≡ lies_between stroke.now.first.row stroke.now.last.row row }
{
    let row = i64::from(row);
    if stroke.first.row <= stroke.last.row {
        stroke.first.row <= row && row <= stroke.last.row
    } else {
        stroke.last.row <= row && row <= stroke.first.row
    }
}

/// Whether the column lies between those of the two ends.
fn has_column(stroke: &Stroke, column: i32) -> bool
    ensures { result ≡ lies_between stroke.now.first.column stroke.now.last.column column }
{
    let column = i64::from(column);
    if stroke.first.column <= stroke.last.column {
        stroke.first.column <= column && column <= stroke.last.column
    } else {
        stroke.last.column <= column && column <= stroke.first.column
    }
}

/// The column of the step that comes to this row.
fn column_at(stroke: &Stroke, row: i32) -> i64
    requires short { IsShort stroke.now }
    requires on_the_way { unsigned_abs (row -ℤ stroke.now.first.row) ≤ steps_lem stroke.now }
    ensures { result ≡ stroke.now.first.column +ℤ gone (steps_lem stroke.now) (across stroke.now) (unsigned_abs (row -ℤ stroke.now.first.row)) }
{
    let step = to_row(stroke, row).unsigned_abs();
    stroke.first.column + gone(steps(stroke), across(stroke), step)
}

/// The row of the step that comes to this column.
fn row_at(stroke: &Stroke, column: i32) -> i64
    requires short { IsShort stroke.now }
    requires on_the_way { unsigned_abs (column -ℤ stroke.now.first.column) ≤ steps_lem stroke.now }
    ensures { result ≡ stroke.now.first.row +ℤ gone (steps_lem stroke.now) (down stroke.now) (unsigned_abs (column -ℤ stroke.now.first.column)) }
{
    let step = to_column(stroke, column).unsigned_abs();
    stroke.first.row + gone(steps(stroke), down(stroke), step)
}

/// The number, if it is one from the first up to the last.
fn place_between(number: i64, first: usize, last: usize) -> Option<usize>
    ensures { result ≡ place_between first last number }
{
    if number < 0 {
        return None;
    }
    let place = number as usize;
    if first <= place && place < last {
        Some(place)
    } else {
        None
    }
}

/// Whether so many steps come to the cell.
fn comes_to(stroke: &Stroke, column: i32, row: i32, step: u64) -> bool
    requires short { IsShort stroke.now }
    requires on_the_way { step ≤ steps_lem stroke.now }
    ensures { result ≡ comes_to stroke.now column row step }
{
    comes_to_column(stroke, column, step) && comes_to_row(stroke, row, step)
}

fn comes_to_column(stroke: &Stroke, column: i32, step: u64) -> bool
    requires short { IsShort stroke.now }
    requires on_the_way { step ≤ steps_lem stroke.now }
    ensures { result ≡ comes_to_column stroke.now column step }
{
    gone(steps(stroke), across(stroke), step) == to_column(stroke, column)
}

fn comes_to_row(stroke: &Stroke, row: i32, step: u64) -> bool
    requires short { IsShort stroke.now }
    requires on_the_way { step ≤ steps_lem stroke.now }
    ensures { result ≡ comes_to_row stroke.now row step }
{
    gone(steps(stroke), down(stroke), step) == to_row(stroke, row)
}

/// How far so many of the steps over a distance go.
fn gone(steps: u64, distance: i64, step: u64) -> i64
    requires few { steps ≤ 2 ^ 16 }
    requires near { IsNear 0xFFFF distance }
    requires on_the_way { step ≤ steps }
    ensures number { result ≡ gone steps distance step }
    ensures near { IsNear (2 ^ 34) result }
{
    if steps == 0 {
        return 0;
    }
    (twice(step, distance) + steps as i64).div_euclid((2 * steps) as i64)
}

/// Twice the product.
fn twice(step: u64, distance: i64) -> i64
    requires few { step ≤ 2 ^ 16 }
    requires near { IsNear 0xFFFF distance }
    ensures number { result ≡ pos (2 * step) *ℤ distance }
    ensures near { IsNear (2 ^ 33) result }
{
    (2 * step) as i64 * distance
}

/// How far the column is from the first cell.
fn to_column(stroke: &Stroke, column: i32) -> i64
    requires short { IsShort stroke.now }
    ensures { result ≡ column -ℤ stroke.now.first.column }
{
    i64::from(column) - stroke.first.column
}

/// How far the row is from the first cell.
fn to_row(stroke: &Stroke, row: i32) -> i64
    requires short { IsShort stroke.now }
    ensures { result ≡ row -ℤ stroke.now.first.row }
{
    i64::from(row) - stroke.first.row
}

fn steps(stroke: &Stroke) -> u64
    requires short { IsShort stroke.now }
    ensures number { result ≡ steps_lem stroke.now }
    ensures few { result ≤ 2 ^ 16 }
{
    let across = across(stroke).unsigned_abs();
    let down = down(stroke).unsigned_abs();
    if across <= down { down } else { across }
}

fn across(stroke: &Stroke) -> i64
    requires short { IsShort stroke.now }
    ensures number { result ≡ across stroke.now }
    ensures near { IsNear 0xFFFF result }
{
    stroke.last.column - stroke.first.column
}

fn down(stroke: &Stroke) -> i64
    requires short { IsShort stroke.now }
    ensures number { result ≡ down stroke.now }
    ensures near { IsNear 0xFFFF result }
{
    stroke.last.row - stroke.first.row
}
