//! Drawn lines are painted into the cells of a window.
ghost use Rattle.std.specs.Prelude.{◌≡◌, ◌<◌, ◌≤◌, ◌+◌, ◌*◌, true, false, Some, None};
ghost use Rattle.mh_display.specs.Painting.{IsAcross, IsBetween, IsPaintedIn, IsSet, marked_at, put};
ghost use Rattle.mh_display.specs.Strokes.{IsShort, is_steep, stroke_paint};

use crate::screen::Screen;
use crate::stroke::{column_in, is_steep, row_in};
use crate::window::Window;
use mh_model::Stroke;

/// Paints a drawn line of this colour into the cells of the window, if it has one. Its cells are found by their
/// rows or by their columns, so that no cell beside it is looked at.
pub(crate) fn paint_stroke(screen: &mut Screen, stroke: &Stroke, line: Option<u32>, window: &Window)
    requires short { IsShort stroke.now }
    requires low { window.now.bottom ≤ 36 }
    requires wide { window.now.right ≤ 60 }
    ensures { IsPaintedIn (stroke_paint stroke.now line) window.now screen.old screen.new }
{
    let Some(colour) = line else {
        return;
    };
    if is_steep(stroke) {
        paint_steep(screen, stroke, colour, window);
    } else {
        paint_flat(screen, stroke, colour, window);
    }
}

/// Paints a steep line row by row.
fn paint_steep(screen: &mut Screen, stroke: &Stroke, colour: u32, window: &Window)
    requires short { IsShort stroke.now }
    requires steep { is_steep stroke.now ≡ true }
    requires low { window.now.bottom ≤ 36 }
    requires wide { window.now.right ≤ 60 }
    ensures { IsPaintedIn (stroke_paint stroke.now (Some colour)) window.now screen.old screen.new }
{
    for row in window.top..window.bottom {
        paint_in_row(screen, stroke, colour, row, window);
    }
}

/// Paints the one cell of a row, in which a cell may be stale.
fn paint_in_row(screen: &mut Screen, stroke: &Stroke, colour: u32, row: usize, window: &Window)
    requires short { IsShort stroke.now }
    requires steep { is_steep stroke.now ≡ true }
    requires low { row < 36 }
    requires wide { window.now.right ≤ 60 }
    ensures { IsBetween (λ c. put (stroke_paint stroke.now (Some colour) c)) (marked_at screen.old) (marked_at screen.new) (60 * row + window.now.left) (60 * row + window.now.right) }
{
    if screen.stale_in(row, window.left, window.right) == 0 {
        return;
    }
    if let Some(column) = column_in(stroke, row, window.left, window.right) {
        paint_cell(screen, colour, row, column);
    }
}

/// Paints a flat line column by column.
fn paint_flat(screen: &mut Screen, stroke: &Stroke, colour: u32, window: &Window)
    requires short { IsShort stroke.now }
    requires flat { is_steep stroke.now ≡ false }
    requires low { window.now.bottom ≤ 36 }
    requires wide { window.now.right ≤ 60 }
    ensures { IsPaintedIn (stroke_paint stroke.now (Some colour)) window.now screen.old screen.new }
{
    for column in window.left..window.right {
        paint_in_column(screen, stroke, colour, column, window);
    }
}

/// Paints the one cell of a column.
fn paint_in_column(
    screen: &mut Screen,
    stroke: &Stroke,
    colour: u32,
    column: usize,
    window: &Window,
)
    requires short { IsShort stroke.now }
    requires flat { is_steep stroke.now ≡ false }
    requires low { window.now.bottom ≤ 36 }
    requires beside { window.now.left ≤ column }
    requires wide { column < window.now.right }
    requires narrow { window.now.right ≤ 60 }
    ensures { IsAcross (λ c. put (stroke_paint stroke.now (Some colour) c)) window.now (marked_at screen.old) (marked_at screen.new) column }
{
    if let Some(row) = row_in(stroke, column, window.top, window.bottom) {
        paint_cell(screen, colour, row, column);
    }
}

/// Paints a cell through which the line goes, if it is stale.
fn paint_cell(screen: &mut Screen, colour: u32, row: usize, column: usize)
    requires low { row < 36 }
    requires wide { column < 60 }
    ensures { IsSet (marked_at screen.old) (marked_at screen.new) (60 * row + column) (put (record { back = Some colour; mark = None }) (marked_at screen.old (60 * row + column))) }
{
    if screen.is_stale(row, column) {
        screen.put(row, column, Some(colour), None);
    }
}
