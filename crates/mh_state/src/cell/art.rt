//! The colour that drawings give to a cell.
ghost use Rattle.std.specs.Prelude.{◌≡◌, ◌<◌};
ghost use Rattle.mh_model.specs.Boxes.{column_of, row_of};
ghost use Rattle.mh_model.specs.Drawn as spec;
ghost use Rattle.mh_state.specs.Frames.{IsFrame, area_of_frame};

use crate::cell::frame::{Frame, Panel, back_of};
use mh_base::Area;
use mh_display::{goes_through, stroke_of};
use mh_model::{Drawing, Figure};

/// The colour that these drawings give to a cell, over what lies below: that of the last one that gives one.
pub fn drawn_over(area: &Area, drawings: &[Drawing], cell: usize, below: Option<u32>) -> Option<u32>
    requires inside { cell < 2160 }
    ensures { result ≡ spec.drawn_over area.now drawings.now cell below }
{
    let mut seen = below;
    for drawing in drawings {
        seen = drawing_back(area, drawing, cell).or(seen);
    }
    seen
}

/// The colour that a drawing gives to a cell, if it gives one.
fn drawing_back(area: &Area, drawing: &Drawing, cell: usize) -> Option<u32>
    requires inside { cell < 2160 }
    ensures { result ≡ spec.drawing_back area.now drawing.now cell }
{
    match drawing.figure {
        Figure::Line => line_back(area, drawing, cell),
        Figure::Rectangle => back_of(&panel_of(area, drawing), cell),
    }
}

/// A drawn rectangle.
fn panel_of(area: &Area, drawing: &Drawing) -> Panel
    ensures near { IsFrame result.frame }
    ensures whole { result ≡ record { frame = result.frame; has_line = drawing.now.has_line; line = drawing.now.line; fill = drawing.now.fill } }
    ensures frame { area_of_frame result.frame ≡ spec.box_of area.now drawing.now }
{
    Panel {
        frame: Frame::of_drawing(area, drawing),
        has_line: drawing.has_line,
        line: drawing.line,
        fill: drawing.fill,
    }
}

fn line_back(area: &Area, drawing: &Drawing, cell: usize) -> Option<u32>
    requires inside { cell < 2160 }
    ensures { result ≡ spec.figure_back Figure.Line area.now drawing.now cell }
{
    if is_on(area, drawing, column_of(cell), row_of(cell)) {
        drawing.line
    } else {
        None
    }
}

/// Whether the line of a drawing goes through the cell in this column and row.
fn is_on(area: &Area, drawing: &Drawing, column: i32, row: i32) -> bool
    ensures { result ≡ spec.goes_through (spec.stroke_of area.now drawing.now) column row }
{
    goes_through(&stroke_of(area, drawing), column, row)
}

fn column_of(cell: usize) -> i32
    requires inside { cell < 2160 }
    ensures { result ≡ column_of cell }
{
    (cell % 60) as i32
}

fn row_of(cell: usize) -> i32
    requires inside { cell < 2160 }
    ensures { result ≡ row_of cell }
{
    (cell / 60) as i32
}
