//! `Panel`: a box with an edge and an inside, as a rectangle is, drawn or not, and what lies behind drawings.
ghost use Rattle.std.specs.Prelude.{◌≡◌, ◌<◌, ◌+◌, ◌*◌};
ghost use Rattle.mh_display.specs.Panels.{IsFrame, IsOnScreen, colour_at, inner_paint, is_clear};

use crate::frame::{Frame, is_edge};

/// A box with one colour for its edge, if it has a line, and one for its inside.
#[derive(Clone, Copy)]
pub struct Panel {
    pub frame: Frame,
    pub has_line: bool,
    pub line: Option<u32>,
    pub fill: Option<u32>,
}

/// Whether the panel paints nothing: it has no colour for its inside, and none for its edge if that has a line.
pub(crate) fn is_clear(panel: &Panel) -> bool
    ensures { result ≡ is_clear panel.now }
{
    panel.fill.is_none() && !(panel.has_line && panel.line.is_some())
}

/// The colour that a panel gives to the cell in this row and column, which it covers.
pub(crate) fn colour_of(panel: &Panel, row: usize, column: usize) -> Option<u32>
    requires near { IsFrame panel.now.frame }
    requires low { row < 36 }
    requires wide { column < 60 }
    ensures { result ≡ (inner_paint panel.now (60 * row + column)).back }
{
    colour_at(panel, (12 * column) as i64, (16 * row) as i64)
}

/// The colour at these units.
fn colour_at(panel: &Panel, x: i64, y: i64) -> Option<u32>
    requires near { IsFrame panel.now.frame }
    requires right { IsOnScreen x }
    requires down { IsOnScreen y }
    ensures { result ≡ colour_at panel.now x y }
{
    if panel.has_line && is_edge(&panel.frame, x, y) {
        panel.line
    } else {
        panel.fill
    }
}
