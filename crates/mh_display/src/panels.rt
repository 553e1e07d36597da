//! Panels are painted row by row, into the cells alone that they cover and that are stale. One that paints nothing is passed
//! over at once.
ghost use Rattle.std.specs.Prelude.{◌≡◌, ◌<◌, ◌≤◌, ◌+◌, ◌*◌};
ghost use Rattle.mh_display.specs.Painting.{IsSet, IsBetween, IsPaintedIn, marked_at, put};
ghost use Rattle.mh_display.specs.Panels.{IsFrame, inner_paint, panel_paint};

use crate::cells::{lowest, without};
use crate::panel::{Panel, colour_of, is_clear};
use crate::screen::Screen;
use crate::window::Window;

/// Paints a panel into the cells that it shares with the window.
pub(crate) fn paint_panel(screen: &mut Screen, panel: &Panel, window: &Window)
    requires { IsFrame panel.now.frame }
    ensures { IsPaintedIn (panel_paint panel.now) window.now screen.old screen.new }
{
    if is_clear(panel) {
        return;
    }
    let own = Window::of(&panel.frame);
    paint_rows(screen, panel, &own.meet(window));
}

/// Paints a panel into the cells of the window, which it covers.
fn paint_rows(screen: &mut Screen, panel: &Panel, window: &Window)
    requires near { IsFrame panel.now.frame }
    requires low { window.now.bottom ≤ 36 }
    requires wide { window.now.right ≤ 60 }
    ensures { IsPaintedIn (inner_paint panel.now) window.now screen.old screen.new }
{
    for row in window.top..window.bottom {
        paint_row(screen, panel, row, window);
    }
}

fn paint_row(screen: &mut Screen, panel: &Panel, row: usize, window: &Window)
    requires near { IsFrame panel.now.frame }
    requires low { row < 36 }
    requires wide { window.now.right ≤ 60 }
    ensures { IsBetween (λ c. put (inner_paint panel.now c)) (marked_at screen.old) (marked_at screen.new) (60 * row + window.now.left) (60 * row + window.now.right) }
{
    let mut left = screen.stale_in(row, window.left, window.right);
    while left != 0 {
        let column = lowest(left);
        paint_cell(screen, panel, row, column);
        left = without(left, column);
    }
}

fn paint_cell(screen: &mut Screen, panel: &Panel, row: usize, column: usize)
    requires near { IsFrame panel.now.frame }
    requires low { row < 36 }
    requires wide { column < 60 }
    ensures { IsSet (marked_at screen.old) (marked_at screen.new) (60 * row + column) (put (inner_paint panel.now (60 * row + column)) (marked_at screen.old (60 * row + column))) }
{
    let back = colour_of(panel, row, column);
    screen.put(row, column, back, None);
}
