//! What is drawn into a DynamicLineArt is painted drawing by drawing, the last one first.
ghost use Rattle.std.specs.Prelude.{◌≡◌, ◌≤◌, None, false};
ghost use Rattle.mh_model.specs.Drawn.{box_of};
ghost use Rattle.mh_model.specs.Looks.{art_paint};
ghost use Rattle.mh_display.specs.Painting.{IsPainted, IsPaintedIn};
ghost use Rattle.mh_display.specs.Panels.{IsFrame, area_of_frame};
ghost use Rattle.mh_display.specs.Texts.{drawing_paint, drawn_paint};

use crate::frame::Frame;
use crate::panel::Panel;
use crate::panels::paint_panel;
use crate::screen::Screen;
use crate::stroke::stroke_of;
use crate::strokes::paint_stroke;
use crate::window::Window;
use mh_base::Area;
use mh_model::{Drawing, Figure};

/// Paints what is drawn into a box, and the colour that lies behind it.
pub(crate) fn paint_art(screen: &mut Screen, area: &Area, fill: Option<u32>, drawings: &[Drawing])
    ensures { IsPainted (art_paint area.now fill drawings.now) screen.old screen.new }
{
    let ground = ground_of(area, fill);
    let own = Window::of(&ground.frame);
    paint_drawings(screen, area, drawings, &own);
    paint_panel(screen, &ground, &own);
}

/// The box with this colour alone.
fn ground_of(area: &Area, fill: Option<u32>) -> Panel
    ensures near { IsFrame result.frame }
    ensures whole { result ≡ record { frame = result.frame; has_line = false; line = None; fill = fill } }
    ensures frame { area_of_frame result.frame ≡ area.now }
{
    Panel {
        frame: Frame::of(area),
        has_line: false,
        line: None,
        fill,
    }
}

/// Paints the drawings into the cells of the window.
fn paint_drawings(screen: &mut Screen, area: &Area, drawings: &[Drawing], window: &Window)
    requires low { window.now.bottom ≤ 36 }
    requires wide { window.now.right ≤ 60 }
    ensures { IsPaintedIn (drawn_paint area.now drawings.now) window.now screen.old screen.new }
{
    let mut left = drawings.len();
    while 0 < left {
        left -= 1;
        paint_drawing(screen, area, &drawings[left], window);
    }
}

fn paint_drawing(screen: &mut Screen, area: &Area, drawing: &Drawing, window: &Window)
    requires low { window.now.bottom ≤ 36 }
    requires wide { window.now.right ≤ 60 }
    ensures { IsPaintedIn (drawing_paint area.now drawing.now) window.now screen.old screen.new }
{
    match drawing.figure {
        Figure::Line => paint_stroke(screen, &stroke_of(area, drawing), drawing.line, window),
        Figure::Rectangle => paint_panel(screen, &panel_of(area, drawing), window),
    }
}

/// A drawn rectangle.
fn panel_of(area: &Area, drawing: &Drawing) -> Panel
    ensures near { IsFrame result.frame }
    ensures whole { result ≡ record { frame = result.frame; has_line = drawing.now.has_line; line = drawing.now.line; fill = drawing.now.fill } }
    ensures frame { area_of_frame result.frame ≡ box_of area.now drawing.now }
{
    Panel {
        frame: Frame::of_drawing(area, drawing),
        has_line: drawing.has_line,
        line: drawing.line,
        fill: drawing.fill,
    }
}
