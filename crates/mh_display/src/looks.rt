//! What an object that is seen paints, by its class.
ghost use Rattle.std.specs.Prelude.{◌≡◌, ◌<◌, Some, ℕ};
ghost use Rattle.std.specs.Option.{option_copied};
ghost use Rattle.mh_model.specs.Looks as spec;
ghost use Rattle.mh_model.specs.Looks.{art_paint, paint_in, rectangle_paint, text_paint};
ghost use Rattle.mh_model.specs.Picture.{painted};
ghost use Rattle.mh_group.specs.declared.attribute.Attribute.TheVariants as attribute;
ghost use Rattle.mh_display.specs.Painting.{IsPainted};
ghost use Rattle.mh_display.specs.Panels.{IsFrame, area_of_frame};

use crate::art::paint_art;
use crate::frame::Frame;
use crate::panel::Panel;
use crate::panels::paint_panel;
use crate::screen::Screen;
use crate::spoiling::is_seen;
use crate::texts::{Ink, paint_text};
use crate::window::Window;
use mh_base::Area;
use mh_group::{Attribute, Class};
use mh_layout::Lines;
use mh_model::Object;
use mh_model::held::as_colour;
use mh_store::Boxed;
use mh_store::looks::{
    OPAQUE_WHITE, TRANSPARENT_BLACK, area_of, colour_of, fill_of, has_line, justification,
    line_colour_of, paint_of, shown_text, wraps,
};

/// Paints what was found for a reference, if it is painted at all.
pub(crate) fn paint_found(screen: &mut Screen, found: Option<&Boxed>)
    ensures { IsPainted (λ c. painted c (option_copied found.entry)) screen.old screen.new }
{
    if let Some(kept) = found {
        paint_seen(screen, kept.object(), kept.area());
    }
}

/// Paints an object, whose box this is, if it is available and runs.
fn paint_seen(screen: &mut Screen, object: &Object, area: &Area)
    requires { area.now ≡ spec.area_of object.now }
    ensures { IsPainted (λ c. painted c (Some object.now)) screen.old screen.new }
{
    if is_seen(object) {
        paint_stale(screen, object, area);
    }
}

/// Paints an object in whose box, which is this one, a cell is stale.
fn paint_stale(screen: &mut Screen, object: &Object, area: &Area)
    requires { area.now ≡ spec.area_of object.now }
    ensures { IsPainted (paint_in object.now) screen.old screen.new }
{
    let own = Window::of(&Frame::of(area));
    if screen.is_settled_in(&own) {
        return;
    }
    paint_object(screen, object, area);
}

/// Paints an object, whose box this is.
fn paint_object(screen: &mut Screen, object: &Object, area: &Area)
    requires { area.now ≡ spec.area_of object.now }
    ensures { IsPainted (paint_in object.now) screen.old screen.new }
{
    match object.fixed.get().class {
        Class::Rectangle => paint_rectangle(screen, object),
        Class::DynamicLineArt => paint_drawn(screen, object),
        _ => paint_letters(screen, object, area),
    }
}

fn paint_rectangle(screen: &mut Screen, object: &Object)
    ensures { let o = object.now in
        IsPainted (rectangle_paint (spec.area_of o) (spec.has_line o) (spec.line_colour_of o) (spec.fill_of o)) screen.old screen.new }
{
    paint_panel(screen, &panel_of(object), &Window::whole());
}

fn panel_of(object: &Object) -> Panel
    ensures near { IsFrame result.frame }
    ensures whole { let o = object.now in
        result ≡ record { frame = result.frame; has_line = spec.has_line o; line = spec.line_colour_of o; fill = spec.fill_of o } }
    ensures frame { area_of_frame result.frame ≡ spec.area_of object.now }
{
    Panel {
        frame: Frame::of(&area_of(object)),
        has_line: has_line(object),
        line: line_colour_of(object),
        fill: fill_of(object),
    }
}

fn paint_drawn(screen: &mut Screen, object: &Object)
    ensures { let o = object.now in IsPainted (art_paint (spec.area_of o) (spec.ground_of o) o.body.drawings) screen.old screen.new }
{
    let area = area_of(object);
    paint_art(
        screen,
        &area,
        ground_of(object),
        object.body.drawings.as_slice(),
    );
}

/// The fill colour that is written.
fn ground_of(object: &Object) -> Option<u32>
    ensures { result ≡ spec.ground_of object.now }
{
    let properties = &object.fixed.get().properties;
    paint_of(as_colour(
        properties.get(Attribute::OrigRefFillColour),
        TRANSPARENT_BLACK,
    ))
}

/// Paints the text of an object, whose box this is.
fn paint_letters(screen: &mut Screen, object: &Object, area: &Area)
    requires { area.now ≡ spec.area_of object.now }
    ensures { let o = object.now in
        let background = spec.colour_of attribute.BackgroundColour spec.transparent_black o in
        let colour = spec.colour_of attribute.TextColour spec.opaque_white o in
        IsPainted (text_paint (spec.area_of o) background colour (spec.lines_of o)) screen.old screen.new }
{
    let mut lines = lines_of(object, area);
    paint_text(screen, area, ink_of(object), &mut lines);
}

/// The lines of the object's text; none where it shows no text.
fn lines_of<'a>(object: &'a Object, area: &Area) -> Lines<'a>
    requires { area.now ≡ spec.area_of object.now }
    ensures { result ≡ spec.lines_of object.now }
{
    match shown_text(object) {
        Some(text) => Lines::of(text, area, wraps(object), justification(object)),
        None => Lines::none(),
    }
}

fn ink_of(object: &Object) -> Ink
    ensures { let o = object.now in
        result ≡ record {
          background = spec.colour_of attribute.BackgroundColour spec.transparent_black o;
          colour = spec.colour_of attribute.TextColour spec.opaque_white o;
        } }
{
    Ink {
        background: colour_of(object, Attribute::BackgroundColour, TRANSPARENT_BLACK),
        colour: colour_of(object, Attribute::TextColour, OPAQUE_WHITE),
    }
}
