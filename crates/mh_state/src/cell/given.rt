//! What an object paints into one cell: a colour behind it, and a character with its colour.
ghost use Rattle.std.specs.Prelude.{◌≡◌, ◌<◌, Some};
ghost use Rattle.std.specs.Option.{option_copied};
ghost use Rattle.mh_group.specs.declared.attribute.Attribute.TheVariants as attribute;
ghost use Rattle.mh_model.specs.Looks.{area_of, art_paint, colour_of, ground_of, has_line, fill_of, line_colour_of, lines_of, marked, opaque_white, paint_in, rectangle_paint, text_paint, transparent_black};
ghost use Rattle.mh_model.specs.Boxes.{column_of, row_of};
ghost use Rattle.mh_model.specs.Layout.{character_at};
ghost use Rattle.mh_model.specs.Picture.{is_seen, painted};
ghost use Rattle.mh_state.specs.Frames.{IsFrame, area_of_frame};
ghost use Rattle.mh_state.specs.Looking.{paint_of};

use crate::cell::art::drawn_over;
use crate::cell::frame::{Frame, Panel, back_of, covers};
use crate::cell::letters::character_of;
use mh_base::Area;
use mh_group::{Attribute, Class};
use mh_model::Object;
use mh_model::held::as_colour;
use mh_store::looks;
use mh_store::looks::{OPAQUE_WHITE, TRANSPARENT_BLACK, paint_of as paint_of_colour};

/// What is painted into a cell: a colour behind it, and a character with its colour.
#[derive(Clone, Copy)]
pub struct Given {
    pub back: Option<u32>,
    pub mark: Option<(u32, u32)>,
}

/// Nothing.
pub const NOTHING: Given = Given {
    back: None,
    mark: None,
};

/// What is painted into a cell for an object, if it is one.
pub fn given_by(found: Option<&Object>, cell: usize) -> Given
    requires inside { cell < 2160 }
    ensures { paint_of result ≡ painted cell (option_copied found.entry) }
{
    match found {
        Some(object) => given_if_seen(object, cell),
        None => NOTHING,
    }
}

fn given_if_seen(object: &Object, cell: usize) -> Given
    requires inside { cell < 2160 }
    ensures { paint_of result ≡ painted cell (Some object.now) }
{
    if is_seen(object) {
        given_in(object, cell)
    } else {
        NOTHING
    }
}

/// Whether the object is painted.
pub fn is_seen(object: &Object) -> bool
    ensures { result ≡ is_seen object.now }
{
    let class = object.fixed.get().class;
    class.is_visible() && object.body.available && object.body.running
}

/// What an object paints into a cell, by its class.
fn given_in(object: &Object, cell: usize) -> Given
    requires inside { cell < 2160 }
    ensures { paint_of result ≡ paint_in object.now cell }
{
    match object.fixed.get().class {
        Class::Rectangle => panel_in(object, cell),
        Class::DynamicLineArt => art_in(object, cell),
        _ => letters_in(object, cell),
    }
}

/// What a rectangle paints into a cell.
fn panel_in(object: &Object, cell: usize) -> Given
    requires inside { cell < 2160 }
    ensures { let o = object.now in
        paint_of result ≡ rectangle_paint (area_of o) (has_line o) (line_colour_of o) (fill_of o) cell }
{
    let back = back_of(&panel_of(object), cell);
    Given { back, mark: None }
}

fn panel_of(object: &Object) -> Panel
    ensures near { IsFrame result.frame }
    ensures whole { let o = object.now in
        result ≡ record { frame = result.frame; has_line = has_line o; line = line_colour_of o; fill = fill_of o } }
    ensures frame { area_of_frame result.frame ≡ area_of object.now }
{
    Panel {
        frame: Frame::of(&looks::area_of(object)),
        has_line: looks::has_line(object),
        line: looks::line_colour_of(object),
        fill: looks::fill_of(object),
    }
}

/// What drawings, and what lies behind them, paint into a cell.
fn art_in(object: &Object, cell: usize) -> Given
    requires inside { cell < 2160 }
    ensures { let o = object.now in paint_of result ≡ art_paint (area_of o) (ground_of o) o.body.drawings cell }
{
    let area = looks::area_of(object);
    if covers(&Frame::of(&area), cell) {
        let drawings = object.body.drawings.as_slice();
        let back = drawn_over(&area, drawings, cell, ground_of(object));
        Given { back, mark: None }
    } else {
        NOTHING
    }
}

/// The fill colour that is written.
fn ground_of(object: &Object) -> Option<u32>
    ensures { result ≡ ground_of object.now }
{
    let properties = &object.fixed.get().properties;
    paint_of_colour(as_colour(
        properties.get(Attribute::OrigRefFillColour),
        TRANSPARENT_BLACK,
    ))
}

/// What a text paints into a cell.
fn letters_in(object: &Object, cell: usize) -> Given
    requires inside { cell < 2160 }
    ensures { let o = object.now in
        let background = colour_of attribute.BackgroundColour transparent_black o in
        let colour = colour_of attribute.TextColour opaque_white o in
        paint_of result ≡ text_paint (area_of o) background colour (lines_of o) cell }
{
    let area = looks::area_of(object);
    if covers(&Frame::of(&area), cell) {
        letters_on(object, &area, cell)
    } else {
        NOTHING
    }
}

/// What a text paints into a cell that its box, which is this one, covers.
fn letters_on(object: &Object, area: &Area, cell: usize) -> Given
    requires own { area.now ≡ area_of object.now }
    requires inside { cell < 2160 }
    ensures back { result.back ≡ colour_of attribute.BackgroundColour transparent_black object.now }
    ensures mark { let o = object.now in
        result.mark ≡ marked (colour_of attribute.TextColour opaque_white o)
        (character_at (lines_of o) (area_of o) (column_of cell) (row_of cell)) }
{
    let colour = looks::colour_of(object, Attribute::TextColour, OPAQUE_WHITE);
    Given {
        back: looks::colour_of(object, Attribute::BackgroundColour, TRANSPARENT_BLACK),
        mark: marked(colour, character_of(object, area, cell)),
    }
}

/// A character with its colour, where there is a character and it has a colour.
fn marked(colour: Option<u32>, scalar: Option<u32>) -> Option<(u32, u32)>
    ensures { result ≡ marked colour scalar }
{
    let (colour, scalar) = (colour?, scalar?);
    Some((scalar, colour))
}
