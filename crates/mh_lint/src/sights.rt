//! What a visible looks like as it is written, where nothing changes that.
//!
//! Promise: each function answers what the definition of its name in `specs/Sights` says.

pub(crate) mod words;

ghost use Rattle.std.specs.Prelude.{◌≡◌, ◌&&◌, ◌||◌, ◌+ℤ◌, int_le, pos};
ghost use Rattle.mh_model.specs.Looks.{area_by, opaque_white as opaque_white_lem, transparent_black as transparent_black_lem};
ghost use Rattle.mh_lint.specs.Sights as spec;

use crate::sights::words::cuts_box;
use crate::uses::Uses;
use mh_base::{Area, Colour};
use mh_group::{Attribute, Class};
use mh_model::Fixed;
use mh_model::held::{as_colour, as_pair};
use mh_model::picture::boxes::{columns_of, first_column, first_row, rows_of};

/// The columns of the screen.
const COLUMNS: i64 = 60;

/// The rows of the screen.
const ROWS: i64 = 36;

fn stays(uses: &Uses, part: &Fixed) -> bool
    ensures { result ≡ spec.stays uses.now part.now }
{
    !uses.moved.may_be(&part.key)
}

fn keeps_size(uses: &Uses, part: &Fixed) -> bool
    ensures { result ≡ spec.keeps_size uses.now part.now }
{
    !uses.resized.may_be(&part.key)
}

fn keeps_words(uses: &Uses, part: &Fixed) -> bool
    ensures { result ≡ spec.keeps_words uses.now part.now }
{
    !uses.reworded.may_be(&part.key)
}

fn keeps_colour(uses: &Uses, part: &Fixed) -> bool
    ensures { result ≡ spec.keeps_colour uses.now part.now }
{
    !uses.tinted.may_be(&part.key)
}

fn area_by(size: (i32, i32), position: (i32, i32)) -> Area
    ensures { result ≡ area_by size position }
{
    Area {
        x: position.0,
        y: position.1,
        width: size.0,
        height: size.1,
    }
}

/// The box as it is written.
pub(crate) fn box_of(part: &Fixed) -> Area
    ensures { result ≡ spec.box part.now }
{
    let size = as_pair(part.properties.get(Attribute::OrigBoxSize));
    let position = as_pair(part.properties.get(Attribute::OrigPosition));
    area_by(size, position)
}

fn begins_off(area: &Area) -> bool
    ensures { result ≡ spec.begins_off area.now }
{
    COLUMNS <= first_column(area) || ROWS <= first_row(area)
}

/// Whether what ends there ends at the edge or before it.
fn is_before(end: i64) -> bool
    ensures { result ≡ int_le end (pos 0) }
{
    end <= 0
}

fn ends_left(area: &Area) -> bool
    ensures { result ≡ int_le (area.now.x +ℤ area.now.width) (pos 0) }
{
    is_before(i64::from(area.x) + i64::from(area.width))
}

fn ends_above(area: &Area) -> bool
    ensures { result ≡ int_le (area.now.y +ℤ area.now.height) (pos 0) }
{
    is_before(i64::from(area.y) + i64::from(area.height))
}

fn ends_off(area: &Area) -> bool
    ensures { result ≡ spec.ends_off area.now }
{
    ends_left(area) || ends_above(area)
}

fn lies_off(uses: &Uses, part: &Fixed, area: &Area) -> bool
    ensures { result ≡ (spec.begins_off area.now || (spec.keeps_size uses.now part.now && spec.ends_off area.now)) }
{
    begins_off(area) || (keeps_size(uses, part) && ends_off(area))
}

/// Whether it is a visible off the screen that stays there.
pub(crate) fn is_off(uses: &Uses, part: &Fixed) -> bool
    ensures { result ≡ spec.is_off uses.now part.now }
{
    part.class.is_visible() && stays(uses, part) && lies_off(uses, part, &box_of(part))
}

pub(crate) fn has_no_cell(area: &Area) -> bool
    ensures { result ≡ spec.has_no_cell area.now }
{
    columns_of(area) == 0 || rows_of(area) == 0
}

/// Whether it is a visible that never covers a cell.
pub(crate) fn covers_none(uses: &Uses, part: &Fixed) -> bool
    ensures { result ≡ spec.covers_none uses.now part.now }
{
    part.class.is_visible()
        && stays(uses, part)
        && keeps_size(uses, part)
        && has_no_cell(&box_of(part))
}

fn tells_words(class: Class) -> bool
    ensures { result ≡ spec.tells_words class }
{
    matches!(class, Class::Text | Class::PushButton)
}

/// Whether its text is cut, and stays so.
pub(crate) fn cuts_words(uses: &Uses, part: &Fixed) -> bool
    ensures { result ≡ spec.cuts_words uses.now part.now }
{
    tells_words(part.class)
        && stays(uses, part)
        && keeps_size(uses, part)
        && keeps_words(uses, part)
        && cuts_box(part, &box_of(part))
}

fn is_opaque(colour: Colour) -> bool
    ensures { result ≡ spec.is_opaque colour }
{
    colour.transparency != 255
}

fn same_light(first: Colour, second: Colour) -> bool
    ensures { result ≡ spec.same_light first second }
{
    first.red == second.red && first.green == second.green && first.blue == second.blue
}

fn hides_in(text: Colour, back: Colour) -> bool
    ensures { result ≡ spec.hides_in text back }
{
    is_opaque(text) && is_opaque(back) && same_light(text, back)
}

fn opaque_white() -> Colour
    ensures { result ≡ opaque_white_lem }
{
    Colour {
        red: 255,
        green: 255,
        blue: 255,
        transparency: 0,
    }
}

fn transparent_black() -> Colour
    ensures { result ≡ transparent_black_lem }
{
    Colour {
        red: 0,
        green: 0,
        blue: 0,
        transparency: 255,
    }
}

/// Whether its text has the colour that lies behind it, and keeps that.
pub(crate) fn hides_words(uses: &Uses, part: &Fixed) -> bool
    ensures { result ≡ spec.hides_words uses.now part.now }
{
    part.class.shows_text()
        && keeps_colour(uses, part)
        && hides_in(
            as_colour(part.properties.get(Attribute::TextColour), opaque_white()),
            as_colour(
                part.properties.get(Attribute::BackgroundColour),
                transparent_black(),
            ),
        )
}
