//! What an object says of its box, of the lay-out of its text, and of its colours.
ghost use Rattle.std.specs.Prelude.{◌≡◌, false};
ghost use Rattle.std.specs.Option.{option_copied};
ghost use Rattle.mh_group.specs.declared.attribute.Attribute.TheVariants as attribute;
ghost use Rattle.mh_model.specs.Looks.{area_of, has_line, line_colour_of, fill_of, colour_of, label_of, shown_text, paint_of};
ghost use Rattle.mh_group.specs.Table.{is_push_button};
ghost use Rattle.mh_model.specs.Property.{read, as_bool, as_justification};

use mh_base::{Area, Colour, Value};
use mh_group::{Attribute, Class, Justification};
use mh_model::held::{as_bool, as_colour, as_int, as_justification, as_pair};
use mh_model::{Held, Object};

/// The box of a visible.
pub fn area_of(object: &Object) -> Area
    ensures { result ≡ area_of object.now }
{
    let (width, height) = as_pair(object.read(Attribute::OrigBoxSize));
    let (x, y) = as_pair(object.read(Attribute::OrigPosition));
    Area {
        x,
        y,
        width,
        height,
    }
}

/// Whether lines of its text that are too long are broken (ISO/IEC 13522-5, TextWrapping).
pub fn wraps(object: &Object) -> bool
    ensures { result ≡ as_bool false (read attribute.TextWrapping object.now) }
{
    as_bool(object.read(Attribute::TextWrapping), false)
}

/// Where the lines of its text begin (ISO/IEC 13522-5, HJustification).
pub fn justification(object: &Object) -> Justification
    ensures { result ≡ as_justification (read attribute.HJustification object.now) }
{
    as_justification(object.read(Attribute::HJustification))
}

/// What a push button is labelled with (ISO/IEC 13522-5, OrigLabel); of any other object nothing.
pub fn label_of(object: &Object) -> &[u8]
    ensures { result.now ≡ label_of object.now.fixed object.now.body }
{
    match object.read(Attribute::OrigLabel) {
        Some(Held::Value(Value::Octets(label))) => label.as_slice(),
        _ => &[],
    }
}

/// The text that the object shows: of a push button its label, of any other what was loaded.
pub fn shown_text(object: &Object) -> Option<&[u8]>
    ensures { option_copied result ≡ shown_text object.now }
{
    if is_push_button(object.fixed.get().class) {
        return Some(label_of(object));
    }
    match &object.body.text {
        Some(text) => Some(text.as_slice()),
        None => None,
    }
}

pub fn is_push_button(class: Class) -> bool
    ensures { result ≡ is_push_button class }
{
    matches!(class, Class::PushButton)
}

pub const OPAQUE_BLACK: Colour = Colour {
    red: 0,
    green: 0,
    blue: 0,
    transparency: 0,
};

pub const OPAQUE_WHITE: Colour = Colour {
    red: 255,
    green: 255,
    blue: 255,
    transparency: 0,
};

pub const TRANSPARENT_BLACK: Colour = Colour {
    red: 0,
    green: 0,
    blue: 0,
    transparency: 255,
};

/// Whether its edge is drawn (ISO/IEC 13522-5, OrigLineWidth).
pub fn has_line(object: &Object) -> bool
    ensures { result ≡ has_line object.now }
{
    0 < as_int(object.read(Attribute::OrigLineWidth), 1)
}

/// The colour of its edge (ISO/IEC 13522-5, OrigRefLineColour); none where it paints nothing.
pub fn line_colour_of(object: &Object) -> Option<u32>
    ensures { result ≡ line_colour_of object.now }
{
    colour_of(object, Attribute::OrigRefLineColour, OPAQUE_BLACK)
}

/// The colour of its inside (ISO/IEC 13522-5, OrigRefFillColour); none where it paints nothing.
pub fn fill_of(object: &Object) -> Option<u32>
    ensures { result ≡ fill_of object.now }
{
    colour_of(object, Attribute::OrigRefFillColour, TRANSPARENT_BLACK)
}

/// The colour under the attribute; none where it paints nothing.
pub fn colour_of(object: &Object, attribute: Attribute, default: Colour) -> Option<u32>
    ensures { result ≡ colour_of attribute default object.now }
{
    paint_of(as_colour(object.read(attribute), default))
}

/// The colour as a number of 24 bits. Transparency 255 paints nothing, every other one paints opaquely.
pub fn paint_of(colour: Colour) -> Option<u32>
    ensures { result ≡ paint_of colour }
{
    if colour.transparency == 255 {
        None
    } else {
        Some(u32::from(colour.red) * 65536 + u32::from(colour.green) * 256 + u32::from(colour.blue))
    }
}
