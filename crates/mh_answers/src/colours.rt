//! The colours of a file: octets that stand where a colour is wanted.
ghost use Rattle.std.specs.Prelude.{◌<◌, IfSome};

use crate::objects::spots_in;
use crate::renaming::edit_value;
use mh_edit::{Extent, Sense, Spot, text_of};
use mh_group::{ActionName, Attribute};
use mh_protocol::{Counter, Range, Unit, range_value};
use serde_json::{Value, json, push};
use std::alloc::{AllocError, Global};

/// The colours, each with its place.
pub fn colours_in(alloc: Global, unit: Unit, bytes: &[u8]) -> Result<Value, AllocError> {
    let spots = spots_in(alloc, bytes)?;
    let mut found = Vec::new(alloc);
    push_colours(alloc, &mut found, unit, bytes, spots.as_slice())?;
    Ok(Value::Array(found))
}

fn push_colours(
    alloc: Global,
    found: &mut Vec<Value>,
    unit: Unit,
    bytes: &[u8],
    spots: &[Spot],
) -> Result<(), AllocError> {
    let mut places = Counter::of(unit, bytes);
    let mut is_wanted = false;
    for spot in spots {
        is_wanted = wants_colour(is_wanted, spot.sense);
        if is_wanted {
            push_colour(alloc, found, &mut places, spot.at, text_of(bytes, spot.at))?;
        }
    }
    Ok(())
}

/// Whether a colour is wanted behind this token.
fn wants_colour(was_wanted: bool, sense: Sense) -> bool {
    match sense {
        Sense::Attribute(attribute) => matches!(
            attribute,
            Attribute::OrigRefLineColour
                | Attribute::OrigRefFillColour
                | Attribute::TextColour
                | Attribute::BackgroundColour
        ),
        Sense::Action(action) => matches!(
            action,
            ActionName::SetFillColour | ActionName::SetLineColour | ActionName::SetTextColour
        ),
        _ => was_wanted,
    }
}

/// Pushes the colour that a token writes, if it writes one.
fn push_colour(
    alloc: Global,
    found: &mut Vec<Value>,
    places: &mut Counter<'_>,
    at: Extent,
    token: &[u8],
) -> Result<(), AllocError> {
    let Some(octets) = octets_of(token) else {
        return Ok(());
    };
    let range = places.range_at(at.start, at.length);
    push(found, colour_value(alloc, octets, range)?)
}

fn colour_value(alloc: Global, octets: [u8; 4], range: Range) -> Result<Value, AllocError> {
    let [red, green, blue, transparency] = octets;
    let range = range_value(alloc, range)?;
    let parts = parts_value(alloc, [red, green, blue, 255 - transparency])?;
    json!(in alloc; {"color": parts, "range": range})
}

/// Parts of light from 0 to 1, the last of which is how opaque it is.
fn parts_value(alloc: Global, parts: [u8; 4]) -> Result<Value, AllocError> {
    let [red, green, blue, alpha] = parts;
    json!(in alloc; {
        "alpha": part_of(alpha), "blue": part_of(blue), "green": part_of(green), "red": part_of(red)
    })
}

fn part_of(octet: u8) -> f64 {
    f64::from(octet) / 255.0
}

/// The four octets of a token in which each is written as a number.
pub(crate) fn octets_of(token: &[u8]) -> Option<[u8; 4]> {
    let (red, behind) = octet_in(inner_of(token)?)?;
    let (green, behind) = octet_in(behind)?;
    let (blue, behind) = octet_in(behind)?;
    let (transparency, behind) = octet_in(behind)?;
    if behind.is_empty() {
        Some([red, green, blue, transparency])
    } else {
        None
    }
}

/// What stands between the marks.
fn inner_of(token: &[u8]) -> Option<&[u8]> {
    match token {
        [b'\'', inner @ .., b'\''] => Some(inner),
        _ => None,
    }
}

/// The octet at the front, and what is left behind it.
fn octet_in(bytes: &[u8]) -> Option<(u8, &[u8])> {
    match bytes {
        [b'=', first, second, behind @ ..] => Some((octet_of(*first, *second)?, behind)),
        _ => None,
    }
}

fn octet_of(first: u8, second: u8) -> Option<u8> {
    Some(digit_of(first)? * 16 + digit_of(second)?)
}

fn digit_of(byte: u8) -> Option<u8>
    ensures { IfSome result (λ digit. digit < 16) }
{
    match byte {
        b'0'..=b'9' => Some(byte - b'0'),
        b'A'..=b'F' => Some(byte - b'A' + 10),
        b'a'..=b'f' => Some(byte - b'a' + 10),
        _ => None,
    }
}

/// How a colour is written of these parts, from 0 to 255, and the edit that writes it.
pub fn colour_text(alloc: Global, parts: [u8; 4], range: Range) -> Result<Value, AllocError> {
    let [red, green, blue, alpha] = parts;
    let transparency = 255 - alpha;
    let text = format!(in alloc; "'={red:02X}={green:02X}={blue:02X}={transparency:02X}'")?;
    let edit = edit_value(alloc, range, text.as_str())?;
    let label = text.as_str();
    json!(in alloc; [{"label": label, "textEdit": edit}])
}
