//! Whether a text has room in its box.
//!
//! Promise: each function answers what the definition of its name in `specs/Sights` says.
ghost use Rattle.std.specs.Prelude.{◌≡◌, ◌≤◌, count_by, false, length};
ghost use Rattle.std.specs.List.{list_any, suffix_len};
ghost use Rattle.std.specs.Option.{option_copied};
ghost use Rattle.mh_model.specs.Property.{as_bool, as_octets, as_value, held};
ghost use Rattle.mh_lint.specs.Sights as spec;

use crate::sights::has_no_cell;
use bstr::ByteSlice;
use mh_base::{Area, Value};
use mh_group::{Attribute, Class};
use mh_model::held::{as_bool, as_value};
use mh_model::picture::boxes::{columns_of, rows_of};
use mh_model::{Fixed, Held};

fn takes_cell(character: u32) -> bool
    ensures { result ≡ spec.takes_cell character }
{
    0x20 <= character && !(0x7F <= character && character <= 0x9F)
}

fn is_ink(character: u32) -> bool
    ensures { result ≡ spec.is_ink character }
{
    takes_cell(character) && character != 0x20
}

/// How many characters are drawn into cells.
fn cells_in(bytes: &[u8]) -> usize
    ensures { result ≡ spec.cells_in bytes.now }
{
    bytes
        .chars()
        .filter(|character| takes_cell(*character as u32))
        .count()
}

/// How many of them are no spaces.
fn ink_in(bytes: &[u8]) -> usize
    ensures { result ≡ spec.ink_in bytes.now }
{
    bytes
        .chars()
        .filter(|character| is_ink(*character as u32))
        .count()
}

fn is_blank(byte: u8) -> bool
    ensures { result ≡ spec.is_blank byte }
{
    byte == b' ' || byte == b'\r'
}

/// How many blanks stand at the end.
fn blanks_behind(bytes: &[u8]) -> usize
    ensures count { result ≡ suffix_len spec.is_blank bytes.now }
    ensures within { result ≤ length bytes.now }
{
    bytes
        .iter()
        .rev()
        .take_while(|byte| is_blank(**byte))
        .count()
}

/// What is left without the blanks at the end.
fn trimmed(bytes: &[u8]) -> &[u8]
    ensures { result.now ≡ spec.trimmed bytes.now }
{
    &bytes[..bytes.len() - blanks_behind(bytes)]
}

fn returns_in(bytes: &[u8]) -> usize
    ensures { result ≡ count_by spec.is_return bytes.now }
{
    bytes.iter().filter(|byte| **byte == b'\r').count()
}

fn has_escape(bytes: &[u8]) -> bool
    ensures { result ≡ list_any spec.is_escape bytes.now }
{
    bytes.iter().any(|byte| *byte == 0x1B)
}

/// Whether so many characters want more lines of the width than there are.
fn overfill(count: usize, width: usize, height: usize) -> bool
    ensures { result ≡ spec.overfill count width height }
{
    if width == 0 {
        return true;
    }
    height < count / width || (count / width == height && count % width != 0)
}

/// Whether a text of one paragraph is longer than a line.
fn is_long(width: usize, bytes: &[u8]) -> bool
    ensures { result ≡ spec.is_long width bytes.now }
{
    returns_in(bytes) == 0 && width < cells_in(bytes)
}

/// Whether a text without blanks at its end has too many lines for the box, or one that is too long.
fn overflows(width: usize, height: usize, wraps: bool, bytes: &[u8]) -> bool
    ensures { result ≡ spec.overflows width height wraps bytes.now }
{
    if height <= returns_in(bytes) {
        return true;
    }
    if wraps {
        overfill(ink_in(bytes), width, height)
    } else {
        is_long(width, bytes)
    }
}

fn is_cut(area: &Area, wraps: bool, bytes: &[u8]) -> bool
    ensures { result ≡ spec.is_cut area.now wraps bytes.now }
{
    !has_no_cell(area)
        && !has_escape(bytes)
        && overflows(
            columns_of(area) as usize,
            rows_of(area) as usize,
            wraps,
            trimmed(bytes),
        )
}

fn octets_under(held: Option<&Held>) -> &[u8]
    ensures { result.now ≡ as_octets (as_value (option_copied held.entry)) }
{
    match as_value(held) {
        Some(Value::Octets(octets)) => octets.as_slice(),
        _ => &[],
    }
}

/// The text that is written.
fn words_of(part: &Fixed) -> &[u8]
    ensures { result.now ≡ spec.words_of part.now }
{
    match part.class {
        Class::PushButton => octets_under(part.properties.get(Attribute::OrigLabel)),
        _ => octets_under(part.properties.get(Attribute::OrigContent)),
    }
}

/// Whether the text that is written is cut by this box.
pub(crate) fn cuts_box(part: &Fixed, area: &Area) -> bool
    ensures { result ≡ spec.is_cut area.now (as_bool false (held Attribute.TextWrapping part.now.properties)) (spec.words_of part.now) }
{
    let wraps = as_bool(part.properties.get(Attribute::TextWrapping), false);
    is_cut(area, wraps, words_of(part))
}
