//! The line and the column of a byte.
ghost use Rattle.std.specs.Prelude.{◌≡◌, ◌≤◌, ◌+◌, ◌==◌, ◌++◌, OnOk, count_by, length, take};
ghost use Rattle.std.specs.List.{suffix_len};
ghost use Rattle.bstr.specs.Utf8.{lossy_chars};
ghost use Rattle.mh_places.specs.Places as spec;

use bstr::ByteSlice;
use mh_told::text::Text;
use std::alloc::AllocError;

/// A place in a text: the line and the column, both from 1 on. A column is a character.
#[derive(Clone, Copy)]
pub struct Place {
    pub line: usize,
    pub column: usize,
}

/// The place of the byte with this number, or of the end where there are fewer.
pub fn place_at(bytes: &[u8], offset: usize) -> Place
    ensures { result ≡ spec.place_at bytes.now offset }
{
    place_behind(front_of(bytes, offset))
}

/// Puts the line and the column, with a colon between them.
#[tactic(auto, unfolding(crate::specs::Places::place_text))]
pub fn put_place(text: &mut Text, place: Place) -> Result<(), AllocError>
    ensures { OnOk result (text.new ≡ text.old ++ spec.place_text place) }
{
    text.put_number(place.line as u64)?;
    text.put(b":")?;
    text.put_number(place.column as u64)
}

/// The line that ends there.
fn line_behind(front: &[u8]) -> usize
    ensures { result ≡ 1 + count_by (λ b. b == 10) front.now }
{
    1 + front.iter().filter(|byte| **byte == b'\n').count()
}

/// The column, from 1 on, that stands behind these bytes.
fn column_behind(front: &[u8]) -> usize
    ensures { result ≡ 1 + length (lossy_chars (spec.last_line front.now)) }
{
    1 + characters_in(last_line(front))
}

fn characters_in(bytes: &[u8]) -> usize
    ensures exact { result ≡ length (lossy_chars bytes.now) }
    ensures within { result ≤ length bytes.now }
{
    bytes.chars().count()
}

/// What stands behind the last line feed.
fn last_line(front: &[u8]) -> &[u8]
    ensures { result.now ≡ spec.last_line front.now }
{
    &front[front.len() - since_feed(front)..]
}

/// How many bytes stand behind the last line feed.
fn since_feed(front: &[u8]) -> usize
    ensures count { result ≡ suffix_len spec.is_no_feed front.now }
    ensures within { result ≤ length front.now }
{
    front
        .iter()
        .rev()
        .take_while(|byte| **byte != b'\n')
        .count()
}

/// Where these bytes end.
fn place_behind(front: &[u8]) -> Place
    ensures { result ≡ spec.place_behind front.now }
{
    Place {
        line: line_behind(front),
        column: column_behind(front),
    }
}

/// The first so many bytes, or all where there are fewer.
fn front_of(bytes: &[u8], size: usize) -> &[u8]
    ensures { result.now ≡ take size bytes.now }
{
    bytes.get(..size).unwrap_or(bytes)
}
