//! Places in a text that are counted one from another, so that those of a whole file cost what the file is long.
//!
//! Promise: a place is the one that `specs/Places` says, from wherever it is counted.
ghost use Rattle.std.specs.Prelude.{◌≡◌, ◌++◌, ◌≤◌, IfSome, List, ℕ, drop, length, take};
ghost use Rattle.std.specs.List.{suffix_len};
ghost use Rattle.bstr.specs.Utf8.{continues};
ghost use Rattle.mh_places.specs.Places.{is_no_feed, place_at as place_at_lem, place_behind};
ghost use Rattle.mh_places.specs.Counting as spec;

use crate::place::{Place, place_at};
use std::marker::Model;

/// Places in a text, each counted from the one that was asked for before: asked for in their order, all together cost what the
/// text is long. A contract sees the text.
#[derive(Drop)]
pub struct Counter<'a> {
    bytes: &'a [u8],
    known: Known,
}

impl<'a> Model for Counter<'a> {
    ghost use Rattle.std.specs.Prelude.{◌≡◌, List, ℕ};
    ghost use Rattle.mh_places.specs.Places.{place_at};

    ghost Value = { List ℕ };

    ghost view = { λ c. c.bytes.now };

    ghost invariant = { λ c. c.known.place ≡ place_at c.bytes.now c.known.offset };
}

impl<'a> Counter<'a> {
    /// The places in this text.
    pub fn of(bytes: &'a [u8]) -> Counter<'a>
        ensures { result ≡ bytes.now }
    {
        Counter {
            bytes,
            known: beginning(bytes),
        }
    }

    /// Where the byte with this number stands. It costs the bytes behind the place that was asked for before, or, where that
    /// stands behind this one, all bytes before this one.
    pub fn place_at(&mut self, offset: usize) -> Place
        ensures is { result ≡ place_at_lem self.old offset }
        ensures same { self.new ≡ self.old }
    {
        self.known = known_behind(self.bytes, self.known, offset);
        self.known.place
    }
}

/// A place that is known: so many bytes stand before it.
#[derive(Clone, Copy)]
pub(crate) struct Known {
    pub offset: usize,
    pub place: Place,
}

/// The beginning of a text.
pub(crate) fn beginning(bytes: &[u8]) -> Known
    ensures { result.place ≡ place_at_lem bytes.now result.offset }
{
    Known {
        offset: 0,
        place: place_at(bytes, 0),
    }
}

/// The place behind so many bytes.
pub(crate) fn known_behind(bytes: &[u8], known: Known, offset: usize) -> Known
    requires { known.place ≡ place_at_lem bytes.now known.offset }
    ensures there { result.offset ≡ offset }
    ensures is { result.place ≡ place_at_lem bytes.now result.offset }
{
    Known {
        offset,
        place: place_from(bytes, known, offset),
    }
}

#[tactic(auto, using(crate::proofs::CountingLemmas::rejoined))]
fn place_from(bytes: &[u8], known: Known, offset: usize) -> Place
    requires { known.place ≡ place_at_lem bytes.now known.offset }
    ensures { result ≡ place_at_lem bytes.now offset }
{
    if offset < known.offset {
        return place_at(bytes, offset);
    }
    match further(known.place, between(bytes, known.offset, offset)) {
        Some(place) => place,
        None => place_at(bytes, offset),
    }
}

/// Where these bytes end, which stand behind a place; none where that is not told without those before it.
#[tactic(auto, using(crate::proofs::CountingLemmas::other_line, crate::proofs::CountingLemmas::same_line))]
fn further(front: Place, more: &[u8]) -> Option<Place>
    ensures { (xs : List ℕ) → front ≡ place_behind xs → IfSome result (λ place. place ≡ place_behind (xs ++ more.now)) }
{
    let end = place_at(more, more.len());
    let line = front.line.checked_add(end.line.saturating_sub(1))?;
    if since_feed(more) != more.len() {
        return Some(Place {
            line,
            column: end.column,
        });
    }
    if !is_clean(more) {
        return None;
    }
    let column = front.column.checked_add(end.column.saturating_sub(1))?;
    Some(Place { line, column })
}

/// How many bytes stand behind the last line feed.
fn since_feed(bytes: &[u8]) -> usize
    ensures { result ≡ suffix_len is_no_feed bytes.now }
{
    bytes
        .iter()
        .rev()
        .take_while(|byte| **byte != b'\n')
        .count()
}

/// Whether no character that began before these bytes goes on in them.
fn is_clean(bytes: &[u8]) -> bool
    ensures { result ≡ spec.is_clean bytes.now }
{
    match bytes {
        [first, ..] => !continues(*first),
        [] => true,
    }
}

/// Whether the byte may continue a character.
fn continues(byte: u8) -> bool
    ensures { result ≡ continues byte }
{
    0x7f < byte && byte < 0xc0
}

/// The bytes between these two places.
fn between(bytes: &[u8], from: usize, to: usize) -> &[u8]
    ensures { result.now ≡ drop from (take to bytes.now) }
{
    behind(front_of(bytes, to), from)
}

fn front_of(bytes: &[u8], size: usize) -> &[u8]
    ensures { result.now ≡ take size bytes.now }
{
    bytes.get(..size).unwrap_or(bytes)
}

fn behind(bytes: &[u8], size: usize) -> &[u8]
    ensures { result.now ≡ drop size bytes.now }
{
    bytes.get(size..).unwrap_or(&[])
}
