//! `Span`: what of a text is meant.
//!
//! Promise: each function answers what the definition of its name in `specs/Spans` says.
ghost use Rattle.std.specs.Prelude.{◌≡◌, ◌+◌, length, min};
ghost use Rattle.mh_places.specs.Places.{place_at as place_at_lem};
ghost use Rattle.mh_places.specs.Spans as spec;

use crate::counting::{Known, beginning, known_behind};
use crate::place::Place;

/// A place in a text, and how many bytes stand in front of it.
#[derive(Clone, Copy)]
pub struct Point {
    pub byte: usize,
    /// From 1 on.
    pub line: usize,
    /// From 1 on. A column is a character.
    pub column: usize,
}

/// What of a text is meant.
#[derive(Clone, Copy)]
pub struct Span {
    pub start: Point,
    /// The place behind the last byte that is meant.
    pub end: Point,
}

impl Span {
    /// Where it begins.
    pub fn place(&self) -> Place
        ensures { result ≡ spec.place_of self.now }
    {
        Place {
            line: self.start.line,
            column: self.start.column,
        }
    }
}

/// So many bytes behind so many others; those that are there.
pub fn span_at(bytes: &[u8], start: usize, size: usize) -> Span
    ensures { result ≡ spec.span_at bytes.now start size }
{
    span_from(bytes, known_behind(bytes, beginning(bytes), start), size)
}

/// So many bytes behind a place that is known.
pub(crate) fn span_from(bytes: &[u8], known: Known, size: usize) -> Span
    requires { known.place ≡ place_at_lem bytes.now known.offset }
    ensures { result ≡ spec.span_at bytes.now known.offset size }
{
    let behind = known_behind(bytes, known, end_of(bytes, known.offset, size));
    let start = point_of(bytes, known);
    let end = point_of(bytes, behind);
    Span { start, end }
}

/// How many bytes stand in front of the end of so many behind so many others.
fn end_of(bytes: &[u8], start: usize, size: usize) -> usize
    ensures { result ≡ min (start + size) (length bytes.now) }
{
    match start.checked_add(size) {
        Some(end) => end.min(bytes.len()),
        None => bytes.len(),
    }
}

/// A place that is known, with the bytes in front of it.
#[tactic(auto, unfolding(crate::specs::Spans::point_at))]
fn point_of(bytes: &[u8], known: Known) -> Point
    requires { known.place ≡ place_at_lem bytes.now known.offset }
    ensures { result ≡ spec.point_at bytes.now known.offset }
{
    Point {
        byte: known.offset.min(bytes.len()),
        line: known.place.line,
        column: known.place.column,
    }
}
