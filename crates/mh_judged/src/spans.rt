//! What of a text is meant.
//!
//! Promise: each function answers what the definition of its name in `specs/Places` says.
ghost use Rattle.std.specs.Prelude.{◌≡◌, IfOk, drop, option_map};
ghost use Rattle.mh_text.specs.Marks.{mark_of as mark_of_lem};
ghost use Rattle.mh_judged.specs.Places as spec;

use mh_cause::Detail;
use mh_places::{Point, Span, span_at};
use mh_text::{Mark, mark_of, marks};
use mh_verify::Place;
use mh_why::explanation::place::values::{detail_in, value_size};
use mh_why::explanation::token::token_size;
use std::alloc::{AllocError, Global};

/// Nothing of a file in particular: its beginning.
pub(crate) fn beginning() -> Span
    ensures { result ≡ spec.beginning }
{
    let first = Point {
        byte: 0,
        line: 1,
        column: 1,
    };
    Span {
        start: first,
        end: first,
    }
}

pub(crate) fn span_or_beginning(span: Option<Span>) -> Span
    ensures { result ≡ spec.span_or_beginning span }
{
    match span {
        Some(span) => span,
        None => beginning(),
    }
}

/// The token that begins there.
#[tactic(auto, unfolding(crate::specs::Places::token_span))]
pub(crate) fn token_span(bytes: &[u8], start: usize) -> Span
    ensures { result ≡ spec.token_span bytes.now start }
{
    span_at(bytes, start, token_size(behind(bytes, start)))
}

fn behind(bytes: &[u8], start: usize) -> &[u8]
    ensures { result.now ≡ drop start bytes.now }
{
    bytes.get(start..).unwrap_or(&[])
}

/// This part of an action, or else the action; with the index 0, of the list of members.
#[tactic(auto, unfolding(crate::specs::Places::part_span))]
pub(crate) fn part_span(
    alloc: Global,
    place: &Place,
    detail: Detail,
    bytes: &[u8],
) -> Result<Option<Span>, AllocError>
    ensures { IfOk result (λ span. span ≡ spec.part_span place.now detail bytes.now) }
{
    let marks = marks(alloc, bytes)?;
    Ok(span_by(place, detail, bytes, marks.as_slice()))
}

/// The same, by the marks of the text.
pub(crate) fn span_by(place: &Place, detail: Detail, bytes: &[u8], marks: &[Mark]) -> Option<Span>
    ensures { result ≡ option_map (spec.detail_span detail bytes.now) (mark_of_lem marks.now place.now.object place.now.index) }
{
    match mark_of(marks, place.object, place.index) {
        Some(mark) => Some(detail_span(detail, bytes, &mark)),
        None => None,
    }
}

#[tactic(auto, unfolding(crate::specs::Places::detail_span))]
fn detail_span(detail: Detail, bytes: &[u8], mark: &Mark) -> Span
    ensures { result ≡ spec.detail_span detail bytes.now mark.now }
{
    rest_span(bytes, mark, detail_in(detail, behind(bytes, mark.start)))
}

/// The value with which what is left of the text begins; where nothing is left, the action.
fn rest_span(bytes: &[u8], mark: &Mark, rest: &[u8]) -> Span
    ensures { result ≡ spec.rest_span bytes.now mark.now rest.now }
{
    match rest {
        [] => span_at(bytes, mark.start, mark.length),
        _ => {
            let start = bytes.len().saturating_sub(rest.len());
            span_at(bytes, start, value_size(rest))
        }
    }
}
