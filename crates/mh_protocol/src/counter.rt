//! `Counter`: places of a text that are counted one from another, so that those of a whole text cost what it is long.
ghost use Rattle.std.specs.Prelude.{◌≡◌, IfSome};
ghost use Rattle.mh_protocol.specs.Positions.{position_in};
ghost use Rattle.mh_protocol.specs.Counting as spec;

use crate::edit::Range;
use crate::position::{Position, Unit, behind, position_at};
use std::marker::Model;

/// Places in a text, each counted from the one that was asked for before: asked for in their order, all together cost what the
/// text is long. A contract sees the unit and the text.
#[derive(Drop)]
pub struct Counter<'a> {
    unit: Unit,
    text: &'a [u8],
    known: Known,
}

/// A place that is known: so many bytes stand in front of it.
#[derive(Clone, Copy)]
struct Known {
    offset: usize,
    at: Position,
}

impl<'a> Model for Counter<'a> {
    ghost use Rattle.std.specs.Prelude.{◌≡◌, ℕ, List};
    ghost use Rattle.mh_protocol.specs.declared.position.Unit.{Unit};
    ghost use Rattle.mh_protocol.specs.Positions.{position_in};

    ghost Value = { Unit × List ℕ };

    ghost view = { λ c. (c.unit, c.text.now) };

    ghost invariant = { λ c. c.known.at ≡ position_in c.unit c.known.offset c.text.now };
}

impl<'a> Counter<'a> {
    /// The places in this text.
    pub fn of(unit: Unit, text: &'a [u8]) -> Counter<'a>
        ensures { result ≡ (unit, text.now) }
    {
        let known = Known {
            offset: 0,
            at: position_at(unit, text, 0),
        };
        Counter { unit, text, known }
    }

    /// The place behind so many bytes.
    pub fn place_at(&mut self, offset: usize) -> Position
        ensures is { result ≡ position_in self.old.0 offset self.old.1 }
        ensures same { self.new ≡ self.old }
    {
        let at = place_from(self.unit, self.text, self.known, offset);
        self.known = Known { offset, at };
        at
    }

    /// The range of so many bytes behind so many others.
    pub fn range_at(&mut self, start: usize, length: usize) -> Range
        ensures is { result ≡ spec.range_in self.old.0 start length self.old.1 }
        ensures same { self.new ≡ self.old }
    {
        let end = start.saturating_add(length);
        let start = self.place_at(start);
        Range {
            start,
            end: self.place_at(end),
        }
    }
}

#[tactic(auto, using(crate::proofs::CountingLemmas::joined))]
fn place_from(unit: Unit, text: &[u8], known: Known, offset: usize) -> Position
    requires { known.at ≡ position_in unit known.offset text.now }
    ensures { result ≡ position_in unit offset text.now }
{
    if offset < known.offset {
        return position_at(unit, text, offset);
    }
    let more = position_at(unit, behind(text, known.offset), offset - known.offset);
    match onto(known.at, more) {
        Some(at) => at,
        None => position_at(unit, text, offset),
    }
}

/// The place that is counted from another.
#[tactic(auto, unfolding(crate::specs::Counting::onto))]
fn onto(front: Position, more: Position) -> Option<Position>
    ensures { IfSome result (λ at. at ≡ spec.onto front more) }
{
    let line = front.line.checked_add(more.line)?;
    if more.line != 0 {
        return Some(Position {
            line,
            character: more.character,
        });
    }
    let character = front.character.checked_add(more.character)?;
    Some(Position { line, character })
}
