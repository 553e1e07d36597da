//! `Limits`: between which limits a value lies that is wanted.
ghost use Rattle.std.specs.Prelude.{◌≡◌};
ghost use Rattle.mh_misread.specs.LimitsOf.{shape_limits, second_limits, part_limits, row_limits, kind_limits, limits_of};

use crate::goal::Goal;
use crate::part::{Part, Row, part_at};
use mh_base::Kind;
use mh_group::{Need, Shape};

/// Between which limits a value lies.
#[derive(Clone, Copy)]
pub enum Limits {
    /// Integers of 32 bits.
    Integers,
    /// Those from 0.
    Naturals,
    /// Those from 1.
    Positives,
    /// From 1 to 255.
    Lengths,
    /// The number of a group.
    Zero,
    /// The width of the screen.
    Width,
    /// The height of the screen.
    Height,
    /// Four octets.
    Colours,
}

/// The limits of what the goal wants.
#[tactic(auto, unfolding(crate::specs::LimitsOf::limits_of))]
pub(crate) fn limits_of(goal: Goal) -> Limits
    ensures { result ≡ limits_of goal }
{
    match goal {
        Goal::ItemNumber(_) => Limits::Positives,
        Goal::Value(class, attribute) => shape_limits(class.shape(attribute)),
        Goal::Second(class, attribute) => second_limits(class.shape(attribute)),
        Goal::Part(row, before) => row_limits(row, before),
        Goal::OfKind(kind) => kind_limits(kind),
        Goal::Variable => Limits::Naturals,
        _ => Limits::Integers,
    }
}

fn shape_limits(shape: Shape) -> Limits
    ensures { result ≡ shape_limits shape }
{
    match shape {
        Shape::Natural | Shape::Size | Shape::Ref => Limits::Naturals,
        Shape::Length => Limits::Lengths,
        Shape::Screen => Limits::Width,
        Shape::Colour => Limits::Colours,
        _ => Limits::Integers,
    }
}

fn second_limits(shape: Shape) -> Limits
    ensures { result ≡ second_limits shape }
{
    match shape {
        Shape::Size => Limits::Naturals,
        Shape::Screen => Limits::Height,
        _ => Limits::Integers,
    }
}

fn row_limits(row: Row, before: usize) -> Limits
    ensures { result ≡ row_limits row before }
{
    match part_at(row, before) {
        Some(part) => part_limits(part),
        None => Limits::Integers,
    }
}

fn part_limits(part: Part) -> Limits
    ensures { result ≡ part_limits part }
{
    match part {
        Part::Zero => Limits::Zero,
        Part::Number | Part::Object | Part::Target => Limits::Naturals,
        Part::Need(Need::Ref | Need::Receiver(_)) => Limits::Naturals,
        _ => Limits::Integers,
    }
}

fn kind_limits(kind: Kind) -> Limits
    ensures { result ≡ kind_limits kind }
{
    match kind {
        Kind::Object => Limits::Naturals,
        _ => Limits::Integers,
    }
}
