//! The reader of an attribute's value, by its shape.
ghost use Rattle.mh_text.specs.Gives.{Gives};
ghost use Rattle.mh_text.specs.Reading.{setting, setting_at, single, pair, part};

use crate::form::Form;
use crate::place::{Piece, Place};
use crate::several::several;
use crate::value::{
    colour_of, data_of, event_of, field_length_of, fixed_of, integer_of, justification_of,
    natural_of, octets_of, truth_of,
};
use crate::value_form::{AnyContent, AnyReference, ContentName};
use crate::{TextError, Why};
use mh_group::{Setting, Shape};
use std::alloc::Global;

/// The value of this shape.
#[tactic(auto, unfolding(crate::specs::Reading::setting))]
pub(crate) fn setting(
    alloc: Global,
    shape: Shape,
    place: &mut Place<'_>,
) -> Result<Setting, TextError>
    ensures { Gives (λ x. (x, place.new)) result (setting shape place.old) }
{
    let piece = place.next()?;
    setting_at(alloc, shape, &piece, place)
}

/// The value of this shape, which begins with this token.
#[tactic(auto, unfolding(crate::specs::Reading::setting_at))]
fn setting_at(
    alloc: Global,
    shape: Shape,
    piece: &Piece<'_>,
    place: &mut Place<'_>,
) -> Result<Setting, TextError>
    ensures { Gives (λ x. (x, place.new)) result (setting_at shape piece.now place.old) }
{
    match shape {
        Shape::Ref => AnyReference::read(alloc, piece, place).map(Setting::Ref),
        Shape::Pair | Shape::Size | Shape::Screen => pair(shape, piece, place),
        Shape::Content => AnyContent::read(alloc, piece, place).map(Setting::Content),
        Shape::ContentRef => ContentName::read(alloc, piece, place).map(Setting::ContentRef),
        Shape::Effect
        | Shape::MovementTable
        | Shape::Members
        | Shape::ListItems
        | Shape::Positions
        | Shape::NextScenes => several(alloc, shape, piece, place),
        _ => {
            let value = single(alloc, shape, piece)?;
            Ok(value)
        }
    }
}

/// The value of a shape of one token.
#[tactic(auto, unfolding(crate::specs::Reading::single))]
fn single(alloc: Global, shape: Shape, piece: &Piece<'_>) -> Result<Setting, TextError>
    ensures { Gives (λ x. x) result (single shape piece.now) }
{
    match shape {
        Shape::Bool => truth_of(piece).map(Setting::Bool),
        Shape::Int => integer_of(piece).map(Setting::Int),
        Shape::Natural => natural_of(piece).map(Setting::Int),
        Shape::Length => field_length_of(piece).map(Setting::Int),
        Shape::Event => event_of(piece).map(Setting::Event),
        Shape::Data => data_of(piece).map(Setting::Data),
        Shape::Octets => octets_of(alloc, piece).map(Setting::Octets),
        Shape::Colour => colour_of(alloc, piece).map(Setting::Colour),
        Shape::Justification => justification_of(piece).map(Setting::Justification),
        _ => Err(piece.refused(Why::Syntax)),
    }
}

/// The two integers of a shape, of which the first is this token.
#[tactic(auto, unfolding(crate::specs::Reading::pair))]
fn pair(shape: Shape, piece: &Piece<'_>, place: &mut Place<'_>) -> Result<Setting, TextError>
    ensures { Gives (λ x. (x, place.new)) result (pair shape piece.now place.old) }
{
    let first = part(shape, 720, piece)?;
    let piece = place.next()?;
    let second = part(shape, 576, &piece)?;
    Ok(Setting::Pair(first, second))
}

/// One integer of a pair; the screen's has one value.
#[tactic(auto, unfolding(crate::specs::Reading::part))]
fn part(shape: Shape, screen: i32, piece: &Piece<'_>) -> Result<i32, TextError>
    ensures { Gives (λ x. x) result (part shape screen piece.now) }
{
    match shape {
        Shape::Size => natural_of(piece),
        Shape::Screen => fixed_of(screen, piece),
        _ => integer_of(piece),
    }
}
