//! Readers of values that are one token, or nearly so: names, numbers, truth values, octets, colours.
//! Each takes the token at which the value begins, and where it reads on, the place behind that token.
ghost use Rattle.std.specs.Prelude.{◌≡◌, pos, ◌≤ℤ◌, IfOk};
ghost use Rattle.mh_text.specs.Gives.{Gives};
ghost use Rattle.mh_text.specs.Reading.{name_of, integer_of, natural_of, field_length_of, fixed_of, number_of, ingredient_number_of, truth_of, event_of, justification_of, data_of, octets_of, colour_of, named_reference};

use crate::octet_text::unescaped;
use crate::place::{Piece, Place};
use crate::sign::Sign;
use crate::{TextError, Why};
use mh_base::{Colour, EventType, Octets};
use mh_group::{EventData, Justification, Number, Ref, WrittenName};
use std::alloc::Global;

#[tactic(auto, unfolding(crate::specs::Reading::name_of))]
pub(crate) fn name_of(alloc: Global, piece: &Piece<'_>) -> Result<WrittenName, TextError>
    ensures { Gives (λ x. x) result (name_of piece.now) }
{
    let Sign::Text = piece.sign() else {
        return Err(piece.refused(Why::Syntax));
    };
    let bytes = Vec::from_slice(alloc, piece.inner())?;
    match WrittenName::new(bytes) {
        Some(name) => Ok(name),
        None => Err(piece.refused(Why::Lexical)),
    }
}

#[tactic(auto, unfolding(crate::specs::Reading::integer_of))]
pub(crate) fn integer_of(piece: &Piece<'_>) -> Result<i32, TextError>
    ensures { Gives (λ x. x) result (integer_of piece.now) }
{
    match piece.sign() {
        Sign::Integer(value) => Ok(value),
        _ => Err(piece.refused(Why::Syntax)),
    }
}

/// An integer from 0.
#[tactic(auto, unfolding(crate::specs::Reading::natural_of))]
pub(crate) fn natural_of(piece: &Piece<'_>) -> Result<i32, TextError>
    ensures exact { Gives (λ x. x) result (natural_of piece.now) }
    ensures natural { IfOk result (λ x. pos 0 ≤ℤ x) }
{
    let value = integer_of(piece)?;
    if value < 0 {
        return Err(piece.refused(Why::Range));
    }
    Ok(value)
}

/// The length of an entry field, from 1 to 255.
#[tactic(auto, unfolding(crate::specs::Reading::field_length_of))]
pub(crate) fn field_length_of(piece: &Piece<'_>) -> Result<i32, TextError>
    ensures { Gives (λ x. x) result (field_length_of piece.now) }
{
    let value = integer_of(piece)?;
    if value < 1 || 255 < value {
        return Err(piece.refused(Why::Range));
    }
    Ok(value)
}

/// This integer and no other.
#[tactic(auto, unfolding(crate::specs::Reading::fixed_of))]
pub(crate) fn fixed_of(wanted: i32, piece: &Piece<'_>) -> Result<i32, TextError>
    ensures { Gives (λ x. x) result (fixed_of wanted piece.now) }
{
    let value = integer_of(piece)?;
    if value != wanted {
        return Err(piece.refused(Why::Range));
    }
    Ok(value)
}

/// The number of an object, from 0.
#[tactic(auto, unfolding(crate::specs::Reading::number_of))]
pub(crate) fn number_of(piece: &Piece<'_>) -> Result<Number, TextError>
    ensures { Gives (λ x. x) result (number_of piece.now) }
{
    let value = natural_of(piece)?;
    match Number::new(value.unsigned_abs()) {
        Some(number) => Ok(number),
        None => unreachable!(),
    }
}

/// The number of an ingredient, from 1.
#[tactic(auto, unfolding(crate::specs::Reading::ingredient_number_of))]
pub(crate) fn ingredient_number_of(piece: &Piece<'_>) -> Result<Number, TextError>
    ensures { Gives (λ x. x) result (ingredient_number_of piece.now) }
{
    let number = number_of(piece)?;
    if number.get() == 0 {
        return Err(piece.refused(Why::Range));
    }
    Ok(number)
}

#[tactic(auto, unfolding(crate::specs::Reading::truth_of))]
pub(crate) fn truth_of(piece: &Piece<'_>) -> Result<bool, TextError>
    ensures { Gives (λ x. x) result (truth_of piece.now) }
{
    match piece.sign() {
        Sign::Truth(value) => Ok(value),
        _ => Err(piece.refused(Why::Syntax)),
    }
}

#[tactic(auto, unfolding(crate::specs::Reading::event_of))]
pub(crate) fn event_of(piece: &Piece<'_>) -> Result<EventType, TextError>
    ensures { Gives (λ x. x) result (event_of piece.now) }
{
    match piece.sign() {
        Sign::Event(event) => Ok(event),
        _ => Err(piece.refused(Why::Syntax)),
    }
}

#[tactic(auto, unfolding(crate::specs::Reading::justification_of))]
pub(crate) fn justification_of(piece: &Piece<'_>) -> Result<Justification, TextError>
    ensures { Gives (λ x. x) result (justification_of piece.now) }
{
    match piece.sign() {
        Sign::Justification(justification) => Ok(justification),
        _ => Err(piece.refused(Why::Syntax)),
    }
}

/// The data of an event: a truth value or an integer.
#[tactic(auto, unfolding(crate::specs::Reading::data_of))]
pub(crate) fn data_of(piece: &Piece<'_>) -> Result<EventData, TextError>
    ensures { Gives (λ x. x) result (data_of piece.now) }
{
    match piece.sign() {
        Sign::Truth(value) => Ok(EventData::Bool(value)),
        Sign::Integer(value) => Ok(EventData::Int(value)),
        _ => Err(piece.refused(Why::Syntax)),
    }
}

#[tactic(auto, unfolding(crate::specs::Reading::octets_of))]
pub(crate) fn octets_of(alloc: Global, piece: &Piece<'_>) -> Result<Octets, TextError>
    ensures { Gives (λ x. x) result (octets_of piece.now) }
{
    match piece.sign() {
        Sign::Text => Ok(Octets::from_slice(alloc, piece.inner())?),
        Sign::Quoted => Ok(Octets::from_vec(alloc, unescaped(alloc, piece.inner())?)?),
        _ => Err(piece.refused(Why::Syntax)),
    }
}

/// A colour: four octets.
#[tactic(auto, unfolding(crate::specs::Reading::colour_of))]
pub(crate) fn colour_of(alloc: Global, piece: &Piece<'_>) -> Result<Colour, TextError>
    ensures { Gives (λ x. x) result (colour_of piece.now) }
{
    let octets = octets_of(alloc, piece)?;
    let [red, green, blue, transparency] = octets.as_slice() else {
        return Err(piece.refused(Why::Range));
    };
    Ok(Colour {
        red: *red,
        green: *green,
        blue: *blue,
        transparency: *transparency,
    })
}

/// What stands behind the opening parenthesis of a reference with a name.
#[tactic(auto, unfolding(crate::specs::Reading::named_reference))]
pub(crate) fn named_reference(alloc: Global, place: &mut Place<'_>) -> Result<Ref, TextError>
    ensures { Gives (λ x. (x, place.new)) result (named_reference place.old) }
{
    let piece = place.next()?;
    let name = name_of(alloc, &piece)?;
    let piece = place.next()?;
    let number = number_of(&piece)?;
    place.closed()?;
    Ok(Ref::In(name, number))
}
