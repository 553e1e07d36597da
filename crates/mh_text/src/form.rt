//! `Form`: a way in which values are written, told by its reader; and what is made of any form: lists of
//! values, and values that a variable may hold.
ghost use Rattle.std.specs.Prelude.{[], Result};
ghost use Rattle.mh_text.specs.Rest.{Left, Piece as PieceValue};
ghost use Rattle.mh_text.specs.Gives.{Gives, Refusal};
ghost use Rattle.mh_text.specs.Reading.{generic, list, listed, next_member};

use crate::place::{Piece, Place};
use crate::value_form::AnyReference;
use crate::{TextError, Why};
use mh_base::Seq;
use mh_group::Generic;
use std::alloc::Global;

/// A way in which values are written.
pub(crate) trait Form {
    type Value: Drop;

    /// What a token and what is left behind it are read as.
    ghost reading: { PieceValue → Left → Result (Self.Value × Left) Refusal };

    /// The value that begins with this token; the place stands behind that, and then behind the value.
    fn read(
        alloc: Global,
        piece: &Piece<'_>,
        place: &mut Place<'_>,
    ) -> Result<Self::Value, TextError>
        ensures { Gives (λ x. (x, place.new)) result (reading piece.now place.old) };
}

/// A value that is written directly, or the reference of the variable that holds it.
#[tactic(auto, unfolding(crate::specs::Reading::generic))]
pub(crate) fn generic<F: Form>(
    alloc: Global,
    piece: &Piece<'_>,
    place: &mut Place<'_>,
) -> Result<Generic<F::Value>, TextError>
    ensures { Gives (λ x. (x, place.new)) result (generic F.reading piece.now place.old) }
{
    if piece.sign().is_indirect() {
        let piece = place.next()?;
        let variable = AnyReference::read(alloc, &piece, place)?;
        return Ok(Generic::Indirect(variable));
    }
    F::read(alloc, piece, place).map(Generic::Direct)
}

/// A list between parentheses, of which this token is the first. It has at most so many members.
#[tactic(auto, unfolding(crate::specs::Reading::list))]
pub(crate) fn list<F: Form>(
    alloc: Global,
    most: usize,
    piece: &Piece<'_>,
    place: &mut Place<'_>,
) -> Result<Seq<F::Value>, TextError>
    ensures { Gives (λ x. (x, place.new)) result (list F.reading most piece.now place.old) }
{
    if piece.sign().is_open() {
        members::<F>(alloc, most, place)
    } else {
        Err(piece.refused(Why::Syntax))
    }
}

/// The members of a list up to its closing parenthesis, at most so many.
pub(crate) fn members<F: Form>(
    alloc: Global,
    most: usize,
    place: &mut Place<'_>,
) -> Result<Seq<F::Value>, TextError>
    ensures { Gives (λ x. (x, place.new)) result (listed F.reading most [] place.old) }
{
    let mut members = Seq::new(alloc);
    for _ in 0..most {
        let next = next_member::<F>(alloc, place)?;
        let Some(member) = next else {
            return Ok(members);
        };
        members.push(member)?;
    }
    place.closed_list()?;
    Ok(members)
}

/// The next member of a list; none where the closing parenthesis was taken.
#[tactic(auto, unfolding(crate::specs::Reading::next_member))]
fn next_member<F: Form>(alloc: Global, place: &mut Place<'_>) -> Result<Option<F::Value>, TextError>
    ensures { Gives (λ x. (x, place.new)) result (next_member F.reading place.old) }
{
    let piece = place.next()?;
    if piece.sign().is_close() {
        return Ok(None);
    }
    F::read(alloc, &piece, place).map(Some)
}
