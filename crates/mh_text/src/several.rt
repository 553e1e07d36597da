//! Readers of the values that are lists: effects, rows of integers, members, positions and scenes.
ghost use Rattle.mh_text.specs.Gives.{Gives};
ghost use Rattle.mh_text.specs.Reading.{several, effect, row, member, list_item, position, next_scene};

use crate::effect::ElementaryAction;
use crate::form::{Form, list, members};
use crate::place::{Piece, Place};
use crate::value::{integer_of, name_of};
use crate::value_form::{AnyReference, Integer};
use crate::{TextError, Why};
use mh_base::{LONGEST_LIST, Seq};
use mh_group::group::MOST_LIST_ITEMS;
use mh_group::{Effect, Member, NextScene, Position, Setting, Shape};
use std::alloc::Global;

/// The value of a shape that is a list, which begins with this token.
#[tactic(auto, unfolding(crate::specs::Reading::several))]
pub(crate) fn several(
    alloc: Global,
    shape: Shape,
    piece: &Piece<'_>,
    place: &mut Place<'_>,
) -> Result<Setting, TextError>
    ensures { Gives (λ x. (x, place.new)) result (several shape piece.now place.old) }
{
    match shape {
        Shape::Effect => {
            list::<ElementaryAction>(alloc, LONGEST_LIST, piece, place).map(Setting::Effect)
        }
        Shape::MovementTable => {
            list::<Row>(alloc, LONGEST_LIST, piece, place).map(Setting::MovementTable)
        }
        Shape::Members => {
            list::<SlottedMember>(alloc, LONGEST_LIST, piece, place).map(Setting::Members)
        }
        Shape::ListItems => {
            list::<ListItem>(alloc, MOST_LIST_ITEMS, piece, place).map(Setting::Members)
        }
        Shape::Positions => {
            list::<CellPosition>(alloc, LONGEST_LIST, piece, place).map(Setting::Positions)
        }
        Shape::NextScenes => {
            list::<Scene>(alloc, LONGEST_LIST, piece, place).map(Setting::NextScenes)
        }
        _ => Err(piece.refused(Why::Syntax)),
    }
}

/// What an action slot of a member does.
struct Slot;

impl Form for Slot {
    type Value = Effect;

    ghost reading = { effect };

    fn read(alloc: Global, piece: &Piece<'_>, place: &mut Place<'_>) -> Result<Effect, TextError> {
        list::<ElementaryAction>(alloc, LONGEST_LIST, piece, place)
    }
}

/// One row of a movement table.
struct Row;

impl Form for Row {
    type Value = Seq<i32>;

    ghost reading = { row };

    fn read(
        alloc: Global,
        piece: &Piece<'_>,
        place: &mut Place<'_>,
    ) -> Result<Seq<i32>, TextError> {
        list::<Integer>(alloc, LONGEST_LIST, piece, place)
    }
}

/// A member of a token group and its slots.
struct SlottedMember;

impl Form for SlottedMember {
    type Value = Member;

    ghost reading = { member };

    #[tactic(auto, unfolding(crate::specs::Reading::member))]
    fn read(alloc: Global, piece: &Piece<'_>, place: &mut Place<'_>) -> Result<Member, TextError> {
        if !piece.sign().is_open() {
            return Err(piece.refused(Why::Syntax));
        }
        let piece = place.next()?;
        let object = AnyReference::read(alloc, &piece, place)?;
        let slots = members::<Slot>(alloc, LONGEST_LIST, place)?;
        Ok(Member { object, slots })
    }
}

/// A member of a list group, which has no slots.
struct ListItem;

impl Form for ListItem {
    type Value = Member;

    ghost reading = { list_item };

    #[tactic(auto, unfolding(crate::specs::Reading::list_item))]
    fn read(alloc: Global, piece: &Piece<'_>, place: &mut Place<'_>) -> Result<Member, TextError> {
        if !piece.sign().is_open() {
            return Err(piece.refused(Why::Syntax));
        }
        let piece = place.next()?;
        let object = AnyReference::read(alloc, &piece, place)?;
        place.closed()?;
        let slots = Seq::new(alloc);
        Ok(Member { object, slots })
    }
}

/// Where a cell of a list group lies: two integers between parentheses.
struct CellPosition;

impl Form for CellPosition {
    type Value = Position;

    ghost reading = { position };

    #[tactic(auto, unfolding(crate::specs::Reading::position))]
    fn read(
        _alloc: Global,
        piece: &Piece<'_>,
        place: &mut Place<'_>,
    ) -> Result<Position, TextError> {
        if !piece.sign().is_open() {
            return Err(piece.refused(Why::Syntax));
        }
        let piece = place.next()?;
        let x = integer_of(&piece)?;
        let piece = place.next()?;
        let y = integer_of(&piece)?;
        place.closed()?;
        Ok(Position { x, y })
    }
}

/// A scene that may come next: a name and an integer between parentheses.
struct Scene;

impl Form for Scene {
    type Value = NextScene;

    ghost reading = { next_scene };

    #[tactic(auto, unfolding(crate::specs::Reading::next_scene))]
    fn read(
        alloc: Global,
        piece: &Piece<'_>,
        place: &mut Place<'_>,
    ) -> Result<NextScene, TextError> {
        if !piece.sign().is_open() {
            return Err(piece.refused(Why::Syntax));
        }
        let piece = place.next()?;
        let name = name_of(alloc, &piece)?;
        let piece = place.next()?;
        let weight = integer_of(&piece)?;
        place.closed()?;
        Ok(NextScene { name, weight })
    }
}
