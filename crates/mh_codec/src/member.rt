//! Readers of the members of the lists that attributes hold: members of token groups and list groups,
//! positions, next scenes.
ghost use Rattle.mh_codec.specs.Gives.{Gives};
ghost use Rattle.mh_codec.specs.Reading.{member_in, member_at, list_item_in, list_item_at, position_at, next_scene_in, next_scene_at};

use crate::element::{ended, exhausted, sequence_at, taken};
use crate::readable::{Readable, members};
use crate::setting::pair;
use crate::tag_table::TagTable;
use crate::value::{integer_at, name_at, reference_at};
use crate::{CodecError, Why};
use mh_base::{LONGEST_LIST, Seq};
use mh_der::{Element, Reader};
use mh_group::{Effect, Member, NextScene, Position, Shape};
use std::alloc::Global;

/// A member: its object, and the effect of each slot.
#[tactic(auto, unfolding(crate::specs::Reading::member_in))]
fn member_in(alloc: Global, tags: &TagTable, reader: Reader<'_>) -> Result<Member, CodecError>
    ensures { Gives (λ x. x) result (member_in tags.now reader.entry) }
{
    let (element, reader) = taken(reader)?;
    let object = reference_at(alloc, &element)?;
    let slots = members::<Effect>(alloc, tags, LONGEST_LIST, reader)?;
    Ok(Member { object, slots })
}

#[tactic(auto, unfolding(crate::specs::Reading::member_at))]
fn member_at(alloc: Global, tags: &TagTable, element: &Element<'_>) -> Result<Member, CodecError>
    ensures { Gives (λ x. x) result (member_at tags.now element.now) }
{
    member_in(alloc, tags, sequence_at(element)?)
}

/// A member of a list group: its object alone.
#[tactic(auto, unfolding(crate::specs::Reading::list_item_in))]
fn list_item_in(alloc: Global, reader: Reader<'_>) -> Result<Member, CodecError>
    ensures { Gives (λ x. x) result (list_item_in reader.entry) }
{
    let (element, reader) = taken(reader)?;
    let object = reference_at(alloc, &element)?;
    exhausted(&reader, Why::UnknownTag)?;
    Ok(Member {
        object,
        slots: Seq::new(alloc),
    })
}

#[tactic(auto, unfolding(crate::specs::Reading::list_item_at))]
fn list_item_at(alloc: Global, element: &Element<'_>) -> Result<Member, CodecError>
    ensures { Gives (λ x. x) result (list_item_at element.now) }
{
    list_item_in(alloc, sequence_at(element)?)
}

#[tactic(auto, unfolding(crate::specs::Reading::position_at))]
fn position_at(element: &Element<'_>) -> Result<Position, CodecError>
    ensures { Gives (λ x. x) result (position_at element.now) }
{
    let (x, y) = pair(Shape::Pair, sequence_at(element)?)?;
    Ok(Position { x, y })
}

/// A name and an integer, and nothing behind them.
#[tactic(auto, unfolding(crate::specs::Reading::next_scene_in))]
fn next_scene_in(alloc: Global, reader: Reader<'_>) -> Result<NextScene, CodecError>
    ensures { Gives (λ x. x) result (next_scene_in reader.entry) }
{
    let (element, reader) = taken(reader)?;
    let name = name_at(alloc, &element)?;
    let (element, reader) = taken(reader)?;
    let weight = integer_at(&element)?;
    ended(reader)?;
    Ok(NextScene { name, weight })
}

#[tactic(auto, unfolding(crate::specs::Reading::next_scene_at))]
fn next_scene_at(alloc: Global, element: &Element<'_>) -> Result<NextScene, CodecError>
    ensures { Gives (λ x. x) result (next_scene_at element.now) }
{
    next_scene_in(alloc, sequence_at(element)?)
}

/// The members of a list group, which have no slots.
pub(crate) struct ListItem;

impl Readable for Member {
    ghost use Rattle.mh_codec.specs.Reading.{member_at as reading_lem};

    type Value = Member;

    ghost reading = { reading_lem };

    fn read_at(
        alloc: Global,
        tags: &TagTable,
        element: &Element<'_>,
    ) -> Result<Member, CodecError> {
        member_at(alloc, tags, element)
    }
}

impl Readable for ListItem {
    ghost use Rattle.mh_codec.specs.Reading.{list_item_at as reading_lem};

    type Value = Member;

    ghost reading = { λ tags. reading_lem };

    fn read_at(
        alloc: Global,
        _tags: &TagTable,
        element: &Element<'_>,
    ) -> Result<Member, CodecError> {
        list_item_at(alloc, element)
    }
}

impl Readable for Position {
    ghost use Rattle.mh_codec.specs.Reading.{position_at as reading_lem};

    type Value = Position;

    ghost reading = { λ tags. reading_lem };

    fn read_at(
        _alloc: Global,
        _tags: &TagTable,
        element: &Element<'_>,
    ) -> Result<Position, CodecError> {
        position_at(element)
    }
}

impl Readable for NextScene {
    ghost use Rattle.mh_codec.specs.Reading.{next_scene_at as reading_lem};

    type Value = NextScene;

    ghost reading = { λ tags. reading_lem };

    fn read_at(
        alloc: Global,
        _tags: &TagTable,
        element: &Element<'_>,
    ) -> Result<NextScene, CodecError> {
        next_scene_at(alloc, element)
    }
}
