//! The reader of an attribute's value, by its shape.
ghost use Rattle.std.specs.Prelude.{◌≡◌};
ghost use Rattle.mh_codec.specs.Gives.{Gives};
ghost use Rattle.mh_codec.specs.Reading.{setting, single, pair, part, is_pair};

use crate::element::{ended, only, refused, taken};
use crate::member::ListItem;
use crate::readable::{Readable, list_at};
use crate::tag_table::TagTable;
use crate::value::{
    colour_at, content_at, data_at, event_at, fixed_at, integer_at, justification_at, length_at,
    natural_at, reference_at, truth_at,
};
use crate::{CodecError, Why};
use mh_base::{Octets, Seq};
use mh_der::{Element, Reader};
use mh_group::group::MOST_LIST_ITEMS;
use mh_group::{Effect, Member, NextScene, Position, Setting, Shape, WrittenName};
use std::alloc::Global;

/// The value of this shape, and nothing behind it.
#[tactic(auto, unfolding(crate::specs::Reading::setting))]
pub(crate) fn setting(
    alloc: Global,
    tags: &TagTable,
    shape: Shape,
    reader: Reader<'_>,
) -> Result<Setting, CodecError>
    ensures { Gives (λ x. x) result (setting tags.now shape reader.entry) }
{
    if is_pair(shape) {
        let (first, second) = pair(shape, reader)?;
        return Ok(Setting::Pair(first, second));
    }
    let element = only(reader)?;
    single(alloc, tags, shape, &element)
}

fn is_pair(shape: Shape) -> bool
    ensures { result ≡ is_pair shape }
{
    matches!(shape, Shape::Pair | Shape::Size | Shape::Screen)
}

/// The value of a shape of one element.
#[tactic(auto, unfolding(crate::specs::Reading::single))]
fn single(
    alloc: Global,
    tags: &TagTable,
    shape: Shape,
    element: &Element<'_>,
) -> Result<Setting, CodecError>
    ensures { Gives (λ x. x) result (single tags.now shape element.now) }
{
    Ok(match shape {
        Shape::Effect => Setting::Effect(Effect::read_at(alloc, tags, element)?),
        Shape::Bool => Setting::Bool(truth_at(element)?),
        Shape::Int => Setting::Int(integer_at(element)?),
        Shape::Natural => Setting::Int(natural_at(element)?),
        Shape::Length => Setting::Int(length_at(element)?),
        Shape::Ref => Setting::Ref(reference_at(alloc, element)?),
        Shape::Event => Setting::Event(event_at(element)?),
        Shape::Data => Setting::Data(data_at(element)?),
        Shape::Octets => Setting::Octets(Octets::read_at(alloc, tags, element)?),
        Shape::Colour => Setting::Colour(colour_at(element)?),
        Shape::Content => Setting::Content(content_at(alloc, tags, element)?),
        Shape::ContentRef => Setting::ContentRef(WrittenName::read_at(alloc, tags, element)?),
        Shape::Justification => Setting::Justification(justification_at(element)?),
        Shape::MovementTable => Setting::MovementTable(Seq::<Seq<i32>>::read_at(
            alloc, tags, element,
        )?),
        Shape::Members => Setting::Members(Seq::<Member>::read_at(alloc, tags, element)?),
        Shape::ListItems => Setting::Members(list_at::<ListItem>(
            alloc,
            tags,
            MOST_LIST_ITEMS,
            element,
        )?),
        Shape::Positions => Setting::Positions(Seq::<Position>::read_at(alloc, tags, element)?),
        Shape::NextScenes => Setting::NextScenes(Seq::<NextScene>::read_at(alloc, tags, element)?),
        _ => return Err(refused(element, Why::UnknownTag)),
    })
}

/// Two integers, and nothing behind them.
#[tactic(auto, unfolding(crate::specs::Reading::pair))]
pub(crate) fn pair(shape: Shape, reader: Reader<'_>) -> Result<(i32, i32), CodecError>
    ensures { Gives (λ x. x) result (pair shape reader.entry) }
{
    let (element, reader) = taken(reader)?;
    let first = part(shape, 720, &element)?;
    let (element, reader) = taken(reader)?;
    let second = part(shape, 576, &element)?;
    ended(reader)?;
    Ok((first, second))
}

/// One integer of a pair; the screen's has one value.
#[tactic(auto, unfolding(crate::specs::Reading::part))]
fn part(shape: Shape, screen: i32, element: &Element<'_>) -> Result<i32, CodecError>
    ensures { Gives (λ x. x) result (part shape screen element.now) }
{
    match shape {
        Shape::Size => natural_at(element),
        Shape::Screen => fixed_at(screen, element),
        _ => integer_at(element),
    }
}
