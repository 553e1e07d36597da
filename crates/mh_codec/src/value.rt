//! Readers of values that are one element: truth values, numbers, octets, names, references.
ghost use Rattle.std.specs.Prelude.{◌≡◌, pos, ◌≤ℤ◌, IfOk};
ghost use Rattle.mh_codec.specs.Gives.{Gives};
ghost use Rattle.mh_codec.specs.Reading.{truth_at, integer_at, octets_at, natural_at, fixed_at, number_at, ingredient_number_at, name_at, event_at, colour_at, justification_at, length_at, name_of, content_name_at, content_at, data_at, named_in, reference_at, is_indirect, variable_at};

use crate::element::{ended, only, primitive_at, refused, taken};
use crate::kind::{Kind, kind_of};
use crate::tag_table::TagTable;
use crate::{CodecError, Why};
use mh_base::{Colour, EventType, Octets};
use mh_der::{Element, Reader, bool_of, int_of};
use mh_group::{Content, EventData, Justification, Number, Ref, WrittenName};
use std::alloc::Global;

#[tactic(auto, unfolding(crate::specs::Reading::truth_at))]
pub(crate) fn truth_at(element: &Element<'_>) -> Result<bool, CodecError>
    ensures { Gives (λ x. x) result (truth_at element.now) }
{
    match kind_of(element.tag()) {
        Kind::Boolean => Ok(bool_of(element)?),
        _ => Err(refused(element, Why::UnknownTag)),
    }
}

#[tactic(auto, unfolding(crate::specs::Reading::integer_at))]
pub(crate) fn integer_at(element: &Element<'_>) -> Result<i32, CodecError>
    ensures { Gives (λ x. x) result (integer_at element.now) }
{
    match kind_of(element.tag()) {
        Kind::Integer => Ok(int_of(element)?),
        _ => Err(refused(element, Why::UnknownTag)),
    }
}

#[tactic(auto, unfolding(crate::specs::Reading::octets_at))]
pub(crate) fn octets_at<'a>(element: &Element<'a>) -> Result<&'a [u8], CodecError>
    ensures { Gives (λ x. x.now) result (octets_at element.now) }
{
    match kind_of(element.tag()) {
        Kind::Octets => Ok(element.contents().bytes()),
        _ => Err(refused(element, Why::UnknownTag)),
    }
}

/// An integer from 0.
#[tactic(auto, unfolding(crate::specs::Reading::natural_at))]
pub(crate) fn natural_at(element: &Element<'_>) -> Result<i32, CodecError>
    ensures exact { Gives (λ x. x) result (natural_at element.now) }
    ensures natural { IfOk result (λ x. pos 0 ≤ℤ x) }
{
    let value = integer_at(element)?;
    if value < 0 {
        return Err(refused(element, Why::BadValue));
    }
    Ok(value)
}

/// The length of an entry field: an integer from 1 to 255.
#[tactic(auto, unfolding(crate::specs::Reading::length_at))]
pub(crate) fn length_at(element: &Element<'_>) -> Result<i32, CodecError>
    ensures { Gives (λ x. x) result (length_at element.now) }
{
    let value = integer_at(element)?;
    if 1 <= value && value <= 255 {
        Ok(value)
    } else {
        Err(refused(element, Why::BadValue))
    }
}

/// This integer and no other.
#[tactic(auto, unfolding(crate::specs::Reading::fixed_at))]
pub(crate) fn fixed_at(wanted: i32, element: &Element<'_>) -> Result<i32, CodecError>
    ensures { Gives (λ x. x) result (fixed_at wanted element.now) }
{
    let value = integer_at(element)?;
    if value != wanted {
        return Err(refused(element, Why::BadValue));
    }
    Ok(value)
}

/// The number of an object, from 0.
#[tactic(auto, unfolding(crate::specs::Reading::number_at))]
pub(crate) fn number_at(element: &Element<'_>) -> Result<Number, CodecError>
    ensures { Gives (λ x. x) result (number_at element.now) }
{
    let value = natural_at(element)?;
    match Number::new(value.unsigned_abs()) {
        Some(number) => Ok(number),
        None => unreachable!(),
    }
}

/// The number of an ingredient, from 1.
#[tactic(auto, unfolding(crate::specs::Reading::ingredient_number_at))]
pub(crate) fn ingredient_number_at(element: &Element<'_>) -> Result<Number, CodecError>
    ensures { Gives (λ x. x) result (ingredient_number_at element.now) }
{
    let number = number_at(element)?;
    if number.get() == 0 {
        return Err(refused(element, Why::BadValue));
    }
    Ok(number)
}

#[tactic(auto, unfolding(crate::specs::Reading::name_at))]
pub(crate) fn name_at(alloc: Global, element: &Element<'_>) -> Result<WrittenName, CodecError>
    ensures { Gives (λ x. x) result (name_at element.now) }
{
    name_of(alloc, element, octets_at(element)?)
}

/// The name of these bytes, where a name may hold them; else the element is refused.
fn name_of(alloc: Global, element: &Element<'_>, bytes: &[u8]) -> Result<WrittenName, CodecError>
    ensures { Gives (λ x. x) result (name_of element.now bytes.now) }
{
    match WrittenName::new(Vec::from_slice(alloc, bytes)?) {
        Some(name) => Ok(name),
        None => Err(refused(element, Why::BadValue)),
    }
}

/// The name of a content file.
#[tactic(auto, unfolding(crate::specs::Reading::content_name_at))]
pub(crate) fn content_name_at(
    alloc: Global,
    tags: &TagTable,
    element: &Element<'_>,
) -> Result<WrittenName, CodecError>
    ensures { Gives (λ x. x) result (content_name_at tags.now element.now) }
{
    let number = primitive_at(element)?;
    if number != tags.content_name_tag() {
        return Err(refused(element, Why::UnknownTag));
    }
    name_of(alloc, element, element.contents().bytes())
}

/// Content: in the file, or in a file of a name.
#[tactic(auto, unfolding(crate::specs::Reading::content_at))]
pub(crate) fn content_at(
    alloc: Global,
    tags: &TagTable,
    element: &Element<'_>,
) -> Result<Content, CodecError>
    ensures { Gives (λ x. x) result (content_at tags.now element.now) }
{
    match kind_of(element.tag()) {
        Kind::Octets => {
            let octets = Octets::from_slice(alloc, octets_at(element)?)?;
            Ok(Content::Included(octets))
        }
        _ => Ok(Content::Referenced(content_name_at(alloc, tags, element)?)),
    }
}

/// The data of an event: a truth value or an integer.
#[tactic(auto, unfolding(crate::specs::Reading::data_at))]
pub(crate) fn data_at(element: &Element<'_>) -> Result<EventData, CodecError>
    ensures { Gives (λ x. x) result (data_at element.now) }
{
    match kind_of(element.tag()) {
        Kind::Boolean => Ok(EventData::Bool(truth_at(element)?)),
        _ => Ok(EventData::Int(integer_at(element)?)),
    }
}

/// The type of an event, by its number.
#[tactic(auto, unfolding(crate::specs::Reading::event_at))]
pub(crate) fn event_at(element: &Element<'_>) -> Result<EventType, CodecError>
    ensures { Gives (λ x. x) result (event_at element.now) }
{
    let number = number_at(element)?;
    match EventType::of_number(number.get()) {
        Some(event) => Ok(event),
        None => Err(refused(element, Why::BadValue)),
    }
}

/// A justification, by its number.
#[tactic(auto, unfolding(crate::specs::Reading::justification_at))]
pub(crate) fn justification_at(element: &Element<'_>) -> Result<Justification, CodecError>
    ensures { Gives (λ x. x) result (justification_at element.now) }
{
    let number = number_at(element)?;
    match Justification::of_number(number.get()) {
        Some(justification) => Ok(justification),
        None => Err(refused(element, Why::BadValue)),
    }
}

/// A colour: four octets.
#[tactic(auto, unfolding(crate::specs::Reading::colour_at))]
pub(crate) fn colour_at(element: &Element<'_>) -> Result<Colour, CodecError>
    ensures { Gives (λ x. x) result (colour_at element.now) }
{
    match octets_at(element)? {
        [red, green, blue, transparency] => Ok(Colour {
            red: *red,
            green: *green,
            blue: *blue,
            transparency: *transparency,
        }),
        _ => Err(refused(element, Why::BadValue)),
    }
}

/// A name and a number with its element, and nothing behind them.
#[tactic(auto, unfolding(crate::specs::Reading::named_in))]
pub(crate) fn named_in<'a>(
    alloc: Global,
    reader: Reader<'a>,
) -> Result<(WrittenName, Number, Element<'a>), CodecError>
    ensures { Gives (λ x. x) result (named_in reader.entry) }
{
    let (element, reader) = taken(reader)?;
    let name = name_at(alloc, &element)?;
    let (element, reader) = taken(reader)?;
    let number = number_at(&element)?;
    ended(reader)?;
    Ok((name, number, element))
}

#[tactic(auto, unfolding(crate::specs::Reading::reference_at))]
pub(crate) fn reference_at(alloc: Global, element: &Element<'_>) -> Result<Ref, CodecError>
    ensures { Gives (λ x. x) result (reference_at element.now) }
{
    match kind_of(element.tag()) {
        Kind::Integer => Ok(Ref::Here(number_at(element)?)),
        Kind::Sequence => {
            let (name, number, _) = named_in(alloc, element.contents())?;
            Ok(Ref::In(name, number))
        }
        _ => Err(refused(element, Why::UnknownTag)),
    }
}

/// Whether the element holds the reference of a variable.
#[tactic(auto, unfolding(crate::specs::Reading::is_indirect))]
pub(crate) fn is_indirect(tags: &TagTable, element: &Element<'_>) -> bool
    ensures { result ≡ is_indirect tags.now element.now }
{
    match kind_of(element.tag()) {
        Kind::Own(number) => number == tags.variable_tag(),
        _ => false,
    }
}

/// The reference of the variable that holds a value.
#[tactic(auto, unfolding(crate::specs::Reading::variable_at))]
pub(crate) fn variable_at(alloc: Global, element: &Element<'_>) -> Result<Ref, CodecError>
    ensures { Gives (λ x. x) result (variable_at element.now) }
{
    let inner = only(element.contents())?;
    reference_at(alloc, &inner)
}
