//! Readers of elementary actions and their parameters. Which parameters an action is written with is
//! the word of `mh_group`'s table.
ghost use Rattle.std.specs.Prelude.{[]};
ghost use Rattle.mh_codec.specs.Gives.{Gives};
ghost use Rattle.mh_codec.specs.Reading.{action_at, parameters, parameter_at, typed_at, value_at};

use crate::element::{ended, only, own_at, refused, taken};
use crate::readable::{Readable, generic_at, list_at};
use crate::tag_table::TagTable;
use crate::value::{event_at, reference_at};
use crate::{CodecError, Why};
use mh_base::{Kind as ValueKind, LONGEST_LIST, Octets, Seq};
use mh_der::{Element, Reader};
use mh_group::{Action, Content, EventData, Need, Parameter, Ref, Typed, WrittenName};
use std::alloc::Global;

#[tactic(auto, unfolding(crate::specs::Reading::action_at))]
fn action_at(alloc: Global, tags: &TagTable, element: &Element<'_>) -> Result<Action, CodecError>
    ensures { Gives (λ x. x) result (action_at tags.now element.now) }
{
    let number = own_at(element)?;
    let Some(name) = tags.action_with(number) else {
        return Err(refused(element, Why::UnknownTag));
    };
    let (inner, reader) = taken(element.contents())?;
    let target = generic_at::<Ref>(alloc, tags, &inner)?;
    let (parameters, reader) = parameters(alloc, tags, name.optional(), name.needs(), reader)?;
    ended(reader)?;
    Ok(Action {
        name,
        target,
        parameters,
    })
}

/// The parameters that are needed, in their order. Where nothing is left, so many of them may be
/// missing.
fn parameters<'a>(
    alloc: Global,
    tags: &TagTable,
    optional: usize,
    needs: &[Need],
    reader: Reader<'a>,
) -> Result<(Seq<Parameter>, Reader<'a>), CodecError>
    ensures { Gives (λ x. x) result (parameters tags.now optional needs.now [] reader.entry) }
{
    let mut parameters = Seq::with_capacity(alloc, needs.len())?;
    let mut reader = reader;
    let mut needs = needs;
    while let [need, others @ ..] = needs {
        if reader.is_empty() && needs.len() <= optional {
            return Ok((parameters, reader));
        }
        let (element, behind) = taken(reader)?;
        parameters.push(parameter_at(alloc, tags, *need, &element)?)?;
        reader = behind;
        needs = others;
    }
    Ok((parameters, reader))
}

#[tactic(auto, unfolding(crate::specs::Reading::parameter_at))]
fn parameter_at(
    alloc: Global,
    tags: &TagTable,
    need: Need,
    element: &Element<'_>,
) -> Result<Parameter, CodecError>
    ensures { Gives (λ x. x) result (parameter_at tags.now need element.now) }
{
    Ok(match need {
        Need::Bool => Parameter::Bool(generic_at::<bool>(alloc, tags, element)?),
        Need::Int => Parameter::Int(generic_at::<i32>(alloc, tags, element)?),
        Need::Octets => Parameter::Octets(generic_at::<Octets>(alloc, tags, element)?),
        Need::Ref => Parameter::Ref(generic_at::<Ref>(alloc, tags, element)?),
        Need::Content => Parameter::Content(generic_at::<Content>(alloc, tags, element)?),
        Need::Data => Parameter::Data(generic_at::<EventData>(alloc, tags, element)?),
        Need::Event => Parameter::Event(event_at(element)?),
        Need::Receiver(_) => Parameter::Receiver(reference_at(alloc, element)?),
        Need::Typed => Parameter::Typed(typed_at(alloc, tags, element)?),
        Need::Arguments => Parameter::Arguments(list_at::<Typed>(
            alloc,
            tags,
            LONGEST_LIST,
            element,
        )?),
    })
}

/// A value behind the tag of its kind.
#[tactic(auto, unfolding(crate::specs::Reading::typed_at))]
fn typed_at(alloc: Global, tags: &TagTable, element: &Element<'_>) -> Result<Typed, CodecError>
    ensures { Gives (λ x. x) result (typed_at tags.now element.now) }
{
    let number = own_at(element)?;
    let Some(kind) = tags.value_kind_with(number) else {
        return Err(refused(element, Why::UnknownTag));
    };
    let inner = only(element.contents())?;
    value_at(alloc, tags, kind, &inner)
}

/// A value of this kind.
#[tactic(auto, unfolding(crate::specs::Reading::value_at))]
fn value_at(
    alloc: Global,
    tags: &TagTable,
    kind: ValueKind,
    element: &Element<'_>,
) -> Result<Typed, CodecError>
    ensures { Gives (λ x. x) result (value_at tags.now kind element.now) }
{
    Ok(match kind {
        ValueKind::Bool => Typed::Bool(generic_at::<bool>(alloc, tags, element)?),
        ValueKind::Int => Typed::Int(generic_at::<i32>(alloc, tags, element)?),
        ValueKind::Octets => Typed::Octets(generic_at::<Octets>(alloc, tags, element)?),
        ValueKind::Object => Typed::Ref(generic_at::<Ref>(alloc, tags, element)?),
        ValueKind::Content => Typed::ContentRef(generic_at::<WrittenName>(alloc, tags, element)?),
    })
}

impl Readable for Typed {
    ghost use Rattle.mh_codec.specs.Reading.{typed_at as reading_lem};

    type Value = Typed;

    ghost reading = { reading_lem };

    fn read_at(alloc: Global, tags: &TagTable, element: &Element<'_>) -> Result<Typed, CodecError> {
        typed_at(alloc, tags, element)
    }
}

impl Readable for Action {
    ghost use Rattle.mh_codec.specs.Reading.{action_at as reading_lem};

    type Value = Action;

    ghost reading = { reading_lem };

    fn read_at(
        alloc: Global,
        tags: &TagTable,
        element: &Element<'_>,
    ) -> Result<Action, CodecError> {
        action_at(alloc, tags, element)
    }
}
