//! Readers by type: what one element says, values that variables hold, and lists.
ghost use Rattle.std.specs.Prelude.{[]};
ghost use Rattle.mh_base.specs.Limits.{longest_list};
ghost use Rattle.mh_codec.specs.Gives.{Gives};
ghost use Rattle.mh_codec.specs.Reading.{generic_at, list_at, listed, next_member};

use crate::element::{exhausted, sequence_at, taken};
use crate::tag_table::TagTable;
use crate::value::{is_indirect, variable_at};
use crate::{CodecError, Why};
use mh_base::{LONGEST_LIST, Seq};
use mh_der::{Element, Reader};
use mh_group::Generic;
use std::alloc::Global;

/// What can be read from one element.
pub(crate) trait Readable {
    ghost use Rattle.std.specs.Prelude.{Result};
    ghost use Rattle.mh_der.specs.Rest.{Element as ElementLem};
    ghost use Rattle.mh_codec.specs.Gives.{Refusal};
    ghost use Rattle.mh_codec.specs.Tags.{Tags};

    /// What is read.
    type Value: Drop;

    ghost reading: { Tags → ElementLem → Result Self.Value Refusal };

    fn read_at(
        alloc: Global,
        tags: &TagTable,
        element: &Element<'_>,
    ) -> Result<Self::Value, CodecError>
        ensures { Gives (λ x. x) result (reading tags.now element.now) };
}

/// A list of what can be read, in one sequence.
impl<T: Readable> Readable for Seq<T> {
    ghost use Rattle.mh_codec.specs.Reading.{list_at};

    type Value = Seq<T::Value>;

    ghost reading = { λ tags. list_at (T.reading tags) longest_list };

    fn read_at(
        alloc: Global,
        tags: &TagTable,
        element: &Element<'_>,
    ) -> Result<Seq<T::Value>, CodecError> {
        list_at::<T>(alloc, tags, LONGEST_LIST, element)
    }
}

/// A value, written directly or held by a variable.
#[tactic(auto, unfolding(crate::specs::Reading::generic_at))]
pub(crate) fn generic_at<T: Readable>(
    alloc: Global,
    tags: &TagTable,
    element: &Element<'_>,
) -> Result<Generic<T::Value>, CodecError>
    ensures { Gives (λ x. x) result (generic_at tags.now (T.reading tags.now) element.now) }
{
    if is_indirect(tags, element) {
        Ok(Generic::Indirect(variable_at(alloc, element)?))
    } else {
        Ok(Generic::Direct(T::read_at(alloc, tags, element)?))
    }
}

/// A sequence of at most so many members.
#[tactic(auto, unfolding(crate::specs::Reading::list_at))]
pub(crate) fn list_at<T: Readable>(
    alloc: Global,
    tags: &TagTable,
    limit: usize,
    element: &Element<'_>,
) -> Result<Seq<T::Value>, CodecError>
    ensures { Gives (λ x. x) result (list_at (T.reading tags.now) limit element.now) }
{
    let reader = sequence_at(element)?;
    members::<T>(alloc, tags, limit, reader)
}

/// The members up to the end, at most so many.
pub(crate) fn members<T: Readable>(
    alloc: Global,
    tags: &TagTable,
    limit: usize,
    reader: Reader<'_>,
) -> Result<Seq<T::Value>, CodecError>
    ensures { Gives (λ x. x) result (listed (T.reading tags.now) limit [] reader.entry) }
{
    let mut members = Seq::new(alloc);
    let mut reader = reader;
    for _ in 0..limit {
        let (member, behind) = next_member::<T>(alloc, tags, reader)?;
        let Some(member) = member else {
            return Ok(members);
        };
        members.push(member)?;
        reader = behind;
    }
    exhausted(&reader, Why::Limit)?;
    Ok(members)
}

/// The next member, and the reader behind it; none at the end.
#[tactic(auto, unfolding(crate::specs::Reading::next_member))]
fn next_member<'a, T: Readable>(
    alloc: Global,
    tags: &TagTable,
    reader: Reader<'a>,
) -> Result<(Option<T::Value>, Reader<'a>), CodecError>
    ensures { Gives (λ x. x) result (next_member (T.reading tags.now) reader.entry) }
{
    if reader.is_empty() {
        return Ok((None, reader));
    }
    let (element, behind) = taken(reader)?;
    let member = T::read_at(alloc, tags, &element)?;
    Ok((Some(member), behind))
}
