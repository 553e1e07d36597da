//! Columns of tags: those of one context, in the order of their numbers.
ghost use Rattle.std.specs.Prelude.{◌≡◌, ◌==◌, ◌+◌, ◌<◌, IfOk, length, slice_index};
ghost use Rattle.std.specs.List.{find, list_any};
ghost use Rattle.mh_codec.specs.Tags.{has_double, AreSmall};
ghost use Rattle.mh_codec.specs.TagLines.{tag_by, column_by, is_for};

use crate::tag_line::{NamedTag, TagContext};
use crate::tag_lines::is_for;
use std::alloc::{AllocError, Global};

/// The tags of so many numbers: those that are named, and else the numbers themselves.
pub(crate) fn column_by(
    alloc: Global,
    named: &[NamedTag],
    context: TagContext,
    first: u32,
    count: u32,
) -> Result<Vec<u16>, AllocError>
    requires { first + count < 1000 }
    ensures exact { IfOk result (λ column. column.items ≡ column_by named.now context first count) }
    ensures full { IfOk result (λ column. length column.items ≡ count) }
    ensures small { IfOk result (λ column. AreSmall column.items) }
{
    let mut column = Vec::new(alloc);
    for place in 0..count {
        column.push(tag_by(named, context, first + place))?;
    }
    are_small(column.as_slice());
    Ok(column)
}

/// Tags are of 16 bits. It does nothing.
fn are_small(tags: &[u16])
    ensures { AreSmall tags.now }
{}

/// The tag of a number: the one that is named, and else the number itself.
fn tag_by(named: &[NamedTag], context: TagContext, number: u32) -> u16
    requires { number < 1000 }
    ensures { result ≡ tag_by named.now context number }
{
    match named_for(named, context, number) {
        Some(one) => one.tag,
        None => number as u16,
    }
}

fn named_for(named: &[NamedTag], context: TagContext, number: u32) -> Option<NamedTag>
    ensures { result ≡ find (is_for context number) named.now }
{
    named
        .iter()
        .copied()
        .find(|one| is_for(context, number, *one))
}

/// Whether a tag stands in the column twice.
pub(crate) fn has_double(tags: &[u16]) -> bool
    ensures { result ≡ has_double tags.now }
{
    match tags {
        [] => false,
        [tag, others @ ..] => has(others, *tag) || has_double(others),
    }
}

fn has(tags: &[u16], tag: u16) -> bool
    ensures { result ≡ list_any (λ u. u == tag) tags.now }
{
    tags.iter().any(|t| *t == tag)
}

/// The tag at a place of a column. A full column has one at each place that is asked for.
pub(crate) fn tag_at(tags: &[u16], place: u32) -> u16
    ensures { result ≡ slice_index tags.now place }
{
    tags.get(place as usize).copied().unwrap_or(0)
}
