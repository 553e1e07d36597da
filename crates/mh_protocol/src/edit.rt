//! A text that is changed.
ghost use Rattle.std.specs.Prelude.{◌≡◌, ◌++◌, ◌≤◌, drop, length, take, IfOk};
ghost use Rattle.mh_protocol.specs.Edits as spec;

use crate::position::{Position, Unit, offset_at};
use std::alloc::{AllocError, Global};

/// What stands between two places.
#[derive(Clone, Copy, PartialEq, Eq)]
pub struct Range {
    pub start: Position,
    pub end: Position,
}

/// The text with another one in place of what stands in the range. A range that ends before it begins is empty.
#[tactic(auto, unfolding(crate::specs::Edits::edited))]
pub fn edited(
    alloc: Global,
    unit: Unit,
    text: &[u8],
    range: Range,
    new: &[u8],
) -> Result<Vec<u8>, AllocError>
    ensures { IfOk result (λ found. found.items ≡ spec.edited unit range new.now text.now) }
{
    let start = offset_at(unit, text, range.start);
    let end = start.max(offset_at(unit, text, range.end));
    joined(alloc, &text[..start], new, &text[end..])
}

/// Three texts as one.
pub(crate) fn joined(
    alloc: Global,
    front: &[u8],
    new: &[u8],
    behind: &[u8],
) -> Result<Vec<u8>, AllocError>
    ensures { IfOk result (λ found. found.items ≡ front.now ++ new.now ++ behind.now) }
{
    let mut found = Vec::new(alloc);
    found.extend_from_slice(front)?;
    found.extend_from_slice(new)?;
    found.extend_from_slice(behind)?;
    Ok(found)
}
