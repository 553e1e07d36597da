//! The mend of an object that is not Shared: the attribute, behind its number.
use crate::mending::{Asker, action_value, edit_value};
use mh_answers::spots_in;
use mh_edit::{Role, Spot};
use mh_protocol::{Position, Range, offset_at, place_at, position_at};
use serde_json::{Value, push};
use std::alloc::{AllocError, Global};

/// The rule whose notes are mended so.
const RULE: &str = "not-shared";

/// What is written behind the number.
const ATTRIBUTE: &str = " :Shared true";

/// Whether a note tells of an object that is not Shared.
pub(crate) fn is_unshared(rule: &str) -> bool {
    rule == RULE
}

/// Pushes the edit that makes the object Shared of which a note tells.
pub(crate) fn push_sharing(
    alloc: Global,
    found: &mut Vec<Value>,
    asker: Asker<'_>,
    note: &Value,
) -> Result<(), AllocError> {
    let Some(start) = place_at(note, "/range/start") else {
        return Ok(());
    };
    let offset = offset_at(asker.unit, asker.bytes, start);
    match end_of_number(alloc, asker.bytes, offset)? {
        Some(end) => push_attribute(
            alloc,
            found,
            asker,
            position_at(asker.unit, asker.bytes, end),
            note,
        ),
        None => Ok(()),
    }
}

/// Where the number of an object ends that stands there or first behind.
fn end_of_number(alloc: Global, bytes: &[u8], offset: usize) -> Result<Option<usize>, AllocError> {
    let spots = spots_in(alloc, bytes)?;
    let end = end_in(spots.as_slice(), offset);
    drop(spots);
    Ok(end)
}

fn end_in(spots: &[Spot], offset: usize) -> Option<usize> {
    let spot = spots.iter().find(|spot| is_number_from(spot, offset))?;
    Some(spot.at.start.saturating_add(spot.at.length))
}

fn is_number_from(spot: &Spot, offset: usize) -> bool {
    spot.at.start >= offset && matches!(spot.role, Role::Defines(_))
}

fn push_attribute(
    alloc: Global,
    found: &mut Vec<Value>,
    asker: Asker<'_>,
    at: Position,
    note: &Value,
) -> Result<(), AllocError> {
    let edit = edit_value(alloc, asker.uri, Range { start: at, end: at }, ATTRIBUTE)?;
    push(found, action_value(alloc, "make it Shared", edit, note)?)
}
