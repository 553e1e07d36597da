//! A text that the editor changes, piece by piece or as a whole.
ghost use Rattle.std.specs.Prelude.{◌≡◌, map, IfOk};
ghost use Rattle.serde_json.specs.View.{view};
ghost use Rattle.mh_served.specs.Changes as spec;

use mh_protocol::{Range, Unit, edited, range_of, text_at};
use serde_json::Value;
use std::alloc::{AllocError, Global};

/// The text that the changes make of another, one after the other.
pub(crate) fn changed(
    alloc: Global,
    unit: Unit,
    text: &[u8],
    changes: &[Value],
) -> Result<Vec<u8>, AllocError>
    ensures { IfOk result (λ found. found.items ≡ spec.changed unit text.now (map view changes.now)) }
{
    let mut found = Vec::from_slice(alloc, text)?;
    for change in changes {
        found = changed_by(alloc, unit, found.as_slice(), change)?;
    }
    Ok(found)
}

/// The text that a change makes of another. One that tells no text changes nothing.
#[tactic(auto, unfolding(crate::specs::Changes::changed_by))]
fn changed_by(alloc: Global, unit: Unit, text: &[u8], change: &Value) -> Result<Vec<u8>, AllocError>
    ensures { IfOk result (λ found. found.items ≡ spec.changed_by unit text.now (view change.now)) }
{
    match text_at(change, "/text") {
        Some(new) => replaced(alloc, unit, text, range_in(change), new.as_bytes()),
        None => Vec::from_slice(alloc, text),
    }
}

/// The range that is replaced; the whole text where none is told.
fn range_in(change: &Value) -> Option<Range>
    ensures { result ≡ spec.range_in (view change.now) }
{
    match change.pointer("/range") {
        Some(range) => range_of(range),
        None => None,
    }
}

fn replaced(
    alloc: Global,
    unit: Unit,
    text: &[u8],
    range: Option<Range>,
    new: &[u8],
) -> Result<Vec<u8>, AllocError>
    ensures { IfOk result (λ found. found.items ≡ spec.replaced unit text.now range new.now) }
{
    match range {
        Some(range) => edited(alloc, unit, text, range, new),
        None => Vec::from_slice(alloc, new),
    }
}
