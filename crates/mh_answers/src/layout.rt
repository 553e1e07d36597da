//! The edits that lay a file out (`mh_edit::changes_of`). Changes that change nothing are left out.
ghost use Rattle.std.specs.Prelude.{◌≡◌, ◌++◌, map, string_bytes, IfOk, OnOk};
ghost use Rattle.serde_json.specs.View.{view};
ghost use Rattle.mh_edit.specs.Layout.{spaces};
ghost use Rattle.mh_answers.specs.Layout as spec;

use crate::renaming::edit_value;
use mh_edit::{Change, Extent, changes_of, text_of};
use mh_protocol::{Counter, Unit};
use serde_json::{Value, push};
use std::alloc::{AllocError, Global};

/// The edits that lay the file out.
#[tactic(auto, unfolding(crate::specs::Layout::layout_edits))]
pub fn layout_edits(alloc: Global, unit: Unit, bytes: &[u8]) -> Result<Value, AllocError>
    ensures { IfOk result (λ value. view value ≡ spec.layout_edits unit bytes.now) }
{
    let changes = changes_of(alloc, bytes)?;
    let mut found = Vec::new(alloc);
    push_changes(alloc, &mut found, unit, bytes, changes.as_slice())?;
    Ok(Value::Array(found))
}

fn push_changes(
    alloc: Global,
    found: &mut Vec<Value>,
    unit: Unit,
    bytes: &[u8],
    changes: &[Change],
) -> Result<(), AllocError>
    ensures { OnOk result (map view found.new.items ≡ map view found.old.items ++ spec.edits_from unit bytes.now 0 changes.now) }
{
    let mut places = Counter::of(unit, bytes);
    let mut end = 0usize;
    for change in changes {
        let start = end.saturating_add(change.kept);
        let blanks = Extent {
            start,
            length: change.old,
        };
        push_change(alloc, found, &mut places, bytes, blanks, change.new)?;
        end = start.saturating_add(change.old);
    }
    Ok(())
}

/// Pushes the edit of blanks, unless they are the spaces that are wanted.
fn push_change(
    alloc: Global,
    found: &mut Vec<Value>,
    places: &mut Counter<'_>,
    bytes: &[u8],
    blanks: Extent,
    wanted: usize,
) -> Result<(), AllocError>
    ensures is { OnOk result (map view found.new.items ≡ map view found.old.items ++ spec.edit_of places.old bytes.now blanks wanted) }
    ensures same { places.new ≡ places.old }
{
    let spaces = spaces_of(alloc, wanted)?;
    if text_of(bytes, blanks) == spaces.as_bytes() {
        return Ok(());
    }
    let range = places.range_at(blanks.start, blanks.length);
    push(found, edit_value(alloc, range, spaces.as_str())?)
}

#[tactic(auto, using(crate::proofs::SpaceLemmas::one_more))]
fn spaces_of(alloc: Global, count: usize) -> Result<String, AllocError>
    ensures { IfOk result (λ text. string_bytes text ≡ spaces count) }
{
    let mut text = String::new(alloc);
    for _ in 0..count {
        text.push_str(" ")?;
    }
    Ok(text)
}
