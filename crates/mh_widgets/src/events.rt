//! The events that a widget emits.
ghost use Rattle.std.specs.Prelude.{◌≡◌, ◌∷◌, [], IfOk};
ghost use Rattle.mh_model.specs.Items.{plain_event};
ghost use Rattle.mh_model.specs.Widget.{event_with};
ghost use Rattle.mh_model.specs.Programs.{counted};

use crate::counts::counted;
use mh_base::{EventType, ObjRef, Value};
use mh_model::{Event, Item};
use std::alloc::{AllocError, Global};

/// An event without data.
pub(crate) fn plain_event(source: &ObjRef, kind: EventType) -> Result<Item, AllocError>
    ensures { IfOk result (λ item. item ≡ plain_event source.now kind) }
{
    let source = source.clone()?;
    Ok(Item::Emit(Event {
        source,
        kind,
        data: None,
    }))
}

/// An event that tells a count.
pub(crate) fn count_event(
    source: &ObjRef,
    kind: EventType,
    count: usize,
) -> Result<Item, AllocError>
    ensures { IfOk result (λ item. item ≡ event_with source.now kind (Value.Int (counted count))) }
{
    let source = source.clone()?;
    Ok(Item::Emit(Event {
        source,
        kind,
        data: Some(Value::Int(counted(count))),
    }))
}

/// An event that tells whether something is so.
pub(crate) fn truth_event(source: &ObjRef, kind: EventType, truth: bool) -> Result<Item, AllocError>
    ensures { IfOk result (λ item. item ≡ event_with source.now kind (Value.Bool truth)) }
{
    let source = source.clone()?;
    Ok(Item::Emit(Event {
        source,
        kind,
        data: Some(Value::Bool(truth)),
    }))
}

/// One event without data.
pub(crate) fn one_event(
    alloc: Global,
    at: &ObjRef,
    kind: EventType,
) -> Result<Vec<Item>, AllocError>
    ensures { IfOk result (λ items. items.items ≡ plain_event at.now kind ∷ []) }
{
    let mut items = Vec::new(alloc);
    items.push(plain_event(at, kind)?)?;
    Ok(items)
}
