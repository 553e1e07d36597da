//! What an action puts in front of the work.
ghost use Rattle.std.specs.Prelude.{◌≡◌, ◌∷◌, [], IfOk, slice_get, Some};
ghost use Rattle.std.specs.Option.{option_copied};
ghost use Rattle.mh_work.specs.Listed.{listed};
ghost use Rattle.mh_model.specs.Saying as spec;
ghost use Rattle.mh_model.specs.Tokens.{slot_items};

use mh_base::{EventType, ObjRef, Value};
use mh_group::ActionName;
use mh_model::kinds::test;
use mh_model::{Event, Item, Object, Operator};
use mh_widgets::tokens::slot_of;
use mh_work::Put;
use std::alloc::AllocError;

/// What the action puts, done to the object at this reference; nothing where there is none. It takes
/// no memory.
pub fn put_items(
    name: ActionName,
    values: &[Value],
    at: &ObjRef,
    found: Option<&Object>,
) -> Result<Put, AllocError>
    ensures { IfOk result (λ put. listed put
        ≡ spec.put_items_at name values.now at.now (option_copied found.entry)) }
{
    let Some(object) = found else {
        return Ok(Put::Nothing);
    };
    match (name, values) {
        (ActionName::Run | ActionName::Activate, _) => Ok(Put::One(Item::Run(at.clone()?))),
        (ActionName::Stop | ActionName::Deactivate, _) => { Ok(Put::One(Item::Halt(at.clone()?))) }
        (ActionName::Preload, _) => Ok(Put::One(Item::Prepare(at.clone()?))),
        (ActionName::Unload, _) => unloading(at),
        (ActionName::SendEvent, [Value::Object(source), Value::Int(kind), more @ ..]) => {
            sent(source, event_numbered(*kind), more)
        }
        (ActionName::TestVariable, [Value::Int(number), value]) => {
            tested(at, Operator::of_number(*number), object.value(), value)
        }
        (ActionName::CallActionSlot, _) => slot_called(values, object),
        _ => Ok(Put::Nothing),
    }
}

/// An object stops before it is no longer available.
fn unloading(at: &ObjRef) -> Result<Put, AllocError>
    ensures { IfOk result (λ put. listed put ≡ Item.Halt at.now ∷ Item.Drop at.now ∷ []) }
{
    Ok(Put::Two(Item::Halt(at.clone()?), Item::Drop(at.clone()?)))
}

/// What a slot does, of the member that has the token.
fn slot_called(values: &[Value], object: &Object) -> Result<Put, AllocError>
    ensures { IfOk result (λ put. listed put
        ≡ slot_items values.now object.now.fixed object.now.body) }
{
    match slot_of(values, object) {
        Some(effect) => Ok(Put::Acts(effect.clone()?)),
        None => Ok(Put::Nothing),
    }
}

/// The type of events with the number.
fn event_numbered(number: i32) -> Option<EventType>
    ensures { result ≡ spec.event_numbered number }
{
    if number < 0 {
        None
    } else {
        EventType::of_number(number as u32)
    }
}

/// An event of the source, with the data if there is any.
fn sent(source: &ObjRef, kind: Option<EventType>, data: &[Value]) -> Result<Put, AllocError>
    ensures { IfOk result (λ put. listed put ≡ spec.sent source.now kind «data».now) }
{
    let Some(kind) = kind else {
        return Ok(Put::Nothing);
    };
    let source = source.clone()?;
    let data = first(data)?;
    Ok(Put::One(Item::Emit(Event { source, kind, data })))
}

fn first(values: &[Value]) -> Result<Option<Value>, AllocError>
    ensures { IfOk result (λ value. value ≡ slice_get values.now 0) }
{
    match values {
        [value, ..] => Ok(Some(value.clone()?)),
        [] => Ok(None),
    }
}

/// The event that says how the test went. A variable that holds nothing is not tested.
#[inline(always)]
pub fn tested(
    at: &ObjRef,
    operator: Option<Operator>,
    held: Option<&Value>,
    given: &Value,
) -> Result<Put, AllocError>
    ensures { IfOk result (λ put. listed put
        ≡ spec.tested at.now operator (option_copied held.entry) given.now) }
{
    match (operator, held) {
        (Some(operator), Some(held)) => Ok(Put::One(test_event(at, test(operator, held, given))?)),
        _ => Ok(Put::Nothing),
    }
}

#[inline(always)]
fn test_event(source: &ObjRef, truth: bool) -> Result<Item, AllocError>
    ensures { IfOk result (λ item. item ≡ Item.Emit (record {
      source = source.now;
      kind = EventType.TestEvent;
      «data» = Some (Value.Bool truth);
    })) }
{
    Ok(Item::Emit(Event {
        source: source.clone()?,
        kind: EventType::TestEvent,
        data: Some(Value::Bool(truth)),
    }))
}
