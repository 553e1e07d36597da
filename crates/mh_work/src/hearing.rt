//! Hearing: whether a link hears an event, and what it then puts.
ghost use Rattle.std.specs.Prelude.{◌≡◌, ◌++◌, OnOk};
ghost use Rattle.std.specs.Option.{option_copied};
ghost use Rattle.mh_model.specs.Items.{hears_source, hears_type};
ghost use Rattle.mh_work.specs.Links.{fires, answer};
ghost use Rattle.mh_work.specs.Batches.{written};

use crate::batch::Batch;
use crate::groups::push_effect;
use mh_base::{EventType, ObjRef, Value};
use mh_group::Attribute;
use mh_model::event::hears_data;
use mh_model::held::{as_event, as_value};
use mh_model::parts::same_ref;
use mh_model::{Event, Object};
use std::alloc::AllocError;

/// What a link puts, if it hears the event.
pub(crate) fn put_answer(
    batches: &mut Vec<Batch>,
    event: &Event,
    object: &Object,
) -> Result<(), AllocError>
    ensures { OnOk result
        (written batches.new.items ≡ written batches.old.items ++ answer event.now object.now) }
{
    if fires(event, object) {
        push_effect(batches, object.fixed.get(), Attribute::LinkEffect)?;
    }
    Ok(())
}

/// Whether a link runs, and waits for the event's type, source and data.
fn fires(event: &Event, link: &Object) -> bool
    ensures { result ≡ fires event.now link.now }
{
    if !link.body.running {
        return false;
    }
    let written = &link.fixed.get().properties;
    if !hears_type(as_event(written.get(Attribute::EventType)), event.kind) {
        return false;
    }
    if !hears_source(as_value(written.get(Attribute::EventSource)), &event.source) {
        return false;
    }
    hears_data(as_value(written.get(Attribute::EventData)), &event.data)
}

fn hears_source(heard: Option<&Value>, source: &ObjRef) -> bool
    ensures { result ≡ hears_source (option_copied heard.entry) source.now }
{
    match heard {
        Some(Value::Object(at)) => same_ref(at, source),
        _ => false,
    }
}

fn hears_type(heard: Option<EventType>, kind: EventType) -> bool
    ensures { result ≡ hears_type heard kind }
{
    match heard {
        Some(heard) => heard.number() == kind.number(),
        None => false,
    }
}
