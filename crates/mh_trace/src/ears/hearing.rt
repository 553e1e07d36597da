//! Whether a link hears an event.
ghost use Rattle.std.specs.Prelude.{◌≡◌, ◌&&◌};
ghost use Rattle.std.specs.Option.{option_copied};
ghost use Rattle.mh_group.specs.declared.attribute.Attribute.TheVariants as attribute;
ghost use Rattle.mh_group.specs.Table.{is_link};
ghost use Rattle.mh_model.specs.Items as model;
ghost use Rattle.mh_model.specs.Property as property;
ghost use Rattle.mh_trace.specs.Ears as spec;

use mh_base::{EventType, ObjRef, Value};
use mh_group::{Attribute, Class};
use mh_model::event::hears_data;
use mh_model::held::{as_event, as_value};
use mh_model::parts::same_ref;
use mh_model::{Event, Object, Properties};

/// Whether the object is a link that hears the event.
pub fn hears(event: &Event, object: &Object) -> bool
    ensures { result ≡ model.matches event.now object.now }
{
    let is_awaited = waits(event, object);
    let is_alike = hears_data(wanted(object), &event.data);
    are_all(object.body.running, is_awaited, is_alike)
}

fn are_all(first: bool, second: bool, third: bool) -> bool
    ensures { result ≡ ((first && second) && third) }
{
    first && second && third
}

/// Whether the object is a link that waits for events of this source and type, if it runs, and with whatever data.
pub fn waits(event: &Event, object: &Object) -> bool
    ensures { result ≡ spec.waits event.now object.now }
{
    let fixed = object.fixed.get();
    if !is_link(fixed.class) {
        return false;
    }
    if !hears_source(&fixed.properties, &event.source) {
        return false;
    }
    hears_type(&fixed.properties, event.kind)
}

fn is_link(class: Class) -> bool
    ensures { result ≡ is_link class }
{
    matches!(class, Class::Link)
}

fn hears_source(written: &Properties, source: &ObjRef) -> bool
    ensures { let heard = property.as_value (property.held attribute.EventSource written.now) in
        result ≡ model.hears_source heard source.now }
{
    match as_value(written.get(Attribute::EventSource)) {
        Some(Value::Object(at)) => same_ref(at, source),
        _ => false,
    }
}

fn hears_type(written: &Properties, kind: EventType) -> bool
    ensures { let heard = property.as_event (property.held attribute.EventType written.now) in
        result ≡ model.hears_type heard kind }
{
    match as_event(written.get(Attribute::EventType)) {
        Some(heard) => heard.number() == kind.number(),
        None => false,
    }
}

/// The data that a link waits for, if it waits for some.
pub fn wanted(object: &Object) -> Option<&Value>
    ensures { option_copied result ≡ spec.wanted object.now }
{
    as_value(object.fixed.get().properties.get(Attribute::EventData))
}
