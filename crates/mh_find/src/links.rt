//! What a link waits for.
use mh_base::{EventType, ObjRef, Value};
use mh_group::{Attribute, Class};
use mh_model::held::{as_event, as_value};
use mh_model::{Fixed, Object};
use mh_service::Service;

/// The event for which a link waits that runs, if the object is one.
pub fn awaited_by(object: &Object) -> Option<EventType> {
    if !object.body.running {
        return None;
    }
    awaited(object.fixed.get())
}

/// The event for which a link waits when it runs, if the object is one.
fn awaited(fixed: &Fixed) -> Option<EventType> {
    if matches!(fixed.class, Class::Link) {
        as_event(fixed.properties.get(Attribute::EventType))
    } else {
        None
    }
}

/// The object whose event a link waits for.
pub fn source_of(object: &Object) -> Option<&ObjRef> {
    match as_value(object.fixed.get().properties.get(Attribute::EventSource)) {
        Some(Value::Object(at)) => Some(at),
        _ => None,
    }
}

/// Which data of an event a link waits for.
#[derive(Clone, Copy)]
pub enum Wanted {
    /// Whatever the data are.
    All,
    /// This number.
    Number(i32),
    /// What no input brings.
    Other,
}

/// Which data of an event the link waits for.
pub fn wanted_by(object: &Object) -> Wanted {
    match as_value(object.fixed.get().properties.get(Attribute::EventData)) {
        None => Wanted::All,
        Some(Value::Int(number)) => Wanted::Number(*number),
        Some(_) => Wanted::Other,
    }
}

/// Whether a link of the service waits for a timer.
pub fn hears_timers(service: &Service) -> bool {
    for parts in service.groups().values() {
        for part in parts.as_slice() {
            if waits_for_timer(part.get()) {
                return true;
            }
        }
    }
    false
}

fn waits_for_timer(fixed: &Fixed) -> bool {
    matches!(awaited(fixed), Some(EventType::TimerFired))
}
