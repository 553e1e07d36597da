//! The numbers of the events that active links wait for.
ghost use Rattle.std.specs.Prelude.{◌≡◌};
ghost use Rattle.std.specs.Option.{option_copied, option_and_then};
ghost use Rattle.mh_group.specs.declared.attribute.Attribute.TheVariants as attribute;
ghost use Rattle.mh_group.specs.Table.{is_link};
ghost use Rattle.mh_model.specs.Items.{hears_type};
ghost use Rattle.mh_model.specs.Property as property;
ghost use Rattle.mh_model.specs.State.{all};
ghost use Rattle.mh_live.specs.Hearing as spec;

use mh_base::{EventType, Value};
use mh_group::{Attribute, Class};
use mh_model::held::{as_event, as_value};
use mh_model::{Object, Properties};
use mh_store::Objects;

/// The number of the first event of this type for which an active link waits, in the order of the objects.
pub fn first_heard(kind: EventType, objects: &Objects) -> Option<i32>
    ensures { result ≡ spec.first_heard kind (all objects.now) }
{
    for place in 0..objects.len() {
        let number = number_at(kind, objects.at(place));
        if number.is_some() {
            return number;
        }
    }
    None
}

fn number_at(kind: EventType, found: Option<&Object>) -> Option<i32>
    ensures { result ≡ option_and_then (spec.number_heard kind) (option_copied found.entry) }
{
    match found {
        Some(object) => number_heard(kind, object),
        None => None,
    }
}

/// The number of an event of this type for which the object waits, where it is an active link.
fn number_heard(kind: EventType, object: &Object) -> Option<i32>
    ensures { result ≡ spec.number_heard kind object.now }
{
    if !object.body.running {
        return None;
    }
    let fixed = object.fixed.get();
    if is_link(fixed.class) {
        number_waited(kind, &fixed.properties)
    } else {
        None
    }
}

fn is_link(class: Class) -> bool
    ensures { result ≡ is_link class }
{
    matches!(class, Class::Link)
}

fn number_waited(kind: EventType, written: &Properties) -> Option<i32>
    ensures { result ≡ spec.number_waited kind written.now }
{
    if hears_type(written, kind) {
        number_in(as_value(written.get(Attribute::EventData)))
    } else {
        None
    }
}

fn hears_type(written: &Properties, kind: EventType) -> bool
    ensures { let heard = property.as_event (property.held attribute.EventType written.now) in
        result ≡ hears_type heard kind }
{
    match as_event(written.get(Attribute::EventType)) {
        Some(heard) => heard.number() == kind.number(),
        None => false,
    }
}

/// A number that meets what a link waits for: 0 where that is any.
fn number_in(wanted: Option<&Value>) -> Option<i32>
    ensures { result ≡ spec.number_in (option_copied wanted.entry) }
{
    match wanted {
        None => Some(0),
        Some(Value::Int(number)) => natural(number),
        Some(_) => None,
    }
}

/// A number that a script can say, which has no sign.
fn natural(number: &i32) -> Option<i32>
    ensures { result ≡ spec.natural number.now }
{
    if *number < 0 { None } else { Some(*number) }
}
