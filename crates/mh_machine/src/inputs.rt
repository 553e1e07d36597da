//! What comes of inputs when they are taken.
ghost use Rattle.std.specs.Prelude.{◌≡◌, Some, IfOk, OnOk, ◌++◌, map, filter};
ghost use Rattle.std.specs.Option.{option_copied};
ghost use Rattle.mh_model.specs.Service.{parts};
ghost use Rattle.mh_model.specs.State.{all};
ghost use Rattle.mh_model.specs.Step as spec;
ghost use Rattle.mh_work.specs.Links.{IsIndex};
ghost use Rattle.mh_machine.specs.Marks.{is_meant};
ghost use Rattle.mh_machine.specs.Taking.{told_by, content_by};
ghost use Rattle.mh_work.specs.Batches.{written};

use mh_base::{EventType, GroupName, ObjRef, Value};
use mh_group::{Attribute, Class};
use mh_model::held::as_int;
use mh_model::parts::group_ref;
use mh_model::{Event, Key, Object};
use mh_store::Objects;
use mh_work::{Batch, Links};
use std::alloc::{AllocError, Global};

/// What a key puts: the effects of the links that hear it as an event of the scene.
pub fn key_batches(
    alloc: Global,
    key: Key,
    scene: &GroupName,
    links: &Links,
    objects: &Objects,
) -> Result<Vec<Batch>, AllocError>
    requires { IsIndex links.now (parts (all objects.now)) }
    ensures { IfOk result (λ batches. written batches.items
        ≡ spec.key_items key (Some scene.now) (all objects.now)) }
{
    let source = group_ref(scene)?;
    if !key.passes(register_of(objects.get(&source))) {
        return Ok(Vec::new(alloc));
    }
    links.heard(alloc, &key_event(key, source), objects)
}

/// The register of a scene that says which keys it hears.
pub fn register_of(scene: Option<&Object>) -> i32
    ensures { result ≡ spec.register_of (option_copied scene.entry) }
{
    match scene {
        Some(object) => as_int(object.read(Attribute::InputEventReg), 4),
        None => 4,
    }
}

/// The event that a key is to a scene.
pub fn key_event(key: Key, source: ObjRef) -> Event
    ensures { result ≡ spec.key_event key source }
{
    Event {
        source,
        kind: EventType::UserInput,
        data: Some(Value::Int(key.number())),
    }
}

/// An event of the engine, as one of the active application.
pub fn engine_event(number: i32, application: &GroupName) -> Result<Event, AllocError>
    ensures { IfOk result (λ event. event ≡ spec.engine_event number application.now) }
{
    Ok(Event {
        source: group_ref(application)?,
        kind: EventType::EngineEvent,
        data: Some(Value::Int(number)),
    })
}

/// The events of all streams that run, in the order of the objects.
pub fn stream_events(alloc: Global, tag: i32, objects: &Objects) -> Result<Vec<Event>, AllocError>
    ensures { IfOk result (λ events. events.items
        ≡ map (spec.stream_event tag) (filter spec.is_streaming (all objects.now))) }
{
    let mut events = Vec::new(alloc);
    for place in 0..objects.len() {
        push_stream_event(&mut events, tag, objects.at(place))?;
    }
    Ok(events)
}

fn push_stream_event(
    events: &mut Vec<Event>,
    tag: i32,
    found: Option<&Object>,
) -> Result<(), AllocError>
    ensures { OnOk result (events.new.items ≡ events.old.items ++ told_by tag (option_copied found.entry)) }
{
    match found {
        Some(object) if is_streaming(object) => {
            events.push(stream_event(tag, object)?)?;
            Ok(())
        }
        _ => Ok(()),
    }
}

fn is_streaming(object: &Object) -> bool
    ensures { result ≡ spec.is_streaming object.now }
{
    matches!(object.fixed.get().class, Class::Stream) && object.body.running
}

fn stream_event(tag: i32, object: &Object) -> Result<Event, AllocError>
    ensures { IfOk result (λ event. event ≡ spec.stream_event tag object.now) }
{
    Ok(Event {
        source: object.fixed.get().key.clone()?,
        kind: EventType::StreamEvent,
        data: Some(Value::Int(tag)),
    })
}

/// The events of these objects, which wait for a file, in the order of all objects.
pub fn content_events(
    alloc: Global,
    waiting: &[ObjRef],
    objects: &Objects,
) -> Result<Vec<Event>, AllocError>
    ensures { IfOk result (λ events. events.items ≡ map spec.content_event
        (filter (is_meant waiting.now) (all objects.now))) }
{
    if waiting.is_empty() {
        return Ok(Vec::new(alloc));
    }
    let places = objects.places_of(waiting)?;
    let mut events = Vec::new(alloc);
    for place in &places {
        push_content_event(&mut events, objects.at(*place))?;
    }
    Ok(events)
}

fn push_content_event(events: &mut Vec<Event>, found: Option<&Object>) -> Result<(), AllocError>
    ensures { OnOk result (events.new.items ≡ events.old.items ++ content_by (option_copied found.entry)) }
{
    if let Some(object) = found {
        events.push(content_event(object)?)?;
    }
    Ok(())
}

fn content_event(object: &Object) -> Result<Event, AllocError>
    ensures { IfOk result (λ event. event ≡ spec.content_event object.now) }
{
    Ok(Event {
        source: object.fixed.get().key.clone()?,
        kind: EventType::ContentAvailable,
        data: None,
    })
}
