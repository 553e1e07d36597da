//! What a step lets links hear, and what each link that waits for it makes of it.

pub(crate) mod hearing;
pub(crate) mod json;
pub(crate) mod listening;
pub(crate) mod text;

ghost use Rattle.std.specs.Prelude.{◌≡◌, ◌++◌, [], None, Some, OnOk, IfOk};
ghost use Rattle.std.specs.List.{flat_map};
ghost use Rattle.std.specs.Option.{option_copied, option_map_or};
ghost use Rattle.mh_model.specs.Service.{parts};
ghost use Rattle.mh_model.specs.State.{all};
ghost use Rattle.mh_trace.specs.Ears as spec;
ghost use Rattle.mh_trace.specs.Listening.{IsIndexOf, at_place};

use crate::ears::hearing::{waits, wanted};
use crate::ears::json::{put_heard_json, put_stopped_json, put_unlike_json};
use crate::ears::listening::{Listening, places};
use crate::ears::text::{put_heard, put_stopped, put_unlike};
use crate::form::Form;
use crate::words::{put_integer, put_ref};
use mh_base::{GroupName, ObjRef, Value};
use mh_machine::{Machine, engine_event, key_event, register_of};
use mh_model::event::hears_data;
use mh_model::parts::group_ref;
use mh_model::{Event, Input, Item, Key, Object, Waiting};
use mh_store::Objects;
use mh_told::text::Text;
use std::alloc::{AllocError, Global};

/// Puts what each link that waits for the event makes of it, in the order of the objects. `listening` is the index of
/// their links.
pub fn put_ears(
    alloc: Global,
    form: Form,
    text: &mut Text,
    told: &Option<Event>,
    objects: &Objects,
    listening: &Listening,
) -> Result<(), AllocError>
    requires { IsIndexOf listening.now.entries (parts (all objects.now)) }
    ensures { OnOk result (text.new ≡ text.old ++ spec.ears form told.now (all objects.now)) }
{
    match told {
        Some(event) => put_all_ears(alloc, form, text, event, objects, listening),
        None => Ok(()),
    }
}

fn put_all_ears(
    alloc: Global,
    form: Form,
    text: &mut Text,
    event: &Event,
    objects: &Objects,
    listening: &Listening,
) -> Result<(), AllocError>
    requires { IsIndexOf listening.now.entries (parts (all objects.now)) }
    ensures { OnOk result (text.new ≡ text.old ++ spec.ears form (Some event.now) (all objects.now)) }
{
    put_ears_at(
        alloc,
        form,
        text,
        event,
        objects,
        places(listening, event.source.number),
    )?;
    Ok(())
}

fn put_ears_at(
    alloc: Global,
    form: Form,
    text: &mut Text,
    event: &Event,
    objects: &Objects,
    places: &[usize],
) -> Result<(), AllocError>
    ensures { OnOk result (text.new
        ≡ text.old ++ flat_map (at_place (spec.ear form event.now) (all objects.now)) places.now) }
{
    for place in places {
        put_ear_at(alloc, form, text, event, objects.at(*place))?;
    }
    Ok(())
}

fn put_ear_at(
    alloc: Global,
    form: Form,
    text: &mut Text,
    event: &Event,
    found: Option<&Object>,
) -> Result<(), AllocError>
    ensures { OnOk result (text.new
        ≡ text.old ++ option_map_or (spec.ear form event.now) (option_copied found.entry) []) }
{
    match found {
        Some(object) => put_ear(alloc, form, text, event, object),
        None => Ok(()),
    }
}

fn put_ear(
    alloc: Global,
    form: Form,
    text: &mut Text,
    event: &Event,
    object: &Object,
) -> Result<(), AllocError>
    ensures { OnOk result (text.new ≡ text.old ++ spec.ear form event.now object.now) }
{
    if waits(event, object) {
        put_ear_by(alloc, form, text, event, object)
    } else {
        Ok(())
    }
}

fn put_ear_by(
    alloc: Global,
    form: Form,
    text: &mut Text,
    event: &Event,
    object: &Object,
) -> Result<(), AllocError>
    ensures { OnOk result (text.new ≡ text.old ++ spec.ear_by form event.now object.now) }
{
    let at = &object.fixed.get().key;
    if !object.body.running {
        return put_stopped_in(alloc, form, text, at);
    }
    if hears_data(wanted(object), &event.data) {
        put_heard_in(alloc, form, text, at)
    } else {
        put_unlike_in(alloc, form, text, at, wanted(object))
    }
}

fn put_heard_in(alloc: Global, form: Form, text: &mut Text, at: &ObjRef) -> Result<(), AllocError>
    ensures { OnOk result (text.new ≡ text.old ++ spec.heard_in form at.now) }
{
    match form {
        Form::Text => put_heard(text, at),
        Form::Json => put_heard_json(alloc, text, at),
    }
}

fn put_stopped_in(alloc: Global, form: Form, text: &mut Text, at: &ObjRef) -> Result<(), AllocError>
    ensures { OnOk result (text.new ≡ text.old ++ spec.stopped_in form at.now) }
{
    match form {
        Form::Text => put_stopped(text, at),
        Form::Json => put_stopped_json(alloc, text, at),
    }
}

fn put_unlike_in(
    alloc: Global,
    form: Form,
    text: &mut Text,
    at: &ObjRef,
    wanted: Option<&Value>,
) -> Result<(), AllocError>
    ensures { OnOk result (text.new
        ≡ text.old ++ spec.unlike_in form at.now (option_copied wanted.entry)) }
{
    match form {
        Form::Text => put_unlike(alloc, text, at, wanted),
        Form::Json => put_unlike_json(alloc, text, at, wanted),
    }
}

/// Puts where a key goes that no link can hear: to the object that interacts, or nowhere.
pub fn put_key_note(
    alloc: Global,
    text: &mut Text,
    key: Key,
    machine: &Machine,
) -> Result<(), AllocError>
    ensures { OnOk result (text.new ≡ text.old
        ++ spec.key_note key machine.now.interaction machine.now.scene (all machine.now.objects)) }
{
    match (machine.interaction(), machine.scene()) {
        (Some(begun), _) => put_pressed(text, &begun.object),
        (None, None) => text.put(b"; there is no scene"),
        (None, Some(scene)) => put_passed(alloc, text, key, scene, machine.objects()),
    }
}

fn put_passed(
    alloc: Global,
    text: &mut Text,
    key: Key,
    scene: &GroupName,
    objects: &Objects,
) -> Result<(), AllocError>
    ensures { OnOk result (text.new ≡ text.old ++ spec.key_note key None (Some scene.now) (all objects.now)) }
{
    let found = objects.get(&group_ref(scene)?);
    if key.passes(register_of(found)) {
        Ok(())
    } else {
        put_blocked(alloc, text, scene, found)
    }
}

#[tactic(auto, unfolding(crate::specs::Ears::pressed_note))]
fn put_pressed(text: &mut Text, at: &ObjRef) -> Result<(), AllocError>
    ensures { OnOk result (text.new ≡ text.old ++ spec.pressed_note at.now) }
{
    text.put(b"; goes to ")?;
    put_ref(text, at)?;
    text.put(b", which interacts")
}

#[tactic(auto, unfolding(crate::specs::Ears::blocked_note))]
fn put_blocked(
    alloc: Global,
    text: &mut Text,
    scene: &GroupName,
    found: Option<&Object>,
) -> Result<(), AllocError>
    ensures { OnOk result (text.new ≡ text.old ++ spec.blocked_note scene.now (option_copied found.entry)) }
{
    text.put(b"; blocked by register ")?;
    put_integer(alloc, text, register_of(found))?;
    text.put(b" of ")?;
    text.put(scene.as_bytes())
}

/// The event that the next step lets links hear, if it does, where this is the first item of the work, and this is
/// what waits first.
pub fn told(
    front: &Option<Item>,
    waiting: Option<&Waiting>,
    machine: &Machine,
) -> Result<Option<Event>, AllocError>
    ensures { IfOk result (λ event. event
        ≡ spec.told front.now (option_copied waiting.entry) machine.now) }
{
    match (front, waiting) {
        (Some(item), _) => told_by_item(item),
        (None, Some(waiting)) => told_by_waiting(waiting, machine),
        (None, None) => Ok(None),
    }
}

fn told_by_item(item: &Item) -> Result<Option<Event>, AllocError>
    ensures { IfOk result (λ event. event ≡ spec.told_by_item item.now) }
{
    match item {
        Item::Emit(event) if event.kind.is_sync() => Ok(Some(event.clone()?)),
        _ => Ok(None),
    }
}

fn told_by_waiting(waiting: &Waiting, machine: &Machine) -> Result<Option<Event>, AllocError>
    ensures { IfOk result (λ event. event ≡ spec.told_by_waiting waiting.now machine.now) }
{
    match waiting {
        Waiting::Event(event) => Ok(Some(event.clone()?)),
        Waiting::Input(Input::Key(key)) => key_told(*key, machine),
        Waiting::Input(Input::Engine(number)) => {
            Ok(Some(engine_event(*number, machine.application())?))
        }
        Waiting::Input(_) => Ok(None),
    }
}

/// The event that a key is to the scene, if links can hear it.
fn key_told(key: Key, machine: &Machine) -> Result<Option<Event>, AllocError>
    ensures { IfOk result (λ event. event
        ≡ spec.key_told key machine.now.interaction machine.now.scene (all machine.now.objects)) }
{
    match (machine.interaction(), machine.scene()) {
        (None, Some(scene)) => key_heard(key, scene, machine.objects()),
        _ => Ok(None),
    }
}

fn key_heard(key: Key, scene: &GroupName, objects: &Objects) -> Result<Option<Event>, AllocError>
    ensures { IfOk result (λ event. event ≡ spec.key_told key None (Some scene.now) (all objects.now)) }
{
    let source = group_ref(scene)?;
    if key.passes(register_of(objects.get(&source))) {
        Ok(Some(key_event(key, source)))
    } else {
        Ok(None)
    }
}
