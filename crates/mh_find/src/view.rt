//! What is told apart of the states of trials.
//!
//! Left out is what nothing that comes later can ask for: the display stack, colours, drawings, locks, faults and the
//! clock, of which only what timers have left counts.
use crate::digest::Digest;
use mh_base::{ObjRef, Value};
use mh_group::Attribute;
use mh_group::attribute::ALL;
use mh_machine::Machine;
use mh_model::{Body, Entry, Held, Object, Properties, Timer, Transition};
use mh_store::Objects;

/// The state of a trial, as two words.
#[derive(Clone, Copy)]
pub struct View {
    /// Where it is, what runs, and what is referred to.
    pub outline: u64,
    /// All that is told apart.
    pub whole: u64,
}

/// The state of the machine of a trial, with these timers.
pub fn view_of(machine: &Machine, timers: &[Timer]) -> View {
    let mut digest = Digest::new();
    put_outline(&mut digest, machine, timers);
    let outline = digest.word();
    put_rest(&mut digest, machine, timers);
    View {
        outline,
        whole: digest.word(),
    }
}

/// Where it is, what runs, and what is referred to.
fn put_outline(digest: &mut Digest, machine: &Machine, timers: &[Timer]) {
    put_place(digest, machine);
    put_timers(digest, timers);
    put_lives(digest, machine.objects());
}

/// What else is told apart.
fn put_rest(digest: &mut Digest, machine: &Machine, timers: &[Timer]) {
    put_moments(digest, present(machine), timers);
    digest.put(machine.queue().len() as u64);
    put_bodies(digest, machine.objects());
}

/// The moment at which the machine stands, in milliseconds.
fn present(machine: &Machine) -> u32 {
    machine.moments().present
}

fn put_place(digest: &mut Digest, machine: &Machine) {
    digest.put_bytes(machine.application().as_bytes());
    match machine.scene() {
        Some(scene) => digest.put_bytes(scene.as_bytes()),
        None => digest.put(0),
    }
    match machine.interaction() {
        Some(begun) => put_ref(digest, &begun.object),
        None => digest.put(0),
    }
    put_transition(digest, machine.transition());
    digest.put(machine.late().len() as u64);
    digest.put_flag(machine.is_settled());
}

fn put_transition(digest: &mut Digest, transition: &Transition) {
    match transition {
        Transition::Rests => digest.put(0),
        Transition::Awaits(scene) => digest.put_bytes(scene.as_bytes()),
        Transition::Begun => digest.put(1),
    }
}

fn put_timers(digest: &mut Digest, timers: &[Timer]) {
    for timer in timers {
        digest.put_bytes(timer.group.as_bytes());
        digest.put_signed(timer.id);
    }
}

fn put_moments(digest: &mut Digest, now: u32, timers: &[Timer]) {
    for timer in timers {
        digest.put(timer.due.saturating_sub(u64::from(now)));
    }
}

fn put_lives(digest: &mut Digest, objects: &Objects) {
    for place in 0..objects.len() {
        if let Some(object) = objects.at(place) {
            put_life(digest, &object.body);
            put_reference(digest, object.value());
        }
    }
}

fn put_life(digest: &mut Digest, body: &Body) {
    digest.put_flag(body.available);
    digest.put_flag(body.running);
    digest.put_flag(body.highlighted);
    digest.put_flag(body.selected);
    digest.put(body.token as u64);
}

/// What a variable refers to, or its truth value; of other values nothing.
fn put_reference(digest: &mut Digest, value: Option<&Value>) {
    match value {
        Some(Value::Bool(truth)) => digest.put_flag(*truth),
        Some(Value::Object(at)) => put_ref(digest, at),
        Some(Value::Content(name)) => digest.put_bytes(name.as_bytes()),
        _ => {}
    }
}

fn put_bodies(digest: &mut Digest, objects: &Objects) {
    for place in 0..objects.len() {
        if let Some(object) = objects.at(place) {
            put_body(digest, object);
        }
    }
}

fn put_body(digest: &mut Digest, object: &Object) {
    let body = &object.body;
    if let Some(value) = object.value() {
        put_value(digest, value);
    }
    digest.put_bytes(object.text());
    digest.put(body.point as u64);
    digest.put_flag(body.overwrites);
    put_changes(digest, &ALL, &body.changes);
    digest.put(body.list.first() as u64);
    put_entries(digest, body.list.entries());
}

fn put_changes(digest: &mut Digest, attributes: &[Attribute], changes: &Properties) {
    for attribute in attributes {
        if let Some(held) = changes.get(*attribute) {
            digest.put(u64::from(attribute.number()));
            put_held(digest, held);
        }
    }
}

fn put_held(digest: &mut Digest, held: &Held) {
    match held {
        Held::Value(value) => put_value(digest, value),
        Held::Pair(first, second) => {
            digest.put_signed(*first);
            digest.put_signed(*second);
        }
        _ => {}
    }
}

fn put_entries(digest: &mut Digest, entries: &[Entry]) {
    for entry in entries {
        digest.put_flag(entry.selected);
        put_ref(digest, &entry.object);
    }
}

fn put_value(digest: &mut Digest, value: &Value) {
    match value {
        Value::Bool(truth) => digest.put_flag(*truth),
        Value::Int(number) => digest.put_signed(*number),
        Value::Octets(octets) => digest.put_bytes(octets.as_slice()),
        Value::Object(at) => put_ref(digest, at),
        Value::Content(name) => digest.put_bytes(name.as_bytes()),
    }
}

fn put_ref(digest: &mut Digest, at: &ObjRef) {
    digest.put(u64::from(at.number));
    digest.put_bytes(at.group.as_bytes());
}
