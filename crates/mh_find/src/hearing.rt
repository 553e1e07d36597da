//! Which inputs something listens for, in the state of a trial.
use crate::links::{Wanted, awaited_by, source_of, wanted_by};
use crate::stimulus::Stimulus;
use mh_base::{EventType, GroupName, ObjRef};
use mh_group::Class;
use mh_machine::{Machine, register_of};
use mh_model::parts::group_ref;
use mh_model::{KEYS, Key, LONGEST_TICK, Object, Timer, Transition};
use std::alloc::{AllocError, Global};

/// Of how many timers the moments are tried at once.
const MOST_TICKS: usize = 4;

/// A number for a link that waits for an event whatever its data are.
const ANY_NUMBER: i32 = 1;

/// The inputs for which something listens where the machine of a trial has come to, with these timers, each once.
pub fn heard(
    alloc: Global,
    machine: &Machine,
    timers: &[Timer],
) -> Result<Vec<Stimulus>, AllocError> {
    let mut found = Vec::new(alloc);
    push_ticks(&mut found, machine.moments().present, timers)?;
    push_scene(&mut found, machine)?;
    push_pressed(&mut found, machine)?;
    let keys = keys_heard(machine)?;
    let objects = machine.objects();
    for place in 0..objects.len() {
        if let Some(object) = objects.at(place) {
            push_awaited(&mut found, object, keys, machine)?;
        }
    }
    Ok(found)
}

fn push_once(found: &mut Vec<Stimulus>, stimulus: Stimulus) -> Result<(), AllocError> {
    if !has(found.as_slice(), stimulus) {
        found.push(stimulus)?;
    }
    Ok(())
}

fn has(found: &[Stimulus], stimulus: Stimulus) -> bool {
    found.iter().any(|other| *other == stimulus)
}

/// A tick to the moment of each of the first timers.
fn push_ticks(found: &mut Vec<Stimulus>, now: u32, timers: &[Timer]) -> Result<(), AllocError> {
    for timer in timers.iter().take(MOST_TICKS) {
        push_once(found, Stimulus::Tick(length_to(now, timer.due)))?;
    }
    Ok(())
}

/// How long the tick to this moment is, or the longest where that is too far.
fn length_to(now: u32, due: u64) -> u32 {
    let left = due.saturating_sub(u64::from(now));
    if left < u64::from(LONGEST_TICK) {
        (left as u32).max(1)
    } else {
        LONGEST_TICK
    }
}

/// The file of the scene for which a transition waits. A name with a space cannot be written in a script.
fn push_scene(found: &mut Vec<Stimulus>, machine: &Machine) -> Result<(), AllocError> {
    let Transition::Awaits(scene) = machine.transition() else {
        return Ok(());
    };
    if has_space(scene.as_bytes()) {
        return Ok(());
    }
    match place_of(machine.service().late(), scene) {
        Some(place) => push_once(found, Stimulus::Scene(place)),
        None => Ok(()),
    }
}

fn has_space(name: &[u8]) -> bool {
    name.iter().any(|byte| *byte == b' ')
}

fn place_of(names: &[GroupName], scene: &GroupName) -> Option<usize> {
    names.iter().position(|name| *name == *scene)
}

/// The keys that change the object that interacts, if one does.
fn push_pressed(found: &mut Vec<Stimulus>, machine: &Machine) -> Result<(), AllocError> {
    match machine.interaction() {
        Some(begun) => push_keys_of(found, machine.objects().get(&begun.object)),
        None => Ok(()),
    }
}

fn push_keys_of(found: &mut Vec<Stimulus>, object: Option<&Object>) -> Result<(), AllocError> {
    match object {
        Some(object) if is_button(object) => push_all(found, &[Key::Cancel, Key::Select]),
        Some(_) => push_all(
            found,
            &[
                Key::Left,
                Key::Right,
                Key::Cancel,
                Key::Digit0,
                Key::Digit1,
                Key::Select,
            ],
        ),
        None => Ok(()),
    }
}

fn is_button(object: &Object) -> bool {
    matches!(object.fixed.get().class, Class::PushButton)
}

fn push_all(found: &mut Vec<Stimulus>, keys: &[Key]) -> Result<(), AllocError> {
    for key in keys {
        push_once(found, Stimulus::Key(*key))?;
    }
    Ok(())
}

/// The register by which the scene hears keys, if they go to links at all.
fn keys_heard(machine: &Machine) -> Result<Option<i32>, AllocError> {
    if machine.interaction().is_some() {
        return Ok(None);
    }
    match machine.scene() {
        Some(scene) => Ok(Some(register_in(scene, machine)?)),
        None => Ok(None),
    }
}

fn register_in(scene: &GroupName, machine: &Machine) -> Result<i32, AllocError> {
    let source = group_ref(scene)?;
    Ok(register_of(machine.objects().get(&source)))
}

/// The input for which the object listens, if it is a link that runs.
fn push_awaited(
    found: &mut Vec<Stimulus>,
    object: &Object,
    keys: Option<i32>,
    machine: &Machine,
) -> Result<(), AllocError> {
    let Some(source) = source_of(object) else {
        return Ok(());
    };
    let wanted = wanted_by(object);
    match awaited_by(object) {
        Some(EventType::UserInput) if is_scene(source, machine) => push_keys(found, wanted, keys),
        Some(EventType::StreamEvent) if is_streaming(source, machine) => {
            push_stream(found, number_in(wanted))
        }
        Some(EventType::EngineEvent) if is_application(source, machine) => {
            push_engine(found, number_in(wanted))
        }
        _ => Ok(()),
    }
}

fn is_scene(source: &ObjRef, machine: &Machine) -> bool {
    match machine.scene() {
        Some(scene) => source.number == 0 && source.group == *scene,
        None => false,
    }
}

fn is_application(source: &ObjRef, machine: &Machine) -> bool {
    source.number == 0 && source.group == *machine.application()
}

fn is_streaming(source: &ObjRef, machine: &Machine) -> bool {
    match machine.objects().get(source) {
        Some(object) => matches!(object.fixed.get().class, Class::Stream) && object.body.running,
        None => false,
    }
}

fn push_keys(
    found: &mut Vec<Stimulus>,
    wanted: Wanted,
    register: Option<i32>,
) -> Result<(), AllocError> {
    let Some(register) = register else {
        return Ok(());
    };
    match wanted {
        Wanted::All => push_passing(found, &[Key::Digit1, Key::Red, Key::Select], register),
        Wanted::Number(number) => match key_of(number) {
            Some(key) => push_passing(found, &[key], register),
            None => Ok(()),
        },
        Wanted::Other => Ok(()),
    }
}

fn push_passing(found: &mut Vec<Stimulus>, keys: &[Key], register: i32) -> Result<(), AllocError> {
    for key in keys {
        if key.passes(register) {
            push_once(found, Stimulus::Key(*key))?;
        }
    }
    Ok(())
}

fn key_of(number: i32) -> Option<Key> {
    KEYS.iter().copied().find(|key| key.number() == number)
}

fn push_stream(found: &mut Vec<Stimulus>, tag: Option<i32>) -> Result<(), AllocError> {
    match tag {
        Some(tag) => push_once(found, Stimulus::Stream(tag)),
        None => Ok(()),
    }
}

fn push_engine(found: &mut Vec<Stimulus>, number: Option<i32>) -> Result<(), AllocError> {
    match number {
        Some(number) => push_once(found, Stimulus::Engine(number)),
        None => Ok(()),
    }
}

/// The number that an input brings to a link with these wishes. A negative one cannot be written in a script.
fn number_in(wanted: Wanted) -> Option<i32> {
    match wanted {
        Wanted::All => Some(ANY_NUMBER),
        Wanted::Number(number) if number >= 0 => Some(number),
        _ => None,
    }
}
