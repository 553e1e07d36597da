//! A state, a line for each thing that is told of it.
ghost use Rattle.std.specs.Prelude.{◌≡◌, ◌++◌, [], OnOk, reverse};
ghost use Rattle.std.specs.List.{flat_map};
ghost use Rattle.std.specs.Option.{option_copied, option_map_or};
ghost use Rattle.mh_model.specs.State.{all};
ghost use Rattle.mh_state.specs.State as spec;

use mh_base::{GroupName, ObjRef, Value};
use mh_machine::Machine;
use mh_model::{Interaction, Object, Timer, Transition, Waiting};
use mh_stack::Walk;
use mh_store::Objects;
use mh_told::text::Text;
use mh_trace::short::put_short;
use mh_trace::words::{put_integer, put_waiting};
use mh_trace::{copied_refs, put_ref};
use std::alloc::{AllocError, Global};

/// Puts what is told of the machine's state.
#[tactic(auto, unfolding(crate::specs::State::state_text))]
pub fn put_state(alloc: Global, text: &mut Text, machine: &Machine) -> Result<(), AllocError>
    ensures { OnOk result (text.new ≡ text.old ++ spec.state_text machine.now) }
{
    put_configuration(text, machine)?;
    put_going(text, machine)?;
    put_late(text, machine.late())?;
    put_variables(alloc, text, machine.objects())?;
    put_timers(alloc, text, machine)?;
    put_waits(alloc, text, machine)?;
    put_stack(alloc, text, machine.stack())
}

#[tactic(auto, unfolding(crate::specs::State::configuration_text))]
fn put_configuration(text: &mut Text, machine: &Machine) -> Result<(), AllocError>
    ensures { OnOk result (text.new ≡ text.old ++ spec.configuration_text machine.now) }
{
    put_steps(text, machine.taken())?;
    put_moment(text, machine.moments().present)?;
    put_application(text, machine.application())?;
    put_scene(text, machine.scene())
}

#[tactic(auto, unfolding(crate::specs::State::steps_line))]
fn put_steps(text: &mut Text, steps: u64) -> Result<(), AllocError>
    ensures { OnOk result (text.new ≡ text.old ++ spec.steps_line steps) }
{
    put_number(text, b"steps ", steps)
}

#[tactic(auto, unfolding(crate::specs::State::moment_line))]
fn put_moment(text: &mut Text, present: u32) -> Result<(), AllocError>
    ensures { OnOk result (text.new ≡ text.old ++ spec.moment_line present) }
{
    put_number(text, b"milliseconds ", u64::from(present))
}

#[tactic(auto, unfolding(crate::specs::State::application_line))]
fn put_application(text: &mut Text, name: &GroupName) -> Result<(), AllocError>
    ensures { OnOk result (text.new ≡ text.old ++ spec.application_line name.now) }
{
    put_name(text, b"application ", name.as_bytes())
}

#[tactic(auto, unfolding(crate::specs::State::number_line))]
fn put_number(text: &mut Text, word: &[u8], number: u64) -> Result<(), AllocError>
    ensures { OnOk result (text.new ≡ text.old ++ spec.number_line word.now number) }
{
    text.put(word)?;
    text.put_number(number)?;
    text.put(b"\n")
}

#[tactic(auto, unfolding(crate::specs::State::name_line))]
fn put_name(text: &mut Text, word: &[u8], name: &[u8]) -> Result<(), AllocError>
    ensures { OnOk result (text.new ≡ text.old ++ spec.name_line word.now name.now) }
{
    text.put(word)?;
    text.put(name)?;
    text.put(b"\n")
}

fn put_scene(text: &mut Text, scene: Option<&GroupName>) -> Result<(), AllocError>
    ensures { OnOk result (text.new ≡ text.old ++ spec.scene_line (option_copied scene.entry)) }
{
    match scene {
        Some(scene) => put_name(text, b"scene ", scene.as_bytes()),
        None => put_no_scene(text),
    }
}

#[tactic(auto, unfolding(crate::specs::State::no_scene_line))]
fn put_no_scene(text: &mut Text) -> Result<(), AllocError>
    ensures { OnOk result (text.new ≡ text.old ++ spec.no_scene_line) }
{
    text.put(b"no scene")?;
    text.put(b"\n")
}

#[tactic(auto, unfolding(crate::specs::State::going_text))]
fn put_going(text: &mut Text, machine: &Machine) -> Result<(), AllocError>
    ensures { OnOk result (text.new ≡ text.old ++ spec.going_text machine.now) }
{
    put_transition(text, machine.transition())?;
    put_interaction(text, machine.interaction())?;
    put_locks(text, machine.locks())
}

#[tactic(auto, unfolding(crate::specs::State::locks_line))]
fn put_locks(text: &mut Text, locks: u64) -> Result<(), AllocError>
    ensures { OnOk result (text.new ≡ text.old ++ spec.locks_line locks) }
{
    put_number(text, b"locks ", locks)
}

fn put_transition(text: &mut Text, transition: &Transition) -> Result<(), AllocError>
    ensures { OnOk result (text.new ≡ text.old ++ spec.transition_line transition.now) }
{
    match transition {
        Transition::Rests => Ok(()),
        Transition::Awaits(scene) => put_name(text, b"awaits ", scene.as_bytes()),
        Transition::Begun => put_begun(text),
    }
}

#[tactic(auto, unfolding(crate::specs::State::begun_line))]
fn put_begun(text: &mut Text) -> Result<(), AllocError>
    ensures { OnOk result (text.new ≡ text.old ++ spec.begun_line) }
{
    text.put(begun_word())?;
    text.put(b"\n")
}

#[tactic(auto, unfolding(crate::specs::State::begun_word))]
fn begun_word() -> &'static [u8]
    ensures { result.now ≡ spec.begun_word }
{
    b"transition begun"
}

fn put_interaction(text: &mut Text, begun: Option<&Interaction>) -> Result<(), AllocError>
    ensures { OnOk result (text.new ≡ text.old ++ spec.interaction_line (option_copied begun.entry)) }
{
    match begun {
        Some(begun) => put_line(text, b"interacts ", &begun.object),
        None => Ok(()),
    }
}

#[tactic(auto, unfolding(crate::specs::State::object_line))]
fn put_line(text: &mut Text, word: &[u8], at: &ObjRef) -> Result<(), AllocError>
    ensures { OnOk result (text.new ≡ text.old ++ spec.object_line word.now at.now) }
{
    text.put(word)?;
    put_ref(text, at)?;
    text.put(b"\n")
}

fn put_late(text: &mut Text, names: &[GroupName]) -> Result<(), AllocError>
    ensures { OnOk result (text.new ≡ text.old ++ flat_map spec.late_line names.now) }
{
    for name in names {
        put_name(text, b"late ", name.as_bytes())?;
    }
    Ok(())
}

fn put_variables(alloc: Global, text: &mut Text, objects: &Objects) -> Result<(), AllocError>
    ensures { OnOk result (text.new ≡ text.old ++ flat_map spec.variable_line (all objects.now)) }
{
    for place in 0..objects.len() {
        put_variable_at(alloc, text, objects.at(place))?;
    }
    Ok(())
}

fn put_variable_at(alloc: Global, text: &mut Text, found: Option<&Object>) -> Result<(), AllocError>
    ensures { OnOk result (text.new
        ≡ text.old ++ option_map_or spec.variable_line (option_copied found.entry) []) }
{
    match found {
        Some(object) => put_variable(alloc, text, object),
        None => Ok(()),
    }
}

fn put_variable(alloc: Global, text: &mut Text, object: &Object) -> Result<(), AllocError>
    ensures { OnOk result (text.new ≡ text.old ++ spec.variable_line object.now) }
{
    match object.value() {
        Some(value) => put_held(alloc, text, &object.fixed.get().key, value),
        None => Ok(()),
    }
}

#[tactic(auto, unfolding(crate::specs::State::held_line))]
fn put_held(alloc: Global, text: &mut Text, at: &ObjRef, value: &Value) -> Result<(), AllocError>
    ensures { OnOk result (text.new ≡ text.old ++ spec.held_line at.now value.now) }
{
    text.put(b"variable ")?;
    put_ref(text, at)?;
    text.put(b" holds ")?;
    put_short(alloc, text, value)?;
    text.put(b"\n")
}

fn put_timers(alloc: Global, text: &mut Text, machine: &Machine) -> Result<(), AllocError>
    ensures { OnOk result (text.new ≡ text.old ++ spec.timers_text machine.now) }
{
    let timers = machine.timers()?;
    put_all_timers(alloc, text, timers.as_slice())
}

fn put_all_timers(alloc: Global, text: &mut Text, timers: &[Timer]) -> Result<(), AllocError>
    ensures { OnOk result (text.new ≡ text.old ++ flat_map spec.timer_line timers.now) }
{
    for timer in timers {
        put_timer(alloc, text, timer)?;
    }
    Ok(())
}

#[tactic(auto, unfolding(crate::specs::State::timer_line))]
fn put_timer(alloc: Global, text: &mut Text, timer: &Timer) -> Result<(), AllocError>
    ensures { OnOk result (text.new ≡ text.old ++ spec.timer_line timer.now) }
{
    text.put(b"timer ")?;
    text.put(timer.group.as_bytes())?;
    text.put(b" ")?;
    put_integer(alloc, text, timer.id)?;
    text.put(b" due ")?;
    text.put_number(timer.due)?;
    text.put(b"\n")
}

fn put_waits(alloc: Global, text: &mut Text, machine: &Machine) -> Result<(), AllocError>
    ensures { OnOk result (text.new ≡ text.old ++ flat_map spec.waits_line machine.now.queue) }
{
    let queue = machine.queue();
    for place in 0..queue.len() {
        put_waiting_at(alloc, text, queue.at(place))?;
    }
    Ok(())
}

fn put_waiting_at(alloc: Global, text: &mut Text, found: Option<&Waiting>) -> Result<(), AllocError>
    ensures { OnOk result (text.new
        ≡ text.old ++ option_map_or spec.waits_line (option_copied found.entry) []) }
{
    match found {
        Some(waiting) => put_waiting_line(alloc, text, waiting),
        None => Ok(()),
    }
}

#[tactic(auto, unfolding(crate::specs::State::waits_line))]
fn put_waiting_line(alloc: Global, text: &mut Text, waiting: &Waiting) -> Result<(), AllocError>
    ensures { OnOk result (text.new ≡ text.old ++ spec.waits_line waiting.now) }
{
    text.put(b"waits ")?;
    put_waiting(alloc, text, waiting)?;
    text.put(b"\n")
}

/// Puts the display stack, the top first.
fn put_stack(alloc: Global, text: &mut Text, stack: Walk<'_>) -> Result<(), AllocError>
    ensures { OnOk result (text.new ≡ text.old ++ flat_map spec.stack_line (reverse stack.entry)) }
{
    let refs = copied_refs(alloc, stack)?;
    put_reversed(text, refs.as_slice())
}

fn put_reversed(text: &mut Text, refs: &[ObjRef]) -> Result<(), AllocError>
    ensures { OnOk result (text.new ≡ text.old ++ flat_map spec.stack_line (reverse refs.now)) }
{
    for at in refs.iter().rev() {
        put_line(text, b"stack ", at)?;
    }
    Ok(())
}
