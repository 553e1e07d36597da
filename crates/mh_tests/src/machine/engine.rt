//! The engine: what it answers when there is nothing to do, when too many inputs wait, and when the clock
//! is full.
use crate::cases::all_hold;
use crate::machine::files::{key, refusals, tick};
use crate::machine::service::Asked;
use crate::playing::DAY;
use mh_engine::{Engine, Rest, Stepped};
use mh_machine::Machine;
use mh_service::Service;
use std::alloc::Global;

/// How many steps are made before the engine answers that it is idle.
fn steps_to_idle(engine: &mut Engine) -> u64 {
    for steps in 0..100 {
        if matches!(engine.step(), Ok(Stepped::Idle)) {
            return steps;
        }
    }
    100
}

/// How many steps are made before the engine is idle, and how many it says that it took.
fn idle(alloc: Global, engine: &mut Engine) -> Option<Vec<u8>> {
    let steps = steps_to_idle(engine);
    let taken = engine.taken();
    match engine.rest() {
        Rest::Idle => Some(format!(in alloc; "{steps} {taken}").ok()?.into_bytes()),
        _ => None,
    }
}

/// How many keys wait when one more is not taken.
fn keys_to_refusal(engine: &mut Engine) -> u32 {
    for waiting in 0..1000 {
        if key(engine) != Some(0) {
            return waiting;
        }
    }
    1000
}

/// How many keys wait when one more is not taken, and the number of its refusal.
fn keys(alloc: Global, engine: &mut Engine) -> Option<Vec<u8>> {
    let waiting = keys_to_refusal(engine);
    let number = key(engine)?;
    Some(format!(in alloc; "{waiting} {number}").ok()?.into_bytes())
}

/// Whether a tick is posted and taken.
fn takes_tick(engine: &mut Engine, length: u32) -> bool {
    tick(engine, length) == Some(0) && matches!(engine.step(), Ok(Stepped::Did))
}

/// How many of the longest ticks are taken before one is not.
fn ticks_to_refusal(engine: &mut Engine) -> u32 {
    for taken in 0..100_000 {
        if !takes_tick(engine, 60_000) {
            return taken;
        }
    }
    100_000
}

/// How many of the longest ticks are taken, and what is then said of a tick that is too long by a
/// millisecond, of one that leads to the last moment, and of one behind it.
fn ticks(alloc: Global, engine: &mut Engine) -> Option<Vec<u8>> {
    let taken = ticks_to_refusal(engine);
    let past = tick(engine, 47_296)?;
    let last = tick(engine, 47_295)?;
    let behind = tick(engine, 1)?;
    let said = format!(in alloc; "{taken} {past} {last} {behind}").ok()?;
    Some(said.into_bytes())
}

/// What is played. Its owner below is generic, since a function that owns an engine by name is dear to
/// prove.
trait Played {
    fn answer(&mut self, alloc: Global, asked: &str) -> Option<Vec<u8>>;
}

impl Played for Engine {
    fn answer(&mut self, alloc: Global, asked: &str) -> Option<Vec<u8>> {
        match asked {
            "idle" => idle(alloc, self),
            "ticks" => ticks(alloc, self),
            "keys" => keys(alloc, self),
            _ => refusals(alloc, self, asked),
        }
    }
}

impl Played for Machine {
    fn answer(&mut self, alloc: Global, asked: &str) -> Option<Vec<u8>> {
        refusals(alloc, self, asked)
    }
}

fn of_played<P: Played + Drop>(alloc: Global, played: Option<P>, asked: &str) -> Option<Vec<u8>> {
    let mut played = played;
    played.as_mut()?.answer(alloc, asked)
}

/// What is answered of the engine of the service.
pub fn of_engine(alloc: Global, service: Service, asked: &str) -> Option<Vec<u8>> {
    of_played(
        alloc,
        Engine::start_lenient(alloc, service, DAY).ok(),
        asked,
    )
}

/// What is answered of a machine that plays the service with no engine around it.
pub fn of_machine(alloc: Global, service: Service, asked: &str) -> Option<Vec<u8>> {
    of_played(alloc, Machine::new(alloc, service, DAY).ok(), asked)
}

#[test]
fn answers_that_it_is_idle(rt: HostRuntime) {
    all_hold::<Asked>(
        &rt,
        rt.alloc(),
        "\nan empty application\nidle @empty\n=> 2 2",
    );
}

#[test]
fn refuses_a_tick_past_the_last_moment(rt: HostRuntime) {
    all_hold::<Asked>(
        &rt,
        rt.alloc(),
        "\nan empty application\nticks @empty\n=> 71582 53 0 53",
    );
}

#[test]
fn refuses_a_key_too_many(rt: HostRuntime) {
    all_hold::<Asked>(
        &rt,
        rt.alloc(),
        "\na red box\nkeys @application @scene\n=> 256 51",
    );
}
