//! Timers, as actions set and cancel them.
ghost use Rattle.std.specs.Prelude.{◌≡◌, OnOk, OnErr, if◌then◌else◌};
ghost use Rattle.mh_model.specs.Time as spec;

use crate::timers::Timers;
use mh_base::{GroupName, Value};
use mh_model::Moments;
use std::alloc::AllocError;

/// The moment in which the group was entered.
fn entered_at(application: &GroupName, group: &GroupName, moments: &Moments) -> u32
    ensures { result ≡ spec.entered_at application.now group.now moments.now }
{
    if *group == *application {
        moments.application
    } else {
        moments.scene
    }
}

/// Sets or cancels the timer of the group that the values name.
pub fn set_timers(
    timers: &mut Timers,
    values: &[Value],
    application: &GroupName,
    group: &GroupName,
    moments: &Moments,
) -> Result<(), AllocError>
    ensures set { OnOk result
        (timers.new ≡ spec.set_timers values.now application.now group.now moments.now timers.old) }
    ensures kept { OnErr result (timers.new ≡ timers.old) }
{
    let now = moments.present;
    match values {
        [Value::Int(id)] => {
            timers.cancel(group, *id);
            Ok(())
        }
        [Value::Int(id), Value::Int(delay)] => set_from(timers, now, *delay, group, *id, now),
        [Value::Int(id), Value::Int(delay), Value::Bool(absolute)] => {
            let from = beginning(*absolute, application, group, moments);
            set_from(timers, from, *delay, group, *id, now)
        }
        _ => Ok(()),
    }
}

/// From when a timer counts: from when its group was entered, or from the present.
fn beginning(absolute: bool, application: &GroupName, group: &GroupName, moments: &Moments) -> u32
    ensures { result ≡ (if absolute then spec.entered_at application.now group.now moments.now
        else moments.now.present) }
{
    if absolute {
        entered_at(application, group, moments)
    } else {
        moments.present
    }
}

/// Sets the timer so long behind a moment, or cancels it where that is before the present.
fn set_from(
    timers: &mut Timers,
    from: u32,
    delay: i32,
    group: &GroupName,
    id: i32,
    now: u32,
) -> Result<(), AllocError>
    ensures set { OnOk result (timers.new ≡ spec.timed_from from delay group.now id now timers.old) }
    ensures kept { OnErr result (timers.new ≡ timers.old) }
{
    match due_at(from, delay) {
        Some(due) if due >= u64::from(now) => timers.set(group, id, due),
        _ => {
            timers.cancel(group, id);
            Ok(())
        }
    }
}

/// So long behind a moment, where that is not negative.
fn due_at(from: u32, delay: i32) -> Option<u64>
    ensures { result ≡ spec.due_at from delay }
{
    if delay < 0 {
        None
    } else {
        Some(u64::from(from) + u64::from(delay.unsigned_abs()))
    }
}
