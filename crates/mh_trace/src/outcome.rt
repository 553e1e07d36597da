//! The end of the line of a step.

pub(crate) mod json;

ghost use Rattle.std.specs.Prelude.{◌≡◌, ◌++◌, OnOk};
ghost use Rattle.mh_trace.specs.Outcome as spec;
ghost use Rattle.mh_trace.specs.Trace.{has_rested, settled_text};

use crate::changes::changes;
use crate::form::Form;
use crate::outcome::json::put_members;
use crate::seen::glance::is_same;
use crate::seen::{Seen, is_fault, starts};
use crate::why::{Why, why_text};
use mh_machine::{Machine, Stepped};
use mh_told::text::Text;
use mh_told::told::put_fault;
use std::alloc::{AllocError, Global};

/// Puts the end of the line of a step behind which the machine is, where this was seen before it, and this was
/// answered.
pub fn put_outcome(
    alloc: Global,
    form: Form,
    text: &mut Text,
    seen: &Seen,
    answer: &Stepped,
    machine: &Machine,
) -> Result<(), AllocError>
    ensures { OnOk result (text.new ≡ text.old ++ settled_text form seen.now answer.now machine.now) }
{
    let changes = changes(alloc, form, seen.touched.as_slice(), machine.objects())?;
    let rests = has_rested(seen, answer, machine);
    let started = starts(seen.marks.begun, machine);
    let forgotten = seen.waiting.saturating_sub(machine.queue().len());
    put_parts_in(
        alloc,
        form,
        text,
        started,
        seen.dropped,
        forgotten,
        &changes,
        rests,
        seen.why,
        answer,
    )
}

fn put_parts_in(
    alloc: Global,
    form: Form,
    text: &mut Text,
    started: bool,
    dropped: usize,
    forgotten: usize,
    changes: &Text,
    rests: bool,
    why: Why,
    answer: &Stepped,
) -> Result<(), AllocError>
    ensures { OnOk result (text.new
        ≡ text.old ++ spec.outcome_by form started dropped forgotten changes.now rests why answer.now) }
{
    match form {
        Form::Text => put_parts(
            text, started, dropped, forgotten, changes, rests, why, answer,
        ),
        Form::Json => put_members(
            alloc, text, started, dropped, forgotten, changes, rests, why, answer,
        ),
    }
}

#[tactic(auto, unfolding(crate::specs::Outcome::outcome_text))]
fn put_parts(
    text: &mut Text,
    started: bool,
    dropped: usize,
    forgotten: usize,
    changes: &Text,
    rests: bool,
    why: Why,
    answer: &Stepped,
) -> Result<(), AllocError>
    ensures { OnOk result (text.new
        ≡ text.old ++ spec.outcome_text started dropped forgotten changes.now rests why answer.now) }
{
    put_started(text, started, dropped)?;
    put_forgotten(text, forgotten)?;
    put_changes(text, changes, rests, why)?;
    text.put(b"\n")?;
    put_fault_line(text, answer)
}

#[tactic(auto, unfolding(crate::specs::Outcome::changes_text))]
fn put_changes(text: &mut Text, changes: &Text, rests: bool, why: Why) -> Result<(), AllocError>
    ensures { OnOk result (text.new ≡ text.old ++ spec.changes_text changes.now rests why) }
{
    text.put(changes.as_slice())?;
    put_nothing(text, changes.as_slice().is_empty() && rests, why)
}

fn put_nothing(text: &mut Text, is_nothing: bool, why: Why) -> Result<(), AllocError>
    ensures { OnOk result (text.new ≡ text.old ++ spec.nothing_note is_nothing why) }
{
    if is_nothing {
        put_nothing_text(text, why)
    } else {
        Ok(())
    }
}

#[tactic(auto, unfolding(crate::specs::Outcome::nothing_text))]
fn put_nothing_text(text: &mut Text, why: Why) -> Result<(), AllocError>
    ensures { OnOk result (text.new ≡ text.old ++ spec.nothing_text why) }
{
    text.put(b"; nothing")?;
    text.put(why_text(why))
}

/// Whether nothing but objects has changed, as far as it was seen.
fn has_rested(seen: &Seen, answer: &Stepped, machine: &Machine) -> bool
    ensures { result ≡ has_rested seen.now answer.now machine.now }
{
    may_be_nothing(seen, answer) && is_same(seen.stacks, &seen.glance, machine)
}

fn may_be_nothing(seen: &Seen, answer: &Stepped) -> bool
    ensures { result ≡ spec.may_be_nothing answer.now seen.now.quiet }
{
    !is_fault(answer) && seen.quiet
}

fn put_started(text: &mut Text, started: bool, dropped: usize) -> Result<(), AllocError>
    ensures { OnOk result (text.new ≡ text.old ++ spec.started_note started dropped) }
{
    if started {
        put_dropped(text, dropped)
    } else {
        Ok(())
    }
}

#[tactic(auto, unfolding(crate::specs::Outcome::dropped_note))]
fn put_dropped(text: &mut Text, count: usize) -> Result<(), AllocError>
    ensures { OnOk result (text.new ≡ text.old ++ spec.dropped_note count) }
{
    if count == 0 {
        return text.put(b"; begins");
    }
    put_dropped_count(text, count)
}

#[tactic(auto, unfolding(crate::specs::Outcome::dropped_text))]
fn put_dropped_count(text: &mut Text, count: usize) -> Result<(), AllocError>
    ensures { OnOk result (text.new ≡ text.old ++ spec.dropped_text count) }
{
    text.put(dropped_word())?;
    text.put_number(count as u64)?;
    text.put(b" behind it")
}

#[tactic(auto, unfolding(crate::specs::Outcome::dropped_word))]
fn dropped_word() -> &'static [u8]
    ensures { result.now ≡ spec.dropped_word }
{
    b"; begins, and drops "
}

#[tactic(auto, unfolding(crate::specs::Outcome::forgotten_note))]
fn put_forgotten(text: &mut Text, count: usize) -> Result<(), AllocError>
    ensures { OnOk result (text.new ≡ text.old ++ spec.forgotten_note count) }
{
    if count == 0 {
        return Ok(());
    }
    text.put(b"; forgets ")?;
    text.put_number(count as u64)?;
    text.put(b" that waited")
}

fn put_fault_line(text: &mut Text, answer: &Stepped) -> Result<(), AllocError>
    ensures { OnOk result (text.new ≡ text.old ++ spec.fault_text answer.now) }
{
    match answer {
        Stepped::Faulted(fault) => put_fault(text, fault),
        _ => Ok(()),
    }
}
