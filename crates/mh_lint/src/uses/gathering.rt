//! What is gathered of all objects of a service and of all their actions.
//!
//! Promise: each function answers, or puts behind the others, what the definition of the same matter in `specs/Uses` says.
ghost use Rattle.std.specs.Prelude.{◌≡◌, ◌++◌, IfOk, OnOk};
ghost use Rattle.std.specs.List.{flat_map, list_any};
ghost use Rattle.mh_lint.specs.Uses as spec;

use crate::targets::Targets;
use crate::timers::{KnownTimers, TimerSet, Timers};
use crate::uses::objects::{actions_of, objects_of};
use crate::uses::reading::{
    push_added, push_changed, push_grouped, push_heard, push_listed, push_read, push_set,
};
use crate::uses::{Change, Uses};
use mh_base::both;
use mh_flow::Equipped;
use mh_group::ActionName;
use mh_model::{Act, FixedPart, Target};
use std::alloc::{AllocError, Global};

fn push_all_changed(
    targets: &mut Vec<Target>,
    change: Change,
    acts: &[Act],
) -> Result<(), AllocError>
    ensures { OnOk result (targets.new.items ≡ targets.old.items ++ flat_map (spec.changed_by change) acts.now) }
{
    for act in acts {
        push_changed(targets, change, act)?;
    }
    Ok(())
}

fn push_all_added(targets: &mut Vec<Target>, acts: &[Act]) -> Result<(), AllocError>
    ensures { OnOk result (targets.new.items ≡ targets.old.items ++ flat_map spec.added_by acts.now) }
{
    for act in acts {
        push_added(targets, act)?;
    }
    Ok(())
}

fn push_all_listed(targets: &mut Vec<Target>, objects: &[FixedPart]) -> Result<(), AllocError>
    ensures { OnOk result (targets.new.items ≡ targets.old.items ++ flat_map spec.listed_by objects.now) }
{
    for object in objects {
        push_listed(targets, object.get())?;
    }
    Ok(())
}

fn push_all_grouped(targets: &mut Vec<Target>, objects: &[FixedPart]) -> Result<(), AllocError>
    ensures { OnOk result (targets.new.items ≡ targets.old.items ++ flat_map spec.grouped_by objects.now) }
{
    for object in objects {
        push_grouped(targets, object.get())?;
    }
    Ok(())
}

/// What is done to which actions change this.
fn changed_of(alloc: Global, change: Change, acts: &[Act]) -> Result<Targets, AllocError>
    ensures { IfOk result (λ targets. targets ≡ flat_map (spec.changed_by change) acts.now) }
{
    let mut targets = Vec::new(alloc);
    push_all_changed(&mut targets, change, acts)?;
    Targets::of(alloc, targets)
}

/// What is moved.
fn moved_of(alloc: Global, objects: &[FixedPart], acts: &[Act]) -> Result<Targets, AllocError>
    ensures { IfOk result (λ targets. targets ≡ (spec.uses_of objects.now acts.now).moved) }
{
    let mut targets = Vec::new(alloc);
    push_all_changed(&mut targets, Change::Position, acts)?;
    push_all_added(&mut targets, acts)?;
    push_all_listed(&mut targets, objects)?;
    Targets::of(alloc, targets)
}

/// What is run.
fn run_of(alloc: Global, objects: &[FixedPart], acts: &[Act]) -> Result<Targets, AllocError>
    ensures { IfOk result (λ targets. targets ≡ (spec.uses_of objects.now acts.now).run) }
{
    let mut targets = Vec::new(alloc);
    push_all_changed(&mut targets, Change::Running, acts)?;
    push_all_added(&mut targets, acts)?;
    push_all_grouped(&mut targets, objects)?;
    Targets::of(alloc, targets)
}

fn push_all_read(targets: &mut Vec<Target>, acts: &[Act]) -> Result<(), AllocError>
    ensures { OnOk result (targets.new.items ≡ targets.old.items ++ flat_map spec.read_by acts.now) }
{
    for act in acts {
        push_read(targets, act)?;
    }
    Ok(())
}

/// Which variables are read.
fn read_of(alloc: Global, acts: &[Act]) -> Result<Targets, AllocError>
    ensures { IfOk result (λ targets. targets ≡ flat_map spec.read_by acts.now) }
{
    let mut targets = Vec::new(alloc);
    push_all_read(&mut targets, acts)?;
    Targets::of(alloc, targets)
}

fn push_all_heard(heard: &mut Vec<Timers>, objects: &[FixedPart]) -> Result<(), AllocError>
    ensures { OnOk result (heard.new.items ≡ heard.old.items ++ flat_map spec.heard_by objects.now) }
{
    for object in objects {
        push_heard(heard, object.get())?;
    }
    Ok(())
}

/// What is heard of timers.
fn heard_of(alloc: Global, objects: &[FixedPart]) -> Result<TimerSet, AllocError>
    ensures { IfOk result (λ heard. heard ≡ flat_map spec.heard_by objects.now) }
{
    let mut heard = Vec::new(alloc);
    push_all_heard(&mut heard, objects)?;
    TimerSet::of(alloc, heard)
}

fn push_all_set(timed: &mut Vec<Timers>, acts: &[Act]) -> Result<(), AllocError>
    ensures { OnOk result (timed.new.items ≡ timed.old.items ++ flat_map spec.set_by acts.now) }
{
    for act in acts {
        push_set(timed, act)?;
    }
    Ok(())
}

/// Which timers are set.
fn timed_of(alloc: Global, acts: &[Act]) -> Result<TimerSet, AllocError>
    ensures { IfOk result (λ timed. timed ≡ flat_map spec.set_by acts.now) }
{
    let mut timed = Vec::new(alloc);
    push_all_set(&mut timed, acts)?;
    TimerSet::of(alloc, timed)
}

fn is_transit(name: ActionName) -> bool
    ensures { result ≡ spec.is_transit name }
{
    matches!(name, ActionName::TransitionTo)
}

fn has_transition(acts: &[Act]) -> bool
    ensures { result ≡ list_any (λ a. spec.is_transit a.name) acts.now }
{
    acts.iter().any(|act| is_transit(act.name))
}

fn is_unlock(name: ActionName) -> bool
    ensures { result ≡ spec.is_unlock name }
{
    matches!(name, ActionName::UnlockScreen)
}

fn has_unlock(acts: &[Act]) -> bool
    ensures { result ≡ list_any (λ a. spec.is_unlock a.name) acts.now }
{
    acts.iter().any(|act| is_unlock(act.name))
}

/// What is known of timers.
fn timers_of(alloc: Global, objects: &[FixedPart], acts: &[Act]) -> Result<KnownTimers, AllocError>
    ensures { IfOk result (λ timers. timers ≡ record { heard = flat_map spec.heard_by objects.now; timed = flat_map spec.set_by acts.now }) }
{
    match both(heard_of(alloc, objects), timed_of(alloc, acts)) {
        Ok((heard, timed)) => KnownTimers::of(alloc, heard, timed),
        Err(why) => Err(why),
    }
}

/// What is changed: what is moved and given another size; other words and another colour of its text.
type Changed = ((Targets, Targets), (Targets, Targets));

/// What is run, which variables are read and what is let interact; and timers.
type Other = (((Targets, Targets), Targets), KnownTimers);

/// All of it, each made by a call that ends with it, so that none stands beside a `?`.
fn uses_with(parts: (Changed, Other), has_transition: bool, has_unlock: bool) -> Uses
    ensures { result ≡ record {
      moved = parts.0.0.0;
      resized = parts.0.0.1;
      reworded = parts.0.1.0;
      tinted = parts.0.1.1;
      run = parts.1.0.0.0;
      read = parts.1.0.0.1;
      touched = parts.1.0.1;
      heard = parts.1.1.heard;
      timed = parts.1.1.timed;
      has_transition = has_transition;
      has_unlock = has_unlock;
    } }
{
    let (((moved, resized), (reworded, tinted)), (((run, read), touched), timers)) = parts;
    Uses {
        moved,
        resized,
        reworded,
        tinted,
        run,
        read,
        touched,
        timers,
        has_transition,
        has_unlock,
    }
}

/// What these objects hear, and these actions are done to.
fn uses_in(alloc: Global, objects: &[FixedPart], acts: &[Act]) -> Result<Uses, AllocError>
    ensures { IfOk result (λ uses. uses ≡ spec.uses_of objects.now acts.now) }
{
    let boxes = both(
        moved_of(alloc, objects, acts),
        changed_of(alloc, Change::Size, acts),
    );
    let words = both(
        changed_of(alloc, Change::Words, acts),
        changed_of(alloc, Change::Colour, acts),
    );
    let lives = both(run_of(alloc, objects, acts), read_of(alloc, acts));
    let inputs = both(lives, changed_of(alloc, Change::Interaction, acts));
    let other = both(inputs, timers_of(alloc, objects, acts));
    match both(both(boxes, words), other) {
        Ok(parts) => Ok(uses_with(parts, has_transition(acts), has_unlock(acts))),
        Err(why) => Err(why),
    }
}

/// What there is of this in all objects of the service and all actions of all their effects.
pub(crate) fn uses_of(alloc: Global, service: &Equipped<'_>) -> Result<Uses, AllocError>
    ensures { IfOk result (λ uses. uses ≡ spec.uses service.now) }
{
    let objects = objects_of(alloc, service)?;
    let acts = actions_of(alloc, objects.as_slice())?;
    uses_in(alloc, objects.as_slice(), acts.as_slice())
}
