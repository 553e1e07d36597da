//! What is looked at of a state besides its objects, as it is before a step: where it is the same behind the step, the step
//! has changed nothing of it.
ghost use Rattle.std.specs.Prelude.{◌≡◌, ◌++◌, [], IfOk, OnOk};
ghost use Rattle.std.specs.Option.{option_copied};
ghost use Rattle.mh_trace.specs.Glance as spec;

use crate::seen::is_begun;
use mh_base::{GroupName, ObjRef, Seq};
use mh_machine::Machine;
use mh_model::parts::same_ref;
use mh_model::{Interaction, Transition};
use mh_stack::Walk;
use std::alloc::{AllocError, Global};

/// What is looked at of a state besides its objects.
#[derive(Drop)]
pub struct Glance {
    pub application: GroupName,
    pub scene: Option<GroupName>,
    pub interacts: Option<ObjRef>,
    /// The scene that a transition waits for.
    pub awaits: Option<GroupName>,
    /// Whether a transition has begun.
    pub begun: bool,
    pub locks: u64,
    /// How many wait to be taken.
    pub waiting: usize,
    /// The display stack, where it is looked at.
    pub stack: Seq<ObjRef>,
}

/// What is looked at of the machine's state, where so many wait to be taken, with the display stack or without.
pub fn glance_of(
    alloc: Global,
    stacks: bool,
    waiting: usize,
    machine: &Machine,
) -> Result<Glance, AllocError>
    ensures { IfOk result (λ glance. glance ≡ spec.glance_of stacks waiting machine.now) }
{
    let transition = machine.transition();
    Ok(Glance {
        application: machine.application().clone()?,
        scene: copied_name(machine.scene())?,
        interacts: interacting(machine.interaction())?,
        awaits: copied_name(awaited(transition))?,
        begun: is_begun(transition),
        locks: machine.locks(),
        waiting,
        stack: copied_stack(alloc, stacks, machine.stack())?,
    })
}

fn copied_name(name: Option<&GroupName>) -> Result<Option<GroupName>, AllocError>
    ensures { IfOk result (λ copy. copy ≡ option_copied name.entry) }
{
    match name {
        Some(name) => Ok(Some(name.clone()?)),
        None => Ok(None),
    }
}

fn interacting(begun: Option<&Interaction>) -> Result<Option<ObjRef>, AllocError>
    ensures { IfOk result (λ object. object ≡ spec.interacting (option_copied begun.entry)) }
{
    match begun {
        Some(begun) => Ok(Some(begun.object.clone()?)),
        None => Ok(None),
    }
}

/// The scene that a transition waits for.
fn awaited(transition: &Transition) -> Option<&GroupName>
    ensures { option_copied result ≡ spec.awaited transition.now }
{
    match transition {
        Transition::Awaits(scene) => Some(scene),
        _ => None,
    }
}

/// The display stack, where it is looked at.
fn copied_stack(alloc: Global, stacks: bool, stack: Walk<'_>) -> Result<Seq<ObjRef>, AllocError>
    ensures { IfOk result (λ copy. copy ≡ spec.stack_if stacks stack.entry) }
{
    if stacks {
        copied_refs(alloc, stack)
    } else {
        Ok(Seq::from_vec(Vec::new(alloc)))
    }
}

/// Copies of references, which share their names.
pub fn copied_refs(alloc: Global, refs: Walk<'_>) -> Result<Seq<ObjRef>, AllocError>
    ensures { IfOk result (λ copy. copy ≡ refs.entry) }
{
    let mut copy = Vec::new(alloc);
    push_refs(&mut copy, refs)?;
    Ok(Seq::from_vec(copy))
}

fn push_refs(copy: &mut Vec<ObjRef>, refs: Walk<'_>) -> Result<(), AllocError>
    ensures { OnOk result (copy.new.items ≡ copy.old.items ++ refs.entry) }
{
    let mut left = refs;
    while let Some(at) = left.next() {
        copy.push(at.clone()?)?;
    }
    Ok(())
}

/// Whether what was looked at is as it was, with the display stack or without.
pub fn is_same(stacks: bool, glance: &Glance, machine: &Machine) -> bool
    ensures { result ≡ spec.is_same stacks glance.now machine.now }
{
    is_same_groups(glance, machine)
        && is_same_going(glance, machine)
        && is_same_counts(glance, machine)
        && is_same_stack(stacks, glance.stack.as_slice(), machine.stack())
}

fn is_same_groups(glance: &Glance, machine: &Machine) -> bool
    ensures { result ≡ spec.same_groups glance.now machine.now }
{
    glance.application == *machine.application() && is_same_name(&glance.scene, machine.scene())
}

fn is_same_name(before: &Option<GroupName>, behind: Option<&GroupName>) -> bool
    ensures { result ≡ spec.same_name before.now (option_copied behind.entry) }
{
    match (before, behind) {
        (None, None) => true,
        (Some(before), Some(behind)) => *before == *behind,
        _ => false,
    }
}

fn is_same_going(glance: &Glance, machine: &Machine) -> bool
    ensures { result ≡ spec.same_going glance.now machine.now }
{
    let transition = machine.transition();
    is_same_object(&glance.interacts, machine.interaction())
        && is_same_name(&glance.awaits, awaited(transition))
        && glance.begun == is_begun(transition)
}

fn is_same_object(before: &Option<ObjRef>, behind: Option<&Interaction>) -> bool
    ensures { result ≡ spec.same_object before.now (spec.interacting (option_copied behind.entry)) }
{
    match (before, behind) {
        (None, None) => true,
        (Some(before), Some(behind)) => same_ref(before, &behind.object),
        _ => false,
    }
}

fn is_same_counts(glance: &Glance, machine: &Machine) -> bool
    ensures { result ≡ spec.same_counts glance.now machine.now }
{
    glance.locks == machine.locks() && glance.waiting == machine.queue().len()
}

fn is_same_stack(stacks: bool, before: &[ObjRef], behind: Walk<'_>) -> bool
    ensures { result ≡ spec.same_refs before.now (spec.stack_if stacks behind.entry) }
{
    if stacks {
        return are_same_refs(before, behind);
    }
    none_left(before)
}

fn are_same_refs(before: &[ObjRef], behind: Walk<'_>) -> bool
    ensures { result ≡ spec.same_refs before.now behind.entry }
{
    let mut before = before;
    let mut left = behind;
    while let Some(other) = left.next() {
        let Some((at, others)) = before.split_first() else {
            return false;
        };
        if !same_ref(at, other) {
            return false;
        }
        before = others;
    }
    none_left(before)
}

fn none_left(refs: &[ObjRef]) -> bool
    ensures { result ≡ spec.same_refs refs.now [] }
{
    match refs {
        [] => true,
        [_, ..] => false,
    }
}
