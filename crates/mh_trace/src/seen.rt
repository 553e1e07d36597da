//! What is seen of a state before its step.

pub(crate) mod closing;
pub(crate) mod glance;
pub(crate) mod marks;
pub(crate) mod quiet;
pub(crate) mod touched;

ghost use Rattle.std.specs.Prelude.{◌≡◌, ◌&&◌, IfOk, length};
ghost use Rattle.mh_model.specs.Service.{parts};
ghost use Rattle.mh_model.specs.State.{all};
ghost use Rattle.mh_model.specs.Rules.{is_begun};
ghost use Rattle.mh_trace.specs.Listening.{IsIndexOf};
ghost use Rattle.mh_trace.specs.Outcome.{is_fault};
ghost use Rattle.mh_trace.specs.Trace as spec;

use crate::ears::listening::Listening;
use crate::seen::glance::{Glance, glance_of};
use crate::seen::marks::{Marks, marks_of};
use crate::seen::quiet::is_quiet;
use crate::seen::touched::{restacks, touched};
use crate::site::Site;
use crate::why::{Why, why_of};
use mh_base::Seq;
use mh_machine::{Machine, Stepped};
use mh_model::{Item, Object, Transition};
use std::alloc::{AllocError, Global};
use std::collections::VecDeque;

/// What is seen of a state before its step.
#[derive(Drop)]
pub struct Seen {
    /// What the step is noted by.
    pub marks: Marks,
    /// How many actions are left behind what is done.
    pub dropped: usize,
    /// How many wait to be taken, behind what is taken.
    pub waiting: usize,
    /// Whether nothing comes of the step where nothing that is looked at changes.
    pub quiet: bool,
    /// Whether the entry may change the display stack beside an object that becomes available.
    pub stacks: bool,
    /// What is looked at besides objects.
    pub glance: Glance,
    /// The objects that the step may change, as they are before it.
    pub touched: Seq<Object>,
    /// Why nothing would come of the entry.
    pub why: Why,
}

/// What is seen of a machine whose next step does this item, or takes what waits where there is none.
pub fn see(
    alloc: Global,
    front: &Option<Item>,
    machine: &Machine,
    places: &VecDeque<Site>,
    listening: &Listening,
) -> Result<Seen, AllocError>
    requires { IsIndexOf listening.now.entries (parts (all machine.now.objects)) }
    ensures { IfOk result (λ seen. seen ≡ spec.seen_of front.now machine.now places.now.items) }
{
    let waiting = waiting_left(front, machine);
    let stacks = restacks(front);
    let why = why_of(
        alloc,
        front,
        is_begun(machine.transition()),
        machine.objects(),
    )?;
    let marks = marks_of(alloc, front, machine, places, listening)?;
    let glance = glance_of(alloc, stacks, waiting, machine)?;
    let touched = touched(alloc, front, machine)?;
    let quiet = is_quiet(
        front,
        machine.queue().first(),
        machine.interaction(),
        marks.opened.as_slice(),
    );
    Ok(Seen {
        marks,
        dropped: left_behind(front, places),
        waiting,
        quiet,
        stacks,
        glance,
        touched,
        why,
    })
}

/// How many places are left behind what is done.
fn left_behind(front: &Option<Item>, places: &VecDeque<Site>) -> usize
    ensures { result ≡ length (spec.places_behind front.now places.now.items) }
{
    match front {
        Some(Item::Act(_)) => places.len().saturating_sub(1),
        _ => places.len(),
    }
}

fn waiting_left(front: &Option<Item>, machine: &Machine) -> usize
    ensures { result ≡ spec.waiting_left front.now machine.now }
{
    match front {
        Some(_) => machine.queue().len(),
        None => machine.queue().len().saturating_sub(1),
    }
}

/// Whether a transition has begun.
pub fn is_begun(transition: &Transition) -> bool
    ensures { result ≡ is_begun transition.now }
{
    matches!(transition, Transition::Begun)
}

/// Whether one has begun by now that had not.
pub fn starts(begun: bool, machine: &Machine) -> bool
    ensures { result ≡ spec.starts begun machine.now }
{
    !begun && is_begun(machine.transition())
}

pub fn is_fault(answer: &Stepped) -> bool
    ensures { result ≡ is_fault answer.now }
{
    matches!(answer, Stepped::Faulted(_))
}
