//! Plans: what an item does, worked out before anything is changed.

pub(crate) mod acting;
pub(crate) mod answering;
pub(crate) mod calling;
pub(crate) mod exchanging;
pub(crate) mod focus;
pub(crate) mod lifecycle;
pub(crate) mod loading;
pub(crate) mod transitions;
pub(crate) mod widgets;

ghost use Rattle.std.specs.Prelude.{◌≡◌, [], Some};
ghost use Rattle.mh_machine.specs.Plans.{plan_of};

use mh_actions::ordering::Reorder;
use mh_base::{ObjRef, Octets, Seq, Value};
use mh_group::Position;
use mh_model::{Edit, Event, Fault, Interaction, Wait};
use mh_work::Batch;
use std::alloc::Global;

/// What a variable is given.
#[derive(Drop)]
pub struct Gift {
    pub at: ObjRef,
    pub value: Value,
}

/// What is changed of the bodies of objects.
#[derive(Drop)]
pub enum Change {
    Nothing,
    /// Of the object at this reference.
    Edit(ObjRef, Edit),
    /// Variables are given values, in this order.
    Give(Seq<Gift>),
    /// Of the object at this reference; and, where that is no visible, these are placed.
    Place(ObjRef, Edit, Seq<(ObjRef, Position)>),
}

/// Who interacts.
#[derive(Drop)]
pub enum Interacting {
    Same,
    /// The object does no longer, if it did.
    Ends(ObjRef),
    Begins(Interaction),
}

/// What becomes of the display stack.
#[derive(Drop)]
pub enum Stacking {
    Same,
    /// The object goes on top.
    Rise(ObjRef),
    /// The object goes off.
    Fall(ObjRef),
    /// An action moves the object.
    Move(ObjRef, Reorder),
}

/// Who waits for a file.
#[derive(Drop)]
pub enum Awaiting {
    Same,
    /// The object waits for none.
    Forget(ObjRef),
    /// The object waits for this one, and no other.
    Wait(Wait),
}

/// What one item does. All that wants memory is in it already, but for the room in the lists that grow.
#[derive(Drop)]
pub struct Plan {
    pub change: Change,
    pub stacking: Stacking,
    pub awaiting: Awaiting,
    pub interacting: Interacting,
    /// What is put in the place of the item.
    pub batches: Seq<Batch>,
    /// The event that waits in the queue.
    pub waits: Option<Event>,
    pub fault: Option<Fault>,
}

/// What becomes of one object that runs, and what it puts: all that is planned of it.
#[derive(Drop)]
pub struct Turn {
    /// What it loads.
    pub text: Option<Octets>,
    /// Where it places what it shows, if it is a list.
    pub places: Vec<(ObjRef, Position)>,
    pub stacking: Stacking,
    pub awaiting: Awaiting,
    pub batches: Vec<Batch>,
}

impl Plan {
    /// A plan that changes objects, and puts these batches.
    pub fn of(change: Change, stacking: Stacking, awaiting: Awaiting, batches: Vec<Batch>) -> Plan
        ensures { result ≡ plan_of change stacking awaiting batches.items }
    {
        Plan {
            change,
            stacking,
            awaiting,
            interacting: Interacting::Same,
            batches: Seq::from_vec(batches),
            waits: None,
            fault: None,
        }
    }

    /// A plan that does nothing.
    pub fn nothing(alloc: Global) -> Plan
        ensures { result ≡ plan_of Change.Nothing Stacking.Same Awaiting.Same [] }
    {
        Plan::of(
            Change::Nothing,
            Stacking::Same,
            Awaiting::Same,
            Vec::new(alloc),
        )
    }

    /// A plan that only changes bodies.
    pub fn changing(alloc: Global, change: Change) -> Plan
        ensures { result ≡ plan_of change Stacking.Same Awaiting.Same [] }
    {
        Plan::of(change, Stacking::Same, Awaiting::Same, Vec::new(alloc))
    }

    /// A plan that changes bodies and who interacts, and puts these batches.
    pub fn interacting(change: Change, interacting: Interacting, batches: Vec<Batch>) -> Plan
        ensures { result
            ≡ record (plan_of change Stacking.Same Awaiting.Same batches.items) { interacting = interacting } }
    {
        Plan {
            change,
            stacking: Stacking::Same,
            awaiting: Awaiting::Same,
            interacting,
            batches: Seq::from_vec(batches),
            waits: None,
            fault: None,
        }
    }

    /// A plan that only lets an event wait.
    pub fn waiting(alloc: Global, event: Event) -> Plan
        ensures { result
            ≡ record (plan_of Change.Nothing Stacking.Same Awaiting.Same []) { waits = Some event } }
    {
        Plan {
            change: Change::Nothing,
            stacking: Stacking::Same,
            awaiting: Awaiting::Same,
            interacting: Interacting::Same,
            batches: Seq::new(alloc),
            waits: Some(event),
            fault: None,
        }
    }

    /// A plan that only notes a fault.
    pub fn noting(alloc: Global, fault: Fault) -> Plan
        ensures { result
            ≡ record (plan_of Change.Nothing Stacking.Same Awaiting.Same []) { fault = Some fault } }
    {
        Plan {
            change: Change::Nothing,
            stacking: Stacking::Same,
            awaiting: Awaiting::Same,
            interacting: Interacting::Same,
            batches: Seq::new(alloc),
            waits: None,
            fault: Some(fault),
        }
    }
}
