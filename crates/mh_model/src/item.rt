//! Items: what the work list holds.
use crate::{Act, Event};
use mh_base::{GroupName, ObjRef};

/// One piece of work. The first item of the work list is one step.
#[derive(Clone, Drop)]
pub enum Item {
    /// An elementary action.
    Act(Act),
    /// The object becomes available.
    Prepare(ObjRef),
    /// The object becomes available, if it is not, and runs.
    Run(ObjRef),
    /// The object stops.
    Halt(ObjRef),
    /// Run, put by a group of objects for this member of it.
    RunMember(ObjRef),
    /// Halt, put by a group of objects for this member of it.
    HaltMember(ObjRef),
    /// The object is no longer available.
    Drop(ObjRef),
    /// The event is dealt with.
    Emit(Event),
    /// The group is entered: its objects are there already.
    Enter(GroupName),
    /// The configuration changes to this group.
    Exchange(GroupName),
    /// The engine ends.
    End,
}
