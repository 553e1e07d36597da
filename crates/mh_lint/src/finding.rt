//! `Finding`: what never happens in an accepted service.

use mh_base::{EventType, ObjRef, Value};

/// What never happens, by the object of which it is told.
#[derive(Drop)]
pub enum Finding {
    /// Nothing leads to the group.
    Unreached(ObjRef),
    /// Nothing runs the object.
    Idle(ObjRef),
    /// The link waits for data with which no event of its type comes.
    Unsaid(ObjRef, EventType, Value),
    /// Nothing puts the link to work.
    Unput(ObjRef),
    /// The link never hears what it waits for: a timer that only such links set, or a key that no register lets through.
    Deaf(ObjRef),
}
