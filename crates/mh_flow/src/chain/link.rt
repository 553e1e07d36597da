//! `Link`: an action that wrote a reference, or an object that has it at first.
use mh_base::ObjRef;

/// A place and what was written there.
#[derive(Drop)]
pub struct Link {
    /// The object whose action it is, or that has the reference at first.
    pub key: ObjRef,
    /// The number of the action through the object's effects, from 1 on, or 0.
    pub index: usize,
    /// The variable or the list that has the reference then.
    pub written: ObjRef,
}
