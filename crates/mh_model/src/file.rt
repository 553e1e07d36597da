//! Content files that are handed in, and the objects that wait for one.
use mh_base::{GroupName, ObjRef, Octets};

/// A content file: its name, and what is in it.
#[derive(Clone, Drop)]
pub struct File {
    pub name: GroupName,
    pub content: Octets,
}

/// An object that waits for the file of this name.
#[derive(Drop)]
pub struct Wait {
    pub object: ObjRef,
    pub name: GroupName,
}
