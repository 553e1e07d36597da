//! `Move`: what a chain is made of.
//!
//! Promise: a move says from where a reference goes to where, and what takes it there.
use mh_base::ObjRef;
use mh_model::Config;

/// A variable or a list, in a configuration.
#[derive(Drop, PartialEq, Eq, Hash)]
pub struct Holder {
    pub config: Config,
    pub at: ObjRef,
}

/// The place of an action, or with the number 0 that of an object.
#[derive(Drop, PartialEq, Eq, Hash)]
pub struct ActionSite {
    /// The object.
    pub key: ObjRef,
    /// The number of the action through the object's effects, from 1 on.
    pub index: usize,
}

/// A reference goes from one holder to another.
#[derive(Drop)]
pub struct Move {
    /// Where it was before; nowhere, where a chain begins.
    pub from: Option<Holder>,
    /// What takes it there; nothing, where an object keeps what it holds from one configuration to the next.
    pub action_site: Option<ActionSite>,
    pub to: Holder,
}
