//! `Refused`: what is known of a refusal.
use mh_base::{GroupName, ObjRef};
use mh_group::ActionName;
use std::marker::Model;

/// A refusal that names a reference.
#[derive(Drop)]
pub struct Refused<'a> {
    /// The number of its kind, as 1 for V1.
    pub number: u32,
    /// The object in which the action is written.
    pub group: &'a GroupName,
    pub object: u32,
    /// The number of the action there, from 1 on; 0 for the members of the object.
    pub index: usize,
    /// None for the members.
    pub action: Option<ActionName>,
    /// The reference that is wrong.
    pub at: &'a ObjRef,
    /// The variable or the list that may hold it, if it is not written there.
    pub holder: Option<&'a ObjRef>,
}

impl<'a> Model for Refused<'a> {
    ghost use Rattle.std.specs.Option.{option_copied};
    ghost use Rattle.mh_cause.specs.Refusing.{Refused};

    ghost Value = { Refused };

    ghost view = { λ r.
        record {
          number = r.number;
          group = r.group.now;
          object = r.object;
          index = r.index;
          action = r.action;
          at = r.at.now;
          holder = option_copied r.holder;
        } };
}
