//! What is present in a configuration and held there.
//!
//! Promise: each function answers what the definition that its clause names says.
ghost use Rattle.std.specs.Prelude.{◌≡◌};
ghost use Rattle.mh_alive.specs.There.{comes_to, names, sets_there};

use mh_base::{ObjRef, Value};
use mh_flow::{Held, Present};
use mh_model::{Argument, Target};
use std::marker::Model;
use std::slice;

/// What is present in a configuration, and what variables and lists may hold there.
#[derive(Drop)]
pub(crate) struct There<'a> {
    pub present: &'a Present<'a>,
    pub held: &'a Held,
}

impl<'a> Model for There<'a> {
    ghost use Rattle.mh_alive.specs.There.{There as ThereValue};

    ghost Value = { ThereValue };

    ghost view = { λ t. record { present = t.present.now; lists = t.held.now } };
}

impl<'a> There<'a> {
    /// To what the variable may refer, or which items the list may have.
    #[tactic(auto, unfolding(crate::specs::There::sets_there))]
    pub fn set(&self, at: &ObjRef) -> &[ObjRef]
        ensures { result.now ≡ sets_there self.now at.now }
    {
        self.held.of(self.present, at)
    }

    /// The objects to which the target may come.
    pub fn comes_to<'b>(&'b self, target: &'b Target) -> &'b [ObjRef]
        ensures { result.now ≡ comes_to (sets_there self.now) target.now }
    {
        match target {
            Target::Direct(at) => slice::from_ref(at),
            Target::Through(variable) => self.set(variable),
        }
    }

    /// The objects to which the argument may come.
    pub fn names<'b>(&'b self, argument: &'b Argument) -> &'b [ObjRef]
        ensures { result.now ≡ names (sets_there self.now) argument.now }
    {
        match argument {
            Argument::Direct(Value::Object(at)) => slice::from_ref(at),
            Argument::Through(variable, _) => self.set(variable),
            _ => &[],
        }
    }
}
