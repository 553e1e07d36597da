//! Rows of a coverage: how much of an effect was done, and whether a group was entered.
ghost use Rattle.std.specs.Prelude.{◌≡◌};
ghost use Rattle.mh_trace.specs.Cover as spec;

use crate::site::EffectKind;
use mh_base::{GroupName, ObjRef};

/// How much of an effect was done.
#[derive(Drop)]
pub struct Row {
    pub object: ObjRef,
    pub kind: EffectKind,
    /// How many of its actions were done.
    pub done: usize,
    /// How many it has, one at least.
    pub all: usize,
}

impl Row {
    /// Whether all of its actions were done.
    pub fn is_whole(&self) -> bool
        ensures { result ≡ spec.is_whole self.now }
    {
        self.done == self.all
    }
}

/// Whether a group was entered.
#[derive(Drop)]
pub struct GroupRow {
    pub name: GroupName,
    pub is_application: bool,
    pub is_entered: bool,
}

impl GroupRow {
    /// Whether the group was entered.
    pub fn was_entered(&self) -> bool
        ensures { result ≡ spec.was_entered self.now }
    {
        self.is_entered
    }
}
