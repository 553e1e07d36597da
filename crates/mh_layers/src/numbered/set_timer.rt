//! `SetTimer`: a timer that can be set.
//!
//! Promise: two are the same where their groups and ids are, and they are hashed alike then.
ghost use Rattle.std.specs.Prelude.{◌≡◌, IfOk};
ghost use Rattle.std.specs.Cmp.{partial_equiv_from_equiv};
ghost use Rattle.mh_model.specs.Reference.{group_ref as group_ref_lem};
ghost use Rattle.mh_laws.specs.Costs.{same_timer as same_timer_lem};
ghost use Rattle.mh_layers.specs.SetTimers.{timer_alike, timer_equiv, timer_fed};

use mh_base::{GroupName, ObjRef};
use mh_model::parts::group_ref;
use std::alloc::AllocError;
use std::hash::{Hash, Hasher};
use std::marker::Model;

/// A timer by its group and id. The group is told by its reference, from which the timer's events come.
#[derive(Drop)]
pub(crate) struct SetTimer {
    group: ObjRef,
    id: i32,
}

impl Model for SetTimer {
    ghost use Rattle.std.specs.Prelude.{◌≡◌};
    ghost use Rattle.mh_laws.specs.Costs.{TimerKey};

    ghost Value = { TimerKey };

    ghost view = { λ t. (t.group.group, t.id) };

    ghost invariant = { λ t. t.group.number ≡ 0 };
}

impl PartialEq for SetTimer {
    ghost eq = { same_timer_lem };

    ghost laws = { partial_equiv_from_equiv timer_equiv };

    fn eq(&self, other: &SetTimer) -> bool {
        self.group.group == other.group.group && self.id == other.id
    }
}

impl Eq for SetTimer {
    ghost laws = { timer_equiv };
}

impl Hash for SetTimer {
    ghost hash_input = { timer_fed };

    ghost respects_eq = { timer_alike };

    fn hash<H: Hasher>(&self, state: &mut H) {
        self.group.group.hash(state);
        self.id.hash(state);
    }
}

impl SetTimer {
    pub fn of(group: &GroupName, id: i32) -> Result<SetTimer, AllocError>
        ensures { IfOk result (λ timer. timer ≡ (group.now, id)) }
    {
        let group = group_ref(group)?;
        Ok(SetTimer { group, id })
    }

    pub fn copied(&self) -> Result<SetTimer, AllocError>
        ensures { IfOk result (λ timer. timer ≡ self.now) }
    {
        SetTimer::of(&self.group.group, self.id)
    }

    /// The object from which the timer's events come: the group itself.
    pub fn source(&self) -> &ObjRef
        ensures { result.now ≡ group_ref_lem self.now.0 }
    {
        &self.group
    }

    /// The name of the group.
    pub fn group(&self) -> &GroupName
        ensures { result.now ≡ self.now.0 }
    {
        &self.group.group
    }

    pub fn id(&self) -> i32
        ensures { result ≡ self.now.1 }
    {
        self.id
    }
}
