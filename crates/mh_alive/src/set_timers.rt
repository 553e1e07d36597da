//! Timers, found by group and id.
//!
//! Promise: each function answers what the definition that its clause names says.
ghost use Rattle.std.specs.Prelude.{◌≡◌, [], Some, map, IfOk};
ghost use Rattle.std.specs.Option.{option_copied};
ghost use Rattle.indexmap.specs.IndexSet.{insert_all};
ghost use Rattle.mh_model.specs.Reference.{same_key};
ghost use Rattle.mh_alive.specs.Timers as spec;

use crate::references::put;
use crate::tellings::SetTimer;
use indexmap::IndexSet;
use mh_base::{ObjRef, Value};
use std::alloc::{AllocError, Global};
use std::marker::Model;

/// The timers, and the groups that have one.
#[derive(Drop)]
pub(crate) struct TimerTable {
    pub set: IndexSet<SetTimer>,
    pub groups: IndexSet<ObjRef>,
}

impl Model for TimerTable {
    ghost use Rattle.mh_alive.specs.Timers.{Timers as TimersValue};

    ghost Value = { TimersValue };

    ghost view = { λ t. record { set = t.set.keys; groups = t.groups.keys } };
}

/// These timers, with their groups.
pub(crate) fn timers_with(alloc: Global, set: IndexSet<SetTimer>) -> Result<TimerTable, AllocError>
    ensures { IfOk result (λ timers. timers ≡ spec.timers_with set.keys) }
{
    let groups = groups(alloc, set.as_slice())?;
    Ok(TimerTable { set, groups })
}

/// The groups that have one of these timers.
fn groups(alloc: Global, timers: &[SetTimer]) -> Result<IndexSet<ObjRef>, AllocError>
    ensures { IfOk result (λ groups. groups.keys ≡ insert_all same_key [] (map (λ t. t.at) timers.now)) }
{
    let mut groups = IndexSet::new(alloc);
    for timer in timers {
        put(&mut groups, &timer.at)?;
    }
    Ok(groups)
}

impl TimerTable {
    fn has(&self, at: &ObjRef, id: i32) -> Result<bool, AllocError>
        ensures { IfOk result (λ timed. timed ≡ spec.is_timed self.now at.now (Some (Value.Int id))) }
    {
        let wanted = SetTimer {
            at: at.clone()?,
            id,
        };
        Ok(self.set.contains(&wanted))
    }

    /// Whether a timer of the group is there, with the id if one is named.
    pub fn is_timed(&self, at: &ObjRef, value: Option<&Value>) -> Result<bool, AllocError>
        ensures { IfOk result (λ timed. timed ≡ spec.is_timed self.now at.now (option_copied value.entry)) }
    {
        match value {
            None => Ok(self.groups.contains(at)),
            Some(Value::Int(id)) => self.has(at, *id),
            _ => Ok(false),
        }
    }
}
