//! `TimerKey`: what a timer is set and cancelled by, and how its turn is found by that.
ghost use Rattle.std.specs.Prelude.{◌≡◌, ◌≤◌, OnOk, Some, None, cond, if◌then◌else◌};
ghost use Rattle.std.specs.HashMap.{spare};
ghost use Rattle.std.specs.Str.{bytes_eq};
ghost use Rattle.mh_events.specs.Turns.{same_timer_key, turn_of};

use crate::turn::Turn;
use mh_base::GroupName;
use std::alloc::AllocError;
use std::collections::HashMap;

/// What a timer is set and cancelled by. The id stands first, since it is compared at once.
#[derive(Drop, PartialEq, Eq, Hash)]
pub struct TimerKey {
    pub id: i32,
    pub group: GroupName,
}

/// Makes room for one more turn.
pub(crate) fn make_room(turns: &mut HashMap<TimerKey, Turn>) -> Result<(), AllocError>
    ensures same { (k : _) → turn_of turns.new.entries k ≡ turn_of turns.old.entries k }
    ensures room { OnOk result (1 ≤ spare turns.new) }
{
    turns.reserve(1)
}

/// Notes the turn of a timer, where there is room, and answers what its turn was.
pub(crate) fn note(turns: &mut HashMap<TimerKey, Turn>, key: TimerKey, turn: Turn) -> Option<Turn>
    requires { 1 ≤ spare turns.old }
    ensures old { result ≡ turn_of turns.old.entries key }
    ensures noted { (k : _) → turn_of turns.new.entries k
        ≡ (if same_timer_key key k then Some turn else turn_of turns.old.entries k) }
{
    match turns.insert(key, turn) {
        Ok(old) => old,
        Err(_) => unreachable!(),
    }
}

/// Forgets the turn of a timer, and answers what it was.
pub(crate) fn forget(turns: &mut HashMap<TimerKey, Turn>, key: &TimerKey) -> Option<Turn>
    ensures old { result ≡ turn_of turns.old.entries key.now }
    ensures gone { (k : _) → turn_of turns.new.entries k
        ≡ (if same_timer_key key.now k then None else turn_of turns.old.entries k) }
{
    turns.remove(key)
}

/// Keeps the turns of the application's timers.
pub(crate) fn keep(turns: &mut HashMap<TimerKey, Turn>, application: &GroupName)
    ensures { (k : _) → turn_of turns.new.entries k
        ≡ (if bytes_eq k.group application.now then turn_of turns.old.entries k else None) }
{
    turns.retain(|key, _turn| is_of(key, application));
}

fn is_of(key: &TimerKey, application: &GroupName) -> bool
    ensures { result ≡ bytes_eq key.now.group application.now }
{
    key.group == *application
}
