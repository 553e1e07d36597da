//! `Turn`: when the turn of a timer comes. The timers stand by their turns, so that those that are due stand in
//! front.
ghost use Rattle.std.specs.Prelude.{◌≡◌, ◌∷◌, false, not, filter, true, IfNone, IfSome, OnOk, OnErr};
ghost use Rattle.std.specs.BTreeMap.{insert_entry};
ghost use Rattle.std.specs.List.{AllByRecursion};
ghost use Rattle.std.specs.Str.{bytes_eq};
ghost use Rattle.mh_model.specs.Time.{is_due, is_timer};
ghost use Rattle.mh_events.specs.Turns.{AreTimed, has_turn, is_first_due, turn_cmp};

use crate::order::is_due;
use mh_base::GroupName;
use mh_model::Timer;
use std::alloc::AllocError;
use std::collections::BTreeMap;

/// When the turn of a timer comes: by the moment from which on it is due, and of one moment by its
/// number. A newer timer has a smaller number.
#[derive(Clone, Copy, PartialEq, Eq, PartialOrd, Ord)]
pub struct Turn {
    pub due: u64,
    pub number: u64,
}

/// Puts a timer at its turn. Where memory is refused nothing changes.
pub(crate) fn put(
    timers: &mut BTreeMap<Turn, Timer>,
    turn: Turn,
    timer: Timer,
) -> Result<(), AllocError>
    ensures put { OnOk result (timers.new.entries ≡ insert_entry turn_cmp timers.old.entries turn timer) }
    ensures kept { OnErr result (timers.new.entries ≡ timers.old.entries) }
{
    timers.insert(turn, timer)?;
    Ok(())
}

/// Takes the timer away whose turn it is.
pub(crate) fn take(timers: &mut BTreeMap<Turn, Timer>, turn: Turn)
    ensures { timers.new.entries ≡ filter (λ e. not (has_turn turn e)) timers.old.entries }
{
    // The length is asked for its clause that the turns ascend.
    let _ = timers.len();
    timers.remove(&turn);
}

/// Takes the timer of the group with this id away, wherever it stands.
pub(crate) fn take_timer(timers: &mut BTreeMap<Turn, Timer>, group: &GroupName, id: i32)
    ensures { timers.new.entries ≡ filter (λ e. not (is_timer group.now id e.1)) timers.old.entries }
{
    timers.retain(|_turn, timer| is_other(timer, group, id));
}

fn is_other(timer: &Timer, group: &GroupName, id: i32) -> bool
    ensures { result ≡ not (is_timer group.now id timer.now) }
{
    !(timer.group == *group && timer.id == id)
}

/// Keeps the timers of the application.
pub(crate) fn keep(timers: &mut BTreeMap<Turn, Timer>, application: &GroupName)
    ensures { timers.new.entries ≡ filter (λ e. bytes_eq e.1.group application.now) timers.old.entries }
{
    timers.retain(|_turn, timer| is_of(timer, application));
}

fn is_of(timer: &Timer, application: &GroupName) -> bool
    ensures { result ≡ bytes_eq timer.now.group application.now }
{
    timer.group == *application
}

/// Takes the first away, if it is due. If it is not, none is.
pub(crate) fn take_due(timers: &mut BTreeMap<Turn, Timer>, now: u32) -> Option<(Turn, Timer)>
    requires { AreTimed timers.old.entries }
    ensures taken { IfSome result (λ p. (timers.old.entries ≡ p ∷ timers.new.entries)
        × (is_due now p.1 ≡ true)) }
    ensures behind { IfSome result
        (λ p. AllByRecursion (λ e. has_turn p.0 e ≡ false) timers.new.entries) }
    ensures kept { IfNone result (timers.new.entries ≡ timers.old.entries) }
    ensures none { IfNone result (AllByRecursion (λ e. is_due now e.1 ≡ false) timers.old.entries) }
{
    // The length is asked for its clause that the turns ascend.
    let _ = timers.len();
    if !is_first_due(timers, now) {
        return None;
    }
    match timers.pop_first() {
        Some(first) => Some(first),
        None => None,
    }
}

fn is_first_due(timers: &BTreeMap<Turn, Timer>, now: u32) -> bool
    ensures { result ≡ is_first_due now timers.now.entries }
{
    match timers.first_key_value() {
        Some((_, timer)) => is_due(timer, now),
        None => false,
    }
}
