//! `Timers`: the timers that are set.
//!
//! Setting or cancelling one takes as long as the logarithm of how many are set; so does each that is due. A
//! tick at which none is due looks at one timer alone.
ghost use Rattle.std.specs.Prelude.{◌≡◌, ◌<◌, ◌++◌, ◌∷◌, [], false, true, IfOk, OnErr, OnOk, filter, length, map, not};
ghost use Rattle.std.specs.Map.{values_of};
ghost use Rattle.std.specs.Str.{bytes_eq};
ghost use Rattle.mh_model.specs.Limits.{most_moment};
ghost use Rattle.mh_model.specs.Time.{cancelled, due as due_lem, is_due};
ghost use Rattle.mh_model.specs.Time.{timed, timer_event};
ghost use Rattle.mh_events.specs.Turns.{key_of};

use crate::order::{Place, due_of};
use crate::timer_key::{TimerKey, forget, keep as keep_turns, make_room, note};
use crate::turn::{Turn, keep as keep_timers, put, take, take_due, take_timer};
use mh_base::{EventType, GroupName, ObjRef, Value};
use mh_model::{Event, Timer};
use std::alloc::{AllocError, Global};
use std::collections::{BTreeMap, HashMap};
use std::marker::Model;

/// The timers that are set (ISO/IEC 13522-5, SetTimer). A contract sees the list of them, in the
/// order in which they were set.
#[derive(Drop)]
pub struct Timers {
    timers: BTreeMap<Turn, Timer>,
    /// The turn of each timer.
    turns: HashMap<TimerKey, Turn>,
    /// The next timer gets the number below this one.
    left: u64,
}

impl Model for Timers {
    ghost use Rattle.std.specs.Prelude.{List};
    ghost use Rattle.mh_model.specs.declared.time.Timer.{Timer};
    ghost use Rattle.mh_events.specs.Turns.{in_setting_order, turn_of, AreFound};

    ghost Value = { List Timer };

    ghost view = { λ t. in_setting_order t.timers.entries };

    ghost invariant = { λ t. AreFound t.timers.entries (turn_of t.turns.entries) t.left };
}

impl Timers {
    /// No timers. It takes no memory.
    pub fn new(alloc: Global) -> Timers
        ensures { result ≡ [] }
    {
        Timers {
            timers: BTreeMap::new(alloc),
            turns: HashMap::new(alloc),
            left: u64::MAX,
        }
    }

    /// Sets a timer, in place of an older one of the group with this id. Where memory is refused
    /// nothing changes.
    pub fn set(&mut self, group: &GroupName, id: i32, due: u64) -> Result<(), AllocError>
        ensures set { OnOk result (self.new ≡ timed group.now id due self.old) }
        ensures kept { OnErr result (self.new ≡ self.old) }
    {
        let key = TimerKey {
            id,
            group: group.clone()?,
        };
        let timer = Timer {
            group: group.clone()?,
            id,
            due,
        };
        self.set_timer(key, timer)
    }

    fn set_timer(&mut self, key: TimerKey, timer: Timer) -> Result<(), AllocError>
        requires { key ≡ key_of timer }
        ensures set { OnOk result (self.new ≡ cancelled key.group key.id self.old ++ timer ∷ []) }
        ensures kept { OnErr result (self.new ≡ self.old) }
    {
        // The numbers last for 2^64 timers that are set one after another, longer than any machine runs.
        if self.left == 0 {
            return Err(AllocError);
        }
        let turn = Turn {
            due: timer.due,
            number: self.left - 1,
        };
        make_room(&mut self.turns)?;
        put(&mut self.timers, turn, timer)?;
        self.left -= 1;
        if let Some(old) = note(&mut self.turns, key, turn) {
            take(&mut self.timers, old);
        }
        Ok(())
    }

    /// Cancels the timer of the group with this id, if it is set.
    pub fn cancel(&mut self, group: &GroupName, id: i32)
        ensures { self.new ≡ cancelled group.now id self.old }
    {
        // A copy of the name may be refused memory, but nothing else finds the turn. All timers are looked at then.
        match key_of(group, id) {
            Ok(key) => self.cancel_key(&key),
            Err(_) => take_timer(&mut self.timers, group, id),
        }
    }

    fn cancel_key(&mut self, key: &TimerKey)
        ensures { self.new ≡ cancelled key.now.group key.now.id self.old }
    {
        if let Some(turn) = forget(&mut self.turns, key) {
            take(&mut self.timers, turn);
        }
    }

    /// The events of the timers that are due at this moment, in order: by due moment, of one moment
    /// the application's first, then by id. Where none is due it takes no memory.
    pub fn due(
        &self,
        alloc: Global,
        now: u32,
        application: &GroupName,
    ) -> Result<Vec<Event>, AllocError>
        ensures { let due = due_lem now application.now self.now in
            IfOk result (λ events. events.items ≡ map timer_event due) }
    {
        let due = due_of(alloc, now, application, &self.timers)?;
        events_of(alloc, due)
    }

    /// Copies of the timers that are due by the last moment, in the order in which they are. One that is due later is
    /// never due.
    pub fn ahead(&self, alloc: Global, application: &GroupName) -> Result<Vec<Timer>, AllocError>
        ensures { IfOk result (λ timers. timers.items ≡ due_lem most_moment application.now self.now) }
    {
        let ahead = due_of(alloc, u32::MAX, application, &self.timers)?;
        timers_of(alloc, ahead)
    }

    /// Takes those away that are due.
    pub fn drop_due(&mut self, now: u32)
        ensures { self.new ≡ filter (λ t. not (is_due now t)) self.old }
    {
        while self.drop_first(now) {}
    }

    /// Takes one away that is due, if there is one.
    fn drop_first(&mut self, now: u32) -> bool
        ensures more { result ≡ true → filter (λ t. not (is_due now t)) self.new
            ≡ filter (λ t. not (is_due now t)) self.old }
        ensures fewer { result ≡ true → length self.new < length self.old }
        ensures done { result ≡ false → self.new ≡ filter (λ t. not (is_due now t)) self.old }
    {
        match take_due(&mut self.timers, now) {
            Some((_, timer)) => {
                forget(&mut self.turns, &into_key(timer));
                true
            }
            None => false,
        }
    }

    /// Keeps those of the application.
    pub fn keep(&mut self, application: &GroupName)
        ensures { self.new ≡ filter (λ t. bytes_eq t.group application.now) self.old }
    {
        keep_timers(&mut self.timers, application);
        keep_turns(&mut self.turns, application);
    }

    pub fn clear(&mut self)
        ensures { self.new ≡ [] }
    {
        self.timers.clear();
        self.turns.clear();
        self.left = u64::MAX;
    }
}

fn key_of(group: &GroupName, id: i32) -> Result<TimerKey, AllocError>
    ensures { IfOk result (λ key. key ≡ record { id = id; group = group.now }) }
{
    let group = group.clone()?;
    Ok(TimerKey { id, group })
}

fn into_key(timer: Timer) -> TimerKey
    ensures { result ≡ record { id = timer.id; group = timer.group } }
{
    TimerKey {
        id: timer.id,
        group: timer.group,
    }
}

fn events_of(alloc: Global, timers: BTreeMap<Place, Timer>) -> Result<Vec<Event>, AllocError>
    ensures { IfOk result (λ events. events.items ≡ map timer_event (values_of timers.entries)) }
{
    let mut events = Vec::with_capacity(alloc, timers.len())?;
    for timer in timers.into_values() {
        events.push_reserved(event_of(timer));
    }
    Ok(events)
}

fn timers_of(alloc: Global, timers: BTreeMap<Place, Timer>) -> Result<Vec<Timer>, AllocError>
    ensures { IfOk result (λ list. list.items ≡ values_of timers.entries) }
{
    let mut list = Vec::with_capacity(alloc, timers.len())?;
    for timer in timers.into_values() {
        list.push_reserved(timer);
    }
    Ok(list)
}

/// The event of a timer, which has the timer's id as data.
fn event_of(timer: Timer) -> Event
    ensures { result ≡ timer_event timer }
{
    Event {
        source: ObjRef {
            group: timer.group,
            number: 0,
        },
        kind: EventType::TimerFired,
        data: Some(Value::Int(timer.id)),
    }
}
