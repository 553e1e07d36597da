//! `Agenda`: what is still to come: the timers that are set, what waits in the queue, and the present moment.
ghost use Rattle.std.specs.Prelude.{◌≡◌, ◌+◌, ◌≤◌, ◌++◌, ◌∷◌, [], false, None, Some, IfOk, OnOk, OnErr, drop, filter, map, nat_lt, not, slice_get, vec_len};
ghost use Rattle.std.specs.Option.{option_copied};
ghost use Rattle.std.specs.Str.{bytes_eq};
ghost use Rattle.mh_model.specs.Rules.{is_input, stays};
ghost use Rattle.mh_model.specs.Step as spec;
ghost use Rattle.mh_model.specs.Time.{due, is_due, set_timers, timer_event};
ghost use Rattle.mh_model.specs.Limits.{most_inputs, most_moment};
ghost use Rattle.mh_events.specs.Agenda.{passes_the_last, entered, fired};

use crate::queue::Queue;
use crate::timers::Timers;
use crate::timing::set_timers;
use mh_base::{GroupName, Value};
use mh_model::{Event, Input, Moments, Timer, Waiting};
use std::alloc::{AllocError, Global};
use std::marker::Model;

/// The last moment, in milliseconds since the start.
const LAST_MOMENT: u64 = 4_294_967_295;

/// What is still to come. No tick that waits leads past the last moment.
#[derive(Drop)]
pub struct Agenda {
    moments: Moments,
    timers: Timers,
    queue: Queue,
}

impl Model for Agenda {
    ghost use Rattle.std.specs.Prelude.{◌+◌, ◌≤◌};
    ghost use Rattle.mh_model.specs.Step.{time_ahead};
    ghost use Rattle.mh_model.specs.Limits.{most_moment};
    ghost use Rattle.mh_events.specs.Agenda.{Coming};

    ghost Value = { Coming };

    ghost view = { λ a. record {
      moments = a.moments;
      timers = a.timers;
      queue = a.queue.items;
      room = a.queue.room;
    } };

    ghost invariant = { λ a. a.moments.present + time_ahead a.queue.items ≤ most_moment };
}

impl Agenda {
    /// At the start nothing is to come.
    pub fn new(alloc: Global) -> Agenda
        ensures moments { result.moments ≡ record { present = 0; application = 0; scene = 0 } }
        ensures timers { result.timers ≡ [] }
        ensures queue { result.queue ≡ [] }
    {
        Agenda {
            moments: Moments {
                present: 0,
                application: 0,
                scene: 0,
            },
            timers: Timers::new(alloc),
            queue: Queue::new(alloc),
        }
    }

    pub fn moments(&self) -> &Moments
        ensures { result.now ≡ self.now.moments }
    {
        &self.moments
    }

    /// Copies of the timers that are due by the last moment, in the order in which they are.
    pub fn timers(&self, alloc: Global, application: &GroupName) -> Result<Vec<Timer>, AllocError>
        ensures { IfOk result (λ timers. timers.items ≡ due most_moment application.now self.now.timers) }
    {
        self.timers.ahead(alloc, application)
    }

    /// What waits, in the order in which it came.
    pub fn queue(&self) -> &Queue
        ensures { result.now.items ≡ self.now.queue }
    {
        &self.queue
    }

    /// What waits first.
    pub fn first(&self) -> Option<&Waiting>
        ensures { option_copied result ≡ slice_get self.now.queue 0 }
    {
        self.queue.first()
    }

    /// Whether nothing waits.
    pub fn is_empty(&self) -> bool
        ensures { result ≡ spec.is_empty self.now.queue }
    {
        self.queue.is_empty()
    }

    /// Whether as many inputs wait as may.
    pub fn is_full(&self) -> bool
        ensures { result ≡ not (nat_lt (spec.inputs self.now.queue) most_inputs) }
    {
        self.queue.is_full()
    }

    /// Whether a tick, behind all that wait, would lead past the last moment.
    pub fn passes_the_last(&self, input: &Input) -> bool
        ensures { result ≡ passes_the_last input.now self.now }
    {
        match input {
            Input::Tick(length) => {
                let ahead = u64::from(self.moments.present) + self.queue.time_ahead();
                ahead + u64::from(*length) > LAST_MOMENT
            }
            _ => false,
        }
    }

    /// Adds an input at the end of the queue.
    pub fn post(&mut self, input: Input) -> Result<(), AllocError>
        requires { passes_the_last input self.old ≡ false }
        ensures moments { self.new.moments ≡ self.old.moments }
        ensures timers { self.new.timers ≡ self.old.timers }
        ensures posted { OnOk result (self.new.queue ≡ self.old.queue ++ Waiting.Input input ∷ []) }
        ensures kept { OnErr result (self.new.queue ≡ self.old.queue) }
    {
        self.queue.post(input)
    }

    /// Adds an input, for which there is room, at the end of the queue. It takes no memory.
    pub fn post_reserved(&mut self, input: Input)
        requires fits { passes_the_last input self.old ≡ false }
        requires room { 1 ≤ self.old.room }
        ensures moments { self.new.moments ≡ self.old.moments }
        ensures timers { self.new.timers ≡ self.old.timers }
        ensures posted { self.new.queue ≡ self.old.queue ++ Waiting.Input input ∷ [] }
    {
        self.queue.post_reserved(input);
    }

    /// Makes room for so many more in the queue.
    pub fn reserve(&mut self, count: usize) -> Result<(), AllocError>
        ensures moments { self.new.moments ≡ self.old.moments }
        ensures timers { self.new.timers ≡ self.old.timers }
        ensures queue { self.new.queue ≡ self.old.queue }
        ensures room { OnOk result (count ≤ self.new.room) }
    {
        self.queue.reserve(count)
    }

    /// Adds an event, for which there is room, at the end of the queue.
    pub fn add(&mut self, event: Event)
        requires { 1 ≤ self.old.room }
        ensures moments { self.new.moments ≡ self.old.moments }
        ensures timers { self.new.timers ≡ self.old.timers }
        ensures queue { self.new.queue ≡ self.old.queue ++ Waiting.Event event ∷ [] }
    {
        self.queue.add(event);
    }

    /// Takes the first away that waits.
    pub fn take_first(&mut self)
        ensures moments { self.new.moments ≡ self.old.moments }
        ensures timers { self.new.timers ≡ self.old.timers }
        ensures queue { self.new.queue ≡ drop 1 self.old.queue }
    {
        self.queue.take_first();
    }

    /// Takes the first away that waits, and adds these events at the end.
    pub fn take_for(&mut self, events: Vec<Event>) -> Result<(), AllocError>
        ensures moments { self.new.moments ≡ self.old.moments }
        ensures timers { self.new.timers ≡ self.old.timers }
        ensures taken { OnOk result (self.new.queue
            ≡ drop 1 self.old.queue ++ map Waiting.Event events.items) }
        ensures kept { OnErr result (self.new.queue ≡ self.old.queue) }
    {
        self.queue.reserve(events.len())?;
        self.take_reserved(events);
        Ok(())
    }

    /// Takes the first away that waits, and adds these events, for which there is room, at the end.
    pub fn take_reserved(&mut self, events: Vec<Event>)
        requires { vec_len events ≤ self.old.room }
        ensures moments { self.new.moments ≡ self.old.moments }
        ensures timers { self.new.timers ≡ self.old.timers }
        ensures taken { self.new.queue ≡ drop 1 self.old.queue ++ map Waiting.Event events.items }
    {
        self.queue.take_first();
        self.queue.add_all(events);
    }

    /// Takes a tick, which waits first: time passes, the timers that are due go, and their events wait.
    pub fn take_tick(
        &mut self,
        alloc: Global,
        length: u32,
        application: &GroupName,
    ) -> Result<(), AllocError>
        requires { Some (Waiting.Input (Input.Tick length)) ≡ slice_get self.old.queue 0 }
        ensures moments { OnOk result (self.new.moments
            ≡ record self.old.moments { present = self.old.moments.present + length }) }
        ensures timers { OnOk result (self.new.timers
            ≡ filter (λ t. not (is_due (self.old.moments.present + length) t)) self.old.timers) }
        ensures queue { OnOk result (self.new.queue ≡ drop 1 self.old.queue
            ++ fired (self.old.moments.present + length) application.now self.old.timers) }
        ensures kept { OnErr result ((self.new.moments ≡ self.old.moments)
            × (self.new.timers ≡ self.old.timers) × (self.new.queue ≡ self.old.queue)) }
    {
        let now = self.moments.present + length;
        let events = self.timers.due(alloc, now, application)?;
        self.take_for(events)?;
        self.timers.drop_due(now);
        self.moments.present = now;
        Ok(())
    }

    /// Notes the moment in which a group is entered.
    pub fn note_entry(&mut self, application: &GroupName, group: &GroupName)
        ensures moments { self.new.moments ≡ entered application.now group.now self.old.moments }
        ensures timers { self.new.timers ≡ self.old.timers }
        ensures queue { self.new.queue ≡ self.old.queue }
    {
        if *group == *application {
            self.moments.application = self.moments.present;
        } else {
            self.moments.scene = self.moments.present;
        }
    }

    /// Sets or cancels the timer of the group that the values name.
    pub fn set_timers(
        &mut self,
        values: &[Value],
        application: &GroupName,
        group: &GroupName,
    ) -> Result<(), AllocError>
        ensures moments { self.new.moments ≡ self.old.moments }
        ensures timers { OnOk result (self.new.timers
            ≡ set_timers values.now application.now group.now self.old.moments self.old.timers) }
        ensures queue { self.new.queue ≡ self.old.queue }
        ensures kept { OnErr result (self.new.timers ≡ self.old.timers) }
    {
        set_timers(&mut self.timers, values, application, group, &self.moments)
    }

    /// A scene is left: inputs wait on, and the events and timers of the application stay.
    pub fn leave_scene(&mut self, application: &GroupName)
        ensures moments { self.new.moments ≡ self.old.moments }
        ensures timers { self.new.timers
            ≡ filter (λ t. bytes_eq t.group application.now) self.old.timers }
        ensures queue { self.new.queue ≡ filter (stays application.now) self.old.queue }
    {
        self.timers.keep(application);
        self.queue.keep(application);
    }

    /// The application is left: inputs alone wait on.
    pub fn leave_application(&mut self)
        ensures moments { self.new.moments ≡ self.old.moments }
        ensures timers { self.new.timers ≡ [] }
        ensures queue { self.new.queue ≡ filter is_input self.old.queue }
    {
        self.timers.clear();
        self.queue.keep_inputs();
    }

    /// Nothing waits any more.
    pub fn end(&mut self)
        ensures moments { self.new.moments ≡ self.old.moments }
        ensures timers { self.new.timers ≡ self.old.timers }
        ensures queue { self.new.queue ≡ [] }
    {
        self.queue.clear();
    }
}
