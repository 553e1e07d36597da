//! `Queue`: what waits until it is taken.
//!
//! What may want memory is `post` and `reserve` alone.
ghost use Rattle.std.specs.Prelude.{◌≡◌, ◌++◌, ◌∷◌, ◌+◌, ◌<◌, ◌≤◌, ◌^◌, [], OnOk, OnErr};
ghost use Rattle.std.specs.Prelude.{drop, filter, length, map, nat_lt, not, slice_get, vec_len};
ghost use Rattle.std.specs.Option.{option_copied};
ghost use Rattle.std.specs.VecDeque.{deque_len, deque_capacity};
ghost use Rattle.mh_model.specs.Rules.{is_input, stays};
ghost use Rattle.mh_model.specs.Step.{inputs as inputs_lem, is_empty};
ghost use Rattle.mh_model.specs.Limits.{most_inputs};
ghost use Rattle.mh_model.specs.Step.{is_file_of, time_ahead, time_of};
ghost use Rattle.std.specs.List.{list_any};

use crate::counting::{MOST_INPUTS, is_file_of, is_input, stays, time_of};
use mh_base::GroupName;
use mh_model::{Event, Input, Waiting};
use std::alloc::{AllocError, Global};
use std::collections::VecDeque;
use std::marker::Model;

/// What waits to be taken, the first in front: inputs, and events that are not dealt with at once.
/// A contract sees the list, and for how many more there is room.
#[derive(Drop)]
pub struct Queue {
    entries: VecDeque<Waiting>,
    /// How many of them are inputs.
    inputs: usize,
    /// The sum of the ticks among them, in milliseconds.
    time: u64,
}

impl Model for Queue {
    ghost use Rattle.std.specs.Prelude.{◌-◌};
    ghost use Rattle.std.specs.VecDeque.{deque_len, deque_capacity};
    ghost use Rattle.mh_events.specs.Queued.{AreCounted, Queued};

    ghost Value = { Queued };

    ghost view = { λ q. record {
      items = q.entries.items;
      room = deque_capacity q.entries - deque_len q.entries;
    } };

    ghost invariant = { λ q. AreCounted q.entries.items q.inputs q.time };
}

impl Queue {
    /// A queue in which nothing waits. It takes no memory.
    pub fn new(alloc: Global) -> Queue
        ensures { result.items ≡ [] }
    {
        Queue {
            entries: VecDeque::new(alloc),
            inputs: 0,
            time: 0,
        }
    }

    pub fn is_empty(&self) -> bool
        ensures { result ≡ is_empty self.now.items }
    {
        self.entries.is_empty()
    }

    /// What waits first.
    pub fn first(&self) -> Option<&Waiting>
        ensures { option_copied result ≡ slice_get self.now.items 0 }
    {
        self.entries.front()
    }

    /// What waits at this place, counted from the front.
    pub fn at(&self, place: usize) -> Option<&Waiting>
        ensures { option_copied result ≡ slice_get self.now.items place }
    {
        self.entries.get(place)
    }

    /// How much waits, inputs and events.
    pub fn len(&self) -> usize
        ensures all { result ≡ length self.now.items }
        ensures small { result < 2 ^ 63 }
    {
        self.entries.len()
    }

    /// Whether as many inputs wait as may.
    pub fn is_full(&self) -> bool
        ensures { result ≡ not (nat_lt (inputs_lem self.now.items) most_inputs) }
    {
        self.inputs >= MOST_INPUTS
    }

    /// Whether the file of this scene waits.
    pub fn has_file_of(&self, scene: &GroupName) -> bool
        ensures { result ≡ list_any (is_file_of scene.now) self.now.items }
    {
        self.entries
            .iter()
            .any(|waiting| is_file_of(waiting, scene))
    }

    /// How much time will have passed when all that waits is taken, in milliseconds.
    pub fn time_ahead(&self) -> u64
        ensures { result ≡ time_ahead self.now.items }
    {
        self.time
    }

    /// Adds an input at the end.
    pub fn post(&mut self, input: Input) -> Result<(), AllocError>
        requires { time_ahead self.old.items + time_of (Waiting.Input input) < 2 ^ 64 }
        ensures posted { OnOk result (self.new.items ≡ self.old.items ++ Waiting.Input input ∷ []) }
        ensures kept { OnErr result (self.new.items ≡ self.old.items) }
    {
        self.reserve(1)?;
        self.post_reserved(input);
        Ok(())
    }

    /// Adds an input at the end, for which there is room. It takes no memory.
    pub fn post_reserved(&mut self, input: Input)
        requires fits { time_ahead self.old.items + time_of (Waiting.Input input) < 2 ^ 64 }
        requires room { 1 ≤ self.old.room }
        ensures { self.new.items ≡ self.old.items ++ Waiting.Input input ∷ [] }
    {
        let time = time_of(&input);
        self.entries.push_back_reserved(Waiting::Input(input));
        self.inputs += 1;
        self.time += time;
    }

    /// Makes room for so many more.
    pub fn reserve(&mut self, count: usize) -> Result<(), AllocError>
        ensures same { self.new.items ≡ self.old.items }
        ensures room { OnOk result (count ≤ self.new.room) }
    {
        self.entries.reserve(count)
    }

    /// Adds an event at the end, for which there is room. It takes no memory.
    pub fn add(&mut self, event: Event)
        requires { 1 ≤ self.old.room }
        ensures { self.new.items ≡ self.old.items ++ Waiting.Event event ∷ [] }
    {
        self.entries.push_back_reserved(Waiting::Event(event));
    }

    /// Adds these events at the end, for which there is room. It takes no memory.
    pub fn add_all(&mut self, events: Vec<Event>)
        requires { vec_len events ≤ self.old.room }
        ensures { self.new.items ≡ self.old.items ++ map Waiting.Event events.items }
    {
        push_events(&mut self.entries, events);
    }

    /// Takes the first away, if anything waits. It moves no other, and takes no memory.
    pub fn take_first(&mut self)
        ensures items { self.new.items ≡ drop 1 self.old.items }
        ensures room { self.old.room ≤ self.new.room }
    {
        if let Some(Waiting::Input(input)) = self.entries.pop_front() {
            self.inputs -= 1;
            self.time -= time_of(&input);
        }
    }

    /// Keeps inputs, and the events of the application.
    pub fn keep(&mut self, application: &GroupName)
        ensures { self.new.items ≡ filter (stays application.now) self.old.items }
    {
        keep_of(&mut self.entries, self.inputs, application);
    }

    /// Keeps inputs alone.
    pub fn keep_inputs(&mut self)
        ensures { self.new.items ≡ filter is_input self.old.items }
    {
        keep_inputs_of(&mut self.entries);
    }

    pub fn clear(&mut self)
        ensures { self.new.items ≡ [] }
    {
        self.entries.clear();
        self.inputs = 0;
        self.time = 0;
    }
}

fn push_events(entries: &mut VecDeque<Waiting>, events: Vec<Event>)
    requires { deque_len entries.old + vec_len events ≤ deque_capacity entries.old }
    ensures { entries.new.items ≡ entries.old.items ++ map Waiting.Event events.items }
{
    for event in events {
        entries.push_back_reserved(Waiting::Event(event));
    }
}

/// Where inputs alone wait, all of them stay, and none is looked at.
fn keep_of(entries: &mut VecDeque<Waiting>, inputs: usize, application: &GroupName)
    requires { inputs ≡ inputs_lem entries.old.items }
    ensures { entries.new.items ≡ filter (stays application.now) entries.old.items }
{
    if inputs < entries.len() {
        entries.retain(|waiting| stays(waiting, application));
    }
}

fn keep_inputs_of(entries: &mut VecDeque<Waiting>)
    ensures { entries.new.items ≡ filter is_input entries.old.items }
{
    entries.retain(|waiting| is_input(waiting));
}
