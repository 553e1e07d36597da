//! What waits first is taken from the queue.
ghost use Rattle.std.specs.Prelude.{◌≡◌, ◌+◌, ◌<◌, ◌≤◌, ◌^◌, None, Some, IfOk, OnOk, OnErr, slice_get};
ghost use Rattle.mh_model.specs.Files.{arrived, with_file};
ghost use Rattle.mh_model.specs.State.{all};
ghost use Rattle.mh_model.specs.Step as spec;
ghost use Rattle.mh_machine.specs.Rest.{answer_by};
ghost use Rattle.mh_work.specs.Batches.{written};
ghost use Rattle.mh_machine.specs.Taking.{shifted};

use crate::Stepped;
use crate::inputs::{content_events, engine_event, key_batches, stream_events};
use crate::plan::focus::copied_interaction;
use crate::works::Works;
use mh_carousel::Carousel;
use mh_events::Agenda;
use mh_model::{Event, File, Input, Key, Waiting};
use mh_work::{Batch, Work};
use std::alloc::AllocError;

impl Works {
    /// Takes what waits first in the queue, if anything does.
    pub(crate) fn take_first(&mut self) -> Result<Stepped, AllocError>
        requires { self.old.state.taken + 1 < 2 ^ 64 }
        ensures done { OnOk result (self.new.state
            ≡ spec.step_by None (slice_get self.old.state.queue 0) self.old.state) }
        ensures answer { IfOk result (λ a. a
            ≡ answer_by None (slice_get self.old.state.queue 0) self.old.state) }
        ensures kept { OnErr result (self.new.state ≡ self.old.state) }
    {
        match first_waiting(&self.agenda)? {
            Some(waiting) => {
                self.take(&waiting)?;
                Ok(Stepped::Did)
            }
            None => Ok(Stepped::Idle),
        }
    }

    /// Takes this, which waits first, from the queue.
    fn take(&mut self, waiting: &Waiting) -> Result<(), AllocError>
        requires room { self.old.state.taken + 1 < 2 ^ 64 }
        requires first { Some waiting.now ≡ slice_get self.old.state.queue 0 }
        ensures done { OnOk result (self.new.state ≡ spec.took waiting.now self.old.state) }
        ensures kept { OnErr result (self.new.state ≡ self.old.state) }
    {
        match waiting {
            Waiting::Event(event) => self.take_event(event),
            Waiting::Input(Input::Key(key)) => self.take_key(*key),
            Waiting::Input(Input::Tick(length)) => self.take_tick(*length),
            Waiting::Input(Input::Stream(tag)) => self.take_stream(*tag),
            Waiting::Input(Input::Engine(number)) => self.take_engine(*number),
            Waiting::Input(Input::Arrive(file)) => self.take_file(file),
            Waiting::Input(Input::Scene(scene, _)) => self.take_scene(scene),
        }
    }

    /// An event puts what the links put that hear it.
    fn take_event(&mut self, event: &Event) -> Result<(), AllocError>
        requires { self.old.state.taken + 1 < 2 ^ 64 }
        ensures done { OnOk result (self.new.state
            ≡ spec.taking (Waiting.Event event.now) (shifted self.old.state)) }
        ensures kept { OnErr result (self.new.state ≡ self.old.state) }
    {
        let batches = self.links.heard(self.alloc, event, self.stage.objects())?;
        self.take_with(batches)
    }

    /// A key goes to the object that interacts, or else to the scene.
    fn take_key(&mut self, key: Key) -> Result<(), AllocError>
        requires { self.old.state.taken + 1 < 2 ^ 64 }
        ensures done { OnOk result (self.new.state
            ≡ spec.taking (Waiting.Input (Input.Key key)) (shifted self.old.state)) }
        ensures kept { OnErr result (self.new.state ≡ self.old.state) }
    {
        match copied_interaction(&self.interaction)? {
            Some(begun) => self.press(key, &begun),
            None => self.take_heard(key),
        }
    }

    /// A key is an event of the scene, if its register lets it through.
    fn take_heard(&mut self, key: Key) -> Result<(), AllocError>
        requires { self.old.state.taken + 1 < 2 ^ 64 }
        ensures done { let items = spec.key_items key self.old.state.scene (all self.old.state.objects) in
            OnOk result (self.new.state ≡ record (shifted self.old.state) { work = items }) }
        ensures kept { OnErr result (self.new.state ≡ self.old.state) }
    {
        let batches = match &self.scene {
            None => Vec::new(self.alloc),
            Some(scene) => {
                key_batches(self.alloc, key, scene, &self.links, self.stage.objects())?
            }
        };
        self.take_with(batches)
    }

    /// An event of the engine is one of the active application.
    fn take_engine(&mut self, number: i32) -> Result<(), AllocError>
        requires { self.old.state.taken + 1 < 2 ^ 64 }
        ensures done { OnOk result (self.new.state
            ≡ spec.taking (Waiting.Input (Input.Engine number)) (shifted self.old.state)) }
        ensures kept { OnErr result (self.new.state ≡ self.old.state) }
    {
        let event = engine_event(number, &self.application)?;
        let batches = self.links.heard(self.alloc, &event, self.stage.objects())?;
        self.take_with(batches)
    }

    /// Time passes, and the events of the timers that are due wait.
    fn take_tick(&mut self, length: u32) -> Result<(), AllocError>
        requires room { self.old.state.taken + 1 < 2 ^ 64 }
        requires first { Some (Waiting.Input (Input.Tick length)) ≡ slice_get self.old.state.queue 0 }
        ensures done { OnOk result (self.new.state ≡ spec.ticked length (shifted self.old.state)) }
        ensures kept { OnErr result (self.new.state ≡ self.old.state) }
    {
        self.agenda
            .take_tick(self.alloc, length, &self.application)?;
        self.taken += 1;
        Ok(())
    }

    /// Each stream that runs has an event that waits.
    fn take_stream(&mut self, tag: i32) -> Result<(), AllocError>
        requires { self.old.state.taken + 1 < 2 ^ 64 }
        ensures done { OnOk result (self.new.state
            ≡ spec.taking (Waiting.Input (Input.Stream tag)) (shifted self.old.state)) }
        ensures kept { OnErr result (self.new.state ≡ self.old.state) }
    {
        let events = stream_events(self.alloc, tag, self.stage.objects())?;
        self.agenda.take_for(events)?;
        self.taken += 1;
        Ok(())
    }

    /// A file is there. The objects that wait for it have its content as their text, and each has an event
    /// that waits.
    fn take_file(&mut self, file: &File) -> Result<(), AllocError>
        requires { self.old.state.taken + 1 < 2 ^ 64 }
        ensures done { OnOk result (self.new.state ≡ spec.file_taken file.now (shifted self.old.state)) }
        ensures kept { OnErr result (self.new.state ≡ self.old.state) }
    {
        let kept = copied_file(file)?;
        let waiting = self.carousel.waiting(self.alloc, &file.name)?;
        let events = content_events(self.alloc, waiting.as_slice(), self.stage.objects())?;
        self.agenda.reserve(events.len())?;
        self.carousel.reserve_file()?;
        self.stage.bring_text(waiting.as_slice(), &file.content)?;
        self.agenda.take_reserved(events);
        arrive(&mut self.carousel, kept);
        self.taken += 1;
        Ok(())
    }

    /// Takes away what waits first, and does nothing else.
    pub(crate) fn shift(&mut self)
        requires { self.old.state.taken + 1 < 2 ^ 64 }
        ensures { self.new.state ≡ shifted self.old.state }
    {
        self.agenda.take_first();
        self.taken += 1;
    }

    /// Puts these batches in the place of the work list, for what waits first.
    fn take_with(&mut self, batches: Vec<Batch>) -> Result<(), AllocError>
        requires { self.old.state.taken + 1 < 2 ^ 64 }
        ensures done { OnOk result (self.new.state
            ≡ record (shifted self.old.state) { work = written batches.items }) }
        ensures kept { OnErr result (self.new.state ≡ self.old.state) }
    {
        self.work = Work::of_batches(self.alloc, batches)?;
        self.agenda.take_first();
        self.taken += 1;
        Ok(())
    }
}

/// A copy of what waits first.
fn first_waiting(agenda: &Agenda) -> Result<Option<Waiting>, AllocError>
    ensures { IfOk result (λ first. first ≡ slice_get agenda.now.queue 0) }
{
    match agenda.first() {
        Some(waiting) => Ok(Some(copied(waiting)?)),
        None => Ok(None),
    }
}

fn copied(waiting: &Waiting) -> Result<Waiting, AllocError>
    ensures { IfOk result (λ copy. copy ≡ waiting.now) }
{
    waiting.clone()
}

/// The file is there, and nobody waits for it any more.
fn arrive(carousel: &mut Carousel, file: File)
    requires { 1 ≤ carousel.old.file_room }
    ensures files { carousel.new.files ≡ with_file file carousel.old.files }
    ensures waits { carousel.new.waits ≡ arrived file.name carousel.old.waits }
{
    carousel.arrived(&file.name);
    carousel.put(file);
}

fn copied_file(file: &File) -> Result<File, AllocError>
    ensures { IfOk result (λ copy. copy ≡ file.now) }
{
    file.clone()
}
