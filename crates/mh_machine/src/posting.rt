//! What joins the queue, and what is there before the first move.
ghost use Rattle.std.specs.Prelude.{◌≡◌, None, OnOk, OnErr, IfErr, IsErrAnd, MatchOption};
ghost use Rattle.std.specs.Option.{option_copied};
ghost use Rattle.mh_model.specs.Late.{is_late_scene, is_written_so};
ghost use Rattle.mh_model.specs.Step.{posted, obstacle, obstacle_if, is_not_late, is_another_group, is_past_the_last, is_in_range, is_over_size, is_over_number, has_begun, preset, preset_obstacle};
ghost use Rattle.mh_machine.specs.Refusal.{preset_refusal};

use crate::passing::refuse_file;
use crate::refusal::{RefusedFile, RefusedWhy};
use crate::works::Works;
use mh_base::GroupName;
use mh_carousel::is_large;
use mh_group::same::same_group;
use mh_model::{File, Input, LONGEST_TICK, Obstacle, SharedGroup};
use std::alloc::AllocError;

impl Works {
    /// Why an input cannot join the queue, if it cannot.
    pub fn obstacle(&self, input: &Input) -> Option<Obstacle>
        ensures { result ≡ obstacle input.now self.now.state }
    {
        self.obstacle_if(self.is_another_group(input), input)
    }

    /// The same, where the caller says whether the file of a scene is not the one that is awaited.
    pub(crate) fn obstacle_if(&self, differs: bool, input: &Input) -> Option<Obstacle>
        ensures { result ≡ obstacle_if differs input.now self.now.state }
    {
        if self.ended {
            Some(Obstacle::Ended)
        } else if !is_in_range(input) {
            Some(Obstacle::TickRange)
        } else if self.is_not_late(input) {
            Some(Obstacle::NotLate)
        } else if differs {
            Some(Obstacle::Differs)
        } else if is_over_size(input) {
            Some(Obstacle::TooLarge)
        } else if self.is_over_number(input) {
            Some(Obstacle::TooMany)
        } else if self.is_past_the_last(input) {
            Some(Obstacle::ClockFull)
        } else if self.agenda.is_full() {
            Some(Obstacle::QueueFull)
        } else {
            None
        }
    }

    /// Whether the scene of a file is not late, or its file waits already.
    fn is_not_late(&self, input: &Input) -> bool
        ensures { result ≡ is_not_late input.now self.now.state }
    {
        match input {
            Input::Scene(scene, _) => {
                !is_late_scene(scene, self.late.as_slice())
                    || self.agenda.queue().has_file_of(scene)
            }
            _ => false,
        }
    }

    /// Whether the file of a scene is not the one that the service has.
    fn is_another_group(&self, input: &Input) -> bool
        ensures { result ≡ is_another_group input.now self.now.state }
    {
        match input {
            Input::Scene(scene, group) => !is_written_so(group, self.service.written(scene)),
            _ => false,
        }
    }

    /// Whether a tick would lead past the last moment, behind all that wait.
    fn is_past_the_last(&self, input: &Input) -> bool
        ensures { result ≡ is_past_the_last input.now self.now.state }
    {
        self.agenda.passes_the_last(input)
    }

    /// Whether a file has a name for which there is no room, behind all that wait.
    fn is_over_number(&self, input: &Input) -> bool
        ensures { result ≡ is_over_number input.now self.now.state }
    {
        match input {
            Input::Arrive(file) => self.carousel.is_one_too_many(file, self.agenda.queue()),
            _ => false,
        }
    }

    /// Whether a step was taken, or an input posted.
    fn has_begun(&self) -> bool
        ensures { result ≡ has_begun self.now.state }
    {
        self.taken != 0 || !self.agenda.is_empty()
    }

    /// A file is there before the first move. A refused one is handed back, and nothing changes.
    pub fn preset(&mut self, file: File) -> Result<(), RefusedFile>
        ensures preset { OnOk result (self.new.state ≡ preset file self.old.state) }
        ensures accepted { OnOk result (preset_obstacle file self.old.state ≡ None) }
        ensures back { IfErr result (λ refused. refused.file ≡ file) }
        ensures kept { OnErr result (self.new.state ≡ self.old.state) }
        ensures refused { MatchOption (preset_refusal file self.old.state)
            (IfErr result (λ refused. refused.why ≡ RefusedWhy.NoMemory))
            (λ why. IsErrAnd result (λ refused. refused.why ≡ why)) }
        ensures marks { self.new.marks ≡ self.old.marks }
    {
        if self.has_begun() {
            return refuse_file(RefusedWhy::Begun, file);
        }
        match self.carousel.arrive(file) {
            Ok(()) => Ok(()),
            Err(refused) => Err(RefusedFile::of_arrival(refused)),
        }
    }

    /// Adds an input at the end of the queue.
    pub fn post(&mut self, input: Input) -> Result<(), AllocError>
        requires { obstacle input self.old.state ≡ None }
        ensures posted { OnOk result (self.new.state ≡ posted input self.old.state) }
        ensures kept { OnErr result (self.new.state ≡ self.old.state) }
        ensures marks { self.new.marks ≡ self.old.marks }
    {
        self.agenda.post(input)
    }
}

/// Whether the scene is among those that are late.
pub(crate) fn is_late_scene(scene: &GroupName, late: &[GroupName]) -> bool
    ensures { result ≡ is_late_scene scene.now late.now }
{
    late.iter().any(|name| *scene == *name)
}

/// Whether the group is this one, as its file writes it.
fn is_written_so(group: &SharedGroup, written: Option<&SharedGroup>) -> bool
    ensures { result ≡ is_written_so group.now (option_copied written.entry) }
{
    match written {
        Some(own) => same_group(group.written(), own.written()),
        None => false,
    }
}

/// Whether a tick is as long as it may be.
fn is_in_range(input: &Input) -> bool
    ensures { result ≡ is_in_range input.now }
{
    match input {
        Input::Tick(length) => 1 <= *length && *length <= LONGEST_TICK,
        _ => true,
    }
}

/// Whether a file is larger than it may be.
fn is_over_size(input: &Input) -> bool
    ensures { result ≡ is_over_size input.now }
{
    match input {
        Input::Arrive(file) => is_large(file),
        _ => false,
    }
}
