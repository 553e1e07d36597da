//! A plan is carried out: room is made first, then bodies are changed, and behind that nothing can fail.
//!
//! What most steps do has a shorter way: batches that are put, and one body that is changed, need no plan.

pub(crate) mod applying;
pub(crate) mod room;

ghost use Rattle.std.specs.Prelude.{◌≡◌, ◌+◌, ◌<◌, ◌≤◌, ◌^◌, true, [], OnOk, OnErr, vec_len, vec_capacity};
ghost use Rattle.mh_model.specs.Bodies.{given};
ghost use Rattle.mh_model.specs.Edits.{edited};
ghost use Rattle.mh_model.specs.Rules.{changed};
ghost use Rattle.mh_work.specs.Batches.{written};
ghost use Rattle.mh_machine.specs.Plans.{change_at, committed, halt_plan, put_for_first, taken_from, changed_as, rewaited, queued, noted};

use crate::committing::applying::apply;
use crate::committing::room::make_room;
use crate::plan::focus::{end_of, interact};
use crate::plan::{Awaiting, Plan};
use crate::works::Works;
use mh_base::{ObjRef, Value};
use mh_carousel::Carousel;
use mh_events::Agenda;
use mh_model::{Edit, Event, Fault};
use mh_work::Batch;
use std::alloc::AllocError;

impl Works {
    /// Carries out a plan for the first item.
    #[inline(never)]
    pub(crate) fn commit(&mut self, plan: Plan) -> Result<(), AllocError>
        requires { self.old.state.taken + 1 < 2 ^ 64 }
        ensures done { OnOk result (self.new.state ≡ committed plan self.old.state) }
        ensures kept { OnErr result (self.new.state ≡ self.old.state) }
    {
        let room = make_room(
            &mut self.work,
            &mut self.stage,
            &mut self.agenda,
            &mut self.faults,
            &mut self.carousel,
            &plan.batches,
        );
        let Plan {
            change,
            stacking,
            awaiting,
            interacting,
            batches,
            waits,
            fault,
        } = room.and(Ok(plan))?;
        let changed = apply(&mut self.stage, change);
        let beside = (stacking, awaiting, interacting, batches, waits, fault);
        let (stacking, awaiting, interacting, batches, waits, fault) = changed.and(Ok(beside))?;
        self.stage.restack(stacking);
        rewait(&mut self.carousel, awaiting);
        interact(&mut self.interaction, interacting);
        self.work.put_for_first(batches.into_vec());
        wait(&mut self.agenda, waits);
        note(&mut self.faults, fault);
        self.taken += 1;
        Ok(())
    }

    /// Puts these batches in the place of the first item. Most events are heard by no link, and put none.
    pub(crate) fn commit_batches(&mut self, batches: Vec<Batch>) -> Result<(), AllocError>
        requires { self.old.state.taken + 1 < 2 ^ 64 }
        ensures done { OnOk result (self.new.state ≡ put_for_first (written batches.items) self.old.state) }
        ensures kept { OnErr result (self.new.state ≡ self.old.state) }
    {
        if are_none(&batches) {
            self.pass();
            return Ok(());
        }
        self.work.reserve(batches.len())?;
        self.work.put_for_first(batches);
        self.taken += 1;
        Ok(())
    }

    /// Stops the object at this reference, and puts these batches in the place of the first item.
    #[inline(never)]
    pub(crate) fn commit_halt(&mut self, at: &ObjRef, batches: Vec<Batch>) -> Result<(), AllocError>
        requires { self.old.state.taken + 1 < 2 ^ 64 }
        ensures done { OnOk result (self.new.state ≡ committed (halt_plan at.now batches.items) self.old.state) }
        ensures kept { OnErr result (self.new.state ≡ self.old.state) }
    {
        self.work.reserve(batches.len())?;
        self.stage.edit(at, Edit::Halt)?;
        end_of(&mut self.interaction, at);
        self.work.put_for_first(batches);
        self.taken += 1;
        Ok(())
    }

    /// Takes the first item off, and does nothing else.
    pub(crate) fn pass(&mut self)
        requires { self.old.state.taken + 1 < 2 ^ 64 }
        ensures { self.new.state ≡ taken_from self.old.state }
    {
        self.work.take_first();
        self.taken += 1;
    }

    /// Changes the body of the object at this reference, if anything is changed.
    pub(crate) fn commit_change(
        &mut self,
        at: &ObjRef,
        edit: Option<Edit>,
    ) -> Result<(), AllocError>
        requires { self.old.state.taken + 1 < 2 ^ 64 }
        ensures done { let after = changed_as (change_at at.now edit) self.old.state.objects in
            OnOk result (self.new.state ≡ record (taken_from self.old.state) { objects = after }) }
        ensures kept { OnErr result (self.new.state ≡ self.old.state) }
    {
        match edit {
            Some(Edit::Give(value)) => self.commit_give(at, value),
            Some(edit) => return self.commit_edit(at, edit),
            None => self.pass(),
        }
        Ok(())
    }

    /// Gives the variable at this reference a value, and takes the first item off. No variable is
    /// seen, so the picture stays as it is.
    fn commit_give(&mut self, at: &ObjRef, value: Value)
        requires { self.old.state.taken + 1 < 2 ^ 64 }
        ensures { let after = changed (λ _ b. given value b) at.now self.old.state.objects in
            self.new.state ≡ record (taken_from self.old.state) { objects = after } }
    {
        self.stage.give(at, value);
        self.pass();
    }

    /// Changes the body of the object at this reference, and takes the first item off.
    #[inline(never)]
    pub(crate) fn commit_edit(&mut self, at: &ObjRef, edit: Edit) -> Result<(), AllocError>
        requires { self.old.state.taken + 1 < 2 ^ 64 }
        ensures done { let after = changed (edited edit) at.now self.old.state.objects in
            OnOk result (self.new.state ≡ record (taken_from self.old.state) { objects = after }) }
        ensures kept { OnErr result (self.new.state ≡ self.old.state) }
    {
        self.stage.edit(at, edit)?;
        self.work.take_first();
        self.taken += 1;
        Ok(())
    }
}

/// Notes who waits for a file.
pub(crate) fn rewait(carousel: &mut Carousel, awaiting: Awaiting)
    requires { 1 ≤ carousel.old.room }
    ensures files { carousel.new.files ≡ carousel.old.files }
    ensures waits { carousel.new.waits ≡ rewaited awaiting carousel.old.waits }
{
    match awaiting {
        Awaiting::Same => {}
        Awaiting::Forget(object) => carousel.forget(&object),
        Awaiting::Wait(wait) => carousel.wait_reserved(wait),
    }
}

fn wait(agenda: &mut Agenda, event: Option<Event>)
    requires { 1 ≤ agenda.old.room }
    ensures moments { agenda.new.moments ≡ agenda.old.moments }
    ensures timers { agenda.new.timers ≡ agenda.old.timers }
    ensures queue { agenda.new.queue ≡ queued event agenda.old.queue }
{
    if let Some(event) = event {
        agenda.add(event);
    }
}

fn note(faults: &mut Vec<Fault>, fault: Option<Fault>)
    requires { vec_len faults.old + 1 ≤ vec_capacity faults.old }
    ensures { faults.new.items ≡ noted fault faults.old.items }
{
    if let Some(fault) = fault {
        faults.push_reserved(fault);
    }
}

fn are_none(batches: &Vec<Batch>) -> bool
    ensures { result ≡ true → batches.now.items ≡ [] }
{
    batches.is_empty()
}
