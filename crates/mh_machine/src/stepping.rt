//! One step: an item is planned and carried out, or what waits first is taken.

pub(crate) mod advancing;
pub(crate) mod ordering;
pub(crate) mod summing;
pub(crate) mod testing;
pub(crate) mod turning;

ghost use Rattle.std.specs.Prelude.{◌≡◌, ◌+◌, ◌<◌, ◌^◌, None, true, false, IfOk, OnOk, OnErr};
ghost use Rattle.mh_model.specs.Faults.{fault_known};
ghost use Rattle.mh_model.specs.Known.{known_in};
ghost use Rattle.mh_model.specs.State.{all};
ghost use Rattle.mh_model.specs.Stuck.{stuck, front_fault};
ghost use Rattle.mh_model.specs.Step.{done, faulted, did, step};
ghost use Rattle.mh_machine.specs.Plans.{taken_from};
ghost use Rattle.mh_machine.specs.Rest.{answer_of, judged, IsMade, IsPassed};

use crate::Stepped;
use crate::judging::Judging;
use crate::plan::Plan;
use crate::works::Works;
use mh_actions::judging::{why_member_stuck, why_stuck};
use mh_group::ActionName;
use mh_model::{Act, Event, Fault, Item};
use mh_service::Service;
use mh_store::Objects;
use mh_work::Front;
use std::alloc::AllocError;

impl Works {
    /// One step: the first item of the work list, or the first that waits where there is no work. Where
    /// memory is refused, everything stays as it was.
    pub fn step<J: Judging>(&mut self) -> Result<Stepped, AllocError>
        requires room { self.old.state.taken + 1 < 2 ^ 64 }
        requires allowed { J.allows (front_fault self.old.state) }
        ensures step { OnOk result (self.new.state ≡ step self.old.state) }
        ensures answer { IfOk result (λ a. a ≡ answer_of self.old.state) }
        ensures kept { OnErr result (self.new.state ≡ self.old.state) }
    {
        if self.ended {
            return Ok(Stepped::Ended);
        }
        if self.is_unheard() {
            self.pass();
            return Ok(Stepped::Did);
        }
        if self.do_first()? {
            return Ok(Stepped::Did);
        }
        self.step_front::<J>()
    }

    /// One step, in which the first item is judged and done, or what waits first is taken.
    fn step_front<J: Judging>(&mut self) -> Result<Stepped, AllocError>
        requires room { self.old.state.taken + 1 < 2 ^ 64 }
        requires runs { self.old.state.ended ≡ false }
        requires allowed { J.allows (front_fault self.old.state) }
        ensures step { OnOk result (self.new.state ≡ step self.old.state) }
        ensures answer { IfOk result (λ a. a ≡ answer_of self.old.state) }
        ensures kept { OnErr result (self.new.state ≡ self.old.state) }
    {
        match self.work.front()? {
            Some(Front::Act(effect, place)) => self.work_on_act::<J>(&effect.as_slice()[place]),
            Some(Front::Item(item)) => self.work_on::<J>(&item),
            None => self.take_first(),
        }
    }

    /// Makes a step, if the first item is one of those that are done most often: an event that is heard at once, a sum
    /// or a test. It is lent by the work list, and needs no judgement but a look at what it is done to. Whether it did.
    fn do_first(&mut self) -> Result<bool, AllocError>
        requires room { self.old.state.taken + 1 < 2 ^ 64 }
        requires runs { self.old.state.ended ≡ false }
        ensures made { IfOk result (λ made. made ≡ true → IsMade self.old.state self.new.state) }
        ensures same { IfOk result (λ made. made ≡ false → self.new ≡ self.old) }
        ensures kept { OnErr result (self.new.state ≡ self.old.state) }
    {
        if self.sum_first() {
            return Ok(true);
        }
        if self.emit_first()? {
            return Ok(true);
        }
        self.test_first()
    }

    /// Makes a step, if the first item is an event that is heard at once. Whether it did.
    fn emit_first(&mut self) -> Result<bool, AllocError>
        requires room { self.old.state.taken + 1 < 2 ^ 64 }
        requires runs { self.old.state.ended ≡ false }
        ensures made { IfOk result (λ made. made ≡ true → IsMade self.old.state self.new.state) }
        ensures same { IfOk result (λ made. made ≡ false → self.new ≡ self.old) }
        ensures kept { OnErr result (self.new.state ≡ self.old.state) }
    {
        let Some(event) = self.work.first_event() else {
            return Ok(false);
        };
        if !event.kind.is_sync() {
            return Ok(false);
        }
        let batches = self.links.heard(self.alloc, event, self.stage.objects())?;
        self.commit_batches(batches)?;
        Ok(true)
    }

    /// Whether the first item is an event that is heard at once, and for whose source no link waits. Most
    /// events are such ones: they are only taken off.
    fn is_unheard(&self) -> bool
        ensures { result ≡ true → IsPassed self.now.state }
    {
        match self.work.first_event() {
            Some(event) => self.hears_none(event),
            None => false,
        }
    }

    /// Whether the event is heard at once, and no link waits for its source.
    fn hears_none(&self, event: &Event) -> bool
        ensures { result ≡ true → done (Item.Emit event.now) self.now.state ≡ taken_from self.now.state }
    {
        if !event.kind.is_sync() {
            return false;
        }
        self.links.hears_none(event, self.stage.objects())
    }

    /// Does the first item, which is this action, or removes it where it is stuck.
    fn work_on_act<J: Judging>(&mut self, act: &Act) -> Result<Stepped, AllocError>
        requires room { self.old.state.taken + 1 < 2 ^ 64 }
        requires allowed { J.allows (stuck (Item.Act act.now) self.old.state) }
        ensures done { let i = Item.Act act.now in
            OnOk result (self.new.state ≡ did (stuck i self.old.state) i self.old.state) }
        ensures answer { IfOk result (λ a. a ≡ judged (stuck (Item.Act act.now) self.old.state)) }
        ensures kept { OnErr result (self.new.state ≡ self.old.state) }
    {
        match J::act_fault(self, act)? {
            Some(fault) => self.fault(fault),
            None => self.did_act(act),
        }
    }

    /// Does the first item, or removes it where it is stuck.
    fn work_on<J: Judging>(&mut self, item: &Item) -> Result<Stepped, AllocError>
        requires room { self.old.state.taken + 1 < 2 ^ 64 }
        requires allowed { J.allows (stuck item.now self.old.state) }
        ensures done { OnOk result (self.new.state ≡ did (stuck item.now self.old.state) item.now self.old.state) }
        ensures answer { IfOk result (λ a. a ≡ judged (stuck item.now self.old.state)) }
        ensures kept { OnErr result (self.new.state ≡ self.old.state) }
    {
        match J::item_fault(self, item)? {
            Some(fault) => self.fault(fault),
            None => self.did_item(item),
        }
    }

    /// Removes the first item, which is stuck, notes its fault, and tells it.
    #[inline(never)]
    fn fault(&mut self, fault: Fault) -> Result<Stepped, AllocError>
        requires { self.old.state.taken + 1 < 2 ^ 64 }
        ensures done { OnOk result (self.new.state ≡ faulted fault self.old.state) }
        ensures answer { IfOk result (λ a. a ≡ Stepped.Faulted fault) }
        ensures kept { OnErr result (self.new.state ≡ self.old.state) }
    {
        let noted = fault.clone()?;
        self.note(noted)?;
        Ok(Stepped::Faulted(fault))
    }

    /// Does the first item, which is this action and is not stuck, and tells so.
    fn did_act(&mut self, act: &Act) -> Result<Stepped, AllocError>
        requires { self.old.state.taken + 1 < 2 ^ 64 }
        ensures done { OnOk result (self.new.state ≡ done (Item.Act act.now) self.old.state) }
        ensures answer { IfOk result (λ a. a ≡ Stepped.Did) }
        ensures kept { OnErr result (self.new.state ≡ self.old.state) }
    {
        self.do_act(act)?;
        Ok(Stepped::Did)
    }

    /// Does the first item, which is this one and is not stuck, and tells so.
    fn did_item(&mut self, item: &Item) -> Result<Stepped, AllocError>
        requires { self.old.state.taken + 1 < 2 ^ 64 }
        ensures done { OnOk result (self.new.state ≡ done item.now self.old.state) }
        ensures answer { IfOk result (λ a. a ≡ Stepped.Did) }
        ensures kept { OnErr result (self.new.state ≡ self.old.state) }
    {
        self.do_item(item)?;
        Ok(Stepped::Did)
    }

    /// What is wrong with the action, if anything is.
    pub(crate) fn act_fault(&self, act: &Act) -> Result<Option<Fault>, AllocError>
        ensures { IfOk result (λ fault. fault ≡ stuck (Item.Act act.now) self.now.state) }
    {
        why_act_stuck(&self.service, self.stage.objects(), act)
    }

    /// What is wrong with the item, if anything is.
    pub(crate) fn item_fault(&self, item: &Item) -> Result<Option<Fault>, AllocError>
        ensures { IfOk result (λ fault. fault ≡ stuck item.now self.now.state) }
    {
        match item {
            Item::Act(act) => self.act_fault(act),
            Item::RunMember(at) => why_member_stuck(self.stage.objects(), ActionName::Run, at),
            Item::HaltMember(at) => why_member_stuck(self.stage.objects(), ActionName::Stop, at),
            _ => Ok(None),
        }
    }

    /// Removes the first item, which is stuck, and notes its fault.
    #[inline(never)]
    fn note(&mut self, fault: Fault) -> Result<(), AllocError>
        requires { self.old.state.taken + 1 < 2 ^ 64 }
        ensures done { OnOk result (self.new.state ≡ faulted fault self.old.state) }
        ensures kept { OnErr result (self.new.state ≡ self.old.state) }
    {
        self.commit(Plan::noting(self.alloc, fault))
    }

    /// Does an item that is not stuck.
    fn do_item(&mut self, item: &Item) -> Result<(), AllocError>
        requires { self.old.state.taken + 1 < 2 ^ 64 }
        ensures done { OnOk result (self.new.state ≡ done item.now self.old.state) }
        ensures kept { OnErr result (self.new.state ≡ self.old.state) }
    {
        match item {
            Item::Act(act) => self.do_act(act),
            Item::Emit(event) => self.do_emit(event),
            Item::Enter(group) => self.do_enter(group),
            Item::Prepare(at) => self.do_prepare(at),
            Item::Run(at) | Item::RunMember(at) => self.do_run(at),
            Item::Halt(at) | Item::HaltMember(at) => self.do_halt(at),
            Item::Drop(at) => self.do_drop(at),
            Item::Exchange(group) => self.do_exchange(group),
            Item::End => {
                self.do_end();
                Ok(())
            }
        }
    }
}

/// What is wrong with the action, if anything is.
fn why_act_stuck(
    service: &Service,
    objects: &Objects,
    act: &Act,
) -> Result<Option<Fault>, AllocError>
    ensures { IfOk result (λ fault. fault
        ≡ fault_known (known_in service.now (all objects.now)) act.now) }
{
    let found = why_stuck(service, service.programs(), objects, act)?;
    Ok(found)
}
