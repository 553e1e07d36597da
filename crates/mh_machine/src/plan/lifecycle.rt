//! What becomes of an object that is prepared, runs, stops and is dropped.
//!
//! Each of these is worked out and carried out in a call of its own: taken together into one function they
//! would make its frame so large that every step pays for all of them.
ghost use Rattle.std.specs.Prelude.{◌≡◌, ◌+◌, ◌<◌, ◌^◌, [], IfOk, OnOk, OnErr};
ghost use Rattle.mh_model.specs.Step.{done};
ghost use Rattle.mh_machine.specs.Plans.{committed, turn_plan};

use crate::committing::applying::start;
use crate::committing::rewait;
use crate::plan::loading::{awaiting, copied_text, lacking, loaded, rising};
use crate::plan::widgets::run_places;
use crate::plan::{Awaiting, Change, Plan, Stacking, Turn};
use crate::works::Works;
use mh_base::{ObjRef, both};
use mh_model::{Edit, Item};
use mh_work::Batch;
use mh_work::lifecycle::{
    drop_batches, halt_batches, is_unavailable, is_unprepared, prepare_batches, run_batches,
};
use std::alloc::AllocError;

impl Works {
    /// An object becomes available.
    #[inline(never)]
    pub(crate) fn do_prepare(&mut self, at: &ObjRef) -> Result<(), AllocError>
        requires { self.old.state.taken + 1 < 2 ^ 64 }
        ensures done { OnOk result (self.new.state ≡ done (Item.Prepare at.now) self.old.state) }
        ensures kept { OnErr result (self.new.state ≡ self.old.state) }
    {
        let plan = self.plan_prepare(at)?;
        self.commit(plan)
    }

    fn plan_prepare(&self, at: &ObjRef) -> Result<Plan, AllocError>
        ensures { IfOk result (λ plan. committed plan self.now.state
            ≡ done (Item.Prepare at.now) self.now.state) }
    {
        let found = self.stage.objects().get(at);
        let becomes = is_unavailable(found);
        let text = loaded(&self.carousel, found);
        let batches = prepare_batches(self.alloc, at, found, text.is_some());
        let awaiting = awaiting(becomes, at, lacking(&self.carousel, found));
        let told = both(batches, both(rising(becomes, at, found), awaiting));
        let changed = both(at.clone(), copied_text(text));
        let ((batches, (stacking, awaiting)), (at, text)) = both(told, changed)?;
        let change = Change::Edit(at, Edit::Prepare(text));
        Ok(Plan::of(change, stacking, awaiting, batches))
    }

    /// An object runs, with what it loads and the others that it runs.
    #[inline(never)]
    pub(crate) fn run_with_others(&mut self, at: &ObjRef) -> Result<(), AllocError>
        requires { self.old.state.taken + 1 < 2 ^ 64 }
        ensures done { OnOk result (self.new.state ≡ done (Item.Run at.now) self.old.state) }
        ensures kept { OnErr result (self.new.state ≡ self.old.state) }
    {
        self.stage.reserve()?;
        self.carousel.reserve_wait()?;
        let spare = self.work.spare(self.alloc);
        let turn = self.turn_of_run(at, spare)?;
        let room = self.work.reserve(turn.batches.len());
        let Turn {
            text,
            places,
            stacking,
            awaiting,
            batches,
        } = room.and(Ok(turn))?;
        let changed = start(&mut self.stage, at, text, places);
        let (stacking, awaiting, batches) = changed.and(Ok((stacking, awaiting, batches)))?;
        self.stage.restack(stacking);
        rewait(&mut self.carousel, awaiting);
        self.work.put_for_first(batches);
        self.taken += 1;
        Ok(())
    }

    /// What becomes of an object that runs. What it puts is put into this list.
    fn turn_of_run(&self, at: &ObjRef, spare: Vec<Batch>) -> Result<Turn, AllocError>
        requires { spare.items ≡ [] }
        ensures { IfOk result (λ turn. committed (turn_plan at.now turn) self.now.state
            ≡ done (Item.Run at.now) self.now.state) }
    {
        let found = self.stage.objects().get(at);
        let becomes = is_unprepared(found);
        let text = loaded(&self.carousel, found);
        let batches = run_batches(self.alloc, spare, at, found, text.is_some())?;
        let text = copied_text(text)?;
        let places = run_places(self.alloc, at, found)?;
        let stacking = rising(becomes, at, found)?;
        let awaiting = awaiting(becomes, at, lacking(&self.carousel, found))?;
        Ok(Turn {
            text,
            places,
            stacking,
            awaiting,
            batches,
        })
    }

    /// An object stops, with the others that it stops.
    #[inline(never)]
    pub(crate) fn halt_with_others(&mut self, at: &ObjRef) -> Result<(), AllocError>
        requires { self.old.state.taken + 1 < 2 ^ 64 }
        ensures done { OnOk result (self.new.state ≡ done (Item.Halt at.now) self.old.state) }
        ensures kept { OnErr result (self.new.state ≡ self.old.state) }
    {
        let spare = self.work.spare(self.alloc);
        let batches = halt_batches(self.alloc, spare, at, self.stage.objects().get(at))?;
        self.commit_halt(at, batches)
    }

    /// An object is no longer available.
    #[inline(never)]
    pub(crate) fn do_drop(&mut self, at: &ObjRef) -> Result<(), AllocError>
        requires { self.old.state.taken + 1 < 2 ^ 64 }
        ensures done { OnOk result (self.new.state ≡ done (Item.Drop at.now) self.old.state) }
        ensures kept { OnErr result (self.new.state ≡ self.old.state) }
    {
        let plan = self.plan_drop(at)?;
        self.commit(plan)
    }

    fn plan_drop(&self, at: &ObjRef) -> Result<Plan, AllocError>
        ensures { IfOk result (λ plan. committed plan self.now.state
            ≡ done (Item.Drop at.now) self.now.state) }
    {
        let batches = drop_batches(self.alloc, at, self.stage.objects().get(at));
        let (changed, fallen) = both(at.clone(), at.clone())?;
        let (forgotten, batches) = both(at.clone(), batches)?;
        let change = Change::Edit(changed, Edit::Drop);
        let stacking = Stacking::Fall(fallen);
        Ok(Plan::of(change, stacking, Awaiting::Forget(forgotten), batches))
    }
}
