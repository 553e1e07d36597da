//! Looks at a machine: each answers a part of its state, for whoever tells what a machine does.
ghost use Rattle.std.specs.Prelude.{◌≡◌, IfOk, slice_get};
ghost use Rattle.std.specs.Option.{option_copied};
ghost use Rattle.mh_carousel.specs.Carried.{awaited_names};
ghost use Rattle.mh_model.specs.Limits.{most_moment};
ghost use Rattle.mh_model.specs.Time.{due};

use crate::Machine;
use crate::works::Works;
use mh_base::{GroupName, Seq};
use mh_display::Walk;
use mh_events::Queue;
use mh_model::{Act, Interaction, Item, Moments, Timer, Transition};
use mh_service::Service;
use mh_store::Objects;
use mh_work::Front;
use std::alloc::AllocError;

impl Machine {
    /// The service, which stays as it is.
    pub fn service(&self) -> &Service
        ensures { result.now ≡ self.now.service }
    {
        &self.works.service
    }

    /// The active application.
    pub fn application(&self) -> &GroupName
        ensures { result.now ≡ self.now.application }
    {
        &self.works.application
    }

    /// The current scene, if there is one.
    pub fn scene(&self) -> Option<&GroupName>
        ensures { option_copied result ≡ self.now.scene }
    {
        self.works.scene.as_ref()
    }

    /// The objects that are present.
    pub fn objects(&self) -> &Objects
        ensures { result.now ≡ self.now.objects }
    {
        self.works.stage.objects()
    }

    /// The display stack, the bottom first.
    pub fn stack(&self) -> Walk<'_>
        ensures { result ≡ self.now.stack }
    {
        self.works.stage.stack()
    }

    /// The object that interacts, if one does.
    pub fn interaction(&self) -> Option<&Interaction>
        ensures { option_copied result ≡ self.now.interaction }
    {
        self.works.interaction.as_ref()
    }

    /// What waits to be taken, the first in front.
    pub fn queue(&self) -> &Queue
        ensures { result.now.items ≡ self.now.queue }
    {
        self.works.agenda.queue()
    }

    /// A copy of the first item of the work list, which the next step does; none where there is no work. What
    /// the item holds is shared with it.
    pub fn front(&self) -> Result<Option<Item>, AllocError>
        ensures { IfOk result (λ item. item ≡ slice_get self.now.work 0) }
    {
        self.works.first_item()
    }

    /// The present moment, and those in which the groups of the configuration were entered.
    pub fn moments(&self) -> &Moments
        ensures { result.now ≡ self.now.moments }
    {
        self.works.agenda.moments()
    }

    /// Copies of the timers that are set and are due by the last moment, in the order in which they are due.
    pub fn timers(&self) -> Result<Vec<Timer>, AllocError>
        ensures { IfOk result (λ timers. timers.items ≡ due most_moment self.now.application self.now.timers) }
    {
        self.works
            .agenda
            .timers(self.works.alloc, &self.works.application)
    }

    /// Whether a transition has begun, or waits for its scene.
    pub fn transition(&self) -> &Transition
        ensures { result.now ≡ self.now.transition }
    {
        &self.works.transition
    }

    /// The scenes that are still late.
    pub fn late(&self) -> &[GroupName]
        ensures { result.now ≡ self.now.late }
    {
        self.works.late.as_slice()
    }

    /// The names of the content files for which some object waits, each once, in the order in which one came to.
    pub fn awaited_files(&self) -> Result<Seq<GroupName>, AllocError>
        ensures { IfOk result (λ names. names ≡ awaited_names self.now.waits) }
    {
        self.works.carousel.awaited_names(self.works.alloc)
    }

    /// How often the screen is locked.
    pub fn locks(&self) -> u64
        ensures { result ≡ self.now.locks }
    {
        self.works.locks
    }
}

impl Works {
    /// A copy of the first item of the work list, if there is one.
    fn first_item(&self) -> Result<Option<Item>, AllocError>
        ensures { IfOk result (λ item. item ≡ slice_get self.now.state.work 0) }
    {
        match self.work.front()? {
            Some(Front::Act(effect, place)) => {
                let item = act_item(&effect.as_slice()[place])?;
                Ok(Some(item))
            }
            Some(Front::Item(item)) => Ok(Some(item)),
            None => Ok(None),
        }
    }
}

fn act_item(act: &Act) -> Result<Item, AllocError>
    ensures { IfOk result (λ item. item ≡ Item.Act act.now) }
{
    Ok(Item::Act(act.clone()?))
}
