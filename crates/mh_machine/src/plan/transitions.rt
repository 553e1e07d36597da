//! A transition: what leaves the configuration, in the place of the whole work list. One to a scene whose file is
//! late waits for that file.
ghost use Rattle.std.specs.Prelude.{◌≡◌, ◌+◌, ◌<◌, ◌^◌, IfOk, OnOk, OnErr};
ghost use Rattle.std.specs.Option.{option_map};
ghost use Rattle.mh_model.specs.Late.{late_without};
ghost use Rattle.mh_model.specs.Rules.{is_begun, leads_to_late, transition_rule, way_out};
ghost use Rattle.mh_model.specs.Service.{with_parts};
ghost use Rattle.mh_model.specs.Step.{awaits, scene_arrived, scene_taken};
ghost use Rattle.mh_machine.specs.Plans.{taken_from};
ghost use Rattle.mh_machine.specs.Taking.{shifted};

use crate::posting::is_late_scene;
use crate::works::Works;
use mh_base::{GroupName, ObjRef};
use mh_group::ActionName;
use mh_model::{FixedPart, Item, Transition};
use mh_work::Work;
use mh_work::groups::{leaving, quitting};
use std::alloc::AllocError;

impl Works {
    /// A transition to another scene or application, or to the end; nothing where one has begun.
    pub(crate) fn do_transition(&mut self, name: ActionName, at: &ObjRef) -> Result<(), AllocError>
        requires { self.old.state.taken + 1 < 2 ^ 64 }
        ensures done { OnOk result (self.new.state ≡ transition_rule name at.now (taken_from self.old.state)) }
        ensures kept { OnErr result (self.new.state ≡ self.old.state) }
    {
        if is_begun(&self.transition) {
            self.pass();
            return Ok(());
        }
        if self.leads_to_late(name, &at.group) {
            return self.await_scene(&at.group);
        }
        let work = self.way_out(name, &at.group)?;
        self.begin(work);
        self.taken += 1;
        Ok(())
    }

    /// Whether it leads to a scene that is still late.
    fn leads_to_late(&self, name: ActionName, target: &GroupName) -> bool
        ensures { (r : _) → r.group ≡ target.now → result ≡ leads_to_late name r (taken_from self.now.state) }
    {
        matches!(name, ActionName::TransitionTo) && is_late_scene(target, self.late.as_slice())
    }

    /// A transition to this scene waits, in the place of one that waited before, and the work goes on.
    fn await_scene(&mut self, scene: &GroupName) -> Result<(), AllocError>
        requires { self.old.state.taken + 1 < 2 ^ 64 }
        ensures done { let awaited = Transition.Awaits scene.now in
            OnOk result (self.new.state ≡ record (taken_from self.old.state) { transition = awaited }) }
        ensures kept { OnErr result (self.new.state ≡ self.old.state) }
    {
        let scene = scene.clone()?;
        set_transition(&mut self.transition, Transition::Awaits(scene));
        self.pass();
        Ok(())
    }

    /// A transition begins, with this work in the place of all that was left. No scene is waited for any more.
    fn begin(&mut self, work: Work)
        ensures { self.new.state ≡ record self.old.state { transition = Transition.Begun; work = work.items } }
    {
        self.work = work;
        set_transition(&mut self.transition, Transition::Begun);
    }

    /// The file of a scene is there. Where a transition waits for it, that begins.
    pub(crate) fn take_scene(&mut self, scene: &GroupName) -> Result<(), AllocError>
        requires { self.old.state.taken + 1 < 2 ^ 64 }
        ensures done { OnOk result (self.new.state ≡ scene_taken scene.now (shifted self.old.state)) }
        ensures kept { OnErr result (self.new.state ≡ self.old.state) }
    {
        if !awaits(scene, &self.transition) {
            self.take_arrived(scene);
            return Ok(());
        }
        let work = self.way_out(ActionName::TransitionTo, scene)?;
        self.begin(work);
        self.take_arrived(scene);
        Ok(())
    }

    /// Takes the file of a scene, which is late no longer, and does nothing else.
    fn take_arrived(&mut self, scene: &GroupName)
        requires { self.old.state.taken + 1 < 2 ^ 64 }
        ensures { self.new.state ≡ scene_arrived scene.now (shifted self.old.state) }
    {
        drop_late(&mut self.late, scene);
        self.shift();
    }

    /// The work list that leaves the configuration.
    fn way_out(&self, name: ActionName, target: &GroupName) -> Result<Work, AllocError>
        ensures { (r : _) → r.group ≡ target.now → IfOk result (λ work. work.items
            ≡ way_out name r (taken_from self.now.state)) }
    {
        let own = self.service.parts(&self.application);
        let scene = self.current_scene();
        let batches = match name {
            ActionName::TransitionTo => leaving(self.alloc, own, scene, target)?,
            ActionName::Launch => {
                let last = Item::Exchange(target.clone()?);
                quitting(self.alloc, &self.application, own, scene, last)?
            }
            _ => quitting(self.alloc, &self.application, own, scene, Item::End)?,
        };
        Work::of_batches(self.alloc, batches)
    }

    /// The current scene with its parts, if there is one.
    fn current_scene(&self) -> Option<(&GroupName, &[FixedPart])>
        ensures { option_map (λ s. (s.0.now, s.1.now)) result
            ≡ with_parts self.now.state.service self.now.state.scene }
    {
        match &self.scene {
            None => None,
            Some(scene) => Some((scene, self.service.parts(scene))),
        }
    }
}

pub(crate) fn set_transition(transition: &mut Transition, now: Transition)
    ensures { transition.new ≡ now }
{
    *transition = now;
}

fn is_begun(transition: &Transition) -> bool
    ensures { result ≡ is_begun transition.now }
{
    matches!(transition, Transition::Begun)
}

/// Whether a transition waits for this scene.
fn awaits(scene: &GroupName, transition: &Transition) -> bool
    ensures { result ≡ awaits scene.now transition.now }
{
    match transition {
        Transition::Awaits(awaited) => *scene == *awaited,
        _ => false,
    }
}

/// This scene is late no longer. It takes no memory.
fn drop_late(late: &mut Vec<GroupName>, scene: &GroupName)
    ensures { late.new.items ≡ late_without scene.now late.old.items }
{
    late.retain(|name| *scene != *name);
}
