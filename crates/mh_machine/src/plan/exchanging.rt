//! Exchanges of a scene or of the application, and the end.
ghost use Rattle.std.specs.Prelude.{◌≡◌, ◌+◌, ◌<◌, ◌^◌, None, Some, OnOk, OnErr};
ghost use Rattle.mh_group.specs.Table.{is_application};
ghost use Rattle.mh_model.specs.Configuration.{is_group_of};
ghost use Rattle.mh_model.specs.Rules.{application_exchanged, scene_exchanged};
ghost use Rattle.mh_model.specs.Step.{done};
ghost use Rattle.mh_model.specs.Worked.{interaction_of};
ghost use Rattle.mh_machine.specs.Plans.{taken_from};

use crate::plan::transitions::set_transition;
use crate::works::Works;
use mh_base::{GroupName, both};
use mh_model::{Interaction, Item, Transition};
use mh_store::Group;
use mh_work::Links;
use mh_work::groups::entrance;
use std::alloc::AllocError;

impl Works {
    /// Exchanges the current scene for another, or the application.
    #[inline(never)]
    pub(crate) fn do_exchange(&mut self, group: &GroupName) -> Result<(), AllocError>
        requires { self.old.state.taken + 1 < 2 ^ 64 }
        ensures done { OnOk result (self.new.state ≡ done (Item.Exchange group.now) self.old.state) }
        ensures kept { OnErr result (self.new.state ≡ self.old.state) }
    {
        if self.service.has_application(group) {
            self.exchange_application(group)
        } else {
            self.exchange_scene(group)
        }
    }

    /// Of the application that is left nothing stays.
    fn exchange_application(&mut self, group: &GroupName) -> Result<(), AllocError>
        requires { self.old.state.taken + 1 < 2 ^ 64 }
        ensures done { OnOk result (self.new.state
            ≡ application_exchanged group.now (taken_from self.old.state)) }
        ensures kept { OnErr result (self.new.state ≡ self.old.state) }
    {
        self.work.reserve(1)?;
        let parts = self.service.parts(group);
        let entered = both(
            Links::of(self.alloc, parts, &[]),
            Group::fresh(self.alloc, group, parts),
        );
        let named = both(group.clone(), entrance(self.alloc, group));
        let ((links, objects), (application, batches)) = both(entered, named)?;
        self.work.put_for_first(batches);
        set_application(&mut self.application, application);
        clear_scene(&mut self.scene);
        self.stage.launch(self.alloc, objects);
        self.links = links;
        self.interaction = None;
        self.agenda.leave_application();
        self.carousel.clear_waits();
        set_transition(&mut self.transition, Transition::Rests);
        self.taken += 1;
        Ok(())
    }

    /// The application stays, with its objects, timers and events.
    fn exchange_scene(&mut self, group: &GroupName) -> Result<(), AllocError>
        requires { self.old.state.taken + 1 < 2 ^ 64 }
        ensures done { OnOk result (self.new.state
            ≡ scene_exchanged group.now (taken_from self.old.state)) }
        ensures kept { OnErr result (self.new.state ≡ self.old.state) }
    {
        self.work.reserve(1)?;
        let parts = self.service.parts(group);
        let entered = both(
            Links::of(self.alloc, self.service.parts(&self.application), parts),
            Group::fresh(self.alloc, group, parts),
        );
        let named = both(group.clone(), entrance(self.alloc, group));
        let ((links, objects), (scene, batches)) = both(entered, named)?;
        self.work.put_for_first(batches);
        set_scene(&mut self.scene, scene);
        self.stage.exchange(objects, &self.application);
        self.links = links;
        leave_interaction(&mut self.interaction, &self.application);
        self.agenda.leave_scene(&self.application);
        self.carousel.leave_scene(&self.application);
        set_transition(&mut self.transition, Transition::Rests);
        self.taken += 1;
        Ok(())
    }

    /// Nothing is done any more, and nothing waits.
    pub(crate) fn do_end(&mut self)
        requires { self.old.state.taken + 1 < 2 ^ 64 }
        ensures { self.new.state ≡ done Item.End self.old.state }
    {
        self.agenda.end();
        self.ended = true;
        self.pass();
    }
}

/// The interaction of an object that is not of this group ends.
fn leave_interaction(interaction: &mut Option<Interaction>, group: &GroupName)
    ensures { interaction.new ≡ interaction_of group.now interaction.old }
{
    let stays = match interaction {
        Some(begun) => begun.object.group == *group,
        None => true,
    };
    if !stays {
        *interaction = None;
    }
}

fn set_application(application: &mut GroupName, group: GroupName)
    ensures { application.new ≡ group }
{
    *application = group;
}

fn clear_scene(scene: &mut Option<GroupName>)
    ensures { scene.new ≡ None }
{
    *scene = None;
}

fn set_scene(scene: &mut Option<GroupName>, group: GroupName)
    ensures { scene.new ≡ Some group }
{
    *scene = Some(group);
}
