//! Posts beside a seal: the file of a late scene takes the place of the scene's stub.
//!
//! Promise: a post is refused where `Machine::post` would refuse it, but that its caller says whether the file of a scene
//! is another than the sealed one; and by 58 where no service can have its group. What is refused changes nothing.
ghost use Rattle.std.specs.Prelude.{◌≡◌, ◌≢◌, None, Some, true, false, IfErr, OnOk, OnErr};
ghost use Rattle.mh_model.specs.declared.input.Obstacle.{Obstacle};
ghost use Rattle.mh_model.specs.Service.{group_parts};
ghost use Rattle.mh_machine.specs.Refusal.{refusal_for};
ghost use Rattle.mh_machine.specs.Sealed.{brought, brought_obstacle, is_unfillable, posted_brought};

use crate::machine::Machine;
use crate::passing::refuse;
use crate::refusal::{Refused, RefusedWhy};
use crate::works::Works;
use mh_base::GroupName;
use mh_model::Input;
use mh_service::{Service, UnfilledWhy};
use std::alloc::Global;

impl Machine {
    /// Adds an input at the end of the queue; the group of a scene's file takes the place of the scene's stub. 58 is told
    /// where the caller says that the file is another than the sealed one, or where no service can have its group. A
    /// refused input is handed back, and nothing changes.
    pub fn post_sealed(&mut self, input: Input, differs: bool) -> Result<(), Refused>
        ensures posted { OnOk result (self.new ≡ posted_brought input self.old) }
        ensures accepted { OnOk result (brought_obstacle differs input self.old ≡ None) }
        ensures barred { IfErr result (λ refused. (o : Obstacle) → refused.why ≡ refusal_for o → brought_obstacle differs input self.old ≡ Some o) }
        ensures back { IfErr result (λ refused. refused.input ≡ input) }
        ensures kept { OnErr result (self.new ≡ self.old) }
    {
        match self.works.bring(&input, differs) {
            Ok(()) => Ok(()),
            Err(why) => refuse(why, input),
        }
    }
}

impl Works {
    /// Makes room first, so that nothing is refused behind the first change.
    fn bring(&mut self, input: &Input, differs: bool) -> Result<(), RefusedWhy>
        ensures posted { OnOk result (self.new.state ≡ posted_brought input.now self.old.state) }
        ensures accepted { OnOk result (brought_obstacle differs input.now self.old.state ≡ None) }
        ensures barred { IfErr result (λ why. (o : Obstacle) → why ≡ refusal_for o → brought_obstacle differs input.now self.old.state ≡ Some o) }
        ensures kept { OnErr result (self.new.state ≡ self.old.state) }
        ensures marks { self.new.marks ≡ self.old.marks }
    {
        if let Some(obstacle) = self.obstacle_if(differs, input) {
            return Err(RefusedWhy::for_obstacle(obstacle));
        }
        let copy = input.clone()?;
        self.agenda.reserve(1)?;
        fill(self.alloc, &mut self.service, &self.application, input)?;
        self.agenda.post_reserved(copy);
        Ok(())
    }
}

/// Puts the group of a scene's file in the place of the scene's stub.
fn fill(
    alloc: Global,
    service: &mut Service,
    application: &GroupName,
    input: &Input,
) -> Result<(), RefusedWhy>
    ensures filled { OnOk result (service.new ≡ brought input.now service.old) }
    ensures beside { OnOk result (group_parts service.new application.now ≡ group_parts service.old application.now) }
    ensures good { OnOk result (is_unfillable application.now input.now service.old ≡ false) }
    ensures refused { IfErr result (λ why. why ≢ RefusedWhy.NoMemory → (why ≡ RefusedWhy.Differs) × (is_unfillable application.now input.now service.old ≡ true)) }
    ensures kept { OnErr result (service.new ≡ service.old) }
{
    let Input::Scene(scene, group) = input else {
        return Ok(());
    };
    if *scene == *application {
        return Err(RefusedWhy::Differs);
    }
    match service.fill(alloc, scene, group.group()) {
        Ok(()) => Ok(()),
        Err(UnfilledWhy::NoMemory) => Err(RefusedWhy::NoMemory),
        Err(_) => Err(RefusedWhy::Differs),
    }
}
