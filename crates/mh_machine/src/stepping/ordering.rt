//! An action that moves its target in the display stack.
ghost use Rattle.std.specs.Prelude.{◌≡◌, ◌+◌, ◌<◌, ◌^◌, IfOk, OnOk, OnErr};
ghost use Rattle.mh_model.specs.Arguments as said;
ghost use Rattle.mh_model.specs.Rules.{order_rule};
ghost use Rattle.mh_model.specs.State.{all};
ghost use Rattle.mh_machine.specs.Plans.{committed, taken_from};

use crate::plan::{Awaiting, Change, Plan, Stacking};
use crate::works::Works;
use mh_actions::arguments::values;
use mh_actions::ordering::reorder_by;
use mh_base::{ObjRef, both};
use mh_model::Act;
use mh_work::lifecycle::is_available;
use std::alloc::AllocError;

impl Works {
    /// An action that moves its target in the display stack.
    #[inline(never)]
    pub(crate) fn do_order(&mut self, act: &Act, at: &ObjRef) -> Result<(), AllocError>
        requires { self.old.state.taken + 1 < 2 ^ 64 }
        ensures done { let values = said.values (all self.old.state.objects) act.now.arguments in
            OnOk result (self.new.state
            ≡ order_rule act.now.name values at.now (taken_from self.old.state)) }
        ensures kept { OnErr result (self.new.state ≡ self.old.state) }
    {
        let plan = self.plan_order(act, at)?;
        self.commit(plan)
    }

    /// An action that moves its target in the display stack.
    fn plan_order(&self, act: &Act, at: &ObjRef) -> Result<Plan, AllocError>
        ensures { let values = said.values (all self.now.state.objects) act.now.arguments in
            IfOk result (λ plan. committed plan self.now.state
            ≡ order_rule act.now.name values at.now (taken_from self.now.state)) }
    {
        let objects = self.stage.objects();
        if !is_available(objects.get(at)) {
            return Ok(Plan::nothing(self.alloc));
        }
        let values = values(self.alloc, objects, act.arguments.as_slice())?;
        let how = reorder_by(act.name, values.as_slice(), at, objects);
        let (at, how) = both(at.clone(), how)?;
        Ok(Plan::of(
            Change::Nothing,
            Stacking::Move(at, how),
            Awaiting::Same,
            Vec::new(self.alloc),
        ))
    }
}
