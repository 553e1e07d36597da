//! An action that asks its target: each receiver is given its answer.
ghost use Rattle.std.specs.Prelude.{◌≡◌, ◌∷◌, ◌++◌, ◌+◌, ◌<◌, ◌^◌, [], IfOk, OnOk, OnErr};
ghost use Rattle.mh_model.specs.Arguments as said;
ghost use Rattle.mh_model.specs.Rules.{ask_rule};
ghost use Rattle.mh_model.specs.State.{all};
ghost use Rattle.mh_machine.specs.Plans.{committed, gifts, taken_from};

use crate::plan::{Change, Gift, Plan};
use crate::works::Works;
use mh_actions::answers::answers;
use mh_actions::arguments::{receivers, values};
use mh_base::{ObjRef, Seq, Value, both};
use mh_model::Act;
use std::alloc::{AllocError, Global};

impl Works {
    /// An action that asks its target.
    #[inline(never)]
    pub(crate) fn do_ask(&mut self, act: &Act, at: &ObjRef) -> Result<(), AllocError>
        requires { self.old.state.taken + 1 < 2 ^ 64 }
        ensures done { let values = said.values (all self.old.state.objects) act.now.arguments in
            OnOk result (self.new.state
            ≡ ask_rule act.now.name values (said.receivers act.now.arguments) at.now
            (taken_from self.old.state)) }
        ensures kept { OnErr result (self.new.state ≡ self.old.state) }
    {
        let plan = self.plan_ask(act, at)?;
        self.commit(plan)
    }

    /// An action that asks its target.
    fn plan_ask(&self, act: &Act, at: &ObjRef) -> Result<Plan, AllocError>
        ensures { let values = said.values (all self.now.state.objects) act.now.arguments in
            IfOk result (λ plan. committed plan self.now.state
            ≡ ask_rule act.now.name values (said.receivers act.now.arguments) at.now
            (taken_from self.now.state)) }
    {
        let values = values(self.alloc, self.stage.objects(), act.arguments.as_slice())?;
        let found = self.stage.objects().get(at);
        let told = answers(self.alloc, act.name, values.as_slice(), found);
        let (told, receivers) = both(told, receivers(self.alloc, act.arguments.as_slice()))?;
        let gifts = gifts_of(self.alloc, receivers.as_slice(), told.as_slice())?;
        Ok(Plan::changing(self.alloc, Change::Give(Seq::from_vec(gifts))))
    }
}

/// Each receiver with its answer.
pub fn gifts_of(
    alloc: Global,
    receivers: &[ObjRef],
    answers: &[Value],
) -> Result<Vec<Gift>, AllocError>
    ensures { IfOk result (λ given. given.items ≡ gifts receivers.now answers.now) }
{
    let mut given = Vec::new(alloc);
    let mut receivers = receivers;
    let mut answers = answers;
    while let Some((at, behind)) = receivers.split_first() {
        let Some((value, more)) = answers.split_first() else {
            return Ok(given);
        };
        push_gift(&mut given, at, value)?;
        receivers = behind;
        answers = more;
    }
    Ok(given)
}

fn push_gift(given: &mut Vec<Gift>, at: &ObjRef, value: &Value) -> Result<(), AllocError>
    ensures { OnOk result
        (given.new.items ≡ given.old.items ++ record { at = at.now; value = value.now } ∷ []) }
{
    given.push(Gift {
        at: at.clone()?,
        value: value.clone()?,
    })?;
    Ok(())
}
