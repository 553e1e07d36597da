//! Calls of programs.
ghost use Rattle.std.specs.Prelude.{◌≡◌, ◌+◌, ◌<◌, ◌^◌, ◌∷◌, ◌++◌, [], IfOk, OnOk, OnErr};
ghost use Rattle.mh_model.specs.Programs.{answer, said_by, outcome_of};
ghost use Rattle.mh_model.specs.Rules.{call_rule, now_of};
ghost use Rattle.mh_model.specs.Saying.{call_items};
ghost use Rattle.mh_work.specs.Batches.{written};
ghost use Rattle.mh_machine.specs.Plans.{committed, taken_from};

use crate::plan::answering::gifts_of;
use crate::plan::{Awaiting, Change, Plan, Stacking};
use crate::works::Works;
use mh_actions::calling::{builtin_at, call_ins, call_receivers, params_at};
use mh_base::{EventType, ObjRef, Seq, Value, both};
use mh_group::ActionName;
use mh_model::act::passed;
use mh_model::{Act, Builtin, Now, Outcome};
use mh_resident::answer_of;
use mh_work::Batch;
use mh_work::groups::{plain_event, push};
use std::alloc::{AllocError, Global};

impl Works {
    /// A program is called.
    #[inline(never)]
    pub(crate) fn do_call(&mut self, act: &Act, at: &ObjRef) -> Result<(), AllocError>
        requires { self.old.state.taken + 1 < 2 ^ 64 }
        ensures done { OnOk result (self.new.state
            ≡ call_rule act.now.name act.now.arguments at.now (taken_from self.old.state)) }
        ensures kept { OnErr result (self.new.state ≡ self.old.state) }
    {
        let plan = self.plan_call(act, at)?;
        self.commit(plan)
    }

    fn plan_call(&self, act: &Act, at: &ObjRef) -> Result<Plan, AllocError>
        ensures { IfOk result (λ plan. committed plan self.now.state
            ≡ call_rule act.now.name act.now.arguments at.now (taken_from self.now.state)) }
    {
        let objects = self.stage.objects();
        let params = params_at(self.service.programs(), objects, at);
        let arguments = act.arguments.as_slice();
        let ins = call_ins(self.alloc, objects, params, passed(arguments))?;
        let which = builtin_at(objects, at);
        let said = self.said_of(which, ins.as_slice());
        let (said, receivers) = both(said, call_receivers(self.alloc, params, arguments))?;
        let gifts = gifts_of(self.alloc, receivers.as_slice(), said.as_slice());
        let (gifts, batches) = both(gifts, call_batches(self.alloc, act.name, at))?;
        let change = Change::Give(Seq::from_vec(gifts));
        Ok(Plan::of(change, Stacking::Same, Awaiting::Same, batches))
    }

    /// What the variables of a call are given: whether it went well, and then what the program answered.
    fn said_of(&self, which: Option<Builtin>, ins: &[Value]) -> Result<Vec<Value>, AllocError>
        ensures { let outcome = outcome_of which self.now.state.said (now_of self.now.state) ins.now in
            IfOk result (λ said. said.items ≡ said_by outcome) }
    {
        match which {
            Some(which) => said_by_builtin(self.alloc, which, self.today(), ins),
            None => said_by_other(self.alloc, &self.said),
        }
    }

    /// The day on which the engine began, and the present moment.
    pub(crate) fn today(&self) -> Now
        ensures { result ≡ now_of self.now.state }
    {
        Now {
            mjd: self.mjd,
            moment: self.agenda.moments().present,
        }
    }
}

fn said_by_builtin(
    alloc: Global,
    which: Builtin,
    now: Now,
    ins: &[Value],
) -> Result<Vec<Value>, AllocError>
    ensures { let answers = answer which now ins.now in
        IfOk result (λ said. said.items ≡ said_by (Outcome.Answered answers)) }
{
    let mut said = answer_of(alloc, which, now, ins)?;
    said.insert(0, Value::Bool(true))?;
    Ok(said)
}

/// A program of the receiver has said before the step what comes of it.
fn said_by_other(alloc: Global, outcome: &Outcome) -> Result<Vec<Value>, AllocError>
    ensures { IfOk result (λ said. said.items ≡ said_by outcome.now) }
{
    match outcome {
        Outcome::Answered(values) => with_copies(one(alloc, Value::Bool(true))?, values.as_slice()),
        Outcome::Failed => one(alloc, Value::Bool(false)),
    }
}

/// These values, and copies of those behind them.
fn with_copies(said: Vec<Value>, values: &[Value]) -> Result<Vec<Value>, AllocError>
    ensures { IfOk result (λ all. all.items ≡ said.items ++ values.now) }
{
    let mut said = said;
    for value in values {
        said.push(value.clone()?)?;
    }
    Ok(said)
}

fn one(alloc: Global, value: Value) -> Result<Vec<Value>, AllocError>
    ensures { IfOk result (λ values. values.items ≡ value ∷ []) }
{
    let mut values = Vec::new(alloc);
    values.push(value)?;
    Ok(values)
}

/// What a call puts.
fn call_batches(alloc: Global, name: ActionName, at: &ObjRef) -> Result<Vec<Batch>, AllocError>
    ensures { IfOk result (λ batches. written batches.items ≡ call_items name at.now) }
{
    let mut batches = Vec::new(alloc);
    if matches!(name, ActionName::Fork) {
        push(
            &mut batches,
            Batch::One(plain_event(at, EventType::AsyncStopped)?),
        )?;
    }
    Ok(batches)
}
