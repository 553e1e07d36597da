//! What the next step asks of the programs of a receiver. The machine calls none of them: whoever has them
//! asks beforehand which call the step makes, and tells the machine what came of it.
ghost use Rattle.std.specs.Prelude.{◌≡◌, map, IfOk};
ghost use Rattle.std.specs.Option.{option_copied};
ghost use Rattle.mh_model.specs.Receiver.{call_at, call_in, call_made, call_next, call_unless, told};
ghost use Rattle.mh_model.specs.Service.{part_at, parts};
ghost use Rattle.mh_model.specs.State.{all};

use crate::works::Works;
use mh_actions::arguments::referred;
use mh_actions::calling::{added_name, call_ins, params_at};
use mh_base::{ObjRef, Octets, Seq};
use mh_model::act::passed;
use mh_model::sort::{Sort, sort_of};
use mh_model::{Act, Argument, Call, Fault, Item, Outcome};
use mh_resident::Resident;
use mh_work::Front;
use std::alloc::AllocError;
use std::mem;

impl Works {
    /// Which of these programs the next step calls, if it calls one, and with what.
    pub(crate) fn call_next<P: Resident>(&self, programs: &[P]) -> Result<Option<Call>, AllocError>
        ensures { IfOk result (λ call. call ≡ call_next (map P.signature_of programs.now) self.now.state) }
    {
        if self.ended {
            return Ok(None);
        }
        match self.work.front()? {
            Some(Front::Act(effect, place)) => self.call_in(programs, &effect.as_slice()[place]),
            Some(Front::Item(Item::Act(act))) => self.call_in(programs, &act),
            _ => Ok(None),
        }
    }

    /// A program has said what comes of the call that the next step makes. It answers what was said
    /// before.
    pub(crate) fn hear(&mut self, said: Outcome) -> Outcome
        ensures same { self.new.marks ≡ self.old.marks }
        ensures told { self.new.state ≡ told said self.old.state }
        ensures before { result ≡ self.old.state.said }
    {
        mem::replace(&mut self.said, said)
    }

    /// Which of these programs the action calls, if it calls one.
    fn call_in<P: Resident>(&self, programs: &[P], act: &Act) -> Result<Option<Call>, AllocError>
        ensures { let signatures = map P.signature_of programs.now in
            IfOk result (λ call. call ≡ call_in signatures (Item.Act act.now) self.now.state) }
    {
        match sort_of(act.name) {
            Sort::Call => {
                let fault = self.act_fault(act)?;
                self.call_unless(fault, programs, act)
            }
            _ => Ok(None),
        }
    }

    fn call_unless<P: Resident>(
        &self,
        fault: Option<Fault>,
        programs: &[P],
        act: &Act,
    ) -> Result<Option<Call>, AllocError>
        ensures { let signatures = map P.signature_of programs.now in
            IfOk result (λ call. call ≡ call_unless fault signatures act.now self.now.state) }
    {
        match fault {
            Some(_) => Ok(None),
            None => {
                let at = referred(self.stage.objects(), &act.target);
                self.call_at(programs, at, act.arguments.as_slice())
            }
        }
    }

    fn call_at<P: Resident>(
        &self,
        programs: &[P],
        at: Option<&ObjRef>,
        arguments: &[Argument],
    ) -> Result<Option<Call>, AllocError>
        ensures { let at = option_copied at.entry in
            let signatures = map P.signature_of programs.now in
            IfOk result (λ call. call ≡ call_at signatures at arguments.now self.now.state) }
    {
        let Some(at) = at else {
            return Ok(None);
        };
        match added_name(programs, self.stage.objects(), at) {
            Some(name) => Ok(Some(self.call_made(name, at, arguments)?)),
            None => Ok(None),
        }
    }

    fn call_made(
        &self,
        name: &[u8],
        at: &ObjRef,
        arguments: &[Argument],
    ) -> Result<Call, AllocError>
        ensures { let part = part_at at.now (parts (all self.now.state.objects)) in
            IfOk result (λ call. call ≡ call_made name.now part arguments.now self.now.state) }
    {
        let objects = self.stage.objects();
        let params = params_at(self.service.programs(), objects, at);
        let ins = call_ins(self.alloc, objects, params, passed(arguments))?;
        Ok(Call {
            name: Octets::from_slice(self.alloc, name)?,
            time: self.today(),
            values: Seq::from_vec(ins),
        })
    }
}
