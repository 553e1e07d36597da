//! What an engine does for whoever plays it beside programs of a receiver.
ghost use Rattle.std.specs.Prelude.{◌≡◌, ◌≤◌, map, true, false, [], None, IfOk, IfErr};
ghost use Rattle.mh_model.specs.Stuck.{front_fault};
ghost use Rattle.mh_model.specs.State.{begun};
ghost use Rattle.mh_model.specs.Receiver.{call_next, told};
ghost use Rattle.mh_layers.specs.Known.{top};
ghost use Rattle.mh_machine.specs.Refusal.{is_ready};
ghost use Rattle.mh_engine.specs.Play.{unbounded, with_more};

use crate::engine::Engine;
use crate::refusal::{StartError, Unaccepted};
use mh_machine::{Machine, Unstarted};
use mh_model::{Call, Outcome, Signature};
use mh_resident::Resident;
use mh_service::Service;
use mh_verify::Accepted;
use std::alloc::{AllocError, Global};

impl Engine {
    /// An engine for a service beside these programs, in place of those that it carries.
    pub(crate) fn begin_with(
        alloc: Global,
        service: Service,
        programs: Vec<Signature>,
        mjd: u32,
    ) -> Result<Engine, Unstarted>
        ensures begun { let whole = record service { programs = programs.items } in
            IfOk result (λ engine. engine ≡ record { state = begun whole mjd; accepted = false; bounds = unbounded; budget = top }) }
        ensures back { IfErr result (λ unstarted. unstarted.service ≡ service) }
    {
        let mut service = service;
        let carried = service.exchange_programs(programs);
        match Machine::beside(alloc, service, mjd) {
            Ok(machine) => Ok(Engine::lenient(machine)),
            Err(unstarted) => Err(unstarted.carrying(carried)),
        }
    }

    /// An engine for a service that the verifier accepted beside these programs.
    pub(crate) fn begin(
        alloc: Global,
        accepted: Accepted,
        programs: Vec<Signature>,
        mjd: u32,
    ) -> Result<Engine, Unaccepted>
        requires { programs.items ≡ accepted.service.programs }
        ensures begun { IfOk result (λ engine. engine ≡ record { state = begun accepted.service mjd; accepted = true; bounds = accepted.bounds; budget = accepted.bounds.start }) }
        ensures back { IfErr result (λ refused. refused.accepted ≡ accepted) }
        ensures why { IfErr result (λ refused. refused.why ≡ StartError.NoMemory) }
    {
        let (service, rest) = accepted.apart();
        let bounds = rest.bounds();
        let budget = bounds.start;
        match Machine::beside(alloc, service.with_programs(programs), mjd) {
            Ok(machine) => {
                drop(rest);
                Ok(Engine {
                    machine,
                    accepted: true,
                    bounds,
                    budget,
                })
            }
            Err(unstarted) => Err(Unaccepted {
                why: StartError::NoMemory,
                accepted: rest.join(unstarted.service),
            }),
        }
    }

    /// Whether there is a step to make, and one that is counted.
    pub(crate) fn is_ready(&self) -> bool
        ensures { result ≡ is_ready self.now.state }
    {
        !self.machine.is_settled() && self.machine.taken() != u64::MAX
    }

    /// Which of these programs of the receiver the next step calls, if it calls one, and with what.
    pub(crate) fn call_next<P: Resident>(&self, programs: &[P]) -> Result<Option<Call>, AllocError>
        ensures { IfOk result (λ call. call ≡ call_next (map P.signature_of programs.now) self.now.state) }
    {
        self.machine.call_next(programs)
    }

    /// A program has said what comes of the call that the next step makes.
    /// It answers what was said before.
    pub(crate) fn hear(&mut self, said: Outcome) -> Outcome
        ensures told { self.new ≡ record self.old { state = told said self.old.state } }
        ensures before { result ≡ self.old.state.said }
    {
        self.machine.hear(said)
    }

    /// What is known of each engine, and of one whose service was accepted.
    pub(crate) fn vouch(&self)
        ensures never { self.now.accepted ≡ true → front_fault self.now.state ≡ None }
        ensures faultless { self.now.accepted ≡ true → self.now.state.faults ≡ [] }
        ensures within { self.now.state.taken ≤ self.now.budget }
        ensures same { with_more self.now.budget 0 ≡ self.now.budget }
    {
        let _ = self.machine.taken();
    }
}
