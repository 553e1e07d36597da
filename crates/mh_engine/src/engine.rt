//! `Engine`: a machine with the verdict on its service, and with how many steps may be taken.
ghost use Rattle.std.specs.Prelude.{◌≡◌, ◌≤◌, true, false, None, Some, [], IfOk, IfErr, OnOk, OnErr, IsErrOf, IsErrAnd, MatchOption};
ghost use Rattle.std.specs.Borrow.{sem};
ghost use Rattle.mh_model.specs.State.{begun};
ghost use Rattle.mh_model.specs.declared.input.Obstacle.{Obstacle};
ghost use Rattle.mh_model.specs.Step.{step, is_empty, posted, preset, preset_obstacle, obstacle, is_settled, advanced};
ghost use Rattle.mh_model.specs.Limits.{most_steps};
ghost use Rattle.mh_model.specs.Stuck.{front_fault};
ghost use Rattle.mh_laws.specs.Budget.{bound_of};
ghost use Rattle.mh_laws.specs.Safe.{IsSafe};
ghost use Rattle.mh_layers.specs.Known.{top};
ghost use Rattle.mh_model.specs.Picture.{shown};
ghost use Rattle.mh_machine.specs.Rest.{answer_of, is_faulted, rest_of};
ghost use Rattle.mh_machine.specs.Working.{IsPartly};
ghost use Rattle.mh_machine.specs.Refusal.{refusal_for, step_refusal, post_refusal, preset_refusal};
ghost use Rattle.mh_engine.specs.Answer.{start_refusal};
ghost use Rattle.mh_engine.specs.Lent.{EngineStays};
ghost use Rattle.mh_engine.specs.Play.{unbounded, with_more};

use crate::refusal::{StartError, Unaccepted};
use mh_layers::Bounds;
use mh_machine::{
    Free, Judged, Machine, Refused, RefusedFile, RefusedWhy, Rest, StepError, Stepped, Unstarted,
};
use mh_model::{Fault, File, Input, Picture, Signature};
use mh_service::Service;
use mh_verify::Accepted;
use std::alloc::{AllocError, Global};
use std::marker::Model;

/// An engine that plays a service (ETSI ES 202 184, the receiver's MHEG-5 engine). A contract sees the
/// state of the machine, whether its service was accepted, what the start and each input are bound to, and
/// how many steps may be taken for what was posted so far: where the service was accepted no more ever are,
/// and its state is safe. A call that is refused, for want of memory too, leaves everything as it was, and
/// may be made again.
#[derive(Drop)]
pub struct Engine {
    pub(crate) machine: Machine,
    pub(crate) accepted: bool,
    pub(crate) bounds: Bounds,
    pub(crate) budget: u64,
}

impl Model for Engine {
    ghost use Rattle.mh_engine.specs.Play.{IsKept, Play};

    ghost Value = { Play };

    ghost view = { λ e. record {
      state = e.machine;
      accepted = e.accepted;
      bounds = e.bounds;
      budget = e.budget;
    } };

    ghost invariant = { λ e. IsKept (record {
      state = e.machine;
      accepted = e.accepted;
      bounds = e.bounds;
      budget = e.budget;
    }) };
}

impl Engine {
    /// An engine for the service, whether or not a verifier would accept it, that begins on this modified
    /// Julian day, 1,000,000 at most. It has the built-in programs alone, and plays the service without
    /// those of a receiver that it may carry (`Receiver` has them).
    pub fn start_lenient(alloc: Global, service: Service, mjd: u32) -> Result<Engine, Unstarted>
        ensures begun { let alone = record service { programs = [] } in
            IfOk result (λ engine. engine ≡ record { state = begun alone mjd; accepted = false; bounds = unbounded; budget = top }) }
        ensures back { IfErr result (λ unstarted. unstarted.service ≡ service) }
    {
        let machine = Machine::new(alloc, service, mjd)?;
        Ok(Engine::lenient(machine))
    }

    /// An engine that plays this machine, whose service no verifier has seen.
    pub(crate) fn lenient(machine: Machine) -> Engine
        ensures { result ≡ record { state = machine; accepted = false; bounds = unbounded; budget = top } }
    {
        Engine {
            machine,
            accepted: false,
            bounds: no_bounds(),
            budget: u64::MAX,
        }
    }

    /// An engine for a service that the verifier accepted, and that begins on this modified Julian day,
    /// 1,000,000 at most: none of its steps finds an item stuck, and its start and each input lead to no more
    /// steps than the verifier has for them. It has the built-in programs alone, and refuses a service that was
    /// verified with others. What is refused is handed back.
    pub fn start(alloc: Global, accepted: Accepted, mjd: u32) -> Result<Engine, Unaccepted>
        ensures begun { IfOk result (λ engine. engine ≡ record { state = begun accepted.service mjd; accepted = true; bounds = accepted.bounds; budget = accepted.bounds.start }) }
        ensures back { IfErr result (λ refused. refused.accepted ≡ accepted) }
        ensures refused { MatchOption (start_refusal accepted.service) (IfErr result (λ refused. refused.why ≡ StartError.NoMemory)) (λ why. IsErrAnd result (λ refused. refused.why ≡ why)) }
    {
        if !are_none(accepted.programs()) {
            return Err(Unaccepted {
                why: StartError::ProgramsDiffer,
                accepted,
            });
        }
        Engine::begin(alloc, accepted, Vec::new(alloc), mjd)
    }

    /// A content file is there before the first move. A refused one is handed back, and nothing changes.
    pub fn preset(&mut self, file: File) -> Result<(), RefusedFile>
        ensures preset { OnOk result (self.new ≡ record self.old { state = preset file self.old.state }) }
        ensures accepted { OnOk result (preset_obstacle file self.old.state ≡ None) }
        ensures back { IfErr result (λ refused. refused.file ≡ file) }
        ensures kept { OnErr result (self.new ≡ self.old) }
        ensures refused { MatchOption (preset_refusal file self.old.state) (IfErr result (λ refused. refused.why ≡ RefusedWhy.NoMemory)) (λ why. IsErrAnd result (λ refused. refused.why ≡ why)) }
    {
        self.machine.preset(file)
    }

    /// Adds an input at the end of the queue, and what it is bound to to the budget. A refused one is handed
    /// back, and nothing changes.
    pub fn post(&mut self, input: Input) -> Result<(), Refused>
        ensures posted { let more = bound_of self.old.bounds input in
            OnOk result (self.new ≡ record self.old { state = posted input self.old.state; budget = with_more self.old.budget more }) }
        ensures accepted { OnOk result (obstacle input self.old.state ≡ None) }
        ensures barred { IfErr result (λ refused. (o : Obstacle) → refused.why ≡ refusal_for o → obstacle input self.old.state ≡ Some o) }
        ensures back { IfErr result (λ refused. refused.input ≡ input) }
        ensures kept { OnErr result (self.new ≡ self.old) }
        ensures refused { MatchOption (post_refusal input self.old.state) (IfErr result (λ refused. refused.why ≡ RefusedWhy.NoMemory)) (λ why. IsErrAnd result (λ refused. refused.why ≡ why)) }
    {
        let budget = self.budget.saturating_add(self.bounds.of_input(&input));
        match self.machine.post(input) {
            Ok(()) => {
                self.budget = budget;
                Ok(())
            }
            Err(refused) => Err(refused),
        }
    }

    /// One step of the machine. Where memory is refused everything stays as it was, and the step may be
    /// made again.
    pub fn step(&mut self) -> Result<Stepped, StepError>
        ensures step { OnOk result (self.new ≡ record self.old { state = step self.old.state }) }
        ensures kept { OnErr result (self.new ≡ self.old) }
        ensures answer { IfOk result (λ answer. answer ≡ answer_of self.old.state) }
        ensures never { self.old.accepted ≡ true → front_fault self.old.state ≡ None }
        ensures faultless { IfOk result (λ answer. self.old.accepted ≡ true → is_faulted answer ≡ false) }
        ensures room { OnOk result (self.old.state.taken ≡ most_steps → is_settled self.old.state ≡ true) }
        ensures full { IsErrOf result StepError.CountFull → (self.old.state.taken ≡ most_steps) × (is_settled self.old.state ≡ false) }
        ensures refused { MatchOption (step_refusal self.old.state) (IfErr result (λ why. (why ≡ StepError.NoMemory) × (is_settled self.old.state ≡ false))) (λ why. IsErrOf result why) }
        ensures within { self.new.state.taken ≤ self.new.budget }
    {
        let answer = step_by(&mut self.machine, self.accepted);
        self.vouch();
        answer
    }

    /// Makes so many steps, or as many as there is something to do and as are counted. Where memory is refused
    /// some of the steps were made, there is more to do, and the others may be made again; where nothing is
    /// left to do no memory is asked for.
    pub fn advance(&mut self, most: u32) -> Result<(), AllocError>
        ensures all { OnOk result (self.new ≡ record self.old { state = advanced most self.old.state }) }
        ensures some { OnErr result (IsPartly most self.old.state self.new.state) }
        ensures same { self.new.accepted ≡ self.old.accepted }
        ensures bounds { self.new.bounds ≡ self.old.bounds }
        ensures budget { self.new.budget ≡ self.old.budget }
        ensures within { self.new.state.taken ≤ self.new.budget }
    {
        let made = advance_by(&mut self.machine, self.accepted, most);
        self.vouch();
        made
    }

    /// The picture that is shown. What the steps so far have left to be painted is painted now, which wants no
    /// memory and changes nothing of the state; steps whose picture nobody asks for cost no painting.
    pub fn picture(&mut self) -> &Picture
        ensures* same { sem 𝓛 (EngineStays self.entry) }
        ensures shown { result.now ≡ shown self.old.state }
    {
        self.machine.picture()
    }

    /// The steps taken.
    pub fn taken(&self) -> u64
        ensures { result ≡ self.now.state.taken }
    {
        self.machine.taken()
    }

    /// Whether the verifier accepted the service.
    pub fn is_accepted(&self) -> bool
        ensures { result ≡ self.now.accepted }
    {
        self.accepted
    }

    /// The most steps that may be taken for what was posted so far: the bound of the start and those of the
    /// inputs that were accepted; of a service that no verifier has seen, as many as 64 bits can count.
    pub fn budget(&self) -> u64
        ensures same { result ≡ self.now.budget }
        ensures within { self.now.state.taken ≤ result }
    {
        self.vouch();
        self.budget
    }

    /// The most steps to which its start and an input of each kind can lead; of a service that no verifier has
    /// seen, as many as 64 bits can count.
    pub fn bounds(&self) -> Bounds
        ensures { result ≡ self.now.bounds }
    {
        self.bounds
    }

    /// The faults met, in order. Where the service was accepted there are none.
    pub fn faults(&self) -> &[Fault]
        ensures faults { result.now ≡ self.now.state.faults }
        ensures none { self.now.accepted ≡ true → result.now ≡ [] }
    {
        self.machine.faults()
    }

    /// The machine, to be looked at.
    pub fn machine(&self) -> &Machine
        ensures { result.now ≡ self.now.state }
    {
        &self.machine
    }

    /// What is left to do.
    pub fn rest(&self) -> Rest
        ensures { result ≡ rest_of self.now.state }
    {
        self.machine.rest()
    }
}

/// One step of a machine. For a service that was accepted nothing is asked of the first item.
fn step_by(machine: &mut Machine, accepted: bool) -> Result<Stepped, StepError>
    requires free { accepted ≡ true → front_fault machine.old ≡ None }
    ensures step { OnOk result (machine.new ≡ step machine.old) }
    ensures answer { IfOk result (λ answer. answer ≡ answer_of machine.old) }
    ensures kept { OnErr result (machine.new ≡ machine.old) }
    ensures room { OnOk result (machine.old.taken ≡ most_steps → is_settled machine.old ≡ true) }
    ensures full { IsErrOf result StepError.CountFull → (machine.old.taken ≡ most_steps) × (is_settled machine.old ≡ false) }
    ensures refused { MatchOption (step_refusal machine.old) (IfErr result (λ why. (why ≡ StepError.NoMemory) × (is_settled machine.old ≡ false))) (λ why. IsErrOf result why) }
{
    if accepted {
        machine.step::<Free>()
    } else {
        machine.step::<Judged>()
    }
}

/// So many steps of a machine. For a service that was accepted nothing is asked of an item.
fn advance_by(machine: &mut Machine, accepted: bool, most: u32) -> Result<(), AllocError>
    requires safe { accepted ≡ true → IsSafe machine.old }
    ensures all { OnOk result (machine.new ≡ advanced most machine.old) }
    ensures some { OnErr result (IsPartly most machine.old machine.new) }
{
    if accepted {
        machine.advance::<Free>(most)
    } else {
        machine.advance::<Judged>(most)
    }
}

/// What is known of a service that no verifier has seen: as many steps as can be counted.
fn no_bounds() -> Bounds
    ensures { result ≡ unbounded }
{
    Bounds {
        start: u64::MAX,
        key: u64::MAX,
        tick: u64::MAX,
        stream: u64::MAX,
        engine: u64::MAX,
        arrive: u64::MAX,
    }
}

/// Whether there are no programs besides the built-in ones.
fn are_none(programs: &[Signature]) -> bool
    ensures { result ≡ is_empty programs.now }
{
    programs.is_empty()
}
