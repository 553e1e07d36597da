//! `Machine`: the state of the object machine, with the picture that it shows.
ghost use Rattle.std.specs.Prelude.{◌≡◌, map, true, false, [], None, Some, IfOk, IfErr, OnOk, OnErr, IsErrOf, IsErrAnd, MatchOption};
ghost use Rattle.mh_model.specs.declared.input.Obstacle.{Obstacle};
ghost use Rattle.mh_model.specs.Limits.{most_steps};
ghost use Rattle.mh_model.specs.Stuck.{front_fault};
ghost use Rattle.mh_model.specs.Picture.{shown};
ghost use Rattle.mh_model.specs.Receiver.{call_next, told};
ghost use Rattle.mh_model.specs.State.{begun};
ghost use Rattle.mh_model.specs.Step.{advanced, posted, step, obstacle, preset, preset_obstacle, is_settled};
ghost use Rattle.std.specs.Borrow.{sem};
ghost use Rattle.mh_machine.specs.Judging.{AreAllowed};
ghost use Rattle.mh_machine.specs.Lent.{MachineStays};
ghost use Rattle.mh_machine.specs.Refusal.{post_refusal, preset_refusal, refusal_for, step_refusal};
ghost use Rattle.mh_machine.specs.Rest.{answer_of, rest_of};
ghost use Rattle.mh_machine.specs.Working.{IsPartly};

use crate::passing::refuse;
use crate::works::Works;
use crate::{Judging, Refused, RefusedFile, RefusedWhy, Rest, StepError, Stepped, Unstarted};
use mh_model::{Call, Fault, File, Input, Obstacle, Outcome, Picture};
use mh_resident::Resident;
use mh_service::Service;
use std::alloc::{AllocError, Global};
use std::marker::Model;

/// The object machine. A contract sees the state.
#[derive(Drop)]
pub struct Machine {
    pub(crate) works: Works,
}

impl Model for Machine {
    ghost use Rattle.mh_model.specs.State.{State};

    ghost Value = { State };

    ghost view = { λ m. m.works.state };
}

impl Machine {
    /// The machine at the start, on this modified Julian day: the start application is there, and is about
    /// to be entered. It has the built-in programs alone, and plays the service without those of a
    /// receiver that it may carry. Where memory is refused the service is handed back.
    pub fn new(alloc: Global, service: Service, mjd: u32) -> Result<Machine, Unstarted>
        ensures begun { IfOk result (λ machine. machine ≡ begun (record service { programs = [] }) mjd) }
        ensures back { IfErr result (λ unstarted. unstarted.service ≡ service) }
    {
        let mut service = service;
        let carried = service.exchange_programs(Vec::new(alloc));
        match Machine::beside(alloc, service, mjd) {
            Ok(machine) => Ok(machine),
            Err(unstarted) => Err(unstarted.carrying(carried)),
        }
    }

    /// The same beside the programs whose signatures the service carries. Whoever steps it asks before each
    /// step which of them that calls (`call_next`), and says what came of it (`hear`).
    pub fn beside(alloc: Global, service: Service, mjd: u32) -> Result<Machine, Unstarted>
        ensures begun { IfOk result (λ machine. machine ≡ begun service mjd) }
        ensures back { IfErr result (λ unstarted. unstarted.service ≡ service) }
    {
        let works = Works::new(alloc, service, mjd)?;
        Ok(Machine { works })
    }

    /// A file is there before the first move. A refused one is handed back, and nothing changes.
    pub fn preset(&mut self, file: File) -> Result<(), RefusedFile>
        ensures preset { OnOk result (self.new ≡ preset file self.old) }
        ensures accepted { OnOk result (preset_obstacle file self.old ≡ None) }
        ensures back { IfErr result (λ refused. refused.file ≡ file) }
        ensures kept { OnErr result (self.new ≡ self.old) }
        ensures refused { MatchOption (preset_refusal file self.old) (IfErr result (λ refused. refused.why ≡ RefusedWhy.NoMemory)) (λ why. IsErrAnd result (λ refused. refused.why ≡ why)) }
    {
        self.works.preset(file)
    }

    /// Why an input cannot join the queue, if it cannot.
    pub fn obstacle(&self, input: &Input) -> Option<Obstacle>
        ensures { result ≡ obstacle input.now self.now }
    {
        self.works.obstacle(input)
    }

    /// Adds an input at the end of the queue. A refused one is handed back, and nothing changes.
    pub fn post(&mut self, input: Input) -> Result<(), Refused>
        ensures posted { OnOk result (self.new ≡ posted input self.old) }
        ensures accepted { OnOk result (obstacle input self.old ≡ None) }
        ensures barred { IfErr result (λ refused. (o : Obstacle) → refused.why ≡ refusal_for o → obstacle input self.old ≡ Some o) }
        ensures back { IfErr result (λ refused. refused.input ≡ input) }
        ensures kept { OnErr result (self.new ≡ self.old) }
        ensures refused { MatchOption (post_refusal input self.old) (IfErr result (λ refused. refused.why ≡ RefusedWhy.NoMemory)) (λ why. IsErrAnd result (λ refused. refused.why ≡ why)) }
    {
        if let Some(obstacle) = self.works.obstacle(&input) {
            return refuse(RefusedWhy::for_obstacle(obstacle), input);
        }
        self.works.post_or_back(input)
    }

    /// Which of these programs of the receiver the next step calls, if it calls one, and with what.
    pub fn call_next<P: Resident>(&self, programs: &[P]) -> Result<Option<Call>, AllocError>
        ensures { IfOk result (λ call. call ≡ call_next (map P.signature_of programs.now) self.now) }
    {
        self.works.call_next(programs)
    }

    /// A program has said what comes of the call that the next step makes.
    /// It answers what was said before.
    pub fn hear(&mut self, said: Outcome) -> Outcome
        ensures told { self.new ≡ told said self.old }
        ensures before { result ≡ self.old.said }
    {
        self.works.hear(said)
    }

    /// One step: the first item of the work list, or the first that waits where there is no work. Where
    /// memory is refused, or the count of steps is full, everything stays as it was.
    pub fn step<J: Judging>(&mut self) -> Result<Stepped, StepError>
        requires allowed { J.allows (front_fault self.old) }
        ensures step { OnOk result (self.new ≡ step self.old) }
        ensures answer { IfOk result (λ a. a ≡ answer_of self.old) }
        ensures kept { OnErr result (self.new ≡ self.old) }
        ensures room { OnOk result (self.old.taken ≡ most_steps → is_settled self.old ≡ true) }
        ensures full { IsErrOf result StepError.CountFull → (self.old.taken ≡ most_steps) × (is_settled self.old ≡ false) }
        ensures refused { MatchOption (step_refusal self.old) (IfErr result (λ why. (why ≡ StepError.NoMemory) × (is_settled self.old ≡ false))) (λ why. IsErrOf result why) }
    {
        match self.rest() {
            Rest::Ended => return Ok(Stepped::Ended),
            Rest::Idle => return Ok(Stepped::Idle),
            Rest::More => {}
        }
        if self.taken() == u64::MAX {
            return Err(StepError::CountFull);
        }
        let answer = self.works.step::<J>()?;
        Ok(answer)
    }

    /// Makes so many steps, or as many as there is something to do and as are counted. Where memory is
    /// refused, some of the steps were made.
    pub fn advance<J: Judging>(&mut self, most: u32) -> Result<(), AllocError>
        requires { AreAllowed J.allows most self.old }
        ensures all { OnOk result (self.new ≡ advanced most self.old) }
        ensures some { OnErr result (IsPartly most self.old self.new) }
    {
        self.works.advance::<J>(most)
    }

    /// Whether nothing is left to do.
    pub fn is_settled(&self) -> bool
        ensures { result ≡ is_settled self.now }
    {
        self.works.is_settled()
    }

    /// What is left to do.
    pub fn rest(&self) -> Rest
        ensures { result ≡ rest_of self.now }
    {
        if self.works.ended {
            Rest::Ended
        } else if self.works.is_idle() {
            Rest::Idle
        } else {
            Rest::More
        }
    }

    /// The steps taken.
    pub fn taken(&self) -> u64
        ensures { result ≡ self.now.taken }
    {
        self.works.taken
    }

    /// The faults met, in order.
    pub fn faults(&self) -> &[Fault]
        ensures { result.now ≡ self.now.faults }
    {
        self.works.faults.as_slice()
    }

    /// The picture that the state shows. What the steps so far have left to be painted is painted now, which wants
    /// no memory and changes nothing of the state; so steps whose picture nobody asks for cost no painting.
    pub fn picture(&mut self) -> &Picture
        ensures* same { sem 𝓛 (MachineStays self.entry) }
        ensures shown { result.now ≡ shown self.old }
    {
        self.works.picture()
    }
}
