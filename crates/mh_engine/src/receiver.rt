//! `Receiver`: an engine beside the programs of its receiver.
//!
//! The engine itself calls none of them. Before each step it is asked which call the step makes, the
//! program is called, and the engine is told what came of it.
ghost use Rattle.std.specs.Prelude.{◌≡◌, ◌≤◌, map, true, false, None, Ok, Err, IfOk, IfErr, OnOk, OnErr, IsErrOf, IsErrAnd, MatchOption};
ghost use Rattle.std.specs.Borrow.{sem};
ghost use Rattle.std.specs.Io.BufRead.{Rests};
ghost use Rattle.mh_engine.specs.contracts.receiver.Receiver.{the_row};
ghost use Rattle.mh_model.specs.Picture.{shown};
ghost use Rattle.mh_model.specs.State.{begun};
ghost use Rattle.mh_model.specs.Stuck.{front_fault};
ghost use Rattle.mh_model.specs.Limits.{most_steps};
ghost use Rattle.mh_model.specs.Receiver.{IsStep, call_next, told};
ghost use Rattle.mh_model.specs.Step.{is_settled, posted, preset, step};
ghost use Rattle.mh_resident.specs.Coming.{MayCome};
ghost use Rattle.mh_machine.specs.Rest.{answer_of, is_faulted};
ghost use Rattle.mh_laws.specs.Budget.{bound_of};
ghost use Rattle.mh_layers.specs.Known.{top};
ghost use Rattle.mh_machine.specs.Refusal.{is_ready, post_refusal, preset_refusal, step_refusal};
ghost use Rattle.mh_engine.specs.Play.{unbounded, with_more};
ghost use Rattle.mh_engine.specs.Told.{IsTold};

use crate::engine::Engine;
use crate::refusal::{StartError, Unaccepted};
use mh_machine::{Refused, RefusedFile, RefusedWhy, StepError, Stepped};
use mh_model::{File, Input, Outcome, Picture, Signature};
use mh_resident::{Resident, call_program, same_signatures, signatures_of};
use mh_service::Service;
use mh_verify::Accepted;
use std::alloc::{AllocError, Global};

/// An engine that plays a service beside programs of its receiver (ISO/IEC 13522-5,
/// ResidentProgram).
#[derive(Drop)]
pub struct Receiver<P: Resident> {
    pub(crate) engine: Engine,
    pub(crate) programs: Vec<P>,
}

/// An accepted service that was not started beside these programs. Both are handed back.
#[derive(Drop)]
pub struct Unready<P: Drop> {
    pub why: StartError,
    pub accepted: Accepted,
    pub programs: Vec<P>,
}

/// A service that could not be started for want of memory. It is handed back as it was, and so are the
/// programs.
#[derive(Drop)]
pub struct Unequipped<P: Drop> {
    pub service: Service,
    pub programs: Vec<P>,
}

impl<P: Resident> Receiver<P> {
    /// An engine for a service, whether or not a verifier would accept it, that begins on this modified
    /// Julian day, 1,000,000 at most, beside these programs.
    pub fn start_lenient(
        alloc: Global,
        service: Service,
        programs: Vec<P>,
        mjd: u32,
    ) -> Result<Receiver<P>, Unequipped<P>>
        ensures begun { let whole = record service { programs = map P.signature_of programs.items } in
            IfOk result (λ receiver. receiver.engine ≡ record { state = begun whole mjd; accepted = false; bounds = unbounded; budget = top }) }
        ensures programs { IfOk result (λ receiver. receiver.programs ≡ programs) }
        ensures back { IfErr result (λ refused. (refused.service ≡ service) × (refused.programs ≡ programs)) }
    {
        let Ok(signatures) = signatures_of(alloc, programs.as_slice()) else {
            return Err(Unequipped { service, programs });
        };
        match Engine::begin_with(alloc, service, signatures, mjd) {
            Ok(engine) => Ok(Receiver { engine, programs }),
            Err(unstarted) => Err(Unequipped {
                service: unstarted.service,
                programs,
            }),
        }
    }

    /// An engine for a service that the verifier accepted beside these programs, and that begins on this
    /// modified Julian day, 1,000,000 at most: none of its steps finds an item stuck, and its start and each
    /// input lead to no more steps than the verifier has for them, whatever the programs answer. What was
    /// verified beside other programs is refused.
    pub fn start(
        alloc: Global,
        accepted: Accepted,
        programs: Vec<P>,
        mjd: u32,
    ) -> Result<Receiver<P>, Unready<P>>
        ensures begun { IfOk result (λ receiver. receiver.engine
            ≡ record { state = begun accepted.service mjd; accepted = true; bounds = accepted.bounds; budget = accepted.bounds.start }) }
        ensures programs { IfOk result (λ receiver. receiver.programs ≡ programs) }
        ensures same { OnOk result (map P.signature_of programs.items ≡ accepted.service.programs) }
        ensures differ { IfErr result (λ refused. refused.why ≡ StartError.ProgramsDiffer →
            map P.signature_of programs.items ≡ accepted.service.programs → ⊥) }
        ensures back { IfErr result (λ refused. (refused.accepted ≡ accepted) × (refused.programs ≡ programs)) }
    {
        match matching(alloc, programs.as_slice(), accepted.programs()) {
            Ok(signatures) => {
                let begun = Engine::begin(alloc, accepted, signatures, mjd);
                Receiver::of_engine(begun, programs)
            }
            Err(why) => Err(Unready {
                why,
                accepted,
                programs,
            }),
        }
    }

    /// The engine that was begun, beside these programs, or all that is handed back.
    fn of_engine(
        begun: Result<Engine, Unaccepted>,
        programs: Vec<P>,
    ) -> Result<Receiver<P>, Unready<P>>
        ensures begun { IfOk result (λ receiver. begun ≡ Ok receiver.engine) }
        ensures programs { IfOk result (λ receiver. receiver.programs ≡ programs) }
        ensures back { IfErr result (λ refused. (begun ≡ Err (record { why = refused.why; accepted = refused.accepted }))
            × (refused.programs ≡ programs)) }
    {
        match begun {
            Ok(engine) => Ok(Receiver { engine, programs }),
            Err(refused) => Err(Unready {
                why: refused.why,
                accepted: refused.accepted,
                programs,
            }),
        }
    }

    /// The picture that is shown. What is left to be painted is painted now.
    pub fn picture(&mut self) -> &Picture
        ensures* same { sem 𝓛 (Rests (the_row P.row) self.entry (λ n. (n.engine ≡ self.old.engine) × (n.programs ≡ self.old.programs))) }
        ensures shown { result.now ≡ shown self.old.engine.state }
    {
        self.engine.picture()
    }

    /// The engine, for its steps and its faults.
    pub fn engine(&self) -> &Engine
        ensures { result.now ≡ self.now.engine }
    {
        &self.engine
    }

    /// A content file is there before the first move. A refused one is handed back, and nothing changes.
    pub fn preset(&mut self, file: File) -> Result<(), RefusedFile>
        ensures preset { let after = record self.old.engine { state = preset file self.old.engine.state } in
            OnOk result (self.new.engine ≡ after) }
        ensures back { IfErr result (λ refused. refused.file ≡ file) }
        ensures kept { OnErr result (self.new.engine ≡ self.old.engine) }
        ensures same { self.new.programs ≡ self.old.programs }
        ensures refused { MatchOption (preset_refusal file self.old.engine.state)
            (IfErr result (λ refused. refused.why ≡ RefusedWhy.NoMemory))
            (λ why. IsErrAnd result (λ refused. refused.why ≡ why)) }
    {
        self.engine.preset(file)
    }

    /// Adds an input at the end of the queue, and what it is bound to to the budget. A refused one is handed
    /// back, and nothing changes.
    pub fn post(&mut self, input: Input) -> Result<(), Refused>
        ensures posted { let more = bound_of self.old.engine.bounds input in
            let after = record self.old.engine {
              state = posted input self.old.engine.state;
              budget = with_more self.old.engine.budget more;
            } in
            OnOk result (self.new.engine ≡ after) }
        ensures back { IfErr result (λ refused. refused.input ≡ input) }
        ensures kept { OnErr result (self.new.engine ≡ self.old.engine) }
        ensures same { self.new.programs ≡ self.old.programs }
        ensures refused { MatchOption (post_refusal input self.old.engine.state)
            (IfErr result (λ refused. refused.why ≡ RefusedWhy.NoMemory))
            (λ why. IsErrAnd result (λ refused. refused.why ≡ why)) }
    {
        self.engine.post(input)
    }

    /// One step of the machine; where it calls a program, by what that answers. Where memory is refused,
    /// by the program too, everything stays as it was, and the step may be made again: a program that it
    /// calls is called again then.
    pub fn step(&mut self) -> Result<Stepped, StepError>
        ensures step { let may = MayCome P.signature_of P.may_answer self.old.programs.items in
            let signatures = map P.signature_of self.old.programs.items in
            OnOk result (IsStep signatures may self.old.engine.state self.new.engine.state) }
        ensures same { self.new.programs ≡ self.old.programs }
        ensures accepted { self.new.engine.accepted ≡ self.old.engine.accepted }
        ensures bounds { self.new.engine.bounds ≡ self.old.engine.bounds }
        ensures budget { self.new.engine.budget ≡ self.old.engine.budget }
        ensures within { self.new.engine.state.taken ≤ self.new.engine.budget }
        ensures kept { OnErr result (self.new.engine ≡ self.old.engine) }
        ensures answer { IfOk result (λ answer. answer ≡ answer_of self.old.engine.state) }
        ensures never { self.old.engine.accepted ≡ true → front_fault self.old.engine.state ≡ None }
        ensures faultless { IfOk result (λ answer. self.old.engine.accepted ≡ true → is_faulted answer ≡ false) }
        ensures room { OnOk result (self.old.engine.state.taken ≡ most_steps → is_settled self.old.engine.state ≡ true) }
        ensures full { IsErrOf result StepError.CountFull →
            (self.old.engine.state.taken ≡ most_steps) × (is_settled self.old.engine.state ≡ false) }
        ensures refused { MatchOption (step_refusal self.old.engine.state)
            (IfErr result (λ why. (why ≡ StepError.NoMemory) × (is_settled self.old.engine.state ≡ false)))
            (λ why. IsErrOf result why) }
    {
        if !self.engine.is_ready() {
            return self.engine.step();
        }
        match self.ask() {
            Ok(Some(said)) => self.step_by(said),
            Ok(None) => self.engine.step(),
            Err(_) => {
                self.engine.vouch();
                Err(StepError::NoMemory)
            }
        }
    }

    /// What comes of the call that the next step makes, if it makes one.
    fn ask(&self) -> Result<Option<Outcome>, AllocError>
        ensures { let may = MayCome P.signature_of P.may_answer self.now.programs.items in
            let signatures = map P.signature_of self.now.programs.items in
            let call = call_next signatures self.now.engine.state in
            IfOk result (IsTold may call) }
    {
        match self.engine.call_next(self.programs.as_slice())? {
            Some(call) => Ok(Some(call_program(self.programs.as_slice(), &call)?)),
            None => Ok(None),
        }
    }

    /// One step with what a program has said of the call that it makes.
    fn step_by(&mut self, said: Outcome) -> Result<Stepped, StepError>
        requires { is_ready self.old.engine.state ≡ true }
        ensures step { OnOk result (self.new.engine.state ≡ step (told said self.old.engine.state)) }
        ensures same { self.new.programs ≡ self.old.programs }
        ensures accepted { self.new.engine.accepted ≡ self.old.engine.accepted }
        ensures bounds { self.new.engine.bounds ≡ self.old.engine.bounds }
        ensures budget { self.new.engine.budget ≡ self.old.engine.budget }
        ensures within { self.new.engine.state.taken ≤ self.new.engine.budget }
        ensures answer { IfOk result (λ answer. answer ≡ answer_of self.old.engine.state) }
        ensures faultless { IfOk result (λ answer. self.old.engine.accepted ≡ true → is_faulted answer ≡ false) }
        ensures why { IfErr result (λ why. why ≡ StepError.NoMemory) }
        ensures kept { OnErr result (self.new.engine ≡ self.old.engine) }
    {
        step_told(&mut self.engine, said)
    }
}

/// One step of an engine with what a program has said of the call that it makes. Where memory is refused,
/// what was said before stands again.
fn step_told(engine: &mut Engine, said: Outcome) -> Result<Stepped, StepError>
    requires { is_ready engine.old.state ≡ true }
    ensures step { OnOk result (engine.new.state ≡ step (told said engine.old.state)) }
    ensures accepted { engine.new.accepted ≡ engine.old.accepted }
    ensures bounds { engine.new.bounds ≡ engine.old.bounds }
    ensures budget { engine.new.budget ≡ engine.old.budget }
    ensures within { engine.new.state.taken ≤ engine.new.budget }
    ensures answer { IfOk result (λ answer. answer ≡ answer_of engine.old.state) }
    ensures faultless { IfOk result (λ answer. engine.old.accepted ≡ true → is_faulted answer ≡ false) }
    ensures why { IfErr result (λ why. why ≡ StepError.NoMemory) }
    ensures kept { OnErr result (engine.new ≡ engine.old) }
{
    let before = engine.hear(said);
    match engine.step() {
        Ok(answer) => Ok(answer),
        Err(why) => {
            let _ = engine.hear(before);
            Err(why)
        }
    }
}

/// The signatures of programs, where they are those that are wanted.
fn matching<P: Resident>(
    alloc: Global,
    programs: &[P],
    wanted: &[Signature],
) -> Result<Vec<Signature>, StartError>
    ensures found { IfOk result (λ own. own.items ≡ map P.signature_of programs.now) }
    ensures same { OnOk result (map P.signature_of programs.now ≡ wanted.now) }
    ensures differ { IsErrOf result StartError.ProgramsDiffer → map P.signature_of programs.now ≡ wanted.now → ⊥ }
{
    let own = signatures_of(alloc, programs)?;
    if same_signatures(own.as_slice(), wanted) {
        Ok(own)
    } else {
        Err(StartError::ProgramsDiffer)
    }
}
