//! `SealedEngine`: an engine that begins while late scenes are not there, by the seal that a head end printed.
//!
//! Promise: it begins as the service of the seal with stubs for its late scenes, and the file of a scene is refused by 58
//! where its digest is not the sealed one. What the seal says is believed: with a wrong one actions may meet faults,
//! which are noted, and the bounds are as good as the seal.
ghost use Rattle.std.specs.Prelude.{◌≡◌, None, Some, IfOk, IfErr, IsErrAnd, MatchOption, OnOk, OnErr};
ghost use Rattle.std.specs.Borrow.{sem};
ghost use Rattle.std.specs.Option.{option_copied};
ghost use Rattle.mh_model.specs.declared.input.Obstacle.{Obstacle};
ghost use Rattle.mh_model.specs.Picture.{shown};
ghost use Rattle.mh_model.specs.State.{begun};
ghost use Rattle.mh_model.specs.Step.{advanced, preset, preset_obstacle, step};
ghost use Rattle.mh_machine.specs.Refusal.{preset_refusal, refusal_for};
ghost use Rattle.mh_machine.specs.Rest.{rest_of};
ghost use Rattle.mh_machine.specs.Sealed.{brought_obstacle, posted_brought};
ghost use Rattle.mh_machine.specs.Working.{IsPartly};
ghost use Rattle.mh_seal_laws.specs.Seal.{is_unfit};
ghost use Rattle.mh_seal_laws.specs.Told.{bounds_in, by_told};
ghost use Rattle.mh_laws.specs.Budget.{bound_of};
ghost use Rattle.mh_engine.specs.Lent.{SealedEngineStays};
ghost use Rattle.mh_engine.specs.Play.{with_more};
ghost use Rattle.mh_engine.specs.Sealed.{IsToldOf, awaited_by, sealed_refusal, service_of, taken_up};

pub mod law;
mod starting;

use mh_base::GroupName;
use mh_group::Group;
use mh_layers::Bounds;
use mh_machine::{Judged, Machine, Refused, RefusedFile, RefusedWhy, Rest, StepError, Stepped};
use mh_model::{Fault, File, Input, Picture, Transition};
use mh_seal::{Seal, SealedBounds};
pub use starting::Unsealed;
use starting::{is_unfit, service_of};
use std::alloc::{AllocError, Global};
use std::marker::Model;

/// An engine that goes by a seal. A contract sees the state of the machine, the seal, and how many steps may be taken for
/// what was posted so far, if it is the seal of an accepted service. A call that is refused, for want of memory too,
/// leaves everything as it was, and may be made again.
#[derive(Drop)]
pub struct SealedEngine {
    machine: Machine,
    seal: Seal,
    budget: u64,
}

impl Model for SealedEngine {
    ghost use Rattle.mh_engine.specs.Sealed.{SealedPlay};

    ghost Value = { SealedPlay };

    ghost view = { λ e. record { state = e.machine; seal = e.seal; budget = e.budget } };
}

impl SealedEngine {
    /// An engine for the service of the seal, that begins on this modified Julian day, 1,000,000 at most. Of the files
    /// those are taken that the seal tells of, but for late ones, which are posted when they are there.
    pub fn start(
        alloc: Global,
        seal: Seal,
        files: Vec<(GroupName, Group)>,
        mjd: u32,
    ) -> Result<SealedEngine, Unsealed>
        ensures begun { IfOk result (λ engine. engine ≡ record { state = begun (service_of seal files.items) mjd; seal = seal; budget = seal.bounds.start }) }
        ensures accepted { OnOk result (sealed_refusal seal files.items ≡ None) }
        ensures refused { IfErr result (IsToldOf (sealed_refusal seal files.items)) }
    {
        let service = service_of(alloc, &seal, files)?;
        let budget = seal.bounds.start;
        match Machine::new(alloc, service, mjd) {
            Ok(machine) => Ok(SealedEngine {
                machine,
                seal,
                budget,
            }),
            Err(_) => Err(Unsealed::NoMemory),
        }
    }

    /// A content file is there before the first move. A refused one is handed back, and nothing changes.
    pub fn preset(&mut self, file: File) -> Result<(), RefusedFile>
        ensures preset { OnOk result (self.new ≡ record self.old { state = preset file self.old.state }) }
        ensures accepted { OnOk result (preset_obstacle file self.old.state ≡ None) }
        ensures back { IfErr result (λ refused. refused.file ≡ file) }
        ensures kept { OnErr result (self.new ≡ self.old) }
        ensures refused { MatchOption (preset_refusal file self.old.state) (IfErr result (λ refused. refused.why ≡ RefusedWhy.NoMemory)) (λ why. IsErrAnd result (λ refused. refused.why ≡ why)) }
    {
        self.machine.preset(file)
    }

    /// Adds an input at the end of the queue, and its bound to the budget. The group of a scene's file takes the place of
    /// the scene's stub; one that is not the sealed one is refused by 58. What is refused is handed back, and nothing
    /// changes.
    pub fn post(&mut self, alloc: Global, input: Input) -> Result<(), Refused>
        ensures posted { OnOk result (self.new ≡ taken_up input self.old) }
        ensures accepted { OnOk result (brought_obstacle (is_unfit (by_told self.old.seal) input) input self.old.state ≡ None) }
        ensures barred { IfErr result (λ refused. (o : Obstacle) → refused.why ≡ refusal_for o → brought_obstacle (is_unfit (by_told self.old.seal) input) input self.old.state ≡ Some o) }
        ensures back { IfErr result (λ refused. refused.input ≡ input) }
        ensures kept { OnErr result (self.new ≡ self.old) }
    {
        let budget = self.budget_behind(&input);
        match self.differs(alloc, &input) {
            Ok(differs) => self.post_so(input, differs, budget),
            Err(_) => Err(Refused {
                why: RefusedWhy::NoMemory,
                input,
            }),
        }
    }

    /// The budget once this input is taken up.
    fn budget_behind(&self, input: &Input) -> u64
        ensures { result ≡ with_more self.now.budget (bound_of (bounds_in self.now.seal.bounds) input.now) }
    {
        self.budget.saturating_add(self.bounds().of_input(input))
    }

    /// Whether the input is the file of a scene that is not the sealed one.
    fn differs(&self, alloc: Global, input: &Input) -> Result<bool, AllocError>
        ensures { IfOk result (λ differs. differs ≡ is_unfit (by_told self.now.seal) input.now) }
    {
        is_unfit(alloc, &self.seal, input)
    }

    /// The same, where it is known whether the file is another than the sealed one, and what the budget will be.
    fn post_so(&mut self, input: Input, differs: bool, budget: u64) -> Result<(), Refused>
        ensures posted { OnOk result (self.new ≡ record self.old { state = posted_brought input self.old.state; budget = budget }) }
        ensures accepted { OnOk result (brought_obstacle differs input self.old.state ≡ None) }
        ensures barred { IfErr result (λ refused. (o : Obstacle) → refused.why ≡ refusal_for o → brought_obstacle differs input self.old.state ≡ Some o) }
        ensures back { IfErr result (λ refused. refused.input ≡ input) }
        ensures kept { OnErr result (self.new ≡ self.old) }
    {
        match self.machine.post_sealed(input, differs) {
            Ok(()) => {
                self.budget = budget;
                Ok(())
            }
            Err(refused) => Err(refused),
        }
    }

    /// One step of the machine; an action that cannot be done is a fault, and noted.
    pub fn step(&mut self) -> Result<Stepped, StepError>
        ensures step { OnOk result (self.new ≡ record self.old { state = step self.old.state }) }
        ensures kept { OnErr result (self.new ≡ self.old) }
    {
        self.machine.step::<Judged>()
    }

    /// Makes so many steps, or as many as there is something to do and as are counted. Where memory is refused some of
    /// the steps were made.
    pub fn advance(&mut self, most: u32) -> Result<(), AllocError>
        ensures all { OnOk result (self.new ≡ record self.old { state = advanced most self.old.state }) }
        ensures some { OnErr result (IsPartly most self.old.state self.new.state) }
        ensures seal { self.new.seal ≡ self.old.seal }
        ensures budget { self.new.budget ≡ self.old.budget }
    {
        self.machine.advance::<Judged>(most)
    }

    /// The picture that is shown. What the steps so far have left to be painted is painted now, which wants no memory and
    /// changes nothing else.
    pub fn picture(&mut self) -> &Picture
        ensures* same { sem 𝓛 (SealedEngineStays self.entry) }
        ensures shown { result.now ≡ shown self.old.state }
    {
        self.machine.picture()
    }

    /// The scene for whose file a transition waits, if one does: the one that a receiver fetches first.
    pub fn awaited(&self) -> Option<&GroupName>
        ensures { option_copied result ≡ awaited_by self.now.state.transition }
    {
        match self.machine.transition() {
            Transition::Awaits(scene) => Some(scene),
            _ => None,
        }
    }

    /// The steps taken.
    pub fn taken(&self) -> u64
        ensures { result ≡ self.now.state.taken }
    {
        self.machine.taken()
    }

    /// The most steps that may be taken for what was posted so far, if it is the seal of an accepted service.
    pub fn budget(&self) -> u64
        ensures { result ≡ self.now.budget }
    {
        self.budget
    }

    /// The bounds that the seal states: the law's, if it is the seal of an accepted service.
    pub fn bounds(&self) -> Bounds
        ensures { result ≡ bounds_in self.now.seal.bounds }
    {
        bounds_of(self.seal.bounds)
    }

    /// The faults met, in order.
    pub fn faults(&self) -> &[Fault]
        ensures { result.now ≡ self.now.state.faults }
    {
        self.machine.faults()
    }

    /// The machine, to be looked at.
    pub fn machine(&self) -> &Machine
        ensures { result.now ≡ self.now.state }
    {
        &self.machine
    }

    /// What is left to do.
    pub fn rest(&self) -> Rest
        ensures { result ≡ rest_of self.now.state }
    {
        self.machine.rest()
    }
}

fn bounds_of(bounds: SealedBounds) -> Bounds
    ensures { result ≡ bounds_in bounds }
{
    Bounds {
        start: bounds.start,
        key: bounds.key,
        tick: bounds.tick,
        stream: bounds.stream,
        engine: bounds.engine,
        arrive: bounds.arrive,
    }
}
