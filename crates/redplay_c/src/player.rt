//! `Player`: what plays in a session, an engine that has all files of its service or one that goes by a seal.
ghost use Rattle.std.specs.Prelude.{◌≡◌, ◌≤◌, ◌⊎◌, None, OnOk, OnErr};
ghost use Rattle.mh_engine.specs.Posts.{by_seal, whole};
ghost use Rattle.mh_machine.specs.Working.{IsPartly};
ghost use Rattle.mh_model.specs.Step.{advanced};
ghost use Rattle.redplay_c.specs.Answers.{no_memory};
ghost use Rattle.redplay_c.specs.Playing.{engined, of_sealed, of_whole};
ghost use Rattle.redplay_c.specs.Players.{IsPreset, IsTaken, Takes};

use crate::answer::{GOOD, number_of};
use mh_engine::{Engine, Refused, RefusedFile, RefusedWhy, SealedEngine};
use mh_layers::Bounds;
use mh_machine::Machine;
use mh_model::{File, Input};
use std::alloc::{AllocError, Global};
use std::marker::Model;

/// An engine of either kind.
#[derive(Drop)]
pub enum Kind {
    Whole(Engine),
    Sealed(SealedEngine),
}

/// What plays. A contract sees the state, the bounds and the budget, and the seal, if there is one.
#[derive(Drop)]
pub struct Player {
    pub(crate) kind: Kind,
}

impl Model for Player {
    ghost use Rattle.redplay_c.specs.Playing.{Engined, engined};

    ghost Value = { Engined };

    ghost view = { λ p. engined p.kind };
}

impl Player {
    pub fn of(kind: Kind) -> Player
        ensures { result ≡ engined kind }
    {
        Player { kind }
    }

    /// The machine, to be looked at.
    pub fn machine(&self) -> &Machine
        ensures { result.now ≡ self.now.play.state }
    {
        match &self.kind {
            Kind::Whole(engine) => engine.machine(),
            Kind::Sealed(engine) => engine.machine(),
        }
    }

    /// The most steps that may be taken for what was posted so far.
    pub fn budget(&self) -> u64
        ensures { result ≡ self.now.play.budget }
    {
        match &self.kind {
            Kind::Whole(engine) => engine.budget(),
            Kind::Sealed(engine) => engine.budget(),
        }
    }

    /// To how many steps the start and an input of each kind lead at most.
    pub fn bounds(&self) -> Bounds
        ensures { result ≡ self.now.play.bounds }
    {
        match &self.kind {
            Kind::Whole(engine) => engine.bounds(),
            Kind::Sealed(engine) => engine.bounds(),
        }
    }

    /// A content file is there before the first move. A refused one is handed back, and nothing changes.
    pub fn preset(&mut self, file: File) -> Result<(), RefusedFile>
        ensures { IsPreset file self.old self.new result }
    {
        match &mut self.kind {
            Kind::Whole(engine) => engine.preset(file),
            Kind::Sealed(engine) => engine.preset(file),
        }
    }

    /// Posts an input, and answers 0 or why it is refused.
    pub fn post(&mut self, alloc: Global, input: Input) -> u32
        ensures { IsTaken input self.old self.new result }
    {
        match &mut self.kind {
            Kind::Whole(engine) => post_whole(engine, input),
            Kind::Sealed(engine) => post_sealed(engine, alloc, input),
        }
    }

    /// Makes so many steps, or as many as there is something to do.
    pub fn advance(&mut self, most: u32) -> Result<(), AllocError>
        ensures all { OnOk result (self.new ≡ record self.old { play = record self.old.play { state = advanced most self.old.play.state } }) }
        ensures some { OnErr result (IsPartly most self.old.play.state self.new.play.state) }
        ensures same { self.new ≡ record self.old { play = record self.old.play { state = self.new.play.state } } }
        ensures within { self.old.seal ≡ None → self.new.play.state.taken ≤ self.new.play.budget }
    {
        match &mut self.kind {
            Kind::Whole(engine) => engine.advance(most),
            Kind::Sealed(engine) => engine.advance(most),
        }
    }
}

fn post_whole(engine: &mut Engine, input: Input) -> u32
    ensures { Takes whole input (of_whole engine.old) (of_whole engine.new) result }
{
    match engine.post(input) {
        Ok(()) => GOOD,
        Err(refused) => number_of(why_refused(refused)),
    }
}

fn post_sealed(engine: &mut SealedEngine, alloc: Global, input: Input) -> u32
    ensures { Takes (by_seal engine.old.seal) input (of_sealed engine.old) (of_sealed engine.new) result ⊎ ((result ≡ no_memory) × (of_sealed engine.new ≡ of_sealed engine.old)) }
{
    match engine.post(alloc, input) {
        Ok(()) => GOOD,
        Err(refused) => number_of(why_refused(refused)),
    }
}

/// Why an input was refused, without the input.
fn why_refused(refused: Refused) -> RefusedWhy
    ensures { result ≡ refused.why }
{
    let Refused { why, input: _ } = refused;
    why
}
