//! `Session`: what plays, and the picture that its caller saw last.
ghost use Rattle.std.specs.Prelude.{◌≡◌};
ghost use Rattle.mh_machine.specs.Rest.{rest_of};
ghost use Rattle.redplay_c.specs.Answers.{rest_number};
ghost use Rattle.redplay_c.specs.Calls.{IsPosted, IsAdvanced, bounds_of, counts_of};

use crate::answer::{GOOD, NO_MEMORY};
use crate::crossing::{Bounds, Counts};
use crate::player::Player;
use mh_machine::Rest;
use mh_model::{Input, Picture};
use std::alloc::Global;
use std::marker::Model;

/// What plays, and the picture against which its caller asks what changed. A contract sees both.
#[derive(Drop)]
pub struct Session {
    pub(crate) alloc: Global,
    pub(crate) player: Player,
    pub(crate) seen: Picture,
}

impl Model for Session {
    ghost use Rattle.redplay_c.specs.Playing.{Playing};

    ghost Value = { Playing };

    ghost view = { λ s. record { engine = s.player.play; seal = s.player.seal; seen = s.seen } };
}

impl Session {
    /// Posts an input, and answers 0 or why it is refused.
    pub fn post(&mut self, input: Input) -> u32
        ensures { IsPosted input self.old self.new result }
    {
        self.player.post(self.alloc, input)
    }

    /// Makes so many steps, or as many as there is something to do, and paints once.
    pub fn advance(&mut self, most: u32) -> u32
        ensures { IsAdvanced most self.old self.new result }
    {
        match self.player.advance(most) {
            Ok(()) => GOOD,
            Err(_) => NO_MEMORY,
        }
    }

    /// What is left to do, as a number.
    pub fn rest(&self) -> u32
        ensures { result ≡ rest_number (rest_of self.now.engine.state) }
    {
        match self.player.machine().rest() {
            Rest::More => 0,
            Rest::Idle => 1,
            Rest::Ended => 2,
        }
    }

    /// How many steps were taken, how many may be, and how many faults were met.
    pub fn counts(&self) -> Counts
        ensures { result ≡ counts_of self.now.engine }
    {
        Counts {
            taken: self.player.machine().taken(),
            budget: self.player.budget(),
            faults: self.player.machine().faults().len() as u64,
        }
    }

    /// To how many steps the start and an input of each kind lead at most.
    pub fn bounds(&self) -> Bounds
        ensures { result ≡ bounds_of self.now.engine.bounds }
    {
        let bounds = self.player.bounds();
        Bounds {
            start: bounds.start,
            key: bounds.key,
            tick: bounds.tick,
            stream: bounds.stream,
            engine: bounds.engine,
            arrive: bounds.arrive,
        }
    }
}
