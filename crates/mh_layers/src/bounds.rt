//! `Bounds`: the most steps to which the start of a service, and an input of each kind, can lead.
//!
//! Promise: each kind of input has the bound that the definitions give it.
ghost use Rattle.std.specs.Prelude.{◌≡◌, ◌<◌, ◌≤◌, IfSome, IfNone};
ghost use Rattle.mh_laws.specs.Budget.{AreSmall, bound_of};
ghost use Rattle.mh_layers.specs.Bounding.{IsFirstAbove, bound_by, kind_word};

use mh_model::Input;
use std::marker::Model;

/// What is counted apart: the start of a service, and inputs by their kinds.
#[derive(Clone, Copy, Debug, PartialEq, Eq)]
pub enum InputKind {
    Start,
    Key,
    Tick,
    Stream,
    Engine,
    Arrive,
}

impl InputKind {
    /// The word by which the kind is told.
    pub fn word(self) -> &'static [u8]
        ensures { result.now ≡ kind_word self }
    {
        match self {
            InputKind::Start => b"start",
            InputKind::Key => b"key",
            InputKind::Tick => b"tick",
            InputKind::Stream => b"stream",
            InputKind::Engine => b"engine",
            InputKind::Arrive => b"arrive",
        }
    }
}

/// The most steps to which the start and an input of each kind can lead. A number that 64 bits cannot tell is the
/// largest that they can.
#[derive(Clone, Copy)]
pub struct Bounds {
    pub start: u64,
    pub key: u64,
    pub tick: u64,
    pub stream: u64,
    pub engine: u64,
    pub arrive: u64,
}

impl Model for Bounds {
    ghost use Rattle.mh_laws.specs.Budget.{Bounds as BoundsLem};

    ghost Value = { BoundsLem };

    ghost view = { λ b. record {
      start = b.start;
      key = b.key;
      tick = b.tick;
      stream = b.stream;
      engine = b.engine;
      arrive = b.arrive;
    } };

    ghost inverse = { λ b. record {
      start = b.start;
      key = b.key;
      tick = b.tick;
      stream = b.stream;
      engine = b.engine;
      arrive = b.arrive;
    } };
}

impl Bounds {
    /// The bound of this kind.
    pub fn of(&self, kind: InputKind) -> u64
        ensures { result ≡ bound_by self.now kind }
    {
        match kind {
            InputKind::Start => self.start,
            InputKind::Key => self.key,
            InputKind::Tick => self.tick,
            InputKind::Stream => self.stream,
            InputKind::Engine => self.engine,
            InputKind::Arrive => self.arrive,
        }
    }

    /// The bound of an input.
    pub fn of_input(&self, input: &Input) -> u64
        ensures { result ≡ bound_of self.now input.now }
    {
        match input {
            Input::Key(_) => self.key,
            Input::Tick(_) => self.tick,
            Input::Stream(_) => self.stream,
            Input::Engine(_) => self.engine,
            Input::Arrive(_) | Input::Scene(..) => self.arrive,
        }
    }

    /// The first kind whose bound is above this.
    pub fn first_above(&self, most: u64) -> Option<InputKind>
        ensures above { IfSome result (λ kind. IsFirstAbove most self.now kind) }
        ensures small { IfNone result (AreSmall most self.now) }
    {
        if self.start > most {
            return Some(InputKind::Start);
        }
        if self.key > most {
            return Some(InputKind::Key);
        }
        if self.tick > most {
            return Some(InputKind::Tick);
        }
        if self.stream > most {
            return Some(InputKind::Stream);
        }
        if self.engine > most {
            return Some(InputKind::Engine);
        }
        if self.arrive > most {
            return Some(InputKind::Arrive);
        }
        None
    }
}
