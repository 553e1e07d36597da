//! `Uses`: what the actions of a service are done to, and what links hear of timers.
//!
//! Promise: what is gathered is what the definitions of the same names in `specs/Uses` say, and the looks at it answer what theirs do.

pub(crate) mod gathering;
pub(crate) mod objects;
pub(crate) mod reading;

ghost use Rattle.std.specs.Prelude.{◌≡◌};
ghost use Rattle.mh_lint.specs.Uses as spec;

use crate::targets::Targets;
use crate::timers::KnownTimers;
use mh_group::ActionName;
use std::marker::Model;

/// What an action changes of an object.
#[derive(Clone, Copy)]
pub enum Change {
    Position,
    Size,
    /// The text, or the label.
    Words,
    /// The colour of the text.
    Colour,
    /// That it runs, or hears.
    Running,
    /// That it interacts.
    Interaction,
}

/// What is moved, given another size, other words, another colour of its text; what is run; which
/// variables are read; what is let interact; which timers are heard and which are set; and that there is a transition, and
/// what unlocks the screen.
#[derive(Drop)]
pub(crate) struct Uses {
    pub moved: Targets,
    pub resized: Targets,
    pub reworded: Targets,
    pub tinted: Targets,
    pub run: Targets,
    pub read: Targets,
    pub touched: Targets,
    pub timers: KnownTimers,
    pub has_transition: bool,
    pub has_unlock: bool,
}

impl Model for Uses {
    ghost use Rattle.mh_lint.specs.Uses.{Uses as UsesValue};

    ghost Value = { UsesValue };

    ghost view = { λ u. record {
      moved = u.moved;
      resized = u.resized;
      reworded = u.reworded;
      tinted = u.tinted;
      run = u.run;
      read = u.read;
      touched = u.touched;
      heard = u.timers.heard;
      timed = u.timers.timed;
      has_transition = u.has_transition;
      has_unlock = u.has_unlock;
    } };
}

/// Whether the action changes this.
pub(crate) fn changes(change: Change, name: ActionName) -> bool
    ensures { result ≡ spec.changes change name }
{
    match change {
        Change::Position => matches!(name, ActionName::SetPosition),
        Change::Size => matches!(name, ActionName::SetBoxSize),
        Change::Words => matches!(name, ActionName::SetData | ActionName::SetLabel),
        Change::Colour => matches!(name, ActionName::SetTextColour),
        Change::Running => matches!(name, ActionName::Run | ActionName::Activate),
        Change::Interaction => matches!(name, ActionName::SetInteractionStatus),
    }
}

/// Whether the action sets a timer.
pub(crate) fn is_timing(name: ActionName) -> bool
    ensures { result ≡ spec.is_timing name }
{
    matches!(name, ActionName::SetTimer)
}
