//! Why the engine refuses a call; what its machine refuses stands in `mh_machine`.
ghost use Rattle.std.specs.Prelude.{◌≡◌};
ghost use Rattle.mh_engine.specs.Answer.{start_number};

use mh_machine::StepError;
use mh_verify::Accepted;
use std::alloc::AllocError;
use thiserror::Error;

/// Why an accepted service was not started.
#[derive(Clone, Copy, Debug, PartialEq, Eq, Error)]
pub enum StartError {
    #[error("memory was refused")]
    NoMemory,
    /// Number 50: the engine's programs are not those with which the service was verified.
    #[error("50: the programs differ from those that were verified")]
    ProgramsDiffer,
}

impl From<AllocError> for StartError {
    ghost use Rattle.std.specs.Prelude.{◌≡◌};
    ghost use Rattle.mh_engine.specs.declared.refusal.StartError.TheVariants.{NoMemory};

    ghost from_gives = { λ _ e. e ≡ NoMemory };

    fn from(_refused: AllocError) -> StartError {
        StartError::NoMemory
    }
}

impl StartError {
    /// The number under which it is reported; want of memory has none.
    pub fn number(self) -> Option<u32>
        ensures { result ≡ start_number self }
    {
        match self {
            StartError::NoMemory => None,
            StartError::ProgramsDiffer => Some(50),
        }
    }
}

/// An accepted service that was not started. It is handed back.
#[derive(Drop)]
pub struct Unaccepted {
    pub why: StartError,
    pub accepted: Accepted,
}

/// A run that ended before its last move.
#[derive(Clone, Copy, PartialEq, Eq)]
pub struct RunEnd {
    /// How many moves were made.
    pub made: usize,
    pub why: StepError,
}
