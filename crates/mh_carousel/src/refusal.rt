//! Why a content file is not put beside the others.
ghost use Rattle.std.specs.Prelude.{◌≡◌};
ghost use Rattle.mh_carousel.specs.Arrival.{arrival_number};

use mh_model::File;
use std::alloc::AllocError;
use thiserror::Error;

/// Why a file does not arrive.
#[derive(Clone, Copy, Debug, PartialEq, Eq, Error)]
pub enum ArrivalError {
    #[error("memory was refused")]
    NoMemory,
    /// Number 40: a file has more than 65,535 octets.
    #[error("40: the file is too large")]
    TooLarge,
    /// Number 41: there would be more than 1,024 files.
    #[error("41: there are too many files")]
    TooMany,
}

impl From<AllocError> for ArrivalError {
    ghost use Rattle.std.specs.Prelude.{◌≡◌};
    ghost use Rattle.mh_carousel.specs.declared.refusal.ArrivalError.TheVariants.{NoMemory};

    ghost from_gives = { λ _ e. e ≡ NoMemory };

    fn from(_refused: AllocError) -> ArrivalError {
        ArrivalError::NoMemory
    }
}

impl ArrivalError {
    /// The number under which it is reported; want of memory has none.
    pub fn number(self) -> Option<u32>
        ensures { result ≡ arrival_number self }
    {
        match self {
            ArrivalError::NoMemory => None,
            ArrivalError::TooLarge => Some(40),
            ArrivalError::TooMany => Some(41),
        }
    }
}

/// A file that did not arrive. It is handed back.
#[derive(Drop)]
pub struct RefusedArrival {
    pub why: ArrivalError,
    pub file: File,
}
