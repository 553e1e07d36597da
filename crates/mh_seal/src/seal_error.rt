//! Why bytes are no seal.
ghost use Rattle.std.specs.Prelude.{◌≡◌, Some, None};
ghost use Rattle.mh_seal.specs.Numbers.{error_number};

use std::alloc::AllocError;
use thiserror::Error;

/// Why bytes are no seal.
#[derive(Clone, Copy, Debug, PartialEq, Eq, Error)]
pub enum SealError {
    /// The line with this number, from 1, is not one that a seal has there.
    #[error("line {0} of the seal is wrong")]
    Line(usize),
    /// It is a seal of another version of this notation.
    #[error("the seal is of another version")]
    Version,
    #[error("memory was refused")]
    NoMemory,
}

impl SealError {
    /// The number under which the refusal is reported; none where memory was refused.
    pub fn number(self) -> Option<u32>
        ensures { result ≡ error_number self }
    {
        match self {
            SealError::Line(_) => Some(70),
            SealError::Version => Some(71),
            SealError::NoMemory => None,
        }
    }
}

impl From<AllocError> for SealError {
    ghost use Rattle.std.specs.Prelude.{◌≡◌};
    ghost use Rattle.mh_seal.specs.declared.seal_error.SealError.TheVariants.{NoMemory};

    ghost from_gives = { λ _ e. e ≡ NoMemory };

    fn from(_refused: AllocError) -> SealError {
        SealError::NoMemory
    }
}
