//! Why a report could not be written to its end.
use std::alloc::AllocError;
use thiserror::Error;

/// Why playing stopped before its report was whole: what went out is a beginning of the report.
#[derive(Clone, Copy, Debug, PartialEq, Eq, Error)]
pub enum PlayError {
    #[error("memory was refused")]
    NoMemory,
    #[error("a write failed")]
    Write,
}

impl From<AllocError> for PlayError {
    ghost use Rattle.std.specs.Prelude.{◌≡◌};
    ghost use Rattle.mh_report.specs.declared.play_error.PlayError.TheVariants.{NoMemory};

    ghost from_gives = { λ _ e. e ≡ NoMemory };

    fn from(_refused: AllocError) -> PlayError {
        PlayError::NoMemory
    }
}
