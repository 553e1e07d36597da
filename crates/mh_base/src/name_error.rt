//! Why a text is not the name of a group.
use std::alloc::AllocError;
use thiserror::Error;

/// Why a text could not be made the name of a group.
#[derive(Clone, Copy, Debug, PartialEq, Eq, Error)]
pub enum NameError {
    /// Number 8: the text is no path, or leads to none.
    #[error("8: the name leads to no group")]
    BadName,
    #[error("memory was refused")]
    NoMemory,
}

impl From<AllocError> for NameError {
    ghost use Rattle.std.specs.Prelude.{◌≡◌};
    ghost use Rattle.mh_base.specs.declared.name_error.NameError.TheVariants.{NoMemory};

    ghost from_gives = { λ _ e. e ≡ NoMemory };

    fn from(_refused: AllocError) -> NameError {
        NameError::NoMemory
    }
}
