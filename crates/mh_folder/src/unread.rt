//! Why a file was not read.
use std::alloc::{AllocError, AllocFailed};
use thiserror::Error;

/// Why there are no bytes of a file.
#[derive(Debug, Drop, Error)]
pub enum Unread {
    /// The file of this name cannot be read.
    #[error("{0} cannot be read")]
    File(String),
    #[error("memory was refused")]
    NoMemory,
}

impl<T: Drop> From<AllocFailed<T>> for Unread {
    fn from(_refused: AllocFailed<T>) -> Unread {
        Unread::NoMemory
    }
}

impl From<AllocError> for Unread {
    ghost use Rattle.std.specs.Prelude.{◌≡◌};
    ghost use Rattle.mh_folder.specs.declared.unread.Unread.TheVariants.{NoMemory};

    ghost from_gives = { λ _ e. e ≡ NoMemory };

    fn from(_refused: AllocError) -> Unread {
        Unread::NoMemory
    }
}
