//! Why a service is not read, and so neither played nor explained.
use mh_base::Octets;
use std::alloc::{AllocError, AllocFailed};
use thiserror::Error;

/// What cannot be read, so that nothing is played.
#[derive(Debug, Drop, Error)]
pub enum Unplayable {
    /// A file begins as a group does, and is none: the number of the reason, and the place. Or it is
    /// a content file that cannot be put there, and the place is 0.
    #[error("file {name:?}: {number} at {offset}")]
    File {
        name: Octets,
        number: u32,
        offset: usize,
    },
    /// With this group the files are no service.
    #[error("service: {number} at {group:?}")]
    Service {
        number: u32,
        group: Octets,
    },
    /// The file that gives tags makes no table: 60 with the number of its first wrong line, or 61 with the number of
    /// the first context in which a tag stands twice.
    #[error("tags: {number} at {place}")]
    Tags {
        number: u32,
        place: usize,
    },
    /// The first wrong line of the script.
    #[error("script: line {0}")]
    Script(usize),
    /// Memory was refused, which says nothing of the files.
    #[error("memory was refused")]
    NoMemory,
}

impl From<AllocError> for Unplayable {
    ghost use Rattle.std.specs.Prelude.{◌≡◌};
    ghost use Rattle.mh_told.specs.declared.unplayable.Unplayable.TheVariants.{NoMemory};

    ghost from_gives = { λ _ e. e ≡ NoMemory };

    fn from(_refused: AllocError) -> Unplayable {
        Unplayable::NoMemory
    }
}

impl<T: Drop> From<AllocFailed<T>> for Unplayable {
    ghost use Rattle.std.specs.Prelude.{◌≡◌};
    ghost use Rattle.mh_told.specs.declared.unplayable.Unplayable.TheVariants.{NoMemory};

    ghost from_gives = { λ _ e. e ≡ NoMemory };

    fn from(_refused: AllocFailed<T>) -> Unplayable {
        Unplayable::NoMemory
    }
}
