//! Why files are no service: the reason, its number, and the group.
ghost use Rattle.std.specs.Prelude.{◌≡◌};
ghost use Rattle.mh_service.specs.Numbers.{why_number};

use mh_base::GroupName;
use std::alloc::{AllocError, AllocFailed};
use thiserror::Error;

/// What is wrong with a group of the service.
#[derive(Clone, Copy, Debug, PartialEq, Eq)]
pub enum Why {
    /// Its name came before.
    DoubleName,
    /// It is to be the start, and is not there.
    NoStart,
    /// Two of its ingredients have one number.
    DoubleNumber,
    /// It is to be the start, and is no application.
    NotAnApplication,
    /// With it a limit is passed.
    Limit,
    /// It writes a name that leads to no group.
    BadReference,
}

/// Why files could not be made a service.
#[derive(Debug, Drop, Error)]
pub enum ServiceError {
    #[error("{}: {group:?}", .why.number())]
    Refused { why: Why, group: GroupName },
    #[error("memory was refused")]
    NoMemory,
}

impl Why {
    /// The number under which the refusal is reported.
    pub fn number(self) -> u32
        ensures { result ≡ why_number self }
    {
        match self {
            Why::DoubleName => 30,
            Why::NoStart => 31,
            Why::DoubleNumber => 32,
            Why::NotAnApplication => 33,
            Why::Limit => 34,
            Why::BadReference => 35,
        }
    }
}

impl From<AllocError> for ServiceError {
    ghost use Rattle.std.specs.Prelude.{◌≡◌};
    ghost use Rattle.mh_service.specs.declared.service_error.ServiceError.TheVariants.{NoMemory};

    ghost from_gives = { λ _ e. e ≡ NoMemory };

    fn from(_refused: AllocError) -> ServiceError {
        ServiceError::NoMemory
    }
}

impl<T: Drop> From<AllocFailed<T>> for ServiceError {
    ghost use Rattle.std.specs.Prelude.{◌≡◌};
    ghost use Rattle.mh_service.specs.declared.service_error.ServiceError.TheVariants.{NoMemory};

    ghost from_gives = { λ _ e. e ≡ NoMemory };

    fn from(_refused: AllocFailed<T>) -> ServiceError {
        ServiceError::NoMemory
    }
}
