//! Why nothing was tried.
use mh_folder::Unread;
use mh_told::unplayable::Unplayable;
use std::alloc::{AllocError, AllocFailed};
use std::io;

/// Why nothing was tried.
#[derive(Drop)]
pub enum Failure {
    /// A file cannot be read, or memory was refused to read it.
    Unread(Unread),
    /// The service or the script cannot be read.
    Unplayable(Unplayable),
    /// The file of this name cannot be written.
    Unwritable(String),
    /// Memory or writing failed.
    Failed,
}

impl From<Unread> for Failure {
    fn from(unread: Unread) -> Failure {
        Failure::Unread(unread)
    }
}

impl From<Unplayable> for Failure {
    fn from(why: Unplayable) -> Failure {
        match why {
            Unplayable::NoMemory => Failure::Failed,
            _ => Failure::Unplayable(why),
        }
    }
}

impl From<AllocError> for Failure {
    fn from(_refused: AllocError) -> Failure {
        Failure::Failed
    }
}

impl<T: Drop> From<AllocFailed<T>> for Failure {
    fn from(_refused: AllocFailed<T>) -> Failure {
        Failure::Failed
    }
}

impl From<io::Error> for Failure {
    fn from(_error: io::Error) -> Failure {
        Failure::Failed
    }
}
