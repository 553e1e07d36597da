//! Why there are no cases of a file.
use std::alloc::{AllocError, AllocFailed};

#[derive(Debug, Drop)]
pub enum Fault {
    /// The line with this number, counted from 1, is none of a file of cases, and why.
    Line(usize, &'static str),
    NoMemory,
}

impl<T: Drop> From<AllocFailed<T>> for Fault {
    fn from(_refused: AllocFailed<T>) -> Fault {
        Fault::NoMemory
    }
}

impl From<AllocError> for Fault {
    fn from(_refused: AllocError) -> Fault {
        Fault::NoMemory
    }
}
