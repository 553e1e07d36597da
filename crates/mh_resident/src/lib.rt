//! Resident programs: the six that each engine has, how a call finds a program by its name, and
//! what the maker of a receiver implements to add one (ISO/IEC 13522-5, ResidentProgram; ETSI ES
//! 202 184, resident programs).
//!
//! Promise: a built-in program answers what its definition says, and a program of the receiver is
//! found only behind the built-in names. When a program is called, and what becomes of its answer,
//! is left to the machine.
#![tactic(auto)]

mod answer;
mod answers;
mod builtin_program;
mod builtins;
mod calling;
mod octets;
mod resident;
mod residents;
mod same;
mod signatures;

pub use answer::{Answer, CallFailed};
pub use answers::answer_of;
pub use builtin_program::BuiltinProgram;
pub use builtins::{builtin_named, params_of, word};
pub use resident::Resident;
pub use residents::{call_program, program_named, signatures_of};
pub use same::{same_signature, same_signatures};
pub use signatures::{params_for, program_name, takes};
