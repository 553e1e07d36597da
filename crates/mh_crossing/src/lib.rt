//! What archives share that hand services over to a program in C: files that are lent for a call, room for a text, and the
//! numbers that are answered.
//!
//! Promise: files are taken over as they were handed in, or refused because a name is no path; of a text as much stands in the
//! room as there is place for, and its whole length is told. What a handle holds, and what a call does, is left to the archive.
//! What a caller owes (lengths, places that do not overlap) nothing here can see.
#![tactic(auto)]

mod answer;
mod reading;
mod room;
mod source;

pub use answer::{
    GOOD, IN_USE, NO_MEMORY, NO_PATH, NO_SCRIPT, NO_SESSION, OUT_OF_RANGE, name_number,
};
pub use reading::owned_files;
pub use room::{put, put_length};
pub use source::Source;
