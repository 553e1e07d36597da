//! What the command lines of the programs share: the arguments that several have, what was found for them, why words ask
//! for nothing, and the files that are named.
//!
//! Promise: an argument is the rule of its name in `specs/Arguments`, a value that of `specs/Values`; words are refused just
//! where clap's definitions refuse them, with want of memory told apart (`specs/Refused`). Texts of errors are left to clap.
#![tactic(auto)]

pub mod arguments;
mod matching;
mod no_task;
mod program;
mod reading;
mod source;
mod telling;
pub mod values;

pub use arguments::{LAST_DAY, with_choices};
pub use matching::matches_of;
pub use mh_exit::Exit;
pub use no_task::NoTask;
pub use program::{bare, described};
pub use reading::{Choice, choice_of, files_of, read_option};
pub use source::{Source, source_of};
pub use telling::{tell_no_task, tell_unread, words_of};
