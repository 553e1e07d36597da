//! Services that are tried: what the steps of a script do, the state behind some of them, what scripts cover, and which script
//! leads to a fault, a scene or a text.
//!
//! Promise: a trace, a state and a coverage are functions of the files, the scripts and what is chosen, and a script that is
//! found leads where it says (`specs/Led`), as `specs/Tried` says. Where the bytes come from and go to is left to the program.
#![tactic(auto)]

mod covering;
mod directory;
mod faulting;
mod finding;
mod naming;
mod opening;
mod running;
mod standing;
pub mod tried;

pub use covering::cover_of;
pub use directory::directory_of;
pub use faulting::{complaint_of, fault_places};
pub use finding::{fault_script, script_to};
pub use mh_find::{Goal, Unwatched, Watcher, Within};
pub use mh_trace::{Form, Telling};
pub use opening::{engine_of, refusal_of};
pub use standing::{Part, state_of};
pub use tried::{Chosen, trace_of};
