//! The object machine of `mh_model`, played one step at a time.
//!
//! Promise: each call is the machine's, exactly, for every service and every input; what cannot be done is refused
//! by its number, and leaves everything as it was. A step costs no more than what it changes and what it puts.
#![tactic(auto)]

mod committing;
mod inputs;
mod judging;
mod looks;
pub mod machine;
mod next_call;
mod passing;
mod plan;
mod posting;
pub mod refusal;
mod sealed;
mod stage;
pub mod stepped;
mod stepping;
mod taking;
pub mod unstarted;
mod works;

pub use inputs::{engine_event, key_event, register_of};
pub use judging::{Free, Judged, Judging};
pub use machine::Machine;
pub use mh_model::Rest;
pub use refusal::{Refused, RefusedFile, RefusedWhy, StepError};
pub use stepped::Stepped;
pub use unstarted::Unstarted;
