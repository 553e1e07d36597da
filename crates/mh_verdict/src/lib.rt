//! What is printed of a verdict: the line on what cannot be read, and the lines on a service that is refused or accepted.
//!
//! Promise: each text is what the definition in `specs/Lines` says, and nothing else. Who reports a verdict and who explains one
//! both stand on it.
#![tactic(auto)]

mod lines;

pub use lines::{accepted_text, complaint_text, refusal_text};
