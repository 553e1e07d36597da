//! Evidence: whether what a refusal carries shows what it says.
//!
//! Promise: the answer is that of the definition of evidence. Nothing is looked at but the refusal and its service; no flow
//! is found, no layers are laid, and no memory is taken.
#![tactic(auto)]

mod asked;
mod chains;
mod claims;
mod effects;
mod events;
mod evidence;
mod links;
mod questions;
mod rounds;
mod sites;
mod there;
mod view;
mod wrongs;
mod wrongs_arguments;
mod wrongs_calls;
mod wrongs_kinds;

pub use evidence::evidence_holds;
pub use rounds::arrows_are_causes;
