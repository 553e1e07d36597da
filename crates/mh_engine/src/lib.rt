//! The engine: the object machine of `mh_machine`, with the verdict on its service and a budget of steps, and
//! runs of it.
//!
//! Promise: whatever is posted and however many steps are taken, the state and the picture are those of
//! the machine's definitions, and an engine whose service was accepted never meets a stuck item and takes no
//! more steps than the bounds of its start and of the inputs that were accepted come to.
#![tactic(auto)]

mod beside;
pub mod engine;
pub mod receiver;
pub mod refusal;
mod running;
pub mod runs;
pub mod sealed;

pub use engine::Engine;
pub use mh_machine::{Refused, RefusedFile, RefusedWhy, Rest, StepError, Stepped, Unstarted};
pub use receiver::{Receiver, Unequipped, Unready};
pub use refusal::{RunEnd, StartError, Unaccepted};
pub use runs::run;
pub use sealed::{SealedEngine, Unsealed};
