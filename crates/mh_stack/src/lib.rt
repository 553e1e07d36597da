//! The display stack: references in an order in which each is found and moved in constant time.
//!
//! Promise: each change of a `Stack` is that of `mh_model`'s definitions, and none but `reserve` wants memory.
#![tactic(auto)]

mod line;
mod linked;
mod places;
mod ring;
pub mod stack;
pub mod walk;

pub use stack::Stack;
pub use walk::Walk;
