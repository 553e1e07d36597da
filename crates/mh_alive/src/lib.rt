//! What may come to be in runs of an accepted service, and so what never does: which objects may run, with which
//! data events may come, which links may be put to work, and which may hear the timer or the key that they wait for.
//!
//! Promise: the sets are closed as the laws of `mh_never` want it, and what is in none of them never runs, never
//! comes, is never put to work and never hears. Nothing is said of what is in them.
#![tactic(auto)]

mod alive;
mod gathering;
mod hearing;
mod law;
mod puts;
mod references;
mod registers;
mod runners;
mod sendings;
mod set_timers;
mod settings;
mod tellings;
mod there;

pub use alive::{Alive, alive_of};
pub use law::stays_reached;
pub use sendings::is_key_data;
