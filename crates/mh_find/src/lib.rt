//! A search for a script that leads a service to a goal: a fault, work that does not end, a scene, a text.
//!
//! It plays one script after another, and goes on with each by the inputs for which something listens where it ends.
//! It promises nothing of what it proposes: a script is to be played before it is believed, and that none is found
//! does not say that there is none.
#![tactic(auto)]

mod attempt;
mod digest;
mod entry;
pub mod goal;
mod hearing;
mod links;
mod outcome;
mod proposing;
mod script_text;
mod search;
mod stimulus;
mod trial;
mod view;
mod watcher;
mod within;

pub use attempt::Question;
pub use goal::Goal;
pub use proposing::proposal;
pub use watcher::{Unwatched, Watcher};
pub use within::Within;
