//! Content files that were handed in, and the objects that wait for one.
//!
//! Promise: the files are those of the definitions of `mh_model`, in the order in which their names
//! came, and each object waits for one file at most. Whether an input may bring one more file is
//! told without copying any, and a file that is refused is handed back with a number. What a file
//! brings to the objects that wait for it is left to the machine.
#![tactic(auto)]

mod ahead;
pub mod carousel;
mod files;
pub mod refusal;
mod slot;
mod tables;
mod waits;
mod walking;

pub use carousel::{Carousel, is_large};
pub use refusal::{ArrivalError, RefusedArrival};
