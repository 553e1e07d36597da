//! What is written of services and groups that are had as bytes: the verdict of a check, the report of a
//! play, a group in the other notation.
//!
//! Promise: where a call answers a status, the sink has taken exactly what is meant for these bytes and
//! choices; after an error it has taken nothing, or a beginning of that. How files are read as a service is
//! left to `mh_told`, and to the program where the bytes come from and go to.
#![tactic(auto)]

mod by_seal;
mod check;
mod convert;
mod material;
mod options;
mod play;
mod play_error;
mod playable;
mod player;
mod preset;
mod reading;
mod report;
mod sealed_play;
mod sealing;
pub mod sink;
mod status;
mod telling;
mod verdict;

pub use check::check_bytes;
pub use convert::{Notation, convert_bytes};
pub use options::Options;
pub use play::play_bytes;
pub use play_error::PlayError;
pub use sealed_play::play_sealed_bytes;
pub use sealing::seal_bytes;
pub use sink::{ListSink, Sink, WriterSink};
pub use status::Status;
