//! What the programs share: how what a play shows and tells is printed (the bytes of a text in the making, the
//! line of a row of the picture, and the lines between frames), and how files are read as a service.
//!
//! Promise: each function puts, or reads, what the definition of the same matter in `specs/` says, and nothing
//! else. What prints a report and what reads and explains one both stand on these, and nothing here plays.
#![tactic(auto)]

mod late;
mod line;
mod masks;
pub mod reading;
pub mod row;
pub mod tags;
pub mod text;
pub mod told;
pub mod unplayable;
