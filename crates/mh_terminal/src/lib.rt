//! Pictures in a terminal.
//!
//! Promise: a frame is what `specs/Frames` says of the picture, and no character of it is an order to the terminal.
#![tactic(auto)]

mod frame;

pub use frame::{harmless, put_character, put_frame, put_plain, put_row, turns};
