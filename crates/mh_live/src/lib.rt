//! A service at a terminal, key by key: what the bytes of a terminal ask for, the play that answers them, what goes to
//! the terminal, and the script that plays the same.
//!
//! Promise: what goes to the terminal is what `specs/Screen` says of the play, and gives it no order but those of
//! drawing; the script grows by the lines of each input that is posted, and is read as just these. Reading the terminal
//! and the clock is left to the caller.
#![tactic(auto)]

mod asks;
mod below;
mod drawing;
mod hearing;
mod live;
mod post;
mod record;
mod replay;
mod running;
mod screen;

pub use asks::{Ask, asks_of};
pub use drawing::{COLUMNS_WANTED, LINES_WANTED, put_end, put_small, screens_are_drawings};
pub use live::Live;
pub use post::is_sayable;
pub use record::records_are_scripts;
