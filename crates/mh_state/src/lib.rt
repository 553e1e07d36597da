//! A state of a machine, told: its configuration, variables, what waits and what is shown; and one of its objects.
//!
//! Promise: what is put is a function of the state, as `specs/State` says. Nothing of it gives a terminal an order.
#![tactic(auto)]

mod cell;
mod object;
mod state;
mod status;

pub use cell::{put_cell, topmost_is_shown};
pub use object::put_object;
pub use state::put_state;
