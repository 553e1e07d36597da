//! What is still to come: what waits until it is taken, the timers, with what an action makes of them,
//! and the present moment.
//!
//! Promise: the queue is first in, first out, and tells without counting how many inputs wait and how
//! much time they bring; timers are due in the order that the definitions of `mh_model` give; no tick
//! that waits leads past the last moment. What else an input may be refused for, and what follows when
//! something is taken, is left to the machine.
#![tactic(auto)]

pub mod agenda;
mod counting;
mod order;
pub mod queue;
mod timer_key;
pub mod timers;
pub mod timing;
mod turn;

pub use agenda::Agenda;
pub use queue::Queue;
pub use timers::Timers;
