//! What an action comes to: the values of its arguments, what is wrong with it, what it makes of
//! one object and of the display stack, what that answers, what it puts, what it loads, and what
//! goes into a program that it calls and out of it.
//!
//! Promise: each is what the definitions of `mh_model` say, exactly, for every action and every
//! state. No object is changed here: `mh_store` carries a change out, `mh_work` has the list that
//! what is put is put into, and the machine says when something is put and fills receivers.
#![tactic(auto)]

pub mod answers;
pub mod arguments;
pub mod calling;
pub mod changes;
pub mod content;
pub mod few;
mod fields;
mod items;
pub mod judging;
mod known_now;
mod looks;
mod numerals;
pub mod ordering;
pub mod putting;
mod variables;

pub use variables::fits_value;
