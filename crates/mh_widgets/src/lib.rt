//! Widgets: groups of objects with a token, lists, entry fields and push buttons. What an action or a key
//! makes of one, what is placed, and which items are put.
//!
//! Promise: each is what the definitions of `mh_model` say, exactly, for every action, every key and
//! every object. Nothing is changed here: `mh_store` carries a change out, and the machine puts items
//! in their place and keeps who interacts.
#![tactic(auto)]

mod buttons;
mod cells;
pub mod counts;
pub mod done;
mod entries;
mod events;
pub mod fields;
pub mod lists;
mod relisting;
pub mod selection;
mod showing;
mod slices;
pub mod tokens;
mod working;

pub use done::{Done, Pressed};
pub use working::worked;
