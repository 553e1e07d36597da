//! Flow: which configurations of a service are reached, to what each variable may refer and which items each list may
//! have there; and the one walk over what can come to be done in each.
//!
//! Promise: the flow is the least solution; the actions that can come to be done in a configuration are one list, each
//! at its place, in written order; and a chain tells how a reference came to a variable or a list, the first of the
//! shortest, and `nearest_of` the first of several references. What is wrong with an action is left to the crates above.
#![tactic(auto)]

pub mod chain;
mod chart;
mod equipped;
mod finding;
mod fixpoint;
mod flow;
mod index;
mod known;
mod law;
mod lists;
mod opening;
pub mod order;
mod present;
mod references;
pub mod sites;

pub use chain::link::Link;
pub use equipped::Equipped;
pub use finding::flow_of;
pub use flow::{Flow, Held};
pub use known::KnownWith;
pub use law::{chains_say_what_is_held, moves_say_what_is_brought};
pub use present::{Present, is_entered};
pub use sites::Site;
