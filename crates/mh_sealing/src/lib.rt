//! What a head end does before it seals a service, the seal that it prints, and what a receiver reads beside one.
//!
//! Promise: with the bounds of the accepted service what is told is a seal of it, as the laws of `mh_seal_laws` want it.
//! That the service is accepted is left to the caller. What is read beside a seal are those of its groups that are here from
//! the start, and the content files that it names.
#![tactic(auto)]

mod here;
mod order;
mod telling;

pub use here::{contents_by, groups_here};
pub use order::in_order;
pub use telling::seal_of;
