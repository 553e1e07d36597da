//! Prices: one walk over what an action, an object, a list and a group come to.
//!
//! Promise: what is summed is what the definition says (`View` of `mh_laws`), whatever is asked of a configuration and
//! whatever is made of a price. Nothing is searched for.
#![tactic(auto)]

mod actions;
mod groups;
mod life;
mod putting;
mod sending;
mod told;
mod view;

pub use actions::{act, acts, done_to};
pub use groups::{enter, leave_all, leave_scene};
pub use life::{change, plain_emit};
pub use told::Told;
pub use view::{Around, Groups, Lists, View};
