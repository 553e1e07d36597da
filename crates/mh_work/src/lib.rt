//! The work: what links, groups and the lives of objects put, and the list that it is put into.
//!
//! Promise: each is what the definitions of `mh_model` say, exactly, for every state. What an action puts is
//! told by `mh_actions`, and the machine says when something is put.
#![tactic(auto)]

pub mod batch;
pub mod bucket;
pub mod groups;
pub mod hearing;
pub mod lifecycle;
pub mod links;
pub mod portion;
pub mod put;
pub mod work;

pub use batch::Batch;
pub use links::Links;
pub use portion::Front;
pub use put::Put;
pub use work::Work;
