//! The words that every other crate speaks: names of groups, references, values, colours, boxes on
//! the screen and the types of events; and what both notations share of readings and limits.
//!
//! Promise: a name that a group writes leads to one path or to none, and the numbers and the sorts
//! of events are those of the profile. What a group holds is left to `mh_group`.
#![tactic(auto)]

pub mod area;
pub mod colour;
pub mod event;
pub mod group_name;
pub mod limits;
mod mixing;
pub mod name_error;
pub mod obj_ref;
pub mod octets;
pub mod pair;
pub mod seq;
pub mod shared;
pub mod value;

pub use area::Area;
pub use colour::Colour;
pub use event::EventType;
pub use group_name::GroupName;
pub use limits::{LARGEST_FILE, LONGEST_LIST};
pub use mixing::are_same_bytes;
pub use name_error::NameError;
pub use obj_ref::ObjRef;
pub use octets::Octets;
pub use pair::both;
pub use seq::Seq;
pub use shared::Shared;
pub use value::{KINDS, Kind, Value};
