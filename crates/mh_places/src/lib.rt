//! Places in texts: the line and the column, as authors count them; spans between two of these; and where the objects of a
//! service and their actions stand in its files.
//!
//! Promise: each function answers what the definition of the same matter in `specs/` says.
#![tactic(auto)]

mod counting;
mod directory;
mod place;
mod span;
mod table;

pub use counting::Counter;
pub use directory::Directory;
pub use place::{Place, place_at, put_place};
pub use span::{Point, Span, span_at};
