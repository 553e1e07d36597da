//! What an editor and a program that answers it say to each other: messages in their frames, places in a text, and changes of
//! one.
//!
//! Promise: each function answers what the definition of the same matter in `specs/` says.
#![tactic(auto)]

mod asked;
mod counter;
mod edit;
mod frame;
mod head;
mod position;
mod told;
mod uri;

pub use asked::{is_set, number_at, place_at, position_of, range_of, text_at};
pub use counter::Counter;
pub use edit::{Range, edited};
pub use frame::{Frame, frame_in, frames_read_back, head_for};
pub use position::{Position, Unit, offset_at, places_lead_back, position_at};
pub use told::{Fault, answer, notice, position_value, range_value, refusal};
pub use uri::{escaped, unescaped};
