//! What of a service is known at a place in its texts, for whoever edits them.
//!
//! Promise: each function answers what the definition of the same matter in `specs/` says.
#![tactic(auto)]

mod layout;
mod object;
mod outline;
mod renumbering;
mod role;
mod sense;
mod walk;
mod word;

pub use layout::{Change, changes_of, laid_texts_keep_comments, laid_texts_read_as_before};
pub use object::{definition_in, object_of, spot_over, uses_in};
pub use outline::{Outlined, Pair, outline_of, pairs_of};
pub use renumbering::only_numbers_change;
pub use role::{need_at, wants_reference};
pub use sense::{Sense, inner_of, sense_of};
pub use walk::{Doing, Front, Role, Spot, Stand, at_first, spots_of, stand_before};
pub use word::{Extent, Word, text_of, words_of};
