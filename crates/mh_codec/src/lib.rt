//! The binary notation: groups read from elements of the distinguished encoding rules (ITU-T X.690)
//! and written as such. Which tags stand for what is said by a table. By each table a group has one
//! spelling, and no octets spell two groups.
//!
//! Promise: reading gives the group that the octets spell, or refuses the first element from the left
//! that goes wrong, and then they spell none; writing gives the spelling. What a group holds is left
//! to `mh_group`, what an element is to `mh_der`.
#![tactic(auto)]

mod action;
pub mod codec_error;
mod element;
mod kind;
pub mod laws;
mod member;
mod object;
mod readable;
mod setting;
mod tag_column;
pub mod tag_error;
mod tag_line;
mod tag_lines;
mod tag_look_up;
pub mod tag_table;
mod value;
mod value_readable;
mod writable;
mod writing;
mod writing_action;
mod writing_member;
mod writing_value;

pub use codec_error::{CodecError, Why};
pub use mh_base::LARGEST_FILE;
pub use object::{begins_group, decode_group};
pub use tag_error::TagError;
pub use tag_table::TagTable;
pub use writing::encode_group;
