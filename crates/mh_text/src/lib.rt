//! The textual notation: tokens over the bytes of a file, the group that the tokens write, the printed
//! form of a group, and where things stand in a text: actions, lists of members, classes, numbers and
//! names; and through which variables an action goes.
//!
//! Promise: reading returns on every input, with a group that the tables allow, or with the first
//! place from the left at which the text goes wrong; and what is printed of a group is read as that
//! group. What a group holds is left to `mh_group`.
#![tactic(auto)]

mod effect;
mod field;
mod form;
mod keyword;
pub mod landmark;
pub mod laws;
mod lexing;
mod mark;
pub mod object;
mod octet_text;
mod place;
mod printing;
mod setting;
mod several;
mod sign;
pub mod text_error;
pub mod through;
pub mod token;
mod value;
mod value_form;
mod variables;
mod walk;

pub use landmark::landmarking::landmarks;
pub use landmark::{Landmark, Sight};
pub use mark::marking::marks;
pub use mark::{Mark, mark_of};
pub use mh_base::LARGEST_FILE;
pub use object::{begins_group, read_group};
pub use printing::print_group;
pub use text_error::{TextError, Why};
pub use through::Through;
pub use token::kind::TokenKind;
pub use token::{Token, Tokens};
pub use variables::variables_at;
