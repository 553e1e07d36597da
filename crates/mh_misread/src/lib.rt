//! What is wrong with a text that is not read: what stands at the place where reading stopped, what is wanted there,
//! and how it is mended.
//!
//! Promise: what is told is what the definitions in `specs/` say of the bytes of the file, the offset and the number of
//! the refusal, and nothing else. Whether a text is right is left to `mh_text`, and the words come from the tables of
//! `mh_group`, so that a row more in these needs no text here.
#![tactic(auto)]

mod cause;
mod found;
mod gap;
pub mod goal;
mod key_word;
mod limits;
mod mend;
pub mod misread;
pub mod mistake;
pub mod name;
mod nearest;
pub mod part;
mod phrases;
mod piece;
mod resuming;
pub mod slip;
mod span;
mod stack;
mod syntax;
mod token;
mod unknown;
mod wanted;
mod words;

pub use cause::put_cause;
pub use found::put_hex_byte;
pub use mend::put_mend;
pub use misread::{Misread, misread_of};
pub use mistake::{Mistake, mistakes};
pub use nearest::likeness::is_like;
pub use resuming::text_from;
