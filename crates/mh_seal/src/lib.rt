//! The seal of a service: what a head end, which has all of its files, tells receivers that have some of them. It
//! names each group with the digest of its one spelling, says which scenes come late, and states the bounds.
//!
//! Promise: the text of a seal is that of `specs/Text`, and is read just where bytes are one; a digest is SHA-256
//! (FIPS 180-4) of the octets that spell the group by the tags of the profile. Whether the bounds are those of an
//! accepted service is left to who prints it, and who signs a seal, and how, to the broadcaster.
#![tactic(auto)]

mod digest;
pub mod laws;
mod line_value;
mod lines;
mod printing;
mod reading;
mod seal;
mod seal_error;

pub use digest::Digest;
pub use printing::seal_text;
pub use reading::read_seal;
pub use seal::{Seal, SealedBounds, SealedGroup};
pub use seal_error::SealError;
