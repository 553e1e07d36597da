//! The verifier: which services never go wrong.
//!
//! Promise: a service is accepted only where it is so by the definitions of `mh_laws`, and refused, but for want of memory,
//! only where it is not; a refusal names what comes first. That nothing goes wrong in runs of what is accepted is left to
//! the crates that play it.
#![tactic(auto)]

pub mod accepted;
mod alone;
mod bounding;
mod candidates;
mod coming;
mod first_refusal;
mod members;
mod named_reference;
pub mod refusal;
mod refusal_order;
mod samples;
mod scope;
mod verdict;
pub mod verifying;

pub use accepted::{Accepted, Warrant};
pub use bounding::MOST_COST;
pub(crate) use coming::Coming;
pub use refusal::{Found, Place, Refusal, RefusalKind};
pub use verifying::verify;
