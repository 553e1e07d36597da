//! The service: its groups under their names, with every reference resolved once.
//!
//! Promise: what `Service::of_files` answers holds what the files say of their objects, and it
//! refuses what is no service, each refusal with the first group that causes it. What the objects
//! then do is left to `mh_model` and the crates above it.
#![tactic(auto)]

mod acts;
pub mod configurations;
pub mod contents;
pub mod late;
mod refusing;
pub mod resolving;
pub mod room;
pub mod sealed;
pub mod service;
pub mod service_error;
mod values;

pub use contents::ContentNames;
pub use late::{Unmarked, UnmarkedWhy};
pub use refusing::double_name;
pub use sealed::UnfilledWhy;
pub use service::Service;
pub use service_error::{ServiceError, Why};
