//! What the tests of several crates share, and what no play is needed for: tables of cases, small services,
//! groups and how they are made and read.
//!
//! It stands on the notations alone, so that their tests need not wait for the machine. Only tests call it, and
//! what it answers is promised nowhere.
#![tactic(auto)]

pub mod building;
pub mod examples;
pub mod groups;
mod reading;
pub mod scenes;
mod service;
mod table;

pub use reading::{profile, refusal};
pub use service::{Named, add_named, named};
pub use table::{Question, are, behind, bytes, first_wrong, number, placed, repeated, said, word};
