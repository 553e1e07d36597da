//! The assertion over a table of cases; the rest of it stands in `mh_cases`.
use mh_cases::{Question, first_wrong};
use std::alloc::Global;
use std::process::Abort;

/// Asserts that each question of the table has its answer.
pub fn all_hold<Q: Question>(rt: &impl Abort, alloc: Global, table: &'static str) {
    let wrong = first_wrong::<Q>(alloc, table);
    assert!(rt; wrong.is_empty(), "{wrong}");
}
