//! What `redplay` prints of a service, explained: its verdict, with places in the files, causes and
//! mends, with the dearest ways of its inputs and with the lines of its script; and the lines of `lint`
//! on an accepted service.
//!
//! Promise: what is explained is exactly what is defined for the output and the files, and gives a
//! terminal no order. Where the bytes come from, and where the text goes, is left to `mh_look`.
#![tactic(auto)]

pub mod explanation;
mod files;
mod lint;
mod numbers;
mod paint;
mod place;
mod script;
mod verdict;
mod ways;
mod wrap;

pub use explanation::case::{Case, case_of, no_case};
pub use explanation::{Known, explanations_are_harmless, why};
pub use files::named_file::NamedFile;
pub use lint::lint_of;
pub use mh_lint::{Allowed, Asked};
pub use paint::{begins_with, colours_are_all_that_is_added, painted};
pub use place::{place_text, places_are_harmless, without_terminator};
pub use script::posts::{behind_stop, up_to_stop};
pub use verdict::{Verdict, verdict_on, verdict_text};
pub use ways::ways_of;
