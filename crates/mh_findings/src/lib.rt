//! What is found of a service as values, and lists of them told in the forms that other programs read: a line each as
//! compilers print them, an object of JSON each, or an annotation of a workflow each.
//!
//! Promise: each form has one entry for each finding, in their order, and the entry is what `specs/` says of that finding
//! alone. A text of JSON reads back as the finding. What is found, and where it stands, is left to the caller.
#![tactic(auto)]

mod finding;
mod format;
mod github;
mod json;
mod message;
mod short;
mod words;

pub use finding::{Finding, Grade, Related, Site};
pub use format::{Format, put_findings};
pub use github::each_has_an_annotation;
pub use json::{findings_read_back, json_of};
pub use short::each_has_a_line;
pub use words::Words;
