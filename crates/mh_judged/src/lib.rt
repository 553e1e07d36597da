//! What is found of the files of a folder, as a list of findings: what cannot be read, or what the verifier refuses, or what
//! of the accepted service never happens and what seems to be a mistake in it; each with its place.
//!
//! Promise: the list is that of `specs/Judged` and no other, and what is told as `never` happens in no run. Causes and mends
//! are those that `mh_why` and `mh_lint` tell; how a list is printed is left to `mh_findings`.
#![tactic(auto)]

mod accepted;
mod advice;
mod judged;
mod marked;
mod mistakes;
mod never;
mod noted;
mod others;
mod refused;
mod related;
mod sites;
mod spans;
mod unread;

pub use judged::findings_on;
pub use unread::unread_path;
