//! What a machine does, told step by step: a line a step, and which actions were done.
//!
//! Promise: a trace is what `specs/Trace` says of the commands and of the machine from which they begin, and
//! nothing else; its steps are those of the run. Nothing that a line shows gives a terminal an order. How files
//! are read as a service, and where a trace goes, is left to the caller.
#![tactic(auto)]

mod changes;
pub mod cover;
mod directory;
mod ears;
pub mod form;
mod head;
pub mod json;
mod outcome;
pub mod run;
mod seen;
pub mod short;
pub mod site;
mod sites;
pub mod tracer;
mod why;
pub mod words;

pub use changes::json::shown_ref;
pub use cover::Covered;
pub use directory::Directory;
pub use form::{Form, Telling};
pub use seen::glance::copied_refs;
pub use site::{EffectKind, Site};
pub use tracer::Tracer;
pub use tracer::calls::{post_copy, preset_copy};
pub use words::put_ref;
