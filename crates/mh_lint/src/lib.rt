//! What authors are told of an accepted service: what never happens in it, by theorem, and notes, without one; each with the
//! place where it stands.
//!
//! Promise: what is found is in none of the sets of `mh_alive`, whose laws say that it never happens in any run. A note is what
//! `specs/Notes` says of what is written, and no more. The lines are those of `specs/Telling` and `specs/NoteLines`.
#![tactic(auto)]

mod acts;
mod ending;
mod finding;
mod findings;
mod grounds;
mod lint;
mod note;
mod note_lines;
mod notes;
mod noting;
mod parts;
mod place;
mod reasons;
mod rule;
mod seen;
mod sharing;
mod sights;
mod sources;
mod targets;
mod telling;
mod timers;
mod unheard;
mod uses;

pub use finding::Finding;
pub use findings::{findings_never_happen, findings_of};
pub use grounds::Grounds;
pub use lint::{Asked, lint_text};
pub use note::Note;
pub use note_lines::is_allowed;
pub use notes::notes_of;
pub use rule::{Allowed, RULES, Rule};
pub use telling::{object_of, put_object, put_words};
