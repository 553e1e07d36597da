//! What an editor is answered about the files of a service: where objects are defined and named, how one is renumbered, what a
//! word means, what may stand at a place, and what a file is made of.
//!
//! Promise: each function returns on every input. Definitions, references, the edits of a new number, symbols and folds are
//! those of the definitions in `specs/`; a new number changes the tokens that are the number of the object and no others. What
//! is said of a word and what is proposed are by the tables, without a theorem.
#![tactic(auto)]

mod actions;
mod attributes;
mod candidates;
mod classes;
mod colours;
mod completion;
mod events;
mod folds;
mod hover;
mod layout;
mod locations;
mod objects;
mod paths;
mod renaming;
mod standing;
mod symbols;
mod texts;

pub use colours::{colour_text, colours_in};
pub use completion::completions;
pub use folds::folds_in;
pub use hover::hover_at;
pub use layout::layout_edits;
pub use locations::{definition_at, references_to};
pub use objects::{File, file_named, object_at, spots_in};
pub use paths::{is_path_of, name_in, path_of, uri_of, uri_of_path};
pub use renaming::{is_taken, number_of, renamed, renumbered_range};
pub use symbols::{push_service_symbols, symbols_in};
