//! What is played beside a service: the commands of a script, a line each, and the content files among the files of
//! the service.
//!
//! Promise: a script is read as the commands that its lines say, or refused by the number of the first line that says
//! none; the content files are those that are no group and that a group of the service names, in order. What a command
//! does is left to whoever plays it.
#![tactic(auto)]

mod contents;
mod scene_line;
mod script;
mod words;

pub use contents::read_contents;
pub use script::{Command, RUN_LIMIT, ScriptError, read_script};
pub use words::{key_name, key_named};
