//! The files of a service: which lie in a folder, and what bytes they have.
//!
//! Promise: what is handed out of a source is all that it had, or its first 1,048,577 bytes, whatever it does, with no read
//! more than that wants; where a read fails no bytes are handed out. Which files lie in a folder is the system's word.
#![tactic(auto)]

mod folder;
mod reading;
pub mod source;
mod tally;
mod unread;

pub use folder::{Folder, folder_of};
pub use reading::{read_file, read_input, read_named};
pub use source::{ReaderSource, Source, read_short, read_whole};
pub use tally::Tally;
pub use unread::Unread;
