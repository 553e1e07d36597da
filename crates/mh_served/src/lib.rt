//! A conversation with an editor: what it opens and changes is kept, what is found of its services is told after each change, and
//! what it asks is answered. What lies on the disk, and what is found of a service, is asked of the caller (`Workspace`).
//!
//! Promise: whatever is heard, each call returns. A text is what the changes make of it. What is told of a service is what is
//! found of it: each finding stands under the path of its file, and there once, and its range is that of its bytes in the units
//! of the editor.
#![tactic(auto)]

mod about;
mod asked;
mod asking;
mod capabilities;
mod changes;
mod conversation;
mod diagnostics;
mod documents;
mod frames;
mod mending;
mod noticing;
mod paths;
mod placing;
mod publishing;
mod reply;
mod service;
mod session;
mod sharing;
mod workspace;

pub use conversation::{Conversation, End};
pub use mh_answers::File;
pub use publishing::each_finding_is_told_once;
pub use workspace::{Listed, Workspace};
