//! The lay-out of texts: line by line, read off the text's bytes, so that it takes no memory.
//!
//! Promise: `Lines` are the lines that `mh_model`'s definitions say of a text in its box, the upper ones first, and a line's
//! scalars are read where they are wanted. What is shown of them, and in which colours, is left to the display.
#![tactic(auto)]

mod breaking;
mod laws;
pub mod lines;
pub mod scalars;

pub use laws::{columns_are_covered, one_division, rows_are_covered};
pub use lines::{LaidLine, Lines};
pub use scalars::{behind_first, first_of};
