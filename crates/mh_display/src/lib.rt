//! The display: the picture of what lies on the stack (`mh_stack`), which is kept and painted anew where it has changed.
//!
//! Promise: after a repaint the picture is that of `mh_model`'s definitions, cell by cell. A text's lines
//! are taken from `mh_layout` while they are painted. When to paint is left to the machine.
#![tactic(auto)]

mod art;
mod cells;
mod characters;
mod frame;
mod looks;
mod marked;
mod painting;
mod panel;
mod panels;
mod rows;
pub mod screen;
mod spoiling;
pub mod stroke;
mod strokes;
mod texts;
mod window;

pub use mh_model::Picture;
pub use mh_stack::{Stack, Walk};
pub use rows::changed_rows;
pub use screen::Screen;
pub use stroke::{goes_through, stroke_of};
