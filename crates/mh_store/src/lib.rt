//! The objects that are present, found by their references.
//!
//! Promise: what is found, changed and put in place of other objects is what the definitions of
//! `mh_model` say of plain lists. An object is found by the name of its group and the hash of its
//! number. Beside each object lies its box, which is read anew only where it can
//! change. A text is brought to several objects at once, or to none; so are visibles placed. Nothing
//! of a text is laid out here: the display does that where it is painted. When a change is made, and
//! what follows from it, is left to the machine.
#![tactic(auto)]

pub mod boxed;
mod bringing;
pub mod group;
mod keeping;
pub mod looks;
pub mod objects;
mod places;
mod placing;
mod ready;
mod scene;
mod table;
mod trying;

pub use boxed::Boxed;
pub use group::Group;
pub use objects::Objects;
