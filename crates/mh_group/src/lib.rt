//! What a group file says: classes, attributes, actions, references, and the tables that tell what
//! fits where. A value of `Group` is one that the tables allow.
#![tactic(auto)]

pub mod action;
pub mod action_name;
mod action_word;
pub mod attribute;
pub mod class;
mod class_actions;
mod class_attributes;
mod fit;
pub mod group;
pub mod justification;
pub mod misfit;
mod needs;
pub mod number;
pub mod reference;
pub mod same;
pub mod shape;
pub mod words;
pub mod written;
pub mod written_name;

pub use action::{Action, Content, Effect, EventData, Parameter, Typed};
pub use action_name::ActionName;
pub use attribute::Attribute;
pub use class::Class;
pub use group::Group;
pub use justification::Justification;
pub use misfit::{Misfit, MisfitWhy};
pub use number::Number;
pub use reference::{Generic, Ref};
pub use same::same_group;
pub use shape::{Need, Shape};
pub use words::{event_of_word, event_word, kind_of_word, kind_word};
pub use written::{Field, Ingredient, Member, NextScene, Position, Setting, Written};
pub use written_name::WrittenName;
