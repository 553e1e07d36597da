//! The object machine on paper: what a service, a state, an item, a rule, a step, a run and a picture
//! are, in `specs/`, and the few plain types that those definitions and the engine share.
//!
//! Verifier and engine both stand on these definitions; what one proves of a service the other plays by.
#![tactic(auto)]

pub mod act;
pub mod config;
pub mod edit;
pub mod event;
pub mod fault;
pub mod file;
pub mod held;
pub mod input;
pub mod interaction;
pub mod item;
pub mod key;
pub mod kinds;
pub mod known;
pub mod object;
pub mod operator;
pub mod parts;
pub mod picture;
pub mod program;
pub mod rest;
pub mod sort;
pub mod time;
pub mod transition;
mod wrong;

pub use act::{Act, Argument, Effect, Target};
pub use config::Config;
pub use edit::Edit;
pub use event::Event;
pub use fault::{Fault, FaultKind, Reason};
pub use file::{File, Wait};
pub use held::{Held, Properties, Property};
pub use input::{Input, LONGEST_TICK, Move, Obstacle, Waiting};
pub use interaction::Interaction;
pub use item::Item;
pub use key::{KEYS, Key};
pub use object::listing::{Entry, Listing};
pub use object::member::Member;
pub use object::shared_group::SharedGroup;
pub use object::{Body, Fixed, FixedPart, Object};
pub use operator::Operator;
pub use picture::Picture;
pub use picture::cell::Cell;
pub use picture::drawing::{Drawing, Drawings, Figure, Point, Spot, Stroke};
pub use picture::line::{Form, Line};
pub use program::{Builtin, Call, Now, Outcome, Param, Plain, Signature};
pub use rest::Rest;
pub use sort::Sort;
pub use time::{Moments, Timer};
pub use transition::Transition;
pub use wrong::calls::{fits_param, same_plain};
pub use wrong::{Rank, Wrong};
