//! Layers: what every effect of a service costs, and its rank, or that there is a cycle; and the most that its start and
//! an input of each kind can cost.
//!
//! Promise: what is laid is the exact cost of each node, cut at the largest number of 64 bits, with a rank above those
//! of all that its price counts; a cycle is told only where no ranks are. Nodes are found on demand, from roots that the
//! caller names. What nodes come to is walked by `mh_prices`, over a view of the configuration (`walk.rt`). Of the effects that
//! put themselves to work the first is told, with the first of its shortest cycles.
#![tactic(auto)]

mod arrows;
pub mod bounds;
pub mod bridge;
pub mod cause;
pub mod cycle;
mod effects;
pub mod laws;
pub mod layers;
pub mod laying;
pub(crate) mod listening;
pub(crate) mod numbered;
pub mod numbered_node;
mod numbering;
mod price;
mod ways;

pub use arrows::arrow::{Arrow, By, Held};
pub use bounds::{Bounds, InputKind};
pub use cause::Cause;
pub use cycle::first_cycle;
pub use layers::{Layers, lay_service};
pub use laying::costs::{Costs, Laid};
pub use laying::sums::CostOrMissing;
pub use laying::{LayersError, Laying, Prices, lay};
pub use listening::listeners_are_exact;
pub use numbered::numbers_are_names;
pub use numbered_node::{Hears, NumberedNode};
pub use ways::dearest_ways;
pub use ways::way::{Stage, Way};
