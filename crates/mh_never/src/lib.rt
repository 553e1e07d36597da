//! What never happens in the runs of a service: what no run ever runs, which events never come, which actions are never done,
//! and which effects nothing ever puts to work.
//!
//! Promise: each public function is a law over the definitions, its clauses; none of them does anything.
#![tactic(auto)]

pub mod example;
pub mod law;
