//! The laws of the object machine, over its definitions alone: from an acceptable service nothing ever goes
//! wrong; what an action puts, hands on and emits is what is said of it beforehand; and the definitions play
//! the examples as their reports say.
//!
//! Promise: each public function is a law, its one clause or clauses; none of them does anything. What plays a
//! service does not wait for them: verifier and engine alone stand on them.
#![tactic(auto)]

pub mod costs;
pub mod describing;
pub mod example;
pub mod headline;
