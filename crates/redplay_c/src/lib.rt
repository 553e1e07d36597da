//! The engine and the verifier as functions of C: what `include/redplay.h` declares.
//!
//! Promise: each call does what the engine's, or the verifier's, own call does, by that one's clauses, and answers 0 or a
//! number that says why not. A handle that has no session is never followed. What a caller owes (lengths, places that do not
//! overlap, a handle that is not copied, one call at a time) is said in the header, and nothing here can see it.
#![tactic(auto)]

mod answer;
mod awaiting;
mod bringing;
mod choice;
mod crossing;
mod exports;
mod handle;
mod keys;
mod opening;
mod player;
mod preset;
mod reading;
mod sealed_opening;
mod session;
mod showing;
mod start_refusal;
mod telling;
mod texts;
mod verdict;
