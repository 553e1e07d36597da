//! The functions of the library: what holds before and behind each is told in `include/redplay.h` and by its clauses.

mod about;
mod inputs;
mod lives;
mod turns;
mod verdicts;
