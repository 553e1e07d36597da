//! The functions of the library: what holds behind each is told by its clauses.

mod about;
mod files;
mod lives;
mod looks;
mod scripts;
mod turns;
