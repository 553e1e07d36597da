//! Whoever is told how far a search has come.

/// Whoever is told how far a search has come.
pub trait Watcher {
    /// So many scripts were played; the last one had so many inputs.
    fn tell(&mut self, plays: u32, inputs: usize);
}

/// Whoever is told nothing.
#[derive(Drop)]
pub struct Unwatched;

impl Watcher for Unwatched {
    fn tell(&mut self, _plays: u32, _inputs: usize) {}
}
