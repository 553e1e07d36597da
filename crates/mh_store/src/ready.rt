//! `Ready`: an object that is about to be put at its place.
use crate::Boxed;

/// An object with its box, and the place in its group at which it is to be put.
#[derive(Drop)]
pub struct Ready {
    pub place: usize,
    pub kept: Boxed,
}
