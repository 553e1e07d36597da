//! `Stop`: a place in a line from which its characters are counted.

/// A place in a line at which no character is cut in two.
#[derive(Clone, Copy)]
pub(crate) struct Stop {
    /// Where the line begins.
    pub(crate) start: usize,
    /// How many bytes and how many characters of the line stand before the place.
    pub(crate) before: usize,
    pub(crate) column: usize,
}
