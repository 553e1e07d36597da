//! How far a search goes.

/// How far the search goes.
#[derive(Clone, Copy)]
pub struct Within {
    /// How many inputs a script has at most.
    pub inputs: u32,
    /// How many steps are made behind each input at most, and at the start.
    pub steps: u32,
    /// How many plays are tried at most.
    pub plays: u32,
}
