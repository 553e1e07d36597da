//! What is left to do.

/// What is left to do.
#[derive(Clone, Copy, PartialEq, Eq)]
pub enum Rest {
    /// The next step does something.
    More,
    /// There is no work and nothing that waits.
    Idle,
    /// The application has quit.
    Ended,
}
