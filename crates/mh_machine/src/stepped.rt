//! What a step answers.
use mh_model::Fault;

/// What one step did.
#[derive(Drop)]
pub enum Stepped {
    /// There is nothing to do.
    Idle,
    /// The application has quit, and nothing is done any more.
    Ended,
    /// An item was done, or an input taken.
    Did,
    /// The first item was stuck, and is removed.
    Faulted(Fault),
}
