//! How far a transition has come.
use mh_base::GroupName;

/// How far a transition has come.
#[derive(Drop)]
pub enum Transition {
    /// None has begun.
    Rests,
    /// One waits for the file of this scene, which is late.
    Awaits(GroupName),
    /// One has begun, and its exchange is still to come.
    Begun,
}
