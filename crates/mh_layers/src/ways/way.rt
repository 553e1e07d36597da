//! `Way`: what an input of a kind can put to work that costs most, effect by effect.
use crate::bounds::InputKind;
use crate::cause::Cause;
use mh_group::ActionName;
use mh_model::Config;

/// An effect on a way: what it costs, and its action that costs most.
#[derive(Drop)]
pub struct Stage {
    pub cause: Cause,
    /// The most steps to which the effect can lead.
    pub cost: u64,
    /// The number of the action through the effects of the object, from 1 on.
    pub index: usize,
    pub action: ActionName,
    /// The most steps to which the action can lead.
    pub part: u64,
}

/// What the start, or an input of a kind, leads to at most, and the effects that make it dear.
#[derive(Drop)]
pub struct Way {
    pub kind: InputKind,
    /// The configuration in which it costs most.
    pub config: Config,
    /// The most steps to which it can lead.
    pub cost: u64,
    /// The dearest effect that it can put to work, the dearest that this one can, and so on.
    pub stages: Vec<Stage>,
}
