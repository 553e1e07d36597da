//! Batches: what is put in front of the work list.
use mh_model::{Effect, Item};

/// What is put at once: all actions of an effect, which are shared, or one item.
#[derive(Clone, Drop)]
pub enum Batch {
    Acts(Effect),
    One(Item),
}
