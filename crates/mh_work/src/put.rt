//! What one action puts, without a list.
use mh_model::{Effect, Item};

/// What one action puts.
#[derive(Drop)]
pub enum Put {
    Nothing,
    One(Item),
    /// The first one in front.
    Two(Item, Item),
    /// All actions of an effect.
    Acts(Effect),
}
