//! `Arrow`: an action of an active effect that puts another effect to work, and how it does.
use crate::cause::Cause;
use mh_base::{ObjRef, Seq};
use mh_group::ActionName;
use mh_model::Event;

/// To what a variable refers, or which item a list has.
#[derive(Drop)]
pub struct Held {
    /// The variable or the list.
    pub by: ObjRef,
    /// The object that it refers to, or the item.
    pub at: ObjRef,
}

/// What puts an effect to work.
#[derive(Drop)]
pub enum By {
    /// An event for which a link waits: its source and type, and the data that the link names.
    Event(Event),
    /// A call of a slot, told by its number through the slots of the object, from 0 on.
    Slot(usize),
    /// A transition by which the group is entered.
    Entered,
    /// A transition by which the group is left.
    Left,
}

/// An action that puts an effect to work: that of the next arrow.
#[derive(Drop)]
pub struct Arrow {
    /// The effect whose action it is.
    pub cause: Cause,
    /// The number of the action through the effects of the object, from 1 on.
    pub index: usize,
    pub action: ActionName,
    /// To what its variables refer then, and which items lists have.
    pub held: Seq<Held>,
    /// What puts the next effect to work.
    pub by: By,
}
