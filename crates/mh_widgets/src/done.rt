//! What an action or a key makes of a widget.
ghost use Rattle.std.specs.Prelude.{◌≡◌, [], None, false};

use mh_base::ObjRef;
use mh_group::Position;
use mh_model::{Edit, Item};
use std::alloc::Global;

/// What an action makes of a widget, and what follows from it.
#[derive(Drop)]
pub struct Done {
    /// What is changed of the widget itself.
    pub edit: Option<Edit>,
    /// The objects that are placed, and where.
    pub placed: Vec<(ObjRef, Position)>,
    /// What is put, the first one in front.
    pub items: Vec<Item>,
}

/// What a key makes of the widget that interacts.
#[derive(Drop)]
pub struct Pressed {
    pub edit: Option<Edit>,
    /// What is put, the first one in front.
    pub items: Vec<Item>,
    /// Whether the interaction ends.
    pub ends: bool,
}

impl Done {
    /// Nothing at all. It takes no memory.
    pub(crate) fn nothing(alloc: Global) -> Done
        ensures edit { result.edit ≡ None }
        ensures placed { result.placed.items ≡ [] }
        ensures items { result.items.items ≡ [] }
    {
        Done {
            edit: None,
            placed: Vec::new(alloc),
            items: Vec::new(alloc),
        }
    }
}

impl Pressed {
    /// Only this change, and interaction goes on. It takes no memory.
    pub(crate) fn only(alloc: Global, edit: Option<Edit>) -> Pressed
        ensures edit { result.edit ≡ edit }
        ensures items { result.items.items ≡ [] }
        ensures ends { result.ends ≡ false }
    {
        Pressed {
            edit,
            items: Vec::new(alloc),
            ends: false,
        }
    }
}
