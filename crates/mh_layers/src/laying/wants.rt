//! `Wants`: the nodes that were asked for and have no place, each once.
//!
//! Promise: none. It is advice on what to look at first; what is left out of it is asked for again.

use crate::numbered_node::{Hears, NumberedNode};
use std::alloc::{AllocError, Global};
use std::cell::Cell;

/// For how many nodes there is room at first.
const FIRST_ROOM: usize = 4_096;

/// The nodes that were asked for since they were last forgotten.
#[derive(Drop)]
pub(crate) struct Wants {
    /// As they came.
    nodes: Vec<Cell<NumberedNode>>,
    count: Cell<usize>,
    /// Under each mark the place of the last node that was noted under it, behind the number of its round.
    marked: Vec<Cell<u64>>,
    round: Cell<u32>,
}

fn no_nodes(alloc: Global, room: usize) -> Result<Vec<Cell<NumberedNode>>, AllocError> {
    let mut nodes = Vec::with_capacity(alloc, room)?;
    for _ in 0..room {
        nodes.push(Cell::new(NumberedNode::Enter(0)))?;
    }
    Ok(nodes)
}

fn no_marks(alloc: Global, room: usize) -> Result<Vec<Cell<u64>>, AllocError> {
    let mut marked = Vec::with_capacity(alloc, room)?;
    for _ in 0..room {
        marked.push(Cell::new(0))?;
    }
    Ok(marked)
}

impl Wants {
    /// Nothing was asked for.
    pub fn new(alloc: Global) -> Result<Wants, AllocError> {
        Wants::with_room(alloc, FIRST_ROOM)
    }

    fn with_room(alloc: Global, room: usize) -> Result<Wants, AllocError> {
        let nodes = no_nodes(alloc, room)?;
        let marked = no_marks(alloc, room.saturating_mul(2))?;
        Ok(Wants {
            nodes,
            count: Cell::new(0),
            marked,
            round: Cell::new(1),
        })
    }

    /// Makes room for twice as many, and forgets those that were asked for.
    pub fn widen(&mut self, alloc: Global) -> Result<(), AllocError> {
        *self = Wants::with_room(alloc, self.nodes.len().saturating_mul(2))?;
        Ok(())
    }

    /// Whether there was no room for all that were asked for.
    pub fn is_full(&self) -> bool {
        self.nodes.len() <= self.count.get()
    }

    /// Notes a node, if there is room and it is not known to be noted.
    pub fn note(&self, node: NumberedNode) {
        let place = self.count.get();
        if place < self.nodes.len() && !self.is_noted(node, place) {
            self.nodes[place].set(node);
            self.count.set(place + 1);
        }
    }

    /// Whether the node is the last that was noted under its mark in this round. If not, it is from now on, at this place.
    fn is_noted(&self, node: NumberedNode, place: usize) -> bool {
        let count = self.marked.len() as u64;
        if count == 0 {
            return false;
        }
        let slot = (mark(&node) % count) as usize;
        let last = self.marked[slot].get();
        if last >> 32 == self.round.get() as u64 && self.is_at(last & 0xFFFF_FFFF, node) {
            return true;
        }
        self.marked[slot].set(((self.round.get() as u64) << 32) | (place as u64 & 0xFFFF_FFFF));
        false
    }

    fn is_at(&self, place: u64, node: NumberedNode) -> bool {
        match self.nodes.get(place as usize) {
            Some(noted) => noted.get() == node,
            None => false,
        }
    }

    /// How many were asked for.
    pub fn len(&self) -> usize {
        self.count.get()
    }

    /// One that was asked for.
    pub fn at(&self, place: usize) -> Option<NumberedNode> {
        match self.nodes.get(place) {
            Some(node) => Some(node.get()),
            None => None,
        }
    }

    /// Forgets what was asked for.
    pub fn forget(&self) {
        self.count.set(0);
        self.round.set(self.round.get().wrapping_add(1));
    }
}

/// A number for a node: equal nodes have one, and others seldom the same.
fn mark(node: &NumberedNode) -> u64 {
    match node {
        NumberedNode::Effect(config, object, number) => {
            mixed(mixed(mixed(1, *config), *object), *number)
        }
        NumberedNode::Fired(config, object, _, hears) => {
            mixed(mixed(mixed(2, *config), *object), heard(hears))
        }
        NumberedNode::Entry(object, _, hears) => mixed(mixed(3, *object), heard(hears)),
        NumberedNode::Change(config, object) => mixed(mixed(4, *config), *object),
        NumberedNode::Leave(config, _) => mixed(5, *config),
        NumberedNode::Enter(config) => mixed(6, *config),
        NumberedNode::Taken(config, _) => mixed(7, *config),
    }
}

fn heard(hears: &Hears) -> usize {
    match hears {
        Hears::Plain => 0,
        Hears::Any => 1,
        Hears::With(number) => number.wrapping_add(2),
    }
}

fn mixed(mark: u64, number: usize) -> u64 {
    let sum = (mark.rotate_left(5) ^ number as u64).wrapping_mul(0x9E37_79B9_7F4A_7C15);
    sum ^ (sum >> 32)
}
