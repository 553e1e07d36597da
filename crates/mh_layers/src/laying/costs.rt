//! The costs that are known so far, by node.
ghost use Rattle.std.specs.Prelude.{◌≡◌, ◌<◌, ◌^◌, [], length, IfOk, OnOk, OnErr};
ghost use Rattle.indexmap.specs.IndexMap.{insert_entry};
ghost use Rattle.mh_layers.specs.Known.{told};
ghost use Rattle.mh_layers.specs.Layering.{cost_in, node_at, laid_in, place_in};
ghost use Rattle.mh_layers.specs.NumberedNodes.{same_node};

use crate::laying::sums::CostOrMissing;
use crate::laying::wants::Wants;
use crate::numbered_node::NumberedNode;
use indexmap::IndexMap;
use std::alloc::{AllocError, Global};
use std::marker::Model;

/// What a node costs, and its rank: those that it counts have lower ones.
#[derive(Clone, Copy)]
pub struct Laid {
    pub cost: u64,
    pub rank: usize,
}

/// What is known of each node that has a place. Beside it stands what was asked for and has none: advice on what to
/// look at first, of which no contract speaks.
#[derive(Drop)]
pub struct Costs {
    places: IndexMap<NumberedNode, Option<Laid>>,
    wants: Wants,
}

impl Model for Costs {
    ghost use Rattle.std.specs.Prelude.{List, Option};
    ghost use Rattle.mh_layers.specs.declared.laying.costs.Laid.{Laid as LaidLem};
    ghost use Rattle.mh_layers.specs.declared.numbered_node.NumberedNode.{NumberedNode as NumberedNodeLem};

    ghost Value = { List (NumberedNodeLem × Option LaidLem) };

    ghost view = { λ c. c.places.entries };
}

impl Costs {
    /// Nothing has a place.
    pub fn new(alloc: Global) -> Result<Costs, AllocError>
        ensures { IfOk result (λ costs. costs ≡ []) }
    {
        let wants = Wants::new(alloc)?;
        Ok(Costs {
            places: IndexMap::new(alloc),
            wants,
        })
    }

    /// What stands at the node's place, if it has one.
    pub fn at(&self, node: &NumberedNode) -> Option<Option<Laid>>
        ensures { result ≡ place_in self.now node.now }
    {
        match self.places.get(node) {
            None => None,
            Some(laid) => Some(*laid),
        }
    }

    /// The cost of a node, or that it is waited for; and a note, if it has no place.
    pub fn get(&self, node: &NumberedNode) -> CostOrMissing
        ensures { result ≡ told (cost_in self.now) node.now }
    {
        match self.at(node) {
            Some(Some(laid)) => Ok(laid.cost),
            Some(None) => Err(*node),
            None => {
                self.wants.note(*node);
                Err(*node)
            }
        }
    }

    /// Cost and rank of a node, if it is laid.
    pub fn laid(&self, node: &NumberedNode) -> Option<Laid>
        ensures { result ≡ laid_in self.now node.now }
    {
        match self.at(node) {
            None => None,
            Some(laid) => laid,
        }
    }

    /// How many nodes have a place.
    pub fn len(&self) -> usize
        ensures all { result ≡ length self.now }
        ensures small { result < 2 ^ 63 }
    {
        self.places.len()
    }

    /// The node of the place with this number.
    pub fn node_at(&self, place: usize) -> Option<NumberedNode>
        ensures { result ≡ node_at self.now place }
    {
        match self.places.get_index(place) {
            None => None,
            Some((node, _)) => Some(*node),
        }
    }

    /// Puts this at the node's place. A node that has none gets one, behind all.
    pub fn set(&mut self, node: NumberedNode, laid: Option<Laid>) -> Result<(), AllocError>
        ensures done { OnOk result (self.new ≡ insert_entry same_node self.old node laid) }
        ensures kept { OnErr result (self.new ≡ self.old) }
    {
        self.places.insert(node, laid)?;
        Ok(())
    }

    /// What was asked for and has no place.
    pub(crate) fn wants(&self) -> &Wants {
        &self.wants
    }

    /// Makes room for more that is asked for, if there was none left: so that a node which counts many is looked at anew a
    /// few times only.
    pub fn widen(&mut self, alloc: Global) -> Result<(), AllocError>
        ensures { self.new ≡ self.old }
    {
        if self.wants.is_full() {
            self.wants.widen(alloc)?;
        }
        Ok(())
    }
}
