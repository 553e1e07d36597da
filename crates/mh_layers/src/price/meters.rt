//! The meters: what a price costs as far as that is known, which nodes it counts, and whether it counts one node.
use crate::laying::costs::Costs;
use crate::laying::sums::{CostOrMissing, most, plus};
use crate::numbered_node::NumberedNode;
use crate::price::meter::Meter;
use std::alloc::AllocError;

/// Costs as far as they are known. What is waited for first is told in place of a sum, and all that is waited for is noted.
#[derive(Drop)]
pub(crate) struct KnownCosts<'a> {
    pub costs: &'a Costs,
}

impl<'a> Meter for KnownCosts<'a> {
    ghost use Rattle.std.specs.Prelude.{ℕ, Result};
    ghost use Rattle.mh_layers.specs.declared.numbered_node.NumberedNode.{NumberedNode as NumberedNodeLem};
    ghost use Rattle.mh_layers.specs.Known.{knowing, told};
    ghost use Rattle.mh_layers.specs.Layering.{cost_in};

    type Sum = CostOrMissing;

    type Mark = (CostOrMissing, CostOrMissing);

    ghost Seen = { Result ℕ NumberedNodeLem };

    ghost Marked = { Result ℕ NumberedNodeLem × Result ℕ NumberedNodeLem };

    ghost seen = { λ s. s };

    ghost marked = { λ m. m };

    ghost meter = { λ a. knowing (told (cost_in a.costs.now)) };

    fn one(&self, sum: CostOrMissing) -> CostOrMissing {
        plus(sum, Ok(1))
    }

    fn node(&self, node: NumberedNode, sum: CostOrMissing) -> Result<CostOrMissing, AllocError> {
        Ok(plus(sum, self.costs.get(&node)))
    }

    fn aside(&self, sum: CostOrMissing) -> ((CostOrMissing, CostOrMissing), CostOrMissing) {
        ((sum, Ok(0)), Ok(0))
    }

    fn next(
        &self,
        mark: (CostOrMissing, CostOrMissing),
        sum: CostOrMissing,
    ) -> ((CostOrMissing, CostOrMissing), CostOrMissing) {
        ((mark.0, most(mark.1, sum)), Ok(0))
    }

    fn close(&self, mark: (CostOrMissing, CostOrMissing), sum: CostOrMissing) -> CostOrMissing {
        plus(mark.0, most(mark.1, sum))
    }
}

/// Nodes in the order in which they are counted.
#[derive(Drop)]
pub(crate) struct CountedNodes;

impl Meter for CountedNodes {
    ghost use Rattle.std.specs.Prelude.{List};
    ghost use Rattle.mh_prices.specs.Meters.{listing};
    ghost use Rattle.mh_layers.specs.declared.numbered_node.NumberedNode.{NumberedNode as NumberedNodeLem};

    type Sum = Vec<NumberedNode>;

    type Mark = ();

    ghost Seen = { List NumberedNodeLem };

    ghost Marked = { record {} };

    ghost seen = { λ s. s.items };

    ghost marked = { λ m. record {} };

    ghost meter = { λ a. listing };

    fn one(&self, sum: Vec<NumberedNode>) -> Vec<NumberedNode> {
        sum
    }

    fn node(
        &self,
        node: NumberedNode,
        sum: Vec<NumberedNode>,
    ) -> Result<Vec<NumberedNode>, AllocError> {
        let mut nodes = sum;
        nodes.push(node)?;
        Ok(nodes)
    }

    fn aside(&self, sum: Vec<NumberedNode>) -> ((), Vec<NumberedNode>) {
        ((), sum)
    }

    fn next(&self, mark: (), sum: Vec<NumberedNode>) -> ((), Vec<NumberedNode>) {
        (mark, sum)
    }

    fn close(&self, _mark: (), sum: Vec<NumberedNode>) -> Vec<NumberedNode> {
        sum
    }
}

/// Whether one node was found.
#[derive(Drop)]
pub(crate) struct SoughtNode {
    pub node: NumberedNode,
}

impl Meter for SoughtNode {
    ghost use Rattle.std.specs.Prelude.{Bool};
    ghost use Rattle.mh_prices.specs.Meters.{finding};
    ghost use Rattle.mh_layers.specs.NumberedNodes.{same_node};

    type Sum = bool;

    type Mark = ();

    ghost Seen = { Bool };

    ghost Marked = { record {} };

    ghost seen = { λ s. s };

    ghost marked = { λ m. record {} };

    ghost meter = { λ a. finding (same_node a.node) };

    fn one(&self, found: bool) -> bool {
        found
    }

    fn node(&self, node: NumberedNode, found: bool) -> Result<bool, AllocError> {
        Ok(found || self.node == node)
    }

    fn aside(&self, found: bool) -> ((), bool) {
        ((), found)
    }

    fn next(&self, mark: (), found: bool) -> ((), bool) {
        (mark, found)
    }

    fn close(&self, _mark: (), found: bool) -> bool {
        found
    }
}
