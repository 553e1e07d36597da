//! The dive: nodes are laid from roots on, each behind those that it counts.
//!
//! Promise: what is laid stays right. What is left is no matter of promises: the rounds of `laying` lay it.
ghost use Rattle.mh_layers.specs.Layering.{AreLayers, Grows};

use crate::laying::{Laying, Prices};
use crate::numbered_node::NumberedNode;
use std::alloc::AllocError;

/// A node on the path of a dive: it is looked at for the first time, or again once what it waited for was.
#[derive(Clone, Copy)]
struct Step {
    node: NumberedNode,
    again: bool,
}

impl Laying {
    /// Lays what can be, each node behind those that it counts, from this one on. What is left to the rounds is no
    /// matter of promises.
    #[tactic(auto, using(crate::proofs::LayingLemmas::grows_on, crate::proofs::LayingLemmas::grows_same))]
    fn dive<P: Prices>(
        &mut self,
        prices: &P,
        path: &mut Vec<Step>,
        root: NumberedNode,
    ) -> Result<(), AllocError>
        requires layers { AreLayers (P.price prices.now) (P.kept prices.now) self.old }
        ensures layers { AreLayers (P.price prices.now) (P.kept prices.now) self.new }
        ensures grows { Grows self.old self.new }
    {
        path.push(Step {
            node: root,
            again: false,
        })?;
        for _ in 0..u64::MAX {
            let Some(step) = path.pop() else {
                break;
            };
            if !self.is_passed(&step) {
                self.visit(prices, path, step.node)?;
            }
        }
        Ok(())
    }

    /// Whether there is nothing to do: the node was looked at, and does not come again.
    fn is_passed(&self, step: &Step) -> bool {
        match self.costs().at(&step.node) {
            None => false,
            Some(_) => !step.again,
        }
    }

    /// Lays a node, or has those looked at first that it waits for.
    #[tactic(auto, using(crate::proofs::LayingLemmas::placed_layers, crate::proofs::LayingLemmas::placed_grows, crate::proofs::LayingLemmas::grows_on, crate::proofs::LayingLemmas::grows_same))]
    fn visit<P: Prices>(
        &mut self,
        prices: &P,
        path: &mut Vec<Step>,
        node: NumberedNode,
    ) -> Result<(), AllocError>
        requires layers { AreLayers (P.price prices.now) (P.kept prices.now) self.old }
        ensures layers { AreLayers (P.price prices.now) (P.kept prices.now) self.new }
        ensures grows { Grows self.old self.new }
    {
        if self.costs().laid(&node).is_some() {
            return Ok(());
        }
        self.costs().wants().forget();
        if self.settle(prices, &node)?.is_some() {
            self.place(node)?;
            self.open(path, node)?;
            self.widen()?;
        }
        Ok(())
    }

    /// What was asked for and has no place goes on the path, in front of the node that waits for it.
    fn open(&self, path: &mut Vec<Step>, node: NumberedNode) -> Result<(), AllocError> {
        let wants = self.costs().wants();
        if wants.len() == 0 {
            return Ok(());
        }
        path.push(Step { node, again: true })?;
        for place in 0..wants.len() {
            if let Some(node) = wants.at(place) {
                path.push(Step { node, again: false })?;
            }
        }
        Ok(())
    }

    #[tactic(auto, using(crate::proofs::LayingLemmas::grows_on, crate::proofs::LayingLemmas::grows_same))]
    pub(crate) fn dives<P: Prices>(
        &mut self,
        prices: &P,
        roots: &[NumberedNode],
    ) -> Result<(), AllocError>
        requires layers { AreLayers (P.price prices.now) (P.kept prices.now) self.old }
        ensures layers { AreLayers (P.price prices.now) (P.kept prices.now) self.new }
        ensures grows { Grows self.old self.new }
    {
        let mut path = Vec::new(self.allocator());
        for root in roots {
            self.dive(prices, &mut path, *root)?;
        }
        Ok(())
    }
}
