//! What the nodes of a numbered service cost as far as that is known, and which nodes they count.
//!
//! Promise: a cost is what the node's price comes to, over what is known of nodes by their numbers, and all that it counts is told
//! in one pass.
ghost use Rattle.std.specs.Prelude.{◌≡◌, true, IfOk};
ghost use Rattle.mh_laws.specs.Price.{counted_in};
ghost use Rattle.mh_layers.specs.Known.{known_worth, told};
ghost use Rattle.mh_layers.specs.Layering.{cost_in};
ghost use Rattle.mh_layers.specs.Reading.{has_names, kept, price as price_of};

use crate::laying::Prices;
use crate::laying::costs::Costs;
use crate::laying::sums::CostOrMissing;
use crate::numbered::NumberedService;
use crate::numbered::named::has_names;
use crate::numbered_node::NumberedNode;
use crate::price::meters::{CountedNodes, KnownCosts};
use crate::price::price;
use std::alloc::{AllocError, Global};

impl<'a> Prices for NumberedService<'a> {
    ghost use Rattle.mh_layers.specs.Reading.{kept, price};

    ghost price = { price };

    ghost kept = { kept };

    fn worth(&self, costs: &Costs, node: &NumberedNode) -> Result<CostOrMissing, AllocError> {
        self.read();
        if !has_names(self, node) {
            // no kept node: what is advised to be looked at may be any
            return Ok(Ok(0));
        }
        worth_of(self, costs, node)
    }
}

/// What a node comes to whose names are there, over what is known.
#[tactic(auto, using(crate::proofs::KnowingLemmas::known_numbers))]
fn worth_of(
    numbered_service: &NumberedService<'_>,
    costs: &Costs,
    node: &NumberedNode,
) -> Result<CostOrMissing, AllocError>
    requires { has_names numbered_service.now node.now ≡ true }
    ensures { IfOk result (λ worth. worth ≡ known_worth (told (cost_in costs.now)) (price_of numbered_service.now node.now)) }
{
    price(numbered_service, &KnownCosts { costs }, node, Ok(0))
}

/// The nodes that the node counts, each as often as it counts it.
#[tactic(auto, using(crate::proofs::KnowingLemmas::counted_numbers))]
pub(crate) fn counted_nodes(
    alloc: Global,
    numbered_service: &NumberedService<'_>,
    node: &NumberedNode,
) -> Result<Vec<NumberedNode>, AllocError>
    requires { kept numbered_service.now node.now }
    ensures { IfOk result (λ nodes. nodes.items ≡ counted_in (price_of numbered_service.now node.now)) }
{
    numbered_service.read();
    price(numbered_service, &CountedNodes, node, Vec::new(alloc))
}
