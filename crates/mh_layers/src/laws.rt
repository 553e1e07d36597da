//! Laws of layers.
//!
//! Promise: what is laid is exact; nodes are told apart; by the least flow effects cost least.
ghost use Rattle.mh_layers.specs.Cheapest.{LeastIsCheapest};
ghost use Rattle.mh_layers.specs.Grouped.{SumsByData};
ghost use Rattle.mh_layers.specs.Layering.{CostsExist, LayersAreExact};
ghost use Rattle.mh_layers.specs.NumberedNodes.{NodesAreApart};

use crate::laying::Prices;

/// Costs that are laid are the exact ones, cut at the largest number; and where there are ranks, exact costs exist.
pub fn layers_are_exact<P: Prices>(prices: &P)
    ensures exact { LayersAreExact (P.price prices.now) (P.kept prices.now) }
    ensures exist { CostsExist (P.price prices.now) (P.kept prices.now) }
{
    let _ = prices;
}

/// Nodes that are equal are one node.
pub fn nodes_are_apart()
    ensures { NodesAreApart }
{}

/// What an event of unknown data sets going at most is what the links without data do, and the largest sum of
/// those with one data.
pub fn sums_by_data<X, V>()
    ensures { SumsByData X V }
{}

/// By the least flow of a service no more is active than by any other solution, effects cause no more and cost no
/// more, and the start and the inputs cost no more.
pub fn least_is_cheapest()
    ensures { LeastIsCheapest }
{}
