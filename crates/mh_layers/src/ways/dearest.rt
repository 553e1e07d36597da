//! The effect that costs most among nodes, and the first of numbers that is largest.
//!
//! Promise: of effects that cost as much the first is told, by its place and then by its configuration; and none only where
//! none costs anything.
ghost use Rattle.std.specs.Prelude.{◌≡◌, ◌<◌, length, nat_lt, true, Some, IfOk, OnOk};
ghost use Rattle.std.specs.Option.{option_map_or};
ghost use Rattle.mh_laws.specs.Each.{Each};
ghost use Rattle.mh_layers.specs.Layering.{cost_in};
ghost use Rattle.mh_layers.specs.Reading.{kept};
ghost use Rattle.mh_layers.specs.Taking.{or_nothing};
ghost use Rattle.mh_layers.specs.Choosing.{AreChosen, IsLargest, IsSeen, effect_cost, is_dearer, number_at};

use crate::cause::Cause;
use crate::cycle::effect_site::{by_effect_site, cause_of};
use crate::laying::Laying;
use crate::numbered::NumberedService;
use crate::numbered_node::NumberedNode;
use std::alloc::AllocError;

/// An effect that costs something.
#[derive(Drop)]
pub(crate) struct Dearest {
    pub node: NumberedNode,
    pub cause: Cause,
    pub cost: u64,
}

fn laid_cost(laying: &Laying, node: &NumberedNode) -> u64
    ensures { result ≡ or_nothing (cost_in laying.now node.now) }
{
    match laying.costs().laid(node) {
        None => 0,
        Some(laid) => laid.cost,
    }
}

/// What the effect costs; another node nothing.
fn effect_cost(laying: &Laying, node: &NumberedNode) -> u64
    ensures { result ≡ effect_cost laying.now node.now }
{
    match node {
        NumberedNode::Effect(..) => laid_cost(laying, node),
        _ => 0,
    }
}

/// Whether what costs so much comes before the best.
fn comes_before(cost: u64, cause: &Cause, best: &Dearest) -> bool
    ensures { result ≡ is_dearer cost cause.now best.now }
{
    best.cost < cost || (cost == best.cost && by_effect_site(cause, &best.cause).is_lt())
}

fn is_best(cost: u64, cause: &Cause, best: &Option<Dearest>) -> bool
    ensures { result ≡ option_map_or (is_dearer cost cause.now) best.now true }
{
    match best {
        None => true,
        Some(best) => comes_before(cost, cause, best),
    }
}

fn set(best: &mut Option<Dearest>, node: NumberedNode, cause: Cause, cost: u64)
    ensures { best.new ≡ Some (record { node = node; cause = cause; cost = cost }) }
{
    *best = Some(Dearest { node, cause, cost });
}

/// The node is the best, if it is an effect that comes before it.
#[tactic(auto, using(crate::proofs::DearestLemmas::seen_nothing, crate::proofs::DearestLemmas::seen_later, crate::proofs::DearestLemmas::seen_best))]
fn see(
    numbered_service: &NumberedService<'_>,
    laying: &Laying,
    best: &mut Option<Dearest>,
    node: &NumberedNode,
) -> Result<(), AllocError>
    requires { kept numbered_service.now node.now }
    ensures { OnOk result (IsSeen numbered_service.now laying.now node.now best.old best.new) }
{
    let cost = effect_cost(laying, node);
    if cost == 0 {
        return Ok(());
    }
    let cause = cause_of(numbered_service, node)?;
    if !is_best(cost, &cause, best) {
        return Ok(());
    }
    set(best, *node, cause, cost);
    Ok(())
}

/// The dearest effect of these nodes.
#[tactic(auto, using(crate::proofs::DearestLemmas::chosen_all))]
pub(crate) fn dearest_of(
    numbered_service: &NumberedService<'_>,
    laying: &Laying,
    nodes: &[NumberedNode],
) -> Result<Option<Dearest>, AllocError>
    requires { Each (kept numbered_service.now) nodes.now }
    ensures { IfOk result (λ best. AreChosen numbered_service.now laying.now nodes.now best) }
{
    let mut best = None;
    for node in nodes {
        see(numbered_service, laying, &mut best, node)?;
    }
    Ok(best)
}

// Numbers

/// The number at this place; behind all nothing.
pub(crate) fn number_at(numbers: &[u64], place: usize) -> u64
    ensures { result ≡ number_at numbers.now place }
{
    match numbers.get(place) {
        None => 0,
        Some(number) => *number,
    }
}

fn is_larger(numbers: &[u64], place: usize, best: usize) -> bool
    ensures { result ≡ nat_lt (number_at numbers.now best) (number_at numbers.now place) }
{
    number_at(numbers, best) < number_at(numbers, place)
}

/// The place of the first of these that is largest.
#[tactic(auto, using(crate::proofs::DearestLemmas::largest_begins, crate::proofs::DearestLemmas::largest_new, crate::proofs::DearestLemmas::largest_same, crate::proofs::DearestLemmas::largest_all))]
pub(crate) fn first_largest(numbers: &[u64]) -> usize
    requires { 0 < length numbers.now }
    ensures { IsLargest numbers.now result }
{
    let mut best = 0;
    for place in 1..numbers.len() {
        if is_larger(numbers, place, best) {
            best = place;
        }
    }
    best
}
