//! The first cycle of effects.
//!
//! Promise: of all active effects that put themselves to work, by way of others, the first is told by its place and
//! configuration, with the first of the shortest ways; and none only where no effect does.

mod connected;
pub(crate) mod effect_site;
pub(crate) mod lead;
pub(crate) mod node_graph;
pub(crate) mod parts;
pub(crate) mod successors;
pub(crate) mod trail;

ghost use Rattle.std.specs.Prelude.{◌≡◌, true, Some, IfNone, IfOk, IfSome, OnOk};
ghost use Rattle.std.specs.Option.{option_map_or};
ghost use Rattle.std.specs.Ordering.{is_lt};
ghost use Rattle.mh_flow.specs.Solved.{IsFlowOf, flow_in};
ghost use Rattle.mh_paths.specs.Chains.{IsFirstCycle, NoCycle};
ghost use Rattle.mh_laws.specs.Each.{Each};
ghost use Rattle.mh_layers.specs.Arrows.{AreFirstArrows};
ghost use Rattle.mh_layers.specs.Cycle.{NoCycles, by_effect_site};
ghost use Rattle.mh_layers.specs.Layered.{active_nodes};
ghost use Rattle.mh_layers.specs.Layering.{AreLayers};
ghost use Rattle.mh_layers.specs.Named.{IsEffectKept};
ghost use Rattle.mh_layers.specs.Ranked.{AreParts};
ghost use Rattle.mh_layers.specs.Reading.{IsReading, flow_read, kept, price};
ghost use Rattle.mh_layers.specs.Walk.{AreBest, IsTried, unlaid};

use crate::arrows::arrow::Arrow;
use crate::cause::Cause;
use crate::cycle::effect_site::{by_effect_site, cause_of};
use crate::cycle::lead::{lead_of, led};
use crate::cycle::node_graph::{NodeGraph, node_graph_of, node_index};
use crate::cycle::parts::Parts;
use crate::cycle::trail::arrows_along;
use crate::laying::roots::push_effects;
use crate::laying::{LayersError, Laying};
use crate::numbered::NumberedService;
use crate::numbered_node::NumberedNode;
use mh_flow::{Equipped, Flow};
use std::alloc::{AllocError, Global};

/// The first effect so far that is on a cycle, and its first cycle.
#[derive(Drop)]
pub(crate) struct Best {
    pub node: NumberedNode,
    pub cause: Cause,
    pub trail: Vec<mh_paths::Arrow>,
}

/// Whether the cause comes before the best.
fn comes_first(cause: &Cause, best: &Option<Best>) -> bool
    ensures { result ≡ option_map_or (λ b. is_lt (by_effect_site cause.now b.cause)) best.now true }
{
    match best {
        None => true,
        Some(best) => by_effect_site(cause, &best.cause).is_lt(),
    }
}

/// Sets the best.
fn set(best: &mut Option<Best>, node: NumberedNode, cause: Cause, trail: Vec<mh_paths::Arrow>)
    ensures { best.new ≡ Some (record { node = node; cause = cause; trail = trail }) }
{
    *best = Some(Best { node, cause, trail });
}

/// The first cycle through the node with this number, if there is one. No search is made where it is on none.
#[tactic(auto, using(crate::proofs::PartLemmas::passed_by))]
fn cycle_through(
    alloc: Global,
    node_graph: &NodeGraph,
    parts: &Parts,
    index: usize,
) -> Result<Option<Vec<mh_paths::Arrow>>, AllocError>
    requires { AreParts node_graph.now.graph parts.now.parts.items parts.now.alone.items }
    ensures some { IfOk result (λ found. IfSome found (λ p. IsFirstCycle node_graph.now.graph index p.items)) }
    ensures none { IfOk result (λ found. IfNone found (NoCycle node_graph.now.graph index)) }
{
    if parts.is_passed(index) {
        return Ok(None);
    }
    mh_paths::first_cycle(alloc, &node_graph.graph, index)
}

/// The effect is the best, if it comes before it and is on a cycle.
#[tactic(auto, using(crate::proofs::WalkLemmas::tried_later, crate::proofs::WalkLemmas::tried_none, crate::proofs::WalkLemmas::tried_found))]
fn try_node(
    alloc: Global,
    numbered_service: &NumberedService<'_>,
    node_graph: &NodeGraph,
    parts: &Parts,
    best: &mut Option<Best>,
    node: &NumberedNode,
) -> Result<(), AllocError>
    requires parts { AreParts node_graph.now.graph parts.now.parts.items parts.now.alone.items }
    requires effect { IsEffectKept numbered_service.now node.now }
    ensures { OnOk result (IsTried numbered_service.now node_graph.now.nodes.keys node_graph.now.graph node.now best.old best.new) }
{
    let cause = cause_of(numbered_service, node)?;
    if !comes_first(&cause, best) {
        return Ok(());
    }
    let index = node_index(&node_graph.nodes, node);
    match cycle_through(alloc, node_graph, parts, index)? {
        None => Ok(()),
        Some(trail) => {
            set(best, *node, cause, trail);
            Ok(())
        }
    }
}

/// The first of these that is on a cycle.
fn first_along(
    alloc: Global,
    numbered_service: &NumberedService<'_>,
    node_graph: &NodeGraph,
    parts: &Parts,
    nodes: &[NumberedNode],
) -> Result<Option<Best>, AllocError>
    requires parts { AreParts node_graph.now.graph parts.now.parts.items parts.now.alone.items }
    requires effects { Each (IsEffectKept numbered_service.now) nodes.now }
    ensures { IfOk result (λ best. AreBest numbered_service.now node_graph.now.nodes.keys node_graph.now.graph nodes.now best) }
{
    let mut best = None;
    for node in nodes {
        try_node(alloc, numbered_service, node_graph, parts, &mut best, node)?;
    }
    Ok(best)
}

/// The first of these that is on a cycle. The lead is tried before all others, so that one search is made.
fn first_of(
    alloc: Global,
    numbered_service: &NumberedService<'_>,
    node_graph: &NodeGraph,
    nodes: &[NumberedNode],
) -> Result<Option<Best>, AllocError>
    requires { Each (IsEffectKept numbered_service.now) nodes.now }
    ensures { IfOk result (λ best. AreBest numbered_service.now node_graph.now.nodes.keys node_graph.now.graph nodes.now best) }
{
    let parts = Parts::of(alloc, &node_graph.graph)?;
    let lead = lead_of(numbered_service, node_graph, &parts, nodes)?;
    let all = led(alloc, lead, nodes)?;
    let best = first_along(alloc, numbered_service, node_graph, &parts, all.as_slice())?;
    Ok(best)
}

/// Those of these nodes that are not laid.
fn unlaid(
    alloc: Global,
    laying: &Laying,
    nodes: &[NumberedNode],
) -> Result<Vec<NumberedNode>, AllocError>
    ensures { IfOk result (λ left. left.items ≡ unlaid laying.now nodes.now) }
{
    let mut left = Vec::new(alloc);
    for node in nodes {
        if !laying.has_laid(node) {
            left.push(*node)?;
        }
    }
    Ok(left)
}

/// The nodes of all active effects that have actions.
fn effects(
    alloc: Global,
    numbered_service: &NumberedService<'_>,
) -> Result<Vec<NumberedNode>, AllocError>
    ensures { IfOk result (λ nodes. nodes.items ≡ active_nodes numbered_service.now) }
{
    let mut nodes = Vec::new(alloc);
    push_effects(&mut nodes, numbered_service)?;
    Ok(nodes)
}

/// The first cycle, where these layers are laid and these are the nodes of all active effects.
fn cycle_in(
    alloc: Global,
    numbered_service: &NumberedService<'_>,
    laying: &Laying,
    nodes: &[NumberedNode],
) -> Result<Option<Vec<Arrow>>, AllocError>
    requires layers { AreLayers (price numbered_service.now) (kept numbered_service.now) laying.now }
    requires reading { IsReading numbered_service.now }
    requires all { nodes.now ≡ active_nodes numbered_service.now }
    ensures some { let v = numbered_service.now.service in let w = flow_read numbered_service.now in IfOk result (λ found. IfSome found (λ arrows. AreFirstArrows v w arrows.items)) }
    ensures none { let v = numbered_service.now.service in let w = flow_read numbered_service.now in IfOk result (λ found. IfNone found (NoCycles v w)) }
{
    let left = unlaid(alloc, laying, nodes)?;
    let node_graph = node_graph_of(alloc, numbered_service, left.as_slice(), nodes)?;
    match first_of(alloc, numbered_service, &node_graph, left.as_slice())? {
        None => Ok(None),
        Some(best) => {
            let trail = best.trail.as_slice();
            let arrows = arrows_along(
                alloc,
                numbered_service,
                &node_graph.nodes,
                best.node,
                trail,
            )?;
            Ok(Some(arrows))
        }
    }
}

/// What can be laid of these nodes, and of all that they count.
fn laid_of(
    alloc: Global,
    numbered_service: &NumberedService<'_>,
    nodes: &[NumberedNode],
) -> Result<Laying, AllocError>
    requires reading { IsReading numbered_service.now }
    requires kept { Each (kept numbered_service.now) nodes.now }
    ensures { IfOk result (λ laying. AreLayers (price numbered_service.now) (kept numbered_service.now) laying) }
{
    let mut laying = Laying::new(alloc)?;
    if let Err(LayersError::NoMemory) = laying.reach(numbered_service, nodes) {
        return Err(AllocError);
    }
    Ok(laying)
}

/// The first cycle of the service.
fn cycle_of(
    alloc: Global,
    numbered_service: &NumberedService<'_>,
) -> Result<Option<Vec<Arrow>>, AllocError>
    ensures some { let v = numbered_service.now.service in let w = flow_read numbered_service.now in IfOk result (λ found. IfSome found (λ arrows. AreFirstArrows v w arrows.items)) }
    ensures none { let v = numbered_service.now.service in let w = flow_read numbered_service.now in IfOk result (λ found. IfNone found (NoCycles v w)) }
{
    numbered_service.read();
    let nodes = effects(alloc, numbered_service)?;
    let laying = laid_of(alloc, numbered_service, nodes.as_slice())?;
    cycle_in(alloc, numbered_service, &laying, nodes.as_slice())
}

/// The effects of the first cycle, from the first on, each with an action that puts the next to work: of all active effects
/// that put themselves to work, by way of others, the first by its place and configuration, and of the shortest ways the
/// first, place by place. None where no effect does.
pub fn first_cycle(
    alloc: Global,
    service: &Equipped<'_>,
    flow: &Flow,
) -> Result<Option<Vec<Arrow>>, AllocError>
    requires { IsFlowOf service.now flow.now }
    ensures some { IfOk result (λ found. IfSome found (λ arrows. AreFirstArrows service.now (flow_in service.now flow.now) arrows.items)) }
    ensures none { IfOk result (λ found. IfNone found (NoCycles service.now (flow_in service.now flow.now))) }
{
    let numbered_service = NumberedService::of(alloc, service, flow)?;
    cycle_of(alloc, &numbered_service)
}
