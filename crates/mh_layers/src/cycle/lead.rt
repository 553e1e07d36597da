//! The lead: the effect that is searched before all others.
//!
//! Promise: it is one of these. That it is the first on a cycle, so that no other is searched, saves time alone.
ghost use Rattle.std.specs.Prelude.{◌≡◌, ◌++◌, IfOk, IfSome};
ghost use Rattle.std.specs.Option.{option_to_list};
ghost use Rattle.std.specs.Ordering.{is_lt};
ghost use Rattle.mh_laws.specs.Each.{Among, Each};
ghost use Rattle.mh_layers.specs.Cycle.{by_effect_site};
ghost use Rattle.mh_layers.specs.EffectSites.{cause_named};
ghost use Rattle.mh_layers.specs.Named.{IsEffectKept};
ghost use Rattle.mh_layers.specs.Walk.{IsOneOf};

use crate::cycle::effect_site::{by_effect_site, cause_of};
use crate::cycle::node_graph::{NodeGraph, node_index};
use crate::cycle::parts::Parts;
use crate::numbered::NumberedService;
use crate::numbered_node::NumberedNode;
use std::alloc::{AllocError, Global};

/// Whether the first effect comes before the second, by place and configuration.
fn is_before(
    numbered_service: &NumberedService<'_>,
    first: &NumberedNode,
    second: &NumberedNode,
) -> Result<bool, AllocError>
    requires first { IsEffectKept numbered_service.now first.now }
    requires second { IsEffectKept numbered_service.now second.now }
    ensures { IfOk result (λ before. before ≡ is_lt (by_effect_site (cause_named numbered_service.now first.now) (cause_named numbered_service.now second.now))) }
{
    let first = cause_of(numbered_service, first)?;
    let second = cause_of(numbered_service, second)?;
    Ok(by_effect_site(&first, &second).is_lt())
}

/// The node, or the lead, if there is one that comes before it.
fn lead_or(
    numbered_service: &NumberedService<'_>,
    lead: Option<NumberedNode>,
    node: &NumberedNode,
) -> Result<NumberedNode, AllocError>
    requires lead { IfSome lead (IsEffectKept numbered_service.now) }
    requires node { IsEffectKept numbered_service.now node.now }
    ensures { IfOk result (λ next. IsOneOf lead node.now next) }
{
    match lead {
        Some(lead) => {
            if is_before(numbered_service, &lead, node)? {
                Ok(lead)
            } else {
                Ok(*node)
            }
        }
        None => Ok(*node),
    }
}

/// The lead, if the node is passed; else the node, or the lead where that comes before it.
fn next_lead(
    numbered_service: &NumberedService<'_>,
    node_graph: &NodeGraph,
    parts: &Parts,
    lead: Option<NumberedNode>,
    node: &NumberedNode,
) -> Result<Option<NumberedNode>, AllocError>
    requires lead { IfSome lead (IsEffectKept numbered_service.now) }
    requires node { IsEffectKept numbered_service.now node.now }
    ensures { IfOk result (λ next. IfSome next (IsOneOf lead node.now)) }
{
    if parts.is_passed(node_index(&node_graph.nodes, node)) {
        Ok(lead)
    } else {
        Ok(Some(lead_or(numbered_service, lead, node)?))
    }
}

/// The first of these by place and configuration that is not passed.
pub(crate) fn lead_of(
    numbered_service: &NumberedService<'_>,
    node_graph: &NodeGraph,
    parts: &Parts,
    nodes: &[NumberedNode],
) -> Result<Option<NumberedNode>, AllocError>
    requires { Each (IsEffectKept numbered_service.now) nodes.now }
    ensures { IfOk result (λ lead. IfSome lead (Among nodes.now)) }
{
    let mut lead = None;
    for node in nodes {
        lead = next_lead(numbered_service, node_graph, parts, lead, node)?;
    }
    Ok(lead)
}

/// These nodes behind the lead.
pub(crate) fn led(
    alloc: Global,
    lead: Option<NumberedNode>,
    nodes: &[NumberedNode],
) -> Result<Vec<NumberedNode>, AllocError>
    ensures { IfOk result (λ all. all.items ≡ option_to_list lead ++ nodes.now) }
{
    match lead {
        None => nodes.to_vec(alloc),
        Some(lead) => {
            let mut all = Vec::new(alloc);
            all.push(lead)?;
            all.extend_from_slice(nodes)?;
            Ok(all)
        }
    }
}
