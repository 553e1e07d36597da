//! Arrows along a trail of nodes.
//!
//! Promise: of a trail that begins at an effect each stretch, from an effect to the next, has its arrow.
ghost use Rattle.std.specs.Prelude.{◌≡◌, None, IfOk};
ghost use Rattle.mh_laws.specs.Each.{Each};
ghost use Rattle.mh_layers.specs.Reading.{IsReading};
ghost use Rattle.mh_layers.specs.Stretches.{AreArrowsOf, IsStretch, is_effect_node, nodes_along, stretches};

use crate::arrows::arrow::Arrow;
use crate::arrows::arrow_for;
use crate::numbered::NumberedService;
use crate::numbered_node::NumberedNode;
use indexmap::IndexSet;
use std::alloc::{AllocError, Global};

/// A stretch of a trail: from an effect to the next, by way of nodes that are no effects.
#[derive(Clone, Copy)]
pub(crate) struct Stretch {
    pub from: NumberedNode,
    /// The first node behind it.
    pub first: NumberedNode,
    pub to: NumberedNode,
}

/// The nodes along the trail.
fn nodes_along(
    alloc: Global,
    nodes: &IndexSet<NumberedNode>,
    trail: &[mh_paths::Arrow],
) -> Result<Vec<NumberedNode>, AllocError>
    ensures { IfOk result (λ along. along.items ≡ nodes_along nodes.now.keys trail.now) }
{
    let mut along = Vec::new(alloc);
    for arrow in trail {
        if let Some(node) = nodes.get_index(arrow.to) {
            along.push(*node)?;
        }
    }
    Ok(along)
}

fn is_effect(node: &NumberedNode) -> bool
    ensures { result ≡ is_effect_node node.now }
{
    matches!(node, NumberedNode::Effect(..))
}

/// The stretches along these nodes, from the effect on.
fn stretches_of(
    alloc: Global,
    from: NumberedNode,
    nodes: &[NumberedNode],
) -> Result<Vec<Stretch>, AllocError>
    ensures { IfOk result (λ parts. parts.items ≡ stretches from None nodes.now) }
{
    let mut parts = Vec::new(alloc);
    let mut from = from;
    let mut first = None;
    for node in nodes {
        let behind = first.unwrap_or(*node);
        if is_effect(node) {
            parts.push(Stretch {
                from,
                first: behind,
                to: *node,
            })?;
            from = *node;
            first = None;
        } else {
            first = Some(behind);
        }
    }
    Ok(parts)
}

/// The arrows of these stretches.
fn arrows_of(
    alloc: Global,
    numbered_service: &NumberedService<'_>,
    parts: &[Stretch],
) -> Result<Vec<Arrow>, AllocError>
    requires reading { IsReading numbered_service.now }
    requires steps { Each (IsStretch numbered_service.now) parts.now }
    ensures { IfOk result (λ arrows. AreArrowsOf numbered_service.now parts.now arrows.items) }
{
    let mut arrows = Vec::new(alloc);
    for part in parts {
        arrows.push(arrow_for(alloc, numbered_service, &part.from, &part.first, &part.to)?)?;
    }
    Ok(arrows)
}

/// The arrows along the trail from the effect on.
pub(crate) fn arrows_along(
    alloc: Global,
    numbered_service: &NumberedService<'_>,
    nodes: &IndexSet<NumberedNode>,
    from: NumberedNode,
    trail: &[mh_paths::Arrow],
) -> Result<Vec<Arrow>, AllocError>
    requires reading { IsReading numbered_service.now }
    requires steps { Each (IsStretch numbered_service.now) (stretches from None (nodes_along nodes.now.keys trail.now)) }
    ensures { let parts = stretches from None (nodes_along nodes.now.keys trail.now) in
        IfOk result (λ arrows. AreArrowsOf numbered_service.now parts arrows.items) }
{
    let along = nodes_along(alloc, nodes, trail)?;
    let parts = stretches_of(alloc, from, along.as_slice())?;
    arrows_of(alloc, numbered_service, parts.as_slice())
}
