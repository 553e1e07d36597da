//! The graph of nodes, with an arrow from each to each that it counts.
//!
//! Promise: the node graph has all nodes that are met on from its roots, each once, and an arrow for each that is counted; the
//! labels of arrows are in the order of the places of effects.
ghost use Rattle.std.specs.Prelude.{◌≡◌, [], map, IfOk};
ghost use Rattle.indexmap.specs.IndexSet.{insert_all};
ghost use Rattle.mh_laws.specs.Each.{Each};
ghost use Rattle.mh_layers.specs.Layered.{active_nodes};
ghost use Rattle.mh_layers.specs.Layering.{CountsKept};
ghost use Rattle.mh_layers.specs.NumberedNodes.{same_node};
ghost use Rattle.mh_layers.specs.Reading.{IsReading, kept, price};
ghost use Rattle.mh_layers.specs.EffectSites.{arrow_by, label_at, node_index};
ghost use Rattle.mh_layers.specs.Walk.{IsNodeGraphOf};

use crate::cycle::effect_site::{effect_sites_of, labels_of};
use crate::cycle::successors::{put_all, rows_of};
use crate::numbered::NumberedService;
use crate::numbered_node::NumberedNode;
use indexmap::IndexSet;
use mh_paths::{Arrow, Graph};
use std::alloc::{AllocError, Global};

/// Nodes, and the arrows between them. In the graph a node has its place among these as number.
#[derive(Drop)]
pub(crate) struct NodeGraph {
    pub nodes: IndexSet<NumberedNode>,
    pub graph: Graph,
}

/// The number of the node in the graph.
pub(crate) fn node_index(nodes: &IndexSet<NumberedNode>, node: &NumberedNode) -> usize
    ensures { result ≡ node_index nodes.now.keys node.now }
{
    nodes.get_index_of(node).unwrap_or(0)
}

/// The label of arrows to the node with this number.
fn label_at(labels: &[Option<u64>], index: usize) -> Option<u64>
    ensures { result ≡ label_at labels.now index }
{
    match labels.get(index) {
        None => None,
        Some(label) => *label,
    }
}

/// The arrow to the node.
fn arrow_to(nodes: &IndexSet<NumberedNode>, labels: &[Option<u64>], node: &NumberedNode) -> Arrow
    ensures { result ≡ arrow_by nodes.now.keys labels.now node.now }
{
    let to = node_index(nodes, node);
    Arrow {
        label: label_at(labels, to),
        to,
    }
}

/// The arrows to these nodes.
fn arrows_to(
    alloc: Global,
    nodes: &IndexSet<NumberedNode>,
    labels: &[Option<u64>],
    row: &[NumberedNode],
) -> Result<Vec<Arrow>, AllocError>
    ensures { IfOk result (λ arrows. arrows.items ≡ map (arrow_by nodes.now.keys labels.now) row.now) }
{
    let mut arrows = Vec::new(alloc);
    for node in row {
        arrows.push(arrow_to(nodes, labels, node))?;
    }
    Ok(arrows)
}

/// The graph with these rows.
fn graph_of(
    alloc: Global,
    nodes: &IndexSet<NumberedNode>,
    labels: &[Option<u64>],
    rows: &[Vec<NumberedNode>],
) -> Result<Graph, AllocError>
    ensures { let ls = labels.now in IfOk result (λ graph. map (λ row. row.items) graph.nodes.items
        ≡ map (λ row. map (arrow_by nodes.now.keys ls) row.items) rows.now) }
{
    let mut arrows = Vec::new(alloc);
    for row in rows {
        arrows.push(arrows_to(alloc, nodes, labels, row.as_slice())?)?;
    }
    Ok(Graph { nodes: arrows })
}

/// These nodes, each once.
fn nodes_in(alloc: Global, roots: &[NumberedNode]) -> Result<IndexSet<NumberedNode>, AllocError>
    ensures { IfOk result (λ nodes. nodes.keys ≡ insert_all same_node [] roots.now) }
{
    let mut nodes = IndexSet::new(alloc);
    put_all(&mut nodes, roots)?;
    Ok(nodes)
}

/// The node graph of these roots, among all active effects.
#[tactic(auto, using(crate::proofs::GraphLemmas::node_graph_made, crate::proofs::GraphLemmas::firsts_kept))]
pub(crate) fn node_graph_of(
    alloc: Global,
    numbered_service: &NumberedService<'_>,
    roots: &[NumberedNode],
    all: &[NumberedNode],
) -> Result<NodeGraph, AllocError>
    requires counted { CountsKept (price numbered_service.now) (kept numbered_service.now) }
    requires kept { Each (kept numbered_service.now) roots.now }
    requires reading { IsReading numbered_service.now }
    requires all { all.now ≡ active_nodes numbered_service.now }
    ensures { IfOk result (λ node_graph. IsNodeGraphOf numbered_service.now roots.now node_graph.nodes.keys node_graph.graph) }
{
    let mut nodes = nodes_in(alloc, roots)?;
    let rows = rows_of(alloc, numbered_service, &mut nodes)?;
    let effect_sites = effect_sites_of(alloc, numbered_service, all)?;
    let labels = labels_of(alloc, numbered_service, &effect_sites, nodes.as_slice())?;
    let graph = graph_of(alloc, &nodes, labels.as_slice(), rows.as_slice())?;
    let _ = nodes.len();
    Ok(NodeGraph { nodes, graph })
}
