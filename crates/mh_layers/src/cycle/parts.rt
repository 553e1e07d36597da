//! `Parts`: the strongly connected parts of a graph, and the nodes that are on no cycle.
//!
//! Promise: no arrow leads to an earlier part, and all that leads to a node that is alone comes from earlier parts, so that
//! such a node is on no cycle. How parts are found is not promised: they are tried, and where they should not pass, no
//! node is alone.
ghost use Rattle.std.specs.Prelude.{◌≡◌, IfOk};
ghost use Rattle.std.specs.List.{list_all};
ghost use Rattle.mh_layers.specs.Ranked as ranked;
ghost use Rattle.mh_layers.specs.Ranked.{AreParts};

use crate::cycle::connected::parts_of;
use mh_paths::{Arrow, Graph};
use std::alloc::{AllocError, Global};

/// The part of each node, in an order of the arrows, and whether the node is alone: nothing of its part leads to it.
#[derive(Drop)]
pub(crate) struct Parts {
    pub parts: Vec<usize>,
    pub alone: Vec<bool>,
}

/// The part of the node. One that has none stands behind all.
fn part_in(parts: &[usize], node: usize) -> usize
    ensures { result ≡ ranked.part_in parts.now node }
{
    match parts.get(node) {
        Some(part) => *part,
        None => usize::MAX,
    }
}

fn is_alone(alone: &[bool], node: usize) -> bool
    ensures { result ≡ ranked.is_alone alone.now node }
{
    match alone.get(node) {
        Some(alone) => *alone,
        None => false,
    }
}

/// Whether the arrow, which leaves the node, leads to a later part, or within one to a node that is not alone.
fn leads_ahead(parts: &[usize], alone: &[bool], node: usize, arrow: &Arrow) -> bool
    ensures { result ≡ ranked.leads_ahead parts.now alone.now node arrow.now }
{
    let from = part_in(parts, node);
    let to = part_in(parts, arrow.to);
    from < to || (from <= to && !is_alone(alone, arrow.to))
}

/// Whether each arrow of the row, which leaves the node, leads ahead.
fn row_ahead(parts: &[usize], alone: &[bool], node: usize, row: &[Arrow]) -> bool
    ensures { result ≡ list_all (ranked.leads_ahead parts.now alone.now node) row.now }
{
    row.iter()
        .all(|arrow| leads_ahead(parts, alone, node, arrow))
}

/// Whether all arrows that leave the node lead ahead.
fn all_ahead(parts: &[usize], alone: &[bool], graph: &Graph, node: usize) -> bool
    ensures { result ≡ ranked.all_ahead parts.now alone.now graph.now node }
{
    match graph.nodes.get(node) {
        Some(row) => row_ahead(parts, alone, node, row.as_slice()),
        None => true,
    }
}

/// Whether all arrows lead ahead.
fn are_ahead(parts: &[usize], alone: &[bool], graph: &Graph) -> bool
    ensures { result ≡ ranked.are_ahead parts.now alone.now graph.now }
{
    for node in 0..graph.nodes.len() {
        if !all_ahead(parts, alone, graph, node) {
            return false;
        }
    }
    true
}

/// Which nodes are alone, of these parts.
fn alone_of(alloc: Global, graph: &Graph, parts: &[usize]) -> Result<Vec<bool>, AllocError> {
    let mut alone = Vec::new(alloc);
    for _ in 0..graph.nodes.len() {
        alone.push(true)?;
    }
    for node in 0..graph.nodes.len() {
        for arrow in &graph.nodes[node] {
            if part_in(parts, arrow.to) <= part_in(parts, node) && arrow.to < alone.len() {
                alone[arrow.to] = false;
            }
        }
    }
    Ok(alone)
}

/// Parts that pass, if these do not: none.
#[tactic(auto, using(crate::proofs::PartLemmas::ahead_parts, crate::proofs::PartLemmas::no_parts))]
fn tried(alloc: Global, graph: &Graph, parts: Vec<usize>, alone: Vec<bool>) -> Parts
    ensures { AreParts graph.now result.parts.items result.alone.items }
{
    if are_ahead(parts.as_slice(), alone.as_slice(), graph) {
        Parts { parts, alone }
    } else {
        Parts {
            parts: Vec::new(alloc),
            alone: Vec::new(alloc),
        }
    }
}

impl Parts {
    /// The parts of the graph.
    pub(crate) fn of(alloc: Global, graph: &Graph) -> Result<Parts, AllocError>
        ensures { IfOk result (λ parts. AreParts graph.now parts.parts.items parts.alone.items) }
    {
        let parts = parts_of(alloc, graph)?;
        let alone = alone_of(alloc, graph, parts.as_slice())?;
        Ok(tried(alloc, graph, parts, alone))
    }

    /// Whether the node is on no cycle, as one that is alone.
    pub(crate) fn is_passed(&self, node: usize) -> bool
        ensures { result ≡ ranked.is_alone self.now.alone.items node }
    {
        is_alone(self.alone.as_slice(), node)
    }
}
