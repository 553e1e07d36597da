//! All nodes that are met on from some nodes, each with those that it counts.
//!
//! Promise: each node that is counted is told, and no other.
ghost use Rattle.std.specs.Prelude.{◌≡◌, ◌<◌, ◌-◌, ◌^◌, None, true, false, length, slice_get, IfOk, OnOk};
ghost use Rattle.indexmap.specs.IndexSet.{insert_all};
ghost use Rattle.mh_laws.specs.Each.{Each};
ghost use Rattle.mh_layers.specs.Successors.{AreRows, Stays};
ghost use Rattle.mh_layers.specs.Layering.{CountsKept};
ghost use Rattle.mh_layers.specs.NumberedNodes.{same_node};
ghost use Rattle.mh_layers.specs.Reading.{kept, price};

use crate::numbered::NumberedService;
use crate::numbered_node::NumberedNode;
use crate::price::priced::counted_nodes;
use indexmap::IndexSet;
use std::alloc::{AllocError, Global};

/// Puts these among the nodes.
pub(crate) fn put_all(
    nodes: &mut IndexSet<NumberedNode>,
    row: &[NumberedNode],
) -> Result<(), AllocError>
    ensures { OnOk result (nodes.new.keys ≡ insert_all same_node nodes.old.keys row.now) }
{
    for node in row {
        nodes.insert(*node)?;
    }
    Ok(())
}

/// The node at this place.
pub(crate) fn node_at(nodes: &IndexSet<NumberedNode>, place: usize) -> Option<NumberedNode>
    ensures { result ≡ slice_get nodes.now.keys place }
{
    match nodes.get_index(place) {
        None => None,
        Some(node) => Some(*node),
    }
}

/// The row of the first node that has none, and what it counts among the nodes; whether there was such a node.
#[tactic(auto, using(crate::proofs::SuccessorLemmas::stays_same, crate::proofs::SuccessorLemmas::stays_all, crate::proofs::SuccessorLemmas::rows_more))]
fn more(
    alloc: Global,
    numbered_service: &NumberedService<'_>,
    nodes: &mut IndexSet<NumberedNode>,
    rows: &mut Vec<Vec<NumberedNode>>,
) -> Result<bool, AllocError>
    requires counted { CountsKept (price numbered_service.now) (kept numbered_service.now) }
    requires rows { AreRows (price numbered_service.now) (kept numbered_service.now) nodes.old.keys rows.old.items }
    ensures rows { OnOk result (AreRows (price numbered_service.now) (kept numbered_service.now) nodes.new.keys rows.new.items) }
    ensures stays { OnOk result (Stays nodes.old.keys nodes.new.keys) }
    ensures all { IfOk result (λ more. more ≡ false → slice_get nodes.new.keys (length rows.new.items) ≡ None) }
    ensures less { IfOk result (λ more. more ≡ true → 2 ^ 64 - length rows.new.items < 2 ^ 64 - length rows.old.items) }
{
    let Some(node) = node_at(nodes, rows.len()) else {
        return Ok(false);
    };
    let row = counted_nodes(alloc, numbered_service, &node)?;
    put_all(nodes, row.as_slice())?;
    rows.push(row)?;
    Ok(true)
}

/// A row for each node, and all that they count among the nodes.
#[tactic(auto, using(crate::proofs::SuccessorLemmas::stays_same, crate::proofs::SuccessorLemmas::stays_on, crate::proofs::SuccessorLemmas::no_rows))]
pub(crate) fn rows_of(
    alloc: Global,
    numbered_service: &NumberedService<'_>,
    nodes: &mut IndexSet<NumberedNode>,
) -> Result<Vec<Vec<NumberedNode>>, AllocError>
    requires counted { CountsKept (price numbered_service.now) (kept numbered_service.now) }
    requires kept { Each (kept numbered_service.now) nodes.old.keys }
    ensures rows { IfOk result (λ rows. AreRows (price numbered_service.now) (kept numbered_service.now) nodes.new.keys rows.items) }
    ensures stays { OnOk result (Stays nodes.old.keys nodes.new.keys) }
    ensures all { IfOk result (λ rows. slice_get nodes.new.keys (length rows.items) ≡ None) }
{
    let mut rows = Vec::new(alloc);
    loop {
        if !more(alloc, numbered_service, nodes, &mut rows)? {
            return Ok(rows);
        }
    }
}
