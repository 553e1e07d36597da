//! The nodes that a node counts, at once or by way of nodes that are no effects.
//!
//! Promise: each of them is found, and no other.
ghost use Rattle.std.specs.Prelude.{◌≡◌, ◌<◌, ◌^◌, None, Some, true, false, slice_get, IfOk, OnOk};
ghost use Rattle.mh_laws.specs.Each.{Each};
ghost use Rattle.mh_layers.specs.Caused.{AreReached, IsNamed, IsOpened, IsPut};
ghost use Rattle.mh_layers.specs.Reading.{IsReading, kept};
ghost use Rattle.mh_layers.specs.Stretches.{is_effect_node};

use crate::cycle::successors::{node_at, put_all};
use crate::numbered::NumberedService;
use crate::numbered_node::NumberedNode;
use crate::price::priced::counted_nodes;
use indexmap::IndexSet;
use std::alloc::{AllocError, Global};

fn is_effect(node: &NumberedNode) -> bool
    ensures { result ≡ is_effect_node node.now }
{
    matches!(node, NumberedNode::Effect(..))
}

/// Puts what the node counts among these.
fn put_counted(
    alloc: Global,
    numbered_service: &NumberedService<'_>,
    found: &mut IndexSet<NumberedNode>,
    node: &NumberedNode,
) -> Result<(), AllocError>
    requires { kept numbered_service.now node.now }
    ensures { OnOk result (IsPut numbered_service.now node.now found.old.keys found.new.keys) }
{
    let row = counted_nodes(alloc, numbered_service, node)?;
    put_all(found, row.as_slice())?;
    Ok(())
}

/// The same with what this node counts, if it is no effect.
#[tactic(auto, using(crate::proofs::CausedLemmas::opened_effect, crate::proofs::CausedLemmas::opened_other))]
fn open(
    alloc: Global,
    numbered_service: &NumberedService<'_>,
    found: &mut IndexSet<NumberedNode>,
    place: usize,
    node: &NumberedNode,
) -> Result<(), AllocError>
    requires reading { IsReading numbered_service.now }
    requires there { slice_get found.old.keys place ≡ Some node.now }
    requires kept { kept numbered_service.now node.now }
    ensures opened { OnOk result (IsOpened numbered_service.now place found.old.keys found.new.keys) }
{
    if is_effect(node) {
        return Ok(());
    }
    put_counted(alloc, numbered_service, found, node)?;
    Ok(())
}

/// The same with what the node at this place counts; whether there was such a node.
#[tactic(auto, using(crate::proofs::CausedLemmas::opened_none))]
fn open_at(
    alloc: Global,
    numbered_service: &NumberedService<'_>,
    found: &mut IndexSet<NumberedNode>,
    place: usize,
) -> Result<bool, AllocError>
    requires reading { IsReading numbered_service.now }
    requires kept { Each (kept numbered_service.now) found.old.keys }
    ensures opened { OnOk result (IsOpened numbered_service.now place found.old.keys found.new.keys) }
    ensures all { IfOk result (λ more. more ≡ false → slice_get found.new.keys place ≡ None) }
    ensures within { IfOk result (λ more. more ≡ true → place < 2 ^ 63) }
{
    let _ = found.len();
    match node_at(found, place) {
        None => Ok(false),
        Some(node) => {
            open(alloc, numbered_service, found, place, &node)?;
            Ok(true)
        }
    }
}

/// All that the node counts, at once or by way of nodes that are no effects.
#[tactic(auto, using(crate::proofs::CausedLemmas::opened_first, crate::proofs::CausedLemmas::all_opened))]
pub(crate) fn reached_from(
    alloc: Global,
    numbered_service: &NumberedService<'_>,
    root: &NumberedNode,
) -> Result<IndexSet<NumberedNode>, AllocError>
    requires reading { IsReading numbered_service.now }
    requires root { IsNamed numbered_service.now root.now }
    ensures { IfOk result (λ found. AreReached numbered_service.now root.now found.keys) }
{
    let mut found = IndexSet::new(alloc);
    put_counted(alloc, numbered_service, &mut found, root)?;
    let mut place: usize = 0;
    loop {
        if !open_at(alloc, numbered_service, &mut found, place)? {
            return Ok(found);
        }
        place += 1;
    }
}
