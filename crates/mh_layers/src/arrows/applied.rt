//! The first action of an effect that counts a node, done to an object to which its target may come.
//!
//! Promise: what is found counts the node so; and where an action does, one is found.
ghost use Rattle.std.specs.Prelude.{◌≡◌, true, IfNone, IfOk, IfSome};
ghost use Rattle.mh_laws.specs.Costs.{targets};
ghost use Rattle.mh_laws.specs.Each.{Among};
ghost use Rattle.mh_layers.specs.Applied.{CountsNode, IsApplied, NoneApplied, NoneCounts};
ghost use Rattle.mh_layers.specs.Reading.{flow_read};

use crate::numbered::at::At;
use crate::numbered_node::NumberedNode;
use crate::price::meters::SoughtNode;
use crate::price::walk::Walk;
use mh_base::ObjRef;
use mh_model::{Act, Target};
use mh_prices::done_to;
use std::alloc::AllocError;
use std::marker::Model;
use std::slice;

/// One of several actions, by its place among them, and the object to which it is done.
#[derive(Drop)]
pub(crate) struct AppliedAction<'a> {
    pub offset: usize,
    pub act: &'a Act,
    pub at: &'a ObjRef,
}

impl<'a> Model for AppliedAction<'a> {
    ghost use Rattle.mh_layers.specs.Applied.{AppliedAction as AppliedActionLem};

    ghost Value = { AppliedActionLem };

    ghost view = { λ d. record { offset = d.offset; act = d.act.now; at = d.at.now } };
}

/// Whether the action, done to the object, counts the node.
fn counts_at(here: &At<'_>, act: &Act, at: &ObjRef, node: &NumberedNode) -> Result<bool, AllocError>
    ensures counts { let s = here.now in
        IfOk result (λ counts. counts ≡ true → CountsNode s.reading s.config act.now at.now node.now) }
    ensures all { let s = here.now in
        IfOk result (λ counts. CountsNode s.reading s.config act.now at.now node.now → counts ≡ true) }
{
    let sought = SoughtNode { node: *node };
    let walk = Walk {
        here,
        meter: &sought,
    };
    let counts = done_to(&walk, act.name, act.arguments.as_slice(), at, false)?;
    Ok(counts)
}

/// The objects to which the target may come.
fn targets<'a>(here: &'a At<'_>, target: &'a Target) -> &'a [ObjRef]
    ensures { let s = here.now in result.now ≡ targets (flow_read s.reading) s.config target.now }
{
    match target {
        Target::Direct(at) => slice::from_ref(at),
        Target::Through(variable) => here.set(variable),
    }
}

/// The first of these objects to which the action is done so that it counts the node; none only where it is so for none.
fn first_of<'a>(
    here: &At<'_>,
    act: &Act,
    objects: &'a [ObjRef],
    node: &NumberedNode,
) -> Result<Option<&'a ObjRef>, AllocError>
    ensures among { IfOk result (λ found. IfSome found (λ at. Among objects.now at.now)) }
    ensures counts { let s = here.now in
        IfOk result (λ found. IfSome found (λ at. CountsNode s.reading s.config act.now at.now node.now)) }
    ensures all { let s = here.now in
        IfOk result (λ found. IfNone found (NoneCounts s.reading s.config act.now objects.now node.now)) }
{
    for at in objects {
        if counts_at(here, act, at, node)? {
            return Ok(Some(at));
        }
    }
    Ok(None)
}

/// The first of these actions that counts the node; none only where no action does.
pub(crate) fn doing_of<'a>(
    here: &'a At<'_>,
    acts: &'a [Act],
    node: &NumberedNode,
) -> Result<Option<AppliedAction<'a>>, AllocError>
    ensures some { let s = here.now in IfOk result (λ found. IfSome found (IsApplied s.reading s.config acts.now node.now)) }
    ensures none { let s = here.now in IfOk result (λ found. IfNone found (NoneApplied s.reading s.config acts.now node.now)) }
{
    for offset in 0..acts.len() {
        let act = &acts[offset];
        let found = first_of(here, act, targets(here, &act.target), node)?;
        if let Some(at) = found {
            return Ok(Some(AppliedAction { offset, act, at }));
        }
    }
    Ok(None)
}
