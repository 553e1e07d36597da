//! How a reference came to the variable or the list that may hold it.
ghost use Rattle.std.specs.Prelude.{◌≡◌, [], true, IfOk};
ghost use Rattle.std.specs.List.{Contains};
ghost use Rattle.mh_flow.specs.Chains.{IsFirstChain};
ghost use Rattle.mh_flow.specs.Solved.{IsFlowOf, flow_in};
ghost use Rattle.mh_laws.specs.Flow.{has};
ghost use Rattle.mh_verify.specs.Refusals.{all_refusals};
ghost use Rattle.mh_refusals.specs.Listed.{HasChain, IsHeld, IsHeldBy};

use crate::told::Told;
use mh_base::{ObjRef, Seq};
use mh_flow::chain::chain;
use mh_flow::{Equipped, Flow, Link};
use mh_verify::{Found, RefusalKind};
use std::alloc::{AllocError, Global};

/// The first of the shortest chains by which the reference came to what holds it.
fn links_to(
    alloc: Global,
    service: &Equipped<'_>,
    flow: &Flow,
    found: &Found,
    holder: &ObjRef,
) -> Result<Seq<Link>, AllocError>
    requires flow { IsFlowOf service.now flow.now }
    requires held { has ((flow_in service.now flow.now).sets found.now.config) holder.now found.now.object ≡ true }
    ensures { IfOk result (λ links. IsFirstChain service.now found.now.object found.now.config holder.now links) }
{
    match chain(alloc, service, flow, &found.config, holder, &found.object)? {
        Some(links) => Ok(Seq::from_vec(links)),
        None => unreachable!(),
    }
}

/// How what is held came there.
fn links_of_held(
    alloc: Global,
    service: &Equipped<'_>,
    flow: &Flow,
    found: &Found,
) -> Result<Seq<Link>, AllocError>
    requires flow { IsFlowOf service.now flow.now }
    requires held { IsHeld (flow_in service.now flow.now) found.now }
    ensures { IfOk result (λ links. IsHeldBy service.now (record { found = found.now; chain = links })) }
{
    let Some(holder) = &found.through else {
        unreachable!()
    };
    links_to(alloc, service, flow, found, holder)
}

/// How the reference came to its place; no link where it is written there.
fn links_of(
    alloc: Global,
    service: &Equipped<'_>,
    flow: &Flow,
    found: &Found,
) -> Result<Seq<Link>, AllocError>
    requires flow { IsFlowOf service.now flow.now }
    requires wrong { Contains (all_refusals service.now (flow_in service.now flow.now)) found.now }
    ensures { IfOk result (λ links. HasChain service.now (record { found = found.now; chain = links })) }
{
    match found.kind {
        RefusalKind::HeldAbsent => links_of_held(alloc, service, flow, found),
        RefusalKind::HeldWrongClass => links_of_held(alloc, service, flow, found),
        _ => Ok(Seq::new(alloc)),
    }
}

/// What is found, with how the reference came to its place.
pub(crate) fn told_of(
    alloc: Global,
    service: &Equipped<'_>,
    flow: &Flow,
    found: Found,
) -> Result<Told, AllocError>
    requires flow { IsFlowOf service.now flow.now }
    requires wrong { Contains (all_refusals service.now (flow_in service.now flow.now)) found }
    ensures found { IfOk result (λ told. told.found ≡ found) }
    ensures chain { IfOk result (HasChain service.now) }
{
    let chain = links_of(alloc, service, flow, &found)?;
    Ok(Told { found, chain })
}
