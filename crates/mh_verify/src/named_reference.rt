//! Which reference is named, where a variable or a list may hold several that are wrong at one place.
//!
//! Promise: it is the one that came there by the first of the shortest chains, and of those that came alike the smallest.
//! A reference that is written at the place is named as it was found.
ghost use Rattle.std.specs.Prelude.{◌≡◌, true, IfOk};
ghost use Rattle.mh_model.specs.Configuration.{present as present_there};
ghost use Rattle.mh_laws.specs.Flow.{has};
ghost use Rattle.mh_flow.specs.Chains.{IsFirstChain};
ghost use Rattle.mh_flow.specs.Solved.{IsFlowOf, flow_in};
ghost use Rattle.mh_verify.specs.Naming.{AreCandidates, AreHeld, AreNoSooner, IsBest, IsNamed, IsSoonest, IsWritten, candidates_at};
ghost use Rattle.mh_verify.specs.Order.{IsFirst};

use crate::candidates::candidates_at;
use crate::refusal_order::{may_be_sooner, sooner};
use crate::scope::Scope;
use crate::{Coming, Found, RefusalKind};
use mh_base::{ObjRef, Seq};
use mh_flow::chain::chain;
use mh_flow::chain::nearest::nearest_of;
use mh_flow::{Equipped, Flow, Link};
use mh_model::{Config, Rank, Reason};
use std::alloc::{AllocError, Global};

/// Objects that may be held and are absent.
struct AbsentHeld;

impl Rank for AbsentHeld {
    ghost use Rattle.mh_verify.specs.Naming.{absent_held};

    ghost order = { absent_held };

    fn rank(reason: Reason, held: bool) -> Option<u8> {
        match (reason, held) {
            (Reason::Absent, true) => Some(0),
            _ => None,
        }
    }
}

/// Objects that may be held and are of a wrong class.
struct ClassHeld;

impl Rank for ClassHeld {
    ghost use Rattle.mh_verify.specs.Naming.{class_held};

    ghost order = { class_held };

    fn rank(reason: Reason, held: bool) -> Option<u8> {
        match (reason, held) {
            (Reason::WrongClass, true) => Some(0),
            _ => None,
        }
    }
}

/// How the reference came to the variable or list that may hold it.
fn coming(
    alloc: Global,
    service: &Equipped<'_>,
    flow: &Flow,
    config: &Config,
    holder: &ObjRef,
    at: &ObjRef,
) -> Result<Coming, AllocError>
    requires flow { IsFlowOf service.now flow.now }
    requires held { has ((flow_in service.now flow.now).sets config.now) holder.now at.now ≡ true }
    ensures at { IfOk result (λ coming. coming.at ≡ at.now) }
    ensures chain { IfOk result (λ coming. IsFirstChain service.now at.now config.now holder.now coming.chain) }
{
    match chain(alloc, service, flow, config, holder, at)? {
        Some(links) => Ok(Coming {
            chain: Seq::from_vec(links),
            at: at.clone()?,
        }),
        None => unreachable!(),
    }
}

/// The one that came soonest of those that may have come by the places of this chain, where none came before it. Where the
/// best so far came by the very places, only a smaller reference is worth a search of its own; they are in their order, so
/// there is mostly one search.
fn soonest_origin(
    alloc: Global,
    service: &Equipped<'_>,
    flow: &Flow,
    config: &Config,
    holder: &ObjRef,
    links: &[Link],
    origins: &[ObjRef],
) -> Result<Option<Coming>, AllocError>
    requires flow { IsFlowOf service.now flow.now }
    requires held { AreHeld ((flow_in service.now flow.now).sets config.now) holder.now origins.now }
    requires first { AreNoSooner service.now config.now holder.now origins.now links.now }
    ensures { IfOk result (IsBest service.now config.now holder.now origins.now) }
{
    let mut best = None;
    for at in origins {
        if may_be_sooner(&best, links, at) {
            let next = coming(alloc, service, flow, config, holder, at)?;
            best = Some(sooner(best, next));
        }
    }
    Ok(best)
}

/// The one of these that came soonest to the variable or list.
fn soonest(
    alloc: Global,
    service: &Equipped<'_>,
    flow: &Flow,
    config: &Config,
    holder: &ObjRef,
    candidates: &[ObjRef],
) -> Result<Option<Coming>, AllocError>
    requires flow { IsFlowOf service.now flow.now }
    requires held { AreHeld ((flow_in service.now flow.now).sets config.now) holder.now candidates.now }
    ensures { IfOk result (IsBest service.now config.now holder.now candidates.now) }
{
    match nearest_of(alloc, service, flow, config, holder, candidates)? {
        None => Ok(None),
        Some(nearest) => soonest_origin(
            alloc,
            service,
            flow,
            config,
            holder,
            nearest.links.as_slice(),
            nearest.origins.as_slice(),
        ),
    }
}

/// The one that came soonest of what is wrong in this way where the refusal says, through that variable or list.
fn soonest_at<R: Rank>(
    alloc: Global,
    service: &Equipped<'_>,
    flow: &Flow,
    found: &Found,
    holder: &ObjRef,
) -> Result<Option<Coming>, AllocError>
    requires flow { IsFlowOf service.now flow.now }
    requires held { let c = found.now.config in let h = (flow_in service.now flow.now).sets c in
        AreHeld h holder.now (candidates_at R.order service.now (present_there service.now c) h holder.now found.now.place) }
    ensures { let c = found.now.config in let h = (flow_in service.now flow.now).sets c in
        IfOk result (IsBest service.now c holder.now
        (candidates_at R.order service.now (present_there service.now c) h holder.now found.now.place)) }
{
    let scope = Scope {
        service,
        config: &found.config,
        present: flow.present(service, &found.config),
        held: flow.held(alloc, service, &found.config)?,
    };
    let candidates = candidates_at::<R>(alloc, &scope, holder, &found.place)?;
    soonest(
        alloc,
        service,
        flow,
        &found.config,
        holder,
        candidates.as_slice(),
    )
}

/// The reference that was found, which is written at its place.
fn written(alloc: Global, found: &Found) -> Result<Coming, AllocError>
    ensures { IfOk result (IsWritten found.now) }
{
    Ok(Coming {
        chain: Seq::new(alloc),
        at: found.object.clone()?,
    })
}

/// The one that came soonest of what may be held and is wrong where the refusal says.
fn held<R: Rank>(
    alloc: Global,
    service: &Equipped<'_>,
    flow: &Flow,
    found: &Found,
) -> Result<Coming, AllocError>
    requires flow { IsFlowOf service.now flow.now }
    requires candidates { AreCandidates R.order service.now (flow_in service.now flow.now) found.now }
    ensures { IfOk result (IsSoonest service.now (flow_in service.now flow.now) found.now) }
{
    let Some(holder) = &found.through else {
        unreachable!()
    };
    match soonest_at::<R>(alloc, service, flow, found, holder)? {
        Some(coming) => Ok(coming),
        None => unreachable!(),
    }
}

/// What is named of what was found to be wrong, and how it came there.
pub fn named(
    alloc: Global,
    service: &Equipped<'_>,
    flow: &Flow,
    found: &Found,
) -> Result<Coming, AllocError>
    requires flow { IsFlowOf service.now flow.now }
    requires first { IsFirst service.now (flow_in service.now flow.now) found.now }
    ensures { IfOk result (IsNamed service.now (flow_in service.now flow.now) found.now) }
{
    match found.kind {
        RefusalKind::HeldAbsent => held::<AbsentHeld>(alloc, service, flow, found),
        RefusalKind::HeldWrongClass => held::<ClassHeld>(alloc, service, flow, found),
        _ => written(alloc, found),
    }
}
