//! Whether effects put themselves to work, and to how many steps the start and each input can lead.
//!
//! Promise: of a service in which nothing can be stuck, the first cycle of its effects is told, or the first kind of
//! input that can lead to too many steps, or its bounds. Why something can be stuck is left to `first_refusal`.
ghost use Rattle.std.specs.Prelude.{IfOk};
ghost use Rattle.mh_laws.specs.Acceptable.{IsAcceptableBy};
ghost use Rattle.mh_flow.specs.Solved.{IsFlowOf, flow_in};
ghost use Rattle.mh_layers.specs.Cycle.{NoCycles};
ghost use Rattle.mh_layers.specs.Layered.{AreLayersOf};
ghost use Rattle.mh_verify.specs.Verdicts.{IsVerdict};

use crate::verdict::{Cycle, Verdict};
use mh_flow::{Equipped, Flow};
use mh_layers::{Layers, LayersError, first_cycle, lay_service};
use std::alloc::{AllocError, Global};

/// The most steps to which the start of an accepted service, and each of its inputs, can lead.
pub const MOST_COST: u64 = 1_000_000;

/// What is found of a service in which nothing can be stuck.
pub fn bound(alloc: Global, service: &Equipped<'_>, flow: &Flow) -> Result<Verdict, AllocError>
    requires flow { IsFlowOf service.now flow.now }
    requires acceptable { IsAcceptableBy service.now (flow_in service.now flow.now) }
    ensures { IfOk result (IsVerdict service.now flow.now) }
{
    match lay_service(alloc, service, flow) {
        Ok(layers) => {
            let verdict = by_layers(service, flow, &layers);
            Ok(verdict)
        }
        Err(LayersError::Cycle) => cyclic(alloc, service, flow),
        Err(LayersError::NoMemory) => Err(AllocError),
    }
}

/// What its layers say of it.
fn by_layers(service: &Equipped<'_>, flow: &Flow, layers: &Layers<'_>) -> Verdict
    requires flow { IsFlowOf service.now flow.now }
    requires acceptable { IsAcceptableBy service.now (flow_in service.now flow.now) }
    requires layers { AreLayersOf service.now flow.now layers.now }
    ensures { IsVerdict service.now flow.now result }
{
    let bounds = layers.bounds();
    match bounds.first_above(MOST_COST) {
        None => Verdict::Fine(bounds),
        Some(kind) => Verdict::Costly(kind),
    }
}

/// The first cycle of a service that has no layers.
#[tactic(auto, using(crate::proofs::CycleRefusedLemmas::some_arrows))]
fn cyclic(alloc: Global, service: &Equipped<'_>, flow: &Flow) -> Result<Verdict, AllocError>
    requires flow { IsFlowOf service.now flow.now }
    requires looped { NoCycles service.now (flow_in service.now flow.now) → ⊥ }
    requires acceptable { IsAcceptableBy service.now (flow_in service.now flow.now) }
    ensures { IfOk result (IsVerdict service.now flow.now) }
{
    match first_cycle(alloc, service, flow)? {
        Some(arrows) => Ok(Verdict::Cyclic(Cycle::of(arrows)?)),
        None => unreachable!(),
    }
}
