//! All that is wrong with a service.
ghost use Rattle.std.specs.Prelude.{◌≡◌, map, IfOk};
ghost use Rattle.mh_flow.specs.Solved.{IsFlowOf, flow_in};
ghost use Rattle.mh_laws.specs.Each.{Each};
ghost use Rattle.std.specs.List.{Contains};
ghost use Rattle.mh_verify.specs.Refusals.{all_refusals};
ghost use Rattle.mh_refusals.specs.Listed.{AreRefusals, HasChain};

use crate::chains::told_of;
use crate::told::Told;
use crate::walk::founds_in;
use mh_flow::{Equipped, Flow, flow_of};
use mh_verify::Found;
use std::alloc::{AllocError, Global};

/// What is wrong with the service, a place each, in the order in which the verifier names them, and at most so many; none where
/// nothing is wrong in a configuration that is reached.
pub fn refusals_of(
    alloc: Global,
    service: &Equipped<'_>,
    most: usize,
) -> Result<Vec<Told>, AllocError>
    ensures { IfOk result (λ told. AreRefusals service.now most told.items) }
{
    let flow = flow_of(alloc, service)?;
    let told = refusals_by(alloc, service, &flow, most);
    drop(flow);
    told
}

/// The same, by the flow of the service.
fn refusals_by(
    alloc: Global,
    service: &Equipped<'_>,
    flow: &Flow,
    most: usize,
) -> Result<Vec<Told>, AllocError>
    requires { IsFlowOf service.now flow.now }
    ensures { IfOk result (λ told. AreRefusals service.now most told.items) }
{
    let configs = flow.configs(alloc)?;
    let founds = founds_in(alloc, service, flow, configs.as_slice(), most)?;
    told_all(alloc, service, flow, founds)
}

/// Each of these, with how its reference came to its place.
fn told_all(
    alloc: Global,
    service: &Equipped<'_>,
    flow: &Flow,
    founds: Vec<Found>,
) -> Result<Vec<Told>, AllocError>
    requires flow { IsFlowOf service.now flow.now }
    requires wrong { Each (Contains (all_refusals service.now (flow_in service.now flow.now))) founds.items }
    ensures founds { IfOk result (λ told. map (λ t. t.found) told.items ≡ founds.items) }
    ensures chains { IfOk result (λ told. Each (HasChain service.now) told.items) }
{
    let mut told = Vec::new(alloc);
    for found in founds {
        told.push(told_of(alloc, service, flow, found)?)?;
    }
    Ok(told)
}
