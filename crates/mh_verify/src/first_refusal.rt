//! What is wrong in given configurations, and which of it comes first.
ghost use Rattle.std.specs.Prelude.{◌≡◌, None, IfOk};
ghost use Rattle.std.specs.List.{flat_map};
ghost use Rattle.mh_flow.specs.Sites.{sites_of};
ghost use Rattle.mh_flow.specs.Solved.{IsFlowOf, flow_in, held_by};
ghost use Rattle.mh_verify.specs.Refusals.{part_refused, wrong_at, refusals_in};
ghost use Rattle.mh_verify.specs.Least.{least_of};

use crate::Found;
use crate::members::least_of_groups;
use crate::refusal_order::lesser;
use crate::samples::keep_for;
use crate::scope::{Scope, refused_at};
use indexmap::IndexMap;
use mh_flow::sites::sites_of;
use mh_flow::{Equipped, Flow, Site};
use mh_model::Config;
use std::alloc::{AllocError, Global};

/// The first of what is wrong with the actions at these sites, and of the best so far.
#[tactic(auto, using(crate::proofs::LeastLemmas::least_append))]
fn least_of_sites(
    alloc: Global,
    best: Option<Found>,
    scope: &Scope<'_>,
    sites: &[Site<'_>],
) -> Result<Option<Found>, AllocError>
    ensures { let ps = scope.now.present in
        IfOk result (λ least. least ≡ least_of best
        (flat_map (wrong_at scope.now.service.now ps (held_by ps scope.now.held) scope.now.config.now) sites.now)) }
{
    let mut best = best;
    let mut samples = IndexMap::new(alloc);
    for site in sites {
        keep_for(alloc, &mut samples, scope, site.act)?;
        if let Some(found) = refused_at(scope, &samples, site)? {
            best = Some(lesser(best, found));
        }
    }
    Ok(best)
}

/// The first of what is wrong with the active effects of what is present, and of the best so far.
fn least_of_effects(
    alloc: Global,
    best: Option<Found>,
    scope: &Scope<'_>,
) -> Result<Option<Found>, AllocError>
    ensures { let ps = scope.now.present in
        IfOk result (λ least. least ≡ least_of best
        (flat_map (wrong_at scope.now.service.now ps (held_by ps scope.now.held) scope.now.config.now) (sites_of ps))) }
{
    let sites = sites_of(alloc, &scope.present)?;
    least_of_sites(alloc, best, scope, sites.as_slice())
}

/// The first of what is wrong with the members of what is present, and of the best so far.
#[tactic(auto, using(crate::proofs::LeastLemmas::least_joined))]
fn least_of_present(best: Option<Found>, scope: &Scope<'_>) -> Result<Option<Found>, AllocError>
    ensures { let ps = scope.now.present in
        IfOk result (λ least. least ≡ least_of best
        (flat_map (part_refused ps (held_by ps scope.now.held) scope.now.config.now) ps)) }
{
    let (application, scene) = scope.present.parts();
    let best = least_of_groups(best, scope, application)?;
    least_of_groups(best, scope, scene)
}

/// The first of what is wrong in the configuration, and of the best so far.
#[tactic(auto, using(crate::proofs::LeastLemmas::least_append))]
fn least_in(
    alloc: Global,
    best: Option<Found>,
    service: &Equipped<'_>,
    flow: &Flow,
    config: &Config,
) -> Result<Option<Found>, AllocError>
    requires { IsFlowOf service.now flow.now }
    ensures { IfOk result (λ least. least ≡ least_of best
        (refusals_in service.now (flow_in service.now flow.now) config.now)) }
{
    let scope = Scope {
        service,
        config,
        present: flow.present(service, config),
        held: flow.held(alloc, service, config)?,
    };
    let best = least_of_present(best, &scope)?;
    least_of_effects(alloc, best, &scope)
}

/// The first of what is wrong in these configurations.
#[tactic(auto, using(std::proofs::lemmas::Grind::common_steps, crate::proofs::LeastLemmas::least_append))]
pub fn first_in(
    alloc: Global,
    service: &Equipped<'_>,
    flow: &Flow,
    configs: &[Config],
) -> Result<Option<Found>, AllocError>
    requires { IsFlowOf service.now flow.now }
    ensures { IfOk result (λ first. first ≡ least_of None
        (flat_map (refusals_in service.now (flow_in service.now flow.now)) configs.now)) }
{
    let mut best = None;
    for config in configs {
        best = least_in(alloc, best, service, flow, config)?;
    }
    Ok(best)
}
