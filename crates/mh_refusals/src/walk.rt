//! What is wrong in given configurations, listed.
ghost use Rattle.std.specs.Prelude.{◌≡◌, [], IfOk, OnOk};
ghost use Rattle.std.specs.List.{flat_map};
ghost use Rattle.mh_flow.specs.Sites.{sites_of};
ghost use Rattle.mh_flow.specs.Solved.{IsFlowOf, flow_in, held_by};
ghost use Rattle.mh_verify.specs.Refusals.{part_refused, refusals_in, wrong_at};
ghost use Rattle.mh_verify.specs.Samples.{AreSamples};
ghost use Rattle.mh_refusals.specs.Places.{listed};

use crate::members::list_parts;
use crate::places::put;
use crate::samples::{Samples, keep_for};
use crate::scope::{Scope, refused_at};
use indexmap::IndexMap;
use mh_flow::sites::sites_of;
use mh_flow::{Equipped, Flow, Site};
use mh_model::Config;
use mh_verify::Found;
use std::alloc::{AllocError, Global};

/// Lists what is wrong with the action at a site, where these are samples of what variables hold.
fn list_site(
    list: &mut Vec<Found>,
    most: usize,
    scope: &Scope<'_>,
    samples: &Samples,
    site: &Site<'_>,
) -> Result<(), AllocError>
    requires { AreSamples scope.now.present (held_by scope.now.present scope.now.held) samples.now.entries }
    ensures { let ps = scope.now.present in
        OnOk result (list.new.items ≡ listed most list.old.items
        (wrong_at scope.now.service.now ps (held_by ps scope.now.held) scope.now.config.now site.now)) }
{
    match refused_at(scope, samples, site)? {
        Some(found) => put(list, most, found),
        None => Ok(()),
    }
}

/// Lists what is wrong with the actions at these sites.
#[tactic(auto, using(std::proofs::lemmas::Grind::common_steps, crate::proofs::ListLemmas::listed_append))]
fn list_sites(
    alloc: Global,
    list: &mut Vec<Found>,
    most: usize,
    scope: &Scope<'_>,
    sites: &[Site<'_>],
) -> Result<(), AllocError>
    ensures { let ps = scope.now.present in
        OnOk result (list.new.items ≡ listed most list.old.items
        (flat_map (wrong_at scope.now.service.now ps (held_by ps scope.now.held) scope.now.config.now) sites.now)) }
{
    let mut samples = IndexMap::new(alloc);
    for site in sites {
        keep_for(alloc, &mut samples, scope, site.act)?;
        list_site(list, most, scope, &samples, site)?;
    }
    Ok(())
}

/// Lists what is wrong with the active effects of what is present.
fn list_effects(
    alloc: Global,
    list: &mut Vec<Found>,
    most: usize,
    scope: &Scope<'_>,
) -> Result<(), AllocError>
    ensures { let ps = scope.now.present in
        OnOk result (list.new.items ≡ listed most list.old.items
        (flat_map (wrong_at scope.now.service.now ps (held_by ps scope.now.held) scope.now.config.now) (sites_of ps))) }
{
    let sites = sites_of(alloc, &scope.present)?;
    list_sites(alloc, list, most, scope, sites.as_slice())
}

/// Lists what is wrong with the members of what is present.
#[tactic(auto, using(crate::proofs::ListLemmas::listed_joined))]
fn list_present(list: &mut Vec<Found>, most: usize, scope: &Scope<'_>) -> Result<(), AllocError>
    ensures { let ps = scope.now.present in
        OnOk result (list.new.items ≡ listed most list.old.items
        (flat_map (part_refused ps (held_by ps scope.now.held) scope.now.config.now) ps)) }
{
    let (application, scene) = scope.present.parts();
    list_parts(list, most, scope, application)?;
    list_parts(list, most, scope, scene)
}

/// Lists what is wrong in the configuration.
#[tactic(auto, using(crate::proofs::ListLemmas::listed_append))]
fn list_config(
    alloc: Global,
    list: &mut Vec<Found>,
    most: usize,
    service: &Equipped<'_>,
    flow: &Flow,
    config: &Config,
) -> Result<(), AllocError>
    requires { IsFlowOf service.now flow.now }
    ensures { OnOk result (list.new.items ≡ listed most list.old.items
        (refusals_in service.now (flow_in service.now flow.now) config.now)) }
{
    let scope = Scope {
        service,
        config,
        present: flow.present(service, config),
        held: flow.held(alloc, service, config)?,
    };
    list_present(list, most, &scope)?;
    list_effects(alloc, list, most, &scope)
}

/// What is wrong in these configurations, at most so many.
#[tactic(auto, using(std::proofs::lemmas::Grind::common_steps, crate::proofs::ListLemmas::listed_append))]
pub(crate) fn founds_in(
    alloc: Global,
    service: &Equipped<'_>,
    flow: &Flow,
    configs: &[Config],
    most: usize,
) -> Result<Vec<Found>, AllocError>
    requires { IsFlowOf service.now flow.now }
    ensures { IfOk result (λ list. list.items
        ≡ listed most [] (flat_map (refusals_in service.now (flow_in service.now flow.now)) configs.now)) }
{
    let mut list = Vec::new(alloc);
    for config in configs {
        list_config(alloc, &mut list, most, service, flow, config)?;
    }
    Ok(list)
}
