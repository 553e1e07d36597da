//! Effects by their numbers, as causes; and labels for their places.
//!
//! Promise: a cause is that of the effect with the number, and labels are in the order of places.
ghost use Rattle.std.specs.Prelude.{◌≡◌, ◌∷◌, [], suc, get_or, length, map, slice_get, take, None, true, IfOk, OnOk};
ghost use Rattle.std.specs.List.{flat_map};
ghost use Rattle.std.specs.Option.{option_copied, option_map, option_map_or};
ghost use Rattle.indexmap.specs.IndexSet.{insert_all};
ghost use Rattle.mh_model.specs.Configuration.{present};
ghost use Rattle.mh_model.specs.Service.{part_at};
ghost use Rattle.mh_laws.specs.Costs.{effects};
ghost use Rattle.mh_laws.specs.Each.{Each};
ghost use Rattle.mh_layers.specs.Cycle as spec;
ghost use Rattle.mh_layers.specs.Named.{IsEffectKept};
ghost use Rattle.mh_layers.specs.Reading.{has_config, has_object, kept, object_named};
ghost use Rattle.mh_layers.specs.EffectSites.{AreEffectSites, cause_by, cause_named, label_in, same_effect_site, effect_site_cmp, effect_site_named, effect_site_number};
ghost use Rattle.mh_layers.specs.NodeGraph.{label_to};

use crate::cause::Cause;
use crate::numbered::NumberedService;
use crate::numbered::effect_row::EffectRow;
use crate::numbered::named::object;
use crate::numbered_node::NumberedNode;
use indexmap::IndexSet;
use mh_base::ObjRef;
use mh_flow::order::{by_config, by_reference};
use mh_group::ActionName;
use mh_model::{Act, Config};
use std::alloc::{AllocError, Global};
use std::cmp::Ordering;

/// The place of an action: its object, and its number through the object's effects.
#[derive(Drop, PartialEq, Eq, Hash)]
pub struct EffectSite {
    pub at: ObjRef,
    pub index: usize,
}

// Causes

/// The effects of the object with this number, if it is present in the configuration.
fn effects_in<'a>(
    numbered_service: &'a NumberedService<'_>,
    config: &'a Config,
    place: usize,
) -> Option<&'a EffectRow<'a>>
    requires { has_object numbered_service.now place ≡ true }
    ensures { let r = numbered_service.now in
        option_copied result ≡ option_map effects (part_at (object_named r place) (present r.service config.now)) }
{
    let present = numbered_service.present(config);
    match present.find(object(numbered_service, place)) {
        None => None,
        Some(_) => Some(numbered_service.effects(place)),
    }
}

/// The number of the first action of the effect with this number, if there are effects.
fn index_in(effects: Option<&EffectRow<'_>>, number: usize) -> usize
    ensures { result ≡ option_map_or (λ es. suc (length (flat_map (λ e. e) (take number es)))) (option_copied effects.entry) 1 }
{
    match effects {
        None => 1,
        Some(effects) => effects.first(number),
    }
}

/// The name of the first of these actions.
fn first_name(acts: &[Act]) -> Option<ActionName>
    ensures { result ≡ option_map (λ a. a.name) (slice_get acts.now 0) }
{
    match acts.first() {
        None => None,
        Some(act) => Some(act.name),
    }
}

fn action_in(effects: Option<&EffectRow<'_>>, number: usize) -> Option<ActionName>
    ensures { result ≡ option_map_or (λ es. option_map (λ a. a.name) (slice_get (get_or es number []) 0)) (option_copied effects.entry) None }
{
    match effects {
        None => None,
        Some(effects) => first_name(effects.acts(number)),
    }
}

pub(crate) fn copied_config(config: &Config) -> Result<Config, AllocError>
    ensures { IfOk result (λ copy. copy ≡ config.now) }
{
    config.clone()
}

pub(crate) fn copied_reference(at: &ObjRef) -> Result<ObjRef, AllocError>
    ensures { IfOk result (λ copy. copy ≡ at.now) }
{
    at.clone()
}

/// The effect as a cause.
pub(crate) fn cause_at(
    numbered_service: &NumberedService<'_>,
    config: &Config,
    place: usize,
    number: usize,
) -> Result<Cause, AllocError>
    requires { has_object numbered_service.now place ≡ true }
    ensures { let r = numbered_service.now in
        IfOk result (λ cause. cause ≡ spec.cause_of r.service (record { config = config.now; object = object_named r place; number = number })) }
{
    let effects = effects_in(numbered_service, config, place);
    let action = action_in(effects, number);
    let index = index_in(effects, number);
    let config = copied_config(config)?;
    let at = copied_reference(object(numbered_service, place))?;
    Ok(Cause {
        config,
        at,
        index,
        action,
    })
}

/// The effect with these numbers as a cause.
#[tactic(auto, using(crate::proofs::EffectSiteLemmas::cause_found))]
fn cause_by(
    numbered_service: &NumberedService<'_>,
    config: usize,
    place: usize,
    number: usize,
) -> Result<Cause, AllocError>
    requires config { has_config numbered_service.now config ≡ true }
    requires object { has_object numbered_service.now place ≡ true }
    ensures { IfOk result (λ cause. cause ≡ cause_by numbered_service.now config place number) }
{
    let Some(config) = numbered_service.config_at(config) else {
        unreachable!();
    };
    let cause = cause_at(numbered_service, config, place, number)?;
    Ok(cause)
}

/// The effect with this number as a cause.
pub(crate) fn cause_of(
    numbered_service: &NumberedService<'_>,
    node: &NumberedNode,
) -> Result<Cause, AllocError>
    requires { IsEffectKept numbered_service.now node.now }
    ensures { IfOk result (λ cause. cause ≡ cause_named numbered_service.now node.now) }
{
    numbered_service.read();
    match node {
        NumberedNode::Effect(config, place, number) => cause_by(
            numbered_service,
            *config,
            *place,
            *number,
        ),
        _ => unreachable!(),
    }
}

// Orders

fn by_place(first: &Cause, second: &Cause) -> Ordering
    ensures { result ≡ spec.by_place first.now second.now }
{
    by_reference(&first.at, &second.at).then(first.index.cmp(&second.index))
}

/// By place, then by configuration.
pub(crate) fn by_effect_site(first: &Cause, second: &Cause) -> Ordering
    ensures { result ≡ spec.by_effect_site first.now second.now }
{
    by_place(first, second).then(by_config(&first.config, &second.config))
}

// Labels

fn by_order(first: &EffectSite, second: &EffectSite) -> Ordering
    ensures { result ≡ effect_site_cmp first.now second.now }
{
    by_reference(&first.at, &second.at).then(first.index.cmp(&second.index))
}

/// Where the effect with this number stands.
fn place_of(
    numbered_service: &NumberedService<'_>,
    node: &NumberedNode,
) -> Result<EffectSite, AllocError>
    requires { IsEffectKept numbered_service.now node.now }
    ensures { IfOk result (λ effect_site. effect_site ≡ effect_site_named numbered_service.now node.now) }
{
    let cause = cause_of(numbered_service, node)?;
    Ok(EffectSite {
        at: cause.at,
        index: cause.index,
    })
}

/// Puts where it stands among these.
fn put(
    effect_sites: &mut IndexSet<EffectSite>,
    numbered_service: &NumberedService<'_>,
    node: &NumberedNode,
) -> Result<(), AllocError>
    requires { IsEffectKept numbered_service.now node.now }
    ensures { OnOk result (effect_sites.new.keys ≡ insert_all same_effect_site effect_sites.old.keys (effect_site_named numbered_service.now node.now ∷ [])) }
{
    effect_sites.insert(place_of(numbered_service, node)?)?;
    Ok(())
}

/// Where these effects stand, as they come.
fn met(
    alloc: Global,
    numbered_service: &NumberedService<'_>,
    nodes: &[NumberedNode],
) -> Result<IndexSet<EffectSite>, AllocError>
    requires { Each (IsEffectKept numbered_service.now) nodes.now }
    ensures { IfOk result (λ effect_sites. effect_sites.keys ≡ insert_all same_effect_site [] (map (effect_site_named numbered_service.now) nodes.now)) }
{
    let mut effect_sites = IndexSet::new(alloc);
    for node in nodes {
        put(&mut effect_sites, numbered_service, node)?;
    }
    Ok(effect_sites)
}

/// Where these effects stand, in the order of places.
pub(crate) fn effect_sites_of(
    alloc: Global,
    numbered_service: &NumberedService<'_>,
    nodes: &[NumberedNode],
) -> Result<IndexSet<EffectSite>, AllocError>
    requires { Each (IsEffectKept numbered_service.now) nodes.now }
    ensures { IfOk result (λ effect_sites. AreEffectSites numbered_service.now nodes.now effect_sites.keys) }
{
    let mut effect_sites = met(alloc, numbered_service, nodes)?;
    effect_sites.sort_by(by_order)?;
    Ok(effect_sites)
}

/// The number of the place.
fn number_of(effect_sites: &IndexSet<EffectSite>, effect_site: &EffectSite) -> usize
    ensures { result ≡ effect_site_number effect_sites.now.keys effect_site.now }
{
    effect_sites.get_index_of(effect_site).unwrap_or(0)
}

/// The label of an arrow to an effect: the number of its place.
fn label_of(
    numbered_service: &NumberedService<'_>,
    effect_sites: &IndexSet<EffectSite>,
    node: &NumberedNode,
) -> Result<u64, AllocError>
    requires { IsEffectKept numbered_service.now node.now }
    ensures { IfOk result (λ label. label ≡ label_in numbered_service.now effect_sites.now.keys node.now) }
{
    let place = place_of(numbered_service, node)?;
    Ok(number_of(effect_sites, &place) as u64)
}

/// The label of an arrow to this node, if it has one.
#[tactic(auto, using(crate::proofs::EffectSiteLemmas::label_tells))]
fn label_to(
    numbered_service: &NumberedService<'_>,
    effect_sites: &IndexSet<EffectSite>,
    node: &NumberedNode,
) -> Result<Option<u64>, AllocError>
    requires { kept numbered_service.now node.now }
    ensures { IfOk result (λ label. label ≡ label_to (label_in numbered_service.now effect_sites.now.keys) node.now) }
{
    match node {
        NumberedNode::Effect(..) => Ok(Some(label_of(numbered_service, effect_sites, node)?)),
        _ => Ok(None),
    }
}

/// The labels of arrows to these nodes.
pub(crate) fn labels_of(
    alloc: Global,
    numbered_service: &NumberedService<'_>,
    effect_sites: &IndexSet<EffectSite>,
    nodes: &[NumberedNode],
) -> Result<Vec<Option<u64>>, AllocError>
    requires { Each (kept numbered_service.now) nodes.now }
    ensures { IfOk result (λ labels. labels.items ≡ map (label_to (label_in numbered_service.now effect_sites.now.keys)) nodes.now) }
{
    let mut labels = Vec::new(alloc);
    for node in nodes {
        labels.push(label_to(numbered_service, effect_sites, node)?)?;
    }
    Ok(labels)
}
