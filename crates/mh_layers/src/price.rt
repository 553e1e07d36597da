//! What each node of a numbered service comes to.
//!
//! Promise: the price of the node is added to the sum, by the numbers of nodes.

pub(crate) mod entries;
pub(crate) mod fired;
pub(crate) mod inputs;
pub(crate) mod late;
pub(crate) mod leaving;
pub(crate) mod meter;
pub(crate) mod meters;
pub(crate) mod priced;
pub(crate) mod taken;
pub(crate) mod walk;

ghost use Rattle.std.specs.Prelude.{◌≡◌, true};
ghost use Rattle.mh_prices.specs.Meter.{Adds};
ghost use Rattle.mh_layers.specs.declared.numbered_node.NumberedNode.TheVariants as node_lem;
ghost use Rattle.mh_layers.specs.CostNode.{Effect, Enter, Fired, Leave};
ghost use Rattle.mh_layers.specs.Numbered.{through};
ghost use Rattle.mh_layers.specs.Reading.{has_config, has_hearing, has_names, has_object, name, number as number_of, object_named, price_read};

use crate::bounds::InputKind;
use crate::numbered::NumberedService;
use crate::numbered::named::{context_at, hearing, object};
use crate::numbered_node::{Hears, NumberedNode};
use crate::price::entries::configs_most;
use crate::price::fired::fired;
use crate::price::leaving::{entering, leave};
use crate::price::meter::Meter;
use crate::price::taken::taken;
use crate::price::walk::Walk;
use mh_base::{EventType, ObjRef};
use mh_prices::{acts, change};
use std::alloc::AllocError;

// Effects

/// What an effect of an object comes to: nothing, if it is not active.
fn effect<M: Meter>(
    walk: &Walk<'_, M>,
    object: usize,
    at: &ObjRef,
    number: usize,
    sum: M::Sum,
) -> Result<M::Sum, AllocError>
    requires object { has_object walk.now.here.now.reading object ≡ true }
    requires named { at.now ≡ object_named walk.now.here.now.reading object }
    ensures { let s = walk.now.here.now in let m = through (number_of s.reading) (M.meter walk.now.meter.now) in
        Adds M.seen m (price_read s.reading (Effect s.config at.now number)) sum result }
{
    match walk.here.find(at) {
        None => Ok(sum),
        Some(part) => {
            if walk.here.is_active(part) {
                let effects = walk.here.numbered_service().effects(object);
                let own = effects.acts(number);
                acts(walk, own, sum)
            } else {
                Ok(sum)
            }
        }
    }
}

// Nodes

fn effect_node<M: Meter>(
    numbered_service: &NumberedService<'_>,
    meter: &M,
    config: usize,
    place: usize,
    number: usize,
    sum: M::Sum,
) -> Result<M::Sum, AllocError>
    requires config { has_config numbered_service.now config ≡ true }
    requires object { has_object numbered_service.now place ≡ true }
    ensures { let r = numbered_service.now in let m = through (number_of r) (M.meter meter.now) in
        Adds M.seen m (price_read r (name r (node_lem.Effect config place number))) sum result }
{
    let here = context_at(numbered_service, config);
    let at = object(numbered_service, place);
    let walk = Walk { here: &here, meter };
    effect(&walk, place, at, number, sum)
}

fn fired_node<M: Meter>(
    numbered_service: &NumberedService<'_>,
    meter: &M,
    config: usize,
    source: usize,
    kind: EventType,
    hears: Hears,
    sum: M::Sum,
) -> Result<M::Sum, AllocError>
    requires config { has_config numbered_service.now config ≡ true }
    requires object { has_object numbered_service.now source ≡ true }
    requires hearing { has_hearing numbered_service.now (object_named numbered_service.now source) kind hears ≡ true }
    ensures { let r = numbered_service.now in let m = through (number_of r) (M.meter meter.now) in
        Adds M.seen m (price_read r (name r (node_lem.Fired config source kind hears))) sum result }
{
    let here = context_at(numbered_service, config);
    let source = object(numbered_service, source);
    let walk = Walk { here: &here, meter };
    fired(&walk, source, kind, hears, sum)
}

#[tactic(auto, using(crate::proofs::OntoLemmas::entry_adds))]
fn entry_node<M: Meter>(
    numbered_service: &NumberedService<'_>,
    meter: &M,
    source: usize,
    kind: EventType,
    hears: Hears,
    sum: M::Sum,
) -> Result<M::Sum, AllocError>
    requires object { has_object numbered_service.now source ≡ true }
    requires hearing { has_hearing numbered_service.now (object_named numbered_service.now source) kind hears ≡ true }
    ensures { let r = numbered_service.now in let m = through (number_of r) (M.meter meter.now) in
        Adds M.seen m (price_read r (name r (node_lem.Entry source kind hears))) sum result }
{
    let source = object(numbered_service, source);
    let hears = hearing(numbered_service, source, kind, hears);
    configs_most(numbered_service, meter, source, kind, hears, meter.one(sum))
}

fn change_node<M: Meter>(
    numbered_service: &NumberedService<'_>,
    meter: &M,
    config: usize,
    list: usize,
    sum: M::Sum,
) -> Result<M::Sum, AllocError>
    requires config { has_config numbered_service.now config ≡ true }
    requires object { has_object numbered_service.now list ≡ true }
    ensures { let r = numbered_service.now in let m = through (number_of r) (M.meter meter.now) in
        Adds M.seen m (price_read r (name r (node_lem.Change config list))) sum result }
{
    let here = context_at(numbered_service, config);
    let list = object(numbered_service, list);
    change(&Walk { here: &here, meter }, list, sum)
}

fn leave_node<M: Meter>(
    numbered_service: &NumberedService<'_>,
    meter: &M,
    config: usize,
    all: bool,
    sum: M::Sum,
) -> Result<M::Sum, AllocError>
    requires config { has_config numbered_service.now config ≡ true }
    ensures { let r = numbered_service.now in let m = through (number_of r) (M.meter meter.now) in
        Adds M.seen m (price_read r (name r (node_lem.Leave config all))) sum result }
{
    let here = context_at(numbered_service, config);
    leave(&Walk { here: &here, meter }, all, sum)
}

fn enter_node<M: Meter>(
    numbered_service: &NumberedService<'_>,
    meter: &M,
    config: usize,
    sum: M::Sum,
) -> Result<M::Sum, AllocError>
    requires config { has_config numbered_service.now config ≡ true }
    ensures { let r = numbered_service.now in let m = through (number_of r) (M.meter meter.now) in
        Adds M.seen m (price_read r (name r (node_lem.Enter config))) sum result }
{
    let here = context_at(numbered_service, config);
    entering(&Walk { here: &here, meter }, sum)
}

fn taken_node<M: Meter>(
    numbered_service: &NumberedService<'_>,
    meter: &M,
    config: usize,
    kind: InputKind,
    sum: M::Sum,
) -> Result<M::Sum, AllocError>
    requires config { has_config numbered_service.now config ≡ true }
    ensures { let r = numbered_service.now in let m = through (number_of r) (M.meter meter.now) in
        Adds M.seen m (price_read r (name r (node_lem.Taken config kind))) sum result }
{
    let here = context_at(numbered_service, config);
    taken(&Walk { here: &here, meter }, kind, sum)
}

/// What the node with this number comes to.
pub(crate) fn price<M: Meter>(
    numbered_service: &NumberedService<'_>,
    meter: &M,
    node: &NumberedNode,
    sum: M::Sum,
) -> Result<M::Sum, AllocError>
    requires { has_names numbered_service.now node.now ≡ true }
    ensures { let r = numbered_service.now in let m = through (number_of r) (M.meter meter.now) in
        Adds M.seen m (price_read r (name r node.now)) sum result }
{
    match node {
        NumberedNode::Effect(config, at, number) => {
            effect_node(numbered_service, meter, *config, *at, *number, sum)
        }
        NumberedNode::Fired(config, source, kind, hears) => {
            fired_node(
                numbered_service,
                meter,
                *config,
                *source,
                *kind,
                *hears,
                sum,
            )
        }
        NumberedNode::Entry(source, kind, hears) => {
            entry_node(numbered_service, meter, *source, *kind, *hears, sum)
        }
        NumberedNode::Change(config, list) => change_node(
            numbered_service,
            meter,
            *config,
            *list,
            sum,
        ),
        NumberedNode::Leave(config, all) => leave_node(numbered_service, meter, *config, *all, sum),
        NumberedNode::Enter(config) => enter_node(numbered_service, meter, *config, sum),
        NumberedNode::Taken(config, kind) => taken_node(
            numbered_service,
            meter,
            *config,
            *kind,
            sum,
        ),
    }
}
