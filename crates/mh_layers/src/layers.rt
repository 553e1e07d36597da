//! `Layers`: what every effect of a service costs, and its rank; and the most that the start and an input of each kind
//! can cost.
//!
//! Promise: the ranks are a layering, each active effect has its exact cost, and so have the start and the costliest
//! inputs, cut at the largest number of 64 bits; a cycle is told only where no layering is.
ghost use Rattle.std.specs.Prelude.{◌≡◌, max, true, IfOk, IsErrOf};
ghost use Rattle.std.specs.List.{list_all};
ghost use Rattle.mh_model.specs.Configuration.{starting};
ghost use Rattle.mh_laws.specs.Layers.{IsLayering};
ghost use Rattle.mh_flow.specs.Solved.{IsFlowOf, flow_in};
ghost use Rattle.mh_layers.specs.declared.numbered_node.NumberedNode.TheVariants as node;
ghost use Rattle.mh_layers.specs.Bridge.{node_of};
ghost use Rattle.mh_layers.specs.Cycle.{NoCycles};
ghost use Rattle.mh_layers.specs.Layered.{AreLayersOf, cost_laid, rank_laid, root_nodes};
ghost use Rattle.mh_layers.specs.Layering.{AreLayers, NoneRanked, cost_in, is_laid};
ghost use Rattle.mh_layers.specs.Looping.{HasLoop};
ghost use Rattle.mh_layers.specs.Reading.{config_number, kept, number as number_of_node, price};
ghost use Rattle.mh_layers.specs.Taking.{bound_laid, bounds_laid, largest_from, or_nothing, taken_laid};

use crate::bounds::{Bounds, InputKind};
use crate::laying::roots::{lay_roots, start_number};
use crate::laying::{LayersError, Laying};
use crate::numbered::NumberedService;
use crate::numbered_node::NumberedNode;
use mh_base::ObjRef;
use mh_flow::{Equipped, Flow};
use mh_model::Config;
use std::alloc::Global;
use std::marker::Model;

/// Costs and ranks of the effects of a service, and the bounds of its start and its inputs.
#[derive(Drop)]
pub struct Layers<'a> {
    numbered_service: NumberedService<'a>,
    laying: Laying,
    bounds: Bounds,
}

impl<'a> Model for Layers<'a> {
    ghost use Rattle.mh_layers.specs.Layered.{Layered};

    ghost Value = { Layered };

    ghost view = { λ l. record {
      reading = l.numbered_service;
      places = l.laying;
      bounds = l.bounds;
    } };
}

impl<'a> Layers<'a> {
    /// The most steps to which the start, and an input of each kind, can lead.
    pub fn bounds(&self) -> Bounds
        ensures { result ≡ self.now.bounds }
    {
        self.bounds
    }

    /// The rank of an effect, and 0 of one that is not laid: the object's effects are start-up, close-down, what a link does, and
    /// then slots.
    pub fn rank(&self, config: &Config, at: &ObjRef, number: usize) -> usize
        ensures { result ≡ rank_laid self.now (record { config = config.now; object = at.now; number = number }) }
    {
        match self.laying.costs().laid(&self.node(config, at, number)) {
            None => 0,
            Some(laid) => laid.rank,
        }
    }

    /// What the effect costs; nothing, if it is not laid. An active effect is not laid only if it has no actions; of one that is
    /// active nowhere this says nothing.
    pub fn cost(&self, config: &Config, at: &ObjRef, number: usize) -> u64
        ensures { result ≡ cost_laid self.now (record { config = config.now; object = at.now; number = number }) }
    {
        match self.laying.costs().laid(&self.node(config, at, number)) {
            None => 0,
            Some(laid) => laid.cost,
        }
    }

    fn node(&self, config: &Config, at: &ObjRef, number: usize) -> NumberedNode
        ensures { result ≡ number_of_node self.now.reading (node_of (record { config = config.now; object = at.now; number = number })) }
    {
        NumberedNode::Effect(
            self.numbered_service.config_number(config),
            self.numbered_service.object_number(at),
            number,
        )
    }
}

// Bounds

/// What an input of the kind costs that is taken in the configuration with this number; nothing, if it is not laid.
fn taken_cost(laying: &Laying, config: usize, kind: InputKind) -> u64
    ensures { result ≡ or_nothing (cost_in laying.now (node.Taken config kind)) }
{
    match laying.costs().laid(&NumberedNode::Taken(config, kind)) {
        None => 0,
        Some(laid) => laid.cost,
    }
}

/// What it costs in the configuration.
#[tactic(auto, unfolding(crate::specs::Taking::taken_laid))]
pub(crate) fn cost_in_config(
    numbered_service: &NumberedService<'_>,
    laying: &Laying,
    config: &Config,
    kind: InputKind,
) -> u64
    ensures { result ≡ taken_laid numbered_service.now laying.now kind config.now }
{
    taken_cost(laying, numbered_service.config_number(config), kind)
}

/// What the start costs, where this is the number of its configuration.
#[tactic(auto, unfolding(crate::specs::Taking::taken_laid))]
fn start_cost(numbered_service: &NumberedService<'_>, laying: &Laying, start: usize) -> u64
    requires { start ≡ config_number numbered_service.now (starting numbered_service.now.service) }
    ensures { result ≡ taken_laid numbered_service.now laying.now InputKind.Start (starting numbered_service.now.service) }
{
    taken_cost(laying, start, InputKind::Start)
}

fn larger(first: u64, second: u64) -> u64
    ensures { result ≡ max first second }
{
    first.max(second)
}

/// The most that an input of the kind costs in any of these.
fn most_in(
    numbered_service: &NumberedService<'_>,
    laying: &Laying,
    configs: &[Config],
    kind: InputKind,
) -> u64
    ensures { result ≡ largest_from (taken_laid numbered_service.now laying.now kind) 0 configs.now }
{
    let mut most: u64 = 0;
    for config in configs {
        most = larger(most, cost_in_config(numbered_service, laying, config, kind));
    }
    most
}

/// The most that an input of the kind costs in any configuration.
fn bound(numbered_service: &NumberedService<'_>, laying: &Laying, kind: InputKind) -> u64
    ensures { result ≡ bound_laid numbered_service.now laying.now kind }
{
    most_in(numbered_service, laying, numbered_service.configs(), kind)
}

fn bounds_of(numbered_service: &NumberedService<'_>, laying: &Laying, start: usize) -> Bounds
    requires { start ≡ config_number numbered_service.now (starting numbered_service.now.service) }
    ensures { result ≡ bounds_laid numbered_service.now laying.now }
{
    Bounds {
        start: start_cost(numbered_service, laying, start),
        key: bound(numbered_service, laying, InputKind::Key),
        tick: bound(numbered_service, laying, InputKind::Tick),
        stream: bound(numbered_service, laying, InputKind::Stream),
        engine: bound(numbered_service, laying, InputKind::Engine),
        arrive: bound(numbered_service, laying, InputKind::Arrive),
    }
}

/// What is laid of a numbered service, with its bounds.
fn with_bounds<'a>(
    numbered_service: NumberedService<'a>,
    laying: Laying,
    start: usize,
) -> Layers<'a>
    requires { start ≡ config_number numbered_service (starting numbered_service.service) }
    ensures { result ≡ record { reading = numbered_service.entry; places = laying; bounds = bounds_laid numbered_service.entry laying } }
{
    let bounds = bounds_of(&numbered_service, &laying, start);
    Layers {
        numbered_service,
        laying,
        bounds,
    }
}

/// What is laid of a numbered service, and the number of the configuration in which it starts.
fn lay_with_start(
    alloc: Global,
    numbered_service: &NumberedService<'_>,
) -> Result<(Laying, usize), LayersError>
    ensures layers { IfOk result (λ x. AreLayers (price numbered_service.now) (kept numbered_service.now) x.0) }
    ensures laid { IfOk result (λ x. list_all (is_laid x.0) (root_nodes numbered_service.now) ≡ true) }
    ensures start { IfOk result (λ x. x.1 ≡ config_number numbered_service.now (starting numbered_service.now.service)) }
    ensures cycle { IsErrOf result LayersError.Cycle → NoneRanked (price numbered_service.now) (kept numbered_service.now) }
    ensures looped { IsErrOf result LayersError.Cycle → HasLoop (price numbered_service.now) (kept numbered_service.now) }
{
    let start = start_number(numbered_service)?;
    match lay_roots(alloc, numbered_service) {
        Ok(laying) => Ok((laying, start)),
        Err(why) => Err(why),
    }
}

/// The layers of a service, whose flow is this.
pub fn lay_service<'a>(
    alloc: Global,
    service: &'a Equipped<'a>,
    flow: &'a Flow,
) -> Result<Layers<'a>, LayersError>
    requires { IsFlowOf service.now flow.now }
    ensures layers { IfOk result (AreLayersOf service.now flow.now) }
    ensures cycle { IsErrOf result LayersError.Cycle → (rank : _) → IsLayering service.now (flow_in service.now flow.now) rank → ⊥ }
    ensures looped { IsErrOf result LayersError.Cycle → NoCycles service.now (flow_in service.now flow.now) → ⊥ }
{
    let numbered_service = NumberedService::of(alloc, service, flow)?;
    numbered_service.read();
    match lay_with_start(alloc, &numbered_service) {
        Ok((laying, start)) => Ok(with_bounds(numbered_service, laying, start)),
        Err(why) => {
            drop(numbered_service);
            Err(why)
        }
    }
}
