//! The dearest ways: for the start and each kind of input the configuration in which it costs most, the dearest effect that
//! it puts to work there, the dearest that this one puts to work, and so on.
//!
//! Promise: of effects that cost as much the first is told, by its place and then by its configuration.

pub(crate) mod caused;
pub(crate) mod dearest;
pub(crate) mod stages;
pub mod way;

ghost use Rattle.std.specs.Prelude.{◌≡◌, ◌<◌, length, map, slice_get, true, Some, IfOk, IsErrOf};
ghost use Rattle.std.specs.List.{list_all};
ghost use Rattle.mh_model.specs.Configuration.{starting as starting_lem};
ghost use Rattle.mh_laws.specs.Flow.{reached};
ghost use Rattle.mh_laws.specs.Layers.{IsLayering};
ghost use Rattle.mh_flow.specs.Solved.{IsFlowOf, flow_in};
ghost use Rattle.mh_layers.specs.Dearest.{AreDearestWays, configs_for};
ghost use Rattle.mh_layers.specs.Layered.{root_nodes};
ghost use Rattle.mh_layers.specs.Layering.{AreLayers, NoneRanked, is_laid};
ghost use Rattle.mh_layers.specs.Reading.{IsReading, flow_read, kept, price};
ghost use Rattle.mh_layers.specs.Staging.{AreWays, IsWayIn, IsWayOf};
ghost use Rattle.mh_layers.specs.Taking.{taken_laid};

use crate::bounds::InputKind;
use crate::cycle::effect_site::copied_config;
use crate::layers::cost_in_config;
use crate::laying::roots::{lay_roots, starting};
use crate::laying::{LayersError, Laying};
use crate::numbered::NumberedService;
use crate::numbered_node::NumberedNode;
use crate::ways::dearest::{first_largest, number_at};
use crate::ways::stages::stages_from;
use crate::ways::way::Way;
use mh_flow::{Equipped, Flow};
use mh_model::Config;
use std::alloc::{AllocError, Global};
use std::slice;

/// The configurations in which an input of the kind may be taken.
fn configs_for<'b>(
    numbered_service: &'b NumberedService<'_>,
    start: &'b Config,
    kind: InputKind,
) -> &'b [Config]
    requires { start.now ≡ starting_lem numbered_service.now.service }
    ensures { result.now ≡ configs_for numbered_service.now.service (flow_read numbered_service.now) kind }
{
    match kind {
        InputKind::Start => slice::from_ref(start),
        _ => numbered_service.configs(),
    }
}

/// What an input of the kind costs in each of these.
fn costs_in(
    alloc: Global,
    numbered_service: &NumberedService<'_>,
    laying: &Laying,
    configs: &[Config],
    kind: InputKind,
) -> Result<Vec<u64>, AllocError>
    ensures { IfOk result (λ costs. costs.items ≡ map (taken_laid numbered_service.now laying.now kind) configs.now) }
{
    let mut costs = Vec::new(alloc);
    for config in configs {
        costs.push(cost_in_config(numbered_service, laying, config, kind))?;
    }
    Ok(costs)
}

/// The way of the kind that begins in this configuration, where it costs so much.
fn way_in(
    alloc: Global,
    numbered_service: &NumberedService<'_>,
    laying: &Laying,
    config: &Config,
    kind: InputKind,
    cost: u64,
) -> Result<Way, AllocError>
    requires reading { IsReading numbered_service.now }
    requires layers { AreLayers (price numbered_service.now) (kept numbered_service.now) laying.now }
    requires laid { list_all (is_laid laying.now) (root_nodes numbered_service.now) ≡ true }
    requires reached { reached (flow_read numbered_service.now) config.now ≡ true }
    ensures { IfOk result (λ way. IsWayIn numbered_service.now config.now kind cost way) }
{
    let number = numbered_service.config_number(config);
    let stages = stages_from(
        alloc,
        numbered_service,
        laying,
        NumberedNode::Taken(number, kind),
    )?;
    let copy = copied_config(config)?;
    Ok(Way {
        kind,
        config: copy,
        cost,
        stages,
    })
}

/// The configuration at this place.
fn config_at<'b>(configs: &'b [Config], place: usize) -> &'b Config
    requires { place < length configs.now }
    ensures { slice_get configs.now place ≡ Some result.now }
{
    &configs[place]
}

/// The dearest way of the kind.
fn way_of(
    alloc: Global,
    numbered_service: &NumberedService<'_>,
    laying: &Laying,
    start: &Config,
    kind: InputKind,
) -> Result<Way, AllocError>
    requires reading { IsReading numbered_service.now }
    requires layers { AreLayers (price numbered_service.now) (kept numbered_service.now) laying.now }
    requires laid { list_all (is_laid laying.now) (root_nodes numbered_service.now) ≡ true }
    requires start { start.now ≡ starting_lem numbered_service.now.service }
    ensures { IfOk result (IsWayOf numbered_service.now kind) }
{
    let configs = configs_for(numbered_service, start, kind);
    let costs = costs_in(alloc, numbered_service, laying, configs, kind)?;
    let numbers = costs.as_slice();
    let place = first_largest(numbers);
    let config = config_at(configs, place);
    let cost = number_at(numbers, place);
    let way = way_in(alloc, numbered_service, laying, config, kind, cost)?;
    Ok(way)
}

/// The dearest way of each of these kinds.
#[tactic(auto, using(crate::proofs::WayLemmas::ways_all))]
fn ways_of(
    alloc: Global,
    numbered_service: &NumberedService<'_>,
    laying: &Laying,
    start: &Config,
    kinds: &[InputKind],
) -> Result<Vec<Way>, AllocError>
    requires reading { IsReading numbered_service.now }
    requires layers { AreLayers (price numbered_service.now) (kept numbered_service.now) laying.now }
    requires laid { list_all (is_laid laying.now) (root_nodes numbered_service.now) ≡ true }
    requires start { start.now ≡ starting_lem numbered_service.now.service }
    ensures { IfOk result (λ ways. AreWays numbered_service.now kinds.now ways.items) }
{
    let mut ways = Vec::new(alloc);
    for kind in kinds {
        ways.push(way_of(alloc, numbered_service, laying, start, *kind)?)?;
    }
    Ok(ways)
}

/// The kinds of input, the start first.
const KINDS: [InputKind; 6] = [
    InputKind::Start,
    InputKind::Key,
    InputKind::Tick,
    InputKind::Stream,
    InputKind::Engine,
    InputKind::Arrive,
];

/// The dearest way of each kind, where these layers are laid.
fn ways_in(
    alloc: Global,
    numbered_service: &NumberedService<'_>,
    laying: &Laying,
) -> Result<Vec<Way>, AllocError>
    requires reading { IsReading numbered_service.now }
    requires layers { AreLayers (price numbered_service.now) (kept numbered_service.now) laying.now }
    requires laid { list_all (is_laid laying.now) (root_nodes numbered_service.now) ≡ true }
    ensures { IfOk result (λ ways. AreDearestWays numbered_service.now.service (flow_read numbered_service.now) ways.items) }
{
    let start = starting(numbered_service.service())?;
    let ways = ways_of(alloc, numbered_service, laying, &start, &KINDS)?;
    Ok(ways)
}

/// The dearest way of each kind, where no effect puts itself to work.
fn ways_by(alloc: Global, numbered_service: &NumberedService<'_>) -> Result<Vec<Way>, LayersError>
    ensures ways { IfOk result (λ ways. AreDearestWays numbered_service.now.service (flow_read numbered_service.now) ways.items) }
    ensures cycle { IsErrOf result LayersError.Cycle → NoneRanked (price numbered_service.now) (kept numbered_service.now) }
{
    numbered_service.read();
    match lay_roots(alloc, numbered_service) {
        Ok(laying) => Ok(ways_in(alloc, numbered_service, &laying)?),
        Err(why) => Err(why),
    }
}

/// What makes the start of a service, and an input of each kind, dear. Where effects put themselves to work there is no
/// answer but that.
pub fn dearest_ways(
    alloc: Global,
    service: &Equipped<'_>,
    flow: &Flow,
) -> Result<Vec<Way>, LayersError>
    requires { IsFlowOf service.now flow.now }
    ensures ways { IfOk result (λ ways. AreDearestWays service.now (flow_in service.now flow.now) ways.items) }
    ensures cycle { IsErrOf result LayersError.Cycle → (rank : _) → IsLayering service.now (flow_in service.now flow.now) rank → ⊥ }
{
    let numbered_service = NumberedService::of(alloc, service, flow)?;
    ways_by(alloc, &numbered_service)
}
