//! The stages of a way: the dearest effect that a node puts to work, the dearest that this one does, and so on.
//!
//! Promise: each tells of its effect, what that costs, and the first of its actions that cost most.
ghost use Rattle.std.specs.Prelude.{◌≡◌, ◌<◌, ◌+◌, length, true, map, Ok, IfOk};
ghost use Rattle.std.specs.List.{list_all};
ghost use Rattle.mh_laws.specs.Each.{Each};
ghost use Rattle.mh_layers.specs.Caused.{IsNamed};
ghost use Rattle.mh_layers.specs.Choosing.{effect_cost};
ghost use Rattle.mh_layers.specs.Dearest.{acts_of};
ghost use Rattle.mh_layers.specs.Layered.{root_nodes};
ghost use Rattle.mh_layers.specs.Layering.{AreLayers, is_laid};
ghost use Rattle.mh_layers.specs.Reading.{IsReading, kept, price};
ghost use Rattle.mh_layers.specs.Staging.{AreStagesFrom, IsCostly, IsKnown, IsNext, IsPart, IsPartAt, IsStageBy, act_worth, all_known};
ghost use Rattle.mh_layers.specs.EffectSites.{cause_named, effect_named};
ghost use Rattle.mh_layers.specs.Trails.{IsActive};

use crate::arrows::{config_of, effects_at, number_of};
use crate::laying::Laying;
use crate::laying::costs::Costs;
use crate::numbered::NumberedService;
use crate::numbered::at::At;
use crate::numbered_node::NumberedNode;
use crate::price::meters::KnownCosts;
use crate::price::walk::Walk;
use crate::ways::caused::reached_from;
use crate::ways::dearest::{Dearest, dearest_of, first_largest, number_at};
use crate::ways::way::Stage;
use mh_group::ActionName;
use mh_model::Act;
use mh_prices::act;
use std::alloc::{AllocError, Global};

/// An action of an effect: its place there, and what it costs.
#[derive(Clone, Copy)]
pub(crate) struct Part {
    pub offset: usize,
    pub action: ActionName,
    pub cost: u64,
}

/// A stage, and the node of its effect.
#[derive(Drop)]
pub(crate) struct Next {
    pub node: NumberedNode,
    pub stage: Stage,
}

// Actions

/// What an action costs.
#[tactic(auto, using(crate::proofs::KnowingLemmas::known_named))]
fn act_cost(here: &At<'_>, costs: &Costs, each: &Act) -> Result<u64, AllocError>
    requires { let s = here.now in IsKnown (act_worth s.reading costs.now s.config each.now) }
    ensures { let s = here.now in IfOk result (λ cost. act_worth s.reading costs.now s.config each.now ≡ Ok cost) }
{
    let known = KnownCosts { costs };
    let walk = Walk {
        here,
        meter: &known,
    };
    match act(&walk, each, Ok(0))? {
        Ok(cost) => Ok(cost),
        Err(_) => unreachable!(),
    }
}

/// What each of these costs.
fn act_costs(
    alloc: Global,
    here: &At<'_>,
    costs: &Costs,
    acts: &[Act],
) -> Result<Vec<u64>, AllocError>
    requires { let s = here.now in Each (λ a. IsKnown (act_worth s.reading costs.now s.config a)) acts.now }
    ensures { let s = here.now in
        IfOk result (λ found. map (act_worth s.reading costs.now s.config) acts.now ≡ all_known found.items) }
{
    let mut found = Vec::new(alloc);
    for each in acts {
        found.push(act_cost(here, costs, each)?)?;
    }
    Ok(found)
}

/// The action at this place, which costs so much.
fn part_at(acts: &[Act], offset: usize, cost: u64) -> Part
    requires { offset < length acts.now }
    ensures { IsPartAt acts.now offset cost result }
{
    Part {
        offset,
        action: acts[offset].name,
        cost,
    }
}

/// The first of these actions that cost most.
fn dearest_act(
    alloc: Global,
    here: &At<'_>,
    costs: &Costs,
    acts: &[Act],
) -> Result<Part, AllocError>
    requires known { let s = here.now in Each (λ a. IsKnown (act_worth s.reading costs.now s.config a)) acts.now }
    requires some { 0 < length acts.now }
    ensures { let s = here.now in IfOk result (IsPart s.reading costs.now s.config acts.now) }
{
    let found = act_costs(alloc, here, costs, acts)?;
    let numbers = found.as_slice();
    let offset = first_largest(numbers);
    let cost = number_at(numbers, offset);
    Ok(part_at(acts, offset, cost))
}

/// The first action of the effect that costs most.
fn dearest_part(
    alloc: Global,
    numbered_service: &NumberedService<'_>,
    laying: &Laying,
    node: &NumberedNode,
) -> Result<Part, AllocError>
    requires reading { IsReading numbered_service.now }
    requires active { IsActive numbered_service.now node.now }
    requires layers { AreLayers (price numbered_service.now) (kept numbered_service.now) laying.now }
    requires costs { 0 < effect_cost laying.now node.now }
    ensures { let x = effect_named numbered_service.now node.now in
        IfOk result (IsPart numbered_service.now laying.now x.config (acts_of numbered_service.now.service x)) }
{
    let here = config_of(numbered_service, node);
    let effects = effects_at(&here, node);
    let number = number_of(node);
    let acts = effects.acts(number);
    let part = dearest_act(alloc, &here, laying.costs(), acts)?;
    Ok(part)
}

// Stages

/// The number of the action of the effect that stands so far behind its first.
fn index_of(numbered_service: &NumberedService<'_>, node: &NumberedNode, offset: usize) -> usize
    requires reading { IsReading numbered_service.now }
    requires active { IsActive numbered_service.now node.now }
    requires within { offset < length (acts_of numbered_service.now.service (effect_named numbered_service.now node.now)) }
    ensures { result ≡ (cause_named numbered_service.now node.now).index + offset }
{
    let here = config_of(numbered_service, node);
    let effects = effects_at(&here, node);
    let number = number_of(node);
    effects.behind_first(number, offset)
}

/// The stage of this effect.
fn stage_of(
    alloc: Global,
    numbered_service: &NumberedService<'_>,
    laying: &Laying,
    dearest: Dearest,
) -> Result<Next, AllocError>
    requires reading { IsReading numbered_service.now }
    requires active { IsActive numbered_service.now dearest.node }
    requires layers { AreLayers (price numbered_service.now) (kept numbered_service.now) laying.now }
    requires chosen { IsCostly numbered_service.now laying.now dearest }
    ensures { IfOk result (λ next. IsStageBy numbered_service.now laying.now dearest next) }
{
    let part = dearest_part(alloc, numbered_service, laying, &dearest.node)?;
    let index = index_of(numbered_service, &dearest.node, part.offset);
    Ok(Next {
        node: dearest.node,
        stage: Stage {
            cause: dearest.cause,
            cost: dearest.cost,
            index,
            action: part.action,
            part: part.cost,
        },
    })
}

/// The stage of the dearest effect that the node puts to work, if one costs anything.
fn next_stage(
    alloc: Global,
    numbered_service: &NumberedService<'_>,
    laying: &Laying,
    node: &NumberedNode,
) -> Result<Option<Next>, AllocError>
    requires reading { IsReading numbered_service.now }
    requires layers { AreLayers (price numbered_service.now) (kept numbered_service.now) laying.now }
    requires laid { list_all (is_laid laying.now) (root_nodes numbered_service.now) ≡ true }
    requires named { IsNamed numbered_service.now node.now }
    ensures { IfOk result (λ next. IsNext numbered_service.now node.now next) }
{
    let found = reached_from(alloc, numbered_service, node)?;
    let nodes = found.as_slice();
    match dearest_of(numbered_service, laying, nodes)? {
        None => Ok(None),
        Some(dearest) => {
            let next = stage_of(alloc, numbered_service, laying, dearest)?;
            Ok(Some(next))
        }
    }
}

/// The stages from this node on.
#[tactic(auto, using(crate::proofs::StageLemmas::stages_begin, crate::proofs::StageLemmas::stages_more, crate::proofs::StageLemmas::stages_end))]
pub(crate) fn stages_from(
    alloc: Global,
    numbered_service: &NumberedService<'_>,
    laying: &Laying,
    root: NumberedNode,
) -> Result<Vec<Stage>, AllocError>
    requires reading { IsReading numbered_service.now }
    requires layers { AreLayers (price numbered_service.now) (kept numbered_service.now) laying.now }
    requires laid { list_all (is_laid laying.now) (root_nodes numbered_service.now) ≡ true }
    requires named { IsNamed numbered_service.now root }
    ensures { IfOk result (λ stages. AreStagesFrom numbered_service.now root stages.items) }
{
    let mut stages = Vec::new(alloc);
    let mut node = root;
    loop {
        let _ = stages.len();
        match next_stage(alloc, numbered_service, laying, &node)? {
            None => return Ok(stages),
            Some(next) => {
                stages.push(next.stage)?;
                node = next.node;
            }
        }
    }
}
