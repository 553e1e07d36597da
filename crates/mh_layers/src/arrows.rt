//! Arrows between effects.
//!
//! Promise: the arrow is one of an action of the first effect that puts the other to work, as the flow allows; there is one for
//! each step.

pub(crate) mod applied;
pub mod arrow;
pub(crate) mod granting;
pub(crate) mod putting;

ghost use Rattle.std.specs.Prelude.{◌≡◌, Some, IfOk};
ghost use Rattle.mh_model.specs.Configuration.{present};
ghost use Rattle.mh_model.specs.Service.{part_at};
ghost use Rattle.mh_laws.specs.Costs.{effects};
ghost use Rattle.mh_layers.specs.Applied.{number_in, object_in};
ghost use Rattle.mh_layers.specs.Granting.{held_for};
ghost use Rattle.mh_layers.specs.Listening.{source_of as source_of_lem};
ghost use Rattle.mh_layers.specs.Reading.{IsReading, flow_read, context_in};
ghost use Rattle.mh_layers.specs.EffectSites.{effect_named};
ghost use Rattle.mh_layers.specs.Trails.{IsActive, IsArrowOf, IsStep};

use crate::arrows::applied::{AppliedAction, doing_of};
use crate::arrows::arrow::{Arrow, By};
use crate::arrows::granting::held_for;
use crate::arrows::putting::by_of;
use crate::cause::Cause;
use crate::cycle::effect_site::cause_at;
use crate::listening::named_data::source_of;
use crate::numbered::NumberedService;
use crate::numbered::at::At;
use crate::numbered::effect_row::EffectRow;
use crate::numbered_node::NumberedNode;
use mh_base::Seq;
use mh_model::Fixed;
use std::alloc::{AllocError, Global};

/// The configuration of the effect.
pub(crate) fn config_of<'a>(
    numbered_service: &'a NumberedService<'_>,
    node: &NumberedNode,
) -> At<'a>
    requires reading { IsReading numbered_service.now }
    requires active { IsActive numbered_service.now node.now }
    ensures { result ≡ context_in numbered_service.now (effect_named numbered_service.now node.now).config }
{
    let NumberedNode::Effect(config, _, _) = node else {
        unreachable!();
    };
    match At::of(numbered_service, *config) {
        None => unreachable!(),
        Some(here) => here,
    }
}

/// What is said of the object of the effect.
pub(crate) fn part_of<'a>(here: &'a At<'_>, node: &NumberedNode) -> &'a Fixed
    requires reading { IsReading here.now.reading }
    requires active { IsActive here.now.reading node.now }
    requires config { here.now.config ≡ (effect_named here.now.reading node.now).config }
    ensures { let s = here.now in let ps = present s.reading.service s.config in
        part_at (effect_named s.reading node.now).object ps ≡ Some result.now }
{
    let NumberedNode::Effect(_, number, _) = node else {
        unreachable!();
    };
    let Some(at) = here.numbered_service().object_at(*number) else {
        unreachable!();
    };
    match here.find(at) {
        None => unreachable!(),
        Some(part) => part,
    }
}

/// The number of the object of the effect.
pub(crate) fn object_of(node: &NumberedNode) -> usize
    ensures { result ≡ object_in node.now }
{
    match node {
        NumberedNode::Effect(_, object, _) => *object,
        _ => 0,
    }
}

/// The effects of the object of the effect.
pub(crate) fn effects_at<'a>(here: &'a At<'_>, node: &NumberedNode) -> &'a EffectRow<'a>
    requires reading { IsReading here.now.reading }
    requires active { IsActive here.now.reading node.now }
    ensures { let s = here.now in (p : _)
        → part_at (effect_named s.reading node.now).object (present s.reading.service (effect_named s.reading node.now).config) ≡ Some p
        → result.now ≡ effects p }
{
    here.numbered_service().effects(object_of(node))
}

/// The number of the effect through those of its object.
pub(crate) fn number_of(node: &NumberedNode) -> usize
    ensures { result ≡ number_in node.now }
{
    match node {
        NumberedNode::Effect(_, _, number) => *number,
        _ => 0,
    }
}

/// The arrow of this action of the effect, where it puts to work an effect of the object of which this is said.
fn arrow_by(
    alloc: Global,
    here: &At<'_>,
    cause: Cause,
    index: usize,
    doing: &AppliedAction<'_>,
    aim: &Fixed,
    by: By,
) -> Result<Arrow, AllocError>
    ensures cause { IfOk result (λ arrow. arrow.cause ≡ cause) }
    ensures index { IfOk result (λ arrow. arrow.index ≡ index) }
    ensures action { IfOk result (λ arrow. arrow.action ≡ doing.now.act.name) }
    ensures held { let s = here.now in let held = held_for s.reading.service (flow_read s.reading) s.config doing.now.act doing.now.at (source_of_lem aim.now) in
        IfOk result (λ arrow. arrow.held ≡ held) }
    ensures by { IfOk result (λ arrow. arrow.by ≡ by) }
{
    let held = held_for(alloc, here, doing.act, doing.at, source_of(aim))?;
    Ok(Arrow {
        cause,
        index,
        action: doing.act.name,
        held: Seq::from_vec(held),
        by,
    })
}

/// The arrow from an effect that is in the one configuration to an effect that is in the other.
fn arrow_between(
    alloc: Global,
    here: &At<'_>,
    there: &At<'_>,
    from: &NumberedNode,
    first: &NumberedNode,
    to: &NumberedNode,
) -> Result<Arrow, AllocError>
    requires reading { IsReading here.now.reading }
    requires step { IsStep here.now.reading from.now first.now to.now }
    requires here { here.now.config ≡ (effect_named here.now.reading from.now).config }
    requires there { there.now ≡ context_in here.now.reading (effect_named here.now.reading to.now).config }
    ensures { IfOk result (IsArrowOf here.now.reading from.now to.now) }
{
    let aim = part_of(there, to);
    let by = by_of(aim, number_of(to))?;
    let effects = effects_at(here, from);
    let number = number_of(from);
    let cause = cause_at(
        here.numbered_service(),
        here.config(),
        object_of(from),
        number,
    )?;
    let acts = effects.acts(number);
    match doing_of(here, acts, first)? {
        None => unreachable!(),
        Some(doing) => {
            let index = effects.behind_first(number, doing.offset);
            let arrow = arrow_by(alloc, here, cause, index, &doing, aim, by)?;
            Ok(arrow)
        }
    }
}

/// The arrow from an effect to another, to which the first of its nodes leads.
pub(crate) fn arrow_for(
    alloc: Global,
    numbered_service: &NumberedService<'_>,
    from: &NumberedNode,
    first: &NumberedNode,
    to: &NumberedNode,
) -> Result<Arrow, AllocError>
    requires reading { IsReading numbered_service.now }
    requires step { IsStep numbered_service.now from.now first.now to.now }
    ensures { IfOk result (IsArrowOf numbered_service.now from.now to.now) }
{
    let here = config_of(numbered_service, from);
    let there = config_of(numbered_service, to);
    arrow_between(alloc, &here, &there, from, first, to)
}
