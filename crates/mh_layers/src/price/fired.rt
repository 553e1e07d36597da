//! What an event sets going in a configuration: the effects of the links that wait for it.
//!
//! Promise: what the node of such an event comes to is added to the sum, by the numbers of nodes.
ghost use Rattle.std.specs.Prelude.{◌≡◌, ◌&&◌, filter, slice_get, true, IfOk, Some};
ghost use Rattle.mh_model.specs.Configuration.{scene_parts as scene_parts_lem};
ghost use Rattle.mh_model.specs.Variables.{same_value};
ghost use Rattle.mh_laws.specs.Price.{Node, most_price, sum_price};
ghost use Rattle.mh_prices.specs.Meter.{Adds, raise};
ghost use Rattle.mh_layers.specs.Grouped.{has, is_plain};
ghost use Rattle.mh_layers.specs.CostNode.{Any, Fired, With};
ghost use Rattle.mh_layers.specs.CostNodes.{data_of, links_with as links_with_lem, waits_for};
ghost use Rattle.mh_layers.specs.Listening.{link_node};
ghost use Rattle.mh_layers.specs.Numbered.{through};
ghost use Rattle.mh_layers.specs.Reading.{has_hearing, hearing_named, number as number_of, price_read, values_read};

use crate::numbered::at::At;
use crate::numbered::values::Datum;
use crate::numbered_node::Hears;
use crate::price::meter::Meter;
use crate::price::walk::Walk;
use mh_base::{EventType, ObjRef, Value};
use mh_model::FixedPart;
use std::alloc::AllocError;

/// The effects of these links.
fn links<M: Meter>(
    walk: &Walk<'_, M>,
    links: &[FixedPart],
    sum: M::Sum,
) -> Result<M::Sum, AllocError>
    ensures { let s = walk.now.here.now in let m = through (number_of s.reading) (M.meter walk.now.meter.now) in
        Adds M.seen m (sum_price (link_node s.config) links.now) sum result }
{
    let mut sum = sum;
    for link in links {
        sum = walk.effect_of(link.get(), 2, sum)?;
    }
    Ok(sum)
}

/// The links of the scene that wait for such an event and have no data.
fn scene_plain_links<'a>(here: &'a At<'_>, source: &ObjRef, kind: EventType) -> &'a [FixedPart]
    ensures { let s = here.now in
        result.now ≡ filter (λ p. waits_for source.now kind p && is_plain (data_of p)) (scene_parts_lem s.reading.service s.config.scene) }
{
    match here.scene() {
        None => &[],
        Some(scene) => here.numbered_service().plain_links(scene, source, kind),
    }
}

#[tactic(auto, using(crate::proofs::OntoLemmas::links_come))]
fn plain<M: Meter>(
    walk: &Walk<'_, M>,
    source: &ObjRef,
    kind: EventType,
    sum: M::Sum,
) -> Result<M::Sum, AllocError>
    ensures { let s = walk.now.here.now in let m = through (number_of s.reading) (M.meter walk.now.meter.now) in
        Adds M.seen m (links_with_lem s.reading.service s.config source.now kind is_plain) sum result }
{
    let here = walk.here;
    let application = here
        .numbered_service()
        .plain_links(&here.config().app, source, kind);
    let sum = links(walk, application, sum)?;
    links(walk, scene_plain_links(here, source, kind), sum)
}

/// The links of the scene that wait for such an event and have the value with this number.
fn scene_links_with<'a>(
    here: &'a At<'_>,
    source: &ObjRef,
    kind: EventType,
    value: usize,
) -> &'a [FixedPart]
    ensures { let s = here.now in
        (x : _) → slice_get (values_read s.reading source.now kind) value ≡ Some x
        → result.now ≡ filter (λ p. waits_for source.now kind p && has same_value x (data_of p)) (scene_parts_lem s.reading.service s.config.scene) }
{
    match here.scene() {
        None => &[],
        Some(scene) => here
            .numbered_service()
            .links_with(scene, source, kind, value),
    }
}

#[tactic(auto, using(crate::proofs::OntoLemmas::links_come))]
fn with<M: Meter>(
    walk: &Walk<'_, M>,
    source: &ObjRef,
    kind: EventType,
    value: usize,
    sum: M::Sum,
) -> Result<M::Sum, AllocError>
    ensures { let s = walk.now.here.now in let m = through (number_of s.reading) (M.meter walk.now.meter.now) in
        (x : _) → slice_get (values_read s.reading source.now kind) value ≡ Some x
        → Adds M.seen m (links_with_lem s.reading.service s.config source.now kind (has same_value x)) sum result }
{
    let here = walk.here;
    let application = here
        .numbered_service()
        .links_with(&here.config().app, source, kind, value);
    let sum = links(walk, application, sum)?;
    links(walk, scene_links_with(here, source, kind, value), sum)
}

/// What the links put that wait for such an event and have this value.
fn one_value<M: Meter>(
    walk: &Walk<'_, M>,
    source: &ObjRef,
    kind: EventType,
    value: &Value,
    sum: M::Sum,
) -> Result<M::Sum, AllocError>
    ensures { let s = walk.now.here.now in let m = through (number_of s.reading) (M.meter walk.now.meter.now) in
        Adds M.seen m (Node (Fired s.config source.now kind (With value.now))) sum result }
{
    let number = walk
        .here
        .numbered_service()
        .value_number(source, kind, value);
    let node = walk.here.fired_node(source, kind, Hears::With(number));
    walk.meter.node(node, sum)
}

/// The largest over these values.
fn values_from<M: Meter>(
    walk: &Walk<'_, M>,
    source: &ObjRef,
    kind: EventType,
    values: &[Datum],
    mark: M::Mark,
    sum: M::Sum,
) -> Result<(M::Mark, M::Sum), AllocError>
    ensures { let s = walk.now.here.now in let m = through (number_of s.reading) (M.meter walk.now.meter.now) in
        let p = most_price (λ x. Node (Fired s.config source.now kind (With x))) values.now in
        IfOk result (λ x. (M.marked x.0, M.seen x.1) ≡ raise m p (M.marked mark, M.seen sum)) }
{
    let mut mark = mark;
    let mut sum = sum;
    for value in values {
        sum = one_value(walk, source, kind, value.get(), sum)?;
        (mark, sum) = walk.meter.next(mark, sum);
    }
    Ok((mark, sum))
}

#[tactic(auto, using(crate::proofs::MostLemmas::most_listed, crate::proofs::MostLemmas::most_none))]
fn values_most<M: Meter>(
    walk: &Walk<'_, M>,
    source: &ObjRef,
    kind: EventType,
    values: &[Datum],
    sum: M::Sum,
) -> Result<M::Sum, AllocError>
    ensures { let s = walk.now.here.now in let m = through (number_of s.reading) (M.meter walk.now.meter.now) in
        Adds M.seen m (most_price (λ x. Node (Fired s.config source.now kind (With x))) values.now) sum result }
{
    if values.is_empty() {
        return Ok(sum);
    }
    let (mark, sum) = walk.meter.aside(sum);
    let (mark, sum) = values_from(walk, source, kind, values, mark, sum)?;
    Ok(walk.meter.close(mark, sum))
}

fn any<M: Meter>(
    walk: &Walk<'_, M>,
    source: &ObjRef,
    kind: EventType,
    sum: M::Sum,
) -> Result<M::Sum, AllocError>
    ensures { let s = walk.now.here.now in let m = through (number_of s.reading) (M.meter walk.now.meter.now) in
        Adds M.seen m (price_read s.reading (Fired s.config source.now kind Any)) sum result }
{
    let plain = walk.here.fired_node(source, kind, Hears::Plain);
    let sum = walk.meter.node(plain, sum)?;
    match walk.here.numbered_service().values(source, kind) {
        None => Ok(sum),
        Some(values) => values_most(walk, source, kind, values.as_slice(), sum),
    }
}

/// What an event of this hearing sets going.
pub(crate) fn fired<M: Meter>(
    walk: &Walk<'_, M>,
    source: &ObjRef,
    kind: EventType,
    hears: Hears,
    sum: M::Sum,
) -> Result<M::Sum, AllocError>
    requires { has_hearing walk.now.here.now.reading source.now kind hears ≡ true }
    ensures { let s = walk.now.here.now in let m = through (number_of s.reading) (M.meter walk.now.meter.now) in
        Adds M.seen m (price_read s.reading (Fired s.config source.now kind (hearing_named s.reading source.now kind hears))) sum result }
{
    match hears {
        Hears::Plain => plain(walk, source, kind, sum),
        Hears::With(number) => with(walk, source, kind, number, sum),
        Hears::Any => any(walk, source, kind, sum),
    }
}
