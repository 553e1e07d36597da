//! What an input comes to that is taken in a configuration.
//!
//! Promise: for each kind its price is added to the sum, by the numbers of nodes.
ghost use Rattle.std.specs.Prelude.{◌≡◌, false, IfOk};
ghost use Rattle.std.specs.Option.{option_copied, option_map_or};
ghost use Rattle.std.specs.Str.{bytes_eq};
ghost use Rattle.mh_model.specs.Configuration.{present};
ghost use Rattle.mh_laws.specs.Costs.{is_group_in as is_group_in_lem};
ghost use Rattle.mh_laws.specs.Price.{most_price, sum_price};
ghost use Rattle.mh_prices.specs.Meter.{Adds, raise};
ghost use Rattle.mh_layers.specs.declared.bounds.InputKind.TheVariants as kind_lem;
ghost use Rattle.mh_layers.specs.Inputs as inputs;
ghost use Rattle.mh_layers.specs.CostNode.{Taken};
ghost use Rattle.mh_layers.specs.CostNodes.{fired_of as fired_of_lem, heard_key as heard_key_lem};
ghost use Rattle.mh_layers.specs.Numbered.{through};
ghost use Rattle.mh_layers.specs.Reading.{around_at, heard_read, number as number_of, price_read};

use crate::bounds::InputKind;
use crate::numbered::at::At;
use crate::numbered::set_timer::SetTimer;
use crate::numbered_node::Hears;
use crate::price::inputs::{content_told, pressed, stream_told};
use crate::price::late::changes_from;
use crate::price::meter::Meter;
use crate::price::walk::Walk;
use mh_base::{EventType, GroupName, ObjRef, Value};
use mh_model::FixedPart;
use mh_model::parts::group_ref;
use mh_prices::{Told, View};
use std::alloc::AllocError;

// Events that are dealt with at once

/// What the links put that wait for such an event, whatever its data; nothing where none waits.
fn fired_of<M: Meter>(
    walk: &Walk<'_, M>,
    source: &ObjRef,
    kind: EventType,
    sum: M::Sum,
) -> Result<M::Sum, AllocError>
    ensures { let s = walk.now.here.now in let m = through (number_of s.reading) (M.meter walk.now.meter.now) in
        Adds M.seen m (fired_of_lem s.config source.now kind (heard_read s.reading source.now kind)) sum result }
{
    match walk.here.numbered_service().values(source, kind) {
        None => Ok(sum),
        Some(_) => walk
            .meter
            .node(walk.here.fired_node(source, kind, Hears::Any), sum),
    }
}

/// What the links of the scene put that wait for keys.
fn heard_key<M: Meter>(walk: &Walk<'_, M>, sum: M::Sum) -> Result<M::Sum, AllocError>
    ensures { let s = walk.now.here.now in let m = through (number_of s.reading) (M.meter walk.now.meter.now) in
        Adds M.seen m (heard_key_lem (heard_read s.reading) s.config s.config.scene) sum result }
{
    match walk.here.scene() {
        None => Ok(sum),
        Some(scene) => {
            let source = group_ref(scene)?;
            fired_of(walk, &source, EventType::UserInput, sum)
        }
    }
}

// Objects, one after another

fn pressed_from<V: View>(
    view: &V,
    parts: &[FixedPart],
    mark: V::Mark,
    sum: V::Sum,
) -> Result<(V::Mark, V::Sum), V::Stop>
    ensures { let m = V.meter view.now in
        let p = most_price (inputs.pressed (V.around view.now).lists.view) parts.now in
        IfOk result (λ x. (V.marked x.0, V.seen x.1) ≡ raise m p (V.marked mark, V.seen sum)) }
{
    let mut mark = mark;
    let mut sum = sum;
    for part in parts {
        sum = pressed(view, part.get(), sum)?;
        (mark, sum) = view.next(mark, sum);
    }
    Ok((mark, sum))
}

fn streams<V: View>(view: &V, parts: &[FixedPart], sum: V::Sum) -> Result<V::Sum, V::Stop>
    ensures { let m = V.meter view.now in
        Adds V.seen m (sum_price (inputs.stream_told (V.around view.now).lists.view) parts.now) sum result }
{
    let mut sum = sum;
    for part in parts {
        sum = stream_told(view, part.get(), sum)?;
    }
    Ok(sum)
}

fn contents<V: View>(view: &V, parts: &[FixedPart], sum: V::Sum) -> Result<V::Sum, V::Stop>
    ensures { let m = V.meter view.now in
        Adds V.seen m (sum_price (inputs.content_told (V.around view.now).lists.view) parts.now) sum result }
{
    let mut sum = sum;
    for part in parts {
        sum = content_told(view, part.get(), sum)?;
    }
    Ok(sum)
}

/// The most that a key makes one object put that is present.
#[tactic(auto, using(crate::proofs::OntoLemmas::raise_joined))]
fn all_pressed<V: View>(
    view: &V,
    here: &At<'_>,
    mark: V::Mark,
    sum: V::Sum,
) -> Result<(V::Mark, V::Sum), V::Stop>
    ensures { let s = here.now in let m = V.meter view.now in
        let p = most_price (inputs.pressed (V.around view.now).lists.view) (present s.reading.service s.config) in
        IfOk result (λ x. (V.marked x.0, V.seen x.1) ≡ raise m p (V.marked mark, V.seen sum)) }
{
    let (application, scene) = here.parts();
    let (mark, sum) = pressed_from(view, application, mark, sum)?;
    pressed_from(view, scene, mark, sum)
}

/// What the streams have to tell that are present.
#[tactic(auto, using(crate::proofs::OntoLemmas::onto_joined))]
fn all_streams<V: View>(view: &V, here: &At<'_>, sum: V::Sum) -> Result<V::Sum, V::Stop>
    ensures { let s = here.now in let m = V.meter view.now in
        Adds V.seen m (sum_price (inputs.stream_told (V.around view.now).lists.view) (present s.reading.service s.config)) sum result }
{
    let (application, scene) = here.parts();
    let sum = streams(view, application, sum)?;
    streams(view, scene, sum)
}

/// What is told when a file comes for which each waits that is present and can.
#[tactic(auto, using(crate::proofs::OntoLemmas::onto_joined))]
fn all_contents<V: View>(view: &V, here: &At<'_>, sum: V::Sum) -> Result<V::Sum, V::Stop>
    ensures { let s = here.now in let m = V.meter view.now in
        Adds V.seen m (sum_price (inputs.content_told (V.around view.now).lists.view) (present s.reading.service s.config)) sum result }
{
    let (application, scene) = here.parts();
    let sum = contents(view, application, sum)?;
    contents(view, scene, sum)
}

// Timers

fn is_scene(scene: Option<&GroupName>, group: &GroupName) -> bool
    ensures { result ≡ option_map_or (bytes_eq group.now) (option_copied scene.entry) false }
{
    match scene {
        None => false,
        Some(scene) => *group == *scene,
    }
}

/// Whether the group is the configuration's application or scene.
fn is_group_in(here: &At<'_>, group: &GroupName) -> bool
    ensures { result ≡ is_group_in_lem here.now.config group.now }
{
    *group == here.config().app || is_scene(here.scene(), group)
}

fn timer_due<M: Meter>(
    walk: &Walk<'_, M>,
    timer: &SetTimer,
    sum: M::Sum,
) -> Result<M::Sum, AllocError>
    ensures { let s = walk.now.here.now in let m = through (number_of s.reading) (M.meter walk.now.meter.now) in
        Adds M.seen m (inputs.timer_due (around_at s).lists.view (is_group_in_lem s.config) timer.now) sum result }
{
    if is_group_in(walk.here, timer.group()) {
        let id = Value::Int(timer.id());
        let told = Told::sure(Some(&id));
        walk.dealt_with(timer.source(), EventType::TimerFired, &told, sum)
    } else {
        Ok(sum)
    }
}

/// What is put where each of these timers is due that is of the configuration.
fn timers_due<M: Meter>(
    walk: &Walk<'_, M>,
    timers: &[SetTimer],
    sum: M::Sum,
) -> Result<M::Sum, AllocError>
    ensures { let s = walk.now.here.now in let m = through (number_of s.reading) (M.meter walk.now.meter.now) in
        Adds M.seen m (sum_price (inputs.timer_due (around_at s).lists.view (is_group_in_lem s.config)) timers.now) sum result }
{
    let mut sum = sum;
    for timer in timers {
        sum = timer_due(walk, timer, sum)?;
    }
    Ok(sum)
}

// Kinds of input

fn key_input<M: Meter>(walk: &Walk<'_, M>, sum: M::Sum) -> Result<M::Sum, AllocError>
    ensures { let s = walk.now.here.now in let m = through (number_of s.reading) (M.meter walk.now.meter.now) in
        Adds M.seen m (price_read s.reading (Taken s.config kind_lem.Key)) sum result }
{
    let (mark, sum) = walk.meter.aside(walk.meter.one(sum));
    let sum = heard_key(walk, sum)?;
    let (mark, sum) = walk.meter.next(mark, sum);
    let (mark, sum) = all_pressed(walk, walk.here, mark, sum)?;
    Ok(walk.meter.close(mark, sum))
}

fn tick_input<M: Meter>(walk: &Walk<'_, M>, sum: M::Sum) -> Result<M::Sum, AllocError>
    ensures { let s = walk.now.here.now in let m = through (number_of s.reading) (M.meter walk.now.meter.now) in
        Adds M.seen m (price_read s.reading (Taken s.config kind_lem.Tick)) sum result }
{
    timers_due(
        walk,
        walk.here.numbered_service().timers(),
        walk.meter.one(sum),
    )
}

fn stream_input<M: Meter>(walk: &Walk<'_, M>, sum: M::Sum) -> Result<M::Sum, AllocError>
    ensures { let s = walk.now.here.now in let m = through (number_of s.reading) (M.meter walk.now.meter.now) in
        Adds M.seen m (price_read s.reading (Taken s.config kind_lem.Stream)) sum result }
{
    all_streams(walk, walk.here, walk.meter.one(sum))
}

fn engine_input<M: Meter>(walk: &Walk<'_, M>, sum: M::Sum) -> Result<M::Sum, AllocError>
    ensures { let s = walk.now.here.now in let m = through (number_of s.reading) (M.meter walk.now.meter.now) in
        Adds M.seen m (price_read s.reading (Taken s.config kind_lem.Engine)) sum result }
{
    let source = group_ref(&walk.here.config().app)?;
    fired_of(walk, &source, EventType::EngineEvent, walk.meter.one(sum))
}

fn arrive_input<M: Meter>(walk: &Walk<'_, M>, sum: M::Sum) -> Result<M::Sum, AllocError>
    ensures { let s = walk.now.here.now in let m = through (number_of s.reading) (M.meter walk.now.meter.now) in
        Adds M.seen m (price_read s.reading (Taken s.config kind_lem.Arrive)) sum result }
{
    let (mark, sum) = walk.meter.aside(walk.meter.one(sum));
    let sum = all_contents(walk, walk.here, sum)?;
    let (mark, sum) = walk.meter.next(mark, sum);
    let (mark, sum) = changes_from(walk, mark, sum)?;
    Ok(walk.meter.close(mark, sum))
}

/// What an input of this kind comes to that is taken here.
pub(crate) fn taken<M: Meter>(
    walk: &Walk<'_, M>,
    kind: InputKind,
    sum: M::Sum,
) -> Result<M::Sum, AllocError>
    ensures { let s = walk.now.here.now in let m = through (number_of s.reading) (M.meter walk.now.meter.now) in
        Adds M.seen m (price_read s.reading (Taken s.config kind)) sum result }
{
    match kind {
        InputKind::Start => walk.meter.node(walk.here.enter_node(), sum),
        InputKind::Key => key_input(walk, sum),
        InputKind::Tick => tick_input(walk, sum),
        InputKind::Stream => stream_input(walk, sum),
        InputKind::Engine => engine_input(walk, sum),
        InputKind::Arrive => arrive_input(walk, sum),
    }
}
