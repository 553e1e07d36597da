//! What it comes to that groups are entered and left.
//!
//! Promise: each function adds the price that its clause names to the sum.
ghost use Rattle.std.specs.Prelude.{◌≡◌, ◌&&◌, ◌∷◌, [], not, filter};
ghost use Rattle.std.specs.Option.{option_copied, option_map_or};
ghost use Rattle.mh_group.specs.Table.{is_runnable};
ghost use Rattle.mh_laws.specs.Price.{Nothing, sum_price};
ghost use Rattle.mh_laws.specs.View as spec;
ghost use Rattle.mh_model.specs.Groups as groups;
ghost use Rattle.mh_model.specs.Reference.{group_ref};
ghost use Rattle.mh_model.specs.declared.object.Fixed.{Fixed as FixedLem};
ghost use Rattle.mh_prices.specs.Meter.{Adds};

use crate::life::{halt, run};
use crate::view::{Groups, Lists};
use mh_base::{EventType, GroupName};
use mh_model::parts::{is_initially_active, is_shared};
use mh_model::{Fixed, FixedPart};

/// What is active at first of these runs.
fn all_run<L: Lists>(lists: &L, parts: &[FixedPart], sum: L::Sum) -> Result<L::Sum, L::Stop>
    ensures { let a = (L.around lists.now).lists in
        Adds L.seen (L.meter lists.now) (sum_price (λ (p : FixedLem). spec.run a p.key) (filter groups.is_initially_active parts.now)) sum result }
{
    let mut sum = sum;
    for part in parts {
        if is_initially_active(part.get()) {
            sum = run(lists, &part.get().key, sum)?;
        }
    }
    Ok(sum)
}

/// It halts if it can run.
fn halted<L: Lists>(lists: &L, part: &Fixed, sum: L::Sum) -> Result<L::Sum, L::Stop>
    ensures { let a = (L.around lists.now).lists in
        Adds L.seen (L.meter lists.now) (sum_price (λ (p : FixedLem). spec.halt a p.key) (filter (λ p. is_runnable p.class) (part.now ∷ []))) sum result }
{
    if part.class.is_runnable() {
        halt(lists, &part.key, sum)
    } else {
        Ok(sum)
    }
}

/// What can run of these halts, from the last on.
#[tactic(auto, using(crate::proofs::TurnedLemmas::turned_more))]
fn all_halted<L: Lists>(lists: &L, parts: &[FixedPart], sum: L::Sum) -> Result<L::Sum, L::Stop>
    ensures { let a = (L.around lists.now).lists in
        Adds L.seen (L.meter lists.now) (spec.halts a (λ p. is_runnable p.class) parts.now) sum result }
{
    let mut sum = sum;
    for part in parts.iter().rev() {
        sum = halted(lists, part.get(), sum)?;
    }
    Ok(sum)
}

fn halts_unshared(part: &Fixed) -> bool
    ensures { result ≡ (is_runnable part.now.class && not (groups.is_shared part.now)) }
{
    part.class.is_runnable() && !is_shared(part)
}

/// It halts if it can run and is not shared.
fn halted_unshared<L: Lists>(lists: &L, part: &Fixed, sum: L::Sum) -> Result<L::Sum, L::Stop>
    ensures { let a = (L.around lists.now).lists in
        Adds L.seen (L.meter lists.now) (sum_price (λ (p : FixedLem). spec.halt a p.key) (filter (λ p. is_runnable p.class && not (groups.is_shared p)) (part.now ∷ []))) sum result }
{
    if halts_unshared(part) {
        halt(lists, &part.key, sum)
    } else {
        Ok(sum)
    }
}

/// What can run of these and is not shared halts, from the last on.
#[tactic(auto, using(crate::proofs::TurnedLemmas::turned_more))]
fn unshared_halted<L: Lists>(lists: &L, parts: &[FixedPart], sum: L::Sum) -> Result<L::Sum, L::Stop>
    ensures { let a = (L.around lists.now).lists in
        Adds L.seen (L.meter lists.now) (spec.halts a (λ p. is_runnable p.class && not (groups.is_shared p)) parts.now) sum result }
{
    let mut sum = sum;
    for part in parts.iter().rev() {
        sum = halted_unshared(lists, part.get(), sum)?;
    }
    Ok(sum)
}

/// A group of these parts is entered.
pub fn enter<G: Groups>(
    groups: &G,
    group: &GroupName,
    parts: &[FixedPart],
    sum: G::Sum,
) -> Result<G::Sum, G::Stop>
    ensures { let a = (G.around groups.now).lists in
        Adds G.seen (G.meter groups.now) (spec.enter a (G.starts groups.now group.now) (group_ref group.now) parts.now) sum result }
{
    let sum = groups.start_up(group, groups.one(sum))?;
    let sum = all_run(groups, parts, sum)?;
    groups.group_dealt_with(group, EventType::IsRunning, groups.one(sum))
}

/// The close-down of the scene, if there is one.
fn scene_closes<G: Groups>(
    groups: &G,
    scene: Option<&GroupName>,
    sum: G::Sum,
) -> Result<G::Sum, G::Stop>
    ensures { Adds G.seen (G.meter groups.now) (option_map_or (G.closes groups.now) (option_copied scene.entry) Nothing) sum result }
{
    match scene {
        None => Ok(sum),
        Some(scene) => groups.close_down(scene, sum),
    }
}

/// The scene is left, where these are its parts and those of the application.
pub fn leave_scene<G: Groups>(
    groups: &G,
    scene: Option<&GroupName>,
    scene_parts: &[FixedPart],
    application_parts: &[FixedPart],
    sum: G::Sum,
) -> Result<G::Sum, G::Stop>
    ensures { let a = (G.around groups.now).lists in
        let closes = option_map_or (G.closes groups.now) (option_copied scene.entry) Nothing in
        Adds G.seen (G.meter groups.now) (spec.leave_scene a closes scene_parts.now application_parts.now) sum result }
{
    let sum = scene_closes(groups, scene, sum)?;
    let sum = all_halted(groups, scene_parts, sum)?;
    unshared_halted(groups, application_parts, sum)
}

/// All is left.
pub fn leave_all<G: Groups>(
    groups: &G,
    application: &GroupName,
    scene: Option<&GroupName>,
    scene_parts: &[FixedPart],
    application_parts: &[FixedPart],
    sum: G::Sum,
) -> Result<G::Sum, G::Stop>
    ensures { let a = (G.around groups.now).lists in
        let closes = option_map_or (G.closes groups.now) (option_copied scene.entry) Nothing in
        Adds G.seen (G.meter groups.now) (spec.leave_all a closes (G.closes groups.now application.now) scene_parts.now application_parts.now) sum result }
{
    let sum = scene_closes(groups, scene, sum)?;
    let sum = groups.close_down(application, sum)?;
    let sum = all_halted(groups, scene_parts, sum)?;
    all_halted(groups, application_parts, sum)
}
