//! What the file of a late scene comes to that arrives: the transition that waits for it goes on.
//!
//! Promise: the largest is asked for of such transitions, of all that active actions can begin; nothing is searched where no scene
//! is late.
ghost use Rattle.std.specs.Prelude.{◌≡◌, ◌∷◌, [], IfOk};
ghost use Rattle.std.specs.List.{flat_map};
ghost use Rattle.mh_model.specs.Late.{is_late_scene};
ghost use Rattle.mh_laws.specs.Costs.{can_lead_to_late, late_by, late_scenes};
ghost use Rattle.mh_laws.specs.Price.{most_price};
ghost use Rattle.mh_prices.specs.Meter.{raise};
ghost use Rattle.mh_layers.specs.Inputs as inputs;
ghost use Rattle.mh_layers.specs.Numbered.{through};
ghost use Rattle.mh_layers.specs.Reading.{around_at, flow_read, number as number_of};
ghost use Rattle.mh_layers.specs.Taking.{late_among};

use crate::numbered::at::At;
use crate::price::inputs::scene_change;
use crate::price::meter::Meter;
use crate::price::walk::Walk;
use mh_base::{GroupName, ObjRef};
use mh_flow::Site;
use mh_group::ActionName;
use mh_model::{Act, Target};
use mh_prices::Around;
use std::alloc::AllocError;

fn is_late(scenes: &[GroupName], group: &GroupName) -> bool
    ensures { result ≡ is_late_scene group.now scenes.now }
{
    scenes.iter().any(|scene| *group == *scene)
}

/// Whether an action of this name leads to a late scene, done to the object.
fn leads_to_late(here: &At<'_>, name: ActionName, at: &ObjRef) -> bool
    ensures { result ≡ can_lead_to_late here.now.reading.service name at.now }
{
    match name {
        ActionName::TransitionTo => {
            at.number == 0 && is_late(here.numbered_service().service().late(), &at.group)
        }
        _ => false,
    }
}

/// What the transition comes to, if an action of this name leads to a late scene, done to the object.
fn object_from<A: Around>(
    around: &A,
    here: &At<'_>,
    name: ActionName,
    at: &ObjRef,
    mark: A::Mark,
    sum: A::Sum,
) -> Result<(A::Mark, A::Sum), A::Stop>
    ensures { let late = late_among here.now.reading.service name (at.now ∷ []) in
        let p = most_price (inputs.scene_change (A.around around.now)) late in
        IfOk result (λ x. (A.marked x.0, A.seen x.1) ≡ raise (A.meter around.now) p (A.marked mark, A.seen sum)) }
{
    if leads_to_late(here, name, at) {
        let sum = scene_change(around, &at.group, sum)?;
        Ok(around.next(mark, sum))
    } else {
        Ok((mark, sum))
    }
}

/// The same of each of these objects.
#[tactic(auto, using(crate::proofs::LateLemmas::one_late))]
fn objects_from<A: Around>(
    around: &A,
    here: &At<'_>,
    name: ActionName,
    objects: &[ObjRef],
    mark: A::Mark,
    sum: A::Sum,
) -> Result<(A::Mark, A::Sum), A::Stop>
    ensures { let late = late_among here.now.reading.service name objects.now in
        let p = most_price (inputs.scene_change (A.around around.now)) late in
        IfOk result (λ x. (A.marked x.0, A.seen x.1) ≡ raise (A.meter around.now) p (A.marked mark, A.seen sum)) }
{
    let mut mark = mark;
    let mut sum = sum;
    for at in objects {
        (mark, sum) = object_from(around, here, name, at, mark, sum)?;
    }
    Ok((mark, sum))
}

/// The same of each object to which the action's target may come.
fn act_from<A: Around>(
    around: &A,
    here: &At<'_>,
    act: &Act,
    mark: A::Mark,
    sum: A::Sum,
) -> Result<(A::Mark, A::Sum), A::Stop>
    ensures { let s = here.now in
        let late = late_by s.reading.service (flow_read s.reading) s.config act.now in
        let p = most_price (inputs.scene_change (A.around around.now)) late in
        IfOk result (λ x. (A.marked x.0, A.seen x.1) ≡ raise (A.meter around.now) p (A.marked mark, A.seen sum)) }
{
    match &act.target {
        Target::Direct(at) => object_from(around, here, act.name, at, mark, sum),
        Target::Through(variable) => {
            objects_from(around, here, act.name, here.set(variable), mark, sum)
        }
    }
}

/// The same of each of these actions.
fn sites_from<A: Around>(
    around: &A,
    here: &At<'_>,
    sites: &[Site<'_>],
    mark: A::Mark,
    sum: A::Sum,
) -> Result<(A::Mark, A::Sum), A::Stop>
    ensures { let s = here.now in
        let late = flat_map (λ x. late_by s.reading.service (flow_read s.reading) s.config x.act) sites.now in
        let p = most_price (inputs.scene_change (A.around around.now)) late in
        IfOk result (λ x. (A.marked x.0, A.seen x.1) ≡ raise (A.meter around.now) p (A.marked mark, A.seen sum)) }
{
    let mut mark = mark;
    let mut sum = sum;
    for site in sites {
        (mark, sum) = act_from(around, here, site.act, mark, sum)?;
    }
    Ok((mark, sum))
}

/// What a transition to a late scene comes to which an active action begins here: the largest of these.
#[tactic(auto, using(crate::proofs::LateLemmas::no_scenes))]
pub(crate) fn changes_from<M: Meter>(
    walk: &Walk<'_, M>,
    mark: M::Mark,
    sum: M::Sum,
) -> Result<(M::Mark, M::Sum), AllocError>
    ensures { let s = walk.now.here.now in let m = through (number_of s.reading) (M.meter walk.now.meter.now) in
        let late = late_scenes s.reading.service (flow_read s.reading) s.config in
        let p = most_price (inputs.scene_change (around_at s)) late in
        IfOk result (λ x. (M.marked x.0, M.seen x.1) ≡ raise m p (M.marked mark, M.seen sum)) }
{
    if walk.here.numbered_service().service().late().is_empty() {
        return Ok((mark, sum));
    }
    let sites = walk.here.sites()?;
    sites_from(walk, walk.here, sites.as_slice(), mark, sum)
}
