//! The view of a configuration that an arrow grants: whether prices there tell of the effect that is asked for.
//!
//! Promise: each function answers what its price adds to what was found so far. The walk over prices is that of `mh_prices`.
ghost use Rattle.std.specs.Prelude.{◌≡◌, ◌&&◌, ◌∷◌, [], ◌==◌, drop, false, IfNone, IfSome};
ghost use Rattle.std.specs.Option.{option_map_or};
ghost use Rattle.mh_model.specs.Reference.{group_ref, same_key};
ghost use Rattle.mh_model.specs.Service.{group_parts, part_at};
ghost use Rattle.mh_laws.specs.Costs as costs;
ghost use Rattle.mh_layers.specs.Arrows.{counts, granted, held_by, number_by, put_by};
ghost use Rattle.mh_layers.specs.Reading.{same_setting};
ghost use Rattle.mh_evidence.specs.Putting.{around_of, closes_of, effect_of, starts_of, tells};

use crate::asked::Asked;
use crate::effects::is_slot;
use crate::there::{There, part_at, scene_parts};
use mh_base::{EventType, GroupName, ObjRef};
use mh_layers::{Arrow, By, Held};
use mh_model::{Act, Fixed};
use mh_prices::{Around, Groups, Lists, Told, View, change, enter, leave_all, leave_scene};
use mh_service::Service;
use std::convert::Infallible;

/// Whether a group is entered.
#[tactic(auto, using(crate::proofs::GroupLemmas::slot_is_no_start))]
fn is_entered(by: &By) -> bool
    ensures { result ≡ (number_by by.now == costs.on_start_up) }
{
    matches!(by, By::Entered)
}

/// Whether a group is left.
#[tactic(auto, using(crate::proofs::GroupLemmas::slot_is_no_end))]
fn is_left(by: &By) -> bool
    ensures { result ≡ (number_by by.now == costs.on_close_down) }
{
    matches!(by, By::Left)
}

/// The first object from a place on that these say the variable refers to or the list has, and the place behind it.
#[tactic(auto, using(crate::proofs::HeldLemmas::held_there))]
fn held_from<'a>(held: &'a [Held], by: &ObjRef, place: usize) -> Option<(&'a ObjRef, usize)>
    ensures some { IfSome result (λ x. held_by (drop place held.now) by.now ≡ x.0.now ∷ held_by (drop x.1 held.now) by.now) }
    ensures none { IfNone result (held_by (drop place held.now) by.now ≡ []) }
{
    let mut place = place;
    while let Some(one) = held.get(place) {
        place += 1;
        if *by == one.by {
            return Some((&one.at, place));
        }
    }
    None
}

impl<'a> Asked<'a> {
    /// Whether the effect that is asked for is one of the group itself, here.
    fn is_of_group(&self, group: &GroupName) -> bool
        ensures { let a = self.now in
            result ≡ option_map_or (λ p. same_setting a.next.cause.config a.config && same_key a.next.cause.at p.key)
            (part_at (group_ref group.now) (group_parts a.service group.now)) false }
    {
        match part_at(self.parts(group), group, 0) {
            None => false,
            Some(part) => self.is_of(&part.key),
        }
    }

    #[tactic(auto, using(crate::proofs::GroupLemmas::group_asked))]
    fn starts_up(&self, group: &GroupName) -> bool
        ensures { result ≡ tells (effect_of self.now) (starts_of self.now group.now) }
    {
        is_entered(&self.arrow.by) && self.is_of_group(group)
    }

    #[tactic(auto, using(crate::proofs::GroupLemmas::group_asked))]
    fn closes_down(&self, group: &GroupName) -> bool
        ensures { result ≡ tells (effect_of self.now) (closes_of self.now group.now) }
    {
        is_left(&self.arrow.by) && self.is_of_group(group)
    }

    /// Whether it is one of the slots of the object.
    #[tactic(auto, using(crate::proofs::ActLemmas::slots_asked))]
    fn is_slot_of(&self, part: &Fixed) -> bool
        ensures { result ≡ tells (effect_of self.now) ((around_of self.now).lists.view.slots part.now) }
    {
        self.is_of(&part.key) && is_slot(part, &self.arrow.by)
    }
}

impl<'a> View for Asked<'a> {
    ghost use Rattle.std.specs.Prelude.{Bool};
    ghost use Rattle.mh_laws.specs.Costs.{Effect};
    ghost use Rattle.mh_evidence.specs.Putting.{around_of, closes_of, left_of, meter_of, starts_of};

    type Sum = bool;

    type Mark = ();

    type Cursor = usize;

    type Stop = Infallible;

    ghost Key = { Effect };

    ghost Seen = { Bool };

    ghost Marked = { record {} };

    ghost seen = { λ s. s };

    ghost marked = { λ m. record {} };

    ghost meter = { meter_of };

    ghost around = { around_of };

    ghost left = { left_of };

    ghost starts = { starts_of };

    ghost closes = { closes_of };

    fn one(&self, found: bool) -> bool {
        found
    }

    fn aside(&self, found: bool) -> ((), bool) {
        ((), found)
    }

    fn next(&self, mark: (), found: bool) -> ((), bool) {
        (mark, found)
    }

    fn close(&self, _mark: (), found: bool) -> bool {
        found
    }

    fn part(&self, at: &ObjRef) -> Option<&Fixed> {
        There::with(self.service, self.application, self.scene).find(at)
    }

    #[tactic(auto, unfolding(crate::specs::Putting::flow_of))]
    fn begin(&self, _at: &ObjRef) -> usize {
        0
    }

    fn item(&self, at: &ObjRef, place: usize) -> Option<(&ObjRef, usize)> {
        held_from(self.arrow.held.as_slice(), at, place)
    }

    #[tactic(auto, using(crate::proofs::PutLemmas::found_told))]
    fn dealt_with(
        &self,
        at: &ObjRef,
        kind: EventType,
        told: &Told<'_>,
        found: bool,
    ) -> Result<bool, Infallible> {
        Ok(found || self.deals_with(&at.group, at.number, kind, told))
    }

    #[tactic(auto, using(crate::proofs::PutLemmas::found_told))]
    fn slots(&self, part: &Fixed, found: bool) -> Result<bool, Infallible> {
        Ok(found || self.is_slot_of(part))
    }
}

impl<'a> Lists for Asked<'a> {
    fn change(&self, at: &ObjRef, found: bool) -> Result<bool, Infallible> {
        change(self, at, found)
    }
}

impl<'a> Groups for Asked<'a> {
    #[tactic(auto, using(crate::proofs::PutLemmas::found_told))]
    fn start_up(&self, group: &GroupName, found: bool) -> Result<bool, Infallible> {
        Ok(found || self.starts_up(group))
    }

    #[tactic(auto, using(crate::proofs::PutLemmas::found_told))]
    fn close_down(&self, group: &GroupName, found: bool) -> Result<bool, Infallible> {
        Ok(found || self.closes_down(group))
    }

    #[tactic(auto, using(crate::proofs::PutLemmas::found_told))]
    fn group_dealt_with(
        &self,
        group: &GroupName,
        kind: EventType,
        found: bool,
    ) -> Result<bool, Infallible> {
        Ok(found || self.deals_with(group, 0, kind, &Told::sure(None)))
    }
}

impl<'a> Around for Asked<'a> {
    fn leave(&self, all: bool, found: bool) -> Result<bool, Infallible> {
        let application_parts = self.parts(self.application);
        let scene_parts = scene_parts(self.service, self.scene);
        if all {
            leave_all(
                self,
                self.application,
                self.scene,
                scene_parts,
                application_parts,
                found,
            )
        } else {
            leave_scene(self, self.scene, scene_parts, application_parts, found)
        }
    }

    // the step of an exchange is no effect, so nothing is added for it
    fn exchange(&self, group: &GroupName, found: bool) -> Result<bool, Infallible> {
        enter(&self.exchanged(group), group, self.parts(group), found)
    }
}

/// Whether the action, where the arrow has it, puts the effect of the next arrow to work.
pub(crate) fn puts(service: &Service, arrow: &Arrow, next: &Arrow, act: &Act) -> bool
    ensures { let a = arrow.now in let d = next.now.cause in
        result ≡ counts (put_by a.by d) (costs.act service.now (granted service.now a d.config act.now) a.cause.config act.now) }
{
    match mh_prices::act(&Asked::of(service, arrow, next, act), act, false) {
        Ok(found) => found,
        Err(never) => match never {},
    }
}
