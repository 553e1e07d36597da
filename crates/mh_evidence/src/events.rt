//! Events: whether one of them puts the effect to work that is asked for.
//!
//! Promise: an event puts it to work just where its price tells of it.
ghost use Rattle.std.specs.Prelude.{◌≡◌, ◌&&◌, ◌||◌, ◌==◌, not};
ghost use Rattle.std.specs.List.{list_any};
ghost use Rattle.mh_base.specs.Event.{is_sync};
ghost use Rattle.mh_model.specs.Reference.{same_key};
ghost use Rattle.mh_laws.specs.Costs as costs;
ghost use Rattle.mh_layers.specs.Arrows.{number_by};
ghost use Rattle.mh_layers.specs.Reading.{same_setting};
ghost use Rattle.mh_evidence.specs.Putting.{around_of, could_hear, effect_of, is_heard, ref_of, tells};

use crate::asked::Asked;
use crate::links::could_hear;
use crate::there::There;
use mh_base::{EventType, GroupName};
use mh_layers::By;
use mh_model::{Fixed, FixedPart};
use mh_prices::Told;

/// Whether it is an event that puts an effect to work.
#[tactic(auto, using(crate::proofs::HearLemmas::slot_is_no_link))]
fn is_event(by: &By) -> bool
    ensures { result ≡ (number_by by.now == costs.link_effect) }
{
    matches!(by, By::Event(_))
}

impl<'a> Asked<'a> {
    fn is_heard_by(
        &self,
        part: &Fixed,
        group: &GroupName,
        number: u32,
        kind: EventType,
        told: &Told<'_>,
    ) -> bool
        ensures { result ≡ (could_hear (ref_of group.now number) kind told.now part.now && same_key self.now.next.cause.at part.now.key) }
    {
        if self.next.cause.at == part.key {
            could_hear(part, group, number, kind, told)
        } else {
            false
        }
    }

    fn is_heard_in(
        &self,
        parts: &[FixedPart],
        group: &GroupName,
        number: u32,
        kind: EventType,
        told: &Told<'_>,
    ) -> bool
        ensures { result ≡ list_any (λ p. could_hear (ref_of group.now number) kind told.now p && same_key self.now.next.cause.at p.key) parts.now }
    {
        parts.iter().any(|part| self.is_heard_by(part.get(), group, number, kind, told))
    }

    #[tactic(auto, using(crate::proofs::AnyLemmas::any_in_two))]
    fn is_heard_among(
        &self,
        there: &There<'_>,
        group: &GroupName,
        number: u32,
        kind: EventType,
        told: &Told<'_>,
    ) -> bool
        ensures { result ≡ list_any (λ p. could_hear (ref_of group.now number) kind told.now p && same_key self.now.next.cause.at p.key) there.now }
    {
        let (application, scene) = there.parts();
        self.is_heard_in(application, group, number, kind, told)
            || self.is_heard_in(scene, group, number, kind, told)
    }

    /// Whether the link whose effect is asked for hears the event, where that is.
    #[tactic(auto, unfolding(crate::specs::Putting::is_heard))]
    fn is_heard(&self, group: &GroupName, number: u32, kind: EventType, told: &Told<'_>) -> bool
        ensures { result ≡ is_heard self.now (ref_of group.now number) kind told.now }
    {
        if !is_event(&self.arrow.by) {
            return false;
        }
        let there = self.there();
        there.has(group, number) && self.is_heard_among(&there, group, number, kind, told)
    }

    /// Whether the event is dealt with where the effect is: at once, or since it waits.
    fn may_come(&self, kind: EventType) -> bool
        ensures { result ≡ (not (is_sync kind) || same_setting self.now.next.cause.config self.now.config) }
    {
        !kind.is_sync() || self.is_there()
    }

    /// An event of the object of the group that has the number.
    #[tactic(auto, using(crate::proofs::HearLemmas::dealt_asked))]
    pub(crate) fn deals_with(
        &self,
        group: &GroupName,
        number: u32,
        kind: EventType,
        told: &Told<'_>,
    ) -> bool
        ensures { let source = ref_of group.now number in
            result ≡ tells (effect_of self.now) ((around_of self.now).lists.view.dealt_with source kind told.now) }
    {
        self.may_come(kind) && self.is_heard(group, number, kind, told)
    }
}
