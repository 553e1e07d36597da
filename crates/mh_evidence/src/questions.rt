//! Questions: whether what is claimed is so at a place.
//!
//! Promise: what is claimed is looked for with each of the references in turn to which it is granted that variables refer, in
//! all that stands at the place.
ghost use Rattle.std.specs.Prelude.{◌≡◌};
ghost use Rattle.std.specs.List.{list_any};
ghost use Rattle.std.specs.Option.{option_copied, option_to_list};
ghost use Rattle.mh_evidence.specs.Cases as spec;
ghost use Rattle.mh_verify.specs.Naming as naming;

use crate::claims::{Case, Claim};
use crate::sites::at_place;
use crate::there::There;
use mh_base::ObjRef;
use mh_flow::Site;
use mh_group::ActionName;
use mh_model::{Fixed, FixedPart};
use mh_service::Service;
use mh_verify::Place;
use std::marker::Model;

/// A claim about a place where this is present.
#[derive(Drop)]
pub(crate) struct Question<'a> {
    pub service: &'a Service,
    pub there: &'a There<'a>,
    pub place: &'a Place,
    /// The action that is named; without one it is the object itself.
    pub action: Option<ActionName>,
    pub claim: &'a Claim<'a>,
}

impl<'a> Model for Question<'a> {
    ghost use Rattle.mh_evidence.specs.Cases.{Question as QuestionValue};

    ghost Value = { QuestionValue };

    ghost view = { λ q. record {
      service = q.service.now;
      parts = q.there.now;
      place = q.place.now;
      action = q.action;
      claim = q.claim.now;
    } };
}

impl Question<'_> {
    /// Whether it is so where variables refer to one of those that are present.
    #[tactic(auto, using(crate::proofs::AnyLemmas::any_in_two))]
    pub(crate) fn is_so_of_any(&self) -> bool
        ensures { result ≡ list_any (λ p. spec.is_so self.now p.key) self.now.parts }
    {
        let (application, scene) = self.there.parts();
        self.is_so_of_parts(application) || self.is_so_of_parts(scene)
    }

    fn is_so_of_parts(&self, parts: &[FixedPart]) -> bool
        ensures { result ≡ list_any (λ p. spec.is_so self.now p.key) parts.now }
    {
        parts.iter().any(|part| self.is_so_of(&part.get().key))
    }

    /// Whether it is so where variables refer to this.
    #[tactic(auto, unfolding(crate::specs::Cases::is_so), using(crate::proofs::AnyLemmas::any_in_two))]
    pub(crate) fn is_so_of(&self, at: &ObjRef) -> bool
        ensures { result ≡ spec.is_so self.now at.now }
    {
        let case = Case {
            service: self.service,
            there: self.there,
            at,
            claim: self.claim,
        };
        let (application, scene) = self.there.parts();
        case.is_in(self.place, self.action, application)
            || case.is_in(self.place, self.action, scene)
    }
}

impl Case<'_> {
    /// Whether it is wrong with one of these parts, or with its action, at the place.
    fn is_in(&self, place: &Place, action: Option<ActionName>, parts: &[FixedPart]) -> bool
        ensures { result ≡ list_any (spec.is_wrong_part self.now place.now action) parts.now }
    {
        parts
            .iter()
            .any(|part| self.is_at(place, action, part.get()))
    }

    fn is_at(&self, place: &Place, action: Option<ActionName>, part: &Fixed) -> bool
        ensures { result ≡ spec.is_wrong_part self.now place.now action part.now }
    {
        match action {
            None => self.is_at_part(place, part),
            Some(action) => self.is_at_site(place, action, part),
        }
    }

    /// Whether it is wrong with a member of the object at the place.
    #[tactic(auto, unfolding(crate::specs::Cases::has_wrong_member))]
    fn is_at_part(&self, place: &Place, part: &Fixed) -> bool
        ensures { result ≡ spec.has_wrong_member self.now place.now part.now }
    {
        is_part_at(place, part) && self.is_of_part(part)
    }

    /// Whether it is wrong with the object's action at the place.
    #[tactic(auto, unfolding(crate::specs::Cases::has_wrong_action))]
    fn is_at_site(&self, place: &Place, action: ActionName, part: &Fixed) -> bool
        ensures { result ≡ spec.has_wrong_action self.now place.now action part.now }
    {
        self.is_of_site(action, at_place(place, part).as_ref()) && self.there.is_active(part)
    }

    fn is_of_site(&self, action: ActionName, site: Option<&Site<'_>>) -> bool
        ensures { result ≡ list_any (spec.is_wrong_site self.now action) (option_to_list (option_copied site.entry)) }
    {
        match site {
            None => false,
            Some(site) => self.is_with(action, site),
        }
    }

    /// Whether the action at the site is of this name, and it is wrong with it.
    #[tactic(auto, unfolding(crate::specs::Cases::is_wrong_site))]
    fn is_with(&self, action: ActionName, site: &Site<'_>) -> bool
        ensures { result ≡ spec.is_wrong_site self.now action site.now }
    {
        site.act.name.number() == action.number() && self.is_of_action(site.act)
    }
}

/// Whether the place is that of the object itself.
fn is_part_at(place: &Place, part: &Fixed) -> bool
    ensures { result ≡ naming.is_part_at place.now part.now }
{
    place.group == part.key.group && place.object == part.key.number && place.index == 0
}
