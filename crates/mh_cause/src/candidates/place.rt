//! `Place`: where an object is wanted.
ghost use Rattle.std.specs.Prelude.{◌≡◌};
ghost use Rattle.std.specs.Option.{option_copied};
ghost use Rattle.mh_cause.specs.Candidates as spec;

use crate::acts::act_of;
use crate::misfit::{Misfit, direct_class, misfit_of};
use crate::refused::Refused;
use mh_base::ObjRef;
use mh_group::{ActionName, Class};
use mh_model::Act;
use mh_service::Service;
use std::marker::Model;

/// The place at which an object is wanted.
#[derive(Drop)]
pub(crate) struct Place<'a> {
    /// The reference that is written there.
    pub(crate) at: &'a ObjRef,
    /// The action; a member of a list stands in none.
    pub(crate) act: Option<&'a Act>,
    /// The class of the action's target, if that is written.
    pub(crate) target: Option<Class>,
    /// What is of another kind there now than is needed.
    pub(crate) misfit: Option<Misfit>,
}

impl<'a> Model for Place<'a> {
    ghost use Rattle.std.specs.Option.{option_copied};
    ghost use Rattle.mh_cause.specs.Candidates.{Place as PlaceValue};

    ghost Value = { PlaceValue };

    ghost view = { λ p. record { at = p.at.now; act = option_copied p.act; target = p.target; misfit = p.misfit } };
}

fn act_at<'a>(
    service: &'a Service,
    refused: &Refused<'_>,
    action: Option<ActionName>,
) -> Option<&'a Act>
    ensures { option_copied result ≡ spec.act_at service.now refused.now action }
{
    match action {
        Some(_) => act_of(service, refused),
        None => None,
    }
}

fn target_at(service: &Service, act: Option<&Act>) -> Option<Class>
    ensures { result ≡ spec.target_at service.now (option_copied act.entry) }
{
    match act {
        Some(act) => direct_class(service, &act.target),
        None => None,
    }
}

/// The place where the reference is written that is refused.
#[tactic(auto, unfolding(crate::specs::Candidates::place_of))]
pub(crate) fn place_of<'a>(service: &'a Service, refused: &Refused<'a>) -> Place<'a>
    ensures { result ≡ spec.place_of service.now refused.now }
{
    let act = act_at(service, refused, refused.action);
    Place {
        at: refused.at,
        act,
        target: target_at(service, act),
        misfit: misfit_of(service, refused),
    }
}
