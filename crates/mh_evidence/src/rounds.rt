//! Rounds: arrows of a service, of which each leads to the next, and the last to the first.
//!
//! Promise: each function answers what the definition that its clause names says.
ghost use Rattle.std.specs.Prelude.{◌≡◌, ◌&&◌};
ghost use Rattle.std.specs.List.{list_all, list_any};
ghost use Rattle.mh_model.specs.Configuration.{present};
ghost use Rattle.mh_laws.specs.Active.{is_active};
ghost use Rattle.mh_flow.specs.Sites.{Site as SiteLem};
ghost use Rattle.mh_layers.specs.Arrows.{ArrowsAreCauses, goes_round, leads, meets};
ghost use Rattle.mh_verify.specs.Evidence.{is_arrow_of, is_by_holder};
ghost use Rattle.mh_evidence.specs.Spots.{with_number};
ghost use Rattle.mh_evidence.specs.Putting.{is_putting, lead_on, next_of, puts_in};

use crate::effects::is_action_in;
use crate::links::is_waited_for;
use crate::sites::with_number;
use crate::there::{There, class_in, is_configuration, is_holder};
use crate::view::puts;
use mh_layers::{Arrow, By, Held};
use mh_model::{Act, Fixed, FixedPart};
use mh_service::Service;

/// Whether what is granted is held by a variable of references, or by a list.
fn is_by_holder(service: &Service, held: &Held) -> bool
    ensures { result ≡ is_by_holder service.now held.now }
{
    class_in(service, &held.by).is_some_and(|class| is_holder(class))
}

fn are_by_holders(service: &Service, held: &[Held]) -> bool
    ensures { result ≡ list_all (is_by_holder service.now) held.now }
{
    held.iter().all(|held| is_by_holder(service, held))
}

/// Whether the cause is of a configuration, and all that is granted is of variables of references and of lists.
fn is_arrow_of(service: &Service, arrow: &Arrow) -> bool
    ensures { result ≡ is_arrow_of service.now arrow.now }
{
    is_configuration(service, &arrow.cause.config) && are_by_holders(service, arrow.held.as_slice())
}

pub(crate) fn are_arrows_of(service: &Service, arrows: &[Arrow]) -> bool
    ensures { result ≡ list_all (is_arrow_of service.now) arrows.now }
{
    arrows.iter().all(|arrow| is_arrow_of(service, arrow))
}

/// Whether what is put to work is the effect of the next arrow.
fn meets(service: &Service, by: &By, next: &Arrow) -> bool
    ensures { result ≡ meets service.now by.now next.now }
{
    let cause = &next.cause;
    match There::of(service, &cause.config).find(&cause.at) {
        None => false,
        Some(part) => is_waited_for(by, part) && is_action_in(part, by, next),
    }
}

/// Whether the action is the arrow's, and puts the effect of the next to work.
#[tactic(auto, unfolding(crate::specs::Putting::is_putting))]
fn is_putting(service: &Service, arrow: &Arrow, next: &Arrow, act: &Act) -> bool
    ensures { result ≡ is_putting service.now arrow.now next.now act.now }
{
    arrow.action.number() == act.name.number() && puts(service, arrow, next, act)
}

/// Whether the action of the object with the arrow's number is the arrow's, and puts the effect of the next to work.
fn has_putting(service: &Service, arrow: &Arrow, next: &Arrow, part: &Fixed) -> bool
    ensures { let is = is_putting service.now arrow.now next.now in
        result ≡ list_any (λ (x : SiteLem). is x.act) (with_number arrow.now.index part.now) }
{
    match with_number(part, arrow.index) {
        None => false,
        Some(site) => is_putting(service, arrow, next, site.act),
    }
}

/// Whether one of the actions of the object is the arrow's, and puts the effect of the next to work.
#[tactic(auto, using(crate::proofs::ArrowLemmas::puts_told))]
fn puts_in(service: &Service, arrow: &Arrow, next: &Arrow, part: &Fixed) -> bool
    ensures { result ≡ puts_in service.now arrow.now next.now part.now }
{
    arrow.cause.at == part.key && has_putting(service, arrow, next, part)
}

/// Whether the arrow's action, where it is active, is one of this object, and puts the effect of the next to work.
fn puts_here(
    service: &Service,
    arrow: &Arrow,
    next: &Arrow,
    present: &There<'_>,
    part: &Fixed,
) -> bool
    ensures { result ≡ (is_active present.now part.now && puts_in service.now arrow.now next.now part.now) }
{
    present.is_active(part) && puts_in(service, arrow, next, part)
}

fn puts_among(
    service: &Service,
    arrow: &Arrow,
    next: &Arrow,
    present: &There<'_>,
    parts: &[FixedPart],
) -> bool
    ensures { result ≡ list_any (λ p. is_active present.now p && puts_in service.now arrow.now next.now p) parts.now }
{
    parts.iter().any(|part| puts_here(service, arrow, next, present, part.get()))
}

#[tactic(auto, using(crate::proofs::AnyLemmas::any_in_two))]
fn puts_there(service: &Service, arrow: &Arrow, next: &Arrow) -> bool
    ensures { let ps = present service.now arrow.now.cause.config in
        result ≡ list_any (λ p. is_active ps p && puts_in service.now arrow.now next.now p) ps }
{
    let present = There::of(service, &arrow.cause.config);
    let (application, scene) = present.parts();
    puts_among(service, arrow, next, &present, application)
        || puts_among(service, arrow, next, &present, scene)
}

/// Whether the arrow's action, of an active effect, puts the effect of the next to work.
#[tactic(auto, using(crate::proofs::ArrowLemmas::leads_told))]
fn leads(service: &Service, arrow: &Arrow, next: &Arrow) -> bool
    ensures { result ≡ leads service.now arrow.now next.now }
{
    meets(service, &arrow.by, next) && puts_there(service, arrow, next)
}

/// Where each of three arrows leads to the next, the effect of the second, which the first puts to work, causes that of the
/// third, as far as what the second says is granted.
pub fn arrows_are_causes()
    ensures { ArrowsAreCauses }
{}

fn next_of<'a>(first: &'a Arrow, behind: &'a [Arrow]) -> &'a Arrow
    ensures { result.now ≡ next_of first.now behind.now }
{
    match behind {
        [] => first,
        [next, ..] => next,
    }
}

/// Whether each of these leads to the next, and the last to this one.
fn lead_on(service: &Service, first: &Arrow, arrows: &[Arrow]) -> bool
    ensures { result ≡ lead_on service.now first.now arrows.now }
{
    let mut rest = arrows;
    while let [arrow, behind @ ..] = rest {
        if !leads(service, arrow, next_of(first, behind)) {
            return false;
        }
        rest = behind;
    }
    true
}

/// Whether there is an arrow, each leads to the next, and the last to the first.
#[tactic(auto, using(crate::proofs::ArrowLemmas::round_told))]
pub(crate) fn goes_round(service: &Service, arrows: &[Arrow]) -> bool
    ensures { result ≡ goes_round service.now arrows.now }
{
    match arrows {
        [] => false,
        [first, ..] => lead_on(service, first, arrows),
    }
}
