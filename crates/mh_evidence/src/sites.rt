//! Sites: the actions of objects, each found by its number.
//!
//! Promise: what is found stands there by the definition of sites. Those before it are counted off, so that no number grows.
ghost use Rattle.std.specs.Prelude.{◌≡◌};
ghost use Rattle.std.specs.List.{flat_map};
ghost use Rattle.std.specs.Option.{option_copied, option_to_list};
ghost use Rattle.mh_laws.specs.Costs.{effects};
ghost use Rattle.mh_flow.specs.Chart as chart;
ghost use Rattle.mh_evidence.specs.Counting.{counted, all_counted};
ghost use Rattle.mh_evidence.specs.Spots.{with_number, at_place, at_link};
ghost use Rattle.mh_laws.specs.Flow.{reads_reference};
ghost use Rattle.mh_model.specs.Variables.{same_kind};

use crate::there::members;
use mh_base::Kind;
use mh_flow::{Link, Site};
use mh_group::{ActionName, Attribute};
use mh_model::parts::effect_of;
use mh_model::{Act, Argument, Effect, Fixed, Member};
use mh_verify::Place;
use std::ops::ControlFlow;

/// The site that is sought, or how many actions come before it still.
type Count<'a> = ControlFlow<Site<'a>, usize>;

/// An effect of the object is counted off.
#[tactic(auto, unfolding(crate::specs::Counting::counted))]
fn count_effect<'a>(part: &'a Fixed, number: usize, left: usize, acts: &'a [Act]) -> Count<'a>
    ensures { result ≡ counted part.now.key number left acts.now }
{
    match acts.get(left) {
        None => ControlFlow::Continue(left.saturating_sub(acts.len())),
        Some(act) => ControlFlow::Break(Site {
            key: &part.key,
            index: number,
            first: number.saturating_sub(left),
            act,
        }),
    }
}

/// These effects of the object are counted off.
fn count_effects<'a>(
    part: &'a Fixed,
    number: usize,
    left: usize,
    effects: &'a [Effect],
) -> Count<'a>
    ensures { result ≡ all_counted part.now.key number left effects.now }
{
    let mut left = left;
    for effect in effects {
        left = count_effect(part, number, left, effect.as_slice())?;
    }
    ControlFlow::Continue(left)
}

/// The slots of these members are counted off.
#[tactic(auto, using(crate::proofs::SiteLemmas::counted_behind))]
fn count_members<'a>(
    part: &'a Fixed,
    number: usize,
    left: usize,
    members: &'a [Member],
) -> Count<'a>
    ensures { result ≡ all_counted part.now.key number left (flat_map (λ m. m.slots) members.now) }
{
    let mut left = left;
    let mut members = members;
    while let Some((member, behind)) = members.split_first() {
        left = count_effects(part, number, left, member.slots.as_slice())?;
        members = behind;
    }
    ControlFlow::Continue(left)
}

/// All effects of the object are counted off: start-up, close-down, what a link does, and slots.
fn count_all(part: &Fixed, number: usize, left: usize) -> Count<'_>
    ensures { result ≡ all_counted part.now.key number left (effects part.now) }
{
    let left = count_effect(part, number, left, effect_of(part, Attribute::OnStartUp))?;
    let left = count_effect(part, number, left, effect_of(part, Attribute::OnCloseDown))?;
    let left = count_effect(part, number, left, effect_of(part, Attribute::LinkEffect))?;
    count_members(part, number, left, members(part))
}

/// The action of the object with this number.
#[tactic(auto, using(crate::proofs::SiteLemmas::number_counted))]
pub(crate) fn with_number(part: &Fixed, number: usize) -> Option<Site<'_>>
    ensures { option_to_list result ≡ with_number number part.now }
{
    if number == 0 {
        return None;
    }
    count_all(part, number, number - 1).break_value()
}

/// The action of the object at the place.
#[tactic(auto, using(crate::proofs::SiteLemmas::place_number))]
pub(crate) fn at_place<'a>(place: &Place, part: &'a Fixed) -> Option<Site<'a>>
    ensures { option_to_list result ≡ at_place place.now part.now }
{
    if place.group == part.key.group && place.object == part.key.number {
        with_number(part, place.index)
    } else {
        None
    }
}

/// The action of the object at the link.
#[tactic(auto, using(crate::proofs::SiteLemmas::link_number))]
pub(crate) fn at_link<'a>(link: &Link, part: &'a Fixed) -> Option<Site<'a>>
    ensures { option_to_list result ≡ at_link link.now part.now }
{
    if link.key == part.key {
        with_number(part, link.index)
    } else {
        None
    }
}

/// The argument that the action hands on as a reference, if it hands one on.
pub(crate) fn handed(act: &Act) -> Option<&Argument>
    ensures { option_copied result ≡ chart.handed_argument act.now }
{
    match act.name {
        ActionName::SetVariable => read(act.arguments.as_slice().get(0)),
        ActionName::AddItem => act.arguments.as_slice().get(1),
        _ => None,
    }
}

/// The value to which a variable is set, unless it is that of another variable and not written as an object's.
fn read(value: Option<&Argument>) -> Option<&Argument>
    ensures { option_copied result ≡ chart.read_by ActionName.SetVariable (option_copied value.entry) }
{
    match value {
        Some(argument) if !is_reference(argument) => None,
        _ => value,
    }
}

fn is_reference(value: &Argument) -> bool
    ensures { result ≡ reads_reference value.now ActionName.SetVariable }
{
    match value {
        Argument::Through(_, Some(kind)) => is_object(*kind),
        Argument::Through(_, None) => false,
        _ => true,
    }
}

fn is_object(kind: Kind) -> bool
    ensures { result ≡ same_kind Kind.Object kind }
{
    matches!(kind, Kind::Object)
}
