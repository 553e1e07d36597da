//! The action of which a refusal is told, among what the file of its group says.
ghost use Rattle.std.specs.Prelude.{◌≡◌, ◌==◌};
ghost use Rattle.std.specs.Option.{option_copied};
ghost use Rattle.mh_model.specs.Service.{group_parts};
ghost use Rattle.mh_cause.specs.Acts.{act_in, act_of, behind_closedown, behind_startup, in_members, in_object, in_slots, left_behind, members_in, members_of, numbered};

use crate::refused::Refused;
use mh_base::GroupName;
use mh_group::Attribute;
use mh_model::parts::{effect_of, members};
use mh_model::{Act, Effect, Fixed, FixedPart, Member};
use mh_service::Service;

/// The object of the group with this number, if it is there.
pub(crate) fn part_of<'a>(service: &'a Service, group: &GroupName, number: u32) -> Option<&'a Fixed>
    ensures { option_copied result ≡ numbered number (group_parts service.now group.now) }
{
    match part_numbered(service.parts(group), number) {
        Some(part) => Some(part.get()),
        None => None,
    }
}

pub(crate) fn part_numbered(parts: &[FixedPart], number: u32) -> Option<&FixedPart>
    ensures { option_copied result ≡ numbered number parts.now }
{
    parts.iter().find(|part| is_numbered(*part, number))
}

fn is_numbered(part: &FixedPart, number: u32) -> bool
    ensures { result ≡ (part.now.key.number == number) }
{
    part.get().key.number == number
}

/// The action of which the refusal is told.
#[tactic(auto, unfolding(crate::specs::Acts::act_of))]
pub(crate) fn act_of<'a>(service: &'a Service, refused: &Refused<'_>) -> Option<&'a Act>
    ensures { option_copied result ≡ act_of service.now refused.now }
{
    act_in(
        refused.index,
        part_of(service, refused.group, refused.object),
    )
}

fn act_in(index: usize, part: Option<&Fixed>) -> Option<&Act>
    ensures { option_copied result ≡ act_in index (option_copied part.entry) }
{
    match part {
        Some(part) => in_object(part, index.saturating_sub(1)),
        None => None,
    }
}

/// The action of the object before which so many stand.
#[tactic(auto, unfolding(crate::specs::Acts::in_object))]
fn in_object(part: &Fixed, before: usize) -> Option<&Act>
    ensures { option_copied result ≡ in_object part.now before }
{
    let acts = effect_of(part, Attribute::OnStartUp);
    if before < acts.len() {
        return acts.get(before);
    }
    behind_startup(part, before - acts.len())
}

#[tactic(auto, unfolding(crate::specs::Acts::behind_startup))]
fn behind_startup(part: &Fixed, before: usize) -> Option<&Act>
    ensures { option_copied result ≡ behind_startup part.now before }
{
    let acts = effect_of(part, Attribute::OnCloseDown);
    if before < acts.len() {
        return acts.get(before);
    }
    behind_closedown(part, before - acts.len())
}

#[tactic(auto, unfolding(crate::specs::Acts::behind_closedown))]
fn behind_closedown(part: &Fixed, before: usize) -> Option<&Act>
    ensures { option_copied result ≡ behind_closedown part.now before }
{
    let acts = effect_of(part, Attribute::LinkEffect);
    if before < acts.len() {
        return acts.get(before);
    }
    in_members(members(part), before - acts.len())
}

/// The members of the object of which the refusal is told.
#[tactic(auto, unfolding(crate::specs::Acts::members_of))]
pub(crate) fn members_of<'a>(service: &'a Service, refused: &Refused<'_>) -> &'a [Member]
    ensures { result.now ≡ members_of service.now refused.now }
{
    members_in(part_of(service, refused.group, refused.object))
}

fn members_in(part: Option<&Fixed>) -> &[Member]
    ensures { result.now ≡ members_in (option_copied part.entry) }
{
    match part {
        Some(part) => members(part),
        None => &[],
    }
}

fn in_members(members: &[Member], before: usize) -> Option<&Act>
    ensures { option_copied result ≡ in_members before members.now }
{
    let mut left = members;
    let mut before = before;
    while let [member, behind @ ..] = left {
        let slots = member.slots.as_slice();
        if let Some(act) = in_slots(slots, before) {
            return Some(act);
        }
        before = left_behind(slots, before);
        left = behind;
    }
    None
}

fn in_slots(slots: &[Effect], before: usize) -> Option<&Act>
    ensures { option_copied result ≡ in_slots before slots.now }
{
    let mut left = slots;
    let mut before = before;
    while let [slot, behind @ ..] = left {
        let acts = slot.as_slice();
        if before < acts.len() {
            return acts.get(before);
        }
        before -= acts.len();
        left = behind;
    }
    None
}

/// How many of so many are left behind these.
fn left_behind(slots: &[Effect], before: usize) -> usize
    ensures { result ≡ left_behind before slots.now }
{
    let mut left = slots;
    let mut before = before;
    while let [slot, behind @ ..] = left {
        before = before.saturating_sub(slot.as_slice().len());
        left = behind;
    }
    before
}
