//! The effects of an object, and where each stands among its actions.
//!
//! Promise: each function answers what its definition says. Numbers of actions are not added up but taken away from the one
//! that is looked for, so that none is too large.
ghost use Rattle.std.specs.Prelude.{◌≡◌, ◌≤◌, ◌+◌, ◌-◌, ◌==◌, length, slice_get, take, SomeIff};
ghost use Rattle.std.specs.List.{flat_map, sum_by};
ghost use Rattle.std.specs.Option.{option_copied};
ghost use Rattle.mh_laws.specs.Costs.{effect_at, first_slot, link_effect};
ghost use Rattle.mh_laws.specs.Ways.{slots_of};
ghost use Rattle.mh_layers.specs.Arrows.{is_action_in, number_by};
ghost use Rattle.mh_layers.specs.Cycle.{first_number};
ghost use Rattle.mh_evidence.specs.Putting.{acts_before, is_slot};

use crate::there::members;
use mh_group::Attribute;
use mh_layers::{Arrow, By};
use mh_model::parts::effect_of;
use mh_model::{Act, Effect, Fixed, Member};

/// The slot with this number of these members, if there is one.
fn slot_at(members: &[Member], number: usize) -> Option<&[Act]>
    ensures { option_copied result ≡ slice_get (flat_map (λ m. m.slots) members.now) number }
{
    let mut left = number;
    for member in members {
        let slots = member.slots.as_slice();
        if left < slots.len() {
            return Some(slots[left].as_slice());
        }
        left -= slots.len();
    }
    None
}

fn slot_of(part: &Fixed, number: usize) -> Option<&[Act]>
    ensures { option_copied result ≡ slice_get (slots_of part.now) number }
{
    slot_at(members(part), number)
}

/// Whether the effect is put to work as a slot that the object has.
#[tactic(auto, using(crate::proofs::EffectLemmas::is_within))]
pub(crate) fn is_slot(part: &Fixed, by: &By) -> bool
    ensures { result ≡ is_slot (length (slots_of part.now)) by.now }
{
    match by {
        By::Slot(number) => slot_of(part, *number).is_some(),
        _ => false,
    }
}

/// The effect of the object that is put to work by this.
#[tactic(auto, using(crate::proofs::EffectLemmas::slot_effect))]
fn effect_by<'a>(part: &'a Fixed, by: &By) -> &'a [Act]
    ensures { result.now ≡ effect_at part.now (number_by by.now) }
{
    match by {
        By::Event(_) => effect_of(part, Attribute::LinkEffect),
        By::Slot(number) => slot_or_none(part, *number),
        By::Entered => effect_of(part, Attribute::OnStartUp),
        By::Left => effect_of(part, Attribute::OnCloseDown),
    }
}

#[tactic(auto, using(crate::proofs::EffectLemmas::slot_effect))]
fn slot_or_none(part: &Fixed, number: usize) -> &[Act]
    ensures { result.now ≡ effect_at part.now (first_slot + number) }
{
    match slot_of(part, number) {
        None => &[],
        Some(acts) => acts,
    }
}

/// How many of so many actions are left behind those of these slots.
fn behind_slots(count: usize, slots: &[Effect]) -> Option<usize>
    ensures { SomeIff result (sum_by (λ e. length e) slots.now ≤ count) (count - sum_by (λ e. length e) slots.now) }
{
    let mut left = count;
    for slot in slots {
        left = left.checked_sub(slot.as_slice().len())?;
    }
    Some(left)
}

/// How many are left behind the slots that stand before this one.
fn behind_slots_before(count: usize, members: &[Member], number: usize) -> Option<usize>
    ensures { let before = sum_by (λ e. length e) (take number (flat_map (λ m. m.slots) members.now)) in
        SomeIff result (before ≤ count) (count - before) }
{
    let mut left = count;
    let mut slots_left = number;
    for member in members {
        let slots = member.slots.as_slice();
        if slots_left <= slots.len() {
            return behind_slots(left, &slots[..slots_left]);
        }
        let Some(rest) = behind_slots(left, slots) else {
            return None;
        };
        left = rest;
        slots_left -= slots.len();
    }
    Some(left)
}

/// How many are left behind the actions of start-up, close-down and of a link.
#[tactic(auto, using(crate::proofs::EffectLemmas::before_slots))]
fn behind_others(count: usize, part: &Fixed) -> Option<usize>
    ensures { SomeIff result (acts_before first_slot part.now ≤ count) (count - acts_before first_slot part.now) }
{
    let left = count.checked_sub(effect_of(part, Attribute::OnStartUp).len())?;
    let left = left.checked_sub(effect_of(part, Attribute::OnCloseDown).len())?;
    left.checked_sub(effect_of(part, Attribute::LinkEffect).len())
}

#[tactic(auto, using(crate::proofs::EffectLemmas::before_link))]
fn behind_close_down(count: usize, part: &Fixed) -> Option<usize>
    ensures { SomeIff result (acts_before link_effect part.now ≤ count) (count - acts_before link_effect part.now) }
{
    let left = count.checked_sub(effect_of(part, Attribute::OnStartUp).len())?;
    left.checked_sub(effect_of(part, Attribute::OnCloseDown).len())
}

fn behind_slots_of(count: usize, part: &Fixed, number: usize) -> Option<usize>
    ensures { let before = sum_by (λ e. length e) (take number (slots_of part.now)) in
        SomeIff result (before ≤ count) (count - before) }
{
    behind_slots_before(count, members(part), number)
}

#[tactic(auto, using(crate::proofs::EffectLemmas::before_slot))]
fn before_slot(count: usize, part: &Fixed, number: usize) -> Option<usize>
    ensures { let before = acts_before (first_slot + number) part.now in SomeIff result (before ≤ count) (count - before) }
{
    let left = behind_others(count, part)?;
    behind_slots_of(left, part, number)
}

/// How many are left behind the actions that stand before the effect that is put to work by this.
#[tactic(auto, using(crate::proofs::EffectLemmas::before_start_up, crate::proofs::EffectLemmas::before_close_down))]
fn behind_earlier(count: usize, part: &Fixed, by: &By) -> Option<usize>
    ensures { let before = acts_before (number_by by.now) part.now in SomeIff result (before ≤ count) (count - before) }
{
    match by {
        By::Event(_) => behind_close_down(count, part),
        By::Slot(number) => before_slot(count, part, *number),
        By::Entered => Some(count),
        By::Left => count.checked_sub(effect_of(part, Attribute::OnStartUp).len()),
    }
}

/// Whether the effect that is put to work by this begins with the action of this number, from 1 on.
#[tactic(auto, using(crate::proofs::EffectLemmas::first_is))]
fn begins_at(part: &Fixed, by: &By, index: usize) -> bool
    ensures { result ≡ (index == first_number (number_by by.now) part.now) }
{
    let Some(count) = index.checked_sub(1) else {
        return false;
    };
    match behind_earlier(count, part, by) {
        None => false,
        Some(left) => left == 0,
    }
}

/// Whether the arrow's action is one of the object's effect that is put to work by this, and its effect is that.
pub(crate) fn is_action_in(part: &Fixed, by: &By, arrow: &Arrow) -> bool
    ensures { result ≡ is_action_in (number_by by.now) arrow.now part.now }
{
    let first = arrow.cause.index;
    begins_at(part, by, first)
        && first <= arrow.index
        && arrow.index - first < effect_by(part, by).len()
}
