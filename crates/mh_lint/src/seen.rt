//! `Seen`: the actions of an object, in the order in which they are counted.
//!
//! Promise: each function puts behind the others what the definition of the same matter in `specs/Notes` says.
ghost use Rattle.std.specs.Prelude.{◌≡◌, ◌++◌, ◌∷◌, [], false, IfOk, OnOk};
ghost use Rattle.std.specs.List.{flat_map};
ghost use Rattle.mh_lint.specs.Notes as spec;

use crate::acts::leaves_at_once;
use mh_base::GroupName;
use mh_group::Attribute;
use mh_model::parts::{effect_of, members};
use mh_model::{Act, Effect, Fixed, Member};
use std::alloc::{AllocError, Global};

/// An action, and whether it stands behind one that leads away.
#[derive(Drop)]
pub struct Seen {
    pub act: Act,
    pub is_behind: bool,
}

fn push_one(seen: &mut Vec<Seen>, act: &Act, is_behind: bool) -> Result<(), AllocError>
    ensures { OnOk result (seen.new.items ≡ seen.old.items ++ spec.seen_as is_behind act.now ∷ []) }
{
    let act = act.clone()?;
    seen.push(Seen { act, is_behind })?;
    Ok(())
}

/// The actions of an effect.
#[tactic(auto, unfolding(crate::specs::Notes::seen_from))]
fn push_effect(seen: &mut Vec<Seen>, late: &[GroupName], acts: &[Act]) -> Result<(), AllocError>
    ensures { OnOk result (seen.new.items ≡ seen.old.items ++ spec.seen_from late.now false acts.now) }
{
    let mut is_behind = false;
    for act in acts {
        push_one(seen, act, is_behind)?;
        is_behind = leaves_at_once(late, act);
    }
    Ok(())
}

fn push_slots(seen: &mut Vec<Seen>, late: &[GroupName], slots: &[Effect]) -> Result<(), AllocError>
    ensures { OnOk result (seen.new.items ≡ seen.old.items ++ flat_map (spec.seen_from late.now false) slots.now) }
{
    for slot in slots {
        push_effect(seen, late, slot.as_slice())?;
    }
    Ok(())
}

fn push_members(
    seen: &mut Vec<Seen>,
    late: &[GroupName],
    members: &[Member],
) -> Result<(), AllocError>
    ensures { OnOk result (seen.new.items ≡ seen.old.items ++ flat_map (spec.seen_in late.now) members.now) }
{
    for member in members {
        push_slots(seen, late, member.slots.as_slice())?;
    }
    Ok(())
}

/// The actions of an object: of its start-up, its close-down, its effect as a link, and its slots.
pub(crate) fn seen_of(
    alloc: Global,
    late: &[GroupName],
    part: &Fixed,
) -> Result<Vec<Seen>, AllocError>
    ensures { IfOk result (λ seen. seen.items ≡ spec.seen_of late.now part.now) }
{
    let mut seen = Vec::new(alloc);
    push_effect(&mut seen, late, effect_of(part, Attribute::OnStartUp))?;
    push_effect(&mut seen, late, effect_of(part, Attribute::OnCloseDown))?;
    push_effect(&mut seen, late, effect_of(part, Attribute::LinkEffect))?;
    push_members(&mut seen, late, members(part))?;
    Ok(seen)
}
