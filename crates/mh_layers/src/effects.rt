//! The effects of an object, in the order of their numbers.
//!
//! Promise: each stands at its number. They are put into a list once, so that none is looked for through all members.
ghost use Rattle.std.specs.Prelude.{◌≡◌, ◌++◌, ◌<◌, ◌^◌, length, map, IfOk, OnOk};
ghost use Rattle.std.specs.List.{flat_map};
ghost use Rattle.mh_laws.specs.Costs.{effects};
ghost use Rattle.mh_laws.specs.Ways.{slots_of};

use mh_group::Attribute;
use mh_model::parts::{effect_of, members};
use mh_model::{Act, Effect, Fixed, Member};
use std::alloc::{AllocError, Global};

/// Puts these slots behind those effects.
fn push_slots<'a>(effects: &mut Vec<&'a [Act]>, slots: &'a [Effect]) -> Result<(), AllocError>
    ensures { OnOk result (map (λ e. e.now) effects.new.items ≡ map (λ e. e.now) effects.old.items ++ slots.now) }
{
    for slot in slots {
        effects.push(slot.as_slice())?;
    }
    Ok(())
}

/// The same for the slots of these members.
fn push_members<'a>(effects: &mut Vec<&'a [Act]>, members: &'a [Member]) -> Result<(), AllocError>
    ensures { OnOk result (map (λ e. e.now) effects.new.items ≡ map (λ e. e.now) effects.old.items ++ flat_map (λ m. m.slots) members.now) }
{
    for member in members {
        push_slots(effects, member.slots.as_slice())?;
    }
    Ok(())
}

/// The effects of the object: at start-up, at close-down, of a link, and all slots as they are written.
pub(crate) fn effects_of(alloc: Global, part: &Fixed) -> Result<Vec<&[Act]>, AllocError>
    ensures { IfOk result (λ found. map (λ e. e.now) found.items ≡ effects part.now) }
{
    let mut effects = Vec::with_capacity(alloc, 3)?;
    effects.push(effect_of(part, Attribute::OnStartUp))?;
    effects.push(effect_of(part, Attribute::OnCloseDown))?;
    effects.push(effect_of(part, Attribute::LinkEffect))?;
    push_members(&mut effects, members(part))?;
    Ok(effects)
}

/// How many slots the object has.
pub(crate) fn slot_count(alloc: Global, part: &Fixed) -> Result<usize, AllocError>
    ensures count { IfOk result (λ n. n ≡ length (slots_of part.now)) }
    ensures small { IfOk result (λ n. n < 2 ^ 63) }
{
    let effects = effects_of(alloc, part)?;
    Ok(effects.len() - 3)
}
