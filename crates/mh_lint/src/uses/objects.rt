//! All objects of a service, and all their actions.
//!
//! Promise: each function answers, or puts behind the others, the objects or actions that its contract names, in their order.
ghost use Rattle.std.specs.Prelude.{◌≡◌, ◌++◌, IfOk, OnOk};
ghost use Rattle.std.specs.List.{flat_map};
ghost use Rattle.mh_model.specs.Effects.{actions};
ghost use Rattle.mh_model.specs.Tokens.{member_actions};
ghost use Rattle.mh_lint.specs.Uses as spec;

use mh_flow::Equipped;
use mh_group::Attribute;
use mh_model::parts::{effect_of, members};
use mh_model::{Act, Effect, Fixed, FixedPart, Member};
use std::alloc::{AllocError, Global};

fn push_objects(objects: &mut Vec<FixedPart>, parts: &[FixedPart]) -> Result<(), AllocError>
    ensures { OnOk result (objects.new.items ≡ objects.old.items ++ parts.now) }
{
    for part in parts {
        objects.push(part.clone()?)?;
    }
    Ok(())
}

/// All objects of the service.
pub(crate) fn objects_of(
    alloc: Global,
    service: &Equipped<'_>,
) -> Result<Vec<FixedPart>, AllocError>
    ensures { IfOk result (λ objects. objects.items ≡ spec.objects service.now) }
{
    let mut objects = Vec::new(alloc);
    for parts in service.groups().values() {
        push_objects(&mut objects, parts.as_slice())?;
    }
    Ok(objects)
}

fn copied(act: &Act) -> Result<Act, AllocError>
    ensures { IfOk result (λ copy. copy ≡ act.now) }
{
    act.clone()
}

fn push_acts(all: &mut Vec<Act>, acts: &[Act]) -> Result<(), AllocError>
    ensures { OnOk result (all.new.items ≡ all.old.items ++ acts.now) }
{
    for act in acts {
        all.push(copied(act)?)?;
    }
    Ok(())
}

fn push_slots(all: &mut Vec<Act>, slots: &[Effect]) -> Result<(), AllocError>
    ensures { OnOk result (all.new.items ≡ all.old.items ++ flat_map (λ slot. slot) slots.now) }
{
    for slot in slots {
        push_acts(all, slot.as_slice())?;
    }
    Ok(())
}

fn push_members(all: &mut Vec<Act>, members: &[Member]) -> Result<(), AllocError>
    ensures { OnOk result (all.new.items ≡ all.old.items ++ flat_map member_actions members.now) }
{
    for member in members {
        push_slots(all, member.slots.as_slice())?;
    }
    Ok(())
}

fn push_actions(all: &mut Vec<Act>, part: &Fixed) -> Result<(), AllocError>
    ensures { OnOk result (all.new.items ≡ all.old.items ++ actions part.now) }
{
    push_acts(all, effect_of(part, Attribute::OnStartUp))?;
    push_acts(all, effect_of(part, Attribute::OnCloseDown))?;
    push_acts(all, effect_of(part, Attribute::LinkEffect))?;
    push_members(all, members(part))
}

/// All actions of these objects.
pub(crate) fn actions_of(alloc: Global, objects: &[FixedPart]) -> Result<Vec<Act>, AllocError>
    ensures { IfOk result (λ acts. acts.items ≡ flat_map actions objects.now) }
{
    let mut acts = Vec::new(alloc);
    push_all_actions(&mut acts, objects)?;
    Ok(acts)
}

fn push_all_actions(acts: &mut Vec<Act>, objects: &[FixedPart]) -> Result<(), AllocError>
    ensures { OnOk result (acts.new.items ≡ acts.old.items ++ flat_map actions objects.now) }
{
    for object in objects {
        push_actions(acts, object.get())?;
    }
    Ok(())
}
