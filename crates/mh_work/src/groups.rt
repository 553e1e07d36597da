//! What is put when a group is entered, and when a scene is left, told by the parts of the groups
//! alone. An effect is put as one batch, which shares its actions.
ghost use Rattle.std.specs.Prelude.{◌≡◌, ◌++◌, ◌∷◌, [], IfOk, OnOk, filter, vec_len};
ghost use Rattle.std.specs.Option.{option_map};
ghost use Rattle.mh_model.specs.Items.{acts, plain_event};
ghost use Rattle.mh_model.specs.Groups.{runs, is_initially_active, is_shared, unshared_halts, group_effect, all_halts, scene_closing, scene_halts, entering, leaving, quitting};
ghost use Rattle.mh_model.specs.Property.{as_effect, held};
ghost use Rattle.mh_work.specs.Batches.{items_of, written};

use crate::batch::Batch;
use mh_base::{EventType, GroupName, ObjRef};
use mh_group::Attribute;
use mh_model::parts::{group_ref, is_initially_active, is_shared, part_at};
use mh_model::{Event, Fixed, FixedPart, Held, Item};
use std::alloc::{AllocError, Global};

/// An event without data.
#[inline(always)]
pub fn plain_event(source: &ObjRef, kind: EventType) -> Result<Item, AllocError>
    ensures { IfOk result (λ item. item ≡ plain_event source.now kind) }
{
    Ok(Item::Emit(Event {
        source: source.clone()?,
        kind,
        data: None,
    }))
}

/// What is put when the group with these parts is entered.
pub fn entering(
    alloc: Global,
    group: &GroupName,
    parts: &[FixedPart],
) -> Result<Vec<Batch>, AllocError>
    ensures { IfOk result (λ batches. written batches.items ≡ entering group.now parts.now) }
{
    let mut batches = Vec::with_capacity(alloc, parts.len())?;
    push_group_effect(&mut batches, group, parts, Attribute::OnStartUp)?;
    push_runs(&mut batches, parts)?;
    let running = plain_event(&group_ref(group)?, EventType::IsRunning)?;
    push(&mut batches, Batch::One(running))?;
    Ok(batches)
}

/// What a transition to the target puts in the place of the whole work list. Given are the parts of
/// the application, and the scene that is left, if there is one, with its parts.
pub fn leaving(
    alloc: Global,
    application: &[FixedPart],
    scene: Option<(&GroupName, &[FixedPart])>,
    target: &GroupName,
) -> Result<Vec<Batch>, AllocError>
    ensures { let left = option_map (λ s. (s.0.now, s.1.now)) scene.entry in
        IfOk result (λ batches. written batches.items ≡ leaving application.now left target.now) }
{
    let mut batches = with_room(alloc, scene)?;
    push_scene_closing(&mut batches, scene)?;
    push_scene_halts(&mut batches, scene)?;
    push_unshared_halts(&mut batches, application)?;
    push(&mut batches, Batch::One(Item::Exchange(target.clone()?)))?;
    Ok(batches)
}

/// What leaves the application, given with its parts, and the scene, and then puts the last item.
pub fn quitting(
    alloc: Global,
    application: &GroupName,
    parts: &[FixedPart],
    scene: Option<(&GroupName, &[FixedPart])>,
    last: Item,
) -> Result<Vec<Batch>, AllocError>
    ensures { let left = option_map (λ s. (s.0.now, s.1.now)) scene.entry in
        IfOk result (λ batches. written batches.items
        ≡ quitting application.now parts.now left last) }
{
    let mut batches = closing(alloc, application, parts, scene)?;
    push(&mut batches, Batch::One(last))?;
    Ok(batches)
}

/// What leaves the application and the scene: both close down, and all their objects halt.
fn closing(
    alloc: Global,
    application: &GroupName,
    parts: &[FixedPart],
    scene: Option<(&GroupName, &[FixedPart])>,
) -> Result<Vec<Batch>, AllocError>
    ensures { let left = option_map (λ s. (s.0.now, s.1.now)) scene.entry in
        let effect = group_effect application.now parts.now Attribute.OnCloseDown in
        IfOk result (λ batches. written batches.items
        ≡ scene_closing left ++ effect ++ scene_halts left ++ all_halts parts.now) }
{
    let mut batches = Vec::new(alloc);
    push_scene_closing(&mut batches, scene)?;
    push_group_effect(&mut batches, application, parts, Attribute::OnCloseDown)?;
    push_scene_halts(&mut batches, scene)?;
    push_all_halts(&mut batches, parts)?;
    Ok(batches)
}

/// No batches yet, with room for one for each part of the scene.
fn with_room(
    alloc: Global,
    scene: Option<(&GroupName, &[FixedPart])>,
) -> Result<Vec<Batch>, AllocError>
    ensures { IfOk result (λ batches. batches.items ≡ []) }
{
    match scene {
        Some((_, parts)) => Vec::with_capacity(alloc, parts.len()),
        None => Ok(Vec::new(alloc)),
    }
}

/// Puts what the scene does when it closes down behind these batches, if there is one.
fn push_scene_closing(
    batches: &mut Vec<Batch>,
    scene: Option<(&GroupName, &[FixedPart])>,
) -> Result<(), AllocError>
    ensures { let left = option_map (λ s. (s.0.now, s.1.now)) scene.entry in
        OnOk result (written batches.new.items ≡ written batches.old.items ++ scene_closing left) }
{
    match scene {
        Some((name, parts)) => push_group_effect(batches, name, parts, Attribute::OnCloseDown),
        None => Ok(()),
    }
}

/// Puts a Halt of each part of the scene that can run behind these batches, if there is one.
fn push_scene_halts(
    batches: &mut Vec<Batch>,
    scene: Option<(&GroupName, &[FixedPart])>,
) -> Result<(), AllocError>
    ensures { let left = option_map (λ s. (s.0.now, s.1.now)) scene.entry in
        OnOk result (written batches.new.items ≡ written batches.old.items ++ scene_halts left) }
{
    match scene {
        Some((_, parts)) => push_all_halts(batches, parts),
        None => Ok(()),
    }
}

/// Puts the actions of an effect of the part behind these batches.
pub fn push_effect(
    batches: &mut Vec<Batch>,
    part: &Fixed,
    attribute: Attribute,
) -> Result<(), AllocError>
    ensures { let actions = as_effect (held attribute part.now.properties) in
        OnOk result (written batches.new.items ≡ written batches.old.items ++ acts actions) }
{
    match part.properties.get(attribute) {
        Some(Held::Effect(effect)) => push(batches, Batch::Acts(effect.clone()?)),
        _ => Ok(()),
    }
}

/// Puts a batch behind these.
pub fn push(batches: &mut Vec<Batch>, batch: Batch) -> Result<(), AllocError>
    ensures { OnOk result (written batches.new.items ≡ written batches.old.items ++ items_of batch) }
{
    batches.push(batch)?;
    Ok(())
}

/// Puts the actions of an effect of the group itself behind these batches.
fn push_group_effect(
    batches: &mut Vec<Batch>,
    group: &GroupName,
    parts: &[FixedPart],
    attribute: Attribute,
) -> Result<(), AllocError>
    ensures { let actions = group_effect group.now parts.now attribute in
        OnOk result (written batches.new.items ≡ written batches.old.items ++ actions) }
{
    match part_at(parts, &group_ref(group)?) {
        Some(part) => push_effect(batches, part, attribute),
        None => Ok(()),
    }
}

/// Puts a Run of each initially active part behind these batches.
fn push_runs(batches: &mut Vec<Batch>, parts: &[FixedPart]) -> Result<(), AllocError>
    ensures { let active = filter is_initially_active parts.now in
        OnOk result (written batches.new.items ≡ written batches.old.items ++ runs active) }
{
    for part in parts {
        let part = part.get();
        if is_initially_active(part) {
            push(batches, Batch::One(Item::Run(part.key.clone()?)))?;
        }
    }
    Ok(())
}

fn push_halt(batches: &mut Vec<Batch>, part: &Fixed) -> Result<(), AllocError>
    ensures { let halt = Item.Halt part.now.key in
        OnOk result (written batches.new.items ≡ written batches.old.items ++ halt ∷ []) }
{
    let halt = Item::Halt(part.key.clone()?);
    push(batches, Batch::One(halt))
}

/// Puts a Halt of each part that can run behind these batches, the last first.
fn push_all_halts(batches: &mut Vec<Batch>, parts: &[FixedPart]) -> Result<(), AllocError>
    ensures { let halted = all_halts parts.now in
        OnOk result (written batches.new.items ≡ written batches.old.items ++ halted) }
{
    for part in parts.iter().rev() {
        let part = part.get();
        if part.class.is_runnable() {
            push_halt(batches, part)?;
        }
    }
    Ok(())
}

/// The same but for shared parts, which go on.
fn push_unshared_halts(batches: &mut Vec<Batch>, parts: &[FixedPart]) -> Result<(), AllocError>
    ensures { let halted = unshared_halts parts.now in
        OnOk result (written batches.new.items ≡ written batches.old.items ++ halted) }
{
    for part in parts.iter().rev() {
        let part = part.get();
        if part.class.is_runnable() && !is_shared(part) {
            push_halt(batches, part)?;
        }
    }
    Ok(())
}

/// What enters a group.
pub fn entrance(alloc: Global, group: &GroupName) -> Result<Vec<Batch>, AllocError>
    ensures item { IfOk result (λ batches. written batches.items ≡ Item.Enter group.now ∷ []) }
    ensures one { IfOk result (λ batches. vec_len batches ≡ 1) }
{
    let mut batches = Vec::new(alloc);
    batches.push(Batch::One(Item::Enter(group.clone()?)))?;
    Ok(batches)
}
