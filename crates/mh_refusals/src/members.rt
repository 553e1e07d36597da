//! What is wrong with members of groups of objects.
//!
//! Promise: each function lists what the definition of the same matter in `specs/Refusals` of `mh_verify` says. The actions of
//! their slots are left to `walk`.
ghost use Rattle.std.specs.Prelude.{◌≡◌, [], map, OnOk, IfOk};
ghost use Rattle.std.specs.List.{flat_map};
ghost use Rattle.std.specs.Option.{option_copied, option_map_or};
ghost use Rattle.mh_group.specs.Table.{is_list_group, is_visible};
ghost use Rattle.mh_laws.specs.Active.{item_wrongs, member_wrongs};
ghost use Rattle.mh_model.specs.Faults.{object_wrongs, wrong};
ghost use Rattle.mh_model.specs.Known.{class_at};
ghost use Rattle.mh_flow.specs.Solved.{held_by};
ghost use Rattle.mh_verify.specs.Refusals.{found_of_part, part_refused};
ghost use Rattle.mh_refusals.specs.Places.{listed};

use crate::kinds::kind_for;
use crate::places::put;
use crate::scope::{Scope, copied};
use mh_base::ObjRef;
use mh_flow::Present;
use mh_group::Class;
use mh_model::parts::members;
use mh_model::{Fixed, FixedPart, Member, Reason, Wrong};
use mh_verify::{Found, Place};
use std::alloc::AllocError;

fn is_list_group(class: Class) -> bool
    ensures { result ≡ is_list_group class }
{
    matches!(class, Class::ListGroup)
}

/// What is wrong with a member, if anything is: the group runs and halts it, so it has to be there, and a visible.
fn fault_of(present: &Present<'_>, at: &ObjRef) -> Option<Reason>
    ensures { (v : _) → option_map_or (λ why. wrong why v at.now) result []
        ≡ object_wrongs is_visible v at.now (class_at at.now present.now) }
{
    match present.class_of(at) {
        None => Some(Reason::Absent),
        Some(class) if class.is_visible() => None,
        Some(_) => Some(Reason::WrongClass),
    }
}

/// What is wrong with an object itself: it stands in front of its actions, with the index 0.
fn found_of_part(scope: &Scope<'_>, key: &ObjRef, wrong: &Wrong<'_>) -> Result<Found, AllocError>
    ensures { IfOk result (λ found. found ≡ found_of_part scope.now.config.now key.now wrong.now) }
{
    Ok(Found {
        kind: kind_for(wrong),
        place: Place {
            group: key.group.clone()?,
            object: key.number,
            index: 0,
        },
        action: None,
        object: wrong.at.clone()?,
        through: copied(wrong.through)?,
        config: scope.config.clone()?,
    })
}

/// Lists what is wrong with a member of the group, which the group may come to through this list or none.
fn list_member(
    list: &mut Vec<Found>,
    most: usize,
    scope: &Scope<'_>,
    key: &ObjRef,
    through: Option<&ObjRef>,
    at: &ObjRef,
) -> Result<(), AllocError>
    ensures { let holder = option_copied through.entry in
        OnOk result (list.new.items ≡ listed most list.old.items
        (map (found_of_part scope.now.config.now key.now)
        (object_wrongs is_visible holder at.now (class_at at.now scope.now.present)))) }
{
    match fault_of(&scope.present, at) {
        None => Ok(()),
        Some(reason) => {
            let wrong = Wrong {
                reason,
                at,
                through,
            };
            put(list, most, found_of_part(scope, key, &wrong)?)
        }
    }
}

/// Lists what is wrong with these members of the group.
#[tactic(auto, using(std::proofs::lemmas::Grind::common_steps, crate::proofs::ListLemmas::listed_append, crate::proofs::ListLemmas::listed_wrongs))]
fn list_members(
    list: &mut Vec<Found>,
    most: usize,
    scope: &Scope<'_>,
    key: &ObjRef,
    members: &[Member],
) -> Result<(), AllocError>
    ensures { OnOk result (list.new.items ≡ listed most list.old.items
        (map (found_of_part scope.now.config.now key.now)
        (flat_map (member_wrongs scope.now.present) members.now))) }
{
    for member in members {
        list_member(list, most, scope, key, None, &member.object)?;
    }
    Ok(())
}

/// Lists what is wrong with the items that the list group may have.
#[tactic(auto, using(std::proofs::lemmas::Grind::common_steps, crate::proofs::ListLemmas::listed_append, crate::proofs::ListLemmas::listed_wrongs))]
fn list_items(
    list: &mut Vec<Found>,
    most: usize,
    scope: &Scope<'_>,
    key: &ObjRef,
    items: &[ObjRef],
) -> Result<(), AllocError>
    ensures { OnOk result (list.new.items ≡ listed most list.old.items
        (map (found_of_part scope.now.config.now key.now)
        (flat_map (item_wrongs scope.now.present key.now) items.now))) }
{
    for item in items {
        list_member(list, most, scope, key, Some(key), item)?;
    }
    Ok(())
}

/// Lists what is wrong with the members of the object.
fn list_part(
    list: &mut Vec<Found>,
    most: usize,
    scope: &Scope<'_>,
    part: &Fixed,
) -> Result<(), AllocError>
    ensures { let ps = scope.now.present in
        OnOk result (list.new.items ≡ listed most list.old.items
        (part_refused ps (held_by ps scope.now.held) scope.now.config.now part.now)) }
{
    if is_list_group(part.class) {
        let items = scope.held.of(&scope.present, &part.key);
        list_items(list, most, scope, &part.key, items)
    } else {
        list_members(list, most, scope, &part.key, members(part))
    }
}

/// Lists what is wrong with the members of these objects.
#[tactic(auto, using(std::proofs::lemmas::Grind::common_steps, crate::proofs::ListLemmas::listed_append))]
pub(crate) fn list_parts(
    list: &mut Vec<Found>,
    most: usize,
    scope: &Scope<'_>,
    parts: &[FixedPart],
) -> Result<(), AllocError>
    ensures { let ps = scope.now.present in
        OnOk result (list.new.items ≡ listed most list.old.items
        (flat_map (part_refused ps (held_by ps scope.now.held) scope.now.config.now) parts.now)) }
{
    for part in parts {
        list_part(list, most, scope, part.get())?;
    }
    Ok(())
}
