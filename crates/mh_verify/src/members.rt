//! What is refused of members of groups of objects.
//!
//! Promise: each function answers what the definition of the same matter says. Of what is refused the
//! first is named; the actions of their slots are left to `first_refusal`.
ghost use Rattle.std.specs.Prelude.{◌≡◌, [], map, IfOk};
ghost use Rattle.std.specs.List.{flat_map};
ghost use Rattle.std.specs.Option.{option_copied, option_map_or};
ghost use Rattle.mh_group.specs.Table.{is_list_group, is_visible};
ghost use Rattle.mh_laws.specs.Active.{item_wrongs, member_wrongs};
ghost use Rattle.mh_model.specs.Faults.{object_wrongs, wrong};
ghost use Rattle.mh_model.specs.Known.{class_at};
ghost use Rattle.mh_flow.specs.Solved.{held_by};
ghost use Rattle.mh_verify.specs.Refusals.{found_of_part, part_refused};
ghost use Rattle.mh_verify.specs.Least.{least_of};

use crate::refusal_order::lesser;
use crate::scope::{Scope, copied};
use crate::{Found, Place, RefusalKind};
use mh_base::ObjRef;
use mh_flow::Present;
use mh_group::Class;
use mh_model::parts::members;
use mh_model::{Fixed, FixedPart, Member, Reason, Wrong};
use std::alloc::AllocError;

pub fn is_list_group(class: Class) -> bool
    ensures { result ≡ is_list_group class }
{
    matches!(class, Class::ListGroup)
}

/// What is wrong with a member, if anything is: the group runs and halts it, so it has to be there, and
/// a visible.
pub fn fault_of(present: &Present<'_>, at: &ObjRef) -> Option<Reason>
    ensures { (v : _) → option_map_or (λ why. wrong why v at.now) result []
        ≡ object_wrongs is_visible v at.now (class_at at.now present.now) }
{
    match present.class_of(at) {
        None => Some(Reason::Absent),
        Some(class) if class.is_visible() => None,
        Some(_) => Some(Reason::WrongClass),
    }
}

/// A refusal of an object itself, with which this is wrong: it stands in front of those of its actions, with the
/// index 0.
fn found_of_part(scope: &Scope<'_>, key: &ObjRef, wrong: &Wrong<'_>) -> Result<Found, AllocError>
    ensures { IfOk result (λ found. found ≡ found_of_part scope.now.config.now key.now wrong.now) }
{
    Ok(Found {
        kind: RefusalKind::of_wrong(wrong),
        place: Place {
            group: key.group.clone()?,
            object: key.number,
            index: 0,
        },
        action: None,
        object: wrong.at.clone()?,
        through: copied(wrong.through)?,
        config: scope.config.clone()?,
    })
}

/// The first of what is wrong with a member of the group, which the group may come to through this list or none,
/// and of the best so far.
fn least_of_member(
    best: Option<Found>,
    scope: &Scope<'_>,
    key: &ObjRef,
    through: Option<&ObjRef>,
    at: &ObjRef,
) -> Result<Option<Found>, AllocError>
    ensures { let list = option_copied through.entry in
        IfOk result (λ least. least ≡ least_of best
        (map (found_of_part scope.now.config.now key.now)
        (object_wrongs is_visible list at.now (class_at at.now scope.now.present)))) }
{
    match fault_of(&scope.present, at) {
        None => Ok(best),
        Some(reason) => {
            let wrong = Wrong {
                reason,
                at,
                through,
            };
            let found = found_of_part(scope, key, &wrong)?;
            Ok(Some(lesser(best, found)))
        }
    }
}

/// The first of what is wrong with these members of the group, and of the best so far.
#[tactic(auto, using(std::proofs::lemmas::Grind::common_steps, crate::proofs::LeastLemmas::least_append, crate::proofs::LeastLemmas::least_wrongs))]
fn least_of_members(
    best: Option<Found>,
    scope: &Scope<'_>,
    key: &ObjRef,
    members: &[Member],
) -> Result<Option<Found>, AllocError>
    ensures { IfOk result (λ least. least ≡ least_of best
        (map (found_of_part scope.now.config.now key.now)
        (flat_map (member_wrongs scope.now.present) members.now))) }
{
    let mut best = best;
    for member in members {
        best = least_of_member(best, scope, key, None, &member.object)?;
    }
    Ok(best)
}

/// The first of what is wrong with the items that the list may have, and of the best so far.
#[tactic(auto, using(std::proofs::lemmas::Grind::common_steps, crate::proofs::LeastLemmas::least_append, crate::proofs::LeastLemmas::least_wrongs))]
fn least_of_items(
    best: Option<Found>,
    scope: &Scope<'_>,
    key: &ObjRef,
    items: &[ObjRef],
) -> Result<Option<Found>, AllocError>
    ensures { IfOk result (λ least. least ≡ least_of best
        (map (found_of_part scope.now.config.now key.now)
        (flat_map (item_wrongs scope.now.present key.now) items.now))) }
{
    let mut best = best;
    for item in items {
        best = least_of_member(best, scope, key, Some(key), item)?;
    }
    Ok(best)
}

/// The first of what is wrong with the members of the object, and of the best so far.
fn least_of_group(
    best: Option<Found>,
    scope: &Scope<'_>,
    part: &Fixed,
) -> Result<Option<Found>, AllocError>
    ensures { let ps = scope.now.present in
        IfOk result (λ least. least ≡ least_of best
        (part_refused ps (held_by ps scope.now.held) scope.now.config.now part.now)) }
{
    if is_list_group(part.class) {
        least_of_items(
            best,
            scope,
            &part.key,
            scope.held.of(&scope.present, &part.key),
        )
    } else {
        least_of_members(best, scope, &part.key, members(part))
    }
}

/// The first of what is wrong with the members of these objects, and of the best so far.
#[tactic(auto, using(std::proofs::lemmas::Grind::common_steps, crate::proofs::LeastLemmas::least_append))]
pub fn least_of_groups(
    best: Option<Found>,
    scope: &Scope<'_>,
    parts: &[FixedPart],
) -> Result<Option<Found>, AllocError>
    ensures { let ps = scope.now.present in
        IfOk result (λ least. least ≡ least_of best
        (flat_map (part_refused ps (held_by ps scope.now.held) scope.now.config.now) parts.now)) }
{
    let mut best = best;
    for part in parts {
        best = least_of_group(best, scope, part.get())?;
    }
    Ok(best)
}
