//! Look-up among the parts of groups, and what is read off one.
ghost use Rattle.std.specs.Prelude.{◌≡◌, IfOk};
ghost use Rattle.std.specs.Option.{option_copied};
ghost use Rattle.mh_model.specs.Service.{part_at};
ghost use Rattle.mh_model.specs.Reference.{same_ref, group_ref};
ghost use Rattle.mh_model.specs.Property.{held, as_effect};
ghost use Rattle.mh_model.specs.Groups.{is_initially_active, is_shared};
ghost use Rattle.mh_model.specs.Tokens.{members as members_lem};
ghost use Rattle.mh_model.specs.Faults.{is_transition};

use crate::held::{as_bool, as_effect, as_members};
use crate::{Act, Fixed, FixedPart, Member};
use mh_base::{GroupName, ObjRef};
use mh_group::{ActionName, Attribute};
use std::alloc::AllocError;

/// Whether the references lead to one object.
pub fn same_ref(first: &ObjRef, second: &ObjRef) -> bool
    ensures { result ≡ same_ref first.now second.now }
{
    first.number == second.number && first.group == second.group
}

/// The part to which the reference leads, if it is among these.
pub fn part_at<'a>(parts: &'a [FixedPart], at: &ObjRef) -> Option<&'a Fixed>
    ensures { option_copied result ≡ part_at at.now parts.now }
{
    match find(parts, at) {
        Some(part) => Some(part.get()),
        None => None,
    }
}

fn find<'a>(parts: &'a [FixedPart], at: &ObjRef) -> Option<&'a FixedPart>
    ensures { option_copied result ≡ part_at at.now parts.now }
{
    parts.iter().find(|part| is_at(at, *part))
}

fn is_at(at: &ObjRef, part: &FixedPart) -> bool
    ensures { result ≡ same_ref at.now part.now.key }
{
    same_ref(at, &part.get().key)
}

/// The reference to a group itself.
pub fn group_ref(group: &GroupName) -> Result<ObjRef, AllocError>
    ensures { IfOk result (λ r. r ≡ group_ref group.now) }
{
    Ok(ObjRef {
        group: group.clone()?,
        number: 0,
    })
}

/// The effect that is written under the attribute, or an empty one.
pub fn effect_of(part: &Fixed, attribute: Attribute) -> &[Act]
    ensures { result.now ≡ as_effect (held attribute part.now.properties) }
{
    as_effect(part.properties.get(attribute))
}

/// The members of a group of objects; none of any other object.
pub fn members(part: &Fixed) -> &[Member]
    ensures { result.now ≡ members_lem part.now }
{
    as_members(part.properties.get(Attribute::TokenGroupItems))
}

/// Whether the object runs as soon as its group is active.
pub fn is_initially_active(part: &Fixed) -> bool
    ensures { result ≡ is_initially_active part.now }
{
    part.class.is_runnable() && as_bool(part.properties.get(Attribute::InitiallyActive), true)
}

/// Whether the object of an application goes on where a scene is left.
pub fn is_shared(part: &Fixed) -> bool
    ensures { result ≡ is_shared part.now }
{
    as_bool(part.properties.get(Attribute::Shared), false)
}

/// Whether the action leads to a group, a scene or an application.
pub fn is_transition(name: ActionName) -> bool
    ensures { result ≡ is_transition name }
{
    matches!(name, ActionName::TransitionTo | ActionName::Launch)
}
