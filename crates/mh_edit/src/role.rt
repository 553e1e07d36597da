//! Which role a token has, by what it stands in: which numbers name objects.
ghost use Rattle.std.specs.Prelude.{◌≡◌};
ghost use Rattle.mh_edit.specs.Walk as spec;

use crate::sense::Sense;
use crate::walk::{Front, Role, Stand};
use crate::word::Extent;
use mh_group::{ActionName, Attribute, Class, Need, Shape};

/// The role of a token.
#[tactic(auto, unfolding(crate::specs::Walk::role_in))]
pub(crate) fn role_in(stand: Stand, sense: Sense) -> Role
    ensures { result ≡ spec.role_in stand sense }
{
    match sense {
        Sense::Class(class) => Role::Class(class),
        Sense::Attribute(attribute) => Role::Attribute(attribute),
        Sense::Action(action) => Role::Action(action),
        Sense::Number(number) => number_role(stand, number),
        Sense::Text(inner) => text_role(stand.front, inner),
        _ => Role::Other,
    }
}

/// The role of a string.
fn text_role(front: Front, inner: Extent) -> Role
    ensures { result ≡ spec.text_role front inner }
{
    match front {
        Front::ContentOpen => Role::Content(inner),
        Front::Open => Role::Group(inner),
        _ => Role::Other,
    }
}

/// The role of a number.
#[tactic(auto, unfolding(crate::specs::Walk::number_role))]
fn number_role(stand: Stand, number: u32) -> Role
    ensures { result ≡ spec.number_role stand number }
{
    match stand.front {
        Front::Class => Role::Defines(number),
        Front::Reference => Role::Names(number),
        Front::Name(name) => named_role(stand.field, name, number),
        Front::Content | Front::ContentOpen => Role::Other,
        Front::Open | Front::Other => bare_role(stand, number),
    }
}

/// The role of a number behind a name in brackets: in front of all fields it is that of the group itself, and of scenes that may
/// come next it is how likely they are.
fn named_role(field: Option<Attribute>, name: Extent, number: u32) -> Role
    ensures { result ≡ spec.named_role field name number }
{
    match field {
        None => Role::Defines(number),
        Some(Attribute::NextScenes) => Role::Other,
        Some(_) => Role::NamesIn(name, number),
    }
}

/// The role of a number with nothing in front that tells it.
fn bare_role(stand: Stand, number: u32) -> Role
    ensures { result ≡ spec.bare_role stand number }
{
    if wants_reference(stand) {
        Role::Names(number)
    } else {
        Role::Other
    }
}

/// Whether a reference may stand there.
#[tactic(auto, unfolding(crate::specs::Walk::wants_reference))]
pub fn wants_reference(stand: Stand) -> bool
    ensures { result ≡ spec.wants_reference stand }
{
    match stand.doing {
        Some(doing) => doing.depth == 1 && takes_reference(doing.action, doing.place),
        None => is_reference_field(stand.class, stand.field),
    }
}

/// Whether the value of the action before which so many stand is a reference: the first is that of the target.
#[tactic(auto, unfolding(crate::specs::Walk::takes_reference))]
fn takes_reference(action: ActionName, place: usize) -> bool
    ensures { result ≡ spec.takes_reference action place }
{
    match place.checked_sub(1) {
        Some(before) => is_reference(need_at(action, before)),
        None => true,
    }
}

/// What the value of an action is before which so many parameters stand.
#[tactic(auto, unfolding(crate::specs::Walk::need_at))]
pub fn need_at(action: ActionName, before: usize) -> Option<Need>
    ensures { result ≡ spec.need_at action before }
{
    action.needs().get(before).copied()
}

fn is_reference(need: Option<Need>) -> bool
    ensures { result ≡ spec.is_reference need }
{
    matches!(need, Some(Need::Ref | Need::Receiver(_)))
}

#[tactic(auto, unfolding(crate::specs::Walk::is_reference_field))]
fn is_reference_field(class: Option<Class>, field: Option<Attribute>) -> bool
    ensures { result ≡ spec.is_reference_field class field }
{
    match (class, field) {
        (Some(class), Some(field)) => is_reference_shape(class.shape(field)),
        _ => false,
    }
}

fn is_reference_shape(shape: Shape) -> bool
    ensures { result ≡ spec.is_reference_shape shape }
{
    matches!(shape, Shape::Ref | Shape::Members | Shape::ListItems)
}
