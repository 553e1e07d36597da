//! What fits the tables: values and their shapes, actions and their parameters.
ghost use Rattle.std.specs.Prelude.{◌≡◌, length, ◌&&◌, nat_le};
ghost use Rattle.std.specs.List.{list_all};
ghost use Rattle.mh_group.specs.Fit.{fits, fits_parameter, fits_parameters, fits_action, fits_effect, fits_member, is_list_item};

use crate::shape::{Need, Shape};
use crate::written::{Member, Setting};
use crate::{Action, Parameter};

/// The most members of a list group.
pub const MOST_LIST_ITEMS: usize = 256;

/// Whether the value has the shape and lies in its range.
pub fn fits(shape: Shape, setting: &Setting) -> bool
    ensures { result ≡ fits shape setting.now }
{
    match (shape, setting) {
        (Shape::Effect, Setting::Effect(effect)) => fits_effect(effect.as_slice()),
        (Shape::Bool, Setting::Bool(_)) => true,
        (Shape::Int, Setting::Int(_)) => true,
        (Shape::Natural, Setting::Int(value)) => 0 <= *value,
        (Shape::Length, Setting::Int(value)) => 1 <= *value && *value <= 255,
        (Shape::Pair, Setting::Pair(_, _)) => true,
        (Shape::Size, Setting::Pair(width, height)) => 0 <= *width && 0 <= *height,
        (Shape::Screen, Setting::Pair(width, height)) => *width == 720 && *height == 576,
        (Shape::Ref, Setting::Ref(_)) => true,
        (Shape::Event, Setting::Event(_)) => true,
        (Shape::Data, Setting::Data(_)) => true,
        (Shape::Octets, Setting::Octets(_)) => true,
        (Shape::Colour, Setting::Colour(_)) => true,
        (Shape::Content, Setting::Content(_)) => true,
        (Shape::ContentRef, Setting::ContentRef(_)) => true,
        (Shape::Justification, Setting::Justification(_)) => true,
        (Shape::MovementTable, Setting::MovementTable(_)) => true,
        (Shape::Members, Setting::Members(members)) => fits_members(members.as_slice()),
        (Shape::ListItems, Setting::Members(items)) => are_list_items(items.as_slice()),
        (Shape::Positions, Setting::Positions(_)) => true,
        (Shape::NextScenes, Setting::NextScenes(_)) => true,
        _ => false,
    }
}

/// Whether the parameter is of the kind that is needed.
fn fits_parameter(need: Need, parameter: &Parameter) -> bool
    ensures { result ≡ fits_parameter need parameter.now }
{
    match (need, parameter) {
        (Need::Bool, Parameter::Bool(_)) => true,
        (Need::Int, Parameter::Int(_)) => true,
        (Need::Octets, Parameter::Octets(_)) => true,
        (Need::Ref, Parameter::Ref(_)) => true,
        (Need::Content, Parameter::Content(_)) => true,
        (Need::Data, Parameter::Data(_)) => true,
        (Need::Event, Parameter::Event(_)) => true,
        (Need::Receiver(_), Parameter::Receiver(_)) => true,
        (Need::Typed, Parameter::Typed(_)) => true,
        (Need::Arguments, Parameter::Arguments(_)) => true,
        _ => false,
    }
}

/// Whether the action is written with the parameters that it needs.
pub fn fits_action(action: &Action) -> bool
    ensures { result ≡ fits_action action.now }
{
    let name = action.name;
    fits_parameters(name.optional(), name.needs(), action.parameters.as_slice())
}

/// Whether each parameter is what is needed at its place. So many of the needed ones may be missing
/// at the end.
fn fits_parameters(optional: usize, needed: &[Need], given: &[Parameter]) -> bool
    ensures { result ≡ fits_parameters optional needed.now given.now }
{
    match given {
        [] => needed.len() <= optional,
        [parameter, rest @ ..] => match needed {
            [] => false,
            [need, others @ ..] => {
                fits_parameter(*need, parameter) && fits_parameters(optional, others, rest)
            }
        },
    }
}

fn fits_effect(effect: &[Action]) -> bool
    ensures { result ≡ fits_effect effect.now }
{
    effect.iter().all(|action| fits_action(action))
}

/// Whether the slots of each member are right.
fn fits_members(members: &[Member]) -> bool
    ensures { result ≡ list_all fits_member members.now }
{
    members.iter().all(|member| fits_member(member))
}

fn fits_member(member: &Member) -> bool
    ensures { result ≡ fits_member member.now }
{
    member
        .slots
        .as_slice()
        .iter()
        .all(|slot| fits_effect(slot.as_slice()))
}

/// Whether these may be the members of a list group: not too many, and without slots.
fn are_list_items(items: &[Member]) -> bool
    ensures { result ≡ (nat_le (length items.now) 256 && list_all is_list_item items.now) }
{
    items.len() <= MOST_LIST_ITEMS && have_no_slots(items)
}

fn have_no_slots(items: &[Member]) -> bool
    ensures { result ≡ list_all is_list_item items.now }
{
    items.iter().all(|item| item.slots.is_empty())
}
