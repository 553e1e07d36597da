//! What is noted of an action, by what is written in it.
//!
//! Promise: each function answers what the definition of its name in `specs/Notes` says.
ghost use Rattle.std.specs.Prelude.{◌≡◌};
ghost use Rattle.std.specs.List.{list_any};
ghost use Rattle.mh_model.specs.Late.{is_late_scene};
ghost use Rattle.mh_lint.specs.Notes as spec;

use crate::uses::{Uses, is_timing};
use mh_base::{GroupName, ObjRef, Value};
use mh_group::ActionName;
use mh_model::{Act, Argument, Target};

fn is_zero(argument: &Argument) -> bool
    ensures { result ≡ spec.is_zero argument.now }
{
    match argument {
        Argument::Direct(Value::Int(number)) => *number == 0,
        _ => false,
    }
}

fn is_negative(argument: &Argument) -> bool
    ensures { result ≡ spec.is_negative argument.now }
{
    match argument {
        Argument::Direct(Value::Int(number)) => *number < 0,
        _ => false,
    }
}

fn is_no_colour(argument: &Argument) -> bool
    ensures { result ≡ spec.is_no_colour argument.now }
{
    match argument {
        Argument::Direct(Value::Octets(octets)) => octets.as_slice().len() != 4,
        _ => false,
    }
}

fn divides(name: ActionName) -> bool
    ensures { result ≡ spec.divides name }
{
    matches!(name, ActionName::Divide | ActionName::Modulo)
}

fn sizes(name: ActionName) -> bool
    ensures { result ≡ spec.sizes name }
{
    matches!(name, ActionName::SetBoxSize | ActionName::SetLineWidth)
}

fn colours(name: ActionName) -> bool
    ensures { result ≡ spec.colours name }
{
    matches!(
        name,
        ActionName::SetFillColour | ActionName::SetLineColour | ActionName::SetTextColour
    )
}

fn has_zero(arguments: &[Argument]) -> bool
    ensures { result ≡ list_any spec.is_zero arguments.now }
{
    arguments.iter().any(is_zero)
}

fn has_below_zero(arguments: &[Argument]) -> bool
    ensures { result ≡ list_any spec.is_negative arguments.now }
{
    arguments.iter().any(is_negative)
}

fn lacks_octets(arguments: &[Argument]) -> bool
    ensures { result ≡ list_any spec.is_no_colour arguments.now }
{
    arguments.iter().any(is_no_colour)
}

/// Whether it divides by a zero that is written in it.
pub(crate) fn divides_by_zero(act: &Act) -> bool
    ensures { result ≡ spec.divides_by_zero act.now }
{
    divides(act.name) && has_zero(act.arguments.as_slice())
}

/// Whether it sets a negative size or line width that is written in it.
pub(crate) fn has_negative(act: &Act) -> bool
    ensures { result ≡ spec.has_negative act.now }
{
    sizes(act.name) && has_below_zero(act.arguments.as_slice())
}

/// Whether it sets a colour that is written in it, and has not four octets.
pub(crate) fn has_no_colour(act: &Act) -> bool
    ensures { result ≡ spec.has_no_colour act.now }
{
    colours(act.name) && lacks_octets(act.arguments.as_slice())
}

fn is_late(late: &[GroupName], group: &GroupName) -> bool
    ensures { result ≡ is_late_scene group.now late.now }
{
    late.iter().any(|scene| *group == *scene)
}

/// Whether the file of the scene may still be to come.
fn may_be_late(late: &[GroupName], target: &Target) -> bool
    ensures { result ≡ spec.may_be_late late.now target.now }
{
    match (late, target) {
        ([], _) => false,
        (_, Target::Direct(scene)) => is_late(late, &scene.group),
        (_, Target::Through(_)) => true,
    }
}

fn leaves(late: &[GroupName], name: ActionName, target: &Target) -> bool
    ensures { result ≡ spec.leaves late.now name target.now }
{
    match name {
        ActionName::Launch | ActionName::Quit => true,
        ActionName::TransitionTo => !may_be_late(late, target),
        _ => false,
    }
}

/// Whether it leads away at once, unless something led away before.
pub(crate) fn leaves_at_once(late: &[GroupName], act: &Act) -> bool
    ensures { result ≡ spec.leaves_at_once late.now act.now }
{
    leaves(late, act.name, &act.target)
}

/// Whether no link hears the timer with this number of the group, and none waits in vain for another of it.
fn is_lone(uses: &Uses, group: &ObjRef, number: i32) -> bool
    ensures { result ≡ spec.is_lone uses.now group.now number }
{
    uses.timers.leave_alone(group, number)
}

/// Whether a timer is set with a number of its own, and no link hears it.
fn sets_unheard(uses: &Uses, target: &Target, arguments: &[Argument]) -> bool
    ensures { result ≡ spec.sets_unheard uses.now target.now arguments.now }
{
    match (target, arguments) {
        (Target::Direct(group), [Argument::Direct(Value::Int(number)), _, ..]) => {
            is_lone(uses, group, *number)
        }
        _ => false,
    }
}

fn is_lock(name: ActionName) -> bool
    ensures { result ≡ spec.is_lock name }
{
    matches!(name, ActionName::LockScreen)
}

/// Whether it locks the screen, and no action unlocks it.
pub(crate) fn locks_for_ever(uses: &Uses, act: &Act) -> bool
    ensures { result ≡ spec.locks_for_ever uses.now act.now }
{
    is_lock(act.name) && !uses.has_unlock
}

/// Whether it sets a timer that no link hears.
pub(crate) fn is_unheard(uses: &Uses, act: &Act) -> bool
    ensures { result ≡ spec.is_unheard uses.now act.now }
{
    is_timing(act.name) && sets_unheard(uses, &act.target, act.arguments.as_slice())
}
