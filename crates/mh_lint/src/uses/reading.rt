//! What is read off an action, or off an object, that tells what it is done to.
//!
//! Promise: each function puts behind the others what the definition of the same matter in `specs/Uses` says.
ghost use Rattle.std.specs.Prelude.{◌≡◌, ◌++◌, ◌∷◌, [], OnOk, map};
ghost use Rattle.std.specs.List.{flat_map};
ghost use Rattle.std.specs.Option.{option_copied};
ghost use Rattle.mh_lint.specs.Uses as spec;

use crate::timers::Timers;
use crate::uses::{Change, changes, is_timing};
use mh_base::{EventType, ObjRef, Value};
use mh_group::{ActionName, Attribute, Class};
use mh_model::held::{as_event, as_value};
use mh_model::parts::members;
use mh_model::{Act, Argument, Fixed, Member, Target};
use std::alloc::AllocError;

fn push_target(targets: &mut Vec<Target>, target: &Target) -> Result<(), AllocError>
    ensures { OnOk result (targets.new.items ≡ targets.old.items ++ target.now ∷ []) }
{
    targets.push(target.clone()?)?;
    Ok(())
}

fn push_direct(targets: &mut Vec<Target>, at: &ObjRef) -> Result<(), AllocError>
    ensures { OnOk result (targets.new.items ≡ targets.old.items ++ Target.Direct at.now ∷ []) }
{
    targets.push(Target::Direct(at.clone()?))?;
    Ok(())
}

fn push_through(targets: &mut Vec<Target>, variable: &ObjRef) -> Result<(), AllocError>
    ensures { OnOk result (targets.new.items ≡ targets.old.items ++ Target.Through variable.now ∷ []) }
{
    targets.push(Target::Through(variable.clone()?))?;
    Ok(())
}

/// What the action is done to, if it changes this.
pub(crate) fn push_changed(
    targets: &mut Vec<Target>,
    change: Change,
    act: &Act,
) -> Result<(), AllocError>
    ensures { OnOk result (targets.new.items ≡ targets.old.items ++ spec.changed_by change act.now) }
{
    if !changes(change, act.name) {
        return Ok(());
    }
    push_target(targets, &act.target)
}

/// What the argument may be that is given to a list.
fn push_given(targets: &mut Vec<Target>, argument: &Argument) -> Result<(), AllocError>
    ensures { OnOk result (targets.new.items ≡ targets.old.items ++ spec.given argument.now) }
{
    match argument {
        Argument::Direct(Value::Object(at)) => push_direct(targets, at),
        Argument::Through(variable, _) => push_through(targets, variable),
        _ => Ok(()),
    }
}

fn push_all_given(targets: &mut Vec<Target>, arguments: &[Argument]) -> Result<(), AllocError>
    ensures { OnOk result (targets.new.items ≡ targets.old.items ++ flat_map spec.given arguments.now) }
{
    for argument in arguments {
        push_given(targets, argument)?;
    }
    Ok(())
}

/// What the action adds to a list.
pub(crate) fn push_added(targets: &mut Vec<Target>, act: &Act) -> Result<(), AllocError>
    ensures { OnOk result (targets.new.items ≡ targets.old.items ++ spec.added_by act.now) }
{
    match act.name {
        ActionName::AddItem => push_all_given(targets, act.arguments.as_slice()),
        _ => Ok(()),
    }
}

fn push_members(targets: &mut Vec<Target>, members: &[Member]) -> Result<(), AllocError>
    ensures { OnOk result (targets.new.items ≡ targets.old.items ++ map spec.member_target members.now) }
{
    for member in members {
        push_direct(targets, &member.object)?;
    }
    Ok(())
}

/// What the object has from the start, if it is a list.
pub(crate) fn push_listed(targets: &mut Vec<Target>, part: &Fixed) -> Result<(), AllocError>
    ensures { OnOk result (targets.new.items ≡ targets.old.items ++ spec.listed_by part.now) }
{
    match part.class {
        Class::ListGroup => push_members(targets, members(part)),
        _ => Ok(()),
    }
}

/// The members of the object.
pub(crate) fn push_grouped(targets: &mut Vec<Target>, part: &Fixed) -> Result<(), AllocError>
    ensures { OnOk result (targets.new.items ≡ targets.old.items ++ spec.grouped_by part.now) }
{
    push_members(targets, members(part))
}

fn push_tested(targets: &mut Vec<Target>, act: &Act) -> Result<(), AllocError>
    ensures { OnOk result (targets.new.items ≡ targets.old.items ++ spec.tested_by act.now) }
{
    match act.name {
        ActionName::TestVariable => push_target(targets, &act.target),
        _ => Ok(()),
    }
}

/// The variable that is gone through, if one is.
fn push_gone_through(targets: &mut Vec<Target>, target: &Target) -> Result<(), AllocError>
    ensures { OnOk result (targets.new.items ≡ targets.old.items ++ spec.gone_through target.now) }
{
    match target {
        Target::Direct(_) => Ok(()),
        Target::Through(variable) => push_direct(targets, variable),
    }
}

/// The variable that the argument reads; a program also reads those that receive its answers.
fn push_argument(
    targets: &mut Vec<Target>,
    calls: bool,
    argument: &Argument,
) -> Result<(), AllocError>
    ensures { OnOk result (targets.new.items ≡ targets.old.items ++ spec.read_argument calls argument.now) }
{
    match argument {
        Argument::Direct(_) => Ok(()),
        Argument::Through(variable, _) => push_direct(targets, variable),
        Argument::Receiver(variable) if calls => push_direct(targets, variable),
        Argument::Receiver(_) => Ok(()),
    }
}

fn push_arguments(
    targets: &mut Vec<Target>,
    calls: bool,
    arguments: &[Argument],
) -> Result<(), AllocError>
    ensures { OnOk result (targets.new.items ≡ targets.old.items ++ flat_map (spec.read_argument calls) arguments.now) }
{
    for argument in arguments {
        push_argument(targets, calls, argument)?;
    }
    Ok(())
}

fn is_call(name: ActionName) -> bool
    ensures { result ≡ spec.is_call name }
{
    matches!(name, ActionName::Call | ActionName::Fork)
}

/// The variables that the action reads.
#[tactic(auto, unfolding(crate::specs::Uses::read_by))]
pub(crate) fn push_read(targets: &mut Vec<Target>, act: &Act) -> Result<(), AllocError>
    ensures { OnOk result (targets.new.items ≡ targets.old.items ++ spec.read_by act.now) }
{
    push_tested(targets, act)?;
    push_gone_through(targets, &act.target)?;
    push_arguments(targets, is_call(act.name), act.arguments.as_slice())
}

fn push_one(heard: &mut Vec<Timers>, at: &ObjRef, id: Option<i32>) -> Result<(), AllocError>
    ensures { OnOk result (heard.new.items ≡ heard.old.items ++ record { at = at.now; id = id } ∷ []) }
{
    let at = at.clone()?;
    heard.push(Timers { at, id })?;
    Ok(())
}

/// What a link that waits for this hears of timers.
fn push_waited(
    heard: &mut Vec<Timers>,
    kind: Option<EventType>,
    source: Option<&Value>,
    value: Option<&Value>,
) -> Result<(), AllocError>
    ensures { OnOk result (heard.new.items
        ≡ heard.old.items ++ spec.heard kind (option_copied source.entry) (option_copied value.entry)) }
{
    match (kind, source, value) {
        (Some(EventType::TimerFired), Some(Value::Object(at)), None) => push_one(heard, at, None),
        (Some(EventType::TimerFired), Some(Value::Object(at)), Some(Value::Int(number))) => {
            push_one(heard, at, Some(*number))
        }
        _ => Ok(()),
    }
}

/// What the object hears of timers, if it is a link.
pub(crate) fn push_heard(heard: &mut Vec<Timers>, part: &Fixed) -> Result<(), AllocError>
    ensures { OnOk result (heard.new.items ≡ heard.old.items ++ spec.heard_by part.now) }
{
    match part.class {
        Class::Link => push_waited(
            heard,
            as_event(part.properties.get(Attribute::EventType)),
            as_value(part.properties.get(Attribute::EventSource)),
            as_value(part.properties.get(Attribute::EventData)),
        ),
        _ => Ok(()),
    }
}

/// What is set of timers with this target and these arguments.
fn push_timers(
    timed: &mut Vec<Timers>,
    target: &Target,
    arguments: &[Argument],
) -> Result<(), AllocError>
    ensures { OnOk result (timed.new.items ≡ timed.old.items ++ spec.set target.now arguments.now) }
{
    match (target, arguments) {
        (Target::Direct(at), [Argument::Direct(Value::Int(number)), ..]) => {
            push_one(timed, at, Some(*number))
        }
        (Target::Direct(at), _) => push_one(timed, at, None),
        (Target::Through(_), _) => Ok(()),
    }
}

/// What the action sets of timers.
pub(crate) fn push_set(timed: &mut Vec<Timers>, act: &Act) -> Result<(), AllocError>
    ensures { OnOk result (timed.new.items ≡ timed.old.items ++ spec.set_by act.now) }
{
    if is_timing(act.name) {
        return push_timers(timed, &act.target, act.arguments.as_slice());
    }
    Ok(())
}
