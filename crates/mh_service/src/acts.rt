//! Actions as they are written, with their references resolved.
//!
//! Promise: each action is what its definition says, and `BadName` is answered exactly where a
//! written name leads to no path. What a variable holds is left to the machine, which asks for it
//! when the action is done.
ghost use Rattle.std.specs.Prelude.{◌++◌, map, None, Some};
ghost use Rattle.std.specs.List.{list_all, flat_map};
ghost use Rattle.mh_service.specs.Gives.{Gives};
ghost use Rattle.mh_service.specs.Resolved.{ref_of, leads, target_of, target_leads, generic_of, generic_leads, is_nameless, name_leads, object_value, content_value, typed_of, typed_leads, content_of, content_leads, data_of, arguments_of, parameter_leads, act_of, act_leads};

use crate::values::{content_of_file, content_value, data_of, object_value, reference};
use mh_base::{GroupName, Kind, NameError, Octets, Seq, Shared, Value};
use mh_group::{Action, Content, EventData, Generic, Parameter, Ref, Typed, WrittenName};
use mh_model::{Act, Argument, Effect, Target};
use std::alloc::Global;

/// The actions of an effect.
pub(crate) fn effect(
    alloc: Global,
    from: &GroupName,
    actions: &[Action],
) -> Result<Effect, NameError>
    ensures { Gives (λ x. x) result (map (act_of from.now) actions.now)
        (list_all (act_leads from.now) actions.now) }
{
    let mut acts = Seq::with_capacity(alloc, actions.len())?;
    for action in actions {
        acts.push(act(alloc, from, action)?)?;
    }
    Ok(Shared::from_vec(alloc, acts.into_vec())?)
}

fn act(alloc: Global, from: &GroupName, action: &Action) -> Result<Act, NameError>
    ensures { Gives (λ x. x) result (act_of from.now action.now) (act_leads from.now action.now) }
{
    let target = target(alloc, from, &action.target)?;
    let arguments = arguments(alloc, from, action.parameters.as_slice())?;
    Ok(Act {
        name: action.name,
        target,
        arguments,
    })
}

fn target(alloc: Global, from: &GroupName, written: &Generic<Ref>) -> Result<Target, NameError>
    ensures { Gives (λ x. x) result (target_of from.now written.now)
        (target_leads from.now written.now) }
{
    match written {
        Generic::Direct(object) => Ok(Target::Direct(reference(alloc, from, object)?)),
        Generic::Indirect(variable) => Ok(Target::Through(reference(alloc, from, variable)?)),
    }
}

fn arguments(
    alloc: Global,
    from: &GroupName,
    parameters: &[Parameter],
) -> Result<Shared<Argument>, NameError>
    ensures { Gives (λ x. x) result (flat_map (arguments_of from.now) parameters.now)
        (list_all (parameter_leads from.now) parameters.now) }
{
    let mut arguments = Seq::with_capacity(alloc, parameters.len())?;
    for parameter in parameters {
        push_arguments(alloc, from, parameter, &mut arguments)?;
    }
    Ok(Shared::from_vec(alloc, arguments.into_vec())?)
}

/// Puts what a parameter stands for at the end: one argument, or what a program is called with.
fn push_arguments(
    alloc: Global,
    from: &GroupName,
    parameter: &Parameter,
    arguments: &mut Seq<Argument>,
) -> Result<(), NameError>
    ensures { Gives (λ _. arguments.new) result
        (arguments.old ++ arguments_of from.now parameter.now)
        (parameter_leads from.now parameter.now) }
{
    let argument = match parameter {
        Parameter::Bool(truth) => generic_truth(alloc, from, truth, None)?,
        Parameter::Int(number) => generic_integer(alloc, from, number, None)?,
        Parameter::Octets(octets) => generic_octets(alloc, from, octets, None)?,
        Parameter::Ref(object) => generic_object(alloc, from, object, None)?,
        Parameter::Content(content) => generic_content(alloc, from, content)?,
        Parameter::Data(data) => generic_data(alloc, from, data)?,
        Parameter::Event(event) => Argument::Direct(Value::Int(event.number() as i32)),
        Parameter::Receiver(variable) => Argument::Receiver(reference(alloc, from, variable)?),
        Parameter::Typed(value) => typed(alloc, from, value)?,
        Parameter::Arguments(values) => {
            return push_typed(alloc, from, values.as_slice(), arguments);
        }
    };
    arguments.push(argument)?;
    Ok(())
}

/// Puts what a program is called with at the end.
fn push_typed(
    alloc: Global,
    from: &GroupName,
    values: &[Typed],
    arguments: &mut Seq<Argument>,
) -> Result<(), NameError>
    ensures { Gives (λ _. arguments.new) result
        (arguments.old ++ map (typed_of from.now) values.now)
        (list_all (typed_leads from.now) values.now) }
{
    for value in values {
        arguments.push(typed(alloc, from, value)?)?;
    }
    Ok(())
}

fn typed(alloc: Global, from: &GroupName, value: &Typed) -> Result<Argument, NameError>
    ensures { Gives (λ x. x) result (typed_of from.now value.now)
        (typed_leads from.now value.now) }
{
    match value {
        Typed::Bool(truth) => generic_truth(alloc, from, truth, Some(Kind::Bool)),
        Typed::Int(number) => generic_integer(alloc, from, number, Some(Kind::Int)),
        Typed::Octets(octets) => generic_octets(alloc, from, octets, Some(Kind::Octets)),
        Typed::Ref(object) => generic_object(alloc, from, object, Some(Kind::Object)),
        Typed::ContentRef(name) => generic_name(alloc, from, name),
    }
}

/// The truth value, or the reference to its variable.
fn generic_truth(
    alloc: Global,
    from: &GroupName,
    written: &Generic<bool>,
    kind: Option<Kind>,
) -> Result<Argument, NameError>
    ensures { Gives (λ x. x) result (generic_of Value.Bool kind from.now written.now)
        (generic_leads is_nameless from.now written.now) }
{
    match written {
        Generic::Direct(truth) => Ok(Argument::Direct(Value::Bool(*truth))),
        Generic::Indirect(variable) => through(alloc, from, variable, kind),
    }
}

/// The number, or the reference to its variable.
fn generic_integer(
    alloc: Global,
    from: &GroupName,
    written: &Generic<i32>,
    kind: Option<Kind>,
) -> Result<Argument, NameError>
    ensures { Gives (λ x. x) result (generic_of Value.Int kind from.now written.now)
        (generic_leads is_nameless from.now written.now) }
{
    match written {
        Generic::Direct(number) => Ok(Argument::Direct(Value::Int(*number))),
        Generic::Indirect(variable) => through(alloc, from, variable, kind),
    }
}

/// The octets, or the reference to their variable.
fn generic_octets(
    alloc: Global,
    from: &GroupName,
    written: &Generic<Octets>,
    kind: Option<Kind>,
) -> Result<Argument, NameError>
    ensures { Gives (λ x. x) result (generic_of Value.Octets kind from.now written.now)
        (generic_leads is_nameless from.now written.now) }
{
    match written {
        Generic::Direct(octets) => Ok(Argument::Direct(Value::Octets(octets.clone()?))),
        Generic::Indirect(variable) => through(alloc, from, variable, kind),
    }
}

/// The object, or the reference to its variable.
fn generic_object(
    alloc: Global,
    from: &GroupName,
    written: &Generic<Ref>,
    kind: Option<Kind>,
) -> Result<Argument, NameError>
    ensures { Gives (λ x. x) result
        (generic_of (object_value from.now) kind from.now written.now)
        (generic_leads (leads from.now) from.now written.now) }
{
    match written {
        Generic::Direct(object) => Ok(Argument::Direct(object_value(alloc, from, object)?)),
        Generic::Indirect(variable) => through(alloc, from, variable, kind),
    }
}

/// The content file, or the reference to its variable.
fn generic_name(
    alloc: Global,
    from: &GroupName,
    written: &Generic<WrittenName>,
) -> Result<Argument, NameError>
    ensures { Gives (λ x. x) result
        (generic_of (content_value from.now) (Some Kind.Content) from.now written.now)
        (generic_leads (name_leads from.now) from.now written.now) }
{
    match written {
        Generic::Direct(name) => Ok(Argument::Direct(content_value(alloc, from, name)?)),
        Generic::Indirect(variable) => through(alloc, from, variable, Some(Kind::Content)),
    }
}

/// The content, or the reference to its variable.
fn generic_content(
    alloc: Global,
    from: &GroupName,
    written: &Generic<Content>,
) -> Result<Argument, NameError>
    ensures { Gives (λ x. x) result (generic_of (content_of from.now) None from.now written.now)
        (generic_leads (content_leads from.now) from.now written.now) }
{
    match written {
        Generic::Direct(content) => Ok(Argument::Direct(content_of_file(alloc, from, content)?)),
        Generic::Indirect(variable) => through(alloc, from, variable, None),
    }
}

/// The data of an event, or the reference to its variable.
fn generic_data(
    alloc: Global,
    from: &GroupName,
    written: &Generic<EventData>,
) -> Result<Argument, NameError>
    ensures { Gives (λ x. x) result (generic_of data_of None from.now written.now)
        (generic_leads is_nameless from.now written.now) }
{
    match written {
        Generic::Direct(data) => Ok(Argument::Direct(data_of(data))),
        Generic::Indirect(variable) => through(alloc, from, variable, None),
    }
}

/// What a variable is to give, of this kind if that is written.
fn through(
    alloc: Global,
    from: &GroupName,
    variable: &Ref,
    kind: Option<Kind>,
) -> Result<Argument, NameError>
    ensures { Gives (λ x. x) result (Argument.Through (ref_of from.now variable.now) kind)
        (leads from.now variable.now) }
{
    let variable = reference(alloc, from, variable)?;
    Ok(Argument::Through(variable, kind))
}
