//! What targets and arguments come to when an action is done.
ghost use Rattle.std.specs.Prelude.{◌≡◌, ◌++◌, [], IfOk, OnOk};
ghost use Rattle.std.specs.List.{cons_option};
ghost use Rattle.std.specs.Option.{option_copied};
ghost use Rattle.mh_model.specs.Arguments as spec;
ghost use Rattle.mh_model.specs.Property.{as_reference};
ghost use Rattle.mh_model.specs.Service.{object_at};
ghost use Rattle.mh_model.specs.State.{all};

use crate::few::Few;
use mh_base::{ObjRef, Value};
use mh_model::{Argument, Object, Target};
use mh_store::Objects;
use std::alloc::{AllocError, Global};

/// The reference to which a target comes, if it comes to one.
pub fn referred<'a>(objects: &'a Objects, target: &'a Target) -> Option<&'a ObjRef>
    ensures { option_copied result ≡ spec.referred target.now (all objects.now) }
{
    match target {
        Target::Direct(at) => Some(at),
        Target::Through(variable) => refers(objects, variable),
    }
}

/// The object to which a variable refers, if it refers to one.
pub(crate) fn refers<'a>(objects: &'a Objects, variable: &ObjRef) -> Option<&'a ObjRef>
    ensures { option_copied result
        ≡ as_reference (spec.held_by (object_at variable.now (all objects.now))) }
{
    match held_by(objects.get(variable)) {
        Some(Value::Object(at)) => Some(at),
        _ => None,
    }
}

/// The value that a variable holds.
pub(crate) fn held_by(found: Option<&Object>) -> Option<&Value>
    ensures { option_copied result ≡ spec.held_by (option_copied found.entry) }
{
    match found {
        Some(object) => object.value(),
        None => None,
    }
}

/// The values of the arguments that come to one. Those of one or two arguments take no memory.
pub fn values(
    alloc: Global,
    objects: &Objects,
    arguments: &[Argument],
) -> Result<Few<Value>, AllocError>
    ensures { IfOk result (λ values. values ≡ spec.values (all objects.now) arguments.now) }
{
    match arguments {
        [] => Ok(Few::none()),
        [argument] => value_of(objects, argument),
        [first, second] => values_of_two(objects, first, second),
        _ => Ok(Few::from_vec(values_of_many(alloc, objects, arguments)?)),
    }
}

fn value_of(objects: &Objects, argument: &Argument) -> Result<Few<Value>, AllocError>
    ensures { let found = spec.value_in (all objects.now) argument.now in
        IfOk result (λ values. values ≡ cons_option found []) }
{
    match value_in(objects, argument) {
        Some(value) => Ok(Few::one(copied(value)?)),
        None => Ok(Few::none()),
    }
}

fn values_of_two(
    objects: &Objects,
    first: &Argument,
    second: &Argument,
) -> Result<Few<Value>, AllocError>
    ensures { let found = spec.value_in (all objects.now) in
        IfOk result (λ values. values
        ≡ cons_option (found first.now) (cons_option (found second.now) [])) }
{
    let Some(value) = value_in(objects, first) else {
        return value_of(objects, second);
    };
    match value_in(objects, second) {
        Some(behind) => Ok(Few::two(copied(value)?, copied(behind)?)),
        None => Ok(Few::one(copied(value)?)),
    }
}

/// A copy of the value, which shares what it holds.
fn copied(value: &Value) -> Result<Value, AllocError>
    ensures { IfOk result (λ copy. copy ≡ value.now) }
{
    value.clone()
}

fn values_of_many(
    alloc: Global,
    objects: &Objects,
    arguments: &[Argument],
) -> Result<Vec<Value>, AllocError>
    ensures { IfOk result (λ values. values.items ≡ spec.values (all objects.now) arguments.now) }
{
    let mut values = Vec::with_capacity(alloc, arguments.len())?;
    for argument in arguments {
        push_value(&mut values, objects, argument)?;
    }
    Ok(values)
}

/// Puts the value to which the argument comes, if it comes to one, behind these.
pub(crate) fn push_value(
    values: &mut Vec<Value>,
    objects: &Objects,
    argument: &Argument,
) -> Result<(), AllocError>
    ensures { let found = spec.value_in (all objects.now) argument.now in
        OnOk result (values.new.items ≡ values.old.items ++ cons_option found []) }
{
    if let Some(value) = value_in(objects, argument) {
        values.push(value.clone()?)?;
    }
    Ok(())
}

pub(crate) fn value_in<'a>(objects: &'a Objects, argument: &'a Argument) -> Option<&'a Value>
    ensures { option_copied result ≡ spec.value_in (all objects.now) argument.now }
{
    match argument {
        Argument::Direct(value) => Some(value),
        Argument::Through(variable, _) => held_by(objects.get(variable)),
        Argument::Receiver(_) => None,
    }
}

/// The variables that receive answers, in written order. One or two take no memory.
pub fn receivers(alloc: Global, arguments: &[Argument]) -> Result<Few<ObjRef>, AllocError>
    ensures { IfOk result (λ rs. rs ≡ spec.receivers arguments.now) }
{
    match arguments {
        [] => Ok(Few::none()),
        [Argument::Receiver(at)] => Ok(Few::one(at.clone()?)),
        [Argument::Receiver(first), Argument::Receiver(second)] => {
            Ok(Few::two(first.clone()?, second.clone()?))
        }
        _ => Ok(Few::from_vec(receivers_of_many(alloc, arguments)?)),
    }
}

pub(crate) fn receivers_of_many(
    alloc: Global,
    arguments: &[Argument],
) -> Result<Vec<ObjRef>, AllocError>
    ensures { IfOk result (λ rs. rs.items ≡ spec.receivers arguments.now) }
{
    let mut receivers = Vec::new(alloc);
    for argument in arguments {
        push_receiver(&mut receivers, argument)?;
    }
    Ok(receivers)
}

/// Puts the variable behind these, if the argument is one that receives.
fn push_receiver(receivers: &mut Vec<ObjRef>, argument: &Argument) -> Result<(), AllocError>
    ensures { let found = spec.receiver_of argument.now in
        OnOk result (receivers.new.items ≡ receivers.old.items ++ cons_option found []) }
{
    if let Argument::Receiver(at) = argument {
        receivers.push(at.clone()?)?;
    }
    Ok(())
}
