//! Calls of programs (ISO/IEC 13522-5, Call and Fork): which program, what goes in, where the
//! answers go, and what is put. The call itself is left to who has the programs.
ghost use Rattle.std.specs.Prelude.{◌≡◌, ◌++◌, ◌∷◌, [], map, IfOk, OnOk, unwrap_or};
ghost use Rattle.std.specs.List.{list_any};
ghost use Rattle.std.specs.Option.{option_copied};
ghost use Rattle.std.specs.Str.{bytes_eq};
ghost use Rattle.mh_model.specs.Arguments.{values as values_lem, receivers as receivers_lem};
ghost use Rattle.mh_model.specs.Faults.{passed as passed_lem};
ghost use Rattle.mh_model.specs.Known.{params_in};
ghost use Rattle.mh_model.specs.Programs.{ins, outs};
ghost use Rattle.mh_model.specs.Receiver.{added_name, if_added, is_added};
ghost use Rattle.mh_model.specs.Rules.{builtin_in};
ghost use Rattle.mh_model.specs.Service.{part_at, parts};
ghost use Rattle.mh_model.specs.State.{all};

use crate::arguments::{push_value, receivers_of_many};
use crate::known_now::present_part;
use mh_base::{ObjRef, Value};
use mh_model::act::passed;
use mh_model::{Argument, Builtin, Fixed, Param, Signature};
use mh_resident::{Resident, builtin_named, program_name, program_named, takes};
use mh_store::Objects;
use std::alloc::{AllocError, Global};

/// The built-in program to which the reference leads, if it leads to one.
pub fn builtin_at(objects: &Objects, at: &ObjRef) -> Option<Builtin>
    ensures { result ≡ builtin_in (part_at at.now (parts (all objects.now))) }
{
    builtin_in(present_part(objects, at))
}

fn builtin_in(part: Option<&Fixed>) -> Option<Builtin>
    ensures { result ≡ builtin_in (option_copied part.entry) }
{
    builtin_named(program_name(part?)?)
}

/// The name of the program to which the reference leads, if it is none of the built-in ones and one
/// of these has it.
pub fn added_name<'a, P: Resident>(
    programs: &[P],
    objects: &'a Objects,
    at: &ObjRef,
) -> Option<&'a [u8]>
    ensures { let part = part_at at.now (parts (all objects.now)) in
        option_copied result ≡ added_name (map P.signature_of programs.now) part }
{
    added_name_in(programs, present_part(objects, at))
}

fn added_name_in<'a, P: Resident>(programs: &[P], part: Option<&'a Fixed>) -> Option<&'a [u8]>
    ensures { let signatures = map P.signature_of programs.now in
        option_copied result ≡ added_name signatures (option_copied part.entry) }
{
    if_added(programs, program_name(part?))
}

fn if_added<'a, P: Resident>(programs: &[P], name: Option<&'a [u8]>) -> Option<&'a [u8]>
    ensures { let signatures = map P.signature_of programs.now in
        option_copied result ≡ if_added signatures (option_copied name.entry) }
{
    match name {
        Some(name) if is_added(programs, name) => Some(name),
        _ => None,
    }
}

fn is_added<P: Resident>(programs: &[P], name: &[u8]) -> bool
    ensures { result ≡ is_added (map P.signature_of programs.now) name.now }
{
    match builtin_named(name) {
        Some(_) => false,
        None => has_name(programs, name),
    }
}

fn has_name<P: Resident>(programs: &[P], name: &[u8]) -> bool
    ensures { result ≡ list_any (λ s. bytes_eq name.now s.name) (map P.signature_of programs.now) }
{
    match program_named(programs, name) {
        Some(_) => true,
        None => false,
    }
}

/// The parameters of the program to which the reference leads, where the receiver has these
/// programs besides the built-in ones; none of one that is not known.
pub fn params_at<'a>(programs: &'a [Signature], objects: &'a Objects, at: &ObjRef) -> &'a [Param]
    ensures { let part = part_at at.now (parts (all objects.now)) in
        result.now ≡ unwrap_or (params_in programs.now part) [] }
{
    match takes(programs, present_part(objects, at)) {
        Some(params) => params,
        None => &[],
    }
}

/// The values that go in, by the parameters and by what is passed for them, in order. What a
/// variable holds that is passed for an answer does not go in.
#[tactic(auto, using(crate::proofs::CallLemmas::ins_behind))]
pub fn call_ins(
    alloc: Global,
    objects: &Objects,
    params: &[Param],
    passed: &[Argument],
) -> Result<Vec<Value>, AllocError>
    ensures { let going = ins params.now passed.now in
        IfOk result (λ values. values.items ≡ values_lem (all objects.now) going) }
{
    let mut values = Vec::new(alloc);
    let mut params = params;
    let mut passed = passed;
    while let Some((param, params_behind)) = params.split_first() {
        let Some((argument, behind)) = passed.split_first() else {
            return Ok(values);
        };
        push_in(&mut values, objects, *param, argument)?;
        params = params_behind;
        passed = behind;
    }
    Ok(values)
}

/// Puts what goes in for the parameter, if it takes something, behind these.
fn push_in(
    values: &mut Vec<Value>,
    objects: &Objects,
    param: Param,
    argument: &Argument,
) -> Result<(), AllocError>
    ensures { let going = ins (param ∷ []) (argument.now ∷ []) in
        OnOk result (values.new.items ≡ values.old.items ++ values_lem (all objects.now) going) }
{
    match param {
        Param::In(_) => push_value(values, objects, argument),
        Param::Out(_) => Ok(()),
    }
}

/// The variables that are told of a call, by the parameters and by its arguments: first the one
/// that is told whether the call went well, and then those that receive what comes out.
pub fn call_receivers(
    alloc: Global,
    params: &[Param],
    arguments: &[Argument],
) -> Result<Vec<ObjRef>, AllocError>
    ensures { let coming = outs params.now (passed_lem arguments.now) in
        IfOk result (λ rs. rs.items ≡ receivers_lem arguments.now ++ coming) }
{
    let mut receivers = receivers_of_many(alloc, arguments)?;
    push_outs(&mut receivers, params, passed(arguments))?;
    Ok(receivers)
}

/// Puts the variables that receive what comes out behind these.
#[tactic(auto, using(crate::proofs::CallLemmas::outs_behind))]
fn push_outs(
    receivers: &mut Vec<ObjRef>,
    params: &[Param],
    passed: &[Argument],
) -> Result<(), AllocError>
    ensures { let coming = outs params.now passed.now in
        OnOk result (receivers.new.items ≡ receivers.old.items ++ coming) }
{
    let mut params = params;
    let mut passed = passed;
    while let Some((param, params_behind)) = params.split_first() {
        let Some((argument, behind)) = passed.split_first() else {
            return Ok(());
        };
        push_out(receivers, *param, argument)?;
        params = params_behind;
        passed = behind;
    }
    Ok(())
}

/// Puts the variable that receives what comes out for the parameter, if one does, behind these.
fn push_out(
    receivers: &mut Vec<ObjRef>,
    param: Param,
    argument: &Argument,
) -> Result<(), AllocError>
    ensures { let coming = outs (param ∷ []) (argument.now ∷ []) in
        OnOk result (receivers.new.items ≡ receivers.old.items ++ coming) }
{
    if let (Param::Out(_), Argument::Through(variable, _)) = (param, argument) {
        receivers.push(variable.clone()?)?;
    }
    Ok(())
}
