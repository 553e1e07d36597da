//! The references that may be held, and the variables through which actions have their targets.
//!
//! Promise: each reference that is written where one is held at first or handed on is gathered once, and no other.
ghost use Rattle.std.specs.Prelude.{◌≡◌, true, map, OnOk};
ghost use Rattle.std.specs.List.{flat_map, list_any};
ghost use Rattle.std.specs.Option.{option_copied, option_to_list};
ghost use Rattle.mh_model.specs.Property.{as_reference};
ghost use Rattle.mh_model.specs.Reference.{same_ref};
ghost use Rattle.mh_laws.specs.Least as order;
ghost use Rattle.mh_flow.specs.Chart as spec;
ghost use Rattle.mh_laws.specs.Flow.{reads_reference};
ghost use Rattle.mh_model.specs.Variables.{same_kind};

use crate::equipped::Equipped;
use crate::order::by_reference;
use crate::present::{is_list, refers};
use crate::sites::{Site, sites};
use indexmap::IndexSet;
use mh_base::{Kind, ObjRef, Value};
use mh_group::{ActionName, Attribute};
use mh_model::held::as_value;
use mh_model::parts::members;
use mh_model::{Act, Argument, Fixed, FixedPart, Member, Target};
use std::alloc::{AllocError, Global};

/// The argument that the action hands on as a reference, if it hands one on.
pub(crate) fn handed(act: &Act) -> Option<&Argument>
    ensures { option_copied result ≡ spec.handed_argument act.now }
{
    match act.name {
        ActionName::SetVariable => read(act.arguments.as_slice().get(0)),
        ActionName::AddItem => act.arguments.as_slice().get(1),
        _ => None,
    }
}

/// The value to which a variable is set, unless it is that of another variable and not written as an object's.
fn read(value: Option<&Argument>) -> Option<&Argument>
    ensures { option_copied result ≡ spec.read_by ActionName.SetVariable (option_copied value.entry) }
{
    match value {
        Some(argument) if !is_reference(argument) => None,
        _ => value,
    }
}

fn is_reference(value: &Argument) -> bool
    ensures { result ≡ reads_reference value.now ActionName.SetVariable }
{
    match value {
        Argument::Through(_, Some(kind)) => is_object(*kind),
        Argument::Through(_, None) => false,
        _ => true,
    }
}

fn is_object(kind: Kind) -> bool
    ensures { result ≡ same_kind Kind.Object kind }
{
    matches!(kind, Kind::Object)
}

/// Puts a reference among these, if it is not there.
#[tactic(auto, using(crate::proofs::ChartLemmas::insert_reference))]
pub(crate) fn put(references: &mut IndexSet<ObjRef>, at: &ObjRef) -> Result<(), AllocError>
    ensures { OnOk result (references.new.keys ≡ spec.with_reference references.old.keys at.now) }
{
    references.insert(at.clone()?)?;
    Ok(())
}

/// Puts a reference among these, if there is one.
fn put_some(references: &mut IndexSet<ObjRef>, at: Option<&ObjRef>) -> Result<(), AllocError>
    ensures { OnOk result (references.new.keys
        ≡ spec.with_references references.old.keys (option_to_list (option_copied at.entry))) }
{
    if let Some(at) = at {
        put(references, at)?;
    }
    Ok(())
}

/// The reference that a variable has at first.
pub(crate) fn first_value(part: &Fixed) -> Option<&ObjRef>
    ensures { option_copied result ≡ spec.first_value part.now }
{
    if refers(part.class) {
        reference(as_value(part.properties.get(Attribute::OrigValue)))
    } else {
        None
    }
}

fn reference(value: Option<&Value>) -> Option<&ObjRef>
    ensures { option_copied result ≡ as_reference (option_copied value.entry) }
{
    match value {
        Some(Value::Object(at)) => Some(at),
        _ => None,
    }
}

/// What a list has at first.
pub(crate) fn first_items(part: &Fixed) -> &[Member]
    ensures { result.now ≡ spec.first_items part.now }
{
    if is_list(part.class) {
        members(part)
    } else {
        &[]
    }
}

/// Puts what these members are among the references.
fn put_members(held: &mut IndexSet<ObjRef>, members: &[Member]) -> Result<(), AllocError>
    ensures { OnOk result (held.new.keys ≡ spec.with_references held.old.keys (map (λ m. m.object) members.now)) }
{
    for member in members {
        put(held, &member.object)?;
    }
    Ok(())
}

/// Puts what an object holds at first among these.
#[tactic(auto, using(crate::proofs::ChartLemmas::firsts_put))]
pub(crate) fn put_firsts(held: &mut IndexSet<ObjRef>, part: &Fixed) -> Result<(), AllocError>
    ensures { OnOk result (held.new.keys ≡ spec.with_references held.old.keys (spec.firsts part.now)) }
{
    put_some(held, first_value(part))?;
    put_members(held, first_items(part))
}

/// The reference that is written there.
fn written(argument: Option<&Argument>) -> Option<&ObjRef>
    ensures { option_to_list (option_copied result)
        ≡ flat_map spec.written_reference (option_to_list (option_copied argument.entry)) }
{
    match argument {
        Some(Argument::Direct(Value::Object(at))) => Some(at),
        _ => None,
    }
}

/// Puts the reference among these that the action hands on, if one is written there.
#[tactic(auto, using(crate::proofs::ChartLemmas::handed_once))]
pub(crate) fn put_handed(held: &mut IndexSet<ObjRef>, act: &Act) -> Result<(), AllocError>
    ensures { OnOk result (held.new.keys ≡ spec.with_references held.old.keys (spec.handed act.now)) }
{
    put_some(held, written(handed(act)))
}

/// Whether the argument is a reference, or what a variable has.
fn hands_on(argument: Option<&Argument>) -> bool
    ensures { result ≡ spec.hands_on (option_copied argument.entry) }
{
    match argument {
        Some(Argument::Direct(Value::Object(_))) => true,
        Some(Argument::Through(_, _)) => true,
        _ => false,
    }
}

/// Whether the action reads references out of a list, or leads to a group.
fn leads_on(action: ActionName) -> bool
    ensures { result ≡ spec.leads_on action }
{
    matches!(
        action,
        ActionName::GetListItem
            | ActionName::GetCellItem
            | ActionName::TransitionTo
            | ActionName::Launch
    )
}

/// Whether the action goes on from where its target comes to: it hands something on, or leads on.
pub(crate) fn goes_on(act: &Act) -> bool
    ensures { result ≡ spec.goes_on act.now }
{
    hands_on(handed(act)) || leads_on(act.name)
}

/// The variable through which the target goes, if it goes through one.
fn variable_of(target: &Target) -> Option<&ObjRef>
    ensures { option_to_list (option_copied result) ≡ spec.target_variables target.now }
{
    match target {
        Target::Direct(_) => None,
        Target::Through(variable) => Some(variable),
    }
}

/// The variable through which the action has its target, if it goes on from there.
pub(crate) fn targeted_by(act: &Act) -> Option<&ObjRef>
    ensures { option_to_list (option_copied result) ≡ spec.targeted_by act.now }
{
    if goes_on(act) {
        variable_of(&act.target)
    } else {
        None
    }
}

/// Puts the variable among these through which the action has its target, if it goes on from there.
fn put_target(targeted: &mut IndexSet<ObjRef>, act: &Act) -> Result<(), AllocError>
    ensures { OnOk result (targeted.new.keys
        ≡ spec.with_references targeted.old.keys (spec.targeted_by act.now)) }
{
    put_some(targeted, targeted_by(act))
}

/// What the actions at these sites hand on goes among the one, the variables through which they have their targets
/// among the other.
#[tactic(auto, using(crate::proofs::ChartLemmas::with_more))]
fn put_acts(
    held: &mut IndexSet<ObjRef>,
    targeted: &mut IndexSet<ObjRef>,
    sites: &[Site<'_>],
) -> Result<(), AllocError>
    ensures held { let all = flat_map (λ x. spec.handed x.act) sites.now in
        OnOk result (held.new.keys ≡ spec.with_references held.old.keys all) }
    ensures targeted { let all = flat_map (λ x. spec.targeted_by x.act) sites.now in
        OnOk result (targeted.new.keys ≡ spec.with_references targeted.old.keys all) }
{
    for site in sites {
        put_handed(held, site.act)?;
        put_target(targeted, site.act)?;
    }
    Ok(())
}

/// What an object holds at first and what its actions hand on goes among the one, the variables through which they have
/// their targets among the other.
fn put_part(
    alloc: Global,
    held: &mut IndexSet<ObjRef>,
    targeted: &mut IndexSet<ObjRef>,
    part: &Fixed,
) -> Result<(), AllocError>
    ensures held { OnOk result (held.new.keys ≡ spec.with_references held.old.keys (spec.held_of part.now)) }
    ensures targeted { OnOk result (targeted.new.keys
        ≡ spec.with_references targeted.old.keys (spec.targeted_of part.now)) }
{
    put_firsts(held, part)?;
    let sites = sites(alloc, part)?;
    put_acts(held, targeted, sites.as_slice())?;
    Ok(())
}

/// The same for the objects of a group.
#[tactic(auto, using(crate::proofs::ChartLemmas::with_more))]
fn put_parts(
    alloc: Global,
    held: &mut IndexSet<ObjRef>,
    targeted: &mut IndexSet<ObjRef>,
    parts: &[FixedPart],
) -> Result<(), AllocError>
    ensures held { let all = flat_map spec.held_of parts.now in
        OnOk result (held.new.keys ≡ spec.with_references held.old.keys all) }
    ensures targeted { let all = flat_map spec.targeted_of parts.now in
        OnOk result (targeted.new.keys ≡ spec.with_references targeted.old.keys all) }
{
    for part in parts {
        put_part(alloc, held, targeted, part.get())?;
    }
    Ok(())
}

/// The same for the objects of the service.
#[tactic(auto, using(crate::proofs::ChartLemmas::with_more))]
pub(crate) fn put_service(
    alloc: Global,
    held: &mut IndexSet<ObjRef>,
    targeted: &mut IndexSet<ObjRef>,
    service: &Equipped<'_>,
) -> Result<(), AllocError>
    ensures held { OnOk result (held.new.keys ≡ spec.with_references held.old.keys (spec.all_held service.now)) }
    ensures targeted { OnOk result (targeted.new.keys
        ≡ spec.with_references targeted.old.keys (spec.all_targeted service.now)) }
{
    for parts in service.groups().values() {
        put_parts(alloc, held, targeted, parts.as_slice())?;
    }
    Ok(())
}

/// Puts references in their order.
pub(crate) fn put_in_order(references: &mut IndexSet<ObjRef>) -> Result<(), AllocError>
    ensures ascending { OnOk result (order.are_ascending references.new.keys ≡ true) }
    ensures same { (q : _) → OnOk result (list_any (same_ref q) references.new.keys
        ≡ list_any (same_ref q) references.old.keys) }
{
    references.sort_by(by_reference)?;
    Ok(())
}
