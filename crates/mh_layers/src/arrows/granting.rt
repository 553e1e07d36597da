//! What an arrow grants.
//!
//! Promise: the object to which the target comes, and who has the source of the event, each once.
ghost use Rattle.std.specs.Prelude.{◌≡◌, ◌∷◌, [], IfOk, IfSome, OnOk};
ghost use Rattle.std.specs.List.{list_any};
ghost use Rattle.std.specs.Option.{is_some, option_copied};
ghost use Rattle.mh_model.specs.Configuration.{present};
ghost use Rattle.mh_model.specs.Reference.{same_ref as same_ref_lem};
ghost use Rattle.mh_laws.specs.Flow.{reached};
ghost use Rattle.mh_laws.specs.Safe.{exchanged};
ghost use Rattle.mh_layers.specs.Granting.{held_for, held_so, is_held_so, with_had, with_held, with_items, with_led, with_next, with_sent, with_source, with_target};
ghost use Rattle.mh_layers.specs.Reading.{flow_read, context_in};

use crate::arrows::arrow::Held;
use crate::cycle::effect_site::copied_reference;
use crate::numbered::at::At;
use mh_base::{GroupName, ObjRef};
use mh_group::Class;
use mh_model::parts::{is_transition, same_ref};
use mh_model::{Act, Argument, Fixed, FixedPart, Target};
use std::alloc::{AllocError, Global};

fn is_held_so(held: &Held, by: &ObjRef, at: &ObjRef) -> bool
    ensures { result ≡ is_held_so by.now at.now held.now }
{
    *by == held.by && *at == held.at
}

fn holds(held: &[Held], by: &ObjRef, at: &ObjRef) -> bool
    ensures { result ≡ list_any (is_held_so by.now at.now) held.now }
{
    held.iter().any(|one| is_held_so(one, by, at))
}

fn held_so(by: &ObjRef, at: &ObjRef) -> Result<Held, AllocError>
    ensures { IfOk result (λ held. held ≡ held_so by.now at.now) }
{
    let by = copied_reference(by)?;
    let at = copied_reference(at)?;
    Ok(Held { by, at })
}

/// Puts it behind these, unless it is one of them.
fn hold(held: &mut Vec<Held>, by: &ObjRef, at: &ObjRef) -> Result<(), AllocError>
    ensures { OnOk result (held.new.items ≡ with_held held.old.items by.now at.now) }
{
    if !holds(held.as_slice(), by, at) {
        held.push(held_so(by, at)?)?;
    }
    Ok(())
}

fn has(objects: &[ObjRef], at: &ObjRef) -> bool
    ensures { result ≡ list_any (same_ref_lem at.now) objects.now }
{
    objects.iter().any(|object| same_ref(at, object))
}

/// The same, if the object is among these.
fn hold_if(
    held: &mut Vec<Held>,
    objects: &[ObjRef],
    by: &ObjRef,
    at: &ObjRef,
) -> Result<(), AllocError>
    ensures { OnOk result (held.new.items ≡ with_had objects.now held.old.items by.now at.now) }
{
    if has(objects, at) {
        hold(held, by, at)?;
    }
    Ok(())
}

/// The same, if it is a list that has the object.
fn hold_item(
    held: &mut Vec<Held>,
    here: &At<'_>,
    part: &Fixed,
    at: &ObjRef,
) -> Result<(), AllocError>
    ensures { let s = here.now in let sets = (flow_read s.reading).sets s.config in
        OnOk result (held.new.items ≡ with_items sets (part.now ∷ []) held.old.items at.now) }
{
    if matches!(part.class, Class::ListGroup) {
        hold_if(held, here.set(&part.key), &part.key, at)?;
    }
    Ok(())
}

/// The same for each of these.
fn hold_items(
    held: &mut Vec<Held>,
    here: &At<'_>,
    parts: &[FixedPart],
    at: &ObjRef,
) -> Result<(), AllocError>
    ensures { let s = here.now in let sets = (flow_read s.reading).sets s.config in
        OnOk result (held.new.items ≡ with_items sets parts.now held.old.items at.now) }
{
    for part in parts {
        hold_item(held, here, part.get(), at)?;
    }
    Ok(())
}

/// The same for all lists of the configuration.
#[tactic(auto, using(crate::proofs::ArrowLemmas::items_joined))]
fn hold_lists(held: &mut Vec<Held>, here: &At<'_>, at: &ObjRef) -> Result<(), AllocError>
    ensures { let s = here.now in let w = flow_read s.reading in
        OnOk result (held.new.items ≡ with_items (w.sets s.config) (present s.reading.service s.config) held.old.items at.now) }
{
    let (application, scene) = here.parts();
    hold_items(held, here, application, at)?;
    hold_items(held, here, scene, at)?;
    Ok(())
}

/// The configuration to which it goes on from here to the group, if that is reached.
#[tactic(auto, using(crate::proofs::ContextLemmas::named_in, crate::proofs::ContextLemmas::reached_numbered))]
fn beyond<'a>(here: &'a At<'_>, group: &GroupName) -> Option<At<'a>>
    ensures some { let s = here.now in let d = exchanged s.reading.service s.config group.now in
        IfSome result (λ there. there ≡ context_in s.reading d) }
    ensures reached { let s = here.now in let d = exchanged s.reading.service s.config group.now in
        is_some result ≡ reached (flow_read s.reading) d }
{
    match here.exchanged(group) {
        None => None,
        Some(number) => match At::of(here.numbered_service(), number) {
            None => unreachable!(),
            Some(there) => Some(there),
        },
    }
}

/// The same for the lists of the configuration to which the group leads.
fn hold_next(
    held: &mut Vec<Held>,
    here: &At<'_>,
    group: &GroupName,
    at: &ObjRef,
) -> Result<(), AllocError>
    ensures { let s = here.now in let v = s.reading.service in let w = flow_read s.reading in
        OnOk result (held.new.items ≡ with_next v w (exchanged v s.config group.now) held.old.items at.now) }
{
    match beyond(here, group) {
        None => Ok(()),
        Some(there) => {
            hold_lists(held, &there, at)?;
            Ok(())
        }
    }
}

/// The same, if the action is a transition.
fn hold_led(
    held: &mut Vec<Held>,
    here: &At<'_>,
    act: &Act,
    at: &ObjRef,
    source: &ObjRef,
) -> Result<(), AllocError>
    ensures { let s = here.now in
        OnOk result (held.new.items ≡ with_led s.reading.service (flow_read s.reading) s.config act.now at.now held.old.items source.now) }
{
    if is_transition(act.name) {
        hold_next(held, here, &at.group, source)?;
    }
    Ok(())
}

/// The same for the variable through which the first argument goes.
fn hold_sent(
    held: &mut Vec<Held>,
    here: &At<'_>,
    arguments: &[Argument],
    at: &ObjRef,
) -> Result<(), AllocError>
    ensures { let s = here.now in let sets = (flow_read s.reading).sets s.config in
        OnOk result (held.new.items ≡ with_sent sets arguments.now held.old.items at.now) }
{
    match arguments {
        [Argument::Through(variable, _), ..] => {
            hold_if(held, here.set(variable), variable, at)?;
            Ok(())
        }
        _ => Ok(()),
    }
}

/// Puts who has the source, if the effect is of a link that names one.
fn hold_source(
    held: &mut Vec<Held>,
    here: &At<'_>,
    act: &Act,
    at: &ObjRef,
    source: Option<&ObjRef>,
) -> Result<(), AllocError>
    ensures { let s = here.now in let w = flow_read s.reading in let o = option_copied source.entry in
        OnOk result (held.new.items ≡ with_source s.reading.service w s.config act.now at.now o held.old.items) }
{
    match source {
        None => Ok(()),
        Some(source) => {
            hold_sent(held, here, act.arguments.as_slice(), source)?;
            hold_if(held, here.set(at), at, source)?;
            hold_lists(held, here, source)?;
            hold_led(held, here, act, at, source)?;
            Ok(())
        }
    }
}

/// To what the target comes.
fn target_held(alloc: Global, target: &Target, at: &ObjRef) -> Result<Vec<Held>, AllocError>
    ensures { IfOk result (λ held. held.items ≡ with_target target.now at.now) }
{
    let mut held = Vec::new(alloc);
    if let Target::Through(variable) = target {
        held.push(held_so(variable, at)?)?;
    }
    Ok(held)
}

/// What is granted to the action that is done to the object: to what its target comes; and who has the source for whose
/// events the link waits that it puts to work.
pub(crate) fn held_for(
    alloc: Global,
    here: &At<'_>,
    act: &Act,
    at: &ObjRef,
    source: Option<&ObjRef>,
) -> Result<Vec<Held>, AllocError>
    ensures { let s = here.now in let w = flow_read s.reading in let o = option_copied source.entry in
        IfOk result (λ held. held.items ≡ held_for s.reading.service w s.config act.now at.now o) }
{
    let mut held = target_held(alloc, &act.target, at)?;
    hold_source(&mut held, here, act, at, source)?;
    Ok(held)
}
