//! What a variable or a list may hold and is wrong at one place.
//!
//! Promise: each reference is told that is wrong there in the way that is asked for.
ghost use Rattle.std.specs.Prelude.{◌≡◌, ◌&&◌, ◌++◌, filter, IfOk, OnOk};
ghost use Rattle.mh_group.specs.Table.{is_list_group};
ghost use Rattle.mh_model.specs.Reference.{same_key};
ghost use Rattle.mh_flow.specs.Solved.{held_by};
ghost use Rattle.mh_verify.specs.Naming as spec;

use crate::Place;
use crate::alone::KnownAlone;
use crate::members::{fault_of, is_list_group};
use crate::scope::Scope;
use mh_base::ObjRef;
use mh_flow::sites::sites_of;
use mh_flow::{KnownWith, Site};
use mh_model::known::first_wrong;
use mh_model::{Act, Fixed, FixedPart, Rank};
use std::alloc::{AllocError, Global};

fn is_at(place: &Place, key: &ObjRef, index: usize) -> bool
    ensures { result ≡ spec.is_at place.now key.now index }
{
    place.group == key.group && place.object == key.number && place.index == index
}

/// Whether the action is wrong where the variable refers to this alone.
fn is_wrong_alone<R: Rank>(known: &KnownWith<'_>, act: &Act, variable: &ObjRef, at: &ObjRef) -> bool
    ensures { let s = known.now.service.now in let ps = known.now.present.now in
        result ≡ spec.is_wrong_alone R.order s ps act.now variable.now at.now }
{
    let alone = KnownAlone {
        known,
        variable,
        at,
    };
    first_wrong::<R, KnownAlone<'_>>(&alone, act).is_some()
}

/// What of these the variable may refer to alone and is wrong with the action goes behind those.
fn push_wrong<R: Rank>(
    list: &mut Vec<ObjRef>,
    known: &KnownWith<'_>,
    act: &Act,
    variable: &ObjRef,
    all: &[ObjRef],
) -> Result<(), AllocError>
    ensures { let s = known.now.service.now in let ps = known.now.present.now in
        OnOk result (list.new.items ≡ list.old.items
        ++ filter (spec.is_wrong_alone R.order s ps act.now variable.now) all.now) }
{
    for at in all {
        if is_wrong_alone::<R>(known, act, variable, at) {
            list.push(at.clone()?)?;
        }
    }
    Ok(())
}

/// What the variable may hold and is wrong with the action goes behind these.
fn push_through<R: Rank>(
    list: &mut Vec<ObjRef>,
    scope: &Scope<'_>,
    variable: &ObjRef,
    act: &Act,
) -> Result<(), AllocError>
    ensures { let ps = scope.now.present in let h = held_by ps scope.now.held in
        OnOk result (list.new.items ≡ list.old.items
        ++ spec.candidates_through R.order scope.now.service.now ps h variable.now act.now) }
{
    let known = KnownWith {
        service: scope.service,
        present: &scope.present,
        held: &scope.held,
    };
    let all = scope.held.of(&scope.present, variable);
    push_wrong::<R>(list, &known, act, variable, all)
}

/// What the variable may hold and is wrong with the actions at the place goes behind these.
fn push_sites<R: Rank>(
    list: &mut Vec<ObjRef>,
    scope: &Scope<'_>,
    variable: &ObjRef,
    place: &Place,
    sites: &[Site<'_>],
) -> Result<(), AllocError>
    ensures { let ps = scope.now.present in let h = held_by ps scope.now.held in
        OnOk result (list.new.items ≡ list.old.items
        ++ spec.candidates_of_sites R.order scope.now.service.now ps h variable.now place.now sites.now) }
{
    for site in sites {
        if is_at(place, site.key, site.index) {
            push_through::<R>(list, scope, variable, site.act)?;
        }
    }
    Ok(())
}

/// Whether the item is wrong, which a list may have.
fn is_wrong_item<R: Rank>(scope: &Scope<'_>, key: &ObjRef, at: &ObjRef) -> bool
    ensures { result ≡ spec.is_wrong_item R.order scope.now.present key.now at.now }
{
    match fault_of(&scope.present, at) {
        Some(reason) => R::rank(reason, true).is_some(),
        None => false,
    }
}

/// What of these items is wrong, which the list may have, goes behind those.
fn push_items<R: Rank>(
    list: &mut Vec<ObjRef>,
    scope: &Scope<'_>,
    key: &ObjRef,
    items: &[ObjRef],
) -> Result<(), AllocError>
    ensures { OnOk result (list.new.items ≡ list.old.items
        ++ filter (spec.is_wrong_item R.order scope.now.present key.now) items.now) }
{
    for at in items {
        if is_wrong_item::<R>(scope, key, at) {
            list.push(at.clone()?)?;
        }
    }
    Ok(())
}

/// Whether the object is the list with this reference.
fn is_list(part: &Fixed, key: &ObjRef) -> bool
    ensures { result ≡ (is_list_group part.now.class && same_key part.now.key key.now) }
{
    is_list_group(part.class) && part.key == *key
}

fn push_part<R: Rank>(
    list: &mut Vec<ObjRef>,
    scope: &Scope<'_>,
    key: &ObjRef,
    part: &Fixed,
) -> Result<(), AllocError>
    ensures { let ps = scope.now.present in let h = held_by ps scope.now.held in
        OnOk result (list.new.items ≡ list.old.items ++ spec.candidates_in R.order ps h key.now part.now) }
{
    if is_list(part, key) {
        push_items::<R>(list, scope, key, scope.held.of(&scope.present, key))
    } else {
        Ok(())
    }
}

/// What the list may have and is wrong goes behind these, if it stands at the place.
fn push_parts<R: Rank>(
    list: &mut Vec<ObjRef>,
    scope: &Scope<'_>,
    key: &ObjRef,
    place: &Place,
    parts: &[FixedPart],
) -> Result<(), AllocError>
    ensures { let ps = scope.now.present in let h = held_by ps scope.now.held in
        OnOk result (list.new.items ≡ list.old.items ++ spec.candidates_of_parts R.order ps h key.now place.now parts.now) }
{
    for part in parts {
        if is_at(place, &part.get().key, 0) {
            push_part::<R>(list, scope, key, part.get())?;
        }
    }
    Ok(())
}

/// What the variable or list at `holder` may hold and is wrong at the place.
#[tactic(auto, using(crate::proofs::CandidateLemmas::parts_joined))]
pub fn candidates_at<R: Rank>(
    alloc: Global,
    scope: &Scope<'_>,
    holder: &ObjRef,
    place: &Place,
) -> Result<Vec<ObjRef>, AllocError>
    ensures { let ps = scope.now.present in let h = held_by ps scope.now.held in
        IfOk result (λ list. list.items
        ≡ spec.candidates_at R.order scope.now.service.now ps h holder.now place.now) }
{
    let mut list = Vec::new(alloc);
    let (application, scene) = scope.present.parts();
    push_parts::<R>(&mut list, scope, holder, place, application)?;
    push_parts::<R>(&mut list, scope, holder, place, scene)?;
    let sites = sites_of(alloc, &scope.present)?;
    push_sites::<R>(&mut list, scope, holder, place, sites.as_slice())?;
    Ok(list)
}
