//! What it comes to that objects run and stop.
//!
//! Promise: each function adds the price that its clause names to the sum.
ghost use Rattle.std.specs.Option.{option_map_or};
ghost use Rattle.mh_laws.specs.Price.{Nothing, sum_price};
ghost use Rattle.mh_laws.specs.View as spec;
ghost use Rattle.mh_model.specs.declared.object.member.Member.{Member as MemberLem};
ghost use Rattle.mh_model.specs.declared.object.Fixed.{Fixed as FixedLem};
ghost use Rattle.mh_prices.specs.Meter.{Adds};
ghost use Rattle.std.specs.Prelude.{◌≡◌};

use crate::told::Told;
use crate::view::{Lists, View};
use mh_base::{EventType, ObjRef, Value};
use mh_group::Class;
use mh_model::parts::members;
use mh_model::{Fixed, Member};

/// An object emits an event, of whose data this is known.
pub(crate) fn emit<V: View>(
    view: &V,
    at: &ObjRef,
    kind: EventType,
    told: &Told<'_>,
    sum: V::Sum,
) -> Result<V::Sum, V::Stop>
    ensures { Adds V.seen (V.meter view.now) (spec.emit (V.around view.now).lists.view at.now kind told.now) sum result }
{
    view.dealt_with(at, kind, told, view.one(sum))
}

/// An event without data.
pub fn plain_emit<V: View>(
    view: &V,
    at: &ObjRef,
    kind: EventType,
    sum: V::Sum,
) -> Result<V::Sum, V::Stop>
    ensures { Adds V.seen (V.meter view.now) (spec.plain_emit (V.around view.now).lists.view at.now kind) sum result }
{
    emit(view, at, kind, &Told::sure(None), sum)
}

fn rise_of<V: View>(view: &V, at: &ObjRef, class: Class, sum: V::Sum) -> Result<V::Sum, V::Stop>
    ensures { Adds V.seen (V.meter view.now) (spec.rise_of (V.around view.now).lists.view at.now class) sum result }
{
    let sum = plain_emit(view, at, EventType::IsAvailable, sum)?;
    if class.has_content() {
        plain_emit(view, at, EventType::ContentAvailable, sum)
    } else {
        Ok(sum)
    }
}

fn rise<V: View>(view: &V, at: &ObjRef, sum: V::Sum) -> Result<V::Sum, V::Stop>
    ensures { Adds V.seen (V.meter view.now) (spec.rise (V.around view.now).lists.view at.now) sum result }
{
    match view.part(at) {
        None => Ok(sum),
        Some(part) => rise_of(view, at, part.class, sum),
    }
}

/// It becomes available.
pub(crate) fn prepare<V: View>(view: &V, at: &ObjRef, sum: V::Sum) -> Result<V::Sum, V::Stop>
    ensures { Adds V.seen (V.meter view.now) (spec.prepare (V.around view.now).lists.view at.now) sum result }
{
    rise(view, at, view.one(sum))
}

/// It runs, without what a group of objects runs.
fn run_alone<V: View>(view: &V, at: &ObjRef, sum: V::Sum) -> Result<V::Sum, V::Stop>
    ensures { Adds V.seen (V.meter view.now) (spec.run_alone (V.around view.now).lists.view at.now) sum result }
{
    let sum = rise(view, at, view.one(sum))?;
    plain_emit(view, at, EventType::IsRunning, sum)
}

/// It halts, without what a group of objects halts.
fn halt_alone<V: View>(view: &V, at: &ObjRef, sum: V::Sum) -> Result<V::Sum, V::Stop>
    ensures { Adds V.seen (V.meter view.now) (spec.halt_alone (V.around view.now).lists.view at.now) sum result }
{
    plain_emit(view, at, EventType::IsStopped, view.one(sum))
}

/// It is deleted.
pub(crate) fn dropped<V: View>(view: &V, at: &ObjRef, sum: V::Sum) -> Result<V::Sum, V::Stop>
    ensures { Adds V.seen (V.meter view.now) (spec.dropped (V.around view.now).lists.view at.now) sum result }
{
    plain_emit(view, at, EventType::IsDeleted, view.one(sum))
}

/// Each item that the list may have halts.
fn items_halt<V: View>(view: &V, list: &ObjRef, sum: V::Sum) -> Result<V::Sum, V::Stop>
    ensures { let a = (V.around view.now).lists.view in
        Adds V.seen (V.meter view.now) (sum_price (spec.halt_alone a) (a.set list.now)) sum result }
{
    let mut sum = sum;
    let mut place = view.begin(list);
    while let Some((item, behind)) = view.item(list, place) {
        sum = halt_alone(view, item, sum)?;
        place = behind;
    }
    Ok(sum)
}

/// Each item that the list may have runs.
fn items_run<V: View>(view: &V, list: &ObjRef, sum: V::Sum) -> Result<V::Sum, V::Stop>
    ensures { let a = (V.around view.now).lists.view in
        Adds V.seen (V.meter view.now) (sum_price (spec.run_alone a) (a.set list.now)) sum result }
{
    let mut sum = sum;
    let mut place = view.begin(list);
    while let Some((item, behind)) = view.item(list, place) {
        sum = run_alone(view, item, sum)?;
        place = behind;
    }
    Ok(sum)
}

fn members_run<V: View>(view: &V, members: &[Member], sum: V::Sum) -> Result<V::Sum, V::Stop>
    ensures { let a = (V.around view.now).lists.view in
        Adds V.seen (V.meter view.now) (sum_price (λ (m : MemberLem). spec.run_alone a m.object) members.now) sum result }
{
    let mut sum = sum;
    for member in members {
        sum = run_alone(view, &member.object, sum)?;
    }
    Ok(sum)
}

fn members_halt<V: View>(view: &V, members: &[Member], sum: V::Sum) -> Result<V::Sum, V::Stop>
    ensures { let a = (V.around view.now).lists.view in
        Adds V.seen (V.meter view.now) (sum_price (λ (m : MemberLem). spec.halt_alone a m.object) members.now) sum result }
{
    let mut sum = sum;
    for member in members {
        sum = halt_alone(view, &member.object, sum)?;
    }
    Ok(sum)
}

/// A list changes: each item that it may have halts and runs, and its four events are told.
pub fn change<V: View>(view: &V, at: &ObjRef, sum: V::Sum) -> Result<V::Sum, V::Stop>
    ensures { Adds V.seen (V.meter view.now) (spec.change (V.around view.now).lists.view at.now) sum result }
{
    let unsure = Told::unsure();
    let sum = items_halt(view, at, sum)?;
    let sum = items_run(view, at, sum)?;
    let sum = emit(view, at, EventType::FirstItemPresented, &unsure, sum)?;
    let sum = emit(view, at, EventType::LastItemPresented, &unsure, sum)?;
    let sum = emit(view, at, EventType::HeadItems, &unsure, sum)?;
    emit(view, at, EventType::TailItems, &unsure, sum)
}

/// A group of objects runs its members, and its token is at the first.
fn token_group_run<V: View>(
    view: &V,
    at: &ObjRef,
    part: &Fixed,
    sum: V::Sum,
) -> Result<V::Sum, V::Stop>
    ensures { Adds V.seen (V.meter view.now) (spec.group_run (V.around view.now).lists at.now part.now Class.TokenGroup) sum result }
{
    let first = Value::Int(1);
    let sum = members_run(view, members(part), sum)?;
    emit(
        view,
        at,
        EventType::TokenMovedTo,
        &Told::sure(Some(&first)),
        sum,
    )
}

/// What it runs as a group of objects.
fn group_run<L: Lists>(lists: &L, at: &ObjRef, part: &Fixed, sum: L::Sum) -> Result<L::Sum, L::Stop>
    ensures { Adds L.seen (L.meter lists.now) (spec.group_run (L.around lists.now).lists at.now part.now part.now.class) sum result }
{
    match part.class {
        Class::TokenGroup => token_group_run(lists, at, part, sum),
        Class::ListGroup => lists.change(at, sum),
        _ => Ok(sum),
    }
}

/// What it halts as a group of objects.
fn group_halt<L: Lists>(
    lists: &L,
    at: &ObjRef,
    part: &Fixed,
    sum: L::Sum,
) -> Result<L::Sum, L::Stop>
    ensures { Adds L.seen (L.meter lists.now) (spec.group_halt (L.around lists.now).lists at.now part.now part.now.class) sum result }
{
    match part.class {
        Class::TokenGroup => members_halt(lists, members(part), sum),
        Class::ListGroup => items_halt(lists, at, sum),
        _ => Ok(sum),
    }
}

fn group_run_at<L: Lists>(lists: &L, at: &ObjRef, sum: L::Sum) -> Result<L::Sum, L::Stop>
    ensures { let a = (L.around lists.now).lists in
        Adds L.seen (L.meter lists.now) (option_map_or (λ (p : FixedLem). spec.group_run a at.now p p.class) (a.view.part at.now) Nothing) sum result }
{
    match lists.part(at) {
        None => Ok(sum),
        Some(part) => group_run(lists, at, part, sum),
    }
}

fn group_halt_at<L: Lists>(lists: &L, at: &ObjRef, sum: L::Sum) -> Result<L::Sum, L::Stop>
    ensures { let a = (L.around lists.now).lists in
        Adds L.seen (L.meter lists.now) (option_map_or (λ (p : FixedLem). spec.group_halt a at.now p p.class) (a.view.part at.now) Nothing) sum result }
{
    match lists.part(at) {
        None => Ok(sum),
        Some(part) => group_halt(lists, at, part, sum),
    }
}

/// It runs.
pub(crate) fn run<L: Lists>(lists: &L, at: &ObjRef, sum: L::Sum) -> Result<L::Sum, L::Stop>
    ensures { Adds L.seen (L.meter lists.now) (spec.run (L.around lists.now).lists at.now) sum result }
{
    let sum = run_alone(lists, at, sum)?;
    group_run_at(lists, at, sum)
}

/// It halts.
pub(crate) fn halt<L: Lists>(lists: &L, at: &ObjRef, sum: L::Sum) -> Result<L::Sum, L::Stop>
    ensures { Adds L.seen (L.meter lists.now) (spec.halt (L.around lists.now).lists at.now) sum result }
{
    let sum = halt_alone(lists, at, sum)?;
    group_halt_at(lists, at, sum)
}
