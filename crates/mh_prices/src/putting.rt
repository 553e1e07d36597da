//! What an action puts: one of its ways, each of which is a sum of shares.
//!
//! Promise: each function adds the largest of the ways that it names to the sum.
ghost use Rattle.std.specs.Prelude.{◌≡◌};
ghost use Rattle.std.specs.Option.{option_map_or};
ghost use Rattle.mh_laws.specs.Price.{Most, Nothing, Plus};
ghost use Rattle.mh_laws.specs.View as spec;
ghost use Rattle.mh_laws.specs.Ways.{Unsure, ways};
ghost use Rattle.mh_prices.specs.Meter.{Adds};

use crate::life::{dropped, emit, halt, plain_emit, prepare, run};
use crate::sending::sends;
use crate::told::Told;
use crate::view::{Lists, View};
use mh_base::{EventType, ObjRef, Value};
use mh_group::{ActionName, Class};
use mh_model::{Argument, Fixed};

/// The last of the ways has come to this.
fn closed<V: View>(view: &V, mark: V::Mark, sum: V::Sum) -> V::Sum
    ensures { V.seen result ≡ (V.meter view.now).close ((V.meter view.now).next (V.marked mark, V.seen sum)) }
{
    let (mark, sum) = view.next(mark, sum);
    view.close(mark, sum)
}

/// An event without data.
pub(crate) fn tells<V: View>(
    view: &V,
    at: &ObjRef,
    kind: EventType,
    sum: V::Sum,
) -> Result<V::Sum, V::Stop>
    ensures { let a = (V.around view.now).lists.view in
        Adds V.seen (V.meter view.now) (Most (Plus (spec.plain_emit a at.now kind) Nothing) Nothing) sum result }
{
    let (mark, sum) = view.aside(sum);
    let sum = plain_emit(view, at, kind, sum)?;
    Ok(closed(view, mark, sum))
}

/// An event of whose data nothing is known.
pub(crate) fn tells_unsure<V: View>(
    view: &V,
    at: &ObjRef,
    kind: EventType,
    sum: V::Sum,
) -> Result<V::Sum, V::Stop>
    ensures { let a = (V.around view.now).lists.view in
        Adds V.seen (V.meter view.now) (Most (Plus (spec.emit a at.now kind Unsure) Nothing) Nothing) sum result }
{
    let (mark, sum) = view.aside(sum);
    let sum = emit(view, at, kind, &Told::unsure(), sum)?;
    Ok(closed(view, mark, sum))
}

/// Two events of whose data nothing is known.
pub(crate) fn tells_both<V: View>(
    view: &V,
    at: &ObjRef,
    first: EventType,
    second: EventType,
    sum: V::Sum,
) -> Result<V::Sum, V::Stop>
    ensures { let a = (V.around view.now).lists.view in
        Adds V.seen (V.meter view.now) (Most (Plus (spec.emit a at.now first Unsure) (Plus (spec.emit a at.now second Unsure) Nothing)) Nothing) sum result }
{
    let unsure = Told::unsure();
    let (mark, sum) = view.aside(sum);
    let sum = emit(view, at, first, &unsure, sum)?;
    let sum = emit(view, at, second, &unsure, sum)?;
    Ok(closed(view, mark, sum))
}

/// One of two events without data.
fn tells_either<V: View>(
    view: &V,
    at: &ObjRef,
    first: EventType,
    second: EventType,
    sum: V::Sum,
) -> Result<V::Sum, V::Stop>
    ensures { let a = (V.around view.now).lists.view in
        Adds V.seen (V.meter view.now) (Most (Plus (spec.plain_emit a at.now first) Nothing) (Most (Plus (spec.plain_emit a at.now second) Nothing) Nothing)) sum result }
{
    let (mark, sum) = view.aside(sum);
    let sum = plain_emit(view, at, first, sum)?;
    let (mark, sum) = view.next(mark, sum);
    let sum = plain_emit(view, at, second, sum)?;
    Ok(closed(view, mark, sum))
}

/// The highlight is put on or off; which, is known where that is written.
pub(crate) fn highlights<V: View>(
    view: &V,
    at: &ObjRef,
    arguments: &[Argument],
    sum: V::Sum,
) -> Result<V::Sum, V::Stop>
    ensures { let a = (V.around view.now).lists in
        Adds V.seen (V.meter view.now) (spec.put_in a arguments.now at.now (ways ActionName.SetHighlightStatus arguments.now)) sum result }
{
    match arguments {
        [Argument::Direct(Value::Bool(true))] => tells(view, at, EventType::HighlightOn, sum),
        [Argument::Direct(Value::Bool(false))] => tells(view, at, EventType::HighlightOff, sum),
        _ => tells_either(
            view,
            at,
            EventType::HighlightOn,
            EventType::HighlightOff,
            sum,
        ),
    }
}

/// Interaction ends, unless it is written that it begins.
pub(crate) fn interacts<V: View>(
    view: &V,
    at: &ObjRef,
    arguments: &[Argument],
    sum: V::Sum,
) -> Result<V::Sum, V::Stop>
    ensures { let a = (V.around view.now).lists in
        Adds V.seen (V.meter view.now) (spec.put_in a arguments.now at.now (ways ActionName.SetInteractionStatus arguments.now)) sum result }
{
    match arguments {
        [Argument::Direct(Value::Bool(true))] => Ok(sum),
        _ => tells(view, at, EventType::InteractionCompleted, sum),
    }
}

/// The object runs.
pub(crate) fn runs<L: Lists>(lists: &L, at: &ObjRef, sum: L::Sum) -> Result<L::Sum, L::Stop>
    ensures { let a = (L.around lists.now).lists in
        Adds L.seen (L.meter lists.now) (Most (Plus (spec.run a at.now) Nothing) Nothing) sum result }
{
    let (mark, sum) = lists.aside(sum);
    let sum = run(lists, at, sum)?;
    Ok(closed(lists, mark, sum))
}

/// The object halts.
pub(crate) fn halts<L: Lists>(lists: &L, at: &ObjRef, sum: L::Sum) -> Result<L::Sum, L::Stop>
    ensures { let a = (L.around lists.now).lists in
        Adds L.seen (L.meter lists.now) (Most (Plus (spec.halt a at.now) Nothing) Nothing) sum result }
{
    let (mark, sum) = lists.aside(sum);
    let sum = halt(lists, at, sum)?;
    Ok(closed(lists, mark, sum))
}

/// The object becomes available.
pub(crate) fn prepares<V: View>(view: &V, at: &ObjRef, sum: V::Sum) -> Result<V::Sum, V::Stop>
    ensures { let a = (V.around view.now).lists.view in
        Adds V.seen (V.meter view.now) (Most (Plus (spec.prepare a at.now) Nothing) Nothing) sum result }
{
    let (mark, sum) = view.aside(sum);
    let sum = prepare(view, at, sum)?;
    Ok(closed(view, mark, sum))
}

/// The object halts and is deleted.
pub(crate) fn unloads<L: Lists>(lists: &L, at: &ObjRef, sum: L::Sum) -> Result<L::Sum, L::Stop>
    ensures { let a = (L.around lists.now).lists in
        Adds L.seen (L.meter lists.now) (Most (Plus (spec.halt a at.now) (Plus (spec.dropped a.view at.now) Nothing)) Nothing) sum result }
{
    let (mark, sum) = lists.aside(sum);
    let sum = halt(lists, at, sum)?;
    let sum = dropped(lists, at, sum)?;
    Ok(closed(lists, mark, sum))
}

/// The list changes.
pub(crate) fn changes<L: Lists>(lists: &L, at: &ObjRef, sum: L::Sum) -> Result<L::Sum, L::Stop>
    ensures { let a = (L.around lists.now).lists in
        Adds L.seen (L.meter lists.now) (Most (Plus (a.change at.now) Nothing) Nothing) sum result }
{
    let (mark, sum) = lists.aside(sum);
    let sum = lists.change(at, sum)?;
    Ok(closed(lists, mark, sum))
}

/// An event is sent.
pub(crate) fn sends_one<V: View>(
    view: &V,
    arguments: &[Argument],
    sum: V::Sum,
) -> Result<V::Sum, V::Stop>
    ensures { let a = (V.around view.now).lists.view in
        Adds V.seen (V.meter view.now) (Most (Plus (spec.sends a arguments.now) Nothing) Nothing) sum result }
{
    let (mark, sum) = view.aside(sum);
    let sum = sends(view, arguments, sum)?;
    Ok(closed(view, mark, sum))
}

/// One of the slots of the object; a link has none.
fn slots_of<V: View>(view: &V, part: &Fixed, sum: V::Sum) -> Result<V::Sum, V::Stop>
    ensures { Adds V.seen (V.meter view.now) (spec.slots (V.around view.now).lists.view part.now) sum result }
{
    if matches!(part.class, Class::Link) {
        Ok(sum)
    } else {
        view.slots(part, sum)
    }
}

fn slots_at<V: View>(view: &V, at: &ObjRef, sum: V::Sum) -> Result<V::Sum, V::Stop>
    ensures { let a = (V.around view.now).lists.view in
        Adds V.seen (V.meter view.now) (option_map_or (spec.slots a) (a.part at.now) Nothing) sum result }
{
    match view.part(at) {
        None => Ok(sum),
        Some(part) => slots_of(view, part, sum),
    }
}

/// A slot is called.
pub(crate) fn calls_slot<V: View>(view: &V, at: &ObjRef, sum: V::Sum) -> Result<V::Sum, V::Stop>
    ensures { let a = (V.around view.now).lists.view in
        Adds V.seen (V.meter view.now) (Most (Plus (option_map_or (spec.slots a) (a.part at.now) Nothing) Nothing) Nothing) sum result }
{
    let (mark, sum) = view.aside(sum);
    let sum = slots_at(view, at, sum)?;
    Ok(closed(view, mark, sum))
}
