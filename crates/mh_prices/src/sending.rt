//! What it comes to that an action sends an event.
//!
//! Promise: each function adds the price of its definition to the sum.
ghost use Rattle.std.specs.Prelude.{◌≡◌, ◌∷◌, [], IfOk};
ghost use Rattle.std.specs.Option.{option_map_or};
ghost use Rattle.mh_laws.specs.Price.{Nothing, most_price};
ghost use Rattle.mh_laws.specs.View as spec;
ghost use Rattle.mh_model.specs.Saying.{event_numbered};
ghost use Rattle.mh_prices.specs.Meter.{Adds, raise};

use crate::life::emit;
use crate::told::Told;
use crate::view::View;
use mh_base::{EventType, ObjRef, Value};
use mh_model::Argument;

/// What is known of the data of an event that is sent with these behind its type.
fn told_by(more: &[Argument]) -> Told<'_>
    ensures { result ≡ spec.data_sent more.now }
{
    match more {
        [] => Told::sure(None),
        [Argument::Direct(value), ..] => Told::sure(Some(value)),
        _ => Told::unsure(),
    }
}

/// What the set has from a place on sends it: the largest of these.
fn sent_from<V: View>(
    view: &V,
    variable: &ObjRef,
    place: V::Cursor,
    kind: EventType,
    told: &Told<'_>,
    mark: V::Mark,
    sum: V::Sum,
) -> Result<(V::Mark, V::Sum), V::Stop>
    ensures { let a = (V.around view.now).lists.view in
        IfOk result (λ s. (V.marked s.0, V.seen s.1) ≡ raise (V.meter view.now) (most_price (λ q. spec.emit a q kind told.now) (V.left view.now variable.now place)) (V.marked mark, V.seen sum)) }
{
    let mut mark = mark;
    let mut sum = sum;
    let mut place = place;
    while let Some((object, behind)) = view.item(variable, place) {
        sum = emit(view, object, kind, told, sum)?;
        (mark, sum) = view.next(mark, sum);
        place = behind;
    }
    Ok((mark, sum))
}

/// What a variable may refer to sends it.
#[tactic(auto, using(crate::proofs::ThroughLemmas::most_through))]
fn sent_through<V: View>(
    view: &V,
    variable: &ObjRef,
    kind: EventType,
    told: &Told<'_>,
    sum: V::Sum,
) -> Result<V::Sum, V::Stop>
    ensures { let a = (V.around view.now).lists.view in
        Adds V.seen (V.meter view.now) (most_price (λ q. spec.emit a q kind told.now) (a.set variable.now)) sum result }
{
    let begin = view.begin(variable);
    if view.item(variable, begin).is_none() {
        return Ok(sum);
    }
    let (mark, sum) = view.aside(sum);
    let (mark, sum) = sent_from(view, variable, begin, kind, told, mark, sum)?;
    Ok(view.close(mark, sum))
}

/// One object sends it, which is all that the source comes to.
fn sent_by<V: View>(
    view: &V,
    at: &ObjRef,
    kind: EventType,
    told: &Told<'_>,
    sum: V::Sum,
) -> Result<V::Sum, V::Stop>
    ensures { let a = (V.around view.now).lists.view in
        Adds V.seen (V.meter view.now) (most_price (λ q. spec.emit a q kind told.now) (at.now ∷ [])) sum result }
{
    let (mark, sum) = view.aside(sum);
    let sum = emit(view, at, kind, told, sum)?;
    let (mark, sum) = view.next(mark, sum);
    Ok(view.close(mark, sum))
}

/// What the source comes to sends it.
fn sent<V: View>(
    view: &V,
    source: &Argument,
    kind: EventType,
    told: &Told<'_>,
    sum: V::Sum,
) -> Result<V::Sum, V::Stop>
    ensures { let a = (V.around view.now).lists.view in
        Adds V.seen (V.meter view.now) (most_price (λ q. spec.emit a q kind told.now) (spec.named a source.now)) sum result }
{
    match source {
        Argument::Direct(Value::Object(at)) => sent_by(view, at, kind, told, sum),
        Argument::Through(variable, _) => sent_through(view, variable, kind, told, sum),
        _ => Ok(sum),
    }
}

fn event_numbered(number: i32) -> Option<EventType>
    ensures { result ≡ event_numbered number }
{
    match u32::try_from(number) {
        Ok(number) => EventType::of_number(number),
        Err(_) => None,
    }
}

/// An event with this number is sent.
fn sent_numbered<V: View>(
    view: &V,
    source: &Argument,
    number: i32,
    more: &[Argument],
    sum: V::Sum,
) -> Result<V::Sum, V::Stop>
    ensures { let a = (V.around view.now).lists.view in
        Adds V.seen (V.meter view.now) (option_map_or (λ kind. most_price (λ q. spec.emit a q kind (spec.data_sent more.now)) (spec.named a source.now)) (event_numbered number) Nothing) sum result }
{
    match event_numbered(number) {
        None => Ok(sum),
        Some(kind) => sent(view, source, kind, &told_by(more), sum),
    }
}

/// An event is sent whose type stands first of these.
fn sends_typed<V: View>(
    view: &V,
    source: &Argument,
    behind: &[Argument],
    sum: V::Sum,
) -> Result<V::Sum, V::Stop>
    ensures { Adds V.seen (V.meter view.now) (spec.sends (V.around view.now).lists.view (source.now ∷ behind.now)) sum result }
{
    let Some((word, more)) = behind.split_first() else {
        return Ok(sum);
    };
    match word {
        Argument::Direct(Value::Int(number)) => sent_numbered(view, source, *number, more, sum),
        _ => Ok(sum),
    }
}

/// An event is sent: these name its source, its type and perhaps data.
pub(crate) fn sends<V: View>(
    view: &V,
    arguments: &[Argument],
    sum: V::Sum,
) -> Result<V::Sum, V::Stop>
    ensures { Adds V.seen (V.meter view.now) (spec.sends (V.around view.now).lists.view arguments.now) sum result }
{
    match arguments.split_first() {
        None => Ok(sum),
        Some((source, behind)) => sends_typed(view, source, behind, sum),
    }
}
