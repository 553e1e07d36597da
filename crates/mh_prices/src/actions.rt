//! What actions come to.
//!
//! Promise: each function adds the price that its clause names to the sum.
ghost use Rattle.std.specs.Prelude.{◌≡◌, ◌∷◌, [], IfOk};
ghost use Rattle.mh_laws.specs.Price.{Plus, most_price};
ghost use Rattle.mh_laws.specs.View as spec;
ghost use Rattle.mh_prices.specs.Meter.{Adds, raise};

use crate::putting::{
    calls_slot, changes, halts, highlights, interacts, prepares, runs, sends_one, tells,
    tells_both, tells_unsure, unloads,
};
use crate::view::{Around, View};
use mh_base::{EventType, ObjRef};
use mh_group::ActionName;
use mh_model::{Act, Argument, Target};

/// The configuration is left, and the group of the object gone on to.
fn leads<A: Around>(around: &A, all: bool, at: &ObjRef, sum: A::Sum) -> Result<A::Sum, A::Stop>
    ensures { let a = A.around around.now in
        Adds A.seen (A.meter around.now) (Plus (a.leave all) (a.exchange at.now.group)) sum result }
{
    let sum = around.leave(all, sum)?;
    around.exchange(&at.group, sum)
}

fn quits<A: Around>(around: &A, at: &ObjRef, sum: A::Sum) -> Result<A::Sum, A::Stop>
    ensures { let a = A.around around.now in
        Adds A.seen (A.meter around.now) (spec.done_to a ActionName.Quit [] at.now) sum result }
{
    let sum = around.leave(true, sum)?;
    Ok(around.one(sum))
}

/// What an action puts that is done to this object.
pub fn done_to<A: Around>(
    around: &A,
    name: ActionName,
    arguments: &[Argument],
    at: &ObjRef,
    sum: A::Sum,
) -> Result<A::Sum, A::Stop>
    ensures { let a = A.around around.now in
        Adds A.seen (A.meter around.now) (spec.done_to a name arguments.now at.now) sum result }
{
    match name {
        ActionName::TransitionTo => leads(around, false, at, sum),
        ActionName::Launch => leads(around, true, at, sum),
        ActionName::Quit => quits(around, at, sum),
        ActionName::Run | ActionName::Activate => runs(around, at, sum),
        ActionName::Stop | ActionName::Deactivate => halts(around, at, sum),
        ActionName::Preload => prepares(around, at, sum),
        ActionName::Unload => unloads(around, at, sum),
        ActionName::SendEvent => sends_one(around, arguments, sum),
        ActionName::TestVariable => tells_unsure(around, at, EventType::TestEvent, sum),
        ActionName::SetData => tells(around, at, EventType::ContentAvailable, sum),
        ActionName::Fork => tells(around, at, EventType::AsyncStopped, sum),
        ActionName::SetInteractionStatus => interacts(around, at, arguments, sum),
        ActionName::SetHighlightStatus => highlights(around, at, arguments, sum),
        ActionName::Select => tells(around, at, EventType::IsSelected, sum),
        ActionName::Deselect => tells(around, at, EventType::IsDeselected, sum),
        ActionName::Move | ActionName::MoveTo => moves(around, at, sum),
        ActionName::CallActionSlot => calls_slot(around, at, sum),
        ActionName::AddItem
        | ActionName::DelItem
        | ActionName::ScrollItems
        | ActionName::SetFirstItem => changes(around, at, sum),
        ActionName::SelectItem | ActionName::ToggleItem => selects(around, at, sum),
        ActionName::DeselectItem => tells_unsure(around, at, EventType::ItemDeselected, sum),
        _ => Ok(sum),
    }
}

/// A token leaves one member and comes to another.
fn moves<V: View>(view: &V, at: &ObjRef, sum: V::Sum) -> Result<V::Sum, V::Stop>
    ensures { let a = V.around view.now in
        Adds V.seen (V.meter view.now) (spec.done_to a ActionName.Move [] at.now) sum result }
{
    let from = EventType::TokenMovedFrom;
    tells_both(view, at, from, EventType::TokenMovedTo, sum)
}

/// An item of a list is selected or no more so.
fn selects<V: View>(view: &V, at: &ObjRef, sum: V::Sum) -> Result<V::Sum, V::Stop>
    ensures { let a = V.around view.now in
        Adds V.seen (V.meter view.now) (spec.done_to a ActionName.SelectItem [] at.now) sum result }
{
    let deselected = EventType::ItemDeselected;
    tells_both(view, at, deselected, EventType::ItemSelected, sum)
}

/// What the set has from a place on it is done to: the largest of these.
fn done_from<A: Around>(
    around: &A,
    act: &Act,
    variable: &ObjRef,
    place: A::Cursor,
    mark: A::Mark,
    sum: A::Sum,
) -> Result<(A::Mark, A::Sum), A::Stop>
    ensures { let a = A.around around.now in
        IfOk result (λ s. (A.marked s.0, A.seen s.1) ≡ raise (A.meter around.now) (most_price (spec.done_to a act.now.name act.now.arguments) (A.left around.now variable.now place)) (A.marked mark, A.seen sum)) }
{
    let mut mark = mark;
    let mut sum = sum;
    let mut place = place;
    while let Some((object, behind)) = around.item(variable, place) {
        sum = done_to(around, act.name, act.arguments.as_slice(), object, sum)?;
        (mark, sum) = around.next(mark, sum);
        place = behind;
    }
    Ok((mark, sum))
}

/// It is done to what a variable may refer to.
#[tactic(auto, using(crate::proofs::ThroughLemmas::most_through))]
fn done_through<A: Around>(
    around: &A,
    act: &Act,
    variable: &ObjRef,
    sum: A::Sum,
) -> Result<A::Sum, A::Stop>
    ensures { let a = A.around around.now in
        Adds A.seen (A.meter around.now) (most_price (spec.done_to a act.now.name act.now.arguments) (a.lists.view.set variable.now)) sum result }
{
    let begin = around.begin(variable);
    if around.item(variable, begin).is_none() {
        return Ok(sum);
    }
    let (mark, sum) = around.aside(sum);
    let (mark, sum) = done_from(around, act, variable, begin, mark, sum)?;
    Ok(around.close(mark, sum))
}

/// It is done to one object, which is all that its target comes to.
fn done_by<A: Around>(around: &A, act: &Act, at: &ObjRef, sum: A::Sum) -> Result<A::Sum, A::Stop>
    ensures { let a = A.around around.now in
        Adds A.seen (A.meter around.now) (most_price (spec.done_to a act.now.name act.now.arguments) (at.now ∷ [])) sum result }
{
    let (mark, sum) = around.aside(sum);
    let sum = done_to(around, act.name, act.arguments.as_slice(), at, sum)?;
    let (mark, sum) = around.next(mark, sum);
    Ok(around.close(mark, sum))
}

/// What an action comes to.
pub fn act<A: Around>(around: &A, act: &Act, sum: A::Sum) -> Result<A::Sum, A::Stop>
    ensures { Adds A.seen (A.meter around.now) (spec.act (A.around around.now) act.now) sum result }
{
    let sum = around.one(sum);
    match &act.target {
        Target::Direct(at) => done_by(around, act, at, sum),
        Target::Through(variable) => done_through(around, act, variable, sum),
    }
}

/// What the actions of an effect come to.
pub fn acts<A: Around>(around: &A, acts: &[Act], sum: A::Sum) -> Result<A::Sum, A::Stop>
    ensures { Adds A.seen (A.meter around.now) (spec.acts (A.around around.now) acts.now) sum result }
{
    let mut sum = sum;
    for each in acts {
        sum = act(around, each, sum)?;
    }
    Ok(sum)
}
