//! What inputs put, object by object.
//!
//! Promise: each function adds the price that its clause names to the sum.
ghost use Rattle.std.specs.Prelude.{◌≡◌};
ghost use Rattle.mh_laws.specs.Price.{Most};
ghost use Rattle.mh_laws.specs.View.{plain_emit as plain_emit_lem};
ghost use Rattle.mh_prices.specs.Meter.{Adds};
ghost use Rattle.mh_layers.specs.Inputs as spec;

use mh_base::{EventType, GroupName, ObjRef};
use mh_group::Class;
use mh_model::Fixed;
use mh_prices::{Around, Told, View, plain_emit};

/// One of two events without data.
fn either<V: View>(
    view: &V,
    at: &ObjRef,
    first: EventType,
    second: EventType,
    sum: V::Sum,
) -> Result<V::Sum, V::Stop>
    ensures { let a = (V.around view.now).lists.view in
        Adds V.seen (V.meter view.now) (Most (plain_emit_lem a at.now first) (plain_emit_lem a at.now second)) sum result }
{
    let (mark, sum) = view.aside(sum);
    let sum = plain_emit(view, at, first, sum)?;
    let (mark, sum) = view.next(mark, sum);
    let sum = plain_emit(view, at, second, sum)?;
    Ok(view.close(mark, sum))
}

fn pressed_by<V: View>(view: &V, at: &ObjRef, class: Class, sum: V::Sum) -> Result<V::Sum, V::Stop>
    ensures { Adds V.seen (V.meter view.now) (spec.pressed_by (V.around view.now).lists.view at.now class) sum result }
{
    let completed = EventType::InteractionCompleted;
    match class {
        Class::EntryField => either(view, at, EventType::EntryFieldFull, completed, sum),
        Class::PushButton => either(view, at, EventType::IsSelected, completed, sum),
        _ => Ok(sum),
    }
}

/// What a key makes the object put, if it interacts.
pub(crate) fn pressed<V: View>(view: &V, part: &Fixed, sum: V::Sum) -> Result<V::Sum, V::Stop>
    ensures { Adds V.seen (V.meter view.now) (spec.pressed (V.around view.now).lists.view part.now) sum result }
{
    pressed_by(view, &part.key, part.class, sum)
}

/// What the object has to tell, if it is a stream.
pub(crate) fn stream_told<V: View>(view: &V, part: &Fixed, sum: V::Sum) -> Result<V::Sum, V::Stop>
    ensures { Adds V.seen (V.meter view.now) (spec.stream_told (V.around view.now).lists.view part.now) sum result }
{
    if matches!(part.class, Class::Stream) {
        view.dealt_with(&part.key, EventType::StreamEvent, &Told::unsure(), sum)
    } else {
        Ok(sum)
    }
}

/// Whether the object has content, and can wait for a file.
fn reads<V: View>(view: &V, at: &ObjRef) -> bool
    ensures { result ≡ spec.reads ((V.around view.now).lists.view.part at.now) }
{
    match view.part(at) {
        None => false,
        Some(part) => part.class.has_content(),
    }
}

/// What the object tells when its file comes, if it can wait for one.
pub(crate) fn content_told<V: View>(view: &V, part: &Fixed, sum: V::Sum) -> Result<V::Sum, V::Stop>
    ensures { Adds V.seen (V.meter view.now) (spec.content_told (V.around view.now).lists.view part.now) sum result }
{
    if reads(view, &part.key) {
        let told = Told::sure(None);
        view.dealt_with(&part.key, EventType::ContentAvailable, &told, sum)
    } else {
        Ok(sum)
    }
}

/// What a transition to the scene puts.
pub(crate) fn scene_change<A: Around>(
    around: &A,
    scene: &GroupName,
    sum: A::Sum,
) -> Result<A::Sum, A::Stop>
    ensures { Adds A.seen (A.meter around.now) (spec.scene_change (A.around around.now) scene.now) sum result }
{
    let sum = around.leave(false, sum)?;
    around.exchange(scene, sum)
}
