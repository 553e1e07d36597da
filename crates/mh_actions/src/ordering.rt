//! What an action makes of the display stack.
ghost use Rattle.std.specs.Prelude.{◌≡◌, List, IfOk};
ghost use Rattle.mh_base.specs.declared.obj_ref.ObjRef.{ObjRef as ObjRefValue};
ghost use Rattle.mh_actions.specs.Moved.{moved};
ghost use Rattle.mh_model.specs.Lifecycle.{is_available_at};
ghost use Rattle.mh_model.specs.Stack.{are_two, reordered};
ghost use Rattle.mh_model.specs.Service.{object_at};
ghost use Rattle.mh_model.specs.State.{all};

use mh_base::{ObjRef, Value};
use mh_group::ActionName;
use mh_model::parts::same_ref;
use mh_store::Objects;
use std::alloc::AllocError;

/// What an action makes of the display stack, done to an object that is available.
#[derive(Drop)]
pub enum Reorder {
    Nothing,
    ToFront,
    ToBack,
    /// Just above this object.
    Above(ObjRef),
    /// Just below this object.
    Below(ObjRef),
}

/// Where the action puts the object at this reference. It takes no memory of its own.
pub fn reorder_by(
    name: ActionName,
    values: &[Value],
    at: &ObjRef,
    objects: &Objects,
) -> Result<Reorder, AllocError>
    ensures { IfOk result (λ how. (stack : List ObjRefValue) → moved how at.now stack
        ≡ reordered name values.now at.now (all objects.now) stack) }
{
    match (name, values) {
        (ActionName::BringToFront, _) => Ok(Reorder::ToFront),
        (ActionName::SendToBack, _) => Ok(Reorder::ToBack),
        (ActionName::PutBefore, [Value::Object(beside)]) if are_two(at, beside, objects) => {
            Ok(Reorder::Above(beside.clone()?))
        }
        (ActionName::PutBehind, [Value::Object(beside)]) if are_two(at, beside, objects) => {
            Ok(Reorder::Below(beside.clone()?))
        }
        _ => Ok(Reorder::Nothing),
    }
}

/// The object at the second reference is available, and is not the one at the first.
fn are_two(first: &ObjRef, second: &ObjRef, objects: &Objects) -> bool
    ensures { result ≡ are_two first.now second.now (all objects.now) }
{
    is_available(objects, second) && !same_ref(first, second)
}

fn is_available(objects: &Objects, at: &ObjRef) -> bool
    ensures { result ≡ is_available_at (object_at at.now (all objects.now)) }
{
    match objects.get(at) {
        Some(object) => object.body.available,
        None => false,
    }
}
