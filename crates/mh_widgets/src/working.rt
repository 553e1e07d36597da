//! What the actions of widgets make of one, each by its family.
ghost use Rattle.std.specs.Prelude.{◌≡◌, IfOk};
ghost use Rattle.mh_group.specs.Table.{is_visible};
ghost use Rattle.mh_model.specs.Lists.{list_worked};
ghost use Rattle.mh_model.specs.Worked.{if_list, worked};
ghost use Rattle.mh_widgets.specs.Does.{Does, placed_by, placed_with};

use crate::buttons::button_worked;
use crate::done::Done;
use crate::lists::list_worked;
use crate::selection::selection_worked;
use crate::tokens::token_worked;
use mh_base::{ObjRef, Value};
use mh_group::{ActionName, Class};
use mh_model::Object;
use std::alloc::{AllocError, Global};

/// What an action makes of the widget at this reference, and what follows: of a group of objects with a
/// token, of a list, of a field or of a button.
pub fn worked(
    alloc: Global,
    name: ActionName,
    values: &[Value],
    at: &ObjRef,
    object: &Object,
) -> Result<Done, AllocError>
    ensures done { let said = worked name values.now at.now object.now.fixed object.now.body in
        IfOk result (λ done. Does object.now said done) }
    ensures edited { IfOk result (λ done. done.placed.items ≡ placed_with done.edit done.placed.items) }
    ensures unseen { let seen = is_visible object.now.fixed.class in
        IfOk result (λ done. done.placed.items ≡ placed_by done.placed.items seen) }
{
    match name {
        ActionName::Move | ActionName::MoveTo => token_worked(alloc, name, values, at, object),
        ActionName::AddItem
        | ActionName::DelItem
        | ActionName::ScrollItems
        | ActionName::SetFirstItem => if_list(alloc, name, values, at, object),
        ActionName::SelectItem | ActionName::DeselectItem | ActionName::ToggleItem => {
            selection_worked(alloc, name, values, at, object)
        }
        _ => button_worked(alloc, name, values, at, object),
    }
}

/// What changes the items of a list does nothing to any other object.
fn if_list(
    alloc: Global,
    name: ActionName,
    values: &[Value],
    at: &ObjRef,
    object: &Object,
) -> Result<Done, AllocError>
    ensures done { let said = list_worked name values.now at.now object.now.fixed object.now.body in
        let done_to = if_list object.now.fixed object.now.body said in
        IfOk result (λ done. Does object.now done_to done) }
    ensures edited { IfOk result (λ done. done.placed.items ≡ placed_with done.edit done.placed.items) }
    ensures unseen { let seen = is_visible object.now.fixed.class in
        IfOk result (λ done. done.placed.items ≡ placed_by done.placed.items seen) }
{
    if matches!(object.fixed.get().class, Class::ListGroup) {
        list_worked(alloc, name, values, at, object)
    } else {
        Ok(Done::nothing(alloc))
    }
}
