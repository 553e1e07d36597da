//! What a list group answers of its items (ISO/IEC 13522-5, ListGroup). A number without an item answers
//! nothing.
ghost use Rattle.std.specs.Prelude.{◌≡◌, IfOk};
ghost use Rattle.std.specs.Option.{option_copied, option_map};
ghost use Rattle.mh_group.specs.declared.action_name.ActionName.TheVariants as action;
ghost use Rattle.mh_model.specs.Saying as spec;

use crate::few::Few;
use mh_base::{ObjRef, Value};
use mh_model::{Entry, Object};
use mh_widgets::counts::numbered;
use mh_widgets::lists::in_cell;
use std::alloc::AllocError;

/// Whether the item with the number is selected.
pub(crate) fn status_told(values: &[Value], object: &Object) -> Few<Value>
    ensures { result ≡ spec.answers action.GetItemStatus values.now object.now }
{
    match values {
        [Value::Int(number)] if *number >= 0 => {
            status_of(numbered(object.body.list.entries(), number.unsigned_abs() as usize))
        }
        _ => Few::none(),
    }
}

fn status_of(entry: Option<&Entry>) -> Few<Value>
    ensures { result ≡ spec.status_told (option_copied entry.entry) }
{
    match entry {
        Some(entry) => Few::one(Value::Bool(entry.selected)),
        None => Few::none(),
    }
}

/// Which object the item with the number is.
pub(crate) fn item_told(values: &[Value], object: &Object) -> Result<Few<Value>, AllocError>
    ensures { IfOk result (λ told. told ≡ spec.answers action.GetListItem values.now object.now) }
{
    match values {
        [Value::Int(number)] if *number >= 0 => {
            let entries = object.body.list.entries();
            object_told(object_of(numbered(entries, number.unsigned_abs() as usize)))
        }
        _ => Ok(Few::none()),
    }
}

fn object_of(entry: Option<&Entry>) -> Option<&ObjRef>
    ensures { option_copied result ≡ option_map (λ e. e.object) (option_copied entry.entry) }
{
    match entry {
        Some(entry) => Some(&entry.object),
        None => None,
    }
}

/// Which object is in the cell with the number, while the list runs.
pub(crate) fn cell_told(values: &[Value], object: &Object) -> Result<Few<Value>, AllocError>
    ensures { IfOk result (λ told. told ≡ spec.answers action.GetCellItem values.now object.now) }
{
    match values {
        [Value::Int(number)] if *number >= 0 => {
            object_told(in_cell(object, number.unsigned_abs() as usize))
        }
        _ => Ok(Few::none()),
    }
}

fn object_told(object: Option<&ObjRef>) -> Result<Few<Value>, AllocError>
    ensures { IfOk result (λ told. told ≡ spec.item_told (option_copied object.entry)) }
{
    match object {
        Some(object) => Ok(Few::one(Value::Object(object.clone()?))),
        None => Ok(Few::none()),
    }
}
