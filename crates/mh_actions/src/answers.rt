//! What an object answers to an action that asks.
ghost use Rattle.std.specs.Prelude.{◌≡◌, IfOk};
ghost use Rattle.std.specs.Option.{option_copied};
ghost use Rattle.mh_model.specs.Bodies.{text_of};
ghost use Rattle.mh_model.specs.Looks.{label_of};
ghost use Rattle.mh_model.specs.Saying as spec;

use crate::few::Few;
use crate::items::{cell_told, item_told, status_told};
use crate::variables::fits;
use mh_base::{Octets, Value};
use mh_group::{ActionName, Attribute};
use mh_model::held::as_pair;
use mh_model::{Held, Object};
use mh_widgets::counts::counted;
use std::alloc::{AllocError, Global};

/// What the object answers to the action, in the order of the receivers; none answers nothing. Only a
/// text or a label that is not there takes memory.
pub fn answers(
    alloc: Global,
    name: ActionName,
    values: &[Value],
    found: Option<&Object>,
) -> Result<Few<Value>, AllocError>
    ensures { IfOk result (λ told. told ≡ spec.answers_at name values.now (option_copied found.entry)) }
{
    let Some(object) = found else {
        return Ok(Few::none());
    };
    match name {
        ActionName::GetAvailabilityStatus => Ok(Few::one(Value::Bool(object.body.available))),
        ActionName::GetRunningStatus => Ok(Few::one(Value::Bool(object.body.running))),
        ActionName::GetPosition => Ok(both(as_pair(object.read(Attribute::OrigPosition)))),
        ActionName::GetBoxSize => Ok(both(as_pair(object.read(Attribute::OrigBoxSize)))),
        ActionName::GetTextData => text_told(alloc, object),
        ActionName::GetHighlightStatus => Ok(Few::one(Value::Bool(object.body.highlighted))),
        ActionName::GetEntryPoint => Ok(Few::one(Value::Int(counted(object.body.point)))),
        ActionName::GetLabel => label_told(alloc, object),
        ActionName::GetTokenPosition => Ok(Few::one(Value::Int(counted(object.body.token)))),
        ActionName::GetFirstItem => Ok(Few::one(Value::Int(counted(object.body.list.first())))),
        ActionName::GetListSize => {
            let items = object.body.list.entries().len();
            Ok(Few::one(Value::Int(counted(items))))
        }
        ActionName::GetItemStatus => Ok(status_told(values, object)),
        ActionName::GetListItem => item_told(values, object),
        ActionName::GetCellItem => cell_told(values, object),
        _ => Ok(Few::none()),
    }
}

/// The text that was loaded, or an empty one.
fn text_told(alloc: Global, object: &Object) -> Result<Few<Value>, AllocError>
    ensures { IfOk result (λ told. told ≡ spec.octets_answered (text_of object.now.body)) }
{
    match &object.body.text {
        Some(text) => octets_told(text),
        None => octets_told(&Octets::from_slice(alloc, &[])?),
    }
}

/// The label of a push button, or an empty one.
fn label_told(alloc: Global, object: &Object) -> Result<Few<Value>, AllocError>
    ensures { IfOk result (λ told. told ≡ spec.octets_answered (label_of object.now.fixed object.now.body)) }
{
    match object.read(Attribute::OrigLabel) {
        Some(Held::Value(Value::Octets(label))) => octets_told(label),
        _ => octets_told(&Octets::from_slice(alloc, &[])?),
    }
}

/// Octets, unless they are too many for one string.
fn octets_told(octets: &Octets) -> Result<Few<Value>, AllocError>
    ensures { IfOk result (λ told. told ≡ spec.octets_answered octets.now) }
{
    if !fits(octets.as_slice()) {
        return Ok(Few::none());
    }
    Ok(Few::one(Value::Octets(octets.clone()?)))
}

fn both(pair: (i32, i32)) -> Few<Value>
    ensures { result ≡ spec.both pair }
{
    Few::two(Value::Int(pair.0), Value::Int(pair.1))
}
