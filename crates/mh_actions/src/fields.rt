//! What an action makes of an entry field or a push button.
ghost use Rattle.std.specs.Prelude.{◌≡◌, IfOk};
ghost use Rattle.mh_model.specs.declared.object.Body.{Body as BodyValue};
ghost use Rattle.mh_model.specs.declared.object.Fixed.{Fixed as FixedValue};
ghost use Rattle.mh_model.specs.Bodies.{changed_by, put, pointed};
ghost use Rattle.mh_base.specs.declared.value.Value.TheVariants as value;
ghost use Rattle.mh_group.specs.declared.attribute.Attribute.TheVariants as attribute;
ghost use Rattle.mh_model.specs.declared.held.Held.TheVariants as held;
ghost use Rattle.mh_model.specs.Edits.{edited, edited_if};

use crate::variables::fits;
use mh_base::{Octets, Value};
use mh_group::{ActionName, Attribute};
use mh_model::{Edit, Held, Object};
use std::alloc::AllocError;

/// The entry point of a field goes within its text (ISO/IEC 13522-5, SetEntryPoint).
pub(crate) fn with_point(object: &Object, values: &[Value]) -> Option<Edit>
    ensures { edited_if result object.now.fixed object.now.body
        ≡ changed_by ActionName.SetEntryPoint values.now object.now.fixed object.now.body }
{
    match values {
        [Value::Int(point)] => pointed(object, *point),
        _ => None,
    }
}

fn pointed(object: &Object, point: i32) -> Option<Edit>
    ensures { edited_if result object.now.fixed object.now.body ≡ pointed point object.now.body }
{
    if point < 0 {
        return None;
    }
    let point = point.unsigned_abs() as usize;
    if point <= object.text().len() {
        Some(Edit::Point(point))
    } else {
        None
    }
}

/// Whether what is typed replaces what stands there (ISO/IEC 13522-5, SetOverwriteMode).
pub(crate) fn with_mode(values: &[Value]) -> Option<Edit>
    ensures { (p : FixedValue) (b : BodyValue) → edited_if result p b
        ≡ changed_by ActionName.SetOverwriteMode values.now p b }
{
    match values {
        [Value::Bool(on)] => Some(Edit::Overwrite(*on)),
        _ => None,
    }
}

/// A push button gets another label (ISO/IEC 13522-5, SetLabel), unless that is too long.
pub(crate) fn with_label(values: &[Value]) -> Result<Option<Edit>, AllocError>
    ensures { (p : FixedValue) (b : BodyValue) → IfOk result (λ edit. edited_if edit p b
        ≡ changed_by ActionName.SetLabel values.now p b) }
{
    match values {
        [Value::Octets(label)] if fits(label.as_slice()) => Ok(Some(labelled(label)?)),
        _ => Ok(None),
    }
}

fn labelled(label: &Octets) -> Result<Edit, AllocError>
    ensures { (p : FixedValue) (b : BodyValue) → IfOk result (λ edit. edited edit p b
        ≡ put attribute.OrigLabel (held.Value (value.Octets label.now)) b) }
{
    let held = Held::Value(Value::Octets(label.clone()?));
    Ok(Edit::Put(Attribute::OrigLabel, held))
}
