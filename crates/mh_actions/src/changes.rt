//! What an action makes of the object that it is done to.
ghost use Rattle.std.specs.Prelude.{◌≡◌, ◌∷◌, [], IfOk};
ghost use Rattle.std.specs.List.{cons_option};
ghost use Rattle.std.specs.Option.{option_copied};
ghost use Rattle.mh_model.specs.declared.object.Body.{Body as BodyValue};
ghost use Rattle.mh_model.specs.declared.object.Fixed.{Fixed as FixedValue};
ghost use Rattle.mh_model.specs.Arguments as spec;
ghost use Rattle.mh_model.specs.Bodies.{changed_by};
ghost use Rattle.mh_model.specs.Edits.{edited_if};
ghost use Rattle.mh_model.specs.State.{all};

use crate::arguments::{value_in, values};
use crate::fields::{with_label, with_mode, with_point};
use crate::looks::{coloured, drawn, lined, sized};
use crate::variables::{added, appended, divided, left_over, multiplied, set, subtracted};
use mh_base::Value;
use mh_group::{ActionName, Attribute};
use mh_model::{Argument, Edit, Figure, Held, Object};
use mh_store::Objects;
use std::alloc::{AllocError, Global};
use std::slice;

/// What the action changes of the object, if it changes anything. A sum takes no memory.
pub fn edit_by(
    alloc: Global,
    name: ActionName,
    values: &[Value],
    object: &Object,
) -> Result<Option<Edit>, AllocError>
    ensures { IfOk result (λ edit. edited_if edit object.now.fixed object.now.body
        ≡ changed_by name values.now object.now.fixed object.now.body) }
{
    match (name, values) {
        // Two values never get past this arm, so an action that takes two has its own there.
        (_, [first, second]) => Ok(edit_by_two(name, first, second)),
        (ActionName::SetVariable, [value]) => set(alloc, object, value),
        (ActionName::Add, [Value::Int(term)]) => Ok(added(object, *term)),
        (ActionName::Subtract, [Value::Int(term)]) => Ok(subtracted(object, *term)),
        (ActionName::Multiply, [Value::Int(factor)]) => Ok(multiplied(object, *factor)),
        (ActionName::Divide, [Value::Int(divisor)]) => Ok(divided(object, *divisor)),
        (ActionName::Modulo, [Value::Int(divisor)]) => Ok(left_over(object, *divisor)),
        (ActionName::Append, [Value::Octets(more)]) => appended(alloc, object, more.as_slice()),
        (ActionName::SetFillColour, _) => Ok(with_fill_colour(values)),
        (ActionName::SetLineColour, _) => Ok(with_line_colour(values)),
        (ActionName::SetTextColour, _) => Ok(with_text_colour(values)),
        (ActionName::SetLineWidth, _) => Ok(with_line_width(values)),
        (ActionName::SetInputRegister, _) => Ok(with_register(values)),
        (ActionName::SetEntryPoint, _) => Ok(with_point(object, values)),
        (ActionName::SetOverwriteMode, _) => Ok(with_mode(values)),
        (ActionName::SetLabel, _) => with_label(values),
        (ActionName::Clear, _) => Ok(Some(Edit::Clear)),
        (ActionName::DrawLine, _) => Ok(with_line(object, values)),
        (ActionName::DrawRectangle, _) => Ok(with_rectangle(object, values)),
        _ => Ok(None),
    }
}

/// What the action changes of the object with these two values, if it changes anything.
fn edit_by_two(name: ActionName, first: &Value, second: &Value) -> Option<Edit>
    ensures { (p : FixedValue) (b : BodyValue) → edited_if result p b
        ≡ changed_by name (first.now ∷ second.now ∷ []) p b }
{
    match (name, first, second) {
        (ActionName::SetPosition, Value::Int(x), Value::Int(y)) => {
            Some(Edit::Put(Attribute::OrigPosition, Held::Pair(*x, *y)))
        }
        (ActionName::SetBoxSize, Value::Int(width), Value::Int(height)) => sized(*width, *height),
        (ActionName::Clear, _, _) => Some(Edit::Clear),
        _ => None,
    }
}

/// The same for the values of these arguments. One or two are not copied.
pub fn edit_with(
    alloc: Global,
    objects: &Objects,
    name: ActionName,
    arguments: &[Argument],
    object: &Object,
) -> Result<Option<Edit>, AllocError>
    ensures { let values = spec.values (all objects.now) arguments.now in
        IfOk result (λ edit. edited_if edit object.now.fixed object.now.body
        ≡ changed_by name values object.now.fixed object.now.body) }
{
    match arguments {
        [argument] => edit_with_one(alloc, name, value_in(objects, argument), object),
        [first, second] => {
            let first = value_in(objects, first);
            edit_with_two(alloc, name, first, value_in(objects, second), object)
        }
        _ => {
            let values = values(alloc, objects, arguments)?;
            edit_by(alloc, name, values.as_slice(), object)
        }
    }
}

fn edit_with_one(
    alloc: Global,
    name: ActionName,
    value: Option<&Value>,
    object: &Object,
) -> Result<Option<Edit>, AllocError>
    ensures { let values = cons_option (option_copied value.entry) [] in
        IfOk result (λ edit. edited_if edit object.now.fixed object.now.body
        ≡ changed_by name values object.now.fixed object.now.body) }
{
    match value {
        Some(value) => edit_by(alloc, name, slice::from_ref(value), object),
        None => edit_by(alloc, name, &[], object),
    }
}

fn edit_with_two(
    alloc: Global,
    name: ActionName,
    first: Option<&Value>,
    second: Option<&Value>,
    object: &Object,
) -> Result<Option<Edit>, AllocError>
    ensures { let behind = cons_option (option_copied second.entry) [] in
        IfOk result (λ edit. edited_if edit object.now.fixed object.now.body
        ≡ changed_by name (cons_option (option_copied first.entry) behind)
        object.now.fixed object.now.body) }
{
    match (first, second) {
        (Some(first), Some(second)) => Ok(edit_by_two(name, first, second)),
        (None, second) => edit_with_one(alloc, name, second, object),
        (first, None) => edit_with_one(alloc, name, first, object),
    }
}

fn with_fill_colour(values: &[Value]) -> Option<Edit>
    ensures { (p : FixedValue) (b : BodyValue) → edited_if result p b
        ≡ changed_by ActionName.SetFillColour values.now p b }
{
    match values {
        [Value::Octets(octets)] => coloured(Attribute::OrigRefFillColour, octets.as_slice()),
        _ => None,
    }
}

fn with_line_colour(values: &[Value]) -> Option<Edit>
    ensures { (p : FixedValue) (b : BodyValue) → edited_if result p b
        ≡ changed_by ActionName.SetLineColour values.now p b }
{
    match values {
        [Value::Octets(octets)] => coloured(Attribute::OrigRefLineColour, octets.as_slice()),
        _ => None,
    }
}

fn with_text_colour(values: &[Value]) -> Option<Edit>
    ensures { (p : FixedValue) (b : BodyValue) → edited_if result p b
        ≡ changed_by ActionName.SetTextColour values.now p b }
{
    match values {
        [Value::Octets(octets)] => coloured(Attribute::TextColour, octets.as_slice()),
        _ => None,
    }
}

fn with_line_width(values: &[Value]) -> Option<Edit>
    ensures { (p : FixedValue) (b : BodyValue) → edited_if result p b
        ≡ changed_by ActionName.SetLineWidth values.now p b }
{
    match values {
        [Value::Int(width)] => lined(*width),
        _ => None,
    }
}

fn with_register(values: &[Value]) -> Option<Edit>
    ensures { (p : FixedValue) (b : BodyValue) → edited_if result p b
        ≡ changed_by ActionName.SetInputRegister values.now p b }
{
    match values {
        [Value::Int(register)] => {
            let held = Held::Value(Value::Int(*register));
            Some(Edit::Put(Attribute::InputEventReg, held))
        }
        _ => None,
    }
}

fn with_line(object: &Object, values: &[Value]) -> Option<Edit>
    ensures { edited_if result object.now.fixed object.now.body
        ≡ changed_by ActionName.DrawLine values.now object.now.fixed object.now.body }
{
    match values {
        [Value::Int(x), Value::Int(y), Value::Int(u), Value::Int(v)] => {
            drawn(object, Figure::Line, (*x, *y), (*u, *v))
        },
        _ => None,
    }
}

fn with_rectangle(object: &Object, values: &[Value]) -> Option<Edit>
    ensures { edited_if result object.now.fixed object.now.body
        ≡ changed_by ActionName.DrawRectangle values.now object.now.fixed object.now.body }
{
    match values {
        [Value::Int(x), Value::Int(y), Value::Int(u), Value::Int(v)] => {
            drawn(object, Figure::Rectangle, (*x, *y), (*u, *v))
        },
        _ => None,
    }
}
