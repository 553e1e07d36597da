//! Variables: what one holds, and what each action that sets or changes one makes of it. A sum
//! takes no memory. What is out of range, or too long, leaves the variable as it is.
ghost use Rattle.std.specs.Prelude.{◌≡◌, ◌++◌, ◌+ℤ◌, ◌-ℤ◌, ◌*ℤ◌, int_div, int_rem, IfOk};
ghost use Rattle.mh_model.specs.declared.object.Body.{Body as BodyValue};
ghost use Rattle.mh_model.specs.declared.object.Fixed.{Fixed as FixedValue};
ghost use Rattle.mh_model.specs.Bodies as spec;
ghost use Rattle.mh_model.specs.Bodies.{given_number, number_of as held_of};
ghost use Rattle.mh_model.specs.Bodies.{given_octets, octets_of as held_octets};
ghost use Rattle.mh_model.specs.Variables.{converted, fits_octets};
ghost use Rattle.mh_model.specs.Edits.{edited_if};

use crate::numerals::{decimal, number_in};
use mh_base::{Octets, Value};
use mh_group::Class;
use mh_model::{Edit, Object};
use std::alloc::{AllocError, Global};

/// The most octets of one string.
const MOST_OCTETS: usize = 65535;

/// The octets are not too many for one string.
pub fn fits(octets: &[u8]) -> bool
    ensures { result ≡ fits_octets octets.now }
{
    octets.len() <= MOST_OCTETS
}

/// The number that a variable holds, or 0.
fn number_of(object: &Object) -> i32
    ensures { result ≡ spec.number_of object.now.fixed object.now.body }
{
    match object.value() {
        Some(Value::Int(number)) => *number,
        _ => 0,
    }
}

/// The octets that a variable holds, or none.
fn octets_of(object: &Object) -> &[u8]
    ensures { result.now ≡ spec.octets_of object.now.fixed object.now.body }
{
    match object.value() {
        Some(Value::Octets(octets)) => octets.as_slice(),
        _ => &[],
    }
}

/// The sum of what the variable holds and the term.
pub fn added(object: &Object, term: i32) -> Option<Edit>
    ensures { edited_if result object.now.fixed object.now.body
        ≡ given_number (held_of object.now.fixed object.now.body +ℤ term) object.now.body }
{
    match number_of(object).checked_add(term) {
        Some(sum) => Some(Edit::Give(Value::Int(sum))),
        None => None,
    }
}

/// What the variable holds less the term.
pub fn subtracted(object: &Object, term: i32) -> Option<Edit>
    ensures { edited_if result object.now.fixed object.now.body
        ≡ given_number (held_of object.now.fixed object.now.body -ℤ term) object.now.body }
{
    match number_of(object).checked_sub(term) {
        Some(rest) => Some(Edit::Give(Value::Int(rest))),
        None => None,
    }
}

/// The product of what the variable holds and the factor.
pub fn multiplied(object: &Object, factor: i32) -> Option<Edit>
    ensures { edited_if result object.now.fixed object.now.body
        ≡ given_number (held_of object.now.fixed object.now.body *ℤ factor) object.now.body }
{
    match number_of(object).checked_mul(factor) {
        Some(product) => Some(Edit::Give(Value::Int(product))),
        None => None,
    }
}

/// The quotient, rounded towards zero. A zero divisor leaves the variable as it is.
pub fn divided(object: &Object, divisor: i32) -> Option<Edit>
    ensures { edited_if result object.now.fixed object.now.body
        ≡ spec.divided int_div (held_of object.now.fixed object.now.body) divisor object.now.body }
{
    match number_of(object).checked_div(divisor) {
        Some(quotient) => Some(Edit::Give(Value::Int(quotient))),
        None => None,
    }
}

/// What the division leaves, with the sign of the number that is divided. A zero divisor leaves the
/// variable as it is; the least number divided by -1 leaves 0, though its quotient is out of range.
pub fn left_over(object: &Object, divisor: i32) -> Option<Edit>
    ensures { edited_if result object.now.fixed object.now.body
        ≡ spec.divided int_rem (held_of object.now.fixed object.now.body) divisor object.now.body }
{
    if divisor == 0 {
        return None;
    }
    let rest = number_of(object).wrapping_rem(divisor);
    Some(Edit::Give(Value::Int(rest)))
}

/// What the variable holds with these octets behind it.
pub fn appended(alloc: Global, object: &Object, more: &[u8]) -> Result<Option<Edit>, AllocError>
    ensures { IfOk result (λ edit. edited_if edit object.now.fixed object.now.body
        ≡ given_octets (held_octets object.now.fixed object.now.body ++ more.now) object.now.body) }
{
    let held = octets_of(object);
    let length = held.len() + more.len();
    if length > MOST_OCTETS {
        return Ok(None);
    }
    let mut octets = Vec::with_capacity(alloc, length)?;
    octets.extend_from_slice(held)?;
    octets.extend_from_slice(more)?;
    let octets = Octets::from_vec(alloc, octets)?;
    Ok(Some(Edit::Give(Value::Octets(octets))))
}

/// The value as a variable of the class holds it: numbers and octets are written as each other.
fn converted(alloc: Global, class: Class, value: &Value) -> Result<Value, AllocError>
    ensures { IfOk result (λ held. held ≡ converted class value.now) }
{
    match (class, value) {
        (Class::OStringVar, Value::Int(number)) => Ok(Value::Octets(decimal(alloc, *number)?)),
        (Class::IntegerVar, Value::Octets(octets)) => Ok(Value::Int(number_in(octets.as_slice()))),
        _ => value.clone(),
    }
}

/// Whether a variable can hold the value: octets may be too long for it, no other value is.
pub fn fits_value(value: &Value) -> bool
    ensures { result ≡ spec.fits_value value.now }
{
    match value {
        Value::Octets(octets) => fits(octets.as_slice()),
        _ => true,
    }
}

/// The value itself. What is too long leaves the variable as it is.
fn stored(value: Value) -> Option<Edit>
    ensures { (p : FixedValue) (b : BodyValue) → edited_if result p b ≡ spec.stored value b }
{
    if fits_value(&value) {
        Some(Edit::Give(value))
    } else {
        None
    }
}

/// The value, as the variable holds it.
pub fn set(alloc: Global, object: &Object, value: &Value) -> Result<Option<Edit>, AllocError>
    ensures { IfOk result (λ edit. edited_if edit object.now.fixed object.now.body
        ≡ spec.stored (converted object.now.fixed.class value.now) object.now.body) }
{
    let value = converted(alloc, object.fixed.get().class, value)?;
    Ok(stored(value))
}
