//! Kinds of values: which a variable holds, which go with which, and how two values are compared.
ghost use Rattle.std.specs.Prelude.{◌≡◌};
ghost use Rattle.mh_model.specs.Variables as spec;

use crate::Operator;
use crate::parts::same_ref;
use mh_base::{Kind, Value};
use mh_group::Class;

/// The kind of the values that a variable of the class holds; other objects hold none.
pub fn variable_kind(class: Class) -> Option<Kind>
    ensures { result ≡ spec.variable_kind class }
{
    Some(match class {
        Class::BooleanVar => Kind::Bool,
        Class::IntegerVar => Kind::Int,
        Class::OStringVar => Kind::Octets,
        Class::ObjectRefVar => Kind::Object,
        Class::ContentRefVar => Kind::Content,
        _ => return None,
    })
}

/// The kind of the value.
pub fn kind_of(value: &Value) -> Kind
    ensures { result ≡ spec.kind_of value.now }
{
    match value {
        Value::Bool(_) => Kind::Bool,
        Value::Int(_) => Kind::Int,
        Value::Octets(_) => Kind::Octets,
        Value::Object(_) => Kind::Object,
        Value::Content(_) => Kind::Content,
    }
}

/// Whether the kinds are the same.
pub fn same_kind(first: Kind, second: Kind) -> bool
    ensures { result ≡ spec.same_kind first second }
{
    first == second
}

/// Whether a variable of the one kind can be set to a value of the other.
pub fn converts(to: Kind, from: Kind) -> bool
    ensures { result ≡ spec.converts to from }
{
    match to {
        Kind::Int => matches!(from, Kind::Int | Kind::Octets),
        Kind::Octets => matches!(from, Kind::Int | Kind::Octets),
        _ => same_kind(to, from),
    }
}

/// Whether the test is defined for values of the kind: numbers have an order, others are the same
/// or not.
pub fn compares(kind: Kind, operator: Operator) -> bool
    ensures { result ≡ spec.compares kind operator }
{
    match operator {
        Operator::Equal | Operator::NotEqual => true,
        _ => matches!(kind, Kind::Int),
    }
}

/// Whether the number is that of a test which is defined for values of the kind.
pub fn is_operator(kind: Kind, number: i32) -> bool
    ensures { result ≡ spec.is_operator kind number }
{
    match Operator::of_number(number) {
        Some(operator) => compares(kind, operator),
        None => false,
    }
}

/// Whether the values are the same. Values of two kinds never are.
pub fn same_value(first: &Value, second: &Value) -> bool
    ensures { result ≡ spec.same_value first.now second.now }
{
    match (first, second) {
        (Value::Bool(a), Value::Bool(b)) => *a == *b,
        (Value::Int(a), Value::Int(b)) => *a == *b,
        (Value::Octets(a), Value::Octets(b)) => *a == *b,
        (Value::Object(a), Value::Object(b)) => same_ref(a, b),
        (Value::Content(a), Value::Content(b)) => *a == *b,
        _ => false,
    }
}

/// What the test says of the value that is held and the one that is given.
pub fn test(operator: Operator, held: &Value, given: &Value) -> bool
    ensures { result ≡ spec.test operator held.now given.now }
{
    match (held, given) {
        (Value::Int(held), Value::Int(given)) => test_numbers(operator, *held, *given),
        _ => match operator {
            Operator::Equal => same_value(held, given),
            Operator::NotEqual => !same_value(held, given),
            _ => false,
        },
    }
}

fn test_numbers(operator: Operator, held: i32, given: i32) -> bool
    ensures { result ≡ spec.test operator (Value.Int held) (Value.Int given) }
{
    match operator {
        Operator::Equal => held == given,
        Operator::NotEqual => held != given,
        Operator::Less => held < given,
        Operator::LessOrEqual => held <= given,
        Operator::Greater => held > given,
        Operator::GreaterOrEqual => held >= given,
    }
}
