//! A sum of a number that is there: it is found once, judged by what was found, and done in place.
ghost use Rattle.std.specs.Prelude.{◌≡◌, ◌+◌, ◌<◌, ◌^◌, true, false, Some, IfSome};
ghost use Rattle.std.specs.Option.{option_copied};
ghost use Rattle.mh_group.specs.declared.action_name.ActionName.TheVariants as action;
ghost use Rattle.mh_group.specs.declared.class.Class.TheVariants as class;
ghost use Rattle.mh_model.specs.Bodies.{number_of as held_of};
ghost use Rattle.mh_machine.specs.ByClass.{sum_act};
ghost use Rattle.mh_machine.specs.Rest.{IsMade};
ghost use Rattle.mh_machine.specs.Sums.{Becomes, IsSum};

use crate::works::Works;
use mh_base::{ObjRef, Value};
use mh_group::{ActionName, Class};
use mh_model::{Act, Argument, Object, Target};

/// What comes of a sum.
#[derive(Drop)]
pub(crate) enum Sum {
    /// It is none, or not one of a number that is there.
    Other,
    /// It is out of range.
    Stays,
    Comes(Value),
}

impl Works {
    /// Makes a step, if the first item is a sum of a number that is there, written with its target and its term. Whether
    /// it did.
    #[inline(always)]
    pub(crate) fn sum_first(&mut self) -> bool
        requires room { self.old.state.taken + 1 < 2 ^ 64 }
        requires runs { self.old.state.ended ≡ false }
        ensures made { result ≡ true → IsMade self.old.state self.new.state }
        ensures same { result ≡ false → self.new ≡ self.old }
    {
        let Some(act) = self.work.first_act() else {
            return false;
        };
        let Some((at, name, term)) = sum_in(act) else {
            return false;
        };
        match sum_of(self.stage.objects().get(at), name, *term) {
            Sum::Other => false,
            Sum::Stays => {
                self.pass();
                true
            }
            Sum::Comes(value) => {
                self.stage.give(at, value);
                self.pass();
                true
            }
        }
    }
}

/// The target, the name and the number, where the action has one argument and both are written.
#[inline(always)]
fn sum_in(act: &Act) -> Option<(&ObjRef, ActionName, &i32)>
    ensures { IfSome result (λ sum. act.now ≡ sum_act sum.1 sum.0.now sum.2.now) }
{
    let Target::Direct(at) = &act.target else {
        return None;
    };
    match act.arguments.as_slice() {
        [Argument::Direct(Value::Int(term))] => Some((at, act.name, term)),
        _ => None,
    }
}

/// What comes of the sum of what was found.
#[inline(always)]
fn sum_of(found: Option<&Object>, name: ActionName, term: i32) -> Sum
    ensures { IsSum name term (option_copied found.entry) result }
{
    match found {
        Some(object) => sum_with(object, name, term),
        None => Sum::Other,
    }
}

#[inline(always)]
fn sum_with(object: &Object, name: ActionName, term: i32) -> Sum
    ensures { IsSum name term (Some object.now) result }
{
    if !is_number(object) {
        return Sum::Other;
    }
    match name {
        ActionName::Add => added(object, term),
        ActionName::Subtract => subtracted(object, term),
        ActionName::Multiply => multiplied(object, term),
        _ => Sum::Other,
    }
}

#[inline(always)]
fn is_number(object: &Object) -> bool
    ensures { result ≡ true → object.now.fixed.class ≡ class.IntegerVar }
{
    matches!(object.fixed.get().class, Class::IntegerVar)
}

/// The number that a variable holds, or 0.
#[inline(always)]
fn number_of(object: &Object) -> i32
    ensures { result ≡ held_of object.now.fixed object.now.body }
{
    match object.value() {
        Some(Value::Int(number)) => *number,
        _ => 0,
    }
}

#[inline(always)]
fn added(object: &Object, term: i32) -> Sum
    ensures { Becomes action.Add term object.now result }
{
    match number_of(object).checked_add(term) {
        Some(sum) => Sum::Comes(Value::Int(sum)),
        None => Sum::Stays,
    }
}

fn subtracted(object: &Object, term: i32) -> Sum
    ensures { Becomes action.Subtract term object.now result }
{
    match number_of(object).checked_sub(term) {
        Some(rest) => Sum::Comes(Value::Int(rest)),
        None => Sum::Stays,
    }
}

fn multiplied(object: &Object, term: i32) -> Sum
    ensures { Becomes action.Multiply term object.now result }
{
    match number_of(object).checked_mul(term) {
        Some(product) => Sum::Comes(Value::Int(product)),
        None => Sum::Stays,
    }
}
