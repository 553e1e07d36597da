//! A test of a variable that is there: it is found once, judged by what was found, and its event is put at once.
ghost use Rattle.std.specs.Prelude.{◌≡◌, ◌+◌, ◌<◌, ◌^◌, true, false, IfOk, IfSome, OnErr};
ghost use Rattle.mh_machine.specs.Rest.{IsMade};
ghost use Rattle.mh_machine.specs.Tests.{IsFirstTest, is_tested, test_act};

use crate::plan::acting::MOST_PUT;
use crate::works::Works;
use mh_actions::putting::tested;
use mh_base::{ObjRef, Value};
use mh_group::{ActionName, Class};
use mh_model::kinds::{is_operator, kind_of, same_kind, variable_kind};
use mh_model::{Act, Argument, Operator, Target};
use mh_work::Put;
use std::alloc::AllocError;

impl Works {
    /// Makes a step, if the first item is a test that is written with its target and its value, of a variable that is
    /// there and can be tested so. Whether it did.
    #[inline(always)]
    pub(crate) fn test_first(&mut self) -> Result<bool, AllocError>
        requires room { self.old.state.taken + 1 < 2 ^ 64 }
        requires runs { self.old.state.ended ≡ false }
        ensures made { IfOk result (λ made. made ≡ true → IsMade self.old.state self.new.state) }
        ensures same { IfOk result (λ made. made ≡ false → self.new ≡ self.old) }
        ensures kept { OnErr result (self.new.state ≡ self.old.state) }
    {
        let Some(put) = self.first_test()? else {
            return Ok(false);
        };
        let room = self.work.reserve(MOST_PUT);
        let put = room.and(Ok(put))?;
        self.work.put_by_act(put);
        self.taken += 1;
        Ok(true)
    }

    /// What the first item puts, if it is such a test.
    #[inline(always)]
    fn first_test(&self) -> Result<Option<Put>, AllocError>
        ensures { IfOk result (IsFirstTest self.now.state) }
    {
        let Some(act) = self.work.first_act() else {
            return Ok(None);
        };
        let Some((at, number, value)) = test_in(act) else {
            return Ok(None);
        };
        match self.stage.objects().get(at) {
            Some(object) if is_tested(object.fixed.get().class, *number, value) => {
                let operator = Operator::of_number(*number);
                Ok(Some(tested(at, operator, object.value(), value)?))
            }
            _ => Ok(None),
        }
    }
}

/// The target, the operator's number and the value, where the action is a test that is written with them.
fn test_in(act: &Act) -> Option<(&ObjRef, &i32, &Value)>
    ensures { IfSome result (λ test. act.now ≡ test_act test.0.now test.1.now test.2.now) }
{
    let (ActionName::TestVariable, Target::Direct(at)) = (act.name, &act.target) else {
        return None;
    };
    match act.arguments.as_slice() {
        [
            Argument::Direct(Value::Int(number)),
            Argument::Direct(value),
        ] => Some((at, number, value)),
        _ => None,
    }
}

/// Whether variables of the class hold values of this one's kind, and have the operator with this number.
fn is_tested(class: Class, number: i32, value: &Value) -> bool
    ensures { result ≡ is_tested class number value.now }
{
    match variable_kind(class) {
        Some(kind) => same_kind(kind, kind_of(value)) && is_operator(kind, number),
        None => false,
    }
}
