//! Which parameter of an action is of another kind than is needed.
ghost use Rattle.std.specs.Prelude.{◌≡◌, length};
ghost use Rattle.mh_model.specs.Faults.{is_test, needs_behind};
ghost use Rattle.mh_cause.specs.Misfits.{answer_held, argument_misfit, arguments_misfit, given, given_to, operator, operator_at, operator_for, operator_held, passed_misfit, plain_held, receiver_misfit, through_misfit, typed_misfit, value_held, written_held, written_misfit};

use crate::misfit::{Misfit, Setting};
use crate::passing::{Passing, holds, passes, passing_of};
use mh_base::{Kind, ObjRef, Value};
use mh_group::{ActionName, Class, Need};
use mh_model::Argument;
use mh_model::kinds::{is_operator, kind_of, variable_kind};
use mh_model::parts::same_ref;

/// The first of the parameters that is of another kind.
pub(crate) fn arguments_misfit(
    setting: Setting,
    at: &ObjRef,
    needs: &[Need],
    arguments: &[Argument],
) -> Option<Misfit>
    ensures { result ≡ arguments_misfit setting at.now (length arguments.now) needs.now arguments.now }
{
    let mut needs = needs;
    let mut left = arguments;
    while let Some((need, others)) = needs.split_first() {
        let Some((argument, behind)) = left.split_first() else {
            return None;
        };
        let number = arguments.len().saturating_sub(behind.len());
        if let Some(misfit) = argument_misfit(setting, at, number, *need, argument) {
            return Some(misfit);
        }
        needs = needs_behind(*need, others);
        left = behind;
    }
    None
}

/// What is needed behind this.
fn needs_behind(need: Need, needs: &[Need]) -> &[Need]
    ensures { result.now ≡ needs_behind need needs.now }
{
    match need {
        Need::Arguments => &[Need::Arguments],
        _ => needs,
    }
}

fn argument_misfit(
    setting: Setting,
    at: &ObjRef,
    number: usize,
    need: Need,
    argument: &Argument,
) -> Option<Misfit>
    ensures { result ≡ argument_misfit setting at.now number need argument.now }
{
    match argument {
        Argument::Direct(value) => written_misfit(setting, number, need, value),
        Argument::Through(variable, kind) if same_ref(variable, at) => {
            through_misfit(setting, number, need, *kind)
        }
        Argument::Receiver(variable) if same_ref(variable, at) => {
            receiver_misfit(setting, number, need)
        }
        _ => None,
    }
}

/// A value that is written.
fn written_misfit(setting: Setting, number: usize, need: Need, value: &Value) -> Option<Misfit>
    ensures { result ≡ written_misfit setting number need value.now }
{
    match (need, value) {
        (Need::Typed, _) => given(setting.action, number, kind_of(value), setting.reached),
        (Need::Int, Value::Int(written)) => operator(setting, number, *written),
        _ => None,
    }
}

/// A value of this kind for a target of the class.
fn given(action: ActionName, number: usize, kind: Kind, class: Option<Class>) -> Option<Misfit>
    ensures { result ≡ given action number kind class }
{
    match class {
        Some(class) => given_to(action, number, kind, class, variable_kind(class)),
        None => None,
    }
}

fn given_to(
    action: ActionName,
    number: usize,
    kind: Kind,
    class: Class,
    to: Option<Kind>,
) -> Option<Misfit>
    ensures { result ≡ given_to action number kind class to }
{
    match to {
        Some(to) if !passes(Passing::GoesWith(action, to), kind) => {
            Some(Misfit::Given(number, class, to, kind))
        }
        _ => None,
    }
}

fn operator(setting: Setting, number: usize, written: i32) -> Option<Misfit>
    ensures { result ≡ operator setting number written }
{
    if is_test(setting.action) {
        operator_at(number, written, setting.reached)
    } else {
        None
    }
}

pub(crate) fn is_test(action: ActionName) -> bool
    ensures { result ≡ is_test action }
{
    matches!(action, ActionName::TestVariable)
}

fn operator_at(number: usize, written: i32, class: Option<Class>) -> Option<Misfit>
    ensures { result ≡ operator_at number written class }
{
    match class {
        Some(class) => operator_for(number, written, variable_kind(class)),
        None => None,
    }
}

fn operator_for(number: usize, written: i32, to: Option<Kind>) -> Option<Misfit>
    ensures { result ≡ operator_for number written to }
{
    match to {
        Some(to) if !is_operator(to, written) => Some(Misfit::Operator(number, to, written)),
        _ => None,
    }
}

/// A variable that holds the value.
fn through_misfit(setting: Setting, number: usize, need: Need, kind: Option<Kind>) -> Option<Misfit>
    ensures { result ≡ through_misfit setting number need kind }
{
    match need {
        Need::Typed => typed_misfit(setting, number, kind),
        Need::Arguments => passed_misfit(setting, number, kind),
        Need::Int => match value_held(setting, number, Passing::Only(Kind::Int)) {
            Some(misfit) => Some(misfit),
            None => operator_held(setting.action, number),
        },
        _ => plain_held(setting, number, passing_of(need)),
    }
}

fn typed_misfit(setting: Setting, number: usize, kind: Option<Kind>) -> Option<Misfit>
    ensures { result ≡ typed_misfit setting number kind }
{
    let kind = kind?;
    match written_held(setting, number, kind) {
        Some(misfit) => Some(misfit),
        None => given(setting.action, number, kind, setting.direct),
    }
}

fn passed_misfit(setting: Setting, number: usize, kind: Option<Kind>) -> Option<Misfit>
    ensures { result ≡ passed_misfit setting number kind }
{
    match kind {
        Some(kind) => written_held(setting, number, kind),
        None => None,
    }
}

fn operator_held(action: ActionName, number: usize) -> Option<Misfit>
    ensures { result ≡ operator_held action number }
{
    if is_test(action) {
        Some(Misfit::OperatorHeld(number))
    } else {
        None
    }
}

fn plain_held(setting: Setting, number: usize, passing: Option<Passing>) -> Option<Misfit>
    ensures { result ≡ plain_held setting number passing }
{
    match passing {
        Some(passing) => value_held(setting, number, passing),
        None => None,
    }
}

fn value_held(setting: Setting, number: usize, passing: Passing) -> Option<Misfit>
    ensures { result ≡ value_held setting number passing }
{
    if holds(passing, setting.class) {
        None
    } else {
        Some(Misfit::Value(number, passing, setting.class))
    }
}

fn written_held(setting: Setting, number: usize, kind: Kind) -> Option<Misfit>
    ensures { result ≡ written_held setting number kind }
{
    if holds(Passing::Only(kind), setting.class) {
        None
    } else {
        Some(Misfit::Written(number, kind, setting.class))
    }
}

fn answer_held(setting: Setting, number: usize, kind: Kind) -> Option<Misfit>
    ensures { result ≡ answer_held setting number kind }
{
    if holds(Passing::Only(kind), setting.class) {
        None
    } else {
        Some(Misfit::Answer(number, kind, setting.class))
    }
}

fn receiver_misfit(setting: Setting, number: usize, need: Need) -> Option<Misfit>
    ensures { result ≡ receiver_misfit setting number need }
{
    match need {
        Need::Receiver(kind) => answer_held(setting, number, kind),
        _ => None,
    }
}
