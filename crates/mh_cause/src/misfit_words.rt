//! What is told of values and variables of another kind than is needed.
ghost use Rattle.std.specs.Prelude.{◌≡◌, ◌++◌, OnOk};
ghost use Rattle.mh_model.specs.Faults.{is_test};
ghost use Rattle.mh_cause.specs.MisfitWords.{answer_words, given_words, held_operator_words, misfit_cause, misfit_words, number_words, operator_words, preposition, sign_words, target_front, target_words, told_misfit, typed_words, value_words, verb};

use crate::judging::is_test;
use crate::lists::{kind_told, put_kinds, put_operators, put_with_article};
use crate::misfit::{Misfit, misfit_of};
use crate::naming::{put_named, put_parameter};
use crate::passing::Passing;
use crate::phrases::{
    A_REFERENCE_ONLY, IS_WHAT, ONLY_HERE, OPERATOR_HELD, TAKES_ANSWER, THE_TARGET_OF,
    WHICH_HOLDS_IT, WRITTEN_AS,
};
use crate::refused::Refused;
use mh_base::{Kind, ObjRef};
use mh_group::{ActionName, Class};
use mh_service::Service;
use mh_told::text::Text;
use std::alloc::AllocError;

#[tactic(auto, unfolding(crate::specs::MisfitWords::sign_words))]
fn put_sign(text: &mut Text, number: i32) -> Result<(), AllocError>
    ensures { OnOk result (text.new ≡ text.old ++ sign_words number) }
{
    if number < 0 { text.put(b"-") } else { Ok(()) }
}

#[tactic(auto, unfolding(crate::specs::MisfitWords::number_words))]
fn put_integer(text: &mut Text, number: i32) -> Result<(), AllocError>
    ensures { OnOk result (text.new ≡ text.old ++ number_words number) }
{
    put_sign(text, number)?;
    text.put_number(u64::from(number.unsigned_abs()))
}

#[tactic(auto, unfolding(crate::specs::MisfitWords::target_front))]
fn put_target_front(text: &mut Text, action: ActionName, at: &ObjRef) -> Result<(), AllocError>
    ensures { OnOk result (text.new ≡ text.old ++ target_front action at.now) }
{
    text.put(THE_TARGET_OF)?;
    text.put(action.word())?;
    text.put(IS_WHAT)?;
    put_named(text, at)
}

#[tactic(auto, unfolding(crate::specs::MisfitWords::target_words))]
fn put_target_words(
    text: &mut Text,
    action: ActionName,
    at: &ObjRef,
    class: Class,
) -> Result<(), AllocError>
    ensures { OnOk result (text.new ≡ text.old ++ target_words action at.now class) }
{
    put_target_front(text, action, at)?;
    text.put(A_REFERENCE_ONLY)?;
    put_with_article(text, class)
}

#[tactic(auto, unfolding(crate::specs::MisfitWords::value_words))]
fn put_value_words(
    text: &mut Text,
    action: ActionName,
    at: &ObjRef,
    number: usize,
    passing: Passing,
    class: Class,
) -> Result<(), AllocError>
    ensures { OnOk result (text.new ≡ text.old ++ value_words action at.now number passing class) }
{
    put_parameter(text, action, number)?;
    text.put(b" is ")?;
    put_kinds(text, passing)?;
    text.put(b", and ")?;
    put_named(text, at)?;
    text.put(WHICH_HOLDS_IT)?;
    put_with_article(text, class)
}

#[tactic(auto, unfolding(crate::specs::MisfitWords::answer_words))]
fn put_answer_words(
    text: &mut Text,
    action: ActionName,
    at: &ObjRef,
    number: usize,
    kind: Kind,
    class: Class,
) -> Result<(), AllocError>
    ensures { OnOk result (text.new ≡ text.old ++ answer_words action at.now number kind class) }
{
    put_parameter(text, action, number)?;
    text.put(TAKES_ANSWER)?;
    text.put(kind_told(kind))?;
    text.put(b", and ")?;
    put_named(text, at)?;
    text.put(b" is ")?;
    put_with_article(text, class)
}

#[tactic(auto, unfolding(crate::specs::MisfitWords::typed_words))]
fn put_typed_words(
    text: &mut Text,
    action: ActionName,
    at: &ObjRef,
    number: usize,
    kind: Kind,
    class: Class,
) -> Result<(), AllocError>
    ensures { OnOk result (text.new ≡ text.old ++ typed_words action at.now number kind class) }
{
    put_parameter(text, action, number)?;
    text.put(WRITTEN_AS)?;
    text.put(mh_group::kind_word(kind))?;
    text.put(b"`, and ")?;
    put_named(text, at)?;
    text.put(WHICH_HOLDS_IT)?;
    put_with_article(text, class)
}

/// What is done with a value.
fn verb(is_test: bool) -> &'static [u8]
    ensures { result.now ≡ verb is_test }
{
    if is_test { b" compares " } else { b" gives " }
}

fn preposition(is_test: bool) -> &'static [u8]
    ensures { result.now ≡ preposition is_test }
{
    if is_test { b" with " } else { b" " }
}

#[tactic(auto, unfolding(crate::specs::MisfitWords::given_words))]
fn put_given_words(
    text: &mut Text,
    action: ActionName,
    class: Class,
    to: Kind,
    kind: Kind,
) -> Result<(), AllocError>
    ensures { OnOk result (text.new ≡ text.old ++ given_words action class to kind) }
{
    text.put(action.word())?;
    text.put(verb(is_test(action)))?;
    put_with_article(text, class)?;
    text.put(preposition(is_test(action)))?;
    put_kinds(text, Passing::GoesWith(action, to))?;
    text.put(ONLY_HERE)?;
    text.put(kind_told(kind))
}

#[tactic(auto, unfolding(crate::specs::MisfitWords::operator_words))]
fn put_operator_words(
    text: &mut Text,
    action: ActionName,
    to: Kind,
    number: i32,
) -> Result<(), AllocError>
    ensures { OnOk result (text.new ≡ text.old ++ operator_words action to number) }
{
    text.put(action.word())?;
    text.put(b" compares ")?;
    text.put(kind_told(to))?;
    text.put(b" by ")?;
    put_operators(text, to)?;
    text.put(ONLY_HERE)?;
    put_integer(text, number)
}

#[tactic(auto, unfolding(crate::specs::MisfitWords::held_operator_words))]
fn put_held_operator_words(text: &mut Text, at: &ObjRef) -> Result<(), AllocError>
    ensures { OnOk result (text.new ≡ text.old ++ held_operator_words at.now) }
{
    text.put(OPERATOR_HELD)?;
    put_named(text, at)
}

#[tactic(auto, unfolding(crate::specs::MisfitWords::misfit_words))]
fn put_misfit_words(
    text: &mut Text,
    action: ActionName,
    at: &ObjRef,
    misfit: Misfit,
) -> Result<(), AllocError>
    ensures { OnOk result (text.new ≡ text.old ++ misfit_words action at.now misfit) }
{
    match misfit {
        Misfit::Target(class) => put_target_words(text, action, at, class),
        Misfit::Value(number, passing, class) => {
            put_value_words(text, action, at, number, passing, class)
        }
        Misfit::Answer(number, kind, class) => {
            put_answer_words(text, action, at, number, kind, class)
        }
        Misfit::Written(number, kind, class) => {
            put_typed_words(text, action, at, number, kind, class)
        }
        Misfit::Given(_, class, to, kind) => put_given_words(text, action, class, to, kind),
        Misfit::Operator(_, to, written) => put_operator_words(text, action, to, written),
        Misfit::OperatorHeld(_) => put_held_operator_words(text, at),
    }
}

fn put_told_misfit(
    text: &mut Text,
    at: &ObjRef,
    action: Option<ActionName>,
    misfit: Option<Misfit>,
) -> Result<(), AllocError>
    ensures { OnOk result (text.new ≡ text.old ++ told_misfit at.now action misfit) }
{
    match (action, misfit) {
        (Some(action), Some(misfit)) => put_misfit_words(text, action, at, misfit),
        _ => Ok(()),
    }
}

/// Puts which parameter is of another kind, and what it takes.
pub(crate) fn put_misfit_cause(
    text: &mut Text,
    service: &Service,
    refused: &Refused<'_>,
) -> Result<(), AllocError>
    ensures { OnOk result (text.new ≡ text.old ++ misfit_cause service.now refused.now) }
{
    let misfit = misfit_of(service, refused);
    put_told_misfit(text, refused.at, refused.action, misfit)
}
