//! Lists of words: of classes, kinds, actions and operators, by the tables.
ghost use Rattle.std.specs.Prelude.{◌≡◌, ◌++◌, [], OnOk};
ghost use Rattle.mh_base.specs.Kinds.{kinds};
ghost use Rattle.mh_group.specs.Words.{actions, classes};
ghost use Rattle.mh_cause.specs.Lists.{actions_from, actions_told, article, classes_from, classes_told, is_vowel, kind_told, kinds_counted, kinds_from, kinds_told, operator_told, operators, operators_from, operators_told, with_article};

use crate::passing::{Passing, Wanted, is_wanted, passes};
use mh_base::{KINDS, Kind};
use mh_group::{ActionName, Class, action_name, class};
use mh_model::Operator;
use mh_model::kinds::compares;
use mh_told::text::Text;
use std::alloc::AllocError;

static OPERATORS: [Operator; 6] = [
    Operator::Equal,
    Operator::NotEqual,
    Operator::Less,
    Operator::LessOrEqual,
    Operator::Greater,
    Operator::GreaterOrEqual,
];

fn is_vowel(byte: u8) -> bool
    ensures { result ≡ is_vowel byte }
{
    byte == b'A' || byte == b'E' || byte == b'I' || byte == b'O' || byte == b'U'
}

/// The article in front of a word.
fn article(word: &[u8]) -> &'static [u8]
    ensures { result.now ≡ article word.now }
{
    match word {
        [first, ..] if is_vowel(*first) => b"an ",
        _ => b"a ",
    }
}

/// Puts the class with an article in front.
#[tactic(auto, unfolding(crate::specs::Lists::with_article))]
pub(crate) fn put_with_article(text: &mut Text, class: Class) -> Result<(), AllocError>
    ensures { OnOk result (text.new ≡ text.old ++ with_article class) }
{
    text.put(article(class.word()))?;
    text.put(class.word())
}

/// Puts the classes that are wanted.
#[tactic(auto, unfolding(crate::specs::Lists::classes_told))]
pub(crate) fn put_classes(text: &mut Text, wanted: Wanted) -> Result<(), AllocError>
    ensures { OnOk result (text.new ≡ text.old ++ classes_told wanted) }
{
    put_classes_in(text, wanted, &class::ALL)
}

/// Puts those of these classes that are wanted.
fn put_classes_in(text: &mut Text, wanted: Wanted, classes: &[Class]) -> Result<(), AllocError>
    ensures { OnOk result (text.new ≡ text.old ++ classes_from [] wanted classes.now) }
{
    let mut front: &[u8] = b"";
    let mut left = classes;
    while let [class, behind @ ..] = left {
        if is_wanted(wanted, *class) {
            text.put(front)?;
            put_with_article(text, *class)?;
            front = b", ";
        }
        left = behind;
    }
    Ok(())
}

/// Puts the actions that are done to objects of the class.
#[tactic(auto, unfolding(crate::specs::Lists::actions_told))]
pub(crate) fn put_actions(text: &mut Text, class: Class) -> Result<(), AllocError>
    ensures { OnOk result (text.new ≡ text.old ++ actions_told class) }
{
    put_actions_in(text, class, &action_name::ALL)
}

/// Puts those of these actions that are done to objects of the class.
fn put_actions_in(text: &mut Text, class: Class, actions: &[ActionName]) -> Result<(), AllocError>
    ensures { OnOk result (text.new ≡ text.old ++ actions_from [] class actions.now) }
{
    let mut front: &[u8] = b"";
    let mut left = actions;
    while let [action, behind @ ..] = left {
        if class.admits(*action) {
            text.put(front)?;
            text.put(action.word())?;
            front = b", ";
        }
        left = behind;
    }
    Ok(())
}

/// What a value of the kind is.
#[tactic(auto, unfolding(crate::specs::Lists::kind_told))]
pub(crate) fn kind_told(kind: Kind) -> &'static [u8]
    ensures { result.now ≡ kind_told kind }
{
    match kind {
        Kind::Bool => b"a truth value",
        Kind::Int => b"an integer",
        Kind::Octets => b"an octet string",
        Kind::Object => b"a reference",
        Kind::Content => b"the name of a file",
    }
}

/// What several values of the kind are, behind their number.
#[tactic(auto, unfolding(crate::specs::Lists::kinds_counted))]
pub(crate) fn kinds_counted(kind: Kind) -> &'static [u8]
    ensures { result.now ≡ kinds_counted kind }
{
    match kind {
        Kind::Bool => b" truth values",
        Kind::Int => b" integers",
        Kind::Octets => b" octet strings",
        Kind::Object => b" references",
        Kind::Content => b" names of files",
    }
}

/// Puts the kinds of values that are taken.
#[tactic(auto, unfolding(crate::specs::Lists::kinds_told))]
pub(crate) fn put_kinds(text: &mut Text, passing: Passing) -> Result<(), AllocError>
    ensures { OnOk result (text.new ≡ text.old ++ kinds_told passing) }
{
    put_kinds_in(text, passing, &KINDS)
}

/// Puts those of these kinds that are taken.
fn put_kinds_in(text: &mut Text, passing: Passing, kinds: &[Kind]) -> Result<(), AllocError>
    ensures { OnOk result (text.new ≡ text.old ++ kinds_from [] passing kinds.now) }
{
    let mut front: &[u8] = b"";
    let mut left = kinds;
    while let [kind, behind @ ..] = left {
        if passes(passing, *kind) {
            text.put(front)?;
            text.put(kind_told(*kind))?;
            front = b" or ";
        }
        left = behind;
    }
    Ok(())
}

#[tactic(auto, unfolding(crate::specs::Lists::operator_told))]
fn operator_told(operator: Operator) -> &'static [u8]
    ensures { result.now ≡ operator_told operator }
{
    match operator {
        Operator::Equal => b"1 (equal)",
        Operator::NotEqual => b"2 (not equal)",
        Operator::Less => b"3 (less)",
        Operator::LessOrEqual => b"4 (less or equal)",
        Operator::Greater => b"5 (greater)",
        Operator::GreaterOrEqual => b"6 (greater or equal)",
    }
}

/// Puts the operators by which values of the kind are compared.
#[tactic(auto, unfolding(crate::specs::Lists::operators_told))]
pub(crate) fn put_operators(text: &mut Text, kind: Kind) -> Result<(), AllocError>
    ensures { OnOk result (text.new ≡ text.old ++ operators_told kind) }
{
    put_operators_in(text, kind, &OPERATORS)
}

/// Puts those of these operators by which values of the kind are compared.
fn put_operators_in(text: &mut Text, kind: Kind, operators: &[Operator]) -> Result<(), AllocError>
    ensures { OnOk result (text.new ≡ text.old ++ operators_from [] kind operators.now) }
{
    let mut front: &[u8] = b"";
    let mut left = operators;
    while let [operator, behind @ ..] = left {
        if compares(kind, *operator) {
            text.put(front)?;
            text.put(operator_told(*operator))?;
            front = b" or ";
        }
        left = behind;
    }
    Ok(())
}
