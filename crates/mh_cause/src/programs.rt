//! Programs: what they take and give, what they are called with, and the one with a name like another.
ghost use Rattle.std.specs.Prelude.{◌≡◌, ◌++◌, [], OnOk};
ghost use Rattle.std.specs.Option.{option_copied};
ghost use Rattle.mh_model.specs.Programs.{builtins as all_builtins};
ghost use Rattle.mh_cause.specs.Calls.{argument_words, arguments_from, arguments_of, arguments_told, builtin_words, counted, held_kind, like_builtin, near_builtin, near_words, param_words, params_from, params_told, purpose, same_param, words_from};

use crate::lists::{kind_told, kinds_counted};
use mh_base::Kind;
use mh_misread::is_like;
use mh_model::act::passed;
use mh_model::kinds::kind_of;
use mh_model::{Act, Argument, Builtin, Param, same_plain};
use mh_resident::{params_of, word};
use mh_told::text::Text;
use std::alloc::AllocError;

const BUILTINS: [Builtin; 6] = [
    Builtin::CurrentDate,
    Builtin::DayOfWeek,
    Builtin::StringLength,
    Builtin::Substring,
    Builtin::ExtractSubstring,
    Builtin::SearchSubstring,
];

/// Puts so many values of a kind.
fn put_counted(text: &mut Text, count: usize, kind: Kind) -> Result<(), AllocError>
    ensures { OnOk result (text.new ≡ text.old ++ counted count kind) }
{
    if count == 1 {
        return text.put(kind_told(kind));
    }
    text.put_number(count as u64)?;
    text.put(kinds_counted(kind))
}

fn put_param(text: &mut Text, count: usize, param: Param) -> Result<(), AllocError>
    ensures { OnOk result (text.new ≡ text.old ++ param_words count param) }
{
    match param {
        Param::In(plain) => {
            text.put(b"takes ")?;
            put_counted(text, count, plain.kind())
        }
        Param::Out(plain) => {
            text.put(b"gives ")?;
            put_counted(text, count, plain.kind())
        }
    }
}

fn same_param(param: Param, other: Param) -> bool
    ensures { result ≡ same_param param other }
{
    match (param, other) {
        (Param::In(plain), Param::In(other)) | (Param::Out(plain), Param::Out(other)) => {
            same_plain(plain, other.kind())
        }
        _ => false,
    }
}

/// Puts what a program takes and gives; parameters of one sort that stand side by side are told as one.
pub(crate) fn put_params(text: &mut Text, params: &[Param]) -> Result<(), AllocError>
    ensures { OnOk result (text.new ≡ text.old ++ params_told params.now) }
{
    match params {
        [] => Ok(()),
        [first, others @ ..] => put_params_from(text, *first, others),
    }
}

fn put_params_from(text: &mut Text, first: Param, others: &[Param]) -> Result<(), AllocError>
    ensures { OnOk result (text.new ≡ text.old ++ params_from [] 1 first others.now) }
{
    let mut front: &[u8] = b"";
    let mut count = 1;
    let mut param = first;
    let mut left = others;
    while let [next, behind @ ..] = left {
        if same_param(param, *next) {
            count += 1;
        } else {
            text.put(front)?;
            put_param(text, count, param)?;
            front = b", ";
            count = 1;
            param = *next;
        }
        left = behind;
    }
    text.put(front)?;
    put_param(text, count, param)
}

fn put_held_kind(text: &mut Text, kind: Option<Kind>) -> Result<(), AllocError>
    ensures { OnOk result (text.new ≡ text.old ++ held_kind kind) }
{
    match kind {
        None => text.put(b"a variable"),
        Some(kind) => {
            text.put(kind_told(kind))?;
            text.put(b" in a variable")
        }
    }
}

fn put_argument(text: &mut Text, argument: &Argument) -> Result<(), AllocError>
    ensures { OnOk result (text.new ≡ text.old ++ argument_words argument.now) }
{
    match argument {
        Argument::Direct(value) => text.put(kind_told(kind_of(value))),
        Argument::Through(_, kind) => put_held_kind(text, *kind),
        Argument::Receiver(_) => text.put(b"a variable"),
    }
}

fn put_arguments(text: &mut Text, arguments: &[Argument]) -> Result<(), AllocError>
    ensures { OnOk result (text.new ≡ text.old ++ arguments_from [] arguments.now) }
{
    let mut front: &[u8] = b"";
    let mut left = arguments;
    while let [argument, behind @ ..] = left {
        text.put(front)?;
        put_argument(text, argument)?;
        front = b", ";
        left = behind;
    }
    Ok(())
}

pub(crate) fn put_arguments_told(text: &mut Text, arguments: &[Argument]) -> Result<(), AllocError>
    ensures { OnOk result (text.new ≡ text.old ++ arguments_told arguments.now) }
{
    match arguments {
        [] => text.put(b"nothing"),
        _ => put_arguments(text, arguments),
    }
}

/// What the program is called with.
pub(crate) fn arguments_of(act: Option<&Act>) -> &[Argument]
    ensures { result.now ≡ arguments_of (option_copied act.entry) }
{
    match act {
        None => &[],
        Some(act) => passed(act.arguments.as_slice()),
    }
}

fn like_builtin(changes: usize, name: &[u8]) -> Option<Builtin>
    ensures { result ≡ like_builtin changes name.now }
{
    BUILTINS
        .iter()
        .copied()
        .find(|which| is_like(changes, name, word(*which)))
}

/// The program with the name that is most like this one.
#[tactic(auto, unfolding(crate::specs::Calls::near_builtin))]
pub(crate) fn near_builtin(name: &[u8]) -> Option<Builtin>
    ensures { result ≡ near_builtin name.now }
{
    match like_builtin(0, name) {
        Some(which) => Some(which),
        None => like_builtin(1, name),
    }
}

#[tactic(auto, unfolding(crate::specs::Calls::builtin_words))]
fn put_builtin(text: &mut Text, which: Builtin) -> Result<(), AllocError>
    ensures { OnOk result (text.new ≡ text.old ++ builtin_words which) }
{
    text.put(b"; ")?;
    text.put(word(which))?;
    text.put(b" is, and ")?;
    put_params(text, params_of(which))
}

#[tactic(auto, unfolding(crate::specs::Calls::near_words))]
pub(crate) fn put_near(text: &mut Text, which: Option<Builtin>) -> Result<(), AllocError>
    ensures { OnOk result (text.new ≡ text.old ++ near_words which) }
{
    match which {
        None => Ok(()),
        Some(which) => put_builtin(text, which),
    }
}

/// What the program is for.
#[tactic(auto, unfolding(crate::specs::Calls::purpose))]
fn purpose(which: Builtin) -> &'static [u8]
    ensures { result.now ≡ purpose which }
{
    match which {
        Builtin::CurrentDate => b" (the day and the time)",
        Builtin::DayOfWeek => b" (the weekday of a day)",
        Builtin::StringLength => b" (the length of a string)",
        Builtin::Substring => b" (a part of a string)",
        Builtin::ExtractSubstring => b" (what stands in front of a string in another)",
        Builtin::SearchSubstring => b" (where a string stands in another)",
    }
}

/// Puts the names of all programs, with what they are for.
pub(crate) fn put_words(text: &mut Text) -> Result<(), AllocError>
    ensures { OnOk result (text.new ≡ text.old ++ words_from [] all_builtins) }
{
    put_words_of(text, &BUILTINS)
}

/// Puts the names of these programs.
fn put_words_of(text: &mut Text, builtins: &[Builtin]) -> Result<(), AllocError>
    ensures { OnOk result (text.new ≡ text.old ++ words_from [] builtins.now) }
{
    let mut front: &[u8] = b"";
    let mut left = builtins;
    while let [which, behind @ ..] = left {
        text.put(front)?;
        text.put(word(*which))?;
        text.put(purpose(*which))?;
        front = b", ";
        left = behind;
    }
    Ok(())
}
