//! Whether an object of a class does in a place, instead of the one that is written there.
//!
//! Promise: each function answers what the definition of its name in `specs/Candidates` says.
ghost use Rattle.std.specs.Prelude.{◌≡◌};
ghost use Rattle.std.specs.Option.{option_copied};
ghost use Rattle.std.specs.List.{list_all};
ghost use Rattle.mh_model.specs.Faults.{takes_object};
ghost use Rattle.mh_cause.specs.Candidates.{class_with, does, does_for, does_in, is_admitted, is_past, misfit_with, number_of, setting_with, takes, takes_value};

use crate::candidates::place::Place;
use crate::judging::arguments_misfit;
use crate::misfit::{Misfit, Setting, target_misfit};
use mh_base::{ObjRef, Value};
use mh_group::{ActionName, Class};
use mh_model::parts::same_ref;
use mh_model::{Act, Argument, Target};

/// Whether an object of this class does as the target.
fn is_admitted(action: ActionName, class: Class, at: &ObjRef, target: &Target) -> bool
    ensures { result ≡ is_admitted action class at.now target.now }
{
    match target {
        Target::Direct(written) => !same_ref(written, at) || class.admits(action),
        Target::Through(_) => true,
    }
}

fn takes_object(action: ActionName, class: Class) -> bool
    ensures { result ≡ takes_object action class }
{
    match action {
        ActionName::PutBefore | ActionName::PutBehind => class.is_visible(),
        _ => true,
    }
}

fn takes_value(action: ActionName, class: Class, at: &ObjRef, value: &Value) -> bool
    ensures { result ≡ takes_value action class at.now value.now }
{
    match value {
        Value::Object(written) => !same_ref(written, at) || takes_object(action, class),
        _ => true,
    }
}

/// Whether an object of this class does as a parameter.
fn takes(action: ActionName, class: Class, at: &ObjRef, argument: &Argument) -> bool
    ensures { result ≡ takes action class at.now argument.now }
{
    match argument {
        Argument::Direct(value) => takes_value(action, class, at, value),
        Argument::Through(_, _) | Argument::Receiver(_) => true,
    }
}

/// The class of the target, with an object of this class in the place.
fn class_with(place: &Place<'_>, class: Class, target: &Target) -> Option<Class>
    ensures { result ≡ class_with place.now class target.now }
{
    match target {
        Target::Direct(written) => if same_ref(written, place.at) {
            Some(class)
        } else {
            place.target
        },
        Target::Through(_) => None,
    }
}

fn setting_with(place: &Place<'_>, class: Class, act: &Act) -> Setting
    ensures { result ≡ setting_with place.now class act.now }
{
    let reached = class_with(place, class, &act.target);
    Setting {
        action: act.name,
        class,
        direct: reached,
        reached,
    }
}

/// What is of another kind than is needed, with an object of this class in the place.
#[tactic(auto, unfolding(crate::specs::Candidates::misfit_with))]
fn misfit_with(place: &Place<'_>, class: Class, act: &Act) -> Option<Misfit>
    ensures { result ≡ misfit_with place.now class act.now }
{
    if let Some(misfit) = target_misfit(class, place.at, &act.target) {
        return Some(misfit);
    }
    let setting = setting_with(place, class, act);
    arguments_misfit(
        setting,
        place.at,
        act.name.needs(),
        act.arguments.as_slice(),
    )
}

/// The number of the parameter; 0 for the target.
fn number_of(misfit: Misfit) -> usize
    ensures { result ≡ number_of misfit }
{
    match misfit {
        Misfit::Target(_) => 0,
        Misfit::Value(number, _, _)
        | Misfit::Answer(number, _, _)
        | Misfit::Written(number, _, _)
        | Misfit::Given(number, _, _, _)
        | Misfit::Operator(number, _, _)
        | Misfit::OperatorHeld(number) => number,
    }
}

/// Whether nothing is of another kind any more, or a parameter behind the one that is now.
fn is_past(now: Option<Misfit>, other: Option<Misfit>) -> bool
    ensures { result ≡ is_past now other }
{
    match (now, other) {
        (_, None) => true,
        (None, Some(_)) => false,
        (Some(now), Some(misfit)) => number_of(now) < number_of(misfit),
    }
}

fn takes_in_all(action: ActionName, class: Class, at: &ObjRef, arguments: &[Argument]) -> bool
    ensures { result ≡ list_all (takes action class at.now) arguments.now }
{
    arguments
        .iter()
        .all(|argument| takes(action, class, at, argument))
}

#[tactic(auto, unfolding(crate::specs::Candidates::does_in))]
fn does_in(place: &Place<'_>, class: Class, act: &Act) -> bool
    ensures { result ≡ does_in place.now class act.now }
{
    is_admitted(act.name, class, place.at, &act.target)
        && takes_in_all(act.name, class, place.at, act.arguments.as_slice())
        && is_past(place.misfit, misfit_with(place, class, act))
}

fn does_for(place: &Place<'_>, class: Class, act: Option<&Act>) -> bool
    ensures { result ≡ does_for place.now class (option_copied act.entry) }
{
    match act {
        Some(act) => does_in(place, class, act),
        None => class.is_visible(),
    }
}

/// Whether an object of this class does in the place.
pub(crate) fn does(place: &Place<'_>, class: Class) -> bool
    ensures { result ≡ does place.now class }
{
    does_for(place, class, place.act)
}
