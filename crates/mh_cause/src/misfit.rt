//! `Misfit`: which parameter of an action is of another kind than is needed, and what it takes.
ghost use Rattle.std.specs.Prelude.{◌≡◌};
ghost use Rattle.std.specs.Option.{option_copied};
ghost use Rattle.mh_cause.specs.Misfits.{act_misfit, direct_class, misfit_in, misfit_of, reached_class, setting_of, target_misfit};

use crate::acts::act_of;
use crate::judging::arguments_misfit;
use crate::naming::class_at;
use crate::passing::{Passing, holds};
use crate::refused::Refused;
use mh_base::{Kind, ObjRef};
use mh_group::{ActionName, Class};
use mh_model::parts::same_ref;
use mh_model::{Act, Target};
use mh_service::Service;

/// What is of another kind than is needed.
#[derive(Clone, Copy)]
pub enum Misfit {
    /// The target goes through an object of this class.
    Target(Class),
    /// The parameter with this number takes such values, and an object of the class holds it.
    Value(usize, Passing, Class),
    /// The parameter with this number receives a value of the kind, and is an object of the class.
    Answer(usize, Kind, Class),
    /// The parameter with this number is written to be of the kind, and an object of the class holds it.
    Written(usize, Kind, Class),
    /// The target is of this class and kind, and the parameter with this number, which it is given or compared with, of the
    /// other kind.
    Given(usize, Class, Kind, Kind),
    /// The parameter with this number is the operator; values of the kind are not compared by the one that is written.
    Operator(usize, Kind, i32),
    /// The parameter with this number is the operator, and is held by a variable.
    OperatorHeld(usize),
}

/// What is known where a parameter is judged.
#[derive(Clone, Copy)]
pub(crate) struct Setting {
    pub(crate) action: ActionName,
    /// The class of the object that is wrong.
    pub(crate) class: Class,
    /// The class of the target, if that is written.
    pub(crate) direct: Option<Class>,
    /// The class of the target, which is the object that is wrong where it is not written.
    pub(crate) reached: Option<Class>,
}

/// What is of another kind than is needed, if it is found.
#[tactic(auto, unfolding(crate::specs::Misfits::misfit_of))]
pub(crate) fn misfit_of(service: &Service, refused: &Refused<'_>) -> Option<Misfit>
    ensures { result ≡ misfit_of service.now refused.now }
{
    misfit_in(
        service,
        refused.at,
        class_at(service, refused.at),
        act_of(service, refused),
    )
}

fn misfit_in(
    service: &Service,
    at: &ObjRef,
    class: Option<Class>,
    act: Option<&Act>,
) -> Option<Misfit>
    ensures { result ≡ misfit_in service.now at.now class (option_copied act.entry) }
{
    match (class, act) {
        (Some(class), Some(act)) => act_misfit(service, class, at, act),
        _ => None,
    }
}

#[tactic(auto, unfolding(crate::specs::Misfits::act_misfit))]
fn act_misfit(service: &Service, class: Class, at: &ObjRef, act: &Act) -> Option<Misfit>
    ensures { result ≡ act_misfit service.now class at.now act.now }
{
    if let Some(misfit) = target_misfit(class, at, &act.target) {
        return Some(misfit);
    }
    let setting = setting_of(service, class, at, act);
    arguments_misfit(setting, at, act.name.needs(), act.arguments.as_slice())
}

fn setting_of(service: &Service, class: Class, at: &ObjRef, act: &Act) -> Setting
    ensures { result ≡ setting_of service.now class at.now act.now }
{
    Setting {
        action: act.name,
        class,
        direct: direct_class(service, &act.target),
        reached: reached_class(service, at, &act.target),
    }
}

pub(crate) fn direct_class(service: &Service, target: &Target) -> Option<Class>
    ensures { result ≡ direct_class service.now target.now }
{
    match target {
        Target::Direct(at) => class_at(service, at),
        Target::Through(_) => None,
    }
}

fn reached_class(service: &Service, at: &ObjRef, target: &Target) -> Option<Class>
    ensures { result ≡ reached_class service.now at.now target.now }
{
    match target {
        Target::Direct(written) => class_at(service, written),
        Target::Through(_) => class_at(service, at),
    }
}

pub(crate) fn target_misfit(class: Class, at: &ObjRef, target: &Target) -> Option<Misfit>
    ensures { result ≡ target_misfit class at.now target.now }
{
    match target {
        Target::Through(variable)
            if same_ref(variable, at) && !holds(Passing::Only(Kind::Object), class) => {
            Some(Misfit::Target(class))
        }
        _ => None,
    }
}
