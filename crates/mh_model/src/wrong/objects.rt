//! What is wrong with an object that is named at a place of an action: as a target, as a parameter,
//! or as a variable that holds one.
//!
//! Of the objects to which a variable may refer, one of each class is looked at: what is wrong with an object is told by
//! its class, and the first is named of those that are wrong alike.
//!
//! Each function is given the best so far, and leaves there the one that is named of it and of its own.
ghost use Rattle.std.specs.Prelude.{◌≡◌, None, Some};
ghost use Rattle.std.specs.List.{flat_map};
ghost use Rattle.std.specs.Option.{option_copied, option_map_or};
ghost use Rattle.mh_model.specs.Faults as spec;
ghost use Rattle.mh_model.specs.Faults.{least};
ghost use Rattle.mh_model.specs.Known.{each_class};
ghost use Rattle.mh_model.specs.Variables as variables;

use crate::kinds::variable_kind;
use crate::known::Known;
use crate::parts::is_transition;
use crate::wrong::fit::Fit;
use crate::wrong::{Best, Rank, found, unless};
use crate::{Act, Reason, Target};
use mh_base::{Kind, ObjRef};
use mh_group::{ActionName, Class};
use std::slice;

/// A variable that has to be there, and to hold values of a kind that passes.
pub(crate) fn variable<'a, R: Rank, F: Fit>(
    best: &mut Best<'a>,
    fit: &F,
    at: &'a ObjRef,
    class: Option<Class>,
)
    ensures { let fits = F.fits fit.now in
        best.new ≡ least R.order best.old (spec.variable_wrongs fits at.now class) }
{
    match class {
        None => found::<R>(best, Reason::Absent, None, at),
        Some(class) => {
            let holds = holds(fit, class, false);
            unless::<R>(best, holds, Reason::WrongKind, None, at)
        }
    }
}

/// Whether the kind that variables of the class hold passes; this, where it is of no variable.
fn holds<F: Fit>(fit: &F, class: Class, otherwise: bool) -> bool
    ensures { result ≡ option_map_or (F.fits fit.now) (variables.variable_kind class) otherwise }
{
    match variable_kind(class) {
        Some(kind) => fit.fits(kind),
        None => otherwise,
    }
}

/// The target. For that through a variable, the variable comes before what it holds.
#[tactic(auto, using(crate::proofs::LeastLemmas::least_append))]
pub(crate) fn target<'a, R: Rank, K: Known>(best: &mut Best<'a>, known: &'a K, act: &'a Act)
    ensures { let k = K.known known.now in
        best.new ≡ least R.order best.old (spec.target_wrongs k act.now.name act.now.target) }
{
    match &act.target {
        Target::Direct(at) => admitted::<R, K>(best, known, act.name, None, at),
        Target::Through(variable_at) => {
            let class = known.class_of(variable_at);
            variable::<R, Kind>(best, &Kind::Object, variable_at, class);
            admitted_behind::<R, K>(best, known, act, variable_at);
        }
    }
}

/// The objects to which the variable that is the target may refer. To a transition it is the class of the group that
/// counts.
fn admitted_behind<'a, R: Rank, K: Known>(
    best: &mut Best<'a>,
    known: &'a K,
    act: &'a Act,
    variable: &'a ObjRef,
)
    ensures { let k = K.known known.now in
        let at = spec.admitted_wrongs k act.now.name (Some variable.now) in
        best.new ≡ least R.order best.old (flat_map at (k.refers variable.now)) }
{
    if is_transition(act.name) {
        admitted_each::<R, K>(best, known, act, variable, known.refers(variable));
    } else {
        let some = known.of_each_class(variable);
        admitted_each::<R, K>(best, known, act, variable, some);
    }
}

/// These objects, to which the variable that is the target may refer.
#[tactic(auto, using(crate::proofs::LeastLemmas::least_append))]
fn admitted_each<'a, R: Rank, K: Known>(
    best: &mut Best<'a>,
    known: &K,
    act: &Act,
    variable: &'a ObjRef,
    objects: &'a [ObjRef],
)
    ensures { let at = spec.admitted_wrongs (K.known known.now) act.now.name (Some variable.now) in
        best.new ≡ least R.order best.old (flat_map at objects.now) }
{
    for at in objects {
        admitted::<R, K>(best, known, act.name, Some(variable), at);
    }
}

/// An object for which the action has to have a rule.
fn admitted<'a, R: Rank, K: Known>(
    best: &mut Best<'a>,
    known: &K,
    action: ActionName,
    through: Option<&'a ObjRef>,
    at: &'a ObjRef,
)
    ensures { let k = K.known known.now in
        let variable = option_copied through.entry in
        best.new ≡ least R.order best.old (spec.admitted_wrongs k action variable at.now) }
{
    match target_class(known, action, at) {
        None => found::<R>(best, Reason::Absent, through, at),
        Some(class) => {
            let admits = class.admits(action);
            unless::<R>(best, admits, Reason::WrongClass, through, at)
        }
    }
}

/// The class of a target. To a transition each group of the service is there.
fn target_class<K: Known>(known: &K, action: ActionName, at: &ObjRef) -> Option<Class>
    ensures { result ≡ spec.target_class (K.known known.now) action at.now }
{
    if is_transition(action) && at.number == 0 {
        known.group_class(at)
    } else {
        known.class_of(at)
    }
}

/// The objects to which the variable that is a parameter may refer.
pub(crate) fn named_behind<'a, R: Rank, K: Known>(
    best: &mut Best<'a>,
    known: &'a K,
    act: &'a Act,
    variable: &'a ObjRef,
)
    ensures { let k = K.known known.now in
        let at = spec.named_wrongs k act.now.name (Some variable.now) in
        best.new ≡ least R.order best.old (flat_map at (k.refers variable.now)) }
{
    let some = known.of_each_class(variable);
    named_each::<R, K>(best, known, act, variable, some);
}

/// These objects, to which the variable that is a parameter may refer.
#[tactic(auto, using(crate::proofs::LeastLemmas::least_append))]
fn named_each<'a, R: Rank, K: Known>(
    best: &mut Best<'a>,
    known: &K,
    act: &Act,
    variable: &'a ObjRef,
    objects: &'a [ObjRef],
)
    ensures { let at = spec.named_wrongs (K.known known.now) act.now.name (Some variable.now) in
        best.new ≡ least R.order best.old (flat_map at objects.now) }
{
    for at in objects {
        named::<R, K>(best, known, act.name, Some(variable), at);
    }
}

/// An object as a parameter.
pub(crate) fn named<'a, R: Rank, K: Known>(
    best: &mut Best<'a>,
    known: &K,
    action: ActionName,
    through: Option<&'a ObjRef>,
    at: &'a ObjRef,
)
    ensures { let k = K.known known.now in
        let variable = option_copied through.entry in
        best.new ≡ least R.order best.old (spec.named_wrongs k action variable at.now) }
{
    match known.class_of(at) {
        None => found::<R>(best, Reason::Absent, through, at),
        Some(class) => {
            let takes = takes_object(action, class);
            unless::<R>(best, takes, Reason::WrongClass, through, at)
        }
    }
}

/// Whether the action takes an object of the class as a parameter.
fn takes_object(action: ActionName, class: Class) -> bool
    ensures { result ≡ spec.takes_object action class }
{
    match action {
        ActionName::PutBefore | ActionName::PutBehind => class.is_visible(),
        _ => true,
    }
}

/// A direct value, which each object to which the target may come has to take.
pub(crate) fn untaken<'a, R: Rank, K: Known, F: Fit>(
    best: &mut Best<'a>,
    known: &'a K,
    act: &'a Act,
    fit: &F,
)
    ensures { let k = K.known known.now in
        let at = spec.untaken k (F.fits fit.now) (spec.target_variable act.now.target) in
        best.new ≡ least R.order best.old (flat_map at (spec.targets k act.now.target)) }
{
    let some = targets_of_each_class(known, &act.target);
    untaken_by::<R, K, F>(best, known, act, fit, some);
}

/// A direct value, which each of these objects has to take.
#[tactic(auto, using(crate::proofs::LeastLemmas::least_append))]
fn untaken_by<'a, R: Rank, K: Known, F: Fit>(
    best: &mut Best<'a>,
    known: &K,
    act: &'a Act,
    fit: &F,
    objects: &'a [ObjRef],
)
    ensures { let k = K.known known.now in
        let at = spec.untaken k (F.fits fit.now) (spec.target_variable act.now.target) in
        best.new ≡ least R.order best.old (flat_map at objects.now) }
{
    for at in objects {
        let takes = target_takes(known, at, fit);
        let through = act.target.variable();
        unless::<R>(best, takes, Reason::WrongKind, through, at);
    }
}

/// A value through a variable, which each object to which the target may come has to take.
pub(crate) fn untaken_through<'a, R: Rank, K: Known, F: Fit>(
    best: &mut Best<'a>,
    known: &K,
    act: &Act,
    fit: &F,
    variable: &'a ObjRef,
)
    ensures { let k = K.known known.now in
        let at = spec.untaken_through k (F.fits fit.now) variable.now in
        best.new ≡ least R.order best.old (flat_map at (spec.targets k act.now.target)) }
{
    let some = targets_of_each_class(known, &act.target);
    untaken_through_by::<R, K, F>(best, known, fit, variable, some);
}

/// A value through a variable, which each of these objects has to take.
#[tactic(auto, using(crate::proofs::LeastLemmas::least_append))]
fn untaken_through_by<'a, R: Rank, K: Known, F: Fit>(
    best: &mut Best<'a>,
    known: &K,
    fit: &F,
    variable: &'a ObjRef,
    objects: &[ObjRef],
)
    ensures { let at = spec.untaken_through (K.known known.now) (F.fits fit.now) variable.now in
        best.new ≡ least R.order best.old (flat_map at objects.now) }
{
    for at in objects {
        let takes = target_takes(known, at, fit);
        unless::<R>(best, takes, Reason::WrongKind, None, variable);
    }
}

/// Whether the target takes values whose kind passes. One that is no variable is wrong at its own
/// place.
fn target_takes<K: Known, F: Fit>(known: &K, at: &ObjRef, fit: &F) -> bool
    ensures { result ≡ spec.target_takes (F.fits fit.now) ((K.known known.now).class_of at.now) }
{
    match known.class_of(at) {
        None => true,
        Some(class) => holds(fit, class, true),
    }
}

/// The objects to which a target may come.
pub(crate) fn targets<'a, K: Known>(known: &'a K, target: &'a Target) -> &'a [ObjRef]
    ensures { result.now ≡ spec.targets (K.known known.now) target.now }
{
    match target {
        Target::Direct(at) => slice::from_ref(at),
        Target::Through(at) => known.refers(at),
    }
}

/// Some of these objects, in their order: the first of each class at least, and the first that is not present.
fn targets_of_each_class<'a, K: Known>(known: &'a K, target: &'a Target) -> &'a [ObjRef]
    ensures { let of_class = (K.known known.now).class_of in
        each_class of_class result.now ≡ each_class of_class (spec.targets (K.known known.now) target.now) }
{
    match target {
        Target::Direct(at) => slice::from_ref(at),
        Target::Through(at) => known.of_each_class(at),
    }
}
