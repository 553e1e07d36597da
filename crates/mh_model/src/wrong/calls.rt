//! Calls of programs: whether what is passed fits the program's parameters.
//!
//! Each function that judges is given the best so far, and leaves there the one that is named of it and of its
//! own.
ghost use Rattle.std.specs.Prelude.{◌≡◌};
ghost use Rattle.std.specs.Option.{option_copied};
ghost use Rattle.mh_model.specs.Faults as spec;
ghost use Rattle.mh_model.specs.Faults.{least};
ghost use Rattle.mh_model.specs.Programs as programs;

use crate::act::passed;
use crate::kinds::kind_of;
use crate::known::Known;
use crate::wrong::objects::{targets, variable};
use crate::wrong::{Best, Rank, found, unless};
use crate::{Act, Argument, Param, Plain, Reason};
use mh_base::{Kind, ObjRef};
use mh_group::ActionName;

/// A call that does not fit its program.
#[tactic(auto, using(crate::proofs::LeastLemmas::least_append))]
pub(crate) fn called<'a, R: Rank, K: Known>(best: &mut Best<'a>, known: &'a K, act: &'a Act)
    ensures { let k = K.known known.now in
        best.new ≡ least R.order best.old (spec.called_wrongs k act.now) }
{
    if !is_call(act.name) {
        return;
    }
    for at in targets(known, &act.target) {
        call::<R, K>(best, known, act, at);
    }
}

fn is_call(name: ActionName) -> bool
    ensures { result ≡ spec.is_call name }
{
    matches!(name, ActionName::Call | ActionName::Fork)
}

/// A call of this program.
fn call<'a, R: Rank, K: Known>(best: &mut Best<'a>, known: &K, act: &'a Act, at: &'a ObjRef)
    ensures { let k = K.known known.now in
        best.new ≡ least R.order best.old (spec.call_wrongs k act.now at.now) }
{
    let fits = calls_well(known.takes(at), passed(act.arguments.as_slice()));
    unless::<R>(best, fits, Reason::Misfit, act.target.variable(), at)
}

/// Whether what is passed fits the parameters; there are none of a program that is not known.
fn calls_well(params: Option<&[Param]>, passed: &[Argument]) -> bool
    ensures { result ≡ spec.calls_well (option_copied params.entry) passed.now }
{
    match params {
        Some(params) => fits_params(params, passed),
        None => false,
    }
}

/// Whether there is one argument for each parameter, and it fits it.
fn fits_params(params: &[Param], passed: &[Argument]) -> bool
    ensures { result ≡ programs.fits_params params.now passed.now }
{
    let mut params = params;
    let mut passed = passed;
    while let Some((param, params_behind)) = params.split_first() {
        let Some((argument, behind)) = passed.split_first() else {
            return false;
        };
        if !fits_param(*param, argument) {
            return false;
        }
        params = params_behind;
        passed = behind;
    }
    passed.is_empty()
}

/// Whether the argument is what the parameter takes: a value of its kind, or a variable that is named with its kind.
pub fn fits_param(param: Param, argument: &Argument) -> bool
    ensures { result ≡ programs.fits_param param argument.now }
{
    match (param, argument) {
        (Param::In(plain), Argument::Direct(value)) => same_plain(plain, kind_of(value)),
        (Param::In(plain) | Param::Out(plain), Argument::Through(_, Some(kind))) => {
            same_plain(plain, *kind)
        }
        _ => false,
    }
}

/// Whether the plain kind is this kind.
pub fn same_plain(plain: Plain, kind: Kind) -> bool
    ensures { result ≡ programs.same_plain plain kind }
{
    matches!(
        (plain, kind),
        (Plain::Bool, Kind::Bool) | (Plain::Int, Kind::Int) | (Plain::Octets, Kind::Octets)
    )
}

/// An argument that is passed: a variable has to be of the kind that is written.
pub(crate) fn passed_one<'a, R: Rank, K: Known>(
    best: &mut Best<'a>,
    known: &'a K,
    act: &'a Act,
    argument: &'a Argument,
)
    ensures { let k = K.known known.now in
        best.new ≡ least R.order best.old (spec.passed_wrongs k act.now argument.now) }
{
    match argument {
        Argument::Direct(_) => {}
        Argument::Through(at, Some(kind)) => {
            variable::<R, Kind>(best, kind, at, known.class_of(at))
        }
        Argument::Through(at, None) | Argument::Receiver(at) => {
            found::<R>(best, Reason::WrongKind, None, at)
        }
    }
}
