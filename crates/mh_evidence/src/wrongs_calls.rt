//! Calls of programs: whether what is passed fits the program's parameters, and whether it is claimed that it does not.
ghost use Rattle.std.specs.Prelude.{◌≡◌};
ghost use Rattle.std.specs.Option.{option_copied};
ghost use Rattle.mh_model.specs.Faults as spec;
ghost use Rattle.mh_model.specs.Programs as programs;
ghost use Rattle.mh_evidence.specs.Cases.{claims, known_by};

use crate::claims::Case;
use crate::wrongs_kinds::variable_of;
use mh_base::{Kind, ObjRef};
use mh_group::ActionName;
use mh_model::act::passed;
use mh_model::kinds::kind_of;
use mh_model::{Act, Argument, Param, Plain, Reason};
use mh_resident::takes;

impl Case<'_> {
    /// A call that does not fit its program.
    #[tactic(auto, using(crate::proofs::ClaimLemmas::claims_one, crate::proofs::ClaimLemmas::claims_none))]
    pub(crate) fn is_of_call(&self, act: &Act) -> bool
        ensures { result ≡ claims self.now (spec.called_wrongs (known_by self.now) act.now) }
    {
        is_call(act.name) && self.is_of_call_to(act, self.target(&act.target))
    }

    /// A call of this program.
    fn is_of_call_to(&self, act: &Act, at: &ObjRef) -> bool
        ensures { result ≡ claims self.now (spec.call_wrongs (known_by self.now) act.now at.now) }
    {
        let params = takes(self.service.programs(), self.there.find(at));
        let fits = calls_well(params, passed(act.arguments.as_slice()));
        self.is_unless(fits, Reason::Misfit, variable_of(&act.target), at)
    }
}

fn is_call(name: ActionName) -> bool
    ensures { result ≡ spec.is_call name }
{
    matches!(name, ActionName::Call | ActionName::Fork)
}

/// Whether what is passed fits the parameters; there are none of a program that is not known.
fn calls_well(params: Option<&[Param]>, passed: &[Argument]) -> bool
    ensures { result ≡ spec.calls_well (option_copied params.entry) passed.now }
{
    params.is_some_and(|params| fits_params(params, passed))
}

/// Whether there is one argument for each parameter, and it fits it.
fn fits_params(params: &[Param], passed: &[Argument]) -> bool
    ensures { result ≡ programs.fits_params params.now passed.now }
{
    let mut params = params;
    let mut passed = passed;
    while let Some((param, params_behind)) = params.split_first() {
        let Some((argument, behind)) = passed.split_first() else {
            return false;
        };
        if !fits_param(*param, argument) {
            return false;
        }
        params = params_behind;
        passed = behind;
    }
    passed.is_empty()
}

fn fits_param(param: Param, argument: &Argument) -> bool
    ensures { result ≡ programs.fits_param param argument.now }
{
    match (param, argument) {
        (Param::In(plain), Argument::Direct(value)) => is_plain(plain, kind_of(value)),
        (Param::In(plain) | Param::Out(plain), Argument::Through(_, Some(kind))) => {
            is_plain(plain, *kind)
        }
        _ => false,
    }
}

fn is_plain(plain: Plain, kind: Kind) -> bool
    ensures { result ≡ programs.same_plain plain kind }
{
    matches!(
        (plain, kind),
        (Plain::Bool, Kind::Bool) | (Plain::Int, Kind::Int) | (Plain::Octets, Kind::Octets)
    )
}
