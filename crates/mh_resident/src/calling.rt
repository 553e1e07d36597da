//! A call of a built-in program.
ghost use Rattle.std.specs.Prelude.{◌≡◌, IfOk, IfErr};
ghost use Rattle.mh_model.specs.Programs as programs;
ghost use Rattle.mh_resident.specs.declared.answer.CallFailed.TheVariants as call_failed;
ghost use Rattle.mh_resident.specs.Kinds.{kinds_of, taken, answered};

use crate::answer::{Answer, CallFailed};
use crate::answers::answer_of;
use mh_base::Value;
use mh_model::{Builtin, Now};
use std::alloc::Global;

/// A call of a built-in program.
pub(crate) fn call_builtin(
    alloc: Global,
    which: Builtin,
    now: Now,
    args: &[Value],
) -> Result<Answer, CallFailed>
    ensures kinds { let params = programs.params_of which in
        kinds_of args.now ≡ taken params →
        IfOk result (λ vs. kinds_of vs ≡ answered params) }
    ensures gives { IfOk result (λ vs. vs ≡ programs.answer which now args.now) }
    ensures fails { IfErr result (λ why. why ≡ call_failed.NoMemory) }
{
    let values = answer_of(alloc, which, now, args)?;
    Ok(Answer::of_vec(values))
}
