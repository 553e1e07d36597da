//! What the maker of a receiver implements to add a program.
ghost use Rattle.std.specs.Prelude.{◌≡◌, IfOk, IfErr};
ghost use Rattle.mh_model.specs.declared.program.Outcome.TheVariants as outcome;
ghost use Rattle.mh_resident.specs.declared.answer.CallFailed.TheVariants as call_failed;
ghost use Rattle.mh_resident.specs.Kinds.{kinds_of, taken, answered};

use crate::answer::{Answer, CallFailed};
use mh_base::Value;
use mh_model::{Now, Signature};

/// A resident program (ISO/IEC 13522-5, ResidentProgram). What it computes is its maker's own
/// relation, `may_answer`: one whose answer hangs on more than the call allows all that may come.
pub trait Resident: Drop {
    ghost use Rattle.std.specs.Prelude.{List};
    ghost use Rattle.mh_base.specs.declared.value.Value.{Value as ValueLem};
    ghost use Rattle.mh_model.specs.declared.program.Now.{Now as NowLem};
    ghost use Rattle.mh_model.specs.declared.program.Outcome.{Outcome as OutcomeLem};
    ghost use Rattle.mh_model.specs.declared.program.Signature.{Signature as SignatureLem};

    /// Its name and its parameters.
    ghost signature_of: { Self → SignatureLem };

    /// What may come of a call at a time with these values.
    ghost may_answer: { Self → NowLem → List ValueLem → OutcomeLem → Type 0 };

    /// Its name, and its parameters in order.
    fn signature(&self) -> &Signature
        ensures { result.now ≡ signature_of self.now };

    /// What it answers to these values, or that it failed. Where the values are of the kinds that
    /// its parameters take, what it answers is of the kinds that they answer, in order. Where
    /// memory is refused nothing is said of it (ISO/IEC 13522-5, Call).
    fn call(&self, now: Now, args: &[Value]) -> Result<Answer, CallFailed>
        ensures kinds { let params = (signature_of self.now).params in
            kinds_of args.now ≡ taken params →
            IfOk result (λ vs. kinds_of vs ≡ answered params) }
        ensures gives { IfOk result (λ vs. may_answer self.now now args.now (outcome.Answered vs)) }
        ensures fails { IfErr result (λ why. why ≡ call_failed.Failed →
            may_answer self.now now args.now outcome.Failed) };
}
