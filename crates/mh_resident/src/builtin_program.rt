//! The built-in programs as resident programs like any other.
ghost use Rattle.std.specs.Prelude.{◌≡◌, IfOk, IfErr};
ghost use Rattle.mh_model.specs.declared.program.Outcome.TheVariants as outcome;
ghost use Rattle.mh_resident.specs.declared.answer.CallFailed.TheVariants as call_failed;
ghost use Rattle.mh_model.specs.Programs as programs;
ghost use Rattle.mh_resident.specs.Kinds.{kinds_of, taken, answered, signature_in};

use crate::answer::{Answer, CallFailed};
use crate::builtins::{params_of, word};
use crate::calling::call_builtin;
use crate::resident::Resident;
use mh_base::{Octets, Shared, Value};
use mh_model::{Builtin, Now, Signature};
use std::alloc::{AllocError, Global};

/// A built-in program (ETSI ES 202 184, resident programs). It never fails.
#[derive(Drop)]
pub struct BuiltinProgram {
    alloc: Global,
    which: Builtin,
    signature: Signature,
    ghost its_own: { signature ≡ signature_in which },
}

impl BuiltinProgram {
    pub fn new(alloc: Global, which: Builtin) -> Result<BuiltinProgram, AllocError>
        ensures { IfOk result (λ program. program.which ≡ which) }
    {
        let name = Octets::from_slice(alloc, word(which))?;
        let params = Shared::from_vec(alloc, Vec::from_slice(alloc, params_of(which))?)?;
        let signature = Signature { name, params };
        Ok(BuiltinProgram {
            alloc,
            which,
            signature,
        })
    }
}

impl Resident for BuiltinProgram {
    ghost signature_of = { λ p. signature_in p.which };

    ghost may_answer = { λ p now vs o. o ≡ outcome.Answered (programs.answer p.which now vs) };

    fn signature(&self) -> &Signature {
        &self.signature
    }

    fn call(&self, now: Now, args: &[Value]) -> Result<Answer, CallFailed>
        ensures kinds { let params = programs.params_of self.now.which in
            kinds_of args.now ≡ taken params →
            IfOk result (λ vs. kinds_of vs ≡ answered params) }
        ensures gives { IfOk result (λ vs. vs ≡ programs.answer self.now.which now args.now) }
        ensures fails { IfErr result (λ why. why ≡ call_failed.NoMemory) }
    {
        call_builtin(self.alloc, self.which, now, args)
    }
}
