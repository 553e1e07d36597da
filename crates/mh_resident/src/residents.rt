//! The programs that a receiver has beside the built-in ones.
//!
//! Promise: what comes of a call is what the first program of its name may answer.
ghost use Rattle.std.specs.Prelude.{◌≡◌, ◌++◌, ◌∷◌, [], map, IfOk};
ghost use Rattle.std.specs.List.{find};
ghost use Rattle.std.specs.Option.{option_copied};
ghost use Rattle.std.specs.Str.{bytes_eq};
ghost use Rattle.mh_resident.specs.Coming.{MayCome};

use crate::answer::{Answer, CallFailed};
use crate::resident::Resident;
use mh_base::Value;
use mh_model::{Call, Now, Outcome, Signature};
use std::alloc::{AllocError, Global};

/// The names and parameters of programs, in order.
pub fn signatures_of<P: Resident>(
    alloc: Global,
    programs: &[P],
) -> Result<Vec<Signature>, AllocError>
    ensures { IfOk result (λ ss. ss.items ≡ map P.signature_of programs.now) }
{
    let mut signatures = Vec::with_capacity(alloc, programs.len())?;
    for program in programs {
        signatures.push(program.signature().clone()?)?;
    }
    Ok(signatures)
}

/// The first program with this name, if there is one.
pub fn program_named<'a, P: Resident>(programs: &'a [P], name: &[u8]) -> Option<&'a P>
    ensures { option_copied result ≡
        find (λ p. bytes_eq name.now (P.signature_of p).name) programs.now }
{
    programs
        .iter()
        .find(|program| name == program.signature().name.as_slice())
}

/// What comes of a call of the first program that has its name; it fails where there is none
/// (ISO/IEC 13522-5, Call).
pub fn call_program<P: Resident>(programs: &[P], call: &Call) -> Result<Outcome, AllocError>
    ensures { IfOk result (λ o. MayCome P.signature_of P.may_answer programs.now call.now o) }
{
    match program_named(programs, call.name.as_slice()) {
        Some(program) => outcome_of(program, call),
        None => Ok(Outcome::Failed),
    }
}

/// What comes of a call of this program.
fn outcome_of<P: Resident>(program: &P, call: &Call) -> Result<Outcome, AllocError>
    ensures { IfOk result (λ o. P.may_answer program.now call.now.time call.now.values o) }
{
    match program.call(call.time, call.values.as_slice()) {
        Ok(answer) => Ok(Outcome::Answered(answer.into_values())),
        Err(CallFailed::Failed) => Ok(Outcome::Failed),
        Err(CallFailed::NoMemory) => Err(AllocError),
    }
}

/// Programs of different types stand in one list, each in its box.
impl Resident for Box<dyn Resident> {
    ghost signature_of = { λ p. (Resident-box p).signature_of p.value };

    ghost may_answer = { λ p. (Resident-box p).may_answer p.value };

    fn signature(&self) -> &Signature {
        (**self).signature()
    }

    fn call(&self, now: Now, args: &[Value]) -> Result<Answer, CallFailed> {
        (**self).call(now, args)
    }
}
