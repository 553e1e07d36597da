//! An engine beside programs of its receiver: one that doubles a number, and one that always fails.
//!
//! A case says which of the two the receiver has, in which order, which one is called, and with which
//! number; the service was verified beside both, the one that doubles first.
ghost use Rattle.std.specs.Prelude.{◌≡◌, ◌∷◌, [], ◌+ℤ◌, codes, IfOk, IfErr};
ghost use Rattle.mh_base.specs.declared.value.Value.TheVariants as value;
ghost use Rattle.mh_model.specs.declared.program.Outcome.TheVariants as outcome_lem;
ghost use Rattle.mh_resident.specs.declared.answer.CallFailed.TheVariants as call_failed;
ghost use Rattle.mh_model.specs.declared.program.Param.TheVariants as param;
ghost use Rattle.mh_model.specs.declared.program.Plain.TheVariants as plain;
ghost use Rattle.mh_tests.specs.Doubling.{numbers, IsDouble, MayDouble};

use crate::cases::all_hold;
use crate::playing::DAY;
use mh_base::{GroupName, Octets, Shared, Value};
use mh_cases::{Question, add_named, word};
use mh_engine::{Receiver, Stepped, Unready};
use mh_model::{Now, Param, Plain, Signature};
use mh_resident::{Answer, CallFailed, Resident, signatures_of};
use mh_service::Service;
use mh_verify::{Accepted, verify};
use std::alloc::{AllocError, Global};

/// A number in, and a number out.
fn signature(alloc: Global, name: &[u8]) -> Result<Signature, AllocError>
    ensures { IfOk result (λ s. s ≡ numbers name.now) }
{
    let name = Octets::from_slice(alloc, name)?;
    let params = vec![in alloc; Param::In(Plain::Int), Param::Out(Plain::Int)]?;
    let params = Shared::from_vec(alloc, params)?;
    Ok(Signature { name, params })
}

/// One that doubles a number, and fails where the double is none of 32 bits.
#[derive(Drop)]
struct Doubling {
    alloc: Global,
    signature: Signature,
    ghost its_own: { signature ≡ numbers (codes "DBL") },
}

impl Resident for Doubling {
    ghost signature_of = { λ _. numbers (codes "DBL") };

    ghost may_answer = { λ _ _ values outcome. MayDouble values outcome };

    fn signature(&self) -> &Signature {
        &self.signature
    }

    fn call(&self, _: Now, args: &[Value]) -> Result<Answer, CallFailed> {
        match args {
            [Value::Int(number)] => double(self.alloc, *number),
            _ => Err(CallFailed::Failed),
        }
    }
}

impl Doubling {
    fn new(alloc: Global) -> Option<Doubling> {
        let signature = signature(alloc, b"DBL").ok()?;
        Some(Doubling { alloc, signature })
    }
}

/// One that always fails.
#[derive(Drop)]
struct Failing {
    signature: Signature,
    ghost its_own: { signature ≡ numbers (codes "NOT") },
}

impl Failing {
    fn new(alloc: Global) -> Option<Failing> {
        let signature = signature(alloc, b"NOT").ok()?;
        Some(Failing { signature })
    }
}

impl Resident for Failing {
    ghost signature_of = { λ _. numbers (codes "NOT") };

    ghost may_answer = { λ _ _ _ outcome. outcome ≡ outcome_lem.Failed };

    fn signature(&self) -> &Signature {
        &self.signature
    }

    fn call(&self, _: Now, _: &[Value]) -> Result<Answer, CallFailed> {
        Err(CallFailed::Failed)
    }
}

/// The double of a number, if it is one of 32 bits.
fn double(alloc: Global, number: i32) -> Result<Answer, CallFailed>
    ensures gives { IfOk result (λ vs. IsDouble number (outcome_lem.Answered vs)) }
    ensures one { IfOk result (λ vs. vs ≡ value.Int (number +ℤ number) ∷ []) }
    ensures fails { IfErr result (λ why. why ≡ call_failed.Failed → IsDouble number outcome_lem.Failed) }
{
    match number.checked_add(number) {
        Some(twice) => {
            let values = vec![in alloc; Value::Int(twice)]?;
            Ok(Answer::of_vec(values))
        }
        None => Err(CallFailed::Failed),
    }
}

/// What is called is the program with this number. What comes of it is put into variable 4, and an
/// exclamation mark behind that where it failed.
fn service(alloc: Global, program: &str, number: &str) -> Option<Service> {
    let file = format!(in alloc;
        "a {{:Application (\"~/a\" 0) :Items ( {{:ResidentPrg 1 :Name 'DBL' }} {{:ResidentPrg 2 :Name \
         'NOT' }} {{:BooleanVar 3 :OrigValue true }} {{:IntegerVar 4 :OrigValue 0 }} {{:OStringVar 5 \
         :OrigValue '' }} {{:Text 7 :OrigBoxSize 720 16 }} {{:Link 8 :EventSource 3 :EventType TestEvent \
         :EventData true :LinkEffect ( :Append (5 '!') :SetData (7 :IndirectRef 5) ) }} {{:Link 9 \
         :EventSource 0 :EventType IsRunning :LinkEffect ( :Call ({program} 3 ( :GInteger {number} \
         :GInteger :IndirectRef 4 )) :SetVariable (5 :GInteger :IndirectRef 4) :SetData (7 :IndirectRef 5) \
         :TestVariable (3 1 :GBoolean false) ) }} ) }}"
    )
    .ok()?;
    let mut files = Vec::new(alloc);
    let added = add_named(alloc, &mut files, file.as_str());
    let start = GroupName::of_path(alloc, b"a").ok();
    let (files, start) = added.and(Some(files)).zip(start)?;
    Service::of_files(alloc, files, start).ok()
}

/// Puts the first characters that are shown when there is nothing left to do.
fn put_shown<P: Resident>(shown: &mut Vec<u8>, receiver: &mut Receiver<P>) -> Option<()> {
    for _ in 0..100 {
        if matches!(receiver.step(), Ok(Stepped::Idle | Stepped::Ended)) {
            break;
        }
    }
    for scalar in receiver.picture().scalars().iter().take(12) {
        shown.push(u8::try_from(*scalar).ok()?).ok()?;
    }
    Some(())
}

/// What is shown, or the number of the refusal.
fn outcome<P: Resident>(
    alloc: Global,
    started: &mut Result<Receiver<P>, Unready<P>>,
) -> Option<Vec<u8>> {
    match started {
        Ok(receiver) => {
            let mut shown = Vec::new(alloc);
            let put = put_shown(&mut shown, receiver);
            let text = put.and(str::from_utf8(shown.as_slice()).ok())?;
            Vec::from_slice(alloc, text.trim_end().as_bytes()).ok()
        }
        Err(refused) => {
            let number = refused.why.number()?;
            Some(format!(in alloc; "{number}").ok()?.into_bytes())
        }
    }
}

/// The service, verified beside these programs.
fn verified<P: Resident>(alloc: Global, asked: &str, programs: &[P]) -> Option<Accepted> {
    let program = if word(asked, 1) == "DBL" { "1" } else { "2" };
    let known = signatures_of(alloc, programs).ok();
    let (service, known) = service(alloc, program, word(asked, 2)).zip(known)?;
    verify(alloc, service, known.as_slice()).ok()
}

/// The programs that the receiver has in the end.
fn arranged<P: Drop>(asked: &str, programs: Vec<P>) -> Vec<P> {
    let mut programs = programs;
    match word(asked, 0) {
        "turned" => programs.reverse(),
        "one" => programs.truncate(1),
        _ => {}
    }
    programs
}

/// What comes of the service, which was verified beside all of these programs.
fn outcome_beside<P: Resident>(alloc: Global, asked: &str, programs: Vec<P>) -> Option<Vec<u8>> {
    let accepted = verified(alloc, asked, programs.as_slice());
    let (accepted, programs) = accepted.zip(Some(arranged(asked, programs)))?;
    let mut started = Receiver::start(alloc, accepted, programs, DAY);
    let told = outcome(alloc, &mut started);
    drop(started);
    told
}

/// Which programs there are, the one that is called, and a number.
struct Beside;

impl Question for Beside {
    fn answer(alloc: Global, asked: &str, _: &[u8]) -> Option<Vec<u8>> {
        let mut programs: Vec<Box<dyn Resident>> = Vec::new(alloc);
        let doubling: Box<dyn Resident> = Box::new(alloc, Doubling::new(alloc)?).ok()?;
        programs.push(doubling).ok()?;
        let failing: Box<dyn Resident> = Box::new(alloc, Failing::new(alloc)?).ok()?;
        programs.push(failing).ok()?;
        outcome_beside(alloc, asked, programs)
    }
}

static PROGRAMS: &str = r#"
both DBL 21 => 42;;
both DBL -21 => -42;;
both DBL 1073741823 => 2147483646;;
both DBL -1073741824 => -2147483648;;
both DBL 1073741824 => 0!;;
both NOT 21 => 0!;;
turned DBL 21 => 50;;
one DBL 21 => 50"#;

#[test]
fn calls_programs(rt: HostRuntime) {
    all_hold::<Beside>(&rt, rt.alloc(), PROGRAMS);
}
