//! What is told of a service that is checked.
ghost use Rattle.std.specs.Prelude.{◌≡◌, Ok, Some, IfOk, IsErrOf, [], false};
ghost use Rattle.mh_model.specs.Service.{Service as ServiceValue};
ghost use Rattle.mh_verdict.specs.Lines.{complaint};
ghost use Rattle.mh_verify.specs.Order.{IsTold};
ghost use Rattle.redplay_c.specs.Files.{chosen_service, have_paths, reading_number};
ghost use Rattle.redplay_c.specs.Verdicts.{AreChecked, Checks};

use crate::answer::{GOOD, UNACCEPTED, reading_number};
use crate::crossing::Source;
use crate::reading::{owned_files, read_chosen};
use mh_base::{GroupName, NameError};
use mh_codec::TagTable;
use mh_service::Service;
use mh_told::text::Text;
use mh_told::unplayable::Unplayable;
use mh_verdict::{accepted_text, complaint_text, refusal_text};
use mh_verify::{Refusal, RefusalKind, verify};
use std::alloc::{AllocError, Global};

/// The lines on a service, and the number that is answered with them.
#[derive(Drop)]
pub struct Verdict {
    pub text: Text,
    pub number: u32,
}

/// The verdict on the files that are handed in.
#[tactic(auto, using(crate::proofs::VerdictLemmas::checked_so))]
pub fn checked(
    alloc: Global,
    sources: &[Source],
    start: &[u8],
    late: &[u8],
) -> Result<Verdict, NameError>
    ensures checked { IfOk result (λ verdict. AreChecked sources.now start.now late.now verdict.text verdict.number) }
    ensures bad { IsErrOf result NameError.BadName → have_paths sources.now ≡ false }
{
    match owned_files(alloc, sources) {
        Ok(files) => match verdict_on(alloc, files.as_slice(), start, late) {
            Ok(verdict) => Ok(verdict),
            Err(_) => Err(NameError::NoMemory),
        },
        Err(why) => Err(why),
    }
}

fn verdict_on(
    alloc: Global,
    files: &[(GroupName, Vec<u8>)],
    start: &[u8],
    late: &[u8],
) -> Result<Verdict, AllocError>
    ensures { IfOk result (λ verdict. Checks (chosen_service start.now late.now files.now) verdict.text verdict.number) }
{
    let tags = TagTable::profile(alloc)?;
    match read_chosen(alloc, &tags, files, start, late) {
        Ok(service) => judge(alloc, service),
        Err(why) => complain(alloc, &why),
    }
}

/// What cannot be read.
fn complain(alloc: Global, why: &Unplayable) -> Result<Verdict, AllocError>
    ensures line { IfOk result (λ verdict. verdict.text ≡ complaint why.now) }
    ensures number { IfOk result (λ verdict. reading_number why.now ≡ Some verdict.number) }
{
    match reading_number(why) {
        Some(number) => told(complaint_text(alloc, why), number),
        None => Err(AllocError),
    }
}

/// What the verifier says of a service, for an engine that has the built-in programs alone.
fn judge(alloc: Global, service: Service) -> Result<Verdict, AllocError>
    requires { service.programs ≡ [] }
    ensures { IfOk result (λ verdict. Checks (Ok service) verdict.text verdict.number) }
{
    match verify(alloc, service, &[]) {
        Ok(accepted) => {
            let bounds = accepted.bounds();
            drop(accepted);
            told(accepted_text(alloc, &bounds), GOOD)
        }
        Err(refusal) => {
            let verdict = refused(alloc, &refusal);
            drop(refusal);
            verdict
        }
    }
}

/// What is told of a refusal; nothing where that is for want of memory.
fn refused(alloc: Global, refusal: &Refusal) -> Result<Verdict, AllocError>
    ensures { (s : ServiceValue) → IsTold s [] refusal.now →
        IfOk result (λ verdict. Checks (Ok s) verdict.text verdict.number) }
{
    match refusal.kind {
        RefusalKind::NoMemory => Err(AllocError),
        _ => told(refusal_text(alloc, refusal), UNACCEPTED),
    }
}

/// A text with its number.
fn told(text: Result<Text, AllocError>, number: u32) -> Result<Verdict, AllocError>
    ensures text { IfOk result (λ verdict. text ≡ Ok verdict.text) }
    ensures number { IfOk result (λ verdict. verdict.number ≡ number) }
{
    match text {
        Ok(text) => Ok(Verdict { text, number }),
        Err(why) => Err(why),
    }
}
