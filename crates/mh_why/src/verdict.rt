//! The verdict on the service that some files make.
//!
//! Promise: it is what reading and the verifier say of the files, and no other.
ghost use Rattle.std.specs.Prelude.{◌≡◌, Ok, IfOk};
ghost use Rattle.std.specs.Option.{option_copied};
ghost use Rattle.mh_told.specs.Reading.{service_tagged};
ghost use Rattle.mh_why.specs.Verdict.{IsVerdictOn, verdict_lines};

use mh_base::GroupName;
use mh_layers::Bounds;
use mh_service::Service;
use mh_told::reading::read_tagged_service;
use mh_told::text::Text;
use mh_told::unplayable::Unplayable;
use mh_verdict::{accepted_text, complaint_text, refusal_text};
use mh_verify::{Refusal, RefusalKind, verify};
use std::alloc::{AllocError, Global};

/// What is said of some files.
#[derive(Drop)]
pub enum Verdict {
    /// They make no service.
    Unreadable(Unplayable),
    /// The verifier refuses it.
    Refused(Refusal),
    /// It is accepted, with these bounds.
    Accepted(Bounds),
}

/// The verdict on the service that these files make, which starts with the application of this name, in which the scenes
/// come late that `late` names, a name a line, and whose files in the binary notation have the tags that `tags` gives.
pub fn verdict_on(
    alloc: Global,
    tags: Option<&[u8]>,
    files: &[(GroupName, Vec<u8>)],
    start: &[u8],
    late: Option<&[u8]>,
) -> Result<Verdict, AllocError>
    ensures { IfOk result (IsVerdictOn (service_tagged (option_copied tags.entry) start.now (option_copied late.entry) files.now)) }
{
    match read_tagged_service(alloc, tags, files, start, late) {
        Ok(service) => verified(alloc, service),
        Err(why) => match why {
            Unplayable::NoMemory => Err(AllocError),
            _ => Ok(Verdict::Unreadable(why)),
        },
    }
}

/// What the verifier says of a service, where the receiver has the built-in programs alone.
fn verified(alloc: Global, service: Service) -> Result<Verdict, AllocError>
    ensures { IfOk result (IsVerdictOn (Ok service)) }
{
    match verify(alloc, service, &[]) {
        Ok(accepted) => Ok(Verdict::Accepted(accepted.bounds())),
        Err(refusal) => match refusal.kind {
            RefusalKind::NoMemory => Err(AllocError),
            _ => Ok(Verdict::Refused(refusal)),
        },
    }
}

/// The lines that `redplay check` prints on it.
pub fn verdict_text(alloc: Global, verdict: &Verdict) -> Result<Text, AllocError>
    ensures { IfOk result (λ text. text ≡ verdict_lines verdict.now) }
{
    match verdict {
        Verdict::Unreadable(why) => complaint_text(alloc, why),
        Verdict::Refused(refusal) => refusal_text(alloc, refusal),
        Verdict::Accepted(bounds) => accepted_text(alloc, bounds),
    }
}
