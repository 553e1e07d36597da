//! The lines on the accepted service of some files: what never happens, and notes.
//!
//! Promise: each line `never:` is told of what happens in no run of the service.
ghost use Rattle.std.specs.Prelude.{[], Ok, IfOk};
ghost use Rattle.std.specs.Option.{option_copied};
ghost use Rattle.mh_flow.specs.Equipment.{equipped};
ghost use Rattle.mh_told.specs.Reading.{service_tagged};
ghost use Rattle.mh_why.specs.Lint.{AreLinesOn, IsLintOf};

use mh_base::GroupName;
use mh_flow::Equipped;
use mh_lint::{Asked, findings_never_happen, lint_text};
use mh_service::Service;
use mh_told::reading::read_tagged_service;
use mh_told::text::Text;
use mh_told::unplayable::Unplayable;
use mh_verify::{Accepted, RefusalKind, verify};
use std::alloc::{AllocError, Global};

/// The lines on the service that these files make, which starts with the application of this name, in which the scenes come
/// late that `late` names, a name a line, and whose files in the binary notation have the tags that `tags` gives. None where
/// they make no service, or the verifier refuses it.
pub fn lint_of(
    alloc: Global,
    tags: Option<&[u8]>,
    files: &[(GroupName, Vec<u8>)],
    start: &[u8],
    late: Option<&[u8]>,
    asked: Asked,
) -> Result<Option<Text>, AllocError>
    ensures { IfOk result (AreLinesOn asked files.now
        (service_tagged (option_copied tags.entry) start.now (option_copied late.entry) files.now)) }
{
    match read_tagged_service(alloc, tags, files, start, late) {
        Ok(service) => verified(alloc, service, files, asked),
        Err(Unplayable::NoMemory) => Err(AllocError),
        Err(_) => Ok(None),
    }
}

/// The lines on a service, if the verifier accepts it, where the receiver has the built-in programs alone.
fn verified(
    alloc: Global,
    service: Service,
    files: &[(GroupName, Vec<u8>)],
    asked: Asked,
) -> Result<Option<Text>, AllocError>
    ensures { IfOk result (AreLinesOn asked files.now (Ok service)) }
{
    match verify(alloc, service, &[]) {
        Ok(accepted) => {
            let lines = lines_on(alloc, &accepted, files, asked);
            drop(accepted);
            Ok(Some(lines?))
        }
        Err(refusal) => {
            let wants_memory = matches!(refusal.kind, RefusalKind::NoMemory);
            drop(refusal);
            if wants_memory {
                Err(AllocError)
            } else {
                Ok(None)
            }
        }
    }
}

/// The lines on an accepted service.
fn lines_on(
    alloc: Global,
    accepted: &Accepted,
    files: &[(GroupName, Vec<u8>)],
    asked: Asked,
) -> Result<Text, AllocError>
    ensures { IfOk result (IsLintOf asked accepted.now.service files.now) }
{
    findings_never_happen();
    let service = Equipped::new(accepted.service(), accepted.programs());
    lint_text(alloc, &service, accepted.flow(), files, asked)
}
