//! What is found of an accepted service.
//!
//! Promise: each function answers what the definition of the same matter in `specs/Accepted` says.
ghost use Rattle.std.specs.Prelude.{IfOk};
ghost use Rattle.mh_flow.specs.Solved.{IsFlowOf, flow_in};
ghost use Rattle.mh_judged.specs.Accepted.{IsAcceptedList, IsList};

use crate::never::never_list;
use crate::noted::push_notes;
use mh_base::GroupName;
use mh_findings::Finding;
use mh_flow::{Equipped, Flow};
use mh_lint::{Asked, Grounds, findings_never_happen};
use mh_verify::Accepted;
use std::alloc::{AllocError, Global};

/// What never happens in an accepted service, and what is noted of it.
pub(crate) fn accepted_findings(
    alloc: Global,
    accepted: &Accepted,
    folder: &[u8],
    files: &[(GroupName, Vec<u8>)],
    asked: Asked,
) -> Result<Vec<Finding>, AllocError>
    ensures { IfOk result (λ found.
        IsAcceptedList asked accepted.now.service folder.now files.now found.items) }
{
    findings_never_happen();
    let service = Equipped::new(accepted.service(), accepted.programs());
    list_by_flow(alloc, &service, accepted.flow(), folder, files, asked)
}

fn list_by_flow(
    alloc: Global,
    service: &Equipped<'_>,
    flow: &Flow,
    folder: &[u8],
    files: &[(GroupName, Vec<u8>)],
    asked: Asked,
) -> Result<Vec<Finding>, AllocError>
    requires { IsFlowOf service.now flow.now }
    ensures { IfOk result (λ found.
        IsList asked service.now (flow_in service.now flow.now) folder.now files.now found.items) }
{
    let grounds = Grounds::of(alloc, files)?;
    let found = list_by_grounds(alloc, service, flow, folder, &grounds, asked);
    drop(grounds);
    found
}

/// The same, by what is known of the files.
fn list_by_grounds(
    alloc: Global,
    service: &Equipped<'_>,
    flow: &Flow,
    folder: &[u8],
    grounds: &Grounds<'_>,
    asked: Asked,
) -> Result<Vec<Finding>, AllocError>
    requires { IsFlowOf service.now flow.now }
    ensures { IfOk result (λ found.
        IsList asked service.now (flow_in service.now flow.now) folder.now grounds.now found.items) }
{
    let directory = grounds.directory();
    let mut found = never_list(alloc, service, flow, folder, directory, asked.all)?;
    push_notes(alloc, &mut found, service, folder, grounds, asked)?;
    Ok(found)
}
