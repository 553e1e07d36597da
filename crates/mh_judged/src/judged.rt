//! What is found of the files of a folder.
//!
//! Promise: it is the list that `specs/Judged` says, of what reading and the verifier say of the files.
ghost use Rattle.std.specs.Prelude.{◌≡◌, ◌∷◌, [], IfOk};
ghost use Rattle.std.specs.Option.{option_copied};
ghost use Rattle.mh_told.specs.Reading.{service_tagged};
ghost use Rattle.mh_told.specs.declared.unplayable.Unplayable.TheVariants.{NoMemory as unplayable_memory};
ghost use Rattle.mh_verify.specs.declared.refusal.RefusalKind.TheVariants.{NoMemory};
ghost use Rattle.mh_judged.specs.Judged.{IsListBehind, IsListOf, IsServiceList};
ghost use Rattle.mh_judged.specs.Others.{told_findings};
ghost use Rattle.mh_judged.specs.Refusals.{refusal_finding as refusal_finding_lem};
ghost use Rattle.mh_judged.specs.Unread.{unread_findings};

use crate::accepted::accepted_findings;
use crate::others::push_others;
use crate::refused::refusal_finding;
use crate::unread::push_unread;
use mh_base::GroupName;
use mh_findings::Finding;
use mh_flow::Equipped;
use mh_lint::Asked;
use mh_places::Directory;
use mh_refusals::{Told, refusals_of};
use mh_service::Service;
use mh_told::reading::read_tagged_service;
use mh_told::unplayable::Unplayable;
use mh_verify::{Refusal, RefusalKind, verify};
use std::alloc::{AllocError, Global};

/// What is found of the service that the files of a folder make, which starts with the application of this name, in which the
/// scenes come late that `late` names, a name a line, and whose files in the binary notation have the tags that `tags` gives.
/// The folder is called so, and the file that gives tags is called `given`. Of what is refused at most so many are told.
pub fn findings_on(
    alloc: Global,
    given: &[u8],
    tags: Option<&[u8]>,
    folder: &[u8],
    files: &[(GroupName, Vec<u8>)],
    start: &[u8],
    late: Option<&[u8]>,
    asked: Asked,
    most: usize,
) -> Result<Vec<Finding>, AllocError>
    ensures { IfOk result (λ found. IsListOf asked most given.now folder.now files.now start.now
        (service_tagged (option_copied tags.entry) start.now (option_copied late.entry) files.now) found.items) }
{
    match read_tagged_service(alloc, tags, files, start, late) {
        Ok(service) => verified(alloc, service, folder, files, start, asked, most),
        Err(why) => {
            let found = unplayable(alloc, given, folder, files, &why);
            drop(why);
            found
        }
    }
}

/// What is found of files that make no service.
fn unplayable(
    alloc: Global,
    given: &[u8],
    folder: &[u8],
    files: &[(GroupName, Vec<u8>)],
    why: &Unplayable,
) -> Result<Vec<Finding>, AllocError>
    ensures { IfOk result (λ found.
        (found.items ≡ unread_findings given.now folder.now files.now why.now)
        × (why.now ≡ unplayable_memory → ⊥)) }
{
    match why {
        Unplayable::NoMemory => Err(AllocError),
        _ => unread(alloc, given, folder, files, why),
    }
}

/// The same, where it is not for want of memory.
fn unread(
    alloc: Global,
    given: &[u8],
    folder: &[u8],
    files: &[(GroupName, Vec<u8>)],
    why: &Unplayable,
) -> Result<Vec<Finding>, AllocError>
    ensures { IfOk result (λ found. found.items ≡ unread_findings given.now folder.now files.now why.now) }
{
    let mut found = Vec::new(alloc);
    push_unread(alloc, &mut found, given, folder, files, why)?;
    Ok(found)
}

/// What is found of a service, where the receiver has the built-in programs alone.
fn verified(
    alloc: Global,
    service: Service,
    folder: &[u8],
    files: &[(GroupName, Vec<u8>)],
    start: &[u8],
    asked: Asked,
    most: usize,
) -> Result<Vec<Finding>, AllocError>
    ensures { IfOk result (λ found. IsServiceList asked most service folder.now files.now start.now found.items) }
{
    match verify(alloc, service, &[]) {
        Ok(accepted) => {
            let found = accepted_findings(alloc, &accepted, folder, files, asked);
            drop(accepted);
            found
        }
        Err(refusal) => {
            let found = refused(alloc, folder, files, start, &refusal, most);
            drop(refusal);
            found
        }
    }
}

/// What is found of a refusal, and of what else is wrong, all at most so many.
fn refused(
    alloc: Global,
    folder: &[u8],
    files: &[(GroupName, Vec<u8>)],
    start: &[u8],
    refusal: &Refusal,
    most: usize,
) -> Result<Vec<Finding>, AllocError>
    ensures { IfOk result (λ found.
        IsListBehind most folder.now files.now start.now refusal.now found.items
        × (refusal.now.kind ≡ NoMemory → ⊥)) }
{
    match refusal.kind {
        RefusalKind::NoMemory => Err(AllocError),
        _ => list_of(alloc, folder, files, start, refusal, most),
    }
}

/// The same, where the refusal is not for want of memory.
fn list_of(
    alloc: Global,
    folder: &[u8],
    files: &[(GroupName, Vec<u8>)],
    start: &[u8],
    refusal: &Refusal,
    most: usize,
) -> Result<Vec<Finding>, AllocError>
    ensures { IfOk result (λ found. IsListBehind most folder.now files.now start.now refusal.now found.items) }
{
    let directory = Directory::of(alloc, files)?;
    let found = list_by(alloc, folder, &directory, start, refusal, most);
    drop(directory);
    found
}

/// The same, by where things stand in the files.
fn list_by(
    alloc: Global,
    folder: &[u8],
    directory: &Directory<'_>,
    start: &[u8],
    refusal: &Refusal,
    most: usize,
) -> Result<Vec<Finding>, AllocError>
    ensures { IfOk result (λ found. IsListBehind most folder.now directory.now start.now refusal.now found.items) }
{
    let service = Equipped::new(&refusal.service, &[]);
    let told = refusals_of(alloc, &service, most)?;
    list_told(alloc, folder, directory, start, refusal, told.as_slice())
}

/// The refusal, and these but for the first.
fn list_told(
    alloc: Global,
    folder: &[u8],
    directory: &Directory<'_>,
    start: &[u8],
    refusal: &Refusal,
    told: &[Told],
) -> Result<Vec<Finding>, AllocError>
    ensures { IfOk result (λ found. found.items
        ≡ refusal_finding_lem folder.now directory.now start.now refusal.now
        ∷ told_findings refusal.now.service folder.now directory.now told.now) }
{
    let mut found = Vec::new(alloc);
    found.push(refusal_finding(alloc, folder, directory, start, refusal)?)?;
    push_others(alloc, &mut found, &refusal.service, folder, directory, told)?;
    Ok(found)
}
