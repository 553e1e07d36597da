//! What is found of a service, told file by file.
ghost use Rattle.std.specs.Prelude.{◌≡◌, map, None, IfOk, OnOk};
ghost use Rattle.std.specs.Str.{bytes_eq};
ghost use Rattle.serde_json.specs.View.{view};
ghost use Rattle.mh_served.specs.Publishing.{EachFindingIsToldOnce};
ghost use Rattle.mh_served.specs.Publishing as spec;

use crate::diagnostics::diagnostics_at;
use crate::frames::put_messages;
use crate::service::{Service, service_of};
use crate::session::{Session, Told};
use crate::workspace::Workspace;
use mh_answers::{File, uri_of_path};
use mh_findings::Finding;
use mh_protocol::{Unit, notice};
use serde_json::{Value, json, push};
use std::alloc::{AllocError, Global};

/// Tells what is found of the service of the text at this path.
pub(crate) fn publish<W: Workspace>(
    alloc: Global,
    workspace: &W,
    session: &mut Session,
    path: &[u8],
    out: &mut Vec<u8>,
) -> Result<(), AllocError> {
    let service = service_of(alloc, workspace, &session.documents, path)?;
    publish_service(alloc, workspace, session, &service, path, out)
}

fn publish_service<W: Workspace>(
    alloc: Global,
    workspace: &W,
    session: &mut Session,
    service: &Service,
    path: &[u8],
    out: &mut Vec<u8>,
) -> Result<(), AllocError> {
    let found = found_in(alloc, workspace, service)?;
    tell(alloc, session, service, found.as_slice(), path, out)
}

/// What is found of a service; where something cannot be read that alone.
fn found_in<W: Workspace>(
    alloc: Global,
    workspace: &W,
    service: &Service,
) -> Result<Vec<Finding>, AllocError>
    ensures { IfOk result (λ found. service.now.unread ≡ None
        → W.finds workspace.now service.now.folder.items service.now.files.items found.items) }
{
    let folder = service.folder.as_slice();
    match &service.unread {
        Some(name) => {
            let mut found = Vec::new(alloc);
            found.push(workspace.unread(alloc, folder, name.as_slice())?)?;
            Ok(found)
        }
        None => workspace.findings(alloc, folder, service.files.as_slice()),
    }
}

/// Whatever else is found, and whatever was told, the path of a finding is told of once.
pub fn each_finding_is_told_once()
    ensures { EachFindingIsToldOnce }
{}

fn tell(
    alloc: Global,
    session: &mut Session,
    service: &Service,
    findings: &[Finding],
    path: &[u8],
    out: &mut Vec<u8>,
) -> Result<(), AllocError> {
    let folder = service.folder.as_slice();
    let files = service.files.as_slice();
    let told = session.told.as_slice();
    let notices = notices_of(alloc, session.unit, folder, files, findings, told, path)?;
    put_messages(alloc, out, notices.as_slice())?;
    drop(notices);
    note_told(alloc, &mut session.told, folder, findings)
}

/// A notice of each file that has to be told of.
fn notices_of(
    alloc: Global,
    unit: Unit,
    folder: &[u8],
    files: &[File],
    findings: &[Finding],
    told: &[Told],
    path: &[u8],
) -> Result<Vec<Value>, AllocError>
    ensures { IfOk result (λ found. map view found.items
        ≡ spec.notices unit folder.now files.now findings.now told.now path.now) }
{
    let paths = paths_to_tell(alloc, path, findings, told, folder)?;
    notices_at(alloc, unit, folder, files, findings, paths.as_slice())
}

fn notices_at(
    alloc: Global,
    unit: Unit,
    folder: &[u8],
    files: &[File],
    findings: &[Finding],
    paths: &[&[u8]],
) -> Result<Vec<Value>, AllocError>
    ensures { IfOk result (λ found. map view found.items
        ≡ map (spec.notice_at unit folder.now files.now findings.now) (map (λ p. p.now) paths.now)) }
{
    let mut found = Vec::new(alloc);
    for path in paths {
        push(
            &mut found,
            notice_at(alloc, unit, folder, files, findings, *path)?,
        )?;
    }
    Ok(found)
}

fn notice_at(
    alloc: Global,
    unit: Unit,
    folder: &[u8],
    files: &[File],
    findings: &[Finding],
    path: &[u8],
) -> Result<Value, AllocError>
    ensures { IfOk result (λ value. view value ≡ spec.notice_at unit folder.now files.now findings.now path.now) }
{
    let params = params_at(alloc, unit, folder, files, findings, path)?;
    notice(alloc, "textDocument/publishDiagnostics", params)
}

#[tactic(auto, unfolding(crate::specs::Publishing::params_at))]
fn params_at(
    alloc: Global,
    unit: Unit,
    folder: &[u8],
    files: &[File],
    findings: &[Finding],
    path: &[u8],
) -> Result<Value, AllocError>
    ensures { IfOk result (λ value. view value ≡ spec.params_at unit folder.now files.now findings.now path.now) }
{
    let found = diagnostics_at(alloc, unit, folder, files, findings, path)?;
    let uri = uri_of_path(alloc, path)?;
    json!(in alloc; {"diagnostics": found, "uri": uri.as_str()})
}

/// The paths that are told of, each once: that of the text, those at which something is found, and those at which something was.
fn paths_to_tell<'a>(
    alloc: Global,
    path: &'a [u8],
    findings: &'a [Finding],
    told: &'a [Told],
    folder: &[u8],
) -> Result<Vec<&'a [u8]>, AllocError>
    ensures { IfOk result (λ paths. map (λ p. p.now) paths.items
        ≡ spec.paths_to_tell path.entry.now findings.entry.now told.entry.now folder.now) }
{
    let mut paths = Vec::new(alloc);
    paths.push(path)?;
    push_files(&mut paths, findings)?;
    push_told(&mut paths, told, folder)?;
    Ok(paths)
}

fn push_files<'a>(paths: &mut Vec<&'a [u8]>, findings: &'a [Finding]) -> Result<(), AllocError>
    ensures { OnOk result (map (λ p. p.now) paths.new.items
        ≡ spec.with_files (map (λ p. p.now) paths.old.items) findings.entry.now) }
{
    for finding in findings {
        push_new(paths, finding.at.file.as_bytes())?;
    }
    Ok(())
}

fn push_told<'a>(
    paths: &mut Vec<&'a [u8]>,
    told: &'a [Told],
    folder: &[u8],
) -> Result<(), AllocError>
    ensures { OnOk result (map (λ p. p.now) paths.new.items
        ≡ spec.with_told folder.now (map (λ p. p.now) paths.old.items) told.entry.now) }
{
    for before in told {
        push_told_path(paths, before, folder)?;
    }
    Ok(())
}

fn push_told_path<'a>(
    paths: &mut Vec<&'a [u8]>,
    before: &'a Told,
    folder: &[u8],
) -> Result<(), AllocError>
    ensures { OnOk result (map (λ p. p.now) paths.new.items
        ≡ spec.with_told_by (bytes_eq before.entry.now.folder.items folder.now)
        (map (λ p. p.now) paths.old.items) before.entry.now.path.items) }
{
    if before.folder.as_slice() == folder {
        push_new(paths, before.path.as_slice())?;
    }
    Ok(())
}

fn push_new<'a>(paths: &mut Vec<&'a [u8]>, path: &'a [u8]) -> Result<(), AllocError>
    ensures { OnOk result (map (λ p. p.now) paths.new.items
        ≡ spec.with_path (map (λ p. p.now) paths.old.items) path.entry.now) }
{
    if has_path(paths.as_slice(), path) {
        return Ok(());
    }
    paths.push(path)?;
    Ok(())
}

fn has_path(paths: &[&[u8]], path: &[u8]) -> bool
    ensures { result ≡ spec.has_path path.now (map (λ p. p.now) paths.now) }
{
    for other in paths {
        if is_same(*other, path) {
            return true;
        }
    }
    false
}

fn is_same(first: &[u8], second: &[u8]) -> bool
    ensures { result ≡ bytes_eq first.now second.now }
{
    first == second
}

/// Notes of which files of the folder something is told now.
fn note_told(
    alloc: Global,
    told: &mut Vec<Told>,
    folder: &[u8],
    findings: &[Finding],
) -> Result<(), AllocError> {
    told.retain(|before| is_elsewhere(before, folder));
    for finding in findings {
        note_path(alloc, told, folder, finding.at.file.as_bytes())?;
    }
    Ok(())
}

fn is_elsewhere(told: &Told, folder: &[u8]) -> bool {
    told.folder.as_slice() != folder
}

fn note_path(
    alloc: Global,
    told: &mut Vec<Told>,
    folder: &[u8],
    path: &[u8],
) -> Result<(), AllocError> {
    if told.iter().any(|before| is_told(before, folder, path)) {
        return Ok(());
    }
    let noted = told_of(alloc, folder, path)?;
    told.push(noted)?;
    Ok(())
}

fn is_told(told: &Told, folder: &[u8], path: &[u8]) -> bool {
    told.folder.as_slice() == folder && told.path.as_slice() == path
}

fn told_of(alloc: Global, folder: &[u8], path: &[u8]) -> Result<Told, AllocError> {
    let folder = Vec::from_slice(alloc, folder)?;
    let path = Vec::from_slice(alloc, path)?;
    Ok(Told { folder, path })
}
