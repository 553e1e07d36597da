//! What an editor asks for.
use crate::about::about_file;
use crate::asked::{Asked, asked_of};
use crate::capabilities::{capabilities, unit_offered};
use crate::documents::Document;
use crate::reply::{Reply, Why};
use crate::service::{Service, service_of};
use crate::session::{Phase, Session};
use crate::workspace::Workspace;
use mh_answers::{colour_text, push_service_symbols};
use mh_protocol::{Unit, range_of, text_at};
use serde_json::Value;
use std::alloc::{AllocError, Global};

/// What is answered to a request.
pub(crate) fn reply_to<W: Workspace>(
    alloc: Global,
    workspace: &W,
    session: &mut Session,
    method: &str,
    message: &Value,
) -> Result<Reply, AllocError> {
    let asked = asked_of(method);
    match session.phase {
        Phase::Fresh => match asked {
            Asked::Initialize => initialized(alloc, session, message),
            _ => Ok(Reply::Refused(Why::NotInitialized)),
        },
        Phase::Running => reply_by(alloc, workspace, session, asked, message),
        Phase::Closing | Phase::Ended => Ok(Reply::Refused(Why::Closing)),
    }
}

fn initialized(alloc: Global, session: &mut Session, message: &Value) -> Result<Reply, AllocError> {
    session.unit = unit_offered(message);
    session.phase = Phase::Running;
    Ok(Reply::Told(capabilities(alloc, session.unit)?))
}

fn reply_by<W: Workspace>(
    alloc: Global,
    workspace: &W,
    session: &mut Session,
    asked: Asked,
    message: &Value,
) -> Result<Reply, AllocError> {
    match asked {
        Asked::Initialize => Ok(Reply::Refused(Why::InitializedBefore)),
        Asked::Shutdown => {
            session.phase = Phase::Closing;
            Ok(Reply::Told(Value::Null))
        }
        Asked::Unknown => Ok(Reply::Refused(Why::Unknown)),
        Asked::ColourText => coloured(alloc, message),
        Asked::ServiceSymbols => named(alloc, workspace, session, message),
        _ => about_file(alloc, workspace, session, asked, message),
    }
}

/// How a colour is written.
fn coloured(alloc: Global, message: &Value) -> Result<Reply, AllocError> {
    let range = match message.pointer("/params/range") {
        Some(range) => range_of(range),
        None => None,
    };
    let Some(range) = range else {
        return Ok(Reply::Refused(Why::NoPlace));
    };
    let parts = [
        part_at(message, "/params/color/red"),
        part_at(message, "/params/color/green"),
        part_at(message, "/params/color/blue"),
        part_at(message, "/params/color/alpha"),
    ];
    Ok(Reply::Told(colour_text(alloc, parts, range)?))
}

/// A part of light from 0 to 1, as a number up to 255.
fn part_at(message: &Value, path: &str) -> u8 {
    match message.pointer(path) {
        Some(part) => octet_of(part.as_f64()),
        None => 0,
    }
}

fn octet_of(part: Option<f64>) -> u8 {
    match part {
        Some(part) => std::num::saturating_f64_to_u8(part * 255.0 + 0.5),
        None => 0,
    }
}

/// The objects of all services that are open.
fn named<W: Workspace>(
    alloc: Global,
    workspace: &W,
    session: &Session,
    message: &Value,
) -> Result<Reply, AllocError> {
    let query = text_at(message, "/params/query").unwrap_or("");
    let mut found = Vec::new(alloc);
    let mut folders = Vec::new(alloc);
    for document in session.documents.as_slice() {
        push_named(
            alloc,
            workspace,
            session,
            document,
            query,
            &mut folders,
            &mut found,
        )?;
    }
    Ok(Reply::Told(Value::Array(found)))
}

/// Pushes the objects of the service of a text, if it is none of those before.
fn push_named<W: Workspace>(
    alloc: Global,
    workspace: &W,
    session: &Session,
    document: &Document,
    query: &str,
    folders: &mut Vec<Vec<u8>>,
    found: &mut Vec<Value>,
) -> Result<(), AllocError> {
    let path = document.path.as_slice();
    let service = service_of(alloc, workspace, &session.documents, path)?;
    push_service(alloc, session.unit, &service, query, folders, found)
}

fn push_service(
    alloc: Global,
    unit: Unit,
    service: &Service,
    query: &str,
    folders: &mut Vec<Vec<u8>>,
    found: &mut Vec<Value>,
) -> Result<(), AllocError> {
    let folder = service.folder.as_slice();
    if folders.iter().any(|other| is_folder(other, folder)) {
        return Ok(());
    }
    folders.push(Vec::from_slice(alloc, folder)?)?;
    push_service_symbols(alloc, found, unit, folder, service.files.as_slice(), query)
}

fn is_folder(folder: &Vec<u8>, wanted: &[u8]) -> bool {
    folder.as_slice() == wanted
}
