//! What an editor tells: what it opens, changes and closes.
use crate::changes::changed;
use crate::placing::path_in;
use crate::publishing::publish;
use crate::session::{Phase, Session};
use crate::workspace::Workspace;
use mh_protocol::text_at;
use serde_json::Value;
use std::alloc::{AllocError, Global};

/// Where a message names its file.
const FILE: &str = "/params/textDocument/uri";

/// Takes what is told.
pub(crate) fn take_notice<W: Workspace>(
    alloc: Global,
    workspace: &W,
    session: &mut Session,
    method: &str,
    message: &Value,
    out: &mut Vec<u8>,
) -> Result<(), AllocError> {
    if method == "exit" {
        session.is_closed_well = session.phase == Phase::Closing;
        session.phase = Phase::Ended;
        return Ok(());
    }
    if session.phase != Phase::Running {
        return Ok(());
    }
    match method {
        "workspace/didChangeWatchedFiles" => {
            publish_watched(alloc, workspace, session, message, out)
        }
        _ => take_of_file(alloc, workspace, session, method, message, out),
    }
}

/// Tells what is found of the services of files that changed on the disk.
fn publish_watched<W: Workspace>(
    alloc: Global,
    workspace: &W,
    session: &mut Session,
    message: &Value,
    out: &mut Vec<u8>,
) -> Result<(), AllocError> {
    if let Some(Value::Array(changes)) = message.pointer("/params/changes") {
        for change in changes {
            publish_change(alloc, workspace, session, change, out)?;
        }
    }
    Ok(())
}

fn publish_change<W: Workspace>(
    alloc: Global,
    workspace: &W,
    session: &mut Session,
    change: &Value,
    out: &mut Vec<u8>,
) -> Result<(), AllocError> {
    match path_in(alloc, change, "/uri")? {
        Some(path) => publish(alloc, workspace, session, path.as_slice(), out),
        None => Ok(()),
    }
}

fn take_of_file<W: Workspace>(
    alloc: Global,
    workspace: &W,
    session: &mut Session,
    method: &str,
    message: &Value,
    out: &mut Vec<u8>,
) -> Result<(), AllocError> {
    match path_in(alloc, message, FILE)? {
        Some(path) => take_at(
            alloc,
            workspace,
            session,
            method,
            message,
            path.as_slice(),
            out,
        ),
        None => Ok(()),
    }
}

/// Takes what is told of the file at this path, and tells what is found where it changed.
fn take_at<W: Workspace>(
    alloc: Global,
    workspace: &W,
    session: &mut Session,
    method: &str,
    message: &Value,
    path: &[u8],
    out: &mut Vec<u8>,
) -> Result<(), AllocError> {
    let is_changed = match method {
        "textDocument/didOpen" => open_text(alloc, session, message, path)?,
        "textDocument/didChange" => change_text(alloc, session, message, path)?,
        "textDocument/didClose" => {
            session.documents.close(path);
            true
        }
        _ => false,
    };
    if is_changed {
        publish(alloc, workspace, session, path, out)?;
    }
    Ok(())
}

fn open_text(
    alloc: Global,
    session: &mut Session,
    message: &Value,
    path: &[u8],
) -> Result<bool, AllocError> {
    match text_at(message, "/params/textDocument/text") {
        Some(text) => {
            put_text(alloc, session, path, text.as_bytes())?;
            Ok(true)
        }
        None => Ok(false),
    }
}

fn put_text(
    alloc: Global,
    session: &mut Session,
    path: &[u8],
    text: &[u8],
) -> Result<(), AllocError> {
    let path = Vec::from_slice(alloc, path)?;
    let text = Vec::from_slice(alloc, text)?;
    session.documents.put(path, text)
}

/// Changes a text that is open, and says whether it is.
fn change_text(
    alloc: Global,
    session: &mut Session,
    message: &Value,
    path: &[u8],
) -> Result<bool, AllocError> {
    let Some(Value::Array(changes)) = message.pointer("/params/contentChanges") else {
        return Ok(false);
    };
    let Some(text) = session.documents.text_of(path) else {
        return Ok(false);
    };
    let text = changed(alloc, session.unit, text, changes.as_slice())?;
    put_text(alloc, session, path, text.as_slice())?;
    Ok(true)
}
