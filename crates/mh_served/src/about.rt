//! What is answered about a file, a place in it, or the object that is named there.
use crate::asked::Asked;
use crate::mending::actions_for;
use crate::placing::{offset_in, path_in};
use crate::reply::{Reply, Why};
use crate::service::{Service, service_of};
use crate::session::Session;
use crate::workspace::Workspace;
use mh_answers::{
    File, colours_in, completions, definition_at, folds_in, hover_at, is_taken, layout_edits,
    number_of, object_at, references_to, renamed, renumbered_range, symbols_in,
};
use mh_base::ObjRef;
use mh_protocol::{Unit, is_set, text_at};
use serde_json::Value;
use std::alloc::{AllocError, Global};

/// What is answered about the file that a request names.
pub(crate) fn about_file<W: Workspace>(
    alloc: Global,
    workspace: &W,
    session: &Session,
    asked: Asked,
    message: &Value,
) -> Result<Reply, AllocError> {
    match path_in(alloc, message, "/params/textDocument/uri")? {
        Some(path) => about_path(alloc, workspace, session, path.as_slice(), asked, message),
        None => Ok(Reply::Refused(Why::NoFile)),
    }
}

fn about_path<W: Workspace>(
    alloc: Global,
    workspace: &W,
    session: &Session,
    path: &[u8],
    asked: Asked,
    message: &Value,
) -> Result<Reply, AllocError> {
    let service = service_of(alloc, workspace, &session.documents, path)?;
    in_service(alloc, session.unit, &service, path, asked, message)
}

fn in_service(
    alloc: Global,
    unit: Unit,
    service: &Service,
    path: &[u8],
    asked: Asked,
    message: &Value,
) -> Result<Reply, AllocError> {
    let Some(file) = service.file_at(path) else {
        return Ok(Reply::Refused(Why::NoFile));
    };
    let bytes = file.1.as_slice();
    let told = match asked {
        Asked::Symbols => symbols_in(alloc, unit, bytes)?,
        Asked::Folds => folds_in(alloc, unit, bytes)?,
        Asked::Colours => colours_in(alloc, unit, bytes)?,
        Asked::Layout => layout_edits(alloc, unit, bytes)?,
        Asked::Actions => actions_for(alloc, unit, bytes, message)?,
        _ => return at_place(alloc, unit, service, file, asked, message),
    };
    Ok(Reply::Told(told))
}

/// What is answered about a place of a file.
fn at_place(
    alloc: Global,
    unit: Unit,
    service: &Service,
    file: &File,
    asked: Asked,
    message: &Value,
) -> Result<Reply, AllocError> {
    let Some(offset) = offset_in(message, unit, file.1.as_slice()) else {
        return Ok(Reply::Refused(Why::NoPlace));
    };
    let folder = service.folder.as_slice();
    let files = service.files.as_slice();
    let told = match asked {
        Asked::Hover => hover_at(alloc, unit, files, file, offset)?,
        Asked::Definition => definition_at(alloc, unit, folder, files, file, offset)?,
        Asked::Completion => completions(alloc, unit, files, file, offset)?,
        Asked::RenamedRange => renumbered_range(alloc, unit, file, offset)?,
        _ => return about_object(alloc, unit, service, file, offset, asked, message),
    };
    Ok(Reply::Told(told))
}

/// What is answered about the object that is named at a place.
fn about_object(
    alloc: Global,
    unit: Unit,
    service: &Service,
    file: &File,
    offset: usize,
    asked: Asked,
    message: &Value,
) -> Result<Reply, AllocError> {
    match object_at(alloc, file, offset)? {
        Some(object) => {
            let reply = of_object(alloc, unit, service, &object, asked, message);
            drop(object);
            reply
        }
        None => match asked {
            Asked::Rename => Ok(Reply::Refused(Why::NoObject)),
            _ => Ok(Reply::Told(Value::Null)),
        },
    }
}

fn of_object(
    alloc: Global,
    unit: Unit,
    service: &Service,
    object: &ObjRef,
    asked: Asked,
    message: &Value,
) -> Result<Reply, AllocError> {
    match asked {
        Asked::Rename => renumbered(alloc, unit, service, object, message),
        _ => {
            let with_definition = is_set(message, "/params/context/includeDeclaration");
            Ok(Reply::Told(references_to(
                alloc,
                unit,
                service.folder.as_slice(),
                service.files.as_slice(),
                object,
                with_definition,
            )?))
        }
    }
}

/// The edits that give an ingredient the number that a request tells.
fn renumbered(
    alloc: Global,
    unit: Unit,
    service: &Service,
    object: &ObjRef,
    message: &Value,
) -> Result<Reply, AllocError> {
    if object.number == 0 {
        return Ok(Reply::Refused(Why::NoObject));
    }
    let Some(number) = number_told(message) else {
        return Ok(Reply::Refused(Why::BadNumber));
    };
    let files = service.files.as_slice();
    if number != object.number && is_taken(alloc, files, object, number)? {
        return Ok(Reply::Refused(Why::Taken));
    }
    let folder = service.folder.as_slice();
    Ok(Reply::Told(renamed(alloc, unit, folder, files, object, number)?))
}

fn number_told(message: &Value) -> Option<u32> {
    match text_at(message, "/params/newName") {
        Some(text) => number_of(text),
        None => None,
    }
}
