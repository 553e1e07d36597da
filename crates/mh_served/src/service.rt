//! The service of a text: the files of the nearest folder above it that has the application, with what is open in place of what
//! lies on the disk.
ghost use Rattle.std.specs.Prelude.{◌≤◌, length};

use crate::documents::{Document, Documents};
use crate::paths::parent_of;
use crate::workspace::{Listed, Workspace};
use mh_answers::{File, file_named, name_in, path_of};
use mh_base::{GroupName, NameError};
use std::alloc::{AllocError, Global};

/// The file with which a service starts.
const APPLICATION: &[u8] = b"a";

/// A service, as it is being edited.
#[derive(Drop)]
pub(crate) struct Service {
    pub(crate) folder: Vec<u8>,
    pub(crate) files: Vec<File>,
    /// What could not be read, by its path.
    pub(crate) unread: Option<Vec<u8>>,
}

impl Service {
    /// The file at this path.
    pub(crate) fn file_at(&self, path: &[u8]) -> Option<&File> {
        match name_in(self.folder.as_slice(), path) {
            Some(name) => file_named(self.files.as_slice(), name),
            None => None,
        }
    }
}

/// The service of the text at this path. Where no folder above has the application it is what is open in its own folder.
pub(crate) fn service_of<W: Workspace>(
    alloc: Global,
    workspace: &W,
    documents: &Documents,
    path: &[u8],
) -> Result<Service, AllocError> {
    let found = folder_for(alloc, workspace, documents, path)?;
    let listed = match found {
        Some(folder) => workspace.listed(alloc, folder)?,
        None => Listed {
            files: Vec::new(alloc),
            unread: None,
        },
    };
    let folder = found.or(parent_of(path)).unwrap_or(&[]);
    edited_service(alloc, documents.as_slice(), folder, listed)
}

/// The nearest folder above a path that has the application.
fn folder_for<'p, W: Workspace>(
    alloc: Global,
    workspace: &W,
    documents: &Documents,
    path: &'p [u8],
) -> Result<Option<&'p [u8]>, AllocError> {
    let mut left = path;
    for _ in 0..path.len() {
        let Some(folder) = parent_of(left) else {
            return Ok(None);
        };
        if has_application(alloc, workspace, documents, folder)? {
            return Ok(Some(folder));
        }
        left = folder;
    }
    Ok(None)
}

fn has_application<W: Workspace>(
    alloc: Global,
    workspace: &W,
    documents: &Documents,
    folder: &[u8],
) -> Result<bool, AllocError> {
    let path = path_of(alloc, folder, APPLICATION)?;
    let is_open = documents.text_of(path.as_slice()).is_some();
    Ok(is_open || workspace.has_file(path.as_slice()))
}

/// The files of a folder, with what is open in their place.
fn edited_service(
    alloc: Global,
    documents: &[Document],
    folder: &[u8],
    listed: Listed,
) -> Result<Service, AllocError> {
    let mut service = service_in(alloc, folder, listed)?;
    put_documents(alloc, &mut service.files, folder, documents)?;
    Ok(service)
}

fn service_in(alloc: Global, folder: &[u8], listed: Listed) -> Result<Service, AllocError> {
    let folder = Vec::from_slice(alloc, folder)?;
    let Listed { files, unread } = listed;
    Ok(Service {
        folder,
        files,
        unread,
    })
}

fn put_documents(
    alloc: Global,
    files: &mut Vec<File>,
    folder: &[u8],
    documents: &[Document],
) -> Result<(), AllocError> {
    for document in documents {
        if let Some(name) = name_in(folder, document.path.as_slice()) {
            put_document(alloc, files, name, document.text.as_slice())?;
        }
    }
    Ok(())
}

/// Puts a file in its place among the others. What no group can be called is none.
fn put_document(
    alloc: Global,
    files: &mut Vec<File>,
    name: &[u8],
    text: &[u8],
) -> Result<(), AllocError> {
    match GroupName::of_path(alloc, name) {
        Ok(name) => put_file(alloc, files, name, text),
        Err(NameError::BadName) => Ok(()),
        Err(NameError::NoMemory) => Err(AllocError),
    }
}

fn put_file(
    alloc: Global,
    files: &mut Vec<File>,
    name: GroupName,
    text: &[u8],
) -> Result<(), AllocError> {
    remove_file(files, name.as_bytes());
    let at = place_of(files.as_slice(), name.as_bytes());
    let text = Vec::from_slice(alloc, text)?;
    files.insert(at, (name, text))?;
    Ok(())
}

fn remove_file(files: &mut Vec<File>, name: &[u8]) {
    files.retain(|file| is_other(file, name));
}

fn is_other(file: &File, name: &[u8]) -> bool {
    file.0.as_bytes() != name
}

/// How many files stand in front of one with this name.
fn place_of(files: &[File], name: &[u8]) -> usize
    ensures { result ≤ length files.now }
{
    files
        .iter()
        .take_while(|file| file.0.as_bytes() < name)
        .count()
        .min(files.len())
}
