//! The disk, and what is found of a service that lies on it or is being edited.
use crate::rules::{MOST_REFUSALS, NONE_ALLOWED};
use mh_findings::Finding;
use mh_folder::{Folder, Unread, folder_of};
use mh_judged::{findings_on, unread_path};
use mh_lint::Asked;
use mh_served::{File, Listed, Workspace};
use std::alloc::{AllocError, Global};
use std::fs;
use std::rt::Runtime;

/// The file with which a service starts.
const START: &[u8] = b"a";

/// The disk of this runtime.
#[derive(Drop)]
pub struct Disk<'r, R> {
    pub rt: &'r R,
}

impl<'r, R: Runtime + AllocGlobal> Workspace for Disk<'r, R> {
    ghost use Rattle.redlsp.specs.Found.{IsFound};

    ghost finds = { λ disk folder files found. IsFound folder files found };

    fn has_file(&self, path: &[u8]) -> bool {
        match std::str::from_utf8(path) {
            Ok(path) => is_file(self.rt, path),
            Err(_) => false,
        }
    }

    fn listed(&self, alloc: Global, folder: &[u8]) -> Result<Listed, AllocError> {
        match std::str::from_utf8(folder) {
            Ok(folder) => listed_of(alloc, folder_of(self.rt, folder)),
            Err(_) => unlisted(alloc),
        }
    }

    fn findings(
        &self,
        alloc: Global,
        folder: &[u8],
        files: &[File],
    ) -> Result<Vec<Finding>, AllocError> {
        let asked = Asked {
            all: false,
            allowed: NONE_ALLOWED,
        };
        findings_on(
            alloc,
            b"",
            None,
            folder,
            files,
            START,
            None,
            asked,
            MOST_REFUSALS,
        )
    }

    fn unread(&self, alloc: Global, folder: &[u8], name: &[u8]) -> Result<Finding, AllocError> {
        unread_path(alloc, folder, name)
    }
}

fn is_file<R: Runtime>(rt: &R, path: &str) -> bool {
    match fs::metadata(rt, path) {
        Ok(about) => about.is_file(),
        Err(_) => false,
    }
}

/// What a folder holds; one that cannot be listed holds nothing that can be read.
fn listed_of(alloc: Global, folder: Result<Folder, Unread>) -> Result<Listed, AllocError> {
    match folder {
        Ok(Folder { files, unread }) => Ok(Listed {
            files,
            unread: bytes_of(unread),
        }),
        Err(Unread::NoMemory) => Err(AllocError),
        Err(Unread::File(name)) => {
            drop(name);
            unlisted(alloc)
        }
    }
}

fn bytes_of(name: Option<String>) -> Option<Vec<u8>> {
    match name {
        Some(name) => Some(name.into_bytes()),
        None => None,
    }
}

fn unlisted(alloc: Global) -> Result<Listed, AllocError> {
    Ok(Listed {
        files: Vec::new(alloc),
        unread: Some(Vec::new(alloc)),
    })
}
