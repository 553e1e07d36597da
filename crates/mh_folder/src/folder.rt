//! The files of a folder and of the folders in it.
//!
//! A file is called by its path inside the folder. A path that no group can have is passed over. What is there and is no
//! file, as a pipe, is not opened, since that might wait. Each folder is listed once, so that links which lead round come to
//! an end.
use crate::reading::{read_file, unread, unreadable};
use crate::unread::Unread;
use mh_base::{GroupName, NameError};
use std::alloc::{AllocError, Global};
use std::collections::BTreeSet;
use std::os::unix::fs::MetadataExt;
use std::rt::Runtime;
use std::{fs, io};

/// What a folder holds.
#[derive(Drop)]
pub struct Folder {
    /// The files that could be read, each under its path, in bytewise order of these paths. Of a file that is longer than
    /// one may be, the first bytes, by which that is known.
    pub files: Vec<(GroupName, Vec<u8>)>,
    /// What first could not be read, by its path.
    pub unread: Option<String>,
}

/// What the folder holds; an error where it cannot be listed itself.
pub fn folder_of<R: Runtime + AllocGlobal>(rt: &R, top: &str) -> Result<Folder, Unread> {
    let alloc = rt.alloc();
    let mut found = found_in(rt, top)?;
    let mut files = Vec::new(alloc);
    for path in &found.files {
        let Some(name) = name_of(alloc, path.as_bytes())? else {
            continue;
        };
        match read_found(rt, top, path.as_str()) {
            Ok(bytes) => files.push((name, bytes))?,
            Err(why) => note(&mut found.unread, why)?,
        }
    }
    let Found {
        files: paths,
        listed,
        unread,
    } = found;
    drop(paths);
    drop(listed);
    Ok(Folder { files, unread })
}

/// Keeps the first that could not be read; an error where it was memory that lacked.
fn note(first: &mut Option<String>, why: Unread) -> Result<(), Unread> {
    match why {
        Unread::NoMemory => Err(Unread::NoMemory),
        Unread::File(name) => {
            if first.is_none() {
                *first = Some(name);
            }
            Ok(())
        }
    }
}

/// The bytes of a file that was found.
fn read_found<R: Runtime + AllocGlobal>(rt: &R, top: &str, path: &str) -> Result<Vec<u8>, Unread> {
    let place = joined(rt.alloc(), top, path)?;
    match fs::metadata(rt, place.as_str()) {
        Ok(about) if !about.is_file() => Err(unread(rt.alloc(), path)),
        _ => read_file(rt, place.as_str(), path),
    }
}

/// What may be a file of a service, in order, and what first could not be listed; an error where the folder itself cannot.
fn found_in<R: Runtime + AllocGlobal>(rt: &R, top: &str) -> Result<Found, Unread> {
    let alloc = rt.alloc();
    let mut found = Found {
        files: Vec::new(alloc),
        listed: BTreeSet::new(alloc),
        unread: None,
    };
    let mut folders = Vec::new(alloc);
    found.list(rt, top, "", top, &mut folders)?;
    folders.sort()?;
    for _ in 0..u64::MAX {
        if folders.is_empty() {
            break;
        }
        folders = found.list_all(rt, top, folders.as_slice())?;
    }
    found.files.sort()?;
    Ok(found)
}

/// What was found so far.
#[derive(Drop)]
struct Found {
    /// What is no folder, by its path.
    files: Vec<String>,
    /// The folders that were listed, each by its device and its number there.
    listed: BTreeSet<(u64, u64)>,
    /// What first could not be listed, by its path.
    unread: Option<String>,
}

impl Found {
    /// Adds what lies in these folders, and answers the folders in them, in the order of their paths.
    fn list_all<R: Runtime + AllocGlobal>(
        &mut self,
        rt: &R,
        top: &str,
        folders: &[String],
    ) -> Result<Vec<String>, Unread> {
        let mut inner = Vec::new(rt.alloc());
        for folder in folders {
            if let Err(why) = self.list(rt, top, folder.as_str(), folder.as_str(), &mut inner) {
                note(&mut self.unread, why)?;
            }
        }
        inner.sort()?;
        Ok(inner)
    }

    /// The same for one folder; an error calls it by this name.
    fn list<R: Runtime + AllocGlobal>(
        &mut self,
        rt: &R,
        top: &str,
        path: &str,
        name: &str,
        inner: &mut Vec<String>,
    ) -> Result<(), Unread> {
        let alloc = rt.alloc();
        let place = joined(alloc, top, path)?;
        self.enter(rt, place.as_str(), name)?;
        let entries = match fs::read_dir(rt, place.as_str()) {
            Ok(entries) => entries,
            Err(error) => return Err(unreadable(alloc, &error, name)),
        };
        for entry in entries {
            match entry {
                Ok(entry) => self.add(rt, top, joined(alloc, path, entry.file_name())?, inner)?,
                // a name that is no text is no name of a group
                Err(error) if error.kind() == io::ErrorKind::InvalidFilename => {}
                Err(error) => return Err(unreadable(alloc, &error, name)),
            }
        }
        Ok(())
    }

    /// Notes that a folder is listed. One that was listed already cannot be read: a link leads to it.
    fn enter<R: Runtime + AllocGlobal>(
        &mut self,
        rt: &R,
        place: &str,
        name: &str,
    ) -> Result<(), Unread> {
        match fs::metadata(rt, place) {
            Ok(about) => {
                if !self.listed.insert((about.dev(), about.ino()))? {
                    return Err(unread(rt.alloc(), name));
                }
                Ok(())
            }
            Err(error) => Err(unreadable(rt.alloc(), &error, name)),
        }
    }

    /// Adds what has this path: to the folders, or to what may be a file. What no path of a group leads to
    /// is passed over.
    fn add<R: Runtime + AllocGlobal>(
        &mut self,
        rt: &R,
        top: &str,
        path: String,
        inner: &mut Vec<String>,
    ) -> Result<(), Unread> {
        if name_of(rt.alloc(), path.as_bytes())?.is_none() {
            return Ok(());
        }
        let place = joined(rt.alloc(), top, path.as_str())?;
        match fs::metadata(rt, place.as_str()) {
            Ok(about) if about.is_dir() => inner.push(path)?,
            _ => self.files.push(path)?,
        }
        Ok(())
    }
}

/// The name of the group with this path; none where no group can have it.
fn name_of(alloc: Global, path: &[u8]) -> Result<Option<GroupName>, AllocError> {
    match GroupName::of_path(alloc, path) {
        Ok(name) => Ok(Some(name)),
        Err(NameError::BadName) => Ok(None),
        Err(NameError::NoMemory) => Err(AllocError),
    }
}

/// A path below a folder; an empty folder's path is none.
fn joined(alloc: Global, folder: &str, path: &str) -> Result<String, AllocError> {
    let mut place = String::from_str(alloc, folder)?;
    if !folder.is_empty() && !path.is_empty() && !folder.ends_with('/') {
        place.push('/')?;
    }
    place.push_str(path)?;
    Ok(place)
}
