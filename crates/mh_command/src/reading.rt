//! The files that a command line names. The first that cannot be read is told.
use crate::source::Source;
use mh_base::GroupName;
use mh_folder::{Folder, Unread, folder_of, read_named};
use std::rt::Runtime;

/// What is chosen of a service, its files being read.
#[derive(Drop)]
pub struct Choice {
    /// The path of the application to start with.
    pub start: Vec<u8>,
    /// The scenes whose files come late.
    pub late: Option<Vec<u8>>,
    /// The tags of the binary notation.
    pub tags: Option<Vec<u8>>,
}

/// The files of a folder, all of which have to be read.
pub fn files_of<R: Runtime + AllocGlobal>(
    rt: &R,
    folder: &str,
) -> Result<Vec<(GroupName, Vec<u8>)>, Unread> {
    let Folder { files, unread } = folder_of(rt, folder)?;
    match unread {
        Some(name) => Err(Unread::File(name)),
        None => Ok(files),
    }
}

/// What is chosen of a service: the file of late scenes is read, and then that of tags.
pub fn choice_of<R: Runtime + AllocGlobal>(rt: &R, source: &Source) -> Result<Choice, Unread> {
    let late = read_option(rt, source.late)?;
    let tags = read_option(rt, source.tags)?;
    Ok(Choice {
        start: Vec::from_slice(rt.alloc(), source.start.as_bytes())?,
        late,
        tags,
    })
}

/// The bytes of the file that an option names, if it is given.
pub fn read_option<R: Runtime + AllocGlobal>(
    rt: &R,
    name: Option<&str>,
) -> Result<Option<Vec<u8>>, Unread> {
    match name {
        Some(name) => Ok(Some(read_named(rt, name)?)),
        None => Ok(None),
    }
}
