//! Files that are read by their place: of a folder, of an option, and standard input.
ghost use Rattle.std.specs.Prelude.{◌≡◌, IfOk};
ghost use Rattle.mh_folder.specs.Source as spec;

use crate::source::{ReaderSource, read_short, read_whole};
use crate::unread::Unread;
use std::alloc::Global;
use std::rt::{Files, Runtime};
use std::{fs, io};

/// The bytes of the file at this place: all of it, or its first ones where it is longer than a file may be.
/// A file that cannot be read is called by its name.
pub fn read_file<R: Files + AllocGlobal>(
    rt: &R,
    place: &str,
    name: &str,
) -> Result<Vec<u8>, Unread> {
    let mut source = opened(rt, place, name)?;
    read_whole(rt.alloc(), name, &mut source)
}

/// The bytes of a file that an option names. One that is longer than a file may be cannot be read.
pub fn read_named<R: Files + AllocGlobal>(rt: &R, name: &str) -> Result<Vec<u8>, Unread> {
    let mut source = opened(rt, name, name)?;
    read_short(rt.alloc(), name, &mut source)
}

/// The same, or the bytes of standard input for `-`.
pub fn read_input<R: Runtime + AllocGlobal>(rt: &R, name: &str) -> Result<Vec<u8>, Unread> {
    if name != "-" {
        return read_named(rt, name);
    }
    let mut source = ReaderSource::new(rt.reader());
    read_short(rt.alloc(), name, &mut source)
}

/// The file at this place, of which nothing was read yet.
fn opened<R: Files + AllocGlobal>(
    rt: &R,
    place: &str,
    name: &str,
) -> Result<ReaderSource<R::File>, Unread>
    ensures { IfOk result (λ source. source.tally ≡ spec.unread) }
{
    match fs::open(rt, place) {
        Ok(reader) => Ok(ReaderSource::new(reader)),
        Err(error) => Err(unreadable(rt.alloc(), &error, name)),
    }
}

/// What is told of an error of the system: memory that was refused, or that what has this name cannot be read.
pub(crate) fn unreadable(alloc: Global, error: &io::Error, name: &str) -> Unread {
    if error.kind() == io::ErrorKind::OutOfMemory {
        return Unread::NoMemory;
    }
    unread(alloc, name)
}

/// What is called by this name cannot be read.
pub(crate) fn unread(alloc: Global, name: &str) -> Unread {
    match String::from_str(alloc, name) {
        Ok(name) => Unread::File(name),
        Err(_) => Unread::NoMemory,
    }
}
