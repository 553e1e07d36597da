//! The record of a play, kept in a file.
use crate::failure::Failure;
use std::alloc::Global;
use std::rt::Runtime;
use std::{fs, io};

/// The file that has the record, if one is named, and what was written into it last.
#[derive(Drop)]
pub struct Kept<'a> {
    name: Option<&'a str>,
    written: Vec<u8>,
}

impl<'a> Kept<'a> {
    pub fn new(alloc: Global, name: Option<&'a str>) -> Kept<'a> {
        Kept {
            name,
            written: Vec::new(alloc),
        }
    }

    /// Writes the record, if it is another than before. The file has a whole record at any moment: what is written takes
    /// its place once all of it is there.
    pub fn keep<R: Runtime + AllocGlobal>(&mut self, rt: &R, script: &[u8]) -> Result<(), Failure> {
        let Some(name) = self.name else {
            return Ok(());
        };
        if self.written.as_slice() == script {
            return Ok(());
        }
        write_whole(rt, name, script)?;
        self.written = Vec::from_slice(rt.alloc(), script)?;
        Ok(())
    }
}

fn write_whole<R: Runtime + AllocGlobal>(rt: &R, name: &str, bytes: &[u8]) -> Result<(), Failure> {
    let mut part = String::from_str(rt.alloc(), name)?;
    part.push_str(".part")?;
    match write_in(rt, part.as_str(), name, bytes) {
        Ok(()) => Ok(()),
        Err(error) if error.kind() == io::ErrorKind::OutOfMemory => Err(Failure::Failed),
        Err(_) => Err(Failure::Unwritable(String::from_str(rt.alloc(), name)?)),
    }
}

fn write_in<R: Runtime + AllocGlobal>(
    rt: &R,
    part: &str,
    name: &str,
    bytes: &[u8],
) -> io::Result<()> {
    fs::write(rt, part, bytes)?;
    fs::rename(rt, part, name)
}
