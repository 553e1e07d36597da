//! Reports and other output, read from files or from standard input.
use crate::report::printed::is_verdict;
use crate::report::{ReadError, Report, read_report};
use mh_exit::Exit;
use mh_folder::Unread;
use std::alloc::{AllocError, AllocFailed, Global};
use std::io::Read;
use std::rt::Runtime;
use std::{fs, io};
use thiserror::Error;

/// Why nothing could be shown.
#[derive(Debug, Drop, Error)]
pub enum Failure {
    /// The file that this names could not be read.
    #[error("cannot read {0}")]
    Unreadable(String),
    /// What the file that this names has in a line, counted from 1, is no report's.
    #[error("line {1} of {0} is not of a report")]
    NoReport(String, usize),
    /// The file that this names has no report, but what is printed where there is none.
    #[error("{0} has a verdict, as `redplay check` prints it, and no report of `redplay play`")]
    Verdict(String),
    /// What the file that this names has is nothing that can be explained.
    #[error("no line of {0} is one that can be explained")]
    NothingKnown(String),
    /// When to write in colours is told by no such word.
    #[error("--color is auto, always or never, and not {0}")]
    NoWhen(String),
    /// A form of findings is told by no such word.
    #[error("--format is text, short, json or github, and not {0}")]
    NoForm(String),
    /// No rule has this name; the rule that is meant.
    #[error("--allow names a rule, and {0} is none; the nearest is {1}")]
    NoRule(String, String),
    /// No rule has this name, nor one that is like it; the names of all.
    #[error("--allow names a rule, and {0} is none; the rules are {1}")]
    NoRuleLike(String, String),
    /// There is no frame with this number.
    #[error("there is no frame {0}")]
    NoFrame(u64),
    /// Neither a frame is named nor a folder for the images of all.
    #[error("--frame names a frame, or --output the folder for the images of all")]
    NoFolder,
    /// What this names could not be written.
    #[error("cannot write {0}")]
    Unwritable(String),
    /// Memory or writing failed.
    #[error("memory or writing failed")]
    Failed,
}

impl Failure {
    /// How the program ends that tells so.
    pub fn exit(&self) -> Exit {
        match self {
            Failure::Failed => Exit::Failed,
            _ => Exit::Unreadable,
        }
    }
}

impl From<AllocError> for Failure {
    fn from(_refused: AllocError) -> Failure {
        Failure::Failed
    }
}

impl<T: Drop> From<AllocFailed<T>> for Failure {
    fn from(_refused: AllocFailed<T>) -> Failure {
        Failure::Failed
    }
}

impl From<Unread> for Failure {
    fn from(unread: Unread) -> Failure {
        match unread {
            Unread::File(name) => Failure::Unreadable(name),
            Unread::NoMemory => Failure::Failed,
        }
    }
}

impl From<io::Error> for Failure {
    fn from(_failed: io::Error) -> Failure {
        Failure::Failed
    }
}

/// The report of the file with this name, or of standard input for `-`.
pub fn report_of<R: Runtime + AllocGlobal>(rt: &R, name: &str) -> Result<Report, Failure> {
    let bytes = output_of(rt, name)?;
    match read_report(rt.alloc(), bytes.as_slice()) {
        Ok(report) => Ok(report),
        Err(ReadError::Line(line)) => Err(no_report(rt.alloc(), name, bytes.as_slice(), line)),
        Err(ReadError::NoMemory) => Err(Failure::Failed),
    }
}

/// What is called by this name, and has these bytes, is no report, as is found in a line.
fn no_report(alloc: Global, name: &str, bytes: &[u8], line: usize) -> Failure {
    match String::from_str(alloc, called(name)) {
        Ok(name) if is_verdict(bytes) => Failure::Verdict(name),
        Ok(name) => Failure::NoReport(name, line),
        Err(_) => Failure::Failed,
    }
}

/// The bytes of the file with this name, or of standard input for `-`.
pub(crate) fn output_of<R: Runtime + AllocGlobal>(rt: &R, name: &str) -> Result<Vec<u8>, Failure> {
    match bytes_of(rt, name) {
        Ok(bytes) => Ok(bytes),
        Err(error) => Err(unreadable(rt.alloc(), &error, called(name))),
    }
}

/// The bytes of the file with this name, or of standard input.
fn bytes_of<R: Runtime + AllocGlobal>(rt: &R, name: &str) -> io::Result<Vec<u8>> {
    if name == "-" {
        let mut bytes = Vec::new(rt.alloc());
        rt.reader().read_to_end(&mut bytes)?;
        Ok(bytes)
    } else {
        fs::read(rt, name)
    }
}

/// What a message calls the file with this name.
fn called(name: &str) -> &str {
    if name == "-" { "standard input" } else { name }
}

fn unreadable(alloc: Global, error: &io::Error, name: &str) -> Failure {
    if error.kind() == io::ErrorKind::OutOfMemory {
        return Failure::Failed;
    }
    unread(alloc, name)
}

/// What is called by this name cannot be written.
pub(crate) fn unwritable(alloc: Global, error: &io::Error, name: &str) -> Failure {
    if error.kind() == io::ErrorKind::OutOfMemory {
        return Failure::Failed;
    }
    match String::from_str(alloc, name) {
        Ok(name) => Failure::Unwritable(name),
        Err(_) => Failure::Failed,
    }
}

/// What is called by this name cannot be read.
fn unread(alloc: Global, name: &str) -> Failure {
    match String::from_str(alloc, name) {
        Ok(name) => Failure::Unreadable(name),
        Err(_) => Failure::Failed,
    }
}

/// What is called by this name has nothing that can be explained.
pub(crate) fn unknown(alloc: Global, name: &str) -> Failure {
    match String::from_str(alloc, called(name)) {
        Ok(name) => Failure::NothingKnown(name),
        Err(_) => Failure::Failed,
    }
}

/// This word does not tell when to write in colours.
pub(crate) fn uncoloured(alloc: Global, word: &str) -> Failure {
    match String::from_str(alloc, word) {
        Ok(word) => Failure::NoWhen(word),
        Err(_) => Failure::Failed,
    }
}

/// This word names no form of findings.
pub(crate) fn unformed(alloc: Global, word: &str) -> Failure {
    match String::from_str(alloc, word) {
        Ok(word) => Failure::NoForm(word),
        Err(_) => Failure::Failed,
    }
}
