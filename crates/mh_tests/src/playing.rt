//! Small services that are played and converted, each answered by its bytes, with a last line that tells the exit
//! status.
ghost use Rattle.std.specs.Prelude.{◌≡◌, ◌-◌, ◌<◌, ◌^◌};

use mh_base::GroupName;
use mh_cases::bytes;
use mh_cases::examples::path_and_text;
use mh_report::{ListSink, Notation, Options, PlayError, Sink, Status, convert_bytes, play_bytes};
use std::alloc::Global;

/// A file: its path and what it holds.
pub type File = (GroupName, Vec<u8>);

fn add_sources(alloc: Global, sources: &mut Vec<File>, files: &str) -> Option<()> {
    for file in files.split('@') {
        let (path, text) = path_and_text(file)?;
        let name = GroupName::of_path(alloc, path.as_bytes()).ok();
        sources.push(name.zip(bytes(alloc, text))?).ok()?;
    }
    Some(())
}

pub fn sources(alloc: Global, files: &str) -> Option<Vec<File>> {
    let mut sources = Vec::new(alloc);
    let added = add_sources(alloc, &mut sources, files);
    added.and(Some(sources))
}

/// The day on which a play begins if no other is told, as a modified Julian date.
pub const DAY: u32 = 60_000;

/// The choices of a play that starts with this application, on this day.
pub fn options(alloc: Global, start: &str, lenient: bool, mjd: u32) -> Option<Options> {
    let start = Vec::from_slice(alloc, start.as_bytes()).ok()?;
    Some(Options {
        start,
        late: None,
        tags: None,
        lenient,
        mjd,
    })
}

/// Plays into the sink: with which application the play starts, its script, whether it is lenient, and on
/// which day it begins.
pub fn play<S: Sink>(
    alloc: Global,
    files: &[File],
    how: (&str, &str, bool, u32),
    sink: &mut S,
) -> Option<Result<Status, PlayError>>
    requires { S.failures sink.old < 2 ^ 64 - 1 }
{
    let (start, script, lenient, mjd) = how;
    let options = options(alloc, start, lenient, mjd);
    let (options, script) = options.zip(bytes(alloc, script))?;
    Some(play_bytes(alloc, files, script.as_slice(), &options, sink))
}

/// What was written, with a last line that tells the exit status.
pub fn ended(alloc: Global, written: Vec<u8>, code: u8) -> Option<Vec<u8>> {
    let ending = format!(in alloc; "exit {code}\n").ok();
    let (mut bytes, ending) = Some(written).zip(ending)?;
    let put = bytes.extend_from_slice(ending.as_bytes()).ok();
    put.and(Some(bytes))
}

/// What a play writes.
pub fn played(alloc: Global, files: &[File], how: (&str, &str, bool, u32)) -> Option<Vec<u8>> {
    let mut sink = ListSink {
        bytes: Vec::new(alloc),
        failures: 0,
    };
    match play(alloc, files, how, &mut sink) {
        Some(Ok(status)) => ended(alloc, sink.bytes, status.code()),
        _ => None,
    }
}

/// What the conversion of a file writes.
pub fn converted(alloc: Global, name: &[u8], bytes: &[u8], to: Notation) -> Option<Vec<u8>> {
    let mut sink = ListSink {
        bytes: Vec::new(alloc),
        failures: 0,
    };
    let options = options(alloc, "a", false, DAY)?;
    let status = convert_bytes(alloc, name, bytes, to, &options, &mut sink).ok()?;
    ended(alloc, sink.bytes, status.code())
}
