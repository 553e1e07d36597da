//! The program: it reads a service from files, and checks it, seals it or plays a script on it, or it reads one
//! group and writes it in the other notation.
#![tactic(auto)]

pub mod command_line;
mod program;

use command_line::{Task, line_of};
use mh_base::GroupName;
use mh_command::{
    Choice, Exit, Source, choice_of, files_of, read_option, tell_no_task, tell_unread, words_of,
};
use mh_folder::{Unread, read_file, read_input, read_named};
pub use mh_report::{
    ListSink, Notation, Options, PlayError, Sink, Status, WriterSink, check_bytes, convert_bytes,
    play_bytes, play_sealed_bytes, seal_bytes,
};
use std::io;
use std::process::ExitCode;
use std::rt::Runtime;

fn main(rt: HostRuntime) -> ExitCode {
    ExitCode::from(run(&rt).unwrap_or(Exit::Failed).code())
}

/// Does what the command line asks for.
fn run<R: Runtime + AllocGlobal>(rt: &R) -> io::Result<Exit> {
    let Some(words) = words_of(rt, "redplay")? else {
        return Ok(Exit::Unreadable);
    };
    match line_of(rt.alloc(), words.as_slice()) {
        Ok(task) => perform(rt, &task),
        Err(why) => tell_no_task(rt, &why),
    }
}

/// Does a task, or tells what could not be read for it.
fn perform<R: Runtime + AllocGlobal>(rt: &R, task: &Task) -> io::Result<Exit> {
    match run_task(rt, task) {
        Ok(exit) => Ok(exit),
        Err(why) => tell_unread(rt, &why),
    }
}

fn run_task<R: Runtime + AllocGlobal>(rt: &R, task: &Task) -> Result<Exit, Unread> {
    match task {
        Task::Check(source) => checked(rt, source),
        Task::Seal(source) => sealed(rt, source),
        Task::Play {
            source,
            script,
            lenient,
            mjd,
            seal: None,
        } => run_play(rt, source, script, *mjd, *lenient),
        Task::Play {
            source,
            script,
            mjd,
            seal: Some(seal),
            ..
        } => played_by_seal(rt, source, seal, script, *mjd),
        Task::Convert { file, to, tags } => converted(rt, file, *to, *tags),
    }
}

fn checked<R: Runtime + AllocGlobal>(rt: &R, source: &Source) -> Result<Exit, Unread> {
    let files = files_of(rt, source.folder)?;
    check_files(rt, files.as_slice(), source)
}

/// Checks the service of these files, what is chosen of it being read.
fn check_files<R: Runtime + AllocGlobal>(
    rt: &R,
    files: &[(GroupName, Vec<u8>)],
    source: &Source,
) -> Result<Exit, Unread> {
    let options = options_of(choice_of(rt, source)?, 0, false);
    let mut sink = WriterSink {
        writer: io::writer(rt),
        failures: 0,
    };
    Ok(exit_of(check_bytes(rt.alloc(), files, &options, &mut sink)))
}

fn sealed<R: Runtime + AllocGlobal>(rt: &R, source: &Source) -> Result<Exit, Unread> {
    let files = files_of(rt, source.folder)?;
    seal_files(rt, files.as_slice(), source)
}

/// Seals the service of these files, what is chosen of it being read.
fn seal_files<R: Runtime + AllocGlobal>(
    rt: &R,
    files: &[(GroupName, Vec<u8>)],
    source: &Source,
) -> Result<Exit, Unread> {
    let options = options_of(choice_of(rt, source)?, 0, false);
    let mut sink = WriterSink {
        writer: io::writer(rt),
        failures: 0,
    };
    Ok(exit_of(seal_bytes(rt.alloc(), files, &options, &mut sink)))
}

fn run_play<R: Runtime + AllocGlobal>(
    rt: &R,
    source: &Source,
    script: &str,
    mjd: u32,
    lenient: bool,
) -> Result<Exit, Unread> {
    let files = files_of(rt, source.folder)?;
    play_files(rt, files.as_slice(), source, script, mjd, lenient)
}

/// Plays the service of these files, the script being read, and then what is chosen of the service.
fn play_files<R: Runtime + AllocGlobal>(
    rt: &R,
    files: &[(GroupName, Vec<u8>)],
    source: &Source,
    script: &str,
    mjd: u32,
    lenient: bool,
) -> Result<Exit, Unread> {
    let script = read_input(rt, script)?;
    let options = options_of(choice_of(rt, source)?, mjd, lenient);
    let mut sink = WriterSink {
        writer: io::writer(rt),
        failures: 0,
    };
    let status = play_bytes(rt.alloc(), files, script.as_slice(), &options, &mut sink);
    Ok(exit_of(status))
}

fn played_by_seal<R: Runtime + AllocGlobal>(
    rt: &R,
    source: &Source,
    seal: &str,
    script: &str,
    mjd: u32,
) -> Result<Exit, Unread> {
    let files = files_of(rt, source.folder)?;
    play_sealed_files(rt, files.as_slice(), source, seal, script, mjd)
}

/// Plays by a seal with those of these files that it wants, the script being read, then the seal, and then the tags.
fn play_sealed_files<R: Runtime + AllocGlobal>(
    rt: &R,
    files: &[(GroupName, Vec<u8>)],
    source: &Source,
    seal: &str,
    script: &str,
    mjd: u32,
) -> Result<Exit, Unread> {
    let script = read_input(rt, script)?;
    let seal = read_named(rt, seal)?;
    let options = options_of(choice_of(rt, source)?, mjd, false);
    let mut sink = WriterSink {
        writer: io::writer(rt),
        failures: 0,
    };
    let status = play_sealed_bytes(
        rt.alloc(),
        files,
        seal.as_slice(),
        script.as_slice(),
        &options,
        &mut sink,
    );
    Ok(exit_of(status))
}

fn converted<R: Runtime + AllocGlobal>(
    rt: &R,
    file: &str,
    to: Notation,
    tags: Option<&str>,
) -> Result<Exit, Unread> {
    let bytes = read_file(rt, file, file)?;
    let options = Options {
        start: Vec::new(rt.alloc()),
        late: None,
        tags: read_option(rt, tags)?,
        mjd: 0,
        lenient: false,
    };
    let mut sink = WriterSink {
        writer: io::writer(rt),
        failures: 0,
    };
    let status = convert_bytes(
        rt.alloc(),
        file.as_bytes(),
        bytes.as_slice(),
        to,
        &options,
        &mut sink,
    );
    Ok(exit_of(status))
}

/// What is chosen of a service and of its play.
fn options_of(choice: Choice, mjd: u32, lenient: bool) -> Options {
    let Choice { start, late, tags } = choice;
    Options {
        start,
        late,
        tags,
        mjd,
        lenient,
    }
}

/// How the program ends, once it was tried to write a report whole.
fn exit_of(status: Result<Status, PlayError>) -> Exit {
    status.map_or(Exit::Failed, |status| status.exit())
}
