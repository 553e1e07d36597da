//! What `redplay` writes.
use crate::command::Command;
use mh_case_files::{Answer, File, Material};
use mh_report::{
    ListSink, Notation, Options, check_bytes, convert_bytes, play_bytes, play_sealed_bytes,
    seal_bytes,
};
use std::alloc::Global;

/// What a call of `redplay` writes, and its exit status.
pub fn answer(alloc: Global, material: &Material, command: &Command<'_>) -> Option<Answer> {
    let options = options(alloc, material, command)?;
    match command.name {
        "check" => checked(alloc, material, &options),
        "play" => match command.sealed {
            Some(seal) => played_by_seal(alloc, material, seal, &options),
            None => played(alloc, material, &options),
        },
        "seal" => sealed(alloc, material, &options),
        "to-text" => converted(alloc, material, Notation::Textual, &options),
        "to-der" => converted(alloc, material, Notation::Binary, &options),
        _ => None,
    }
}

/// A copy of the bytes that an option names; none at all where memory is lacking.
pub fn copied(alloc: Global, bytes: &Option<Vec<u8>>) -> Option<Option<Vec<u8>>> {
    match bytes {
        Some(bytes) => Some(Some(Vec::from_slice(alloc, bytes.as_slice()).ok()?)),
        None => Some(None),
    }
}

fn options(alloc: Global, material: &Material, command: &Command<'_>) -> Option<Options> {
    let late = copied(alloc, &material.late)?;
    let tags = copied(alloc, &material.tags)?;
    let start = Vec::from_slice(alloc, command.start.as_bytes()).ok()?;
    Some(Options {
        start,
        late,
        tags,
        mjd: command.mjd,
        lenient: command.lenient,
    })
}

fn checked(alloc: Global, material: &Material, options: &Options) -> Option<Answer> {
    let mut sink = ListSink {
        bytes: Vec::new(alloc),
        failures: 0,
    };
    let status = check_bytes(alloc, material.files.as_slice(), options, &mut sink).ok()?;
    Some(Answer {
        status: status.code(),
        written: sink.bytes,
    })
}

fn sealed(alloc: Global, material: &Material, options: &Options) -> Option<Answer> {
    let mut sink = ListSink {
        bytes: Vec::new(alloc),
        failures: 0,
    };
    let status = seal_bytes(alloc, material.files.as_slice(), options, &mut sink).ok()?;
    Some(Answer {
        status: status.code(),
        written: sink.bytes,
    })
}

fn played(alloc: Global, material: &Material, options: &Options) -> Option<Answer> {
    let mut sink = ListSink {
        bytes: Vec::new(alloc),
        failures: 0,
    };
    let script: &[u8] = match &material.script {
        Some(script) => script.as_slice(),
        None => b"",
    };
    let files = material.files.as_slice();
    let status = play_bytes(alloc, files, script, options, &mut sink).ok()?;
    Some(Answer {
        status: status.code(),
        written: sink.bytes,
    })
}

/// Plays by the seal that the file of this name has.
fn played_by_seal(
    alloc: Global,
    material: &Material,
    seal: &str,
    options: &Options,
) -> Option<Answer> {
    let mut sink = ListSink {
        bytes: Vec::new(alloc),
        failures: 0,
    };
    let files = material.files.as_slice();
    let seal: &File = files
        .iter()
        .find(|file| file.0.as_bytes() == seal.as_bytes())?;
    let script: &[u8] = match &material.script {
        Some(script) => script.as_slice(),
        None => b"",
    };
    let status = play_sealed_bytes(
        alloc,
        files,
        seal.1.as_slice(),
        script,
        options,
        &mut sink,
    ).ok()?;
    Some(Answer {
        status: status.code(),
        written: sink.bytes,
    })
}

/// The first file, in this notation.
fn converted(
    alloc: Global,
    material: &Material,
    to: Notation,
    options: &Options,
) -> Option<Answer> {
    let file: &File = material.files.first()?;
    let (name, bytes) = (file.0.as_bytes(), file.1.as_slice());
    let mut sink = ListSink {
        bytes: Vec::new(alloc),
        failures: 0,
    };
    let status = convert_bytes(alloc, name, bytes, to, options, &mut sink).ok()?;
    Some(Answer {
        status: status.code(),
        written: sink.bytes,
    })
}
