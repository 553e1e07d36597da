//! What `redlook why`, `redlook lint` and `redlook check` write.
use crate::plays::copied;
use mh_case_files::{Answer, Call, File, Material};
use mh_folder::Folder;
use mh_look::{
    Check, Explain, Failure, Lint, Read, Task, answer_of, format_named, line_of, list_of,
};
use mh_told::text::Text;
use mh_why::lint_of;
use std::alloc::{AllocError, Global};

/// The exit status of `lint` where something is found.
const FOUND: u8 = 1;

/// What a call of `redlook` writes, and its exit status.
pub fn answer(alloc: Global, material: &Material, call: &Call) -> Option<Answer> {
    let words = words_of(alloc, material, call).ok()?;
    match line_of(alloc, words.as_slice()).ok()? {
        Task::Why(asked) => explained(alloc, material, &asked),
        Task::Lint(wanted) => linted(alloc, material, &wanted),
        Task::Check(wanted) => checked(alloc, material, &wanted),
        _ => None,
    }
}

/// The words of the command line, with those of what the case has.
fn words_of<'a>(
    alloc: Global,
    material: &Material,
    call: &'a Call,
) -> Result<Vec<&'a str>, AllocError> {
    let mut words = call.words(alloc)?;
    if material.output.is_some() {
        words.push("output")?;
    }
    words.push("service")?;
    let options: [(&'static str, bool); 3] = [
        ("--late=late", material.late.is_some()),
        ("--tags=tags", material.tags.is_some()),
        ("--script=script", material.script.is_some()),
    ];
    for (option, is_given) in options {
        if is_given {
            words.push(option)?;
        }
    }
    Ok(words)
}

fn read_of(alloc: Global, material: &Material) -> Option<Read> {
    let late = copied(alloc, &material.late)?;
    let tags = copied(alloc, &material.tags)?;
    let script = copied(alloc, &material.script)?;
    Some(Read { late, tags, script })
}

fn copied_files(alloc: Global, given: &[File]) -> Result<Vec<File>, AllocError> {
    let mut files = Vec::new(alloc);
    for (name, bytes) in given {
        files.push((name.clone()?, Vec::from_slice(alloc, bytes.as_slice())?))?;
    }
    Ok(files)
}

fn folder_of(alloc: Global, material: &Material) -> Option<Folder> {
    let files = copied_files(alloc, material.files.as_slice()).ok()?;
    Some(Folder {
        files,
        unread: None,
    })
}

/// What is explained, or why nothing is.
fn explained(alloc: Global, material: &Material, asked: &Explain<'_>) -> Option<Answer> {
    let given = read_of(alloc, material)?;
    let folder = folder_of(alloc, material)?;
    let output = copied(alloc, &material.output)?;
    match answer_of(alloc, asked, &given, &folder, output) {
        Ok(answer) => of_text(alloc, &answer.text, answer.outcome.exit().code()),
        Err(failure) => of_failure(alloc, &failure),
    }
}

fn of_text(alloc: Global, text: &Text, status: u8) -> Option<Answer> {
    let written = Vec::from_slice(alloc, text.as_slice()).ok()?;
    Some(Answer { status, written })
}

fn of_failure(alloc: Global, failure: &Failure) -> Option<Answer> {
    let written = format!(in alloc; "redlook: {failure}\n").ok()?.into_bytes();
    Some(Answer {
        status: failure.exit().code(),
        written,
    })
}

/// The lines on an accepted service, or what is explained of another one. A rule that there is none of is turned off by no
/// case.
fn linted(alloc: Global, material: &Material, wanted: &Lint<'_>) -> Option<Answer> {
    if wanted.unknown.is_some() {
        return None;
    }
    match lines_on(alloc, material, wanted)? {
        Some(lines) if lines.as_slice().is_empty() => of_text(alloc, &lines, 0),
        Some(lines) => of_text(alloc, &lines, FOUND),
        None => explained(alloc, material, &wanted.service),
    }
}

fn lines_on(alloc: Global, material: &Material, wanted: &Lint<'_>) -> Option<Option<Text>> {
    lint_of(
        alloc,
        material.tags.as_ref().map(|bytes| bytes.as_slice()),
        material.files.as_slice(),
        wanted.service.source.start.as_bytes(),
        material.late.as_ref().map(|bytes| bytes.as_slice()),
        wanted.asked,
    )
    .ok()
}

/// The list of what is found, in the form that is asked for; a text is that of `lint`.
fn checked(alloc: Global, material: &Material, wanted: &Check<'_>) -> Option<Answer> {
    let Some(format) = format_named(wanted.format) else {
        return linted(alloc, material, &wanted.lint);
    };
    let given = read_of(alloc, material)?;
    let folder = folder_of(alloc, material)?;
    let answer = list_of(alloc, wanted, format, &given, &folder).ok()?;
    of_text(alloc, &answer.text, answer.outcome.exit().code())
}
