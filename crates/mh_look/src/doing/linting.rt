//! What is done for `lint`: the files are read, the service is checked, and the lines on it are written; where it is not
//! accepted, what is explained of that.
use crate::command_line::Lint;
use crate::command_line::linting::near_rule;
use crate::doing::Outcome;
use crate::doing::answering::{Read, answer_of};
use crate::doing::explaining::{is_painted, read_given, write_painted};
use crate::source::Failure;
use mh_folder::{Folder, folder_of};
use mh_lint::RULES;
use mh_told::text::Text;
use mh_why::lint_of;
use std::alloc::{AllocError, Global};
use std::rt::Runtime;

/// Writes the lines on the service; an error where none can be had.
pub(crate) fn run_lint<R: Runtime + AllocGlobal>(
    rt: &R,
    wanted: &Lint<'_>,
    is_terminal: bool,
) -> Result<Outcome, Failure> {
    if let Some(name) = wanted.unknown {
        return Err(no_rule(rt.alloc(), name)?);
    }
    let service = &wanted.service;
    let is_painted = is_painted(rt.alloc(), service.color, is_terminal)?;
    let given = read_given(rt, service)?;
    lint_with(rt, wanted, &given, is_painted)
}

/// The same, of the files that options name.
fn lint_with<R: Runtime + AllocGlobal>(
    rt: &R,
    wanted: &Lint<'_>,
    given: &Read,
    is_painted: bool,
) -> Result<Outcome, Failure> {
    let folder = folder_of(rt, wanted.service.source.folder)?;
    lint_in(rt, wanted, given, &folder, is_painted)
}

/// The same, of the files of a folder.
fn lint_in<R: Runtime + AllocGlobal>(
    rt: &R,
    wanted: &Lint<'_>,
    given: &Read,
    folder: &Folder,
    is_painted: bool,
) -> Result<Outcome, Failure> {
    if let Some(text) = lines_on(rt.alloc(), wanted, given, folder)? {
        return write_painted(rt, &text, outcome_of(&text), is_painted);
    }
    let answer = answer_of(rt.alloc(), &wanted.service, given, folder, None)?;
    write_painted(rt, &answer.text, answer.outcome, is_painted)
}

/// The lines on the service, if all its files are read and it is accepted.
fn lines_on(
    alloc: Global,
    wanted: &Lint<'_>,
    given: &Read,
    folder: &Folder,
) -> Result<Option<Text>, AllocError> {
    if folder.unread.is_some() {
        return Ok(None);
    }
    lint_of(
        alloc,
        given.tags.as_ref().map(|bytes| bytes.as_slice()),
        folder.files.as_slice(),
        wanted.service.source.start.as_bytes(),
        given.late.as_ref().map(|bytes| bytes.as_slice()),
        wanted.asked,
    )
}

fn outcome_of(text: &Text) -> Outcome {
    if text.as_slice().is_empty() {
        Outcome::Written
    } else {
        Outcome::Found
    }
}

/// This name is that of no rule.
pub(crate) fn no_rule(alloc: Global, name: &str) -> Result<Failure, AllocError> {
    let written = String::from_str(alloc, name)?;
    Ok(match near_rule(name.as_bytes()) {
        Some(rule) => Failure::NoRule(written, text_of(alloc, rule.word())?),
        None => Failure::NoRuleLike(written, all_rules(alloc)?),
    })
}

/// The names of all rules.
fn all_rules(alloc: Global) -> Result<String, AllocError> {
    let mut names = Text::new(alloc);
    for rule in &RULES {
        if !names.as_slice().is_empty() {
            names.put(b", ")?;
        }
        names.put(rule.word())?;
    }
    text_of(alloc, names.as_slice())
}

fn text_of(alloc: Global, bytes: &[u8]) -> Result<String, AllocError> {
    let copied = Vec::from_slice(alloc, bytes)?;
    Ok(String::from_utf8(copied).unwrap_or(String::new(alloc)))
}
