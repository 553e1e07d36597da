//! What is done for `check`: the files are read, and all that is found of them is written, in words or in a form that
//! other programs read.
use crate::command_line::Check;
use crate::doing::answering::{Answer, Read};
use crate::doing::explaining::read_given;
use crate::doing::linting::{no_rule, run_lint};
use crate::doing::{Outcome, write_text};
use crate::source::{Failure, unformed};
use mh_findings::{Finding, Format, Grade, put_findings};
use mh_folder::{Folder, folder_of};
use mh_judged::{findings_on, unread_path};
use mh_told::text::Text;
use std::alloc::{AllocError, Global};
use std::rt::Runtime;

/// Writes what is found of the service; an error where nothing can be told.
pub(crate) fn run_check<R: Runtime + AllocGlobal>(
    rt: &R,
    wanted: &Check<'_>,
    is_terminal: bool,
) -> Result<Outcome, Failure> {
    if wanted.format == "text" {
        return run_lint(rt, &wanted.lint, is_terminal);
    }
    match format_named(wanted.format) {
        Some(format) => run_list(rt, wanted, format),
        None => Err(unformed(rt.alloc(), wanted.format)),
    }
}

/// The form of a list that this word names.
pub fn format_named(word: &str) -> Option<Format> {
    match word {
        "short" => Some(Format::Short),
        "json" => Some(Format::Json),
        "github" => Some(Format::Github),
        _ => None,
    }
}

/// Writes the list of what is found in this form.
fn run_list<R: Runtime + AllocGlobal>(
    rt: &R,
    wanted: &Check<'_>,
    format: Format,
) -> Result<Outcome, Failure> {
    if let Some(name) = wanted.lint.unknown {
        return Err(no_rule(rt.alloc(), name)?);
    }
    let given = read_given(rt, &wanted.lint.service)?;
    write_list(rt, wanted, format, &given)
}

/// The same, of the files that options name.
fn write_list<R: Runtime + AllocGlobal>(
    rt: &R,
    wanted: &Check<'_>,
    format: Format,
    given: &Read,
) -> Result<Outcome, Failure> {
    let folder = folder_of(rt, wanted.lint.service.source.folder)?;
    let answer = list_of(rt.alloc(), wanted, format, given, &folder)?;
    write_text(rt, &answer.text, answer.outcome)
}

/// The list of what is found of the files of a folder, in this form.
pub fn list_of(
    alloc: Global,
    wanted: &Check<'_>,
    format: Format,
    given: &Read,
    folder: &Folder,
) -> Result<Answer, AllocError> {
    let found = found_in(alloc, wanted, given, folder)?;
    let mut text = Text::new(alloc);
    put_findings(alloc, &mut text, format, found.as_slice())?;
    Ok(Answer {
        text,
        outcome: outcome_of(found.as_slice()),
    })
}

/// What is found; of a folder with a file that cannot be read nothing else is.
fn found_in(
    alloc: Global,
    wanted: &Check<'_>,
    given: &Read,
    folder: &Folder,
) -> Result<Vec<Finding>, AllocError> {
    let source = &wanted.lint.service.source;
    if let Some(name) = &folder.unread {
        let mut found = Vec::new(alloc);
        found.push(unread_path(alloc, source.folder.as_bytes(), name.as_bytes())?)?;
        return Ok(found);
    }
    findings_on(
        alloc,
        source.tags.unwrap_or("").as_bytes(),
        given.tags.as_ref().map(|bytes| bytes.as_slice()),
        source.folder.as_bytes(),
        folder.files.as_slice(),
        source.start.as_bytes(),
        given.late.as_ref().map(|bytes| bytes.as_slice()),
        wanted.lint.asked,
        wanted.most,
    )
}

/// What is not read is told alone, and so is what is refused.
fn outcome_of(found: &[Finding]) -> Outcome {
    match found.first() {
        None => Outcome::Written,
        Some(finding) => match finding.grade {
            Grade::Unread => Outcome::Unread,
            Grade::Refused | Grade::Fault => Outcome::Refused,
            Grade::Never | Grade::Note => Outcome::Found,
        },
    }
}
