//! What is done for `why`: the files are read, and what is explained of them is written.
use crate::command_line::Explain;
use crate::doing::answering::{Read, answer_of};
use crate::doing::{Outcome, write_text};
use crate::source::{Failure, output_of, uncoloured};
use mh_folder::{Folder, folder_of};
use mh_told::text::Text;
use mh_why::painted;
use std::alloc::Global;
use std::rt::Runtime;

/// Writes what is explained; an error where nothing is.
pub(crate) fn run_why<R: Runtime + AllocGlobal>(
    rt: &R,
    asked: &Explain<'_>,
    is_terminal: bool,
) -> Result<Outcome, Failure> {
    let is_painted = is_painted(rt.alloc(), asked.color, is_terminal)?;
    let given = read_given(rt, asked)?;
    explain_with(rt, asked, &given, is_painted)
}

/// The same, of the files that options name.
fn explain_with<R: Runtime + AllocGlobal>(
    rt: &R,
    asked: &Explain<'_>,
    given: &Read,
    is_painted: bool,
) -> Result<Outcome, Failure> {
    let folder = folder_of(rt, asked.source.folder)?;
    explain_in(rt, asked, given, &folder, is_painted)
}

/// The same, of the files of a folder.
fn explain_in<R: Runtime + AllocGlobal>(
    rt: &R,
    asked: &Explain<'_>,
    given: &Read,
    folder: &Folder,
    is_painted: bool,
) -> Result<Outcome, Failure> {
    let output = named_bytes(rt, asked.output)?;
    let answer = answer_of(rt.alloc(), asked, given, folder, output)?;
    write_painted(rt, &answer.text, answer.outcome, is_painted)
}

/// Writes the text, in colours or not.
pub(crate) fn write_painted<R: Runtime + AllocGlobal>(
    rt: &R,
    text: &Text,
    outcome: Outcome,
    is_painted: bool,
) -> Result<Outcome, Failure> {
    if is_painted {
        let text = painted(rt.alloc(), text.as_slice())?;
        return write_text(rt, &text, outcome);
    }
    write_text(rt, text, outcome)
}

/// Whether it is written in colours.
pub(crate) fn is_painted(alloc: Global, color: &str, is_terminal: bool) -> Result<bool, Failure> {
    match color {
        "always" => Ok(true),
        "never" => Ok(false),
        "auto" => Ok(is_terminal),
        _ => Err(uncoloured(alloc, color)),
    }
}

/// The files that options name.
pub(crate) fn read_given<R: Runtime + AllocGlobal>(
    rt: &R,
    asked: &Explain<'_>,
) -> Result<Read, Failure> {
    let script = named_bytes(rt, asked.script)?;
    let late = named_bytes(rt, asked.source.late)?;
    let tags = named_bytes(rt, asked.source.tags)?;
    Ok(Read { late, tags, script })
}

/// The bytes of the file that an option names, if one does.
fn named_bytes<R: Runtime + AllocGlobal>(
    rt: &R,
    name: Option<&str>,
) -> Result<Option<Vec<u8>>, Failure> {
    match name {
        Some(name) => Ok(Some(output_of(rt, name)?)),
        None => Ok(None),
    }
}
