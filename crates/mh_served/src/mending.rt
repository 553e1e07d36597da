//! Mends that an editor offers: what a finding says to write in place of what stands there, and of a note the comment that turns
//! off its rule in its file, or the attribute that is missing.
use crate::sharing::{is_unshared, push_sharing};
use mh_protocol::{Position, Range, Unit, number_at, range_of, range_value, text_at};
use serde_json::{Map, Value, json, push, put};
use std::alloc::{AllocError, Global};

/// The protocol's number for how grave a note is.
const NOTE: usize = 3;

/// The file of which is asked: its name, and its text with the unit in which places are counted there.
#[derive(Clone, Copy)]
pub(crate) struct Asker<'a> {
    pub(crate) uri: &'a str,
    pub(crate) unit: Unit,
    pub(crate) bytes: &'a [u8],
}

/// The mends of what a request says was told there.
pub(crate) fn actions_for(
    alloc: Global,
    unit: Unit,
    bytes: &[u8],
    message: &Value,
) -> Result<Value, AllocError> {
    let mut found = Vec::new(alloc);
    if let Some(uri) = text_at(message, "/params/textDocument/uri") {
        let asker = Asker { uri, unit, bytes };
        push_actions(alloc, &mut found, asker, told_in(message))?;
    }
    Ok(Value::Array(found))
}

/// What a request says was told there.
fn told_in(message: &Value) -> &[Value] {
    match message.pointer("/params/context/diagnostics") {
        Some(Value::Array(told)) => told.as_slice(),
        _ => &[],
    }
}

fn push_actions(
    alloc: Global,
    found: &mut Vec<Value>,
    asker: Asker<'_>,
    told: &[Value],
) -> Result<(), AllocError> {
    for diagnostic in told {
        if number_at(diagnostic, "/severity") == Some(NOTE) {
            push_of_note(alloc, found, asker, diagnostic)?;
        } else {
            push_mend(alloc, found, asker.uri, diagnostic)?;
        }
    }
    Ok(())
}

/// Pushes what can be done about a note: first what mends it, if that is one edit.
fn push_of_note(
    alloc: Global,
    found: &mut Vec<Value>,
    asker: Asker<'_>,
    note: &Value,
) -> Result<(), AllocError> {
    let Some(rule) = text_at(note, "/code") else {
        return Ok(());
    };
    if is_unshared(rule) {
        push_sharing(alloc, found, asker, note)?;
    }
    push_allowance(alloc, found, asker.uri, rule, note)
}

/// Pushes the comment that turns off the rule of a note.
fn push_allowance(
    alloc: Global,
    found: &mut Vec<Value>,
    uri: &str,
    rule: &str,
    diagnostic: &Value,
) -> Result<(), AllocError> {
    let title = format!(in alloc; "allow {rule} in this file")?;
    let text = format!(in alloc; "// lint: allow {rule}\n")?;
    let edit = edit_value(alloc, uri, beginning(), text.as_str())?;
    push(
        found,
        action_value(alloc, title.as_str(), edit, diagnostic)?,
    )
}

/// The front of a file.
fn beginning() -> Range {
    let at = Position {
        line: 0,
        character: 0,
    };
    Range { start: at, end: at }
}

/// Pushes what a finding says to write, if it says that.
fn push_mend(
    alloc: Global,
    found: &mut Vec<Value>,
    uri: &str,
    diagnostic: &Value,
) -> Result<(), AllocError> {
    match mend_in(diagnostic) {
        Some(text) => push_text(alloc, found, uri, diagnostic, text),
        None => Ok(()),
    }
}

fn push_text(
    alloc: Global,
    found: &mut Vec<Value>,
    uri: &str,
    diagnostic: &Value,
    text: &str,
) -> Result<(), AllocError> {
    let Some(range) = range_in(diagnostic) else {
        return Ok(());
    };
    let title = format!(in alloc; "write {text}")?;
    let edit = edit_value(alloc, uri, range, text)?;
    push(
        found,
        action_value(alloc, title.as_str(), edit, diagnostic)?,
    )
}

fn range_in(diagnostic: &Value) -> Option<Range> {
    match diagnostic.pointer("/range") {
        Some(range) => range_of(range),
        None => None,
    }
}

/// What is to be written, where a finding ends with that: a word that was meant, or the one number that is near.
fn mend_in(diagnostic: &Value) -> Option<&str> {
    let message = text_at(diagnostic, "/message")?;
    match message.split_once("; write `") {
        Some((_, word)) => word_alone(word),
        None => number_meant(message),
    }
}

fn word_alone(quoted: &str) -> Option<&str> {
    let word = quoted.strip_suffix('`')?;
    if word.contains('`') { None } else { Some(word) }
}

fn number_meant(message: &str) -> Option<&str> {
    match message.split_once("; the nearest number is ") {
        Some((_, number)) => Some(number),
        None => None,
    }
}

pub(crate) fn action_value(
    alloc: Global,
    title: &str,
    edit: Value,
    diagnostic: &Value,
) -> Result<Value, AllocError> {
    let diagnostics = json!(in alloc; [diagnostic])?;
    json!(in alloc; {"diagnostics": diagnostics, "edit": edit, "kind": "quickfix", "title": title})
}

/// A text in place of what stands in a range of a file.
pub(crate) fn edit_value(
    alloc: Global,
    uri: &str,
    range: Range,
    text: &str,
) -> Result<Value, AllocError> {
    let range = range_value(alloc, range)?;
    let edits = json!(in alloc; [{"newText": text, "range": range}])?;
    changes_value(alloc, uri, edits)
}

fn changes_value(alloc: Global, uri: &str, edits: Value) -> Result<Value, AllocError> {
    let mut changes = Map::new(alloc);
    put(&mut changes, alloc, uri, edits)?;
    let changes = Value::Object(changes);
    json!(in alloc; {"changes": changes})
}
