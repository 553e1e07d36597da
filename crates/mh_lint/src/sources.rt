//! What is noted by the files as they are handed in: how a group calls itself, which rules a file turns off, and which content is
//! to come.
//!
//! Promise: each function answers what the definition of the same matter in `specs/Sources` says.

pub(crate) mod content;

ghost use Rattle.std.specs.Prelude.{◌≡◌, IfOk, drop, length, option_map, take};
ghost use Rattle.std.specs.Str.{bytes_eq};
ghost use Rattle.std.specs.Option.{option_copied};
ghost use Rattle.mh_text.specs.Reading.{inner};
ghost use Rattle.mh_lint.specs.Sources as spec;

use crate::note_lines::without_terminator;
use crate::place::file_of;
use crate::rule::Rule;
use bstr::ByteSlice;
use mh_base::{GroupName, NameError, Value};
use mh_group::Attribute;
use mh_model::Fixed;
use mh_model::held::as_value;
use mh_text::{TokenKind, Tokens};
use std::alloc::{AllocError, Global};

/// How many tokens a group has up to its identifier.
const IDENTIFIER: u32 = 4;

/// The first text in marks among so many tokens.
fn first_text<'a>(tokens: &mut Tokens<'a>, count: u32) -> Option<&'a [u8]>
    ensures { option_map (λ text. text.now) result ≡ spec.first_text count tokens.old }
{
    if count == 0 {
        return None;
    }
    match tokens.next() {
        Ok(Some(token)) => match token.kind {
            TokenKind::Text => Some(token.text),
            _ => first_text(tokens, count - 1),
        },
        _ => None,
    }
}

/// What stands between the marks of a text.
fn inner(text: &[u8]) -> &[u8]
    ensures { result.now ≡ inner text.now }
{
    match text {
        [_, inner @ .., _] => inner,
        _ => &[],
    }
}

/// Whether the name leads to another path than the group's.
fn leads_elsewhere(alloc: Global, group: &GroupName, name: &[u8]) -> Result<bool, AllocError>
    ensures { IfOk result (λ is. is ≡ spec.leads_elsewhere group.now name.now) }
{
    match GroupName::resolve(alloc, group, name) {
        Ok(path) => Ok(path != *group),
        Err(NameError::BadName) => Ok(true),
        Err(NameError::NoMemory) => Err(AllocError),
    }
}

#[tactic(auto, unfolding(crate::specs::Sources::calls_itself_else))]
fn calls_itself_else(alloc: Global, bytes: &[u8], group: &GroupName) -> Result<bool, AllocError>
    ensures { IfOk result (λ is. is ≡ spec.calls_itself_else bytes.now group.now) }
{
    let mut tokens = Tokens::new(bytes);
    match first_text(&mut tokens, IDENTIFIER) {
        None => Ok(false),
        Some(text) => leads_elsewhere(alloc, group, inner(text)),
    }
}

pub(crate) fn begins_with(words: &[u8], line: &[u8]) -> bool
    ensures { result ≡ bytes_eq (take (length words.now) line.now) words.now }
{
    line.starts_with(words)
}

pub(crate) fn cut_behind<'a>(words: &[u8], line: &'a [u8]) -> &'a [u8]
    ensures { result.now ≡ drop (length words.now) line.now }
{
    line.get(words.len()..).unwrap_or(&[])
}

/// What stands behind these words.
#[tactic(auto, unfolding(crate::specs::Sources::behind_words))]
fn behind_words<'a>(words: &[u8], line: &'a [u8]) -> Option<&'a [u8]>
    ensures { option_map (λ word. word.now) result ≡ spec.behind_words words.now line.now }
{
    let mut rest = line;
    while let [_, behind @ ..] = rest {
        if begins_with(words, rest) {
            return Some(cut_behind(words, rest));
        }
        rest = behind;
    }
    None
}

fn is_no_rule(word: Option<&[u8]>) -> bool
    ensures { result ≡ spec.is_no_rule (option_map (λ word. word.now) word.entry) }
{
    match word {
        None => false,
        Some(word) => Rule::of_word(word).is_none(),
    }
}

fn names_no_rule(line: &[u8]) -> bool
    ensures { result ≡ spec.names_no_rule line.now }
{
    is_no_rule(behind_words(b"// lint: allow ", without_terminator(line)))
}

fn allows_unknown(bytes: &[u8]) -> bool
    ensures { result ≡ spec.allows_unknown bytes.now }
{
    bytes.lines_with_terminator().any(names_no_rule)
}

/// Whether the group calls itself by a name that leads elsewhere.
pub(crate) fn is_called_else(
    alloc: Global,
    file: Option<&(GroupName, Vec<u8>)>,
    group: &GroupName,
) -> Result<bool, AllocError>
    ensures { IfOk result (λ is. is ≡ spec.is_called_else (option_copied file.entry) group.now) }
{
    match file {
        None => Ok(false),
        Some(file) => calls_itself_else(alloc, file.1.as_slice(), group),
    }
}

/// Whether a line of the file allows a rule that there is none of.
pub(crate) fn has_unknown(file: Option<&(GroupName, Vec<u8>)>) -> bool
    ensures { result ≡ spec.has_unknown (option_copied file.entry) }
{
    match file {
        None => false,
        Some(file) => allows_unknown(file.1.as_slice()),
    }
}

pub(crate) fn has_file(files: &[(GroupName, Vec<u8>)], name: &GroupName) -> bool
    ensures { result ≡ spec.has_file files.now name.now }
{
    files.iter().any(|file| file.0 == *name)
}

fn is_missing(files: &[(GroupName, Vec<u8>)], value: Option<&Value>) -> bool
    ensures { result ≡ spec.is_missing files.now (option_copied value.entry) }
{
    match value {
        Some(Value::Content(name)) => !has_file(files, name),
        _ => false,
    }
}

/// Whether the object shows content that has to arrive.
pub(crate) fn is_to_come(files: &[(GroupName, Vec<u8>)], part: &Fixed) -> bool
    ensures { result ≡ spec.is_to_come files.now part.now }
{
    part.class.has_content()
        && is_missing(files, as_value(part.properties.get(Attribute::OrigContent)))
}
