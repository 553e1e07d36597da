//! The lines of notes, and which notes are told.
//!
//! Promise: each function answers or puts what the definition of the same matter in `specs/NoteLines` says.
ghost use Rattle.std.specs.Prelude.{◌≡◌, ◌++◌, OnOk, IfOk};
ghost use Rattle.std.specs.List.{flat_map, list_any};
ghost use Rattle.bstr.specs.Text.{lines_of, without_terminator};
ghost use Rattle.mh_lint.specs.NoteLines as spec;

use crate::ending::ends_in;
use crate::grounds::Grounds;
use crate::note::Note;
use crate::rule::{Allowed, Rule};
use crate::telling::{put_front, put_front_place, put_object};
use bstr::ByteSlice;
use mh_base::ObjRef;
use mh_flow::Equipped;
use mh_told::text::Text;
use std::alloc::{AllocError, Global};

/// What a line ends in that turns the rule off for its file.
#[tactic(auto, unfolding(crate::specs::NoteLines::comment_words))]
fn comment(alloc: Global, rule: Rule) -> Result<Text, AllocError>
    ensures { IfOk result (λ words. words ≡ spec.comment_words rule) }
{
    let mut words = Text::new(alloc);
    words.put(b"// lint: allow ")?;
    words.put(rule.word())?;
    Ok(words)
}

/// A line without its line feed and a carriage return before it.
pub(crate) fn without_terminator(line: &[u8]) -> &[u8]
    ensures { result.now ≡ without_terminator line.now }
{
    match line {
        [front @ .., b'\r', b'\n'] | [front @ .., b'\n'] => front,
        _ => line,
    }
}

fn turns_off(words: &[u8], line: &[u8]) -> bool
    ensures { result ≡ spec.turns_off words.now line.now }
{
    ends_in(words, without_terminator(line))
}

/// Whether a line of the file ends so.
fn allows(words: &[u8], bytes: &[u8]) -> bool
    ensures { result ≡ spec.allows words.now bytes.now }
{
    bytes
        .lines_with_terminator()
        .any(|line| turns_off(words, line))
}

/// Whether a comment in the file turns the rule off.
pub(crate) fn is_turned_off(alloc: Global, bytes: &[u8], rule: Rule) -> Result<bool, AllocError>
    ensures { IfOk result (λ is. is ≡ spec.allows (spec.comment_words rule) bytes.now) }
{
    let words = comment(alloc, rule)?;
    Ok(allows(words.as_slice(), bytes))
}

/// Whether a note is not told: its rule is turned off, for all files or by a comment in the file of its object.
pub fn is_allowed(allowed: Allowed, grounds: &Grounds<'_>, note: &Note) -> bool
    ensures { result ≡ spec.is_allowed allowed grounds.now note.now }
{
    allowed.has(note.rule) || grounds.allows(&note.at.group, note.rule)
}

#[tactic(auto, unfolding(crate::specs::NoteLines::act_front))]
fn put_act_front(
    text: &mut Text,
    grounds: &Grounds<'_>,
    at: &ObjRef,
    index: usize,
) -> Result<(), AllocError>
    ensures { OnOk result (text.new ≡ text.old ++ spec.act_front grounds.now at.now index) }
{
    text.put(at.group.as_bytes())?;
    text.put(b":")?;
    put_front_place(
        text,
        grounds
            .directory()
            .action_place(at, index.saturating_sub(1)),
    )
}

/// Puts the file, and the place in it of the object, or of its action with this number.
fn put_note_front(
    text: &mut Text,
    grounds: &Grounds<'_>,
    at: &ObjRef,
    index: usize,
) -> Result<(), AllocError>
    ensures { OnOk result (text.new ≡ text.old ++ spec.note_front grounds.now at.now index) }
{
    if index == 0 {
        return put_front(text, grounds.directory(), at);
    }
    put_act_front(text, grounds, at, index)
}

#[tactic(auto, unfolding(crate::specs::NoteLines::rule_end))]
fn put_rule(text: &mut Text, rule: Rule) -> Result<(), AllocError>
    ensures { OnOk result (text.new ≡ text.old ++ spec.rule_end rule) }
{
    text.put(b" ")?;
    text.put(rule.text())?;
    text.put(b" (")?;
    text.put(rule.word())?;
    text.put(b")\n")
}

/// Puts the line of a note.
#[tactic(auto, unfolding(crate::specs::NoteLines::note_words))]
fn put_note(
    text: &mut Text,
    service: &Equipped<'_>,
    grounds: &Grounds<'_>,
    note: &Note,
) -> Result<(), AllocError>
    ensures { OnOk result (text.new ≡ text.old ++ spec.note_words service.now grounds.now note.now) }
{
    put_note_front(text, grounds, &note.at, note.index)?;
    text.put(b" note: ")?;
    put_object(text, service, &note.at)?;
    put_rule(text, note.rule)
}

fn put_told(
    text: &mut Text,
    allowed: Allowed,
    service: &Equipped<'_>,
    grounds: &Grounds<'_>,
    note: &Note,
) -> Result<(), AllocError>
    ensures { OnOk result (text.new ≡ text.old ++ spec.told_words allowed service.now grounds.now note.now) }
{
    if is_allowed(allowed, grounds, note) {
        return Ok(());
    }
    put_note(text, service, grounds, note)
}

/// Puts the lines of notes, but of those that are turned off.
pub(crate) fn put_notes(
    text: &mut Text,
    allowed: Allowed,
    service: &Equipped<'_>,
    grounds: &Grounds<'_>,
    notes: &[Note],
) -> Result<(), AllocError>
    ensures { OnOk result (text.new ≡ text.old ++ spec.notes_words allowed service.now grounds.now notes.now) }
{
    for note in notes {
        put_told(text, allowed, service, grounds, note)?;
    }
    Ok(())
}
