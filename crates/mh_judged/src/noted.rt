//! What is noted of an accepted service, as findings.
//!
//! Promise: each function answers or pushes what the definition of the same matter in `specs/Accepted` says.
ghost use Rattle.std.specs.Prelude.{◌≡◌, ◌++◌, IfOk, OnOk};
ghost use Rattle.std.specs.List.{flat_map};
ghost use Rattle.mh_judged.specs.Accepted as spec;

use crate::advice::{found_as, stated};
use crate::sites::numbered_site;
use mh_base::Seq;
use mh_findings::{Finding, Grade};
use mh_flow::Equipped;
use mh_lint::{Allowed, Asked, Grounds, Note, is_allowed, notes_of, put_object};
use mh_places::Directory;
use mh_told::text::Text;
use std::alloc::{AllocError, Global};

/// Pushes what is noted of the service.
pub(crate) fn push_notes(
    alloc: Global,
    found: &mut Vec<Finding>,
    service: &Equipped<'_>,
    folder: &[u8],
    grounds: &Grounds<'_>,
    asked: Asked,
) -> Result<(), AllocError>
    ensures { OnOk result (found.new.items
        ≡ found.old.items ++ spec.note_findings asked service.now folder.now grounds.now) }
{
    let notes = notes_of(alloc, service, grounds.files(), asked.all)?;
    let allowed = asked.allowed;
    push_told(
        alloc,
        found,
        service,
        folder,
        grounds,
        allowed,
        notes.as_slice(),
    )
}

/// Pushes those of the notes that are told.
fn push_told(
    alloc: Global,
    found: &mut Vec<Finding>,
    service: &Equipped<'_>,
    folder: &[u8],
    grounds: &Grounds<'_>,
    allowed: Allowed,
    notes: &[Note],
) -> Result<(), AllocError>
    ensures { OnOk result (found.new.items
        ≡ found.old.items ++ flat_map (spec.told_note allowed service.now folder.now grounds.now) notes.now) }
{
    for note in notes {
        push_note(alloc, found, service, folder, grounds, allowed, note)?;
    }
    Ok(())
}

fn push_note(
    alloc: Global,
    found: &mut Vec<Finding>,
    service: &Equipped<'_>,
    folder: &[u8],
    grounds: &Grounds<'_>,
    allowed: Allowed,
    note: &Note,
) -> Result<(), AllocError>
    ensures { OnOk result (found.new.items
        ≡ found.old.items ++ spec.told_note allowed service.now folder.now grounds.now note.now) }
{
    if is_allowed(allowed, grounds, note) {
        return Ok(());
    }
    found.push(note_finding(alloc, service, folder, grounds.directory(), note)?)?;
    Ok(())
}

#[tactic(auto, unfolding(crate::specs::Accepted::note_finding))]
fn note_finding(
    alloc: Global,
    service: &Equipped<'_>,
    folder: &[u8],
    directory: &Directory<'_>,
    note: &Note,
) -> Result<Finding, AllocError>
    ensures { IfOk result (λ finding.
        finding ≡ spec.note_finding service.now folder.now directory.now note.now) }
{
    let words = note_words(alloc, service, note)?;
    let advice = stated(alloc, words.as_slice())?;
    let at = numbered_site(alloc, folder, directory, &note.at, note.index)?;
    let rule = note.rule.word();
    found_as(alloc, Grade::Note, rule, at, advice, Seq::new(alloc))
}

#[tactic(auto, unfolding(crate::specs::Accepted::note_words))]
fn note_words(alloc: Global, service: &Equipped<'_>, note: &Note) -> Result<Text, AllocError>
    ensures { IfOk result (λ words. words ≡ spec.note_words service.now note.now) }
{
    let mut words = Text::new(alloc);
    put_object(&mut words, service, &note.at)?;
    words.put(b" ")?;
    words.put(note.rule.text())?;
    Ok(words)
}
