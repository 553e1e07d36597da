//! What is noted of groups and of a whole service, without a theorem.
//!
//! Promise: each function answers, or puts behind the others, what the definition of the same matter in `specs/Notes` says.
ghost use Rattle.std.specs.Prelude.{◌≡◌, ◌++◌, OnOk, IfOk};
ghost use Rattle.std.specs.List.{flat_map, list_any, position};
ghost use Rattle.mh_model.specs.Groups.{is_initially_active};
ghost use Rattle.mh_lint.specs.Notes as spec;

use crate::acts::leaves_at_once;
use crate::ending::ends_in;
use crate::note::Note;
use crate::noting::{push_if, push_note, push_object};
use crate::place::file_of;
use crate::rule::Rule;
use crate::sources::{has_unknown, is_called_else};
use crate::uses::Uses;
use crate::uses::gathering::uses_of;
use mh_base::{GroupName, ObjRef};
use mh_flow::Equipped;
use mh_group::{Attribute, Class};
use mh_model::parts::{effect_of, is_initially_active};
use mh_model::{Act, Fixed, FixedPart};
use std::alloc::{AllocError, Global};

fn push_objects(
    alloc: Global,
    notes: &mut Vec<Note>,
    all: bool,
    files: &[(GroupName, Vec<u8>)],
    uses: &Uses,
    late: &[GroupName],
    is_of_application: bool,
    parts: &[FixedPart],
) -> Result<(), AllocError>
    ensures { OnOk result (notes.new.items
        ≡ notes.old.items ++ flat_map (spec.of_object all files.now uses.now late.now is_of_application) parts.now) }
{
    for part in parts {
        push_object(
            alloc,
            notes,
            all,
            files,
            uses,
            late,
            is_of_application,
            part.get(),
        )?;
    }
    Ok(())
}

/// Whether an editor keeps what was written before under such a name.
fn is_backup(name: &[u8]) -> bool
    ensures { result ≡ spec.is_backup name.now }
{
    ends_in(b"~", name) || ends_in(b".bak", name) || ends_in(b".swp", name)
}

fn has_active(items: &[FixedPart]) -> bool
    ensures { result ≡ list_any is_initially_active items.now }
{
    items.iter().any(|item| is_initially_active(item.get()))
}

/// The place of the first action that leads away.
fn first_leaving(late: &[GroupName], acts: &[Act]) -> Option<usize>
    ensures { result ≡ position (spec.leaves_at_once late.now) acts.now }
{
    acts.iter().position(|act| leaves_at_once(late, act))
}

/// That an application leads away at once, while items of it are active at first.
fn push_start(
    notes: &mut Vec<Note>,
    late: &[GroupName],
    part: &Fixed,
    items: &[FixedPart],
) -> Result<(), AllocError>
    ensures { OnOk result (notes.new.items ≡ notes.old.items ++ spec.of_start late.now part.now items.now) }
{
    if !matches!(part.class, Class::Application) || !has_active(items) {
        return Ok(());
    }
    match first_leaving(late, effect_of(part, Attribute::OnStartUp)) {
        None => Ok(()),
        Some(place) => push_note(notes, Rule::StartLeadsAway, &part.key, place + 1),
    }
}

/// Whether it is an application that stays when it starts, so that its items run.
fn runs_items(late: &[GroupName], part: &Fixed) -> bool
    ensures { result ≡ spec.runs_items late.now part.now }
{
    matches!(part.class, Class::Application)
        && !leads_away(late, effect_of(part, Attribute::OnStartUp))
}

fn leads_away(late: &[GroupName], acts: &[Act]) -> bool
    ensures { result ≡ list_any (spec.leaves_at_once late.now) acts.now }
{
    acts.iter().any(|act| leaves_at_once(late, act))
}

/// What is noted by the file of a group.
#[tactic(auto, unfolding(crate::specs::Notes::of_file))]
fn push_file(
    alloc: Global,
    notes: &mut Vec<Note>,
    files: &[(GroupName, Vec<u8>)],
    at: &ObjRef,
) -> Result<(), AllocError>
    ensures { OnOk result (notes.new.items ≡ notes.old.items ++ spec.of_file files.now at.now) }
{
    let file = file_of(files, &at.group);
    let differs = is_called_else(alloc, file, &at.group)?;
    let is_kept = is_backup(at.group.as_bytes());
    push_if(notes, is_kept, Rule::EditorBackup, at, 0)?;
    push_if(notes, differs, Rule::IdentifierDiffers, at, 0)?;
    push_if(notes, has_unknown(file), Rule::UnknownRule, at, 0)
}

/// What is noted of a group and its items.
#[tactic(auto, unfolding(crate::specs::Notes::of_group))]
fn push_group(
    alloc: Global,
    notes: &mut Vec<Note>,
    files: &[(GroupName, Vec<u8>)],
    late: &[GroupName],
    group: &Fixed,
    items: &[FixedPart],
) -> Result<(), AllocError>
    ensures { OnOk result (notes.new.items
        ≡ notes.old.items ++ spec.of_group files.now late.now group.now items.now) }
{
    push_file(alloc, notes, files, &group.key)?;
    push_start(notes, late, group, items)
}

/// What is noted of all objects of a group, of which the first is the group itself.
fn push_parts(
    alloc: Global,
    notes: &mut Vec<Note>,
    all: bool,
    files: &[(GroupName, Vec<u8>)],
    uses: &Uses,
    late: &[GroupName],
    parts: &[FixedPart],
) -> Result<(), AllocError>
    ensures { OnOk result (notes.new.items
        ≡ notes.old.items ++ spec.of_parts all files.now uses.now late.now parts.now) }
{
    let Some((first, items)) = parts.split_first() else {
        return Ok(());
    };
    let group = first.get();
    let runs_items = runs_items(late, group);
    push_group(alloc, notes, files, late, group, items)?;
    push_objects(alloc, notes, all, files, uses, late, runs_items, parts)
}

/// What is noted of all groups, in their order, by what is done to their objects.
#[tactic(auto, unfolding(crate::specs::Notes::notes_with))]
fn notes_with(
    alloc: Global,
    service: &Equipped<'_>,
    files: &[(GroupName, Vec<u8>)],
    all: bool,
    uses: &Uses,
) -> Result<Vec<Note>, AllocError>
    ensures { IfOk result (λ notes. notes.items ≡ spec.notes_with all files.now uses.now service.now) }
{
    let mut notes = Vec::new(alloc);
    let late = service.late();
    for parts in service.groups().values() {
        push_parts(alloc, &mut notes, all, files, uses, late, parts.as_slice())?;
    }
    Ok(notes)
}

/// What is noted of all groups, in their order; what is to come, too, if all is asked for.
pub fn notes_of(
    alloc: Global,
    service: &Equipped<'_>,
    files: &[(GroupName, Vec<u8>)],
    all: bool,
) -> Result<Vec<Note>, AllocError>
    ensures { IfOk result (λ notes. notes.items ≡ spec.notes all files.now service.now) }
{
    let uses = uses_of(alloc, service)?;
    notes_with(alloc, service, files, all, &uses)
}
