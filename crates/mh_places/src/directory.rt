//! `Directory`: where the objects of a service and their actions stand in its files.
//!
//! Each file is read once, and its places are counted one from another: so whoever asks for many places pays for the files
//! once, and then for a look-up each.
ghost use Rattle.std.specs.Prelude.{◌≡◌, ◌++◌, ◌∷◌, [], if◌then◌else◌, ℕ, map, slice_get, Some, IfOk, OnOk};
ghost use Rattle.std.specs.List.{flat_map, position};
ghost use Rattle.std.specs.Option.{option_copied};
ghost use Rattle.std.specs.Str.{bytes_eq};
ghost use Rattle.mh_text.specs.Landmarks.{sight_of};
ghost use Rattle.mh_places.specs.Directory as spec;
ghost use Rattle.mh_places.specs.Directory.{AreBeside, AreOf, IsFound, file_of, is_action_of, is_in as is_in_lem, is_object, listed, marked_at, seen_at};

use crate::counting::{beginning, known_behind};
use crate::place::Place;
use crate::span::{Span, span_from};
use crate::table::{Table, put, span_under};
use indexmap::IndexMap;
use mh_base::{GroupName, ObjRef};
use mh_group::Attribute;
use mh_text::{Landmark, Mark, Sight, landmarks, marks};
use std::alloc::{AllocError, Global};
use std::marker::Model;

/// When the actions of a field are counted, whatever stands first in the text.
#[derive(Clone, Copy)]
enum Turn {
    StartUp,
    CloseDown,
    Last,
}

/// The spans of a text.
#[derive(Drop)]
struct Tables {
    objects: Table,
    actions: Table,
}

impl Model for Tables {
    ghost use Rattle.mh_places.specs.Directory.{Tables as TablesValue};

    ghost Value = { TablesValue };

    ghost view = { λ t. record { objects = t.objects.entries; actions = t.actions.entries } };
}

/// Where the objects of a service and their actions stand in its files. A contract sees the files.
#[derive(Drop)]
pub struct Directory<'a> {
    files: &'a [(GroupName, Vec<u8>)],
    tables: Vec<Tables>,
}

impl<'a> Model for Directory<'a> {
    ghost use Rattle.std.specs.Prelude.{List};
    ghost use Rattle.mh_told.specs.Reading.{Source};
    ghost use Rattle.mh_places.specs.Directory.{AreBeside, AreOf};

    ghost Value = { List Source };

    ghost view = { λ d. d.files.now };

    ghost invariant = { λ d. AreBeside AreOf d.files.now d.tables.items };
}

impl<'a> Directory<'a> {
    /// The directory of these files. It reads each of them once.
    pub fn of(alloc: Global, files: &'a [(GroupName, Vec<u8>)]) -> Result<Directory<'a>, AllocError>
        ensures { IfOk result (λ directory. directory ≡ files.now) }
    {
        let tables = tables_of(alloc, files)?;
        Ok(Directory { files, tables })
    }

    /// What is meant by the object, if it is found: its number, or the class of a group.
    #[tactic(auto, unfolding(crate::specs::Directory::object_span))]
    pub fn object_span(&self, at: &ObjRef) -> Option<Span>
        ensures { result ≡ spec.object_span self.now at.now }
    {
        match self.tables_of_file(&at.group) {
            Some(tables) => span_under(&tables.objects, at.number, 0),
            None => None,
        }
    }

    /// Where the object stands, if it is found.
    #[tactic(auto, unfolding(crate::specs::Directory::object_place))]
    pub fn object_place(&self, at: &ObjRef) -> Option<Place>
        ensures { result ≡ spec.object_place self.now at.now }
    {
        match self.object_span(at) {
            Some(span) => Some(span.place()),
            None => None,
        }
    }

    /// What is meant by the action of the object before which so many are counted, if it is found: its keyword.
    #[tactic(auto, unfolding(crate::specs::Directory::action_span))]
    pub fn action_span(&self, at: &ObjRef, before: usize) -> Option<Span>
        ensures { result ≡ spec.action_span self.now at.now before }
    {
        match self.tables_of_file(&at.group) {
            Some(tables) => span_under(&tables.actions, at.number, before),
            None => None,
        }
    }

    /// Where the action of the object stands before which so many are counted, if it is found.
    #[tactic(auto, unfolding(crate::specs::Directory::action_place))]
    pub fn action_place(&self, at: &ObjRef, before: usize) -> Option<Place>
        ensures { result ≡ spec.action_place self.now at.now before }
    {
        match self.action_span(at, before) {
            Some(span) => Some(span.place()),
            None => None,
        }
    }

    /// The files of which it is.
    pub fn files(&self) -> &'a [(GroupName, Vec<u8>)]
        ensures { result.now ≡ self.now }
    {
        self.files
    }

    /// At which place the file of this name stands, from 0 on, if it is there.
    pub fn file_number(&self, group: &GroupName) -> Option<usize>
        ensures { result ≡ position (λ f. bytes_eq f.0 group.now) self.now }
    {
        position_of(self.files, group)
    }

    #[tactic(auto, using(crate::proofs::DirectoryLemmas::none_found, crate::proofs::DirectoryLemmas::one_found))]
    fn tables_of_file(&self, group: &GroupName) -> Option<&Tables>
        ensures { IsFound AreOf (file_of self.now group.now) (option_copied result) }
    {
        match self.file_number(group) {
            Some(number) => tables_at(self.tables.as_slice(), number),
            None => None,
        }
    }
}

fn tables_at(tables: &[Tables], number: usize) -> Option<&Tables>
    ensures { option_copied result ≡ slice_get tables.now number }
{
    tables.get(number)
}

/// At which place the file of this name stands.
fn position_of(files: &[(GroupName, Vec<u8>)], group: &GroupName) -> Option<usize>
    ensures { result ≡ position (λ f. bytes_eq f.0 group.now) files.now }
{
    files.iter().position(|file| file.0 == *group)
}

fn tables_of(alloc: Global, files: &[(GroupName, Vec<u8>)]) -> Result<Vec<Tables>, AllocError>
    ensures { IfOk result (λ tables. AreBeside AreOf files.now tables.items) }
{
    let mut tables = Vec::new(alloc);
    for file in files {
        tables.push(tables_in(alloc, file.1.as_slice())?)?;
    }
    Ok(tables)
}

/// The spans of a text.
fn tables_in(alloc: Global, bytes: &[u8]) -> Result<Tables, AllocError>
    ensures { IfOk result (AreOf bytes.now) }
{
    let objects = objects_in(alloc, bytes)?;
    let actions = actions_in(alloc, bytes)?;
    Ok(Tables { objects, actions })
}

#[tactic(auto, using(crate::proofs::DirectoryLemmas::seen_all))]
fn objects_in(alloc: Global, bytes: &[u8]) -> Result<Table, AllocError>
    ensures { IfOk result (λ table. (n : ℕ) → listed n table.entries ≡ spec.object_spans bytes.now n) }
{
    let landmarks = landmarks(alloc, bytes)?;
    let mut table = IndexMap::new(alloc);
    put_landmarks(alloc, &mut table, bytes, landmarks.as_slice())?;
    Ok(table)
}

/// Puts the spans of landmarks under the numbers of objects.
fn put_landmarks(
    alloc: Global,
    table: &mut Table,
    bytes: &[u8],
    landmarks: &[Landmark<'_>],
) -> Result<(), AllocError>
    ensures { OnOk result
        ((n : ℕ) → listed n table.new.entries ≡ listed n table.old.entries ++ flat_map (seen_at bytes.now n) landmarks.now) }
{
    let mut known = beginning(bytes);
    for landmark in landmarks {
        known = known_behind(bytes, known, landmark.start);
        let span = span_from(bytes, known, landmark.length);
        put_sight(alloc, table, landmark.sight, span)?;
    }
    Ok(())
}

/// Puts a span under the number of the object that is seen there.
fn put_sight(
    alloc: Global,
    table: &mut Table,
    sight: Sight<'_>,
    span: Span,
) -> Result<(), AllocError>
    ensures { OnOk result
        ((n : ℕ) →
        listed n table.new.entries
        ≡ listed n table.old.entries ++ (if is_object n (sight_of sight.entry) then span ∷ [] else [])) }
{
    match sight {
        Sight::Class => put(alloc, table, 0, span),
        Sight::Number(number) => put(alloc, table, number, span),
        Sight::Name(_) => Ok(()),
    }
}

#[tactic(auto, using(crate::proofs::DirectoryLemmas::marked_all))]
fn actions_in(alloc: Global, bytes: &[u8]) -> Result<Table, AllocError>
    ensures { IfOk result (λ table. (n : ℕ) → listed n table.entries ≡ spec.action_spans bytes.now n) }
{
    let marks = marks(alloc, bytes)?;
    let mut table = IndexMap::new(alloc);
    put_marks(alloc, &mut table, bytes, marks.as_slice(), Turn::StartUp)?;
    put_marks(alloc, &mut table, bytes, marks.as_slice(), Turn::CloseDown)?;
    put_marks(alloc, &mut table, bytes, marks.as_slice(), Turn::Last)?;
    Ok(table)
}

/// Puts the spans of the actions that are counted in this turn.
fn put_marks(
    alloc: Global,
    table: &mut Table,
    bytes: &[u8],
    marks: &[Mark],
    turn: Turn,
) -> Result<(), AllocError>
    ensures { OnOk result
        ((n : ℕ) →
        listed n table.new.entries ≡ listed n table.old.entries ++ flat_map (marked_at bytes.now n turn) marks.now) }
{
    let mut known = beginning(bytes);
    for mark in marks {
        known = known_behind(bytes, known, mark.start);
        let span = span_from(bytes, known, mark.length);
        put_mark(alloc, table, mark, turn, span)?;
    }
    Ok(())
}

/// Puts a span under the object of the action that is marked there, if it is counted in this turn.
fn put_mark(
    alloc: Global,
    table: &mut Table,
    mark: &Mark,
    turn: Turn,
    span: Span,
) -> Result<(), AllocError>
    ensures { OnOk result
        ((n : ℕ) →
        listed n table.new.entries
        ≡ listed n table.old.entries ++ (if is_action_of n turn mark.now then span ∷ [] else [])) }
{
    if mark.action.is_some() && is_in(turn, mark.field) {
        put(alloc, table, mark.object, span)
    } else {
        Ok(())
    }
}

/// Whether the actions of the field are counted in this turn.
fn is_in(turn: Turn, field: Attribute) -> bool
    ensures { result ≡ is_in_lem turn field }
{
    match field {
        Attribute::OnStartUp => matches!(turn, Turn::StartUp),
        Attribute::OnCloseDown => matches!(turn, Turn::CloseDown),
        _ => matches!(turn, Turn::Last),
    }
}
