//! A new number for an object: the edits of all files, which change the tokens that are its number and no others.
ghost use Rattle.std.specs.Prelude.{◌≡◌, ◌++◌, map, IfOk, OnOk};
ghost use Rattle.serde_json.specs.View.{view, members_view};
ghost use Rattle.mh_answers.specs.Renaming as spec;

use crate::locations::range_at;
use crate::objects::{File, file_named, object_at, spots_in};
use crate::paths::uri_of;
use mh_base::ObjRef;
use mh_edit::{Extent, definition_in, spot_over, uses_in};
use mh_protocol::{Counter, Range, Unit, range_value};
use serde_json::{Map, Value, json, push, put};
use std::alloc::{AllocError, Global};

/// The largest number of an object.
const LARGEST_NUMBER: u32 = 2_147_483_647;

/// The number that a text writes, if an ingredient may have it.
pub fn number_of(text: &str) -> Option<u32> {
    match text.parse::<u32>() {
        Ok(number) if number != 0 && number <= LARGEST_NUMBER => Some(number),
        _ => None,
    }
}

/// The token at a place, if it is the number of an ingredient; null if it is not.
pub fn renumbered_range(
    alloc: Global,
    unit: Unit,
    file: &File,
    offset: usize,
) -> Result<Value, AllocError> {
    match object_at(alloc, file, offset)? {
        Some(object) => range_if(alloc, unit, file, offset, object.number != 0),
        None => Ok(Value::Null),
    }
}

fn range_if(
    alloc: Global,
    unit: Unit,
    file: &File,
    offset: usize,
    is_ingredient: bool,
) -> Result<Value, AllocError> {
    let spots = spots_in(alloc, file.1.as_slice())?;
    let spot = spot_over(spots.as_slice(), offset);
    drop(spots);
    match spot {
        Some(spot) if is_ingredient => {
            range_value(alloc, range_at(unit, file.1.as_slice(), spot.at))
        }
        _ => Ok(Value::Null),
    }
}

/// Whether an object of the same group has this number already.
pub fn is_taken(
    alloc: Global,
    files: &[File],
    object: &ObjRef,
    number: u32,
) -> Result<bool, AllocError> {
    match file_named(files, object.group.as_bytes()) {
        Some(file) => {
            let spots = spots_in(alloc, file.1.as_slice())?;
            let found = definition_in(spots.as_slice(), number).is_some();
            drop(spots);
            Ok(found)
        }
        None => Ok(false),
    }
}

/// The edits of all files that give the object this number.
#[tactic(auto, unfolding(crate::specs::Renaming::renamed))]
pub fn renamed(
    alloc: Global,
    unit: Unit,
    folder: &[u8],
    files: &[File],
    object: &ObjRef,
    number: u32,
) -> Result<Value, AllocError>
    ensures { IfOk result (λ value. view value ≡ spec.renamed unit folder.now files.now object.now number) }
{
    let changes = changes_of(alloc, unit, folder, files, object, number)?;
    json!(in alloc; {"changes": changes})
}

#[tactic(auto, unfolding(crate::specs::Renaming::changes))]
fn changes_of(
    alloc: Global,
    unit: Unit,
    folder: &[u8],
    files: &[File],
    object: &ObjRef,
    number: u32,
) -> Result<Value, AllocError>
    ensures { IfOk result (λ value. view value ≡ spec.changes unit folder.now object.now number files.now) }
{
    let mut changes = Map::new(alloc);
    put_changes(alloc, &mut changes, unit, folder, files, object, number)?;
    Ok(Value::Object(changes))
}

fn put_changes(
    alloc: Global,
    changes: &mut Map<String, Value>,
    unit: Unit,
    folder: &[u8],
    files: &[File],
    object: &ObjRef,
    number: u32,
) -> Result<(), AllocError>
    ensures { OnOk result (members_view changes.new.entries
        ≡ spec.changes_behind unit folder.now object.now number (members_view changes.old.entries) files.now) }
{
    for file in files {
        put_edits(alloc, changes, unit, folder, file, object, number)?;
    }
    Ok(())
}

/// Puts the edits of a file, if there are any.
fn put_edits(
    alloc: Global,
    changes: &mut Map<String, Value>,
    unit: Unit,
    folder: &[u8],
    file: &File,
    object: &ObjRef,
    number: u32,
) -> Result<(), AllocError>
    ensures { OnOk result (members_view changes.new.entries
        ≡ spec.with_edits unit folder.now object.now number file.now (members_view changes.old.entries)) }
{
    let extents = numbers_in(alloc, file, object)?;
    if extents.as_slice().is_empty() {
        return Ok(());
    }
    let uri = uri_of(alloc, folder, file.0.as_bytes())?;
    let edits = edits_of(alloc, unit, file.1.as_slice(), extents.as_slice(), number)?;
    put(changes, alloc, uri.as_str(), edits)
}

/// The tokens of a file that are the number of the object.
#[tactic(auto, unfolding(crate::specs::Renaming::numbers_in))]
fn numbers_in(alloc: Global, file: &File, object: &ObjRef) -> Result<Vec<Extent>, AllocError>
    ensures { IfOk result (λ found. found.items ≡ spec.numbers_in file.now object.now) }
{
    let spots = spots_in(alloc, file.1.as_slice())?;
    uses_in(alloc, &file.0, file.1.as_slice(), spots.as_slice(), object)
}

fn edits_of(
    alloc: Global,
    unit: Unit,
    bytes: &[u8],
    extents: &[Extent],
    number: u32,
) -> Result<Value, AllocError>
    ensures { IfOk result (λ value. view value ≡ spec.edits unit bytes.now number extents.now) }
{
    let text = format!(in alloc; "{number}")?;
    let mut places = Counter::of(unit, bytes);
    let mut edits = Vec::new(alloc);
    push_edits(alloc, &mut edits, text.as_str(), &mut places, extents)?;
    Ok(Value::Array(edits))
}

fn push_edits(
    alloc: Global,
    edits: &mut Vec<Value>,
    text: &str,
    places: &mut Counter<'_>,
    extents: &[Extent],
) -> Result<(), AllocError>
    ensures { OnOk result (map view edits.new.items
        ≡ map view edits.old.items ++ map (spec.written_at text.now places.old) extents.now) }
{
    for at in extents {
        let range = places.range_at(at.start, at.length);
        push(edits, edit_value(alloc, range, text)?)?;
    }
    Ok(())
}

/// A text in place of what stands in a range, as it is written.
#[tactic(auto, unfolding(crate::specs::Renaming::edit_data))]
pub(crate) fn edit_value(alloc: Global, range: Range, text: &str) -> Result<Value, AllocError>
    ensures { IfOk result (λ value. view value ≡ spec.edit_data range text.now) }
{
    let range = range_value(alloc, range)?;
    json!(in alloc; {"newText": text, "range": range})
}
