//! Where objects are defined and named.
ghost use Rattle.std.specs.Prelude.{◌≡◌, ◌++◌, filter, map, IfOk, OnOk};
ghost use Rattle.serde_json.specs.View.{view};
ghost use Rattle.mh_protocol.specs.Counting.{range_in};
ghost use Rattle.mh_answers.specs.Locations as spec;

use crate::objects::{File, file_named, object_at, spots_in};
use crate::paths::uri_of;
use mh_base::ObjRef;
use mh_edit::{Extent, Role, Spot, definition_in, uses_in};
use mh_protocol::{Counter, Range, Unit, range_value};
use serde_json::{Value, json, push};
use std::alloc::{AllocError, Global};

/// A range of a file, as it is written.
#[tactic(auto, unfolding(crate::specs::Locations::location_data))]
pub(crate) fn location_value(alloc: Global, uri: &str, range: Range) -> Result<Value, AllocError>
    ensures { IfOk result (λ value. view value ≡ spec.location_data uri.now range) }
{
    let range = range_value(alloc, range)?;
    json!(in alloc; {"range": range, "uri": uri})
}

/// Where the object is defined that is named at a place; null where none is.
pub fn definition_at(
    alloc: Global,
    unit: Unit,
    folder: &[u8],
    files: &[File],
    file: &File,
    offset: usize,
) -> Result<Value, AllocError>
    ensures { IfOk result (λ value. view value ≡ spec.definition_at unit folder.now files.now file.now offset) }
{
    match object_at(alloc, file, offset)? {
        Some(object) => {
            let found = definition_of(alloc, unit, folder, files, &object);
            drop(object);
            found
        }
        None => Ok(Value::Null),
    }
}

/// Where the object is defined.
fn definition_of(
    alloc: Global,
    unit: Unit,
    folder: &[u8],
    files: &[File],
    object: &ObjRef,
) -> Result<Value, AllocError>
    ensures { IfOk result (λ value. view value ≡ spec.definition_of unit folder.now files.now object.now) }
{
    match file_named(files, object.group.as_bytes()) {
        Some(file) => definition_within(alloc, unit, folder, file, object.number),
        None => Ok(Value::Null),
    }
}

#[tactic(auto, unfolding(crate::specs::Locations::definition_within))]
fn definition_within(
    alloc: Global,
    unit: Unit,
    folder: &[u8],
    file: &File,
    number: u32,
) -> Result<Value, AllocError>
    ensures { IfOk result (λ value. view value ≡ spec.definition_within unit folder.now file.now number) }
{
    let spots = spots_in(alloc, file.1.as_slice())?;
    let spot = definition_in(spots.as_slice(), number);
    drop(spots);
    match spot {
        Some(spot) => located(alloc, unit, folder, file, spot.at),
        None => Ok(Value::Null),
    }
}

/// A token of a file, as it is written.
fn located(
    alloc: Global,
    unit: Unit,
    folder: &[u8],
    file: &File,
    at: Extent,
) -> Result<Value, AllocError>
    ensures { IfOk result (λ value. view value ≡ spec.located unit folder.now file.now at) }
{
    let uri = uri_of(alloc, folder, file.0.as_bytes())?;
    let range = range_at(unit, file.1.as_slice(), at);
    location_value(alloc, uri.as_str(), range)
}

/// The range of a token.
pub(crate) fn range_at(unit: Unit, bytes: &[u8], at: Extent) -> Range
    ensures { result ≡ range_in unit at.start at.length bytes.now }
{
    let mut places = Counter::of(unit, bytes);
    places.range_at(at.start, at.length)
}

/// Where the object is named, file by file; also where it is defined, if that is asked for.
#[tactic(auto, unfolding(crate::specs::Locations::references_to))]
pub fn references_to(
    alloc: Global,
    unit: Unit,
    folder: &[u8],
    files: &[File],
    object: &ObjRef,
    with_definition: bool,
) -> Result<Value, AllocError>
    ensures { IfOk result (λ value. view value ≡ spec.references_to unit folder.now files.now object.now with_definition) }
{
    let mut found = Vec::new(alloc);
    push_references(
        alloc,
        &mut found,
        unit,
        folder,
        files,
        object,
        with_definition,
    )?;
    Ok(Value::Array(found))
}

fn push_references(
    alloc: Global,
    found: &mut Vec<Value>,
    unit: Unit,
    folder: &[u8],
    files: &[File],
    object: &ObjRef,
    with_definition: bool,
) -> Result<(), AllocError>
    ensures { OnOk result (map view found.new.items
        ≡ map view found.old.items ++ spec.references unit folder.now object.now with_definition files.now) }
{
    for file in files {
        push_named(alloc, found, unit, folder, file, object, with_definition)?;
    }
    Ok(())
}

/// Pushes where a file names the object.
#[tactic(auto, unfolding(crate::specs::Locations::references_in))]
fn push_named(
    alloc: Global,
    found: &mut Vec<Value>,
    unit: Unit,
    folder: &[u8],
    file: &File,
    object: &ObjRef,
    with_definition: bool,
) -> Result<(), AllocError>
    ensures { OnOk result (map view found.new.items
        ≡ map view found.old.items ++ spec.references_in unit folder.now object.now with_definition file.now) }
{
    let extents = named_in(alloc, file, object, with_definition)?;
    push_located(alloc, found, unit, folder, file, extents.as_slice())
}

/// The tokens of a file that are the number of the object, but for that of its definition if that is not asked for.
#[tactic(auto, unfolding(crate::specs::Locations::named_in))]
fn named_in(
    alloc: Global,
    file: &File,
    object: &ObjRef,
    with_definition: bool,
) -> Result<Vec<Extent>, AllocError>
    ensures { IfOk result (λ found. found.items ≡ spec.named_in file.now object.now with_definition) }
{
    let mut spots = spots_in(alloc, file.1.as_slice())?;
    keep_wanted(&mut spots, with_definition);
    uses_in(alloc, &file.0, file.1.as_slice(), spots.as_slice(), object)
}

fn keep_wanted(spots: &mut Vec<Spot>, with_definition: bool)
    ensures { spots.new.items ≡ filter (spec.is_wanted with_definition) spots.old.items }
{
    spots.retain(|spot| is_wanted(with_definition, spot));
}

fn is_wanted(with_definition: bool, spot: &Spot) -> bool
    ensures { result ≡ spec.is_wanted with_definition spot.now }
{
    with_definition || !is_definition(spot.role)
}

fn is_definition(role: Role) -> bool
    ensures { result ≡ spec.is_definition role }
{
    matches!(role, Role::Defines(_))
}

fn push_located(
    alloc: Global,
    found: &mut Vec<Value>,
    unit: Unit,
    folder: &[u8],
    file: &File,
    extents: &[Extent],
) -> Result<(), AllocError>
    ensures { OnOk result (map view found.new.items
        ≡ map view found.old.items ++ map (spec.located unit folder.now file.now) extents.now) }
{
    let uri = uri_of(alloc, folder, file.0.as_bytes())?;
    let mut places = Counter::of(unit, file.1.as_slice());
    push_ranged(alloc, found, uri.as_str(), &mut places, extents)
}

fn push_ranged(
    alloc: Global,
    found: &mut Vec<Value>,
    uri: &str,
    places: &mut Counter<'_>,
    extents: &[Extent],
) -> Result<(), AllocError>
    ensures { OnOk result (map view found.new.items
        ≡ map view found.old.items ++ map (spec.ranged uri.now places.old) extents.now) }
{
    for at in extents {
        let range = places.range_at(at.start, at.length);
        push(found, location_value(alloc, uri, range)?)?;
    }
    Ok(())
}
