//! The objects of a file, and of a service, as symbols.
use crate::locations::location_value;
use crate::objects::{File, spots_in};
use crate::paths::uri_of;
use mh_edit::{Extent, Outlined, Pair, outline_of, pairs_of, words_of};
use mh_group::Class;
use mh_protocol::{Counter, Range, Unit, range_value};
use serde_json::{Value, json, push};
use std::alloc::{AllocError, Global};

/// The objects that a file defines.
pub fn symbols_in(alloc: Global, unit: Unit, bytes: &[u8]) -> Result<Value, AllocError> {
    let objects = objects_in(alloc, bytes)?;
    let mut found = Vec::new(alloc);
    push_symbols(alloc, &mut found, unit, bytes, objects.as_slice())?;
    Ok(Value::Array(found))
}

pub(crate) fn objects_in(alloc: Global, bytes: &[u8]) -> Result<Vec<Outlined>, AllocError> {
    let spots = spots_in(alloc, bytes)?;
    outline_of(alloc, spots.as_slice())
}

/// Pushes the objects. Their beginnings rise, and mostly their ends do, so that each is counted from the one before.
fn push_symbols(
    alloc: Global,
    found: &mut Vec<Value>,
    unit: Unit,
    bytes: &[u8],
    objects: &[Outlined],
) -> Result<(), AllocError> {
    let pairs = brackets_in(alloc, bytes)?;
    let mut starts = Counter::of(unit, bytes);
    let mut ends = Counter::of(unit, bytes);
    for object in objects {
        let whole = whole_of(bytes, pairs.as_slice(), object.spot.at);
        let range = Range {
            start: starts.place_at(whole.start),
            end: ends.place_at(whole.start.saturating_add(whole.length)),
        };
        let number = starts.range_at(object.spot.at.start, object.spot.at.length);
        push(found, symbol_value(alloc, object, range, number)?)?;
    }
    Ok(())
}

pub(crate) fn brackets_in(alloc: Global, bytes: &[u8]) -> Result<Vec<Pair>, AllocError> {
    let words = words_of(alloc, bytes)?;
    pairs_of(alloc, words.as_slice())
}

/// The braces that hold a token, with what stands between them; where none do, the token.
pub(crate) fn whole_of(bytes: &[u8], pairs: &[Pair], at: Extent) -> Extent {
    let mut best = at;
    let mut is_found = false;
    for pair in pairs {
        let holds = pair.start <= at.start && at.start <= pair.end;
        if holds && is_brace(bytes, pair.start) && (!is_found || best.start < pair.start) {
            is_found = true;
            best = Extent {
                start: pair.start,
                length: pair.end.saturating_sub(pair.start).saturating_add(1),
            };
        }
    }
    best
}

fn is_brace(bytes: &[u8], at: usize) -> bool {
    match bytes.get(at) {
        Some(byte) => *byte == b'{',
        None => false,
    }
}

fn symbol_value(
    alloc: Global,
    object: &Outlined,
    range: Range,
    number: Range,
) -> Result<Value, AllocError> {
    let name = name_of(alloc, object.class, object.number)?;
    let range = range_value(alloc, range)?;
    let number = range_value(alloc, number)?;
    json!(in alloc; {
        "kind": kind_of(object.class), "name": name.as_str(), "range": range, "selectionRange": number
    })
}

/// The class and the number of an object.
pub(crate) fn name_of(alloc: Global, class: Class, number: u32) -> Result<String, AllocError> {
    let word = String::from_utf8_lossy(alloc, class.word())?;
    let word = word.as_str();
    format!(in alloc; "{word} {number}")
}

/// The protocol's number for a kind of symbols.
fn kind_of(class: Class) -> u64 {
    match class {
        Class::Application | Class::Scene => 2,
        Class::Link => 24,
        Class::ResidentPrg => 12,
        Class::ListGroup | Class::TokenGroup => 18,
        Class::BooleanVar
        | Class::IntegerVar
        | Class::OStringVar
        | Class::ObjectRefVar
        | Class::ContentRefVar => 13,
        _ => 19,
    }
}

/// Pushes the objects of all files in whose name the query stands.
pub fn push_service_symbols(
    alloc: Global,
    found: &mut Vec<Value>,
    unit: Unit,
    folder: &[u8],
    files: &[File],
    query: &str,
) -> Result<(), AllocError> {
    for file in files {
        push_file_symbols(alloc, found, unit, folder, file, query)?;
    }
    Ok(())
}

fn push_file_symbols(
    alloc: Global,
    found: &mut Vec<Value>,
    unit: Unit,
    folder: &[u8],
    file: &File,
    query: &str,
) -> Result<(), AllocError> {
    let objects = objects_in(alloc, file.1.as_slice())?;
    let uri = uri_of(alloc, folder, file.0.as_bytes())?;
    let mut places = Counter::of(unit, file.1.as_slice());
    for object in &objects {
        push_symbol(alloc, found, &mut places, uri.as_str(), object, query)?;
    }
    Ok(())
}

fn push_symbol(
    alloc: Global,
    found: &mut Vec<Value>,
    places: &mut Counter<'_>,
    uri: &str,
    object: &Outlined,
    query: &str,
) -> Result<(), AllocError> {
    let name = name_of(alloc, object.class, object.number)?;
    if !name.as_str().contains(query) {
        return Ok(());
    }
    let range = places.range_at(object.spot.at.start, object.spot.at.length);
    let location = location_value(alloc, uri, range)?;
    let kind = kind_of(object.class);
    push(
        found,
        json!(in alloc; {"kind": kind, "location": location, "name": name.as_str()})?,
    )
}
