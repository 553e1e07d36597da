//! What a token means, in a few lines.
use crate::actions::action_rule;
use crate::attributes::attribute_rule;
use crate::classes::class_rule;
use crate::colours::octets_of;
use crate::events::event_rule;
use crate::locations::range_at;
use crate::objects::{File, file_named, spots_in};
use crate::symbols::{brackets_in, whole_of};
use crate::texts::{put_call, put_number, put_object, shape_name};
use mh_base::ObjRef;
use mh_edit::{Extent, Role, Spot, definition_in, object_of, spot_over, text_of, uses_in};
use mh_group::{ActionName, Attribute, Class, event_of_word};
use mh_protocol::{Unit, range_value};
use serde_json::{Value, json};
use std::alloc::{AllocError, Global};

/// The most bytes of an object that are shown.
const MOST_SHOWN: usize = 800;

/// What stands at a place of a file; null where nothing is said of it.
pub fn hover_at(
    alloc: Global,
    unit: Unit,
    files: &[File],
    file: &File,
    offset: usize,
) -> Result<Value, AllocError> {
    let spots = spots_in(alloc, file.1.as_slice())?;
    let spot = spot_over(spots.as_slice(), offset);
    drop(spots);
    match spot {
        Some(spot) => hover_of(alloc, unit, files, file, &spot),
        None => Ok(Value::Null),
    }
}

fn hover_of(
    alloc: Global,
    unit: Unit,
    files: &[File],
    file: &File,
    spot: &Spot,
) -> Result<Value, AllocError> {
    let mut text = Vec::new(alloc);
    put_meaning(alloc, &mut text, files, file, spot)?;
    if text.is_empty() {
        return Ok(Value::Null);
    }
    let range = range_at(unit, file.1.as_slice(), spot.at);
    let words = String::from_utf8_lossy(alloc, text.as_slice())?;
    let contents = json!(in alloc; {"kind": "markdown", "value": words.as_str()})?;
    let range = range_value(alloc, range)?;
    json!(in alloc; {"contents": contents, "range": range})
}

fn put_meaning(
    alloc: Global,
    text: &mut Vec<u8>,
    files: &[File],
    file: &File,
    spot: &Spot,
) -> Result<(), AllocError> {
    let bytes = file.1.as_slice();
    match spot.role {
        Role::Class(class) => put_class(text, class),
        Role::Attribute(attribute) => put_attribute(text, spot.class, attribute),
        Role::Action(action) => put_action(text, action),
        Role::Other | Role::Content(_) => put_value(alloc, text, text_of(bytes, spot.at)),
        _ => match object_of(alloc, &file.0, bytes, spot.role)? {
            Some(object) => {
                let put = put_named(alloc, text, files, &object);
                drop(object);
                put
            }
            None => Ok(()),
        },
    }
}

fn put_class(text: &mut Vec<u8>, class: Class) -> Result<(), AllocError> {
    put_title(text, class.word())?;
    text.extend_from_slice(class_rule(class))
}

fn put_title(text: &mut Vec<u8>, word: &[u8]) -> Result<(), AllocError> {
    text.extend_from_slice(b"**")?;
    text.extend_from_slice(word)?;
    text.extend_from_slice(b"**: ")
}

fn put_attribute(
    text: &mut Vec<u8>,
    class: Option<Class>,
    attribute: Attribute,
) -> Result<(), AllocError> {
    put_title(text, attribute.word())?;
    text.extend_from_slice(attribute_rule(attribute))?;
    match class {
        Some(class) => {
            text.extend_from_slice(b"\n\nIts value is ")?;
            text.extend_from_slice(shape_name(class.shape(attribute)))
        }
        None => Ok(()),
    }
}

fn put_action(text: &mut Vec<u8>, action: ActionName) -> Result<(), AllocError> {
    put_title(text, action.word())?;
    text.extend_from_slice(action_rule(action))?;
    text.extend_from_slice(b"\n\n    ")?;
    put_call(text, action)
}

/// Puts what a word or octets mean: a type of events, or a colour.
fn put_value(alloc: Global, text: &mut Vec<u8>, token: &[u8]) -> Result<(), AllocError> {
    if let Some(event) = event_of_word(token) {
        put_title(text, token)?;
        return text.extend_from_slice(event_rule(event));
    }
    match octets_of(token) {
        Some(octets) => put_colour(alloc, text, octets),
        None => Ok(()),
    }
}

fn put_colour(alloc: Global, text: &mut Vec<u8>, octets: [u8; 4]) -> Result<(), AllocError> {
    let [red, green, blue, transparency] = octets;
    text.extend_from_slice(b"red ")?;
    put_number(alloc, text, u64::from(red))?;
    text.extend_from_slice(b", green ")?;
    put_number(alloc, text, u64::from(green))?;
    text.extend_from_slice(b", blue ")?;
    put_number(alloc, text, u64::from(blue))?;
    text.extend_from_slice(if transparency == 255 {
        b", transparent"
    } else {
        b", opaque"
    })
}

/// Puts what an object is: where it is written, how, and who names it.
fn put_named(
    alloc: Global,
    text: &mut Vec<u8>,
    files: &[File],
    object: &ObjRef,
) -> Result<(), AllocError> {
    let Some(file) = file_named(files, object.group.as_bytes()) else {
        text.extend_from_slice(b"no file of this service has the group ")?;
        return text.extend_from_slice(object.group.as_bytes());
    };
    let spots = spots_in(alloc, file.1.as_slice())?;
    let spot = definition_in(spots.as_slice(), object.number);
    drop(spots);
    match spot {
        Some(spot) => {
            put_definition(alloc, text, file, object, &spot)?;
            put_uses(alloc, text, files, object)
        }
        None => put_absent(alloc, text, object),
    }
}

fn put_absent(alloc: Global, text: &mut Vec<u8>, object: &ObjRef) -> Result<(), AllocError> {
    text.extend_from_slice(object.group.as_bytes())?;
    text.extend_from_slice(b" has no object ")?;
    put_number(alloc, text, u64::from(object.number))
}

fn put_definition(
    alloc: Global,
    text: &mut Vec<u8>,
    file: &File,
    object: &ObjRef,
    spot: &Spot,
) -> Result<(), AllocError> {
    let bytes = file.1.as_slice();
    text.extend_from_slice(b"**")?;
    put_object(
        alloc,
        text,
        spot.class.unwrap_or(Class::Scene),
        object.number,
    )?;
    text.extend_from_slice(b"** of ")?;
    text.extend_from_slice(object.group.as_bytes())?;
    if object.number == 0 {
        return Ok(());
    }
    let pairs = brackets_in(alloc, bytes)?;
    let whole = whole_of(bytes, pairs.as_slice(), spot.at);
    drop(pairs);
    put_source(text, bytes, whole)
}

fn put_source(text: &mut Vec<u8>, bytes: &[u8], whole: Extent) -> Result<(), AllocError> {
    let shown = Extent {
        start: whole.start,
        length: whole.length.min(MOST_SHOWN),
    };
    text.extend_from_slice(b"\n\n```\n")?;
    text.extend_from_slice(text_of(bytes, shown))?;
    text.extend_from_slice(b"\n```")
}

/// Puts in which files the object is named, and how often in each.
fn put_uses(
    alloc: Global,
    text: &mut Vec<u8>,
    files: &[File],
    object: &ObjRef,
) -> Result<(), AllocError> {
    let mut front = "\n\nIts number stands in ";
    for file in files {
        let count = count_of(alloc, file, object)?;
        if count != 0 {
            text.extend_from_slice(front.as_bytes())?;
            text.extend_from_slice(file.0.as_bytes())?;
            text.extend_from_slice(b" (")?;
            put_number(alloc, text, count as u64)?;
            text.push(b')')?;
            front = ", ";
        }
    }
    Ok(())
}

/// How many tokens of a file are the number of the object.
fn count_of(alloc: Global, file: &File, object: &ObjRef) -> Result<usize, AllocError> {
    let spots = spots_in(alloc, file.1.as_slice())?;
    let found = uses_in(alloc, &file.0, file.1.as_slice(), spots.as_slice(), object)?;
    Ok(found.len())
}
