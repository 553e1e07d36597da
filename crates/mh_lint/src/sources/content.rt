//! What is noted of content that is shown: that a file has nearly its name, and that its lines are glued together.
//!
//! Promise: each function answers what the definition of the same matter in `specs/Sources` says.
ghost use Rattle.std.specs.Prelude.{◌≡◌, ◌<◌, length, IfSome};
ghost use Rattle.std.specs.List.{list_any, position};
ghost use Rattle.std.specs.Option.{option_copied};
ghost use Rattle.mh_lint.specs.Sources as spec;

use crate::place::file_of;
use crate::sources::{begins_with, cut_behind, has_file};
use mh_base::{GroupName, Value};
use mh_group::Attribute;
use mh_model::Fixed;
use mh_model::held::as_value;

fn begins_dot(bytes: &[u8]) -> bool
    ensures { result ≡ spec.begins_dot bytes.now }
{
    match bytes {
        [first, ..] => *first == b'.',
        [] => false,
    }
}

/// Whether the long name is the short one with an ending behind a dot.
fn has_ending(short: &[u8], long: &[u8]) -> bool
    ensures { result ≡ spec.has_ending short.now long.now }
{
    begins_with(short, long) && begins_dot(cut_behind(short, long))
}

fn is_named_alike(name: &[u8], other: &[u8]) -> bool
    ensures { result ≡ spec.is_named_alike name.now other.now }
{
    other.eq_ignore_ascii_case(name) || has_ending(name, other) || has_ending(other, name)
}

fn has_alike(files: &[(GroupName, Vec<u8>)], name: &GroupName) -> bool
    ensures { result ≡ spec.has_alike files.now name.now }
{
    files
        .iter()
        .any(|file| is_named_alike(name.as_bytes(), file.0.as_bytes()))
}

fn is_nearly_there(files: &[(GroupName, Vec<u8>)], value: Option<&Value>) -> bool
    ensures { result ≡ spec.is_nearly_there files.now (option_copied value.entry) }
{
    match value {
        Some(Value::Content(name)) => !has_file(files, name) && has_alike(files, name),
        _ => false,
    }
}

/// Whether the object shows content that is not there, while a file has nearly its name.
pub(crate) fn is_mistaken(files: &[(GroupName, Vec<u8>)], part: &Fixed) -> bool
    ensures { result ≡ spec.is_mistaken files.now part.now }
{
    part.class.has_content()
        && is_nearly_there(files, as_value(part.properties.get(Attribute::OrigContent)))
}

fn is_return(byte: u8) -> bool
    ensures { result ≡ spec.is_return byte }
{
    byte == b'\r'
}

/// Where the first line feed stands.
fn first_feed(bytes: &[u8]) -> Option<usize>
    ensures is { result ≡ position spec.is_feed bytes.now }
    ensures within { IfSome result (λ n. n < length bytes.now) }
{
    bytes.iter().position(|byte| *byte == b'\n')
}

/// Whether something stands behind the first line feed.
fn goes_on(bytes: &[u8]) -> bool
    ensures { result ≡ spec.is_within (length bytes.now) (position spec.is_feed bytes.now) }
{
    match first_feed(bytes) {
        Some(place) => place + 1 < bytes.len(),
        None => false,
    }
}

fn has_return(bytes: &[u8]) -> bool
    ensures { result ≡ list_any spec.is_return bytes.now }
{
    bytes.iter().any(|byte| is_return(*byte))
}

/// Whether its lines end in line feeds, which draw nothing.
fn glues(bytes: &[u8]) -> bool
    ensures { result ≡ spec.glues bytes.now }
{
    goes_on(bytes) && !has_return(bytes)
}

fn glues_file(file: Option<&(GroupName, Vec<u8>)>) -> bool
    ensures { result ≡ spec.glues_file (option_copied file.entry) }
{
    match file {
        None => false,
        Some(file) => glues(file.1.as_slice()),
    }
}

fn glues_value(files: &[(GroupName, Vec<u8>)], value: Option<&Value>) -> bool
    ensures { result ≡ spec.glues_value files.now (option_copied value.entry) }
{
    match value {
        Some(Value::Octets(octets)) => glues(octets.as_slice()),
        Some(Value::Content(name)) => glues_file(file_of(files, name)),
        _ => false,
    }
}

/// Whether the object shows content whose lines are glued together.
pub(crate) fn is_glued(files: &[(GroupName, Vec<u8>)], part: &Fixed) -> bool
    ensures { result ≡ spec.is_glued files.now part.now }
{
    part.class.has_content()
        && glues_value(files, as_value(part.properties.get(Attribute::OrigContent)))
}
