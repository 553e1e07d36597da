//! Where in a text a request asks.
use crate::paths::path_of_uri;
use mh_protocol::{Unit, offset_at, place_at, text_at};
use serde_json::Value;
use std::alloc::{AllocError, Global};

/// The path of the file that a message names.
pub(crate) fn path_in(
    alloc: Global,
    message: &Value,
    at: &str,
) -> Result<Option<Vec<u8>>, AllocError> {
    match text_at(message, at) {
        Some(uri) => path_of_uri(alloc, uri),
        None => Ok(None),
    }
}

/// How many bytes of the text stand in front of the place that a message tells.
pub(crate) fn offset_in(message: &Value, unit: Unit, bytes: &[u8]) -> Option<usize> {
    match place_at(message, "/params/position") {
        Some(at) => Some(offset_at(unit, bytes, at)),
        None => None,
    }
}
