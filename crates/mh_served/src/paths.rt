//! Paths of files, as the protocol names them.
use mh_protocol::unescaped;
use std::alloc::{AllocError, Global};

/// What the name of a file begins with.
const SCHEME: &str = "file://";

/// The path of the file with this name; none where it names no file.
pub(crate) fn path_of_uri(alloc: Global, uri: &str) -> Result<Option<Vec<u8>>, AllocError> {
    match uri.strip_prefix(SCHEME) {
        Some(escaped) => Ok(Some(unescaped(alloc, escaped.as_bytes())?)),
        None => Ok(None),
    }
}

/// The folder of a path, without the slash behind it; none where there is none.
pub(crate) fn parent_of(path: &[u8]) -> Option<&[u8]> {
    let behind = path.iter().rev().take_while(|byte| **byte != b'/').count();
    match path.len().saturating_sub(behind).checked_sub(1) {
        Some(size) => path.get(..size),
        None => None,
    }
}
