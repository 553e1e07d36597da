//! What the notations say of a file that is read.
use mh_codec::TagTable;
use mh_text::{TextError, read_group};
use std::alloc::Global;

/// The table with the tags of the profile.
pub fn profile(alloc: Global) -> Option<TagTable> {
    TagTable::profile(alloc).ok()
}

/// The number and the offset of the refusal, or 0 and 0 where the text is read.
pub fn refusal(alloc: Global, text: &[u8]) -> (u32, usize) {
    match read_group(alloc, text) {
        Ok(_) => (0, 0),
        Err(TextError::At { why, offset }) => (why.number(), offset),
        Err(TextError::NoMemory) => (1, 0),
    }
}
