//! Elements around octets.
use mh_cases::repeated;
use mh_der::{SEQUENCE, Tag, TagClass, write_element};
use std::alloc::{AllocError, Global};

/// An element around another: the number of its tag, or none for a sequence, and the octets in front of
/// the other and behind it.
pub type Shell = (Option<u16>, &'static [u8], &'static [u8]);

/// A list.
pub const LIST: Shell = (None, b"", b"");

/// The attribute of a group's ingredients.
pub const ITEMS: Shell = (Some(3), b"", b"");

/// The attribute of what a group does at its start.
pub const START_UP: Shell = (Some(1), b"", b"");

pub const SCENE: Shell = (Some(1), b"\x30\x08\x04\x03~/a\x02\x01\x00", b"");

pub const APPLICATION: Shell = (Some(0), b"\x30\x08\x04\x03~/a\x02\x01\x00", b"");

/// The number 1 of an ingredient, which stands in front of its fields.
pub const NUMBER: &[u8] = b"\x02\x01\x01";

/// The elements, each around the one before, and the first around the contents.
pub fn within(alloc: Global, shells: &[Shell], contents: &[u8]) -> Result<Vec<u8>, AllocError> {
    let mut octets = Vec::from_slice(alloc, contents)?;
    for (number, front, behind) in shells {
        let inner = repeated(alloc, *front, octets.as_slice(), 1, *behind)?;
        octets = Vec::new(alloc);
        write_element(&mut octets, tag_of(*number), inner.as_slice())?;
    }
    Ok(octets)
}

fn tag_of(number: Option<u16>) -> Tag {
    match number {
        None => SEQUENCE,
        Some(number) => Tag {
            class: TagClass::Context,
            is_constructed: true,
            number,
        },
    }
}
