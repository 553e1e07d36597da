//! A group that goes through both notations and the conversion, with what goes wrong on the way.
use crate::playing::converted;
use mh_cases::{are, profile};
use mh_codec::{decode_group, encode_group};
use mh_report::Notation;
use mh_text::{print_group, read_group};
use std::alloc::Global;

/// The text of the group that the octets spell.
fn text_of(alloc: Global, octets: &[u8]) -> Option<Vec<u8>> {
    let group = decode_group(alloc, &profile(alloc)?, octets).ok()?;
    print_group(alloc, &group).ok()
}

/// The octets of the group that the text writes.
fn encoded(alloc: Global, text: &[u8]) -> Option<Vec<u8>> {
    let group = read_group(alloc, text).ok()?;
    encode_group(alloc, &profile(alloc)?, &group).ok()
}

/// What a good conversion gives.
fn good(alloc: Global, bytes: &[u8], to: Notation) -> Option<Vec<u8>> {
    let mut written = converted(alloc, b"a", bytes, to)?;
    let length = written
        .as_slice()
        .strip_suffix(b"exit 0\n".as_slice())?
        .len();
    written.truncate(length);
    Some(written)
}

/// What goes wrong with the text and the octets, or nothing.
pub fn difference(alloc: Global, text: &[u8], octets: &[u8]) -> &'static str {
    if !are(text_of(alloc, octets), text) {
        "octets, printed"
    } else if !are(encoded(alloc, text), octets) {
        "text, encoded"
    } else if !are(good(alloc, octets, Notation::Textual), text) {
        "octets to text"
    } else if !are(good(alloc, text, Notation::Binary), octets) {
        "text to octets"
    } else if !are(good(alloc, text, Notation::Textual), text) {
        "text to text"
    } else if !are(good(alloc, octets, Notation::Binary), octets) {
        "octets to octets"
    } else {
        ""
    }
}
