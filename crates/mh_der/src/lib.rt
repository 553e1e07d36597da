//! The distinguished encoding rules (ITU-T X.690): elements read from a source and written to one.
//!
//! Promise: an element is read exactly where its one spelling stands, with its contents as a slice of
//! the source, and refused with its first byte's offset where none stands. What tags mean is left to
//! `mh_codec`.
#![tactic(auto)]

pub mod der_error;
pub mod element;
mod header;
pub mod reader;
pub mod tag;
pub mod value;
pub mod writing;

pub use der_error::{DerError, Why};
pub use element::Element;
pub use header::begins_with;
pub use reader::Reader;
pub use tag::{BOOLEAN, INTEGER, OCTET_STRING, SEQUENCE, Tag, TagClass};
pub use value::{bool_of, int_of};
pub use writing::{begin_element, end_element, write_bool, write_element, write_int};
