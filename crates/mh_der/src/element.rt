//! `Element`: what a reader found. What its contents mean is left to who asked for it.
ghost use Rattle.std.specs.Prelude.{◌≡◌};

use crate::{Reader, Tag};
use std::marker::Model;

/// An element of a source: its tag, the offset of its first byte, and its contents.
#[derive(Drop)]
pub struct Element<'a> {
    tag: Tag,
    offset: usize,
    contents: Reader<'a>,
}

impl<'a> Model for Element<'a> {
    ghost use Rattle.mh_der.specs.Rest.{Element};

    ghost Value = { Element };

    ghost view = { λ e. record { tag = e.tag; offset = e.offset; contents = e.contents } };
}

impl<'a> Element<'a> {
    pub(crate) fn new(tag: Tag, offset: usize, contents: Reader<'a>) -> Element<'a>
        ensures { result ≡ record { tag = tag; offset = offset; contents = contents.entry } }
    {
        Element {
            tag,
            offset,
            contents,
        }
    }

    pub fn tag(&self) -> Tag
        ensures { result ≡ self.now.tag }
    {
        self.tag
    }

    /// How many bytes of the source stand before it.
    pub fn offset(&self) -> usize
        ensures { result ≡ self.now.offset }
    {
        self.offset
    }

    /// A reader of its contents. Offsets are those of the source.
    pub fn contents(&self) -> Reader<'a>
        ensures { result ≡ self.now.contents }
    {
        self.contents.here()
    }
}
