//! `Reader`: where reading stands in a source. It gives the elements one after the other.
ghost use Rattle.std.specs.Prelude.{◌≡◌, ◌++◌, OnErr, IfOk, IfErr};
ghost use Rattle.mh_base.specs.Reading.{whole};
ghost use Rattle.mh_der.specs.Element.{element};
ghost use Rattle.mh_der.specs.Laws.{BeginWithNone};
ghost use Rattle.mh_der.specs.Reading.{Gives, next, ended, is_empty};

use crate::header::parts;
use crate::{DerError, Element, Why};
use std::marker::Model;

/// What is left of a source, or of an element's contents. A contract sees the bytes that are left,
/// and how many of the source stand before them.
#[derive(Drop)]
pub struct Reader<'a> {
    rest: &'a [u8],
    offset: usize,
}

impl<'a> Model for Reader<'a> {
    ghost use Rattle.std.specs.Prelude.{◌+◌, ◌<◌, ◌^◌, length};
    ghost use Rattle.mh_base.specs.Reading.{Rest};

    ghost Value = { Rest };

    ghost view = { λ r. record { offset = r.offset; bytes = r.rest.now } };

    ghost invariant = { λ r. r.offset + length r.rest.now < 2 ^ 64 };
}

impl<'a> Reader<'a> {
    pub fn new(source: &'a [u8]) -> Reader<'a>
        ensures { result ≡ whole source.now }
    {
        Reader {
            rest: source,
            offset: 0,
        }
    }

    /// How many bytes of the source stand before what is left.
    pub fn offset(&self) -> usize
        ensures { result ≡ self.now.offset }
    {
        self.offset
    }

    /// The bytes that are left.
    pub fn bytes(&self) -> &'a [u8]
        ensures { result.now ≡ self.now.bytes }
    {
        self.rest
    }

    /// Another reader that stands here.
    pub fn here(&self) -> Reader<'a>
        ensures { result ≡ self.now }
    {
        Reader {
            rest: self.rest,
            offset: self.offset,
        }
    }

    /// The next element and the reader behind it.
    #[tactic(auto, unfolding(crate::specs::Reading::next))]
    pub fn taken(self) -> Result<(Element<'a>, Reader<'a>), DerError>
        ensures exact { Gives (λ x. x) result (next self.entry) }
        ensures found { IfOk result (λ x. self.entry.bytes ≡ element x.0.tag x.0.contents.bytes ++ x.1.bytes) }
        ensures only { IfErr result (λ error. BeginWithNone self.entry.bytes) }
    {
        let (tag, contents, behind) = match parts(self.rest) {
            Ok(found) => found,
            Err(why) => return Err(self.refused(why)),
        };
        let end = self.offset + (self.rest.len() - behind.len());
        let contents = Reader {
            offset: end - contents.len(),
            rest: contents,
        };
        let element = Element::new(tag, self.offset, contents);
        let behind = Reader {
            rest: behind,
            offset: end,
        };
        Ok((element, behind))
    }

    fn refused(&self, why: Why) -> DerError
        ensures { result ≡ record { why = why; offset = self.now.offset } }
    {
        DerError {
            why,
            offset: self.offset,
        }
    }

    /// Takes the next element, with its contents as a slice of the source (ITU-T X.690, 8.1). After an
    /// error the reader stands where it stood.
    pub fn next(&mut self) -> Result<Element<'a>, DerError>
        ensures exact { Gives (λ element. (element, self.new)) result (next self.old) }
        ensures found { IfOk result (λ found. self.old.bytes ≡ element found.tag found.contents.bytes ++ self.new.bytes) }
        ensures only { IfErr result (λ error. BeginWithNone self.old.bytes) }
        ensures unchanged { OnErr result (self.new ≡ self.old) }
    {
        let (element, behind) = self.here().taken()?;
        *self = behind;
        Ok(element)
    }

    /// Nothing is left, which is wanted here.
    #[tactic(auto, unfolding(crate::specs::Reading::ended))]
    pub fn ended(&self) -> Result<(), DerError>
        ensures { Gives (λ x. x) result (ended self.now) }
    {
        if self.is_empty() {
            Ok(())
        } else {
            Err(self.refused(Why::Trailing))
        }
    }

    pub fn is_empty(&self) -> bool
        ensures { result ≡ is_empty self.now.bytes }
    {
        self.rest.is_empty()
    }
}
