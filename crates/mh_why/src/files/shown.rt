//! The files of a service, as places in them are shown: a group in the binary notation as it is
//! printed.
ghost use Rattle.std.specs.Prelude.{◌≡◌, ◌++◌, Some, IfOk, OnOk};
ghost use Rattle.std.specs.Option.{option_copied};
ghost use Rattle.mh_why.specs.Places.{shown_place};
ghost use Rattle.mh_why.specs.Sources.{is_printed, text_of, printed_as, source_of, source_named, or_profile, table_by};
ghost use Rattle.mh_told.specs.Reading.{table_of};

use crate::files::named_file::NamedFile;
use crate::place::lines::Lines;
use crate::place::put_place_by;
use mh_base::GroupName;
use mh_codec::{CodecError, TagTable, decode_group};
use mh_group::Group;
use mh_text::{Mark, TextError, marks, print_group};
use mh_told::reading::is_group_file;
use mh_told::text::Text;
use mh_told::unplayable::Unplayable;
use std::alloc::{AllocError, Global};
use std::marker::Model;

/// A file with what is shown of it.
#[derive(Drop)]
pub(crate) struct Source<'a> {
    name: &'a GroupName,
    text: Vec<u8>,
    /// Where the lines of the text are.
    lines: Lines,
    marks: Vec<Mark>,
    /// Whether the file begins as a group in the textual notation.
    is_written: bool,
    /// Whether it begins as a group at all.
    is_group: bool,
    /// Whether the text is the printed form of a group in the binary notation.
    is_printed: bool,
}

impl<'a> Model for Source<'a> {
    ghost use Rattle.mh_why.specs.Lines.{IsTable};
    ghost use Rattle.mh_why.specs.Sources.{Source};

    ghost Value = { Source };

    ghost view = { λ s.
        record {
          name = s.name.now;
          text = s.text.items;
          marks = s.marks.items;
          is_written = s.is_written;
          is_group = s.is_group;
          is_printed = s.is_printed;
        } };

    ghost invariant = { λ s. IsTable s.text.items s.lines };
}

impl<'a> Source<'a> {
    pub(crate) fn of_file(
        alloc: Global,
        tags: &TagTable,
        file: &'a (GroupName, Vec<u8>),
    ) -> Result<Source<'a>, AllocError>
        ensures { IfOk result (λ source. source ≡ source_of tags.now file.now) }
    {
        let bytes = file.1.as_slice();
        let text = text_of(alloc, tags, bytes)?;
        let lines = Lines::of_text(alloc, text.as_slice())?;
        let marks = marks(alloc, text.as_slice())?;
        let is_printed = is_printed(text.as_slice(), bytes);
        Ok(Source {
            name: &file.0,
            text,
            lines,
            marks,
            is_written: mh_text::begins_group(bytes),
            is_group: is_group_file(tags, bytes),
            is_printed,
        })
    }

    pub(crate) fn name(&self) -> &'a GroupName
        ensures { result.now ≡ self.now.name }
    {
        self.name
    }

    pub(crate) fn text(&self) -> &[u8]
        ensures { result.now ≡ self.now.text }
    {
        self.text.as_slice()
    }

    /// Puts where so many bytes of the text stand behind so many others, in a file that is called so.
    pub(crate) fn put_place(
        &self,
        alloc: Global,
        text: &mut Text,
        name: &[u8],
        offset: usize,
        size: usize,
    ) -> Result<(), AllocError>
        ensures { OnOk result (text.new ≡ text.old ++ shown_place name.now self.now.text offset size) }
    {
        put_place_by(
            alloc,
            text,
            name,
            self.text.as_slice(),
            &self.lines,
            offset,
            size,
        )
    }

    pub(crate) fn marks(&self) -> &[Mark]
        ensures { result.now ≡ self.now.marks }
    {
        self.marks.as_slice()
    }

    pub(crate) fn is_written(&self) -> bool
        ensures { result ≡ self.now.is_written }
    {
        self.is_written
    }

    pub(crate) fn is_group(&self) -> bool
        ensures { result ≡ self.now.is_group }
    {
        self.is_group
    }

    pub(crate) fn is_printed(&self) -> bool
        ensures { result ≡ self.now.is_printed }
    {
        self.is_printed
    }
}

/// Whether another text is shown of a file than its bytes.
fn is_printed(text: &[u8], bytes: &[u8]) -> bool
    ensures { result ≡ is_printed text.now bytes.now }
{
    text != bytes
}

/// The table of tags by which files are shown: that of a file, if it gives one, and else the profile's.
#[tactic(auto, unfolding(mh_told::specs::Reading::table_of))]
pub(crate) fn table_by(alloc: Global, file: Option<&NamedFile<'_>>) -> Result<TagTable, AllocError>
    ensures { IfOk result (λ tags. tags ≡ table_by (option_copied file.entry)) }
{
    match file {
        Some(file) => table_in(alloc, file.bytes),
        None => TagTable::profile(alloc),
    }
}

/// The table that a file of these bytes gives, and else the profile's.
fn table_in(alloc: Global, bytes: &[u8]) -> Result<TagTable, AllocError>
    ensures { IfOk result (λ tags. tags ≡ or_profile (table_of (Some bytes.now))) }
{
    match mh_told::tags::table_of(alloc, Some(bytes)) {
        Ok(tags) => Ok(tags),
        Err(Unplayable::NoMemory) => Err(AllocError),
        Err(_) => TagTable::profile(alloc),
    }
}

/// What is shown of a file.
#[tactic(auto, unfolding(crate::specs::Sources::text_of))]
fn text_of(alloc: Global, tags: &TagTable, bytes: &[u8]) -> Result<Vec<u8>, AllocError>
    ensures { IfOk result (λ text. text.items ≡ text_of tags.now bytes.now) }
{
    if !mh_codec::begins_group(tags, bytes) {
        return Vec::from_slice(alloc, bytes);
    }
    match decode_group(alloc, tags, bytes) {
        Ok(group) => printed_as(alloc, bytes, &group),
        Err(CodecError::At { .. }) => Vec::from_slice(alloc, bytes),
        Err(CodecError::NoMemory) => Err(AllocError),
    }
}

/// The group as it is printed; or the bytes that it was read from, where that is too long.
fn printed_as(alloc: Global, bytes: &[u8], group: &Group) -> Result<Vec<u8>, AllocError>
    ensures { IfOk result (λ text. text.items ≡ printed_as bytes.now group.now) }
{
    match print_group(alloc, group) {
        Ok(text) => Ok(text),
        Err(TextError::At { .. }) => Vec::from_slice(alloc, bytes),
        Err(TextError::NoMemory) => Err(AllocError),
    }
}

/// The file of this name, if it is there.
pub(crate) fn source_named<'a, 's>(sources: &'a [Source<'s>], name: &[u8]) -> Option<&'a Source<'s>>
    ensures { option_copied result ≡ source_named sources.now name.now }
{
    sources
        .iter()
        .find(|source| source.name().as_bytes() == name)
}
