//! Writers of values that are one element: truth values, numbers, octets, names, references.
ghost use Rattle.std.specs.Prelude.{◌≡◌, ◌<◌, ◌^◌, ◌++◌, true, OnOk};
ghost use Rattle.std.specs.List.{list_all};
ghost use Rattle.mh_base.specs.Path.{is_name_byte};
ghost use Rattle.mh_group.specs.Holdable.{is_integer, is_octets};
ghost use Rattle.mh_codec.specs.Spelling.{integer, natural, octet_string, named, content_tag};

use crate::CodecError;
use crate::tag_table::TagTable;
use crate::writable::Writable;
use mh_base::{Colour, Octets};
use mh_der::{
    OCTET_STRING, SEQUENCE, Tag, TagClass, begin_element, end_element, write_bool, write_element,
    write_int,
};
use mh_group::{Content, EventData, Ref, WrittenName};
use std::alloc::AllocError;

/// Writes a name and a number as one sequence.
#[tactic(auto, unfolding(crate::specs::Spelling::named))]
pub(crate) fn write_named(
    out: &mut Vec<u8>,
    name: &WrittenName,
    number: u32,
) -> Result<(), AllocError>
    requires small { number < 2 ^ 31 }
    ensures written { OnOk result (out.new.items ≡ out.old.items ++ named name.now number) }
    ensures fits { OnOk result (list_all is_name_byte name.now ≡ true) }
{
    let start = begin_element(out, SEQUENCE)?;
    write_name(out, name)?;
    write_natural(out, number)?;
    end_element(out, start)?;
    Ok(())
}

/// Writes the name of a group.
#[tactic(auto, unfolding(crate::specs::Spelling::octet_string))]
pub(crate) fn write_name(out: &mut Vec<u8>, name: &WrittenName) -> Result<(), AllocError>
    ensures written { OnOk result (out.new.items ≡ out.old.items ++ octet_string name.now) }
    ensures fits { list_all is_name_byte name.now ≡ true }
{
    write_element(out, OCTET_STRING, name.as_bytes())
}

/// Writes an octet string.
#[tactic(auto, using(mh_group::proofs::WritingLemmas::bytes_are_octets), unfolding(crate::specs::Spelling::octet_string))]
fn write_octets(out: &mut Vec<u8>, octets: &[u8]) -> Result<(), AllocError>
    ensures written { OnOk result (out.new.items ≡ out.old.items ++ octet_string octets.now) }
    ensures fits { OnOk result (is_octets octets.now ≡ true) }
{
    write_element(out, OCTET_STRING, octets)
}

/// Writes an integer from 0.
pub(crate) fn write_natural(out: &mut Vec<u8>, number: u32) -> Result<(), AllocError>
    requires small { number < 2 ^ 31 }
    ensures { OnOk result (out.new.items ≡ out.old.items ++ natural number) }
{
    write_integer(out, number as i32)
}

#[tactic(auto, unfolding(crate::specs::Spelling::integer))]
pub(crate) fn write_integer(out: &mut Vec<u8>, value: i32) -> Result<(), AllocError>
    ensures written { OnOk result (out.new.items ≡ out.old.items ++ integer value) }
    ensures fits { is_integer value ≡ true }
{
    write_int(out, value)
}

/// The tag of the name of a content file.
fn content_tag(tags: &TagTable) -> Tag
    ensures { result ≡ content_tag tags.now }
{
    Tag {
        class: TagClass::Context,
        is_constructed: false,
        number: tags.content_name_tag(),
    }
}

impl Writable for bool {
    ghost use Rattle.mh_codec.specs.Spelling.{boolean as spelling_lem};
    ghost use Rattle.mh_group.specs.Holdable.{is_plain as is_good_lem};

    ghost spelling = { λ tags. spelling_lem };

    ghost is_good = { is_good_lem };

    #[tactic(auto, unfolding(crate::specs::Spelling::boolean))]
    fn write(&self, _tags: &TagTable, out: &mut Vec<u8>) -> Result<(), CodecError> {
        write_bool(out, *self)?;
        Ok(())
    }
}

impl Writable for i32 {
    ghost use Rattle.mh_codec.specs.Spelling.{integer as spelling_lem};
    ghost use Rattle.mh_group.specs.Holdable.{is_integer as is_good_lem};

    ghost spelling = { λ tags. spelling_lem };

    ghost is_good = { is_good_lem };

    fn write(&self, _tags: &TagTable, out: &mut Vec<u8>) -> Result<(), CodecError> {
        write_integer(out, *self)?;
        Ok(())
    }
}

impl Writable for Octets {
    ghost use Rattle.mh_codec.specs.Spelling.{octet_string as spelling_lem};
    ghost use Rattle.mh_group.specs.Holdable.{is_octets as is_good_lem};

    ghost spelling = { λ tags. spelling_lem };

    ghost is_good = { is_good_lem };

    fn write(&self, _tags: &TagTable, out: &mut Vec<u8>) -> Result<(), CodecError> {
        write_octets(out, self.as_slice())?;
        Ok(())
    }
}

impl Writable for Colour {
    ghost use Rattle.mh_codec.specs.Spelling.{colour_value as spelling_lem};
    ghost use Rattle.mh_group.specs.Holdable.{is_octets as is_octets_lem, colour_octets};

    ghost spelling = { λ tags. spelling_lem };

    ghost is_good = { λ c. is_octets_lem (colour_octets c) };

    fn write(&self, _tags: &TagTable, out: &mut Vec<u8>) -> Result<(), CodecError> {
        let octets = [self.red, self.green, self.blue, self.transparency];
        write_octets(out, &octets)?;
        Ok(())
    }
}

impl Writable for Ref {
    ghost use Rattle.mh_codec.specs.Spelling.{reference as spelling_lem};
    ghost use Rattle.mh_group.specs.Holdable.{is_reference as is_good_lem};

    ghost spelling = { λ tags. spelling_lem };

    ghost is_good = { is_good_lem };

    fn write(&self, _tags: &TagTable, out: &mut Vec<u8>) -> Result<(), CodecError> {
        match self {
            Ref::Here(number) => write_natural(out, number.get())?,
            Ref::In(name, number) => write_named(out, name, number.get())?,
        }
        Ok(())
    }
}

/// The name of a content file.
impl Writable for WrittenName {
    ghost use Rattle.mh_codec.specs.Spelling.{content_name as spelling_lem};
    ghost use Rattle.mh_group.specs.Holdable.{is_name as is_good_lem};

    ghost spelling = { spelling_lem };

    ghost is_good = { is_good_lem };

    #[tactic(auto, unfolding(crate::specs::Spelling::content_name))]
    fn write(&self, tags: &TagTable, out: &mut Vec<u8>) -> Result<(), CodecError> {
        write_element(out, content_tag(tags), self.as_bytes())?;
        Ok(())
    }
}

impl Writable for Content {
    ghost use Rattle.mh_codec.specs.Spelling.{content_value as spelling_lem};
    ghost use Rattle.mh_group.specs.Holdable.{is_content as is_good_lem};

    ghost spelling = { spelling_lem };

    ghost is_good = { is_good_lem };

    fn write(&self, tags: &TagTable, out: &mut Vec<u8>) -> Result<(), CodecError> {
        match self {
            Content::Included(octets) => octets.write(tags, out),
            Content::Referenced(name) => name.write(tags, out),
        }
    }
}

impl Writable for EventData {
    ghost use Rattle.mh_codec.specs.Spelling.{data_value as spelling_lem};
    ghost use Rattle.mh_group.specs.Holdable.{is_data as is_good_lem};

    ghost spelling = { λ tags. spelling_lem };

    ghost is_good = { is_good_lem };

    fn write(&self, tags: &TagTable, out: &mut Vec<u8>) -> Result<(), CodecError> {
        match self {
            EventData::Bool(truth) => truth.write(tags, out),
            EventData::Int(value) => value.write(tags, out),
        }
    }
}
