//! The types of the values that are one element, as what can be read.
use crate::CodecError;
use crate::readable::Readable;
use crate::tag_table::TagTable;
use crate::value::{
    content_at, content_name_at, data_at, integer_at, octets_at, reference_at, truth_at,
};
use mh_base::Octets;
use mh_der::Element;
use mh_group::{Content, EventData, Ref, WrittenName};
use std::alloc::Global;

impl Readable for bool {
    ghost use Rattle.mh_codec.specs.Reading.{truth_at as reading_lem};

    type Value = bool;

    ghost reading = { λ tags. reading_lem };

    fn read_at(
        _alloc: Global,
        _tags: &TagTable,
        element: &Element<'_>,
    ) -> Result<bool, CodecError> {
        truth_at(element)
    }
}

impl Readable for i32 {
    ghost use Rattle.mh_codec.specs.Reading.{integer_at as reading_lem};

    type Value = i32;

    ghost reading = { λ tags. reading_lem };

    fn read_at(_alloc: Global, _tags: &TagTable, element: &Element<'_>) -> Result<i32, CodecError> {
        integer_at(element)
    }
}

impl Readable for Octets {
    ghost use Rattle.mh_codec.specs.Reading.{octets_at as reading_lem};

    type Value = Octets;

    ghost reading = { λ tags. reading_lem };

    fn read_at(
        alloc: Global,
        _tags: &TagTable,
        element: &Element<'_>,
    ) -> Result<Octets, CodecError> {
        Ok(Octets::from_slice(alloc, octets_at(element)?)?)
    }
}

impl Readable for Ref {
    ghost use Rattle.mh_codec.specs.Reading.{reference_at as reading_lem};

    type Value = Ref;

    ghost reading = { λ tags. reading_lem };

    fn read_at(alloc: Global, _tags: &TagTable, element: &Element<'_>) -> Result<Ref, CodecError> {
        reference_at(alloc, element)
    }
}

impl Readable for WrittenName {
    ghost use Rattle.mh_codec.specs.Reading.{content_name_at as reading_lem};

    type Value = WrittenName;

    ghost reading = { reading_lem };

    fn read_at(
        alloc: Global,
        tags: &TagTable,
        element: &Element<'_>,
    ) -> Result<WrittenName, CodecError> {
        content_name_at(alloc, tags, element)
    }
}

impl Readable for Content {
    ghost use Rattle.mh_codec.specs.Reading.{content_at as reading_lem};

    type Value = Content;

    ghost reading = { reading_lem };

    fn read_at(
        alloc: Global,
        tags: &TagTable,
        element: &Element<'_>,
    ) -> Result<Content, CodecError> {
        content_at(alloc, tags, element)
    }
}

impl Readable for EventData {
    ghost use Rattle.mh_codec.specs.Reading.{data_at as reading_lem};

    type Value = EventData;

    ghost reading = { λ tags. reading_lem };

    fn read_at(
        _alloc: Global,
        _tags: &TagTable,
        element: &Element<'_>,
    ) -> Result<EventData, CodecError> {
        data_at(element)
    }
}
