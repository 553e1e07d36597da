//! Readers of elements, whatever they hold: one after the other, and the parts and numbers of those that
//! hold others.
ghost use Rattle.std.specs.Prelude.{◌≡◌};
ghost use Rattle.mh_codec.specs.Gives.{Gives};
ghost use Rattle.mh_codec.specs.Reading.{taken, ended, exhausted, sequence_at, own_at, primitive_at, only};

use crate::kind::{Kind, kind_of};
use crate::{CodecError, Why};
use mh_der::{Element, Reader};

/// The refusal of the element.
pub(crate) fn refused(element: &Element<'_>, why: Why) -> CodecError
    ensures { result ≡ CodecError.At why element.now.offset }
{
    CodecError::At {
        why,
        offset: element.offset(),
    }
}

/// The next element, and the reader behind it.
#[tactic(auto, unfolding(crate::specs::Reading::taken))]
pub(crate) fn taken<'a>(reader: Reader<'a>) -> Result<(Element<'a>, Reader<'a>), CodecError>
    ensures { Gives (λ x. x) result (taken reader.entry) }
{
    Ok(reader.taken()?)
}

/// Nothing is left, which is wanted here.
#[tactic(auto, unfolding(crate::specs::Reading::ended))]
pub(crate) fn ended(reader: Reader<'_>) -> Result<(), CodecError>
    ensures { Gives (λ x. x) result (ended reader.entry) }
{
    reader.ended()?;
    Ok(())
}

/// Nothing is left; else what is left is refused for this cause.
#[tactic(auto, unfolding(crate::specs::Reading::exhausted))]
pub(crate) fn exhausted(reader: &Reader<'_>, why: Why) -> Result<(), CodecError>
    ensures { Gives (λ x. x) result (exhausted why reader.now) }
{
    if reader.is_empty() {
        Ok(())
    } else {
        Err(CodecError::At {
            why,
            offset: reader.offset(),
        })
    }
}

/// The one element that is left.
#[tactic(auto, unfolding(crate::specs::Reading::only))]
pub(crate) fn only<'a>(reader: Reader<'a>) -> Result<Element<'a>, CodecError>
    ensures { Gives (λ x. x) result (only reader.entry) }
{
    let (element, behind) = taken(reader)?;
    ended(behind)?;
    Ok(element)
}

/// A reader of what is inside a sequence.
#[tactic(auto, unfolding(crate::specs::Reading::sequence_at))]
pub(crate) fn sequence_at<'a>(element: &Element<'a>) -> Result<Reader<'a>, CodecError>
    ensures { Gives (λ x. x) result (sequence_at element.now) }
{
    match kind_of(element.tag()) {
        Kind::Sequence => Ok(element.contents()),
        _ => Err(refused(element, Why::UnknownTag)),
    }
}

/// The number of a tag of the notation's own.
#[tactic(auto, unfolding(crate::specs::Reading::own_at))]
pub(crate) fn own_at(element: &Element<'_>) -> Result<u16, CodecError>
    ensures { Gives (λ x. x) result (own_at element.now) }
{
    match kind_of(element.tag()) {
        Kind::Own(number) => Ok(number),
        _ => Err(refused(element, Why::UnknownTag)),
    }
}

/// The number of a tag of the notation's own that is primitive.
#[tactic(auto, unfolding(crate::specs::Reading::primitive_at))]
pub(crate) fn primitive_at(element: &Element<'_>) -> Result<u16, CodecError>
    ensures { Gives (λ x. x) result (primitive_at element.now) }
{
    match kind_of(element.tag()) {
        Kind::Primitive(number) => Ok(number),
        _ => Err(refused(element, Why::UnknownTag)),
    }
}
