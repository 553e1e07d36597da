//! The forms of the values that fit a few tokens, and the readers of references and contents.
ghost use Rattle.mh_text.specs.Reading.{reference, truth, integer, octets, event_data, content_name, content};

use crate::form::Form;
use crate::place::{Piece, Place};
use crate::sign::Sign;
use crate::value::{data_of, integer_of, name_of, named_reference, number_of, octets_of, truth_of};
use crate::{TextError, Why};
use mh_base::Octets;
use mh_group::{Content, EventData, Ref, WrittenName};
use std::alloc::Global;

/// A truth value.
pub(crate) struct Truth;

impl Form for Truth {
    type Value = bool;

    ghost reading = { truth };

    fn read(_alloc: Global, piece: &Piece<'_>, place: &mut Place<'_>) -> Result<bool, TextError> {
        Ok(truth_of(piece)?)
    }
}

/// An integer.
pub(crate) struct Integer;

impl Form for Integer {
    type Value = i32;

    ghost reading = { integer };

    fn read(_alloc: Global, piece: &Piece<'_>, place: &mut Place<'_>) -> Result<i32, TextError> {
        Ok(integer_of(piece)?)
    }
}

/// Octets in a string or a quoted string.
pub(crate) struct OctetText;

impl Form for OctetText {
    type Value = Octets;

    ghost reading = { octets };

    fn read(alloc: Global, piece: &Piece<'_>, place: &mut Place<'_>) -> Result<Octets, TextError> {
        Ok(octets_of(alloc, piece)?)
    }
}

/// The data of an event.
pub(crate) struct Data;

impl Form for Data {
    type Value = EventData;

    ghost reading = { event_data };

    fn read(
        _alloc: Global,
        piece: &Piece<'_>,
        place: &mut Place<'_>,
    ) -> Result<EventData, TextError> {
        Ok(data_of(piece)?)
    }
}

/// A reference.
pub(crate) struct AnyReference;

impl Form for AnyReference {
    type Value = Ref;

    ghost reading = { reference };

    #[tactic(auto, unfolding(crate::specs::Reading::reference))]
    fn read(alloc: Global, piece: &Piece<'_>, place: &mut Place<'_>) -> Result<Ref, TextError> {
        match piece.sign() {
            Sign::Integer(_) => {
                let number = number_of(piece)?;
                Ok(Ref::Here(number))
            }
            Sign::OpenParenthesis => named_reference(alloc, place),
            _ => Err(piece.refused(Why::Syntax)),
        }
    }
}

/// The name of a content file, behind its keyword.
pub(crate) struct ContentName;

impl Form for ContentName {
    type Value = WrittenName;

    ghost reading = { content_name };

    #[tactic(auto, unfolding(crate::specs::Reading::content_name))]
    fn read(
        alloc: Global,
        piece: &Piece<'_>,
        place: &mut Place<'_>,
    ) -> Result<WrittenName, TextError> {
        if !piece.sign().is_content_ref() {
            return Err(piece.refused(Why::Syntax));
        }
        place.opened()?;
        let piece = place.next()?;
        let name = name_of(alloc, &piece)?;
        place.closed()?;
        Ok(name)
    }
}

/// Content: octets, or the name of a content file.
pub(crate) struct AnyContent;

impl Form for AnyContent {
    type Value = Content;

    ghost reading = { content };

    #[tactic(auto, unfolding(crate::specs::Reading::content))]
    fn read(alloc: Global, piece: &Piece<'_>, place: &mut Place<'_>) -> Result<Content, TextError> {
        if piece.sign().is_content_ref() {
            return ContentName::read(alloc, piece, place).map(Content::Referenced);
        }
        let octets = octets_of(alloc, piece)?;
        Ok(Content::Included(octets))
    }
}
