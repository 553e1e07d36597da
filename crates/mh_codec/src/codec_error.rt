//! Why octets are not read or a group is not written, and where.
ghost use Rattle.std.specs.Prelude.{◌≡◌};
ghost use Rattle.mh_codec.specs.Numbers.{number_of};

use mh_der::DerError;
use std::alloc::AllocError;
use std::fmt;
use thiserror::Error;

/// What is wrong with an element, or with what it stands for.
#[derive(Clone, Copy, Debug, PartialEq, Eq)]
pub enum Why {
    /// The element itself.
    Der(mh_der::Why),
    /// Its tag: another element is wanted here.
    UnknownTag,
    /// It lacks a field with which its class has to be written.
    MissingField,
    /// The field comes twice or behind one of a larger number.
    WrongOrder,
    /// More than a written list or a file may hold.
    Limit,
    /// Its value is one that may not stand here.
    BadValue,
}

impl Why {
    /// The number that stands for it in the output.
    pub fn number(self) -> u32
        ensures { result ≡ number_of self }
    {
        match self {
            Why::Der(why) => why.number(),
            Why::UnknownTag => 10,
            Why::MissingField => 11,
            Why::WrongOrder => 12,
            Why::Limit => 13,
            Why::BadValue => 14,
        }
    }
}

impl fmt::Display for Why {
    fn fmt<W: fmt::Write>(&self, f: &mut fmt::Formatter<W>) -> fmt::Result {
        let words = match self {
            Why::Der(why) => return write!(f, "{why}"),
            Why::UnknownTag => "10: another element is wanted here",
            Why::MissingField => "11: a field is missing",
            Why::WrongOrder => "12: the field comes too late",
            Why::Limit => "13: a limit is passed",
            Why::BadValue => "14: the value may not stand here",
        };
        write!(f, "{words}")
    }
}

/// Why octets could not be read or a group could not be written.
#[derive(Clone, Copy, Debug, PartialEq, Eq, Error)]
pub enum CodecError {
    /// The element whose first byte stands at this offset is wrong.
    #[error("{why} (at {offset})")]
    At { why: Why, offset: usize },
    #[error("memory was refused")]
    NoMemory,
}

impl From<AllocError> for CodecError {
    ghost use Rattle.mh_codec.specs.declared.codec_error.CodecError.TheVariants.{NoMemory};

    ghost from_gives = { λ _ e. e ≡ NoMemory };

    fn from(_refused: AllocError) -> CodecError {
        CodecError::NoMemory
    }
}

impl From<DerError> for CodecError {
    ghost use Rattle.mh_codec.specs.declared.codec_error.Why.TheVariants.{Der};
    ghost use Rattle.mh_codec.specs.declared.codec_error.CodecError.TheVariants.{At};

    ghost from_gives = { λ d e. e ≡ At (Der d.why) d.offset };

    fn from(error: DerError) -> CodecError {
        CodecError::At {
            why: Why::Der(error.why),
            offset: error.offset,
        }
    }
}
