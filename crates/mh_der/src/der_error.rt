//! Why an element is not read, and where.
ghost use Rattle.std.specs.Prelude.{◌≡◌};
ghost use Rattle.mh_der.specs.Numbers.{number_of};

use std::fmt;
use thiserror::Error;

/// What is wrong with an element.
#[derive(Clone, Copy, Debug, PartialEq, Eq)]
pub enum Why {
    /// The source ends before the element does, or where one is wanted.
    Truncated,
    /// The number of the tag is not written in its shortest form, or is above 65,535.
    BadTag,
    /// The length is not written in its shortest form.
    LongLength,
    /// The length is left open.
    Indefinite,
    /// No integer of 32 bits, or not in its shortest form.
    BadInteger,
    /// Neither 00 nor FF.
    BadBoolean,
    /// Bytes stand behind the last element.
    Trailing,
}

impl Why {
    /// The number that stands for it in the output.
    pub fn number(self) -> u32
        ensures { result ≡ number_of self }
    {
        match self {
            Why::Truncated => 1,
            Why::BadTag => 2,
            Why::LongLength => 3,
            Why::Indefinite => 4,
            Why::BadInteger => 5,
            Why::BadBoolean => 6,
            Why::Trailing => 7,
        }
    }
}

impl fmt::Display for Why {
    fn fmt<W: fmt::Write>(&self, f: &mut fmt::Formatter<W>) -> fmt::Result {
        let words = match self {
            Why::Truncated => "1: the bytes end before the element does",
            Why::BadTag => "2: no tag is written so",
            Why::LongLength => "3: the length is not in its shortest form",
            Why::Indefinite => "4: the length is left open",
            Why::BadInteger => "5: no integer is written so",
            Why::BadBoolean => "6: no truth value is written so",
            Why::Trailing => "7: nothing may stand here",
        };
        write!(f, "{words}")
    }
}

/// Why an element could not be read: what is wrong with it, and the offset of its first byte.
#[derive(Clone, Copy, Debug, PartialEq, Eq, Error)]
#[error("{why} (at {offset})")]
pub struct DerError {
    pub why: Why,
    pub offset: usize,
}
