//! Why a text is not read, and where.
ghost use Rattle.std.specs.Prelude.{◌≡◌};
ghost use Rattle.mh_text.specs.Numbers.{number_of};

use std::alloc::AllocError;
use std::fmt;
use thiserror::Error;

/// What is wrong with a text.
#[derive(Clone, Copy, Debug, PartialEq, Eq)]
pub enum Why {
    /// A byte that begins no token, an open string, or `=` without two hexadecimal digits.
    Lexical,
    /// A known token in a place where the grammar wants another, or the end of the text.
    Syntax,
    /// A keyword or a word that no table has.
    UnknownName,
    /// A number or another value outside its range.
    Range,
    /// More than a written list or a file may hold.
    Limit,
}

impl Why {
    /// The number that stands for it in the output.
    pub fn number(self) -> u32
        ensures { result ≡ number_of self }
    {
        match self {
            Why::Lexical => 20,
            Why::Syntax => 21,
            Why::UnknownName => 22,
            Why::Range => 23,
            Why::Limit => 24,
        }
    }
}

impl fmt::Display for Why {
    fn fmt<W: fmt::Write>(&self, f: &mut fmt::Formatter<W>) -> fmt::Result {
        let words = match self {
            Why::Lexical => "20: no token begins here",
            Why::Syntax => "21: another token is wanted here",
            Why::UnknownName => "22: no such name",
            Why::Range => "23: the value is out of range",
            Why::Limit => "24: a limit is passed",
        };
        write!(f, "{words}")
    }
}

/// Why a text could not be read.
#[derive(Clone, Copy, Debug, PartialEq, Eq, Error)]
pub enum TextError {
    /// The text is wrong at the token that begins at this offset; the length of the text stands for
    /// its end.
    #[error("{why} (at {offset})")]
    At { why: Why, offset: usize },
    #[error("memory was refused")]
    NoMemory,
}

impl From<AllocError> for TextError {
    ghost use Rattle.mh_text.specs.declared.text_error.TextError.TheVariants.{NoMemory};

    ghost from_gives = { λ _ e. e ≡ NoMemory };

    fn from(_refused: AllocError) -> TextError {
        TextError::NoMemory
    }
}
