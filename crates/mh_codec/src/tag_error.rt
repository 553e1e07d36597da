//! Why lines make no table of tags.
ghost use Rattle.std.specs.Prelude.{◌≡◌};
ghost use Rattle.mh_codec.specs.Numbers.{tag_error_number};

use std::alloc::{AllocError, AllocFailed};
use thiserror::Error;

/// Why lines make no table of tags.
#[derive(Clone, Copy, Debug, PartialEq, Eq, Error)]
pub enum TagError {
    /// Number 60: the line of this number, from 1 on, is none that names a tag, or it names again what has
    /// one.
    #[error("60: the line may not stand here (line {0})")]
    Line(usize),
    /// Number 61: a tag stands twice in this context: 1 for classes, 2 for attributes, 3 for actions, 4 for
    /// values.
    #[error("61: a tag stands twice (context {0})")]
    Double(u32),
    #[error("memory was refused")]
    NoMemory,
}

impl TagError {
    /// The number under which it is reported; want of memory has none.
    pub fn number(self) -> Option<u32>
        ensures { result ≡ tag_error_number self }
    {
        match self {
            TagError::Line(_) => Some(60),
            TagError::Double(_) => Some(61),
            TagError::NoMemory => None,
        }
    }
}

impl From<AllocError> for TagError {
    ghost use Rattle.std.specs.Prelude.{◌≡◌};
    ghost use Rattle.mh_codec.specs.declared.tag_error.TagError.TheVariants.{NoMemory};

    ghost from_gives = { λ _ e. e ≡ NoMemory };

    fn from(_refused: AllocError) -> TagError {
        TagError::NoMemory
    }
}

impl<T: Drop> From<AllocFailed<T>> for TagError {
    ghost use Rattle.std.specs.Prelude.{◌≡◌};
    ghost use Rattle.mh_codec.specs.declared.tag_error.TagError.TheVariants.{NoMemory};

    ghost from_gives = { λ _ e. e ≡ NoMemory };

    fn from(_refused: AllocFailed<T>) -> TagError {
        TagError::NoMemory
    }
}
