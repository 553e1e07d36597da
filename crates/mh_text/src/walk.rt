//! A walk along the tokens of a text, for whoever asks where something stands: it goes up to the first
//! token that is wrong, and says nothing of what is wrong there.
ghost use Rattle.std.specs.Prelude.{◌≡◌, IfOk};
ghost use Rattle.mh_text.specs.Marks.{pieces_of};

use crate::TextError;
use crate::place::{Piece, Place};
use std::alloc::AllocError;

/// Takes the next token; none where the text ends or goes wrong.
pub(crate) fn next_good<'a>(place: &mut Place<'a>) -> Result<Option<Piece<'a>>, AllocError>
    ensures { IfOk result (λ next. pieces_of next place.new ≡ place.old.pieces) }
{
    match place.taken() {
        Ok(next) => Ok(next),
        Err(TextError::At { .. }) => Ok(None),
        Err(TextError::NoMemory) => Err(AllocError),
    }
}
