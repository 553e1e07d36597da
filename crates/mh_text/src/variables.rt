//! The variables through which an action goes: a walk along the tokens of the action that keeps in mind
//! what of a reference is still to come. Whether the text is right is left to the readers.
ghost use Rattle.std.specs.Prelude.{◌≡◌, ◌==◌, ◌&&◌, ◌+◌, ◌<◌, ◌^◌, false, IfOk};
ghost use Rattle.mh_base.specs.Reading.{whole};
ghost use Rattle.mh_text.specs.Left.{left};
ghost use Rattle.mh_text.specs.Marks.{pieces_of};
ghost use Rattle.mh_text.specs.Reading.{is_close};
ghost use Rattle.mh_text.specs.Landmarks.{coming_of, coming_behind, through, open_behind, pieces_at, variables_at};

use crate::Through;
use crate::place::{Piece, Place};
use crate::sign::Sign;
use crate::walk::next_good;
use std::alloc::{AllocError, Global};

/// What of a reference to a variable is still to come.
#[derive(Clone, Copy)]
enum Coming<'a> {
    /// There is none.
    Nothing,
    /// All of it.
    Reference,
    /// What stands in its brackets.
    Bracketed,
    /// Its number, behind this name.
    Numbered(&'a [u8]),
}

/// The variables through which the action goes whose keyword begins at this offset, in the order in which
/// they stand there, up to the first token that is wrong. There are none where no token begins at the
/// offset.
#[tactic(auto, unfolding(crate::specs::Landmarks::variables_at))]
pub fn variables_at(
    alloc: Global,
    bytes: &[u8],
    start: usize,
) -> Result<Vec<Through<'_>>, AllocError>
    ensures exact { IfOk result (λ found. found.items ≡ variables_at bytes.now start) }
{
    let mut found = Vec::new(alloc);
    let mut brackets = 0;
    let mut coming = Coming::Nothing;
    let mut place = Place::new(bytes);
    let mut next = token_at(&mut place, start)?;
    while let Some(piece) = next {
        if closes_last(brackets, piece.sign()) {
            break;
        }
        if let Some(through) = variable(coming, piece.sign()) {
            found.push(through)?;
        }
        brackets = brackets_behind(brackets, piece.sign());
        coming = coming_behind(coming, &piece);
        next = next_good(&mut place)?;
    }
    Ok(found)
}

/// Takes the tokens up to the one that begins at the offset.
fn token_at<'a>(place: &mut Place<'a>, start: usize) -> Result<Option<Piece<'a>>, AllocError>
    ensures { IfOk result (λ next. pieces_of next place.new ≡ pieces_at start place.old.pieces) }
{
    while let Some(piece) = next_good(place)? {
        if piece.start() == start {
            return Ok(Some(piece));
        }
    }
    Ok(None)
}

/// The variable whose number the token is, if it is that of a reference.
fn variable<'a>(coming: Coming<'a>, sign: Sign) -> Option<Through<'a>>
    ensures { result ≡ through (coming_of coming.entry) sign }
{
    let Sign::Integer(number) = sign else {
        return None;
    };
    let name = match coming {
        Coming::Reference => None,
        Coming::Numbered(name) => Some(name),
        Coming::Nothing | Coming::Bracketed => return None,
    };
    Some(Through {
        name,
        number: number.unsigned_abs(),
    })
}

/// What is still to come behind the token, in front of which this was.
fn coming_behind<'a>(coming: Coming<'a>, piece: &Piece<'a>) -> Coming<'a>
    ensures { coming_of result ≡ coming_behind (coming_of coming.entry) piece.now }
{
    match (coming, piece.sign()) {
        (_, Sign::IndirectRef) => Coming::Reference,
        (Coming::Reference, Sign::OpenParenthesis) => Coming::Bracketed,
        (Coming::Bracketed, Sign::Text) => Coming::Numbered(piece.inner()),
        _ => Coming::Nothing,
    }
}

/// Whether the token closes the last of so many brackets that stand open.
fn closes_last(brackets: usize, sign: Sign) -> bool
    ensures { result ≡ (is_close sign && brackets == 1) }
{
    sign.is_close() && brackets == 1
}

/// How many brackets stand open behind the token, in front of which so many do.
fn brackets_behind(brackets: usize, sign: Sign) -> usize
    requires { brackets + 1 < 2 ^ 64 }
    ensures { result ≡ open_behind brackets sign }
{
    match sign {
        Sign::OpenParenthesis => brackets + 1,
        Sign::CloseParenthesis => brackets.saturating_sub(1),
        _ => brackets,
    }
}
