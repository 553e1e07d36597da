//! The marks of a text: a walk along its tokens that keeps in mind which object and which field they stand
//! in. Whether the text is right is left to the readers.
ghost use Rattle.std.specs.Prelude.{◌≡◌, ◌+◌, nat_le, true, length, IfOk};
ghost use Rattle.std.specs.List.{list_all};
ghost use Rattle.mh_text.specs.Marks.{in_group, behind, mark, mark_at, marks, is_within};

use crate::Mark;
use crate::place::{Piece, Place};
use crate::sign::Sign;
use crate::walk::next_good;
use mh_group::{ActionName, Attribute};
use std::alloc::{AllocError, Global};

/// Where a token stands: in the object with this number, in this field of it; and whether right behind the
/// name of a class, where the number of an object stands.
#[derive(Clone, Copy)]
struct Spot {
    object: u32,
    field: Attribute,
    is_behind_class: bool,
}

/// The marks of a text, in the order in which they stand there, up to the first token that is wrong.
#[tactic(auto, unfolding(crate::specs::Marks::marks))]
pub fn marks(alloc: Global, bytes: &[u8]) -> Result<Vec<Mark>, AllocError>
    ensures exact { IfOk result (λ found. found.items ≡ marks bytes.now) }
    ensures within { IfOk result (λ found. list_all (is_within (length bytes.now)) found.items ≡ true) }
{
    let mut found = Vec::new(alloc);
    let mut spot = in_group();
    let mut place = Place::new(bytes);
    while let Some(piece) = next_good(&mut place)? {
        spot = behind(spot, piece.sign());
        if let Some(mark) = mark_at(spot, &piece) {
            found.push(mark)?;
        }
    }
    Ok(found)
}

/// The beginning of a text, and where an ingredient has ended.
fn in_group() -> Spot
    ensures { result ≡ in_group }
{
    Spot {
        object: 0,
        field: Attribute::Items,
        is_behind_class: false,
    }
}

/// Where the tokens behind such a one stand, which stands here.
fn behind(spot: Spot, sign: Sign) -> Spot
    ensures { result ≡ behind spot sign }
{
    let further = Spot {
        is_behind_class: false,
        ..spot
    };
    match sign {
        Sign::CloseBrace => in_group(),
        Sign::Class(_) => Spot {
            is_behind_class: true,
            ..spot
        },
        Sign::Integer(number) if spot.is_behind_class => Spot {
            object: number.unsigned_abs(),
            ..further
        },
        Sign::Attribute(field) => Spot { field, ..further },
        _ => further,
    }
}

/// The mark of the token, if it is the keyword of an action or of a list of members.
fn mark_at(spot: Spot, piece: &Piece<'_>) -> Option<Mark>
    ensures { result ≡ mark_at spot piece.now }
{
    match piece.sign() {
        Sign::Action(name) => Some(mark(spot, Some(name), piece)),
        Sign::Attribute(Attribute::TokenGroupItems) => Some(mark(spot, None, piece)),
        _ => None,
    }
}

fn mark(spot: Spot, action: Option<ActionName>, piece: &Piece<'_>) -> Mark
    ensures { result ≡ mark spot action piece.now }
{
    Mark {
        object: spot.object,
        field: spot.field,
        action,
        start: piece.start(),
        length: piece.length(),
    }
}
