//! The landmarks of a text: a walk along its tokens that keeps in mind in which field they stand, and what
//! stands in front of each. Whether the text is right is left to the readers.
ghost use Rattle.std.specs.Prelude.{◌≡◌, true, length, option_map, IfOk};
ghost use Rattle.std.specs.List.{list_all};
ghost use Rattle.mh_text.specs.Landmarks.{field_behind, front_behind, must_lead, sight, sight_of, landmark, landmarks, is_within};

use crate::place::{Piece, Place};
use crate::sign::Sign;
use crate::walk::next_good;
use crate::{Landmark, Sight};
use mh_group::Attribute;
use std::alloc::{AllocError, Global};

/// What stands right in front of a token: the name of a class, an opening bracket that does not hold the
/// identifier of a group, or something else.
#[derive(Clone, Copy)]
enum Front {
    Class,
    Open,
    Other,
}

/// Where the classes, the numbers of ingredients and the names stand in a text, in the order in which they
/// stand there, up to the first token that is wrong. Scenes that may come next are passed over.
#[tactic(auto, unfolding(crate::specs::Landmarks::landmarks))]
pub fn landmarks(alloc: Global, bytes: &[u8]) -> Result<Vec<Landmark<'_>>, AllocError>
    ensures exact { IfOk result (λ found. found.items ≡ landmarks bytes.now) }
    ensures within { IfOk result (λ found. list_all (is_within (length bytes.now)) found.items ≡ true) }
{
    let mut found = Vec::new(alloc);
    let mut field = Attribute::Items;
    let mut front = Front::Other;
    let mut place = Place::new(bytes);
    while let Some(piece) = next_good(&mut place)? {
        if let Some(landmark) = landmark_at(field, front, &piece) {
            found.push(landmark)?;
        }
        field = field_behind(field, piece.sign());
        front = front_behind(front, piece.sign());
    }
    Ok(found)
}

/// The field in which the tokens behind such a one stand, which stands in this field.
fn field_behind(field: Attribute, sign: Sign) -> Attribute
    ensures { result ≡ field_behind field sign }
{
    match sign {
        Sign::Attribute(next) => next,
        _ => field,
    }
}

/// What stands in front of the token behind such a one. The bracket right behind a class is that of the
/// group's identifier.
fn front_behind(front: Front, sign: Sign) -> Front
    ensures { result ≡ front_behind front sign }
{
    match (front, sign) {
        (_, Sign::Class(_)) => Front::Class,
        (Front::Class, Sign::OpenParenthesis) => Front::Other,
        (_, Sign::OpenParenthesis) => Front::Open,
        _ => Front::Other,
    }
}

/// Whether the names in the field have to lead somewhere. The scenes that may come next are only kept,
/// wherever their names lead.
fn must_lead(field: Attribute) -> bool
    ensures { result ≡ must_lead field }
{
    !matches!(field, Attribute::NextScenes)
}

/// The landmark of the token, which stands in this field behind this.
fn landmark_at<'a>(field: Attribute, front: Front, piece: &Piece<'a>) -> Option<Landmark<'a>>
    ensures { result ≡ option_map (landmark piece.now) (sight (record { field = field; front = front }) piece.now) }
{
    let sight = sight(field, front, piece)?;
    Some(Landmark {
        sight,
        start: piece.start(),
        length: piece.length(),
    })
}

/// What stands there, if it is a landmark.
fn sight<'a>(field: Attribute, front: Front, piece: &Piece<'a>) -> Option<Sight<'a>>
    ensures { option_map sight_of result ≡ sight (record { field = field; front = front }) piece.now }
{
    match (front, piece.sign()) {
        (_, Sign::Class(_)) => Some(Sight::Class),
        (Front::Class, Sign::Integer(number)) => Some(Sight::Number(number.unsigned_abs())),
        (Front::Open, Sign::Text) if must_lead(field) => Some(Sight::Name(piece.inner())),
        _ => None,
    }
}
