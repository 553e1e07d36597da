//! Readers of fields. Which attributes a class takes and has to be written with is the word of
//! `mh_group`'s tables.
ghost use Rattle.std.specs.Prelude.{◌≡◌, ◌≤◌, nat_lt, length, IfOk};
ghost use Rattle.std.specs.List.{prefix_len};
ghost use Rattle.mh_base.specs.Limits.{longest_list};
ghost use Rattle.mh_group.specs.Table.{attribute_number};
ghost use Rattle.mh_text.specs.Gives.{Gives};
ghost use Rattle.mh_text.specs.Reading.{is_items, fields as fields_lem, next_field, fields_behind_items, attribute_of, placed, complete};

use crate::place::{Piece, Place};
use crate::setting::setting;
use crate::sign::Sign;
use crate::{TextError, Why};
use mh_base::{LONGEST_LIST, Seq};
use mh_group::group::{has_attribute, has_required};
use mh_group::{Attribute, Class, Field};
use std::alloc::{AllocError, Global};

/// Whether the token is the keyword of the group's items.
#[tactic(auto, unfolding(crate::specs::Reading::is_items))]
pub(crate) fn is_items(class: Class, sign: Sign) -> bool
    ensures { result ≡ is_items class sign }
{
    match sign {
        Sign::Attribute(attribute) => class.shape(attribute).is_items(),
        _ => false,
    }
}

/// The fields up to the closing brace or the keyword of the items, put in order among those that came
/// before them; with the token at which they end.
pub(crate) fn fields<'a>(
    alloc: Global,
    class: Class,
    before: Seq<Field>,
    place: &mut Place<'a>,
) -> Result<(Seq<Field>, Piece<'a>), TextError>
    ensures { Gives (λ x. (x.0, x.1, place.new)) result (fields_lem class longest_list before place.old) }
{
    let mut fields = before;
    for _ in 0..LONGEST_LIST {
        let (member, end) = next_field(alloc, class, fields.as_slice(), place)?;
        let Some(field) = member else {
            return Ok((fields, end));
        };
        let more = with_field(fields, field)?;
        fields = more;
    }
    let piece = place.next()?;
    Err(piece.refused(Why::Limit))
}

/// The next field, with the token at which it begins; none at the closing brace or the keyword of the
/// items.
#[tactic(auto, unfolding(crate::specs::Reading::next_field))]
fn next_field<'a>(
    alloc: Global,
    class: Class,
    fields: &[Field],
    place: &mut Place<'a>,
) -> Result<(Option<Field>, Piece<'a>), TextError>
    ensures { Gives (λ x. (x.0, x.1, place.new)) result (next_field class fields.now place.old) }
{
    let piece = place.next()?;
    if piece.sign().is_close_brace() {
        return Ok((None, piece));
    }
    let attribute = attribute_of(class, fields, &piece)?;
    let shape = class.shape(attribute);
    if shape.is_items() {
        return Ok((None, piece));
    }
    let setting = setting(alloc, shape, place)?;
    Ok((Some(Field { attribute, setting }), piece))
}

/// The fields behind the items, which may not come twice.
#[tactic(auto, unfolding(crate::specs::Reading::fields_behind_items))]
pub(crate) fn fields_behind_items<'a>(
    alloc: Global,
    class: Class,
    before: Seq<Field>,
    place: &mut Place<'a>,
) -> Result<(Seq<Field>, Piece<'a>), TextError>
    ensures { Gives (λ x. (x.0, x.1, place.new)) result (fields_behind_items class before place.old) }
{
    let read = fields(alloc, class, before, place)?;
    if is_items(class, read.1.sign()) {
        return Err(read.1.refused(Why::Syntax));
    }
    Ok(read)
}

/// The attribute that this token names, where the class takes it and it has not come before.
#[tactic(auto, unfolding(crate::specs::Reading::attribute_of))]
fn attribute_of(class: Class, fields: &[Field], piece: &Piece<'_>) -> Result<Attribute, TextError>
    ensures { Gives (λ x. x) result (attribute_of class fields.now piece.now) }
{
    match piece.sign() {
        Sign::Attribute(attribute) => {
            if class.takes(attribute) && !has_attribute(fields, attribute) {
                Ok(attribute)
            } else {
                Err(piece.refused(Why::Syntax))
            }
        }
        _ => Err(piece.refused(Why::Syntax)),
    }
}

/// The fields with one more, behind those of smaller numbers.
fn with_field(fields: Seq<Field>, field: Field) -> Result<Seq<Field>, AllocError>
    ensures { IfOk result (λ more. more ≡ placed field fields) }
{
    let number = field.attribute.number();
    let mut fields = fields.into_vec();
    let at = smaller(fields.as_slice(), number);
    fields.insert(at, field)?;
    Ok(Seq::from_vec(fields))
}

/// How many fields at the front have smaller numbers.
fn smaller(fields: &[Field], number: u32) -> usize
    ensures exact { result ≡ prefix_len (λ g. nat_lt (attribute_number g.attribute) number) fields.now }
    ensures within { result ≤ length fields.now }
{
    fields
        .iter()
        .take_while(|field| field.attribute.number() < number)
        .count()
}

/// The closing brace is refused where a field is missing with which the class has to be written.
#[tactic(auto, unfolding(crate::specs::Reading::complete))]
pub(crate) fn complete(class: Class, fields: &[Field], end: &Piece<'_>) -> Result<(), TextError>
    ensures { Gives (λ x. fields.now) result (complete class fields.now end.now) }
{
    if has_required(class, fields) {
        Ok(())
    } else {
        Err(end.refused(Why::Syntax))
    }
}
