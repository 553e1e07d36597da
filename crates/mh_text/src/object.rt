//! Readers of ingredients and groups, and `read_group`.
ghost use Rattle.std.specs.Prelude.{◌≡◌, ◌≢◌, false, true, IfOk, IfErr};
ghost use Rattle.mh_text.specs.Gives.{Gives};
ghost use Rattle.mh_text.specs.Spelling.{Spells, SpellsNone, SpellsNoOther};
ghost use Rattle.mh_text.specs.Lexing.{behind_gap, begins_group};
ghost use Rattle.mh_text.specs.Reading.{read, group, body, class_of, identifier as identifier_lem, items, ingredient, group_with, items_and_fields, ingredient_with};

use crate::field::{complete, fields, fields_behind_items, is_items};
use crate::form::{Form, list};
use crate::lexing::{begins_with, gap_length};
use crate::place::{Piece, Place};
use crate::sign::Sign;
use crate::value::{ingredient_number_of, name_of, number_of};
use crate::{TextError, Why};
use mh_base::{LARGEST_FILE, LONGEST_LIST, Seq};
use mh_group::{Class, Field, Group, Ingredient, Number, Written, WrittenName};
use std::alloc::Global;

/// Whether the bytes begin as a group does: with `{` and `:`, white space and comments passed over
/// before and between them.
pub fn begins_group(bytes: &[u8]) -> bool
    ensures { result ≡ begins_group bytes.now }
{
    match behind_gap(bytes) {
        [b'{', rest @ ..] => begins_with(behind_gap(rest), b':'),
        _ => false,
    }
}

/// The bytes behind white space and comments.
fn behind_gap(bytes: &[u8]) -> &[u8]
    ensures { result.now ≡ behind_gap bytes.now }
{
    &bytes[gap_length(bytes)..]
}

/// The group that the text writes, or the first place from the left at which it goes wrong.
#[tactic(auto, unfolding(crate::specs::Reading::read))]
pub fn read_group(alloc: Global, bytes: &[u8]) -> Result<Group, TextError>
    ensures exact { Gives (λ x. x) result (read bytes.now) }
    ensures found { IfOk result (Spells bytes.now) }
    ensures one { IfOk result (SpellsNoOther bytes.now) }
    ensures only { IfErr result (λ e. e ≢ TextError.NoMemory → SpellsNone bytes.now) }
{
    if bytes.len() > LARGEST_FILE {
        return Err(TextError::At {
            why: Why::Limit,
            offset: 0,
        });
    }
    let mut place = Place::new(bytes);
    let written = group(alloc, &mut place)?;
    place.ended()?;
    match Group::new(written) {
        Ok(group) => Ok(group),
        Err(_) => unreachable!(),
    }
}

#[tactic(auto, unfolding(crate::specs::Reading::group))]
fn group(alloc: Global, place: &mut Place<'_>) -> Result<Written, TextError>
    ensures { Gives (λ x. (x, place.new)) result (group place.old) }
{
    place.braced()?;
    let piece = place.next()?;
    let class = class_of(true, &piece)?;
    let identifier = identifier(alloc, place)?;
    group_with(alloc, class, identifier, place)
}

/// The rest of a group, behind its class and identifier.
fn group_with(
    alloc: Global,
    class: Class,
    identifier: WrittenName,
    place: &mut Place<'_>,
) -> Result<Written, TextError>
    ensures { Gives (λ x. (x, place.new)) result (group_with class identifier place.old) }
{
    let (fields, items, end) = body(alloc, class, place)?;
    complete(class, fields.as_slice(), &end)?;
    Ok(Written {
        class,
        identifier,
        fields,
        items,
    })
}

/// What stands between a group's identifier and its closing brace: the fields, and perhaps the items
/// between them; with the token at which they end.
#[tactic(auto, unfolding(crate::specs::Reading::body))]
fn body<'a>(
    alloc: Global,
    class: Class,
    place: &mut Place<'a>,
) -> Result<(Seq<Field>, Option<Seq<Ingredient>>, Piece<'a>), TextError>
    ensures { Gives (λ x. (x.0, x.1, x.2, place.new)) result (body class place.old) }
{
    let (fields, end) = fields(alloc, class, Seq::new(alloc), place)?;
    if !is_items(class, end.sign()) {
        return Ok((fields, None, end));
    }
    items_and_fields(alloc, class, fields, place)
}

/// The items, and the fields behind them put in order among those before them.
fn items_and_fields<'a>(
    alloc: Global,
    class: Class,
    before: Seq<Field>,
    place: &mut Place<'a>,
) -> Result<(Seq<Field>, Option<Seq<Ingredient>>, Piece<'a>), TextError>
    ensures { Gives (λ x. (x.0, x.1, x.2, place.new)) result (items_and_fields class before place.old) }
{
    let items = items(alloc, place)?;
    let (fields, end) = fields_behind_items(alloc, class, before, place)?;
    Ok((fields, Some(items), end))
}

/// The class that this token names, of a group or of an ingredient.
#[tactic(auto, unfolding(crate::specs::Reading::class_of))]
fn class_of(is_group: bool, piece: &Piece<'_>) -> Result<Class, TextError>
    ensures { Gives (λ x. x) result (class_of is_group piece.now) }
{
    match piece.sign() {
        Sign::Class(class) if class.is_group() == is_group => Ok(class),
        _ => Err(piece.refused(Why::Syntax)),
    }
}

/// The group's own identifier: its name, and the number 0.
#[tactic(auto, unfolding(crate::specs::Reading::identifier))]
fn identifier(alloc: Global, place: &mut Place<'_>) -> Result<WrittenName, TextError>
    ensures { Gives (λ x. (x, place.new)) result (identifier_lem place.old) }
{
    place.opened()?;
    let piece = place.next()?;
    let name = name_of(alloc, &piece)?;
    let piece = place.next()?;
    let number = number_of(&piece)?;
    if number.get() != 0 {
        return Err(piece.refused(Why::Range));
    }
    place.closed()?;
    Ok(name)
}

/// The ingredients between parentheses.
#[tactic(auto, unfolding(crate::specs::Reading::items))]
fn items(alloc: Global, place: &mut Place<'_>) -> Result<Seq<Ingredient>, TextError>
    ensures { Gives (λ x. (x, place.new)) result (items place.old) }
{
    let piece = place.next()?;
    list::<AnyIngredient>(alloc, LONGEST_LIST, &piece, place)
}

/// An ingredient.
struct AnyIngredient;

impl Form for AnyIngredient {
    type Value = Ingredient;

    ghost reading = { ingredient };

    #[tactic(auto, unfolding(crate::specs::Reading::ingredient))]
    fn read(
        alloc: Global,
        piece: &Piece<'_>,
        place: &mut Place<'_>,
    ) -> Result<Ingredient, TextError> {
        if !piece.sign().is_open_brace() {
            return Err(piece.refused(Why::Syntax));
        }
        let piece = place.next()?;
        let class = class_of(false, &piece)?;
        let piece = place.next()?;
        let number = ingredient_number_of(&piece)?;
        ingredient_with(alloc, class, number, place)
    }
}

/// The rest of an ingredient, behind its class and number.
fn ingredient_with(
    alloc: Global,
    class: Class,
    number: Number,
    place: &mut Place<'_>,
) -> Result<Ingredient, TextError>
    ensures { Gives (λ x. (x, place.new)) result (ingredient_with class number place.old) }
{
    let (fields, end) = fields(alloc, class, Seq::new(alloc), place)?;
    complete(class, fields.as_slice(), &end)?;
    Ok(Ingredient {
        class,
        number,
        fields,
    })
}
