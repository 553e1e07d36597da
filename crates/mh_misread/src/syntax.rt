//! Tokens that are known, in a place where another is wanted.
ghost use Rattle.std.specs.Prelude.{◌≡◌, ◌&&◌, not, nat_lt, take, drop, IfOk, List, ◌∷◌};
ghost use Rattle.std.specs.List.{find, list_any};
ghost use Rattle.mh_group.specs.Table.{required_of};
ghost use Rattle.mh_misread.specs.Goals.{wanted_behind};
ghost use Rattle.mh_misread.specs.Pieces.{is_keyword_of};
ghost use Rattle.mh_misread.specs.Misreads.{first_sign, is_row, is_open, at_brace, at_string, taken, at_close, items_row, effect_row, is_reference_shape, is_reference_part, is_reference, has_keyword, lacking, ended, field_misread, value_misread, goal_misread, open_at, row_of, syntax, syntax_at};

use crate::gap::lacks_gap;
use crate::goal::{Frame, Goal};
use crate::misread::Misread;
use crate::name::Name;
use crate::part::{Part, Row, part_at};
use crate::piece::{Piece, Sign, pieces_before};
use crate::span::{behind, front};
use crate::stack::Stack;
use crate::token::first_sign;
use mh_base::Kind;
use mh_group::{Attribute, Class, Need, Shape};
use std::alloc::{AllocError, Global};

/// What is wrong at the offset, where a token stands that is known.
#[tactic(auto, unfolding(crate::specs::Misreads::syntax))]
pub(crate) fn syntax(alloc: Global, file: &[u8], offset: usize) -> Result<Misread, AllocError>
    ensures { IfOk result (λ misread. misread ≡ syntax file.now offset) }
{
    let sign = first_sign(behind(file, offset));
    if lacks_gap(front(file, offset), sign) {
        return Ok(Misread::Tight);
    }
    let pieces = pieces_before(alloc, file, offset)?;
    syntax_at(alloc, pieces.as_slice(), sign)
}

/// What is wrong with this token behind these, or with the end of the text.
fn syntax_at(alloc: Global, pieces: &[Piece], sign: Option<Sign>) -> Result<Misread, AllocError>
    ensures { IfOk result (λ misread. misread ≡ syntax_at pieces.now (wanted_behind pieces.now) sign) }
{
    let mut stack = Stack::behind(alloc, pieces)?;
    let Some(frame) = stack.pop() else {
        return Ok(Misread::Behind);
    };
    match sign {
        Some(sign) => Ok(goal_misread(pieces, frame, row_at(frame, &mut stack), sign)),
        None => Ok(Misread::TextEnds(open_at(frame, &mut stack))),
    }
}

/// The action or the field that is being read, of this goal and those below it.
fn row_at(frame: Frame, below: &mut Stack) -> Option<Goal>
    ensures { result ≡ row_of (frame ∷ below.old) }
{
    let mut next = Some(frame);
    while let Some(frame) = next {
        if is_row(frame.goal) {
            return Some(frame.goal);
        }
        next = below.pop();
    }
    None
}

/// Where the innermost bracket or brace stands that is open, of this goal and those below it.
fn open_at(frame: Frame, below: &mut Stack) -> usize
    ensures { result ≡ open_at (frame ∷ below.old) }
{
    let mut next = Some(frame);
    while let Some(frame) = next {
        if is_open(frame.goal) {
            return frame.start;
        }
        next = below.pop();
    }
    0
}

/// Whether an action or a field is being read.
fn is_row(goal: Goal) -> bool
    ensures { result ≡ is_row goal }
{
    matches!(
        goal,
        Goal::Value(_, _)
            | Goal::Second(_, _)
            | Goal::Open(Row::Action(_))
            | Goal::Part(Row::Action(_), _)
    )
}

/// Whether it began with a bracket or a brace, which is open.
fn is_open(goal: Goal) -> bool
    ensures { result ≡ is_open goal }
{
    matches!(
        goal,
        Goal::GroupClass
            | Goal::ItemClass
            | Goal::ItemNumber(_)
            | Goal::Fields(_)
            | Goal::Part(_, _)
            | Goal::Members(_)
    )
}

/// What is wrong with this token, where this is wanted while an action or a field is being read.
fn goal_misread(pieces: &[Piece], frame: Frame, row: Option<Goal>, sign: Sign) -> Misread
    ensures { result ≡ goal_misread pieces.now frame row sign }
{
    match frame.goal {
        Goal::Fields(class) => field_misread(pieces, frame.start, class, sign),
        goal => value_misread(goal, frame.start, row, sign),
    }
}

/// What is wrong with this token in the place of a field of an object whose brace stands at the offset.
#[tactic(auto, unfolding(crate::specs::Misreads::field_misread))]
fn field_misread(pieces: &[Piece], start: usize, class: Class, sign: Sign) -> Misread
    ensures { result ≡ field_misread pieces.now start class sign }
{
    match sign {
        Sign::CloseBrace => ended(class, lacking(pieces, start, class)),
        Sign::Close => at_close(class, start),
        Sign::Name(Name::Attribute(attribute)) => taken(class, attribute),
        Sign::Name(Name::Action(_)) => { Misread::Unwanted(Goal::Fields(class), effect_row(class)) }
        Sign::OpenBrace => Misread::Unwanted(Goal::Fields(class), items_row(class)),
        _ => Misread::Unwanted(Goal::Fields(class), None),
    }
}

/// What is wrong with a bracket that ends a list, in which the item's brace is open. A group stands in no list.
fn at_close(class: Class, start: usize) -> Misread
    ensures { result ≡ at_close class start }
{
    if class.is_group() {
        Misread::Unwanted(Goal::Fields(class), None)
    } else {
        Misread::Unclosed(start)
    }
}

/// The field of a group in which items stand.
fn items_row(class: Class) -> Option<Goal>
    ensures { result ≡ items_row class }
{
    if class.takes(Attribute::Items) {
        Some(Goal::Value(class, Attribute::Items))
    } else {
        None
    }
}

/// The field of the class in which actions stand.
fn effect_row(class: Class) -> Option<Goal>
    ensures { result ≡ effect_row class }
{
    if class.takes(Attribute::LinkEffect) {
        return Some(Goal::Value(class, Attribute::LinkEffect));
    }
    if class.takes(Attribute::OnStartUp) {
        return Some(Goal::Value(class, Attribute::OnStartUp));
    }
    None
}

/// What is wrong with a field of the class.
fn taken(class: Class, attribute: Attribute) -> Misread
    ensures { result ≡ taken class attribute }
{
    if class.takes(attribute) {
        Misread::Twice(class, attribute)
    } else {
        Misread::NotTaken(class, attribute)
    }
}

/// What is wrong with the end of an object that lacks this field.
fn ended(class: Class, lacking: Option<Attribute>) -> Misread
    ensures { result ≡ ended class lacking }
{
    match lacking {
        Some(attribute) => Misread::Lacks(class, attribute),
        None => Misread::Unwanted(Goal::Fields(class), None),
    }
}

/// The field that an object of the class lacks, whose brace stands at the offset.
fn lacking(pieces: &[Piece], start: usize, class: Class) -> Option<Attribute>
    ensures { result ≡ lacking pieces.now start class }
{
    class
        .required()
        .iter()
        .copied()
        .find(|attribute| !has_keyword(pieces, start, *attribute))
}

/// Whether the attribute is the keyword of a token behind the offset.
fn has_keyword(pieces: &[Piece], start: usize, attribute: Attribute) -> bool
    ensures { result ≡ has_keyword pieces.now start attribute }
{
    pieces
        .iter()
        .any(|piece| is_behind(piece, start, attribute))
}

fn is_behind(piece: &Piece, start: usize, attribute: Attribute) -> bool
    ensures { result ≡ (nat_lt start piece.now.start && is_keyword_of attribute piece.now.sign) }
{
    start < piece.start && is_keyword_of(attribute, piece.sign)
}

fn is_keyword_of(attribute: Attribute, sign: Sign) -> bool
    ensures { result ≡ is_keyword_of attribute sign }
{
    match sign {
        Sign::Name(Name::Attribute(other)) => other.number() == attribute.number(),
        _ => false,
    }
}

/// What is wrong with this token in the place of a value that began at the offset.
#[tactic(auto, unfolding(crate::specs::Misreads::value_misread))]
fn value_misread(goal: Goal, start: usize, row: Option<Goal>, sign: Sign) -> Misread
    ensures { result ≡ value_misread goal start row sign }
{
    match sign {
        Sign::CloseBrace | Sign::Name(Name::Attribute(_)) => at_brace(goal, start, row),
        Sign::String => at_string(goal, row),
        _ => Misread::Unwanted(goal, row),
    }
}

fn at_brace(goal: Goal, start: usize, row: Option<Goal>) -> Misread
    ensures { result ≡ at_brace goal start row }
{
    match goal {
        Goal::Part(_, _) | Goal::Members(_) => Misread::Unclosed(start),
        _ => Misread::Unwanted(goal, row),
    }
}

fn at_string(goal: Goal, row: Option<Goal>) -> Misread
    ensures { result ≡ at_string goal row }
{
    if is_reference(goal) {
        Misread::BareName
    } else {
        Misread::Unwanted(goal, row)
    }
}

/// Whether a reference is wanted.
fn is_reference(goal: Goal) -> bool
    ensures { result ≡ is_reference goal }
{
    match goal {
        Goal::Value(class, attribute) => is_reference_shape(class.shape(attribute)),
        Goal::Part(row, before) => is_reference_part(part_at(row, before)),
        Goal::OfKind(Kind::Object) | Goal::Variable => true,
        _ => false,
    }
}

fn is_reference_shape(shape: Shape) -> bool
    ensures { result ≡ is_reference_shape shape }
{
    matches!(shape, Shape::Ref)
}

fn is_reference_part(part: Option<Part>) -> bool
    ensures { result ≡ is_reference_part part }
{
    matches!(
        part,
        Some(Part::Object | Part::Target | Part::Need(Need::Ref | Need::Receiver(_)))
    )
}
