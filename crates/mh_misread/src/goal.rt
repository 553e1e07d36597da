//! `Goal`: what reading wants next, and what it wants behind a token. The tokens are taken to be right, as they are in
//! front of the place where reading stops.
ghost use Rattle.std.specs.Prelude.{◌≡◌};
ghost use Rattle.mh_misread.specs.Goals.{inside, reference, opened_by_part, opened_by_shape, opened_by_member, is_pair, then_within, and_within, behind_group_class, behind_item_class, behind_field, behind_integer, behind_value, one_more, within_part, behind_part, behind_member, behind_goal};

use crate::name::Name;
use crate::part::{Listed, Part, Row, part_at};
use crate::piece::Sign;
use mh_base::Kind;
use mh_group::{Attribute, Class, Need, Shape};

/// What reading wants.
#[derive(Clone, Copy)]
pub enum Goal {
    /// A group.
    Group,
    /// The class of a group, behind its brace.
    GroupClass,
    /// The class of an item, behind its brace.
    ItemClass,
    /// The number of an item of this class.
    ItemNumber(Class),
    /// A further field, or the brace that ends them.
    Fields(Class),
    /// The value of a field.
    Value(Class, Attribute),
    /// The second integer of a field.
    Second(Class, Attribute),
    /// The bracket that opens a row.
    Open(Row),
    /// What stands in a row behind so many parts.
    Part(Row, usize),
    /// A further member of a list, or the bracket that ends it.
    Members(Listed),
    /// A value behind the keyword of its kind.
    OfKind(Kind),
    /// The reference of a variable.
    Variable,
}

/// A goal, with the offset of the token at which it began.
#[derive(Clone, Copy)]
pub struct Frame {
    pub goal: Goal,
    pub start: usize,
}

/// What is wanted behind a token: within what it began, and then on the level that it stands on.
#[derive(Clone, Copy)]
pub(crate) struct Next {
    pub(crate) here: Option<Goal>,
    pub(crate) within: Option<Goal>,
}

fn then_within(within: Option<Goal>) -> Next
    ensures { result ≡ then_within within }
{
    Next { here: None, within }
}

fn and_within(here: Goal, within: Option<Goal>) -> Next
    ensures { result ≡ and_within here within }
{
    Next {
        here: Some(here),
        within,
    }
}

/// What is wanted behind a token that this goal wanted.
pub(crate) fn behind_goal(goal: Goal, sign: Sign) -> Next
    ensures { result ≡ behind_goal goal sign }
{
    match goal {
        Goal::Group => then_within(Some(Goal::GroupClass)),
        Goal::GroupClass => behind_group_class(sign),
        Goal::ItemClass => behind_item_class(sign),
        Goal::ItemNumber(class) => and_within(Goal::Fields(class), None),
        Goal::Fields(class) => behind_field(class, sign),
        Goal::Value(class, attribute) => behind_value(class, attribute, sign),
        Goal::Second(_, _) => then_within(None),
        Goal::Open(row) => then_within(Some(Goal::Part(row, 0))),
        Goal::Part(row, before) => behind_part(row, before, sign),
        Goal::Members(listed) => behind_member(listed, sign),
        Goal::OfKind(_) | Goal::Variable => then_within(inside(reference(), sign)),
    }
}

fn behind_group_class(sign: Sign) -> Next
    ensures { result ≡ behind_group_class sign }
{
    match sign {
        Sign::Name(Name::Class(class)) => and_within(
            Goal::Fields(class),
            Some(Goal::Open(Row::Identifier)),
        ),
        _ => then_within(None),
    }
}

fn behind_item_class(sign: Sign) -> Next
    ensures { result ≡ behind_item_class sign }
{
    match sign {
        Sign::Name(Name::Class(class)) => and_within(Goal::ItemNumber(class), None),
        _ => then_within(None),
    }
}

fn behind_field(class: Class, sign: Sign) -> Next
    ensures { result ≡ behind_field class sign }
{
    match sign {
        Sign::Name(Name::Attribute(attribute)) => {
            and_within(Goal::Fields(class), Some(Goal::Value(class, attribute)))
        }
        _ => then_within(None),
    }
}

fn behind_value(class: Class, attribute: Attribute, sign: Sign) -> Next
    ensures { result ≡ behind_value class attribute sign }
{
    let shape = class.shape(attribute);
    match sign {
        Sign::Integer => behind_integer(class, attribute, is_pair(shape)),
        _ => then_within(inside(opened_by_shape(shape), sign)),
    }
}

/// What is wanted behind the integer with which a value begins, of which it may be a half.
fn behind_integer(class: Class, attribute: Attribute, is_half: bool) -> Next
    ensures { result ≡ behind_integer class attribute is_half }
{
    if is_half {
        and_within(Goal::Second(class, attribute), None)
    } else {
        then_within(None)
    }
}

fn behind_part(row: Row, before: usize, sign: Sign) -> Next
    ensures { result ≡ behind_part row before sign }
{
    match sign {
        Sign::Close => then_within(None),
        _ => and_within(
            Goal::Part(row, one_more(before)),
            within_part(part_at(row, before), sign),
        ),
    }
}

/// One part more. No row has as many as are counted.
fn one_more(before: usize) -> usize
    ensures { result ≡ one_more before }
{
    if before < 9 { before + 1 } else { before }
}

fn within_part(part: Option<Part>, sign: Sign) -> Option<Goal>
    ensures { result ≡ within_part part sign }
{
    match part {
        Some(part) => inside(opened_by_part(part), sign),
        None => None,
    }
}

fn behind_member(listed: Listed, sign: Sign) -> Next
    ensures { result ≡ behind_member listed sign }
{
    match sign {
        Sign::Close => then_within(None),
        _ => and_within(
            Goal::Members(listed),
            inside(opened_by_member(listed), sign),
        ),
    }
}

/// What stands within a value that goes on behind its first token. A bracket begins what it opens; a brace, and the
/// keywords that stand in front of others, have the same behind them in every value.
#[tactic(auto, unfolding(crate::specs::Goals::inside))]
fn inside(opened: Option<Goal>, sign: Sign) -> Option<Goal>
    ensures { result ≡ inside opened sign }
{
    match sign {
        Sign::Open => opened,
        Sign::OpenBrace => Some(Goal::ItemClass),
        Sign::Name(Name::Action(action)) => Some(Goal::Open(Row::Action(action))),
        Sign::Name(Name::IndirectRef) => Some(Goal::Variable),
        Sign::Name(Name::ContentRef) => Some(Goal::Open(Row::ContentName)),
        Sign::Name(Name::Kind(kind)) => Some(Goal::OfKind(kind)),
        _ => None,
    }
}

fn reference() -> Option<Goal>
    ensures { result ≡ reference }
{
    Some(Goal::Part(Row::Reference, 0))
}

/// What the bracket opens with which a part begins.
fn opened_by_part(part: Part) -> Option<Goal>
    ensures { result ≡ opened_by_part part }
{
    match part {
        Part::Object | Part::Target | Part::Need(Need::Ref | Need::Receiver(_)) => reference(),
        Part::Slot => Some(Goal::Members(Listed::Actions)),
        Part::Need(Need::Arguments) => Some(Goal::Members(Listed::Arguments)),
        _ => None,
    }
}

/// What the bracket opens with which the value of an attribute begins.
fn opened_by_shape(shape: Shape) -> Option<Goal>
    ensures { result ≡ opened_by_shape shape }
{
    match shape {
        Shape::Items => Some(Goal::Members(Listed::Items)),
        Shape::Effect => Some(Goal::Members(Listed::Actions)),
        Shape::Ref => reference(),
        Shape::MovementTable => Some(Goal::Members(Listed::Rows)),
        Shape::Members => Some(Goal::Members(Listed::Members)),
        Shape::ListItems => Some(Goal::Members(Listed::ListItems)),
        Shape::Positions => Some(Goal::Members(Listed::Positions)),
        Shape::NextScenes => Some(Goal::Members(Listed::NextScenes)),
        _ => None,
    }
}

/// What the bracket opens with which a member of a list begins.
fn opened_by_member(listed: Listed) -> Option<Goal>
    ensures { result ≡ opened_by_member listed }
{
    match listed {
        Listed::Rows => Some(Goal::Members(Listed::Integers)),
        Listed::Members => Some(Goal::Part(Row::Member, 0)),
        Listed::ListItems => Some(Goal::Part(Row::ListItem, 0)),
        Listed::Positions => Some(Goal::Part(Row::Position, 0)),
        Listed::NextScenes => Some(Goal::Part(Row::NextScene, 0)),
        _ => None,
    }
}

/// Whether the value is two integers.
fn is_pair(shape: Shape) -> bool
    ensures { result ≡ is_pair shape }
{
    matches!(shape, Shape::Pair | Shape::Size | Shape::Screen)
}
