//! The rows and lists of the notation that stand in brackets, and the parts that a row has.
ghost use Rattle.std.specs.Prelude.{◌≡◌};
ghost use Rattle.mh_misread.specs.Goals.{parts_of, member_part, action_part, part_at};

use mh_group::{ActionName, Need};

/// What stands in brackets with one part behind the other.
#[derive(Clone, Copy)]
pub enum Row {
    /// The identifier of a group.
    Identifier,
    Reference,
    /// The name of a content file.
    ContentName,
    Position,
    NextScene,
    /// A member of a token group with its slots.
    Member,
    /// A member of a list group.
    ListItem,
    /// The target and the parameters of an action.
    Action(ActionName),
}

/// What stands in brackets as a list.
#[derive(Clone, Copy)]
pub enum Listed {
    Items,
    Actions,
    /// The rows of a movement table.
    Rows,
    Integers,
    Members,
    ListItems,
    Positions,
    NextScenes,
    Arguments,
}

/// A part of a row.
#[derive(Clone, Copy)]
pub enum Part {
    Name,
    /// The number of a group.
    Zero,
    /// The number of an object.
    Number,
    Integer,
    /// The reference of an object.
    Object,
    /// The actions of a slot.
    Slot,
    /// The target of an action.
    Target,
    /// A parameter.
    Need(Need),
}

/// The parts of a row that has always the same.
fn parts_of(row: Row) -> &'static [Part]
    ensures { result.now ≡ parts_of row }
{
    match row {
        Row::Identifier => &[Part::Name, Part::Zero],
        Row::Reference => &[Part::Name, Part::Number],
        Row::ContentName => &[Part::Name],
        Row::Position => &[Part::Integer, Part::Integer],
        Row::NextScene => &[Part::Name, Part::Integer],
        Row::ListItem => &[Part::Object],
        Row::Member | Row::Action(_) => &[],
    }
}

/// The part of a row that stands behind so many; none where the row ends.
pub(crate) fn part_at(row: Row, before: usize) -> Option<Part>
    ensures { result ≡ part_at row before }
{
    match row {
        Row::Member => Some(member_part(before)),
        Row::Action(action) => action_part(action, before),
        _ => parts_of(row).get(before).copied(),
    }
}

fn member_part(before: usize) -> Part
    ensures { result ≡ member_part before }
{
    if before == 0 {
        Part::Object
    } else {
        Part::Slot
    }
}

fn action_part(action: ActionName, before: usize) -> Option<Part>
    ensures { result ≡ action_part action before }
{
    if before == 0 {
        return Some(Part::Target);
    }
    action.needs().get(before - 1).copied().map(Part::Need)
}
