//! `Mark`: where an action or the list of members of an object stands in a text; and which of the marks has
//! the number by which a report names an action.

pub(crate) mod marking;

ghost use Rattle.std.specs.Prelude.{◌≡◌, ◌<◌, length, slice_get};
ghost use Rattle.std.specs.List.{filter, find};
ghost use Rattle.mh_text.specs.Marks.{is_in, is_list_of, is_action_of, actions_of, mark_of};

use mh_group::{ActionName, Attribute};

/// Where an action stands in a text, or the list of members of an object.
#[derive(Clone, Copy)]
pub struct Mark {
    /// The object's number; 0 for the group itself.
    pub object: u32,
    /// The field that it stands in.
    pub field: Attribute,
    /// None for a list of members.
    pub action: Option<ActionName>,
    /// The offset of its keyword, and how long that is, in bytes.
    pub start: usize,
    pub length: usize,
}

/// When the actions of a field are counted, whatever stands first in the text.
#[derive(Clone, Copy)]
enum Turn {
    StartUp,
    CloseDown,
    Last,
}

/// The mark of the action with this number of the object, from 1 on; with 0 that of its list of members.
pub fn mark_of(marks: &[Mark], object: u32, index: usize) -> Option<Mark>
    ensures { result ≡ mark_of marks.now object index }
{
    match index.checked_sub(1) {
        Some(at) => action_of(marks, object, at),
        None => list_of(marks, object),
    }
}

/// The first list of members of the object.
fn list_of(marks: &[Mark], object: u32) -> Option<Mark>
    ensures { result ≡ find (is_list_of object) marks.now }
{
    marks.iter().copied().find(|mark| is_list_of(mark, object))
}

fn is_list_of(mark: &Mark, object: u32) -> bool
    ensures { result ≡ is_list_of object mark.now }
{
    mark.object == object && mark.action.is_none()
}

/// The action of the object before which so many are counted.
fn action_of(marks: &[Mark], object: u32, before: usize) -> Option<Mark>
    ensures { result ≡ slice_get (actions_of object marks.now) before }
{
    let starting = count_of(marks, object, Turn::StartUp);
    if before < starting {
        return action_in(marks, object, Turn::StartUp, before);
    }
    let before = before - starting;
    let closing = count_of(marks, object, Turn::CloseDown);
    if before < closing {
        return action_in(marks, object, Turn::CloseDown, before);
    }
    action_in(marks, object, Turn::Last, before - closing)
}

/// How many actions of the object have this turn.
fn count_of(marks: &[Mark], object: u32, turn: Turn) -> usize
    ensures { result ≡ length (filter (is_action_of object turn) marks.now) }
{
    marks
        .iter()
        .filter(|mark| is_action_of(mark, object, turn))
        .count()
}

/// The action of the object in this turn before which so many stand.
fn action_in(marks: &[Mark], object: u32, turn: Turn, before: usize) -> Option<Mark>
    ensures { result ≡ slice_get (filter (is_action_of object turn) marks.now) before }
{
    let mut left = before;
    for mark in marks {
        if !is_action_of(mark, object, turn) {
            continue;
        }
        if left == 0 {
            return Some(*mark);
        }
        left -= 1;
    }
    None
}

fn is_action_of(mark: &Mark, object: u32, turn: Turn) -> bool
    ensures { result ≡ is_action_of object turn mark.now }
{
    mark.object == object && mark.action.is_some() && is_in(turn, mark.field)
}

/// Whether the actions of the field have this turn.
fn is_in(turn: Turn, field: Attribute) -> bool
    ensures { result ≡ is_in turn field }
{
    match field {
        Attribute::OnStartUp => matches!(turn, Turn::StartUp),
        Attribute::OnCloseDown => matches!(turn, Turn::CloseDown),
        _ => matches!(turn, Turn::Last),
    }
}
