//! How a misread text is mended. What is told has no full stop.
ghost use Rattle.std.specs.Prelude.{◌≡◌, ◌++◌, OnOk};
ghost use Rattle.mh_misread.specs.Mending.{holds_mend, name_mend, key_mend, fields_mend, events_mend, plain_mend, is_event_shape, is_event_part, event_mend, wanted_mend, unknown_mend, open_mend, is_in_reference, row_for, closing, closing_mend, not_taken_mend, lacks_mend, unwanted_mend, range_mend, mend};

use crate::found::{put_marked, put_written};
use crate::goal::Goal;
use crate::limits::limits_of;
use crate::misread::Misread;
use crate::name::Name;
use crate::nearest::alike::{name_found, put_alike_for};
use crate::part::{Part, Row, part_at};
use crate::phrases::{
    BARE_NAME_MEND, BEHIND_MEND, BEHIND_STRING_MEND, END_STRING_BEFORE, ONE_OF_EVENTS,
    ONE_OF_FIELDS, TAKE_AWAY_OR, TIGHT_MEND, TWICE_MEND, WHERE_IT_ENDS, WRITE_ITS,
};
use crate::slip::mend::put_slip_mend;
use crate::span::behind;
use crate::wanted::{
    put_classes_taking, put_event_words, put_field_row, put_fields_of, put_row_written, put_wanted,
};
use crate::words::limits_words;
use mh_group::{Attribute, Class, Need, Shape};
use mh_model::Key;
use mh_told::text::Text;
use std::alloc::AllocError;

/// Puts which name is written.
#[tactic(auto, unfolding(crate::specs::Mending::name_mend))]
fn put_name_mend(text: &mut Text, name: Name) -> Result<(), AllocError>
    ensures { OnOk result (text.new ≡ text.old ++ name_mend name) }
{
    text.put(b"write ")?;
    put_written(text, name)
}

/// Puts where the string ends that holds the keyword.
#[tactic(auto, unfolding(crate::specs::Mending::holds_mend))]
fn put_holds_mend(text: &mut Text, name: Name) -> Result<(), AllocError>
    ensures { OnOk result (text.new ≡ text.old ++ holds_mend name) }
{
    text.put(END_STRING_BEFORE)?;
    put_written(text, name)
}

/// Puts the number of the key.
#[tactic(auto, unfolding(crate::specs::Mending::key_mend))]
fn put_key_mend(text: &mut Text, key: Key) -> Result<(), AllocError>
    ensures { OnOk result (text.new ≡ text.old ++ key_mend key) }
{
    text.put(b"write `")?;
    text.put_number(u64::from(key.number().unsigned_abs()))?;
    text.put(b"`")
}

/// Puts the fields of the class.
#[tactic(auto, unfolding(crate::specs::Mending::fields_mend))]
fn put_fields_mend(text: &mut Text, class: Class) -> Result<(), AllocError>
    ensures { OnOk result (text.new ≡ text.old ++ fields_mend class) }
{
    text.put(ONE_OF_FIELDS)?;
    put_fields_of(text, class)
}

/// Puts the types of events.
#[tactic(auto, unfolding(crate::specs::Mending::events_mend))]
fn put_events_mend(text: &mut Text) -> Result<(), AllocError>
    ensures { OnOk result (text.new ≡ text.old ++ events_mend) }
{
    text.put(ONE_OF_EVENTS)?;
    put_event_words(text)
}

/// Puts what is written.
#[tactic(auto, unfolding(crate::specs::Mending::plain_mend))]
fn put_plain_mend(text: &mut Text, goal: Goal) -> Result<(), AllocError>
    ensures { OnOk result (text.new ≡ text.old ++ plain_mend goal) }
{
    text.put(b"write ")?;
    put_wanted(text, goal)
}

fn is_event_shape(shape: Shape) -> bool
    ensures { result ≡ is_event_shape shape }
{
    matches!(shape, Shape::Event)
}

fn is_event_part(part: Option<Part>) -> bool
    ensures { result ≡ is_event_part part }
{
    matches!(part, Some(Part::Need(Need::Event)))
}

fn put_event_mend(text: &mut Text, is_event: bool, goal: Goal) -> Result<(), AllocError>
    ensures { OnOk result (text.new ≡ text.old ++ event_mend is_event goal) }
{
    if is_event {
        put_events_mend(text)
    } else {
        put_plain_mend(text, goal)
    }
}

/// Puts what may be written where this is wanted; of some tables all their words.
fn put_wanted_mend(text: &mut Text, goal: Goal) -> Result<(), AllocError>
    ensures { OnOk result (text.new ≡ text.old ++ wanted_mend goal) }
{
    match goal {
        Goal::Fields(class) => put_fields_mend(text, class),
        Goal::Value(class, attribute) => {
            put_event_mend(text, is_event_shape(class.shape(attribute)), goal)
        }
        Goal::Part(row, before) => put_event_mend(text, is_event_part(part_at(row, before)), goal),
        _ => put_plain_mend(text, goal),
    }
}

fn put_unknown_mend(
    text: &mut Text,
    file: &[u8],
    offset: usize,
    goal: Goal,
    near: Option<Name>,
) -> Result<(), AllocError>
    ensures { OnOk result (text.new ≡ text.old ++ unknown_mend file.now offset goal near) }
{
    match near {
        Some(name) => put_name_mend(text, name),
        None => put_open_mend(text, file, offset, goal),
    }
}

/// Puts what may be written, and which actions have a name that begins alike.
#[tactic(auto, unfolding(crate::specs::Mending::open_mend))]
fn put_open_mend(text: &mut Text, file: &[u8], offset: usize, goal: Goal) -> Result<(), AllocError>
    ensures { OnOk result (text.new ≡ text.old ++ open_mend file.now offset goal) }
{
    put_wanted_mend(text, goal)?;
    put_alike_for(text, goal, name_found(file, offset))
}

fn is_in_reference(goal: Goal) -> bool
    ensures { result ≡ is_in_reference goal }
{
    matches!(goal, Goal::Part(Row::Reference, _))
}

/// The action or the field that is being read, but within a reference.
fn row_for(goal: Goal, row: Option<Goal>) -> Option<Goal>
    ensures { result ≡ row_for goal row }
{
    if is_in_reference(goal) { None } else { row }
}

/// The byte that closes what the first of these opens.
fn closing(bytes: &[u8]) -> &'static [u8]
    ensures { result.now ≡ closing bytes.now }
{
    match bytes {
        [b'{', ..] => b"}",
        _ => b")",
    }
}

/// Puts how what stands open is closed.
#[tactic(auto, unfolding(crate::specs::Mending::closing_mend))]
fn put_closing_mend(text: &mut Text, file: &[u8], start: usize) -> Result<(), AllocError>
    ensures { OnOk result (text.new ≡ text.old ++ closing_mend file.now start) }
{
    text.put(WRITE_ITS)?;
    put_marked(text, closing(behind(file, start)))?;
    text.put(WHERE_IT_ENDS)
}

/// Puts which classes take the field.
#[tactic(auto, unfolding(crate::specs::Mending::not_taken_mend))]
fn put_not_taken_mend(text: &mut Text, attribute: Attribute) -> Result<(), AllocError>
    ensures { OnOk result (text.new ≡ text.old ++ not_taken_mend attribute) }
{
    text.put(TAKE_AWAY_OR)?;
    put_classes_taking(text, attribute)
}

/// Puts the field that lacks.
#[tactic(auto, unfolding(crate::specs::Mending::lacks_mend))]
fn put_lacks_mend(text: &mut Text, class: Class, attribute: Attribute) -> Result<(), AllocError>
    ensures { OnOk result (text.new ≡ text.old ++ lacks_mend class attribute) }
{
    text.put(b"write ")?;
    put_field_row(text, class, attribute)
}

/// Puts all that is being read.
#[tactic(auto, unfolding(crate::specs::Mending::unwanted_mend))]
fn put_unwanted_mend(text: &mut Text, goal: Goal, row: Option<Goal>) -> Result<(), AllocError>
    ensures { OnOk result (text.new ≡ text.old ++ unwanted_mend goal row) }
{
    text.put(b"write ")?;
    put_row_written(text, goal, row_for(goal, row))
}

/// Puts between which limits a value lies.
#[tactic(auto, unfolding(crate::specs::Mending::range_mend))]
fn put_range_mend(text: &mut Text, goal: Goal) -> Result<(), AllocError>
    ensures { OnOk result (text.new ≡ text.old ++ range_mend goal) }
{
    text.put(b"write ")?;
    text.put(limits_words(limits_of(goal)))
}

/// Puts what is to be written.
#[tactic(auto, unfolding(crate::specs::Mending::mend))]
pub fn put_mend(
    text: &mut Text,
    file: &[u8],
    offset: usize,
    misread: Misread,
) -> Result<(), AllocError>
    ensures { OnOk result (text.new ≡ text.old ++ mend file.now offset misread) }
{
    match misread {
        Misread::Slip(slip) => put_slip_mend(text, file, offset, slip),
        Misread::NoColon(name) => put_name_mend(text, name),
        Misread::Unknown(goal, near) => put_unknown_mend(text, file, offset, goal, near),
        Misread::BehindString => text.put(BEHIND_STRING_MEND),
        Misread::HoldsKeyword(name) => put_holds_mend(text, name),
        Misread::KeyName(key) => put_key_mend(text, key),
        Misread::Tight => text.put(TIGHT_MEND),
        Misread::Behind => text.put(BEHIND_MEND),
        Misread::TextEnds(start) | Misread::Unclosed(start) => put_closing_mend(text, file, start),
        Misread::NotTaken(_, attribute) => put_not_taken_mend(text, attribute),
        Misread::Twice(_, _) => text.put(TWICE_MEND),
        Misread::Lacks(class, attribute) => put_lacks_mend(text, class, attribute),
        Misread::BareName => text.put(BARE_NAME_MEND),
        Misread::Unwanted(goal, row) => put_unwanted_mend(text, goal, row),
        Misread::OutOfRange(goal) => put_range_mend(text, goal),
    }
}
