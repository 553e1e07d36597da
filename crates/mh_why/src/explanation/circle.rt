//! What is told of an effect of a circle: its action that puts the next effect to work, and how it does.
ghost use Rattle.std.specs.Prelude.{◌≡◌, ◌++◌, [], OnOk, map};
ghost use Rattle.std.specs.Fmt.{signed_decimal};
ghost use Rattle.mh_why.specs.Advice.{cells, event_data, events};
ghost use Rattle.mh_why.specs.Circles.{arrow_sentence, arrow_text, at_words, before_data, data_behind, data_text, event_named, event_row, event_words, how_words, next_in, octet_words, truth_words, waited_words};

use crate::explanation::advice::{cell, row_with};
use crate::explanation::place::put_action;
use crate::files::shown::Source;
use crate::wrap::put_paragraph;
use mh_base::{ObjRef, Value};
use mh_group::event_word;
use mh_layers::{Arrow, By};
use mh_model::Event;
use mh_told::text::Text;
use std::alloc::{AllocError, Global};

// What stands before and between the words on an action that puts an effect to work.
pub const PUTS_TO_WORK: &[u8] = b", puts the next effect to work: ";

pub const MAKES_EVENT: &[u8] = b"it makes the event ";

pub const FOR_WHICH: &[u8] = b", for which ";

pub const CALLS_SLOT: &[u8] = b"it calls an action slot of ";

pub const ENTERS: &[u8] = b"it enters ";

pub const LEAVES: &[u8] = b"it leaves ";

pub const STARTS_UP: &[u8] = b", whose OnStartUp is that effect";

pub const CLOSES_DOWN: &[u8] = b", whose OnCloseDown is that effect";

/// What stands before and behind the object of an event, by the type of the event.
pub static EVENTS: [[&[u8]; 3]; 11] = [
    [b"IsAvailable", b"it makes ", b" available"],
    [b"IsDeleted", b"it takes ", b" away"],
    [b"IsRunning", b"it lets ", b" run"],
    [b"IsStopped", b"it stops ", b""],
    [b"TokenMovedFrom", b"it moves the token of ", b""],
    [b"TokenMovedTo", b"it moves the token of ", b""],
    [b"HighlightOn", b"it highlights ", b""],
    [b"HighlightOff", b"it takes the highlight from ", b""],
    [b"IsSelected", b"it selects ", b""],
    [b"IsDeselected", b"it deselects ", b""],
    [b"TestEvent", b"it tests ", b""],
];

/// What stands before the data of an event, by the type of the event.
pub static EVENT_DATA: [[&[u8]; 3]; 3] = [
    [b"TokenMovedFrom", b" away from slot ", b""],
    [b"TokenMovedTo", b" to slot ", b""],
    [b"TestEvent", b", and the answer is ", b""],
];

#[tactic(auto, unfolding(crate::specs::Advice::events))]
fn events() -> &'static [[&'static [u8]; 3]]
    ensures { map cells result.now ≡ events }
{
    &EVENTS
}

#[tactic(auto, unfolding(crate::specs::Advice::event_data))]
fn event_data() -> &'static [[&'static [u8]; 3]]
    ensures { map cells result.now ≡ event_data }
{
    &EVENT_DATA
}

/// The arrow behind this one, in front of these: the last leads to the first of all.
pub(crate) fn next_in<'g>(arrow: &'g Arrow, more: &'g [Arrow], all: &'g [Arrow]) -> &'g Arrow
    ensures { result.now ≡ next_in arrow.now more.now all.now }
{
    match more {
        [next, ..] => next,
        [] => first_or(arrow, all),
    }
}

fn first_or<'g>(arrow: &'g Arrow, all: &'g [Arrow]) -> &'g Arrow
    ensures { result.now ≡ next_in arrow.now [] all.now }
{
    match all {
        [first, ..] => first,
        [] => arrow,
    }
}

/// Puts the action of an effect that puts the effect of the other arrow to work.
#[tactic(auto, unfolding(crate::specs::Circles::arrow_text))]
pub(crate) fn put_arrow(
    alloc: Global,
    text: &mut Text,
    sources: &[Source<'_>],
    arrow: &Arrow,
    next: &Arrow,
) -> Result<(), AllocError>
    ensures { OnOk result (text.new ≡ text.old ++ arrow_text sources.now arrow.now next.now) }
{
    let mut sentence = Text::new(alloc);
    put_sentence(alloc, &mut sentence, arrow, &next.cause.at)?;
    put_paragraph(alloc, text, sentence.as_slice())?;
    let at = &arrow.cause.at;
    put_action(
        alloc,
        text,
        sources,
        at.group.as_bytes(),
        at.number,
        arrow.index,
    )
}

#[tactic(auto, unfolding(crate::specs::Circles::arrow_sentence))]
fn put_sentence(
    alloc: Global,
    text: &mut Text,
    arrow: &Arrow,
    next: &ObjRef,
) -> Result<(), AllocError>
    ensures { OnOk result (text.new ≡ text.old ++ arrow_sentence arrow.now next.now) }
{
    text.put(b"  ")?;
    text.put(arrow.action.word())?;
    text.put(b", action ")?;
    text.put_number(arrow.index as u64)?;
    text.put(b" of ")?;
    put_at(text, &arrow.cause.at)?;
    text.put(PUTS_TO_WORK)?;
    put_how(alloc, text, &arrow.by, next)?;
    text.put(b".")
}

/// Puts an object by its number and its group.
#[tactic(auto, unfolding(crate::specs::Circles::at_words))]
pub fn put_at(text: &mut Text, at: &ObjRef) -> Result<(), AllocError>
    ensures { OnOk result (text.new ≡ text.old ++ at_words at.now) }
{
    text.put(b"object ")?;
    text.put_number(u64::from(at.number))?;
    text.put(b" of ")?;
    text.put(at.group.as_bytes())
}

/// Puts how the effect of this object is put to work.
fn put_how(alloc: Global, text: &mut Text, by: &By, next: &ObjRef) -> Result<(), AllocError>
    ensures { OnOk result (text.new ≡ text.old ++ how_words by.now next.now) }
{
    match by {
        By::Event(event) => put_waited(alloc, text, event, next),
        By::Slot(_) => put_slot(text, next),
        By::Entered => put_group(text, ENTERS, next, STARTS_UP),
        By::Left => put_group(text, LEAVES, next, CLOSES_DOWN),
    }
}

fn put_slot(text: &mut Text, next: &ObjRef) -> Result<(), AllocError>
    ensures { OnOk result (text.new ≡ text.old ++ (CALLS_SLOT.now ++ at_words next.now)) }
{
    text.put(CALLS_SLOT)?;
    put_at(text, next)
}

/// Puts a group that is entered or left, between these words.
fn put_group(text: &mut Text, front: &[u8], next: &ObjRef, end: &[u8]) -> Result<(), AllocError>
    ensures { OnOk result (text.new ≡ text.old ++ (front.now ++ next.now.group ++ end.now)) }
{
    text.put(front)?;
    text.put(next.group.as_bytes())?;
    text.put(end)
}

/// Puts an event for which the object waits.
#[tactic(auto, unfolding(crate::specs::Circles::waited_words))]
fn put_waited(
    alloc: Global,
    text: &mut Text,
    event: &Event,
    next: &ObjRef,
) -> Result<(), AllocError>
    ensures { OnOk result (text.new ≡ text.old ++ waited_words event.now next.now) }
{
    put_event(text, event)?;
    put_data(alloc, text, event)?;
    text.put(FOR_WHICH)?;
    put_at(text, next)?;
    text.put(b" waits")
}

/// Puts what makes an event of this type come from its object.
#[tactic(auto, unfolding(crate::specs::Circles::event_words))]
fn put_event(text: &mut Text, event: &Event) -> Result<(), AllocError>
    ensures { OnOk result (text.new ≡ text.old ++ event_words event.now) }
{
    match row_with(events(), event_word(event.kind)) {
        Some(row) => put_row(text, row, &event.source),
        None => put_named(text, event),
    }
}

fn put_row(text: &mut Text, row: &[&[u8]; 3], at: &ObjRef) -> Result<(), AllocError>
    ensures { OnOk result (text.new ≡ text.old ++ event_row at.now (cells row.now)) }
{
    text.put(cell(row, 1))?;
    put_at(text, at)?;
    text.put(cell(row, 2))
}

#[tactic(auto, unfolding(crate::specs::Circles::event_named))]
fn put_named(text: &mut Text, event: &Event) -> Result<(), AllocError>
    ensures { OnOk result (text.new ≡ text.old ++ event_named event.now) }
{
    text.put(MAKES_EVENT)?;
    text.put(event_word(event.kind))?;
    text.put(b" of ")?;
    put_at(text, &event.source)
}

/// Puts the data of an event, if it has some.
fn put_data(alloc: Global, text: &mut Text, event: &Event) -> Result<(), AllocError>
    ensures { OnOk result (text.new ≡ text.old ++ data_behind event.now.kind event.now.data) }
{
    match &event.data {
        Some(value) => {
            put_before_data(text, event_word(event.kind))?;
            put_value(alloc, text, value)
        }
        None => Ok(()),
    }
}

fn put_before_data(text: &mut Text, word: &[u8]) -> Result<(), AllocError>
    ensures { OnOk result (text.new ≡ text.old ++ before_data word.now) }
{
    match row_with(event_data(), word) {
        Some(row) => text.put(cell(row, 1)),
        None => text.put(b" with "),
    }
}

/// Puts a value that an event has as its data.
fn put_value(alloc: Global, text: &mut Text, value: &Value) -> Result<(), AllocError>
    ensures { OnOk result (text.new ≡ text.old ++ data_text value.now) }
{
    match value {
        Value::Bool(truth) => put_truth(text, *truth),
        Value::Int(number) => put_integer(alloc, text, *number),
        Value::Octets(octets) => put_octets(text, octets.as_slice()),
        Value::Object(at) => put_at(text, at),
        Value::Content(name) => text.put(name.as_bytes()),
    }
}

#[tactic(auto, unfolding(crate::specs::Circles::truth_words))]
fn put_truth(text: &mut Text, truth: bool) -> Result<(), AllocError>
    ensures { OnOk result (text.new ≡ text.old ++ truth_words truth) }
{
    if truth {
        text.put(b"true")
    } else {
        text.put(b"false")
    }
}

fn put_integer(alloc: Global, text: &mut Text, number: i32) -> Result<(), AllocError>
    ensures { OnOk result (text.new ≡ text.old ++ signed_decimal number) }
{
    let digits = format!(in alloc; "{number}")?;
    text.put(digits.as_bytes())
}

#[tactic(auto, unfolding(crate::specs::Circles::octet_words))]
fn put_octets(text: &mut Text, octets: &[u8]) -> Result<(), AllocError>
    ensures { OnOk result (text.new ≡ text.old ++ octet_words octets.now) }
{
    text.put(b"'")?;
    text.put(octets)?;
    text.put(b"'")
}
