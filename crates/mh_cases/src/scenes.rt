//! Scenes with an ingredient of each class, each with each attribute that the tables give it, and with
//! each action: written as text by the tables, with other values in each round.
use mh_group::action_name::ALL as ACTIONS;
use mh_group::attribute::ALL as ATTRIBUTES;
use mh_group::class::ALL as CLASSES;
use mh_group::{ActionName, Attribute, Class, Need, Shape};
use std::alloc::{AllocError, Global};

/// How many rounds there are: a value is of one of five kinds, and every other round is of another group.
pub const ROUNDS: usize = 6;

fn put(text: &mut Vec<u8>, word: &[u8]) -> Result<(), AllocError> {
    text.extend_from_slice(word)?;
    text.push(b' ')?;
    Ok(())
}

/// A reference: in rounds of an odd number one of another group.
fn reference(round: usize) -> &'static [u8] {
    if round % 2 == 0 {
        b"2147483647"
    } else {
        br#"( "~/other" 2147483647 )"#
    }
}

/// The value, or in the rounds 1 and 2 of each four one that a variable holds.
fn put_generic(text: &mut Vec<u8>, round: usize, value: &[u8]) -> Result<(), AllocError> {
    match round % 4 {
        1 | 2 => {
            put(text, b":IndirectRef")?;
            put(text, reference(round))
        }
        _ => put(text, value),
    }
}

const OCTETS: &[u8] = b"'=00=FF4=80'";

/// A value of each kind in turn.
fn put_typed(text: &mut Vec<u8>, round: usize) -> Result<(), AllocError> {
    let (kind, value): (&[u8], &[u8]) = match round % 5 {
        0 => (b":GBoolean", b"false"),
        1 => (b":GInteger", b"-2147483648"),
        2 => (b":GOctetString", OCTETS),
        3 => (b":GObjectRef", reference(round)),
        _ => (b":GContentRef", br#":ContentRef ( "~/text" )"#),
    };
    put(text, kind)?;
    put_generic(text, round, value)
}

fn put_arguments(text: &mut Vec<u8>) -> Result<(), AllocError> {
    put(text, b"(")?;
    for round in 0..20 {
        put_typed(text, round)?;
    }
    put(text, b")")
}

fn content(round: usize) -> &'static [u8] {
    if round % 2 == 0 {
        OCTETS
    } else {
        br#":ContentRef ( "~/picture" )"#
    }
}

fn event_data(round: usize) -> &'static [u8] {
    if round % 2 == 0 { b"true" } else { b"-129" }
}

fn put_parameter(text: &mut Vec<u8>, round: usize, need: Need) -> Result<(), AllocError> {
    match need {
        Need::Bool => put_generic(text, round, b"true"),
        Need::Int => put_generic(text, round, b"128"),
        Need::Octets => put_generic(text, round, OCTETS),
        Need::Ref => put_generic(text, round, reference(round)),
        Need::Content => put_generic(text, round, content(round)),
        Need::Data => put_generic(text, round, event_data(round)),
        Need::Event => put(text, b"EngineEvent"),
        Need::Receiver(_) => put(text, reference(round)),
        Need::Typed => put_typed(text, round),
        Need::Arguments => put_arguments(text),
    }
}

/// The action with so many parameters.
fn put_action(
    text: &mut Vec<u8>,
    round: usize,
    name: ActionName,
    count: usize,
) -> Result<(), AllocError> {
    text.push(b':')?;
    put(text, name.word())?;
    put(text, b"(")?;
    put_generic(text, round, reference(round))?;
    for need in name.needs().iter().take(count) {
        put_parameter(text, round, *need)?;
    }
    put(text, b")")
}

/// Each action, with all its parameters and without those that may be missing.
fn put_effect(text: &mut Vec<u8>, round: usize) -> Result<(), AllocError> {
    put(text, b"(")?;
    for name in &ACTIONS {
        let most = name.needs().len();
        for missing in 0..name.optional().saturating_add(1) {
            put_action(text, round, *name, most.saturating_sub(missing))?;
        }
    }
    put(text, b")")
}

/// Two members, the first with so many slots.
fn put_members(text: &mut Vec<u8>, round: usize, slots: u32) -> Result<(), AllocError> {
    put(text, b"( (")?;
    put(text, reference(round))?;
    for _ in 0..slots {
        put_effect(text, round)?;
    }
    put(text, b") (")?;
    put(text, reference(1 - round % 2))?;
    put(text, b") )")
}

/// A value of this shape that is written in one piece.
fn plain(round: usize, shape: Shape) -> &'static [u8] {
    let is_even = round % 2 == 0;
    match shape {
        Shape::Bool if is_even => b"true",
        Shape::Bool => b"false",
        Shape::Int => b"-32769",
        Shape::Natural => b"0",
        Shape::Length => b"255",
        Shape::Pair => b"-1 1",
        Shape::Size => b"0 576",
        Shape::Screen => b"720 576",
        Shape::Ref => reference(round),
        Shape::Event => b"IsAvailable",
        Shape::Data if is_even => b"false",
        Shape::Data => b"100",
        Shape::Octets | Shape::Colour => OCTETS,
        Shape::Content if is_even => OCTETS,
        Shape::Content | Shape::ContentRef => br#":ContentRef ( "~/file" )"#,
        Shape::Justification if round % 3 == 0 => b"start",
        Shape::Justification if round % 3 == 1 => b"end",
        Shape::Justification => b"centre",
        Shape::MovementTable => b"( ( 1 -1 2147483647 ) ( ) )",
        Shape::Positions => b"( ( -1 300 ) ( 0 0 ) )",
        Shape::NextScenes => br#"( ( "~/next" 255 ) )"#,
        Shape::Items | Shape::Effect | Shape::Members | Shape::ListItems => b"",
    }
}

fn put_setting(text: &mut Vec<u8>, round: usize, shape: Shape) -> Result<(), AllocError> {
    match shape {
        Shape::Effect => put_effect(text, round),
        Shape::Members => put_members(text, round, 2),
        Shape::ListItems => put_members(text, round, 0),
        _ => put(text, plain(round, shape)),
    }
}

/// Each attribute that the class takes, without the items.
fn put_fields(text: &mut Vec<u8>, round: usize, class: Class) -> Result<(), AllocError> {
    for attribute in &ATTRIBUTES {
        if class.takes(*attribute) && *attribute != Attribute::Items {
            text.push(b':')?;
            put(text, attribute.word())?;
            put_setting(text, round, class.shape(*attribute))?;
        }
    }
    Ok(())
}

fn put_ingredient(text: &mut Vec<u8>, round: usize, class: Class) -> Result<(), AllocError> {
    put(text, b"{")?;
    text.push(b':')?;
    put(text, class.word())?;
    put(text, b"1")?;
    put_fields(text, round, class)?;
    put(text, b"}")
}

/// A scene with an ingredient of each class, all written with each attribute that they take.
fn put_scene(text: &mut Vec<u8>, round: usize) -> Result<(), AllocError> {
    put(text, br#"{ :Scene ( "~/scene" 0 )"#)?;
    put_fields(text, round, Class::Scene)?;
    put(text, b":Items (")?;
    for class in &CLASSES {
        if !class.is_group() {
            put_ingredient(text, round, *class)?;
        }
    }
    put(text, b") }")
}

/// The scene of a round.
pub fn scene(alloc: Global, round: usize) -> Option<Vec<u8>> {
    let mut text = Vec::new(alloc);
    let put = put_scene(&mut text, round).ok();
    put.and(Some(text))
}
