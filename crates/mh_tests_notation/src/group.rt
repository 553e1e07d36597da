//! What the tables allow: which written objects make a group, and why others do not.
use crate::cases::all_hold;
use crate::plain::{ingredient, written};
use mh_cases::{Question, number, said, word};
use mh_group::{Class, Group, Written};
use std::alloc::Global;

/// Why what is written makes no group, if it makes none.
fn judged(alloc: Global, written: Written) -> Option<Vec<u8>> {
    let why = match Group::new(written) {
        Ok(_) => None,
        Err(misfit) => Some(misfit.why),
    };
    match why {
        Some(why) => Some(format!(in alloc; "{why:?}").ok()?.into_bytes()),
        None => said(alloc, b"fits"),
    }
}

/// The class of what is asked.
fn class_of(asked: &str) -> Option<Class> {
    Class::of_word(word(asked, 0).as_bytes())
}

/// What stands in front of the fields of what is asked, and its fields.
fn parts(asked: &str) -> (&str, &str) {
    asked.split_once("; ").unwrap_or((asked, ""))
}

/// The ingredient of an application.
struct Item;

impl Question for Item {
    fn answer(alloc: Global, asked: &str, _: &[u8]) -> Option<Vec<u8>> {
        let (front, fields) = parts(asked);
        let item = ingredient(alloc, class_of(front)?, number(front, 1)?, fields)?;
        judged(alloc, written(alloc, Class::Application, "", item)?)
    }
}

/// Ingredients: a class, a number and fields.
static INGREDIENTS: &str = r#"
Scene 1 => NotAnIngredient;; Rectangle 1; OrigBoxSize pair 0 0 => fits;; Rectangle 1 => Missing;;
Rectangle 1; OrigBoxSize pair 0 0; OrigBoxSize pair 0 0 => Order;;
Rectangle 1; OrigBoxSize pair 0 0; Shared bool true => Order;;
Rectangle 1; InitiallyActive bool false; Shared bool true; OrigBoxSize pair 0 0 => fits;;
Rectangle 1; OrigValue int 1; OrigBoxSize pair 0 0 => NotTaken;;
Rectangle 1; Items int 1; OrigBoxSize pair 0 0 => NotTaken;;
Rectangle 1; OrigBoxSize pair -1 0 => Value;; Rectangle 1; OrigBoxSize pair 0 -1 => Value;;
Rectangle 1; OrigBoxSize int 1 => Value;;
Rectangle 1; OrigBoxSize pair 0 0; OrigPosition pair -1 -1 => fits;;
Rectangle 1; OrigBoxSize pair 0 0; OrigLineWidth int 0 => fits;;
Rectangle 1; OrigBoxSize pair 0 0; OrigLineWidth int -1 => Value;;
Rectangle 1; OrigBoxSize pair 0 0; OrigRefLineColour colour; OrigRefFillColour colour => fits;;
Rectangle 1; OrigBoxSize pair 0 0; OrigRefLineColour octets 4 => Value;;
Rectangle 1; OrigBoxSize pair 0 0; OrigRefFillColour included 4 => Value;;
IntegerVar 1; OrigValue int -2147483648 => fits;; IntegerVar 1 => Missing;;
IntegerVar 1; OrigValue bool true => Value;;
Link 1; EventSource source; EventType event; LinkEffect action TransitionTo 0 0 => fits;;
Link 1; EventSource source; EventType event; EventData number 1; LinkEffect action TransitionTo 0 0 => fits;;
Link 1; EventSource source; EventType event; EventData truth true; LinkEffect action TransitionTo 0 0 => fits;;
Link 1; EventSource source; EventType event; EventData int 1; LinkEffect action TransitionTo 0 0 => Value;;
Link 1; EventSource source; EventType event; EventData octets 1; LinkEffect action TransitionTo 0 0 => Value;;
Link 1; EventType event; LinkEffect action TransitionTo 0 0 => Missing;;
Link 1; EventSource source; LinkEffect action TransitionTo 0 0 => Missing;;
Link 1; EventSource source; EventType event => Missing;;
EntryField 1; OrigBoxSize pair 0 0; MaxLength int 255 => fits;;
EntryField 1; OrigBoxSize pair 0 0; MaxLength int 1 => fits;;
EntryField 1; OrigBoxSize pair 0 0; MaxLength int 256 => Value;;
EntryField 1; OrigBoxSize pair 0 0; MaxLength int 0 => Value;;
ListGroup 1; TokenGroupItems members 256 0; Positions positions => fits;;
ListGroup 1; TokenGroupItems members 257 0; Positions positions => Value;;
ListGroup 1; TokenGroupItems members 1 1; Positions positions => Value;; ListGroup 1 => Missing;;
TokenGroup 1; TokenGroupItems members 257 2 => fits;;
Text 1; OrigBoxSize pair 0 0; OrigContent included 0 => fits;;
Text 1; OrigBoxSize pair 0 0; OrigContent referenced => fits;;
Text 1; OrigBoxSize pair 0 0; OrigContent octets 4 => Value;;
Text 1; OrigBoxSize pair 0 0; OrigContent name => Value;; OStringVar 1; OrigValue octets 4 => fits;;
OStringVar 1; OrigValue colour => Value;; OStringVar 1; OrigValue octets 3 => fits;;
OStringVar 1; OrigValue name => Value;; ContentRefVar 1; OrigValue name => fits;;
ObjectRefVar 1; OrigValue source => fits;; BooleanVar 1; OrigValue bool true => fits;;
Rectangle 2147483647; OrigBoxSize pair 0 0 => fits;; Rectangle 0; OrigBoxSize pair 0 0 => Unnumbered"#;

#[test]
fn takes_what_the_tables_allow(rt: HostRuntime) {
    all_hold::<Item>(&rt, rt.alloc(), INGREDIENTS);
}

/// Actions of a link: how many integers they have, and how many values with their kind behind them.
static EFFECTS: &str = r#"
Link 1; EventSource source; EventType event; LinkEffect action SetPosition 2 0 => fits;;
Link 1; EventSource source; EventType event; LinkEffect action SetPosition 1 0 => Value;;
Link 1; EventSource source; EventType event; LinkEffect action SetPosition 3 0 => Value;;
Link 1; EventSource source; EventType event; LinkEffect action SetVariable 0 1 => fits;;
Link 1; EventSource source; EventType event; LinkEffect action SetVariable 1 0 => Value;;
Link 1; EventSource source; EventType event; LinkEffect action SetTimer 1 0 => fits;;
Link 1; EventSource source; EventType event; LinkEffect action SetTimer 0 0 => Value"#;

#[test]
fn takes_actions_with_their_parameters(rt: HostRuntime) {
    all_hold::<Item>(&rt, rt.alloc(), EFFECTS);
}

/// A group with one rectangle.
struct Whole;

impl Question for Whole {
    fn answer(alloc: Global, asked: &str, _: &[u8]) -> Option<Vec<u8>> {
        let (front, fields) = parts(asked);
        let (class, number) = class_of(front).zip(number(front, 1))?;
        let item = ingredient(alloc, Class::Rectangle, number, "OrigBoxSize pair 0 0")?;
        judged(alloc, written(alloc, class, fields, item)?)
    }
}

/// Groups: their class, the number of the rectangle, and the fields.
static GROUPS: &str = r#"
Scene 1; InputEventReg int 3; SceneCS pair 720 576 => fits;;
Scene 1; SceneCS pair 720 575 => Value;; Application 1; InputEventReg int 3 => NotTaken;;
Application 1; Items int 1 => Value;; Rectangle 1; OrigBoxSize pair 0 0 => NotAGroup;;
Scene 0; OrigValue int 1 => NotTaken -- the group itself comes before its ingredients"#;

#[test]
fn takes_groups(rt: HostRuntime) {
    all_hold::<Whole>(&rt, rt.alloc(), GROUPS);
}

/// The class and the number of ingredients.
fn class_and_count(written: &Written) -> Option<(Class, usize)> {
    Some((written.class, written.items.as_ref()?.len()))
}

/// The class and the number of ingredients that are handed back.
fn handed_back(alloc: Global) -> Option<(Class, usize)> {
    let item = ingredient(alloc, Class::Rectangle, 7, "")?;
    match Group::new(written(alloc, Class::Scene, "", item)?) {
        Ok(_) => None,
        Err(misfit) => class_and_count(&misfit.written),
    }
}

#[test]
fn hands_back_what_is_no_group(rt: HostRuntime) {
    assert!(rt; handed_back(rt.alloc()) == Some((Class::Scene, 1)));
}
