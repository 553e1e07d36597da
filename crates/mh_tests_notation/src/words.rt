//! The words and the numbers of the tables, and what the tables say of actions.
use crate::cases::all_hold;
use mh_base::Kind;
use mh_cases::{Question, number, word};
use mh_group::{
    ActionName, Attribute, Class, Justification, Need, Number, event_of_word, event_word,
};
use std::alloc::Global;

#[test]
fn takes_numbers_of_31_bits(rt: HostRuntime) {
    assert!(rt; Number::new(0).is_some() && Number::new(2147483647).is_some());
    assert!(rt; Number::new(2147483648).is_none());
}

/// Words, and the numbers of what they name: a class, an attribute, an action, and a type of events.
static WORDS: &str = r#"
Rectangle => 8 99 99 99;; Shared => 99 7 99 99;; SetPosition => 99 99 26 99;;
TestEvent => 99 99 99 23;; add => 99 99 99 99"#;

struct Word;

impl Question for Word {
    fn answer(alloc: Global, _: &str, word: &[u8]) -> Option<Vec<u8>> {
        let class = Class::of_word(word).map_or(99, |x| x.number());
        let attribute = Attribute::of_word(word).map_or(99, |x| x.number());
        let action = ActionName::of_word(word).map_or(99, |x| x.number());
        let event = event_of_word(word).map_or(99, |x| x.number());
        let numbers = format!(in alloc; "{class} {attribute} {action} {event}").ok()?;
        Some(numbers.into_bytes())
    }
}

#[test]
fn finds_words(rt: HostRuntime) {
    all_hold::<Word>(&rt, rt.alloc(), WORDS);
}

/// Numbers, and the words of the class, the attribute and the action that have them.
static NUMBERS: &str = r#"
0 => Application - Run;; 1 => Scene OnStartUp Stop;; 16 => Stream OrigRefLineColour SetVariable;;
17 => - OrigRefFillColour TestVariable;; 38 => - NextScenes DrawLine;; 39 => - - DrawRectangle;;
69 => - - GetCellItem;; 70 => - - -"#;

fn class_word(number: u32) -> &'static [u8] {
    match Class::of_number(number) {
        Some(class) => class.word(),
        None => b"-",
    }
}

fn attribute_word(number: u32) -> &'static [u8] {
    match Attribute::of_number(number) {
        Some(attribute) => attribute.word(),
        None => b"-",
    }
}

fn action_word(number: u32) -> &'static [u8] {
    match ActionName::of_number(number) {
        Some(name) => name.word(),
        None => b"-",
    }
}

/// The words, with a space behind each but the last.
fn joined(alloc: Global, words: &[&'static [u8]]) -> Option<Vec<u8>> {
    let mut joined = Vec::new(alloc);
    for word in words {
        let gap = if joined.is_empty() { "" } else { " " };
        let parted = joined.extend_from_slice(gap.as_bytes());
        parted.and(joined.extend_from_slice(*word)).ok()?;
    }
    Some(joined)
}

struct OfNumber;

impl Question for OfNumber {
    fn answer(alloc: Global, asked: &str, _: &[u8]) -> Option<Vec<u8>> {
        let at = number(asked, 0)?;
        joined(
            alloc,
            &[class_word(at), attribute_word(at), action_word(at)],
        )
    }
}

#[test]
fn finds_numbers(rt: HostRuntime) {
    all_hold::<OfNumber>(&rt, rt.alloc(), NUMBERS);
}

/// Words, the numbers of what they name, and the numbers of what has these numbers.
static JUSTIFICATIONS: &str = r#"
start => 1 1;; end => 2 2;; centre => 3 3"#;

struct JustificationWord;

impl Question for JustificationWord {
    fn answer(alloc: Global, _: &str, word: &[u8]) -> Option<Vec<u8>> {
        let number = Justification::of_word(word)?.number();
        let back = Justification::of_number(number)?.number();
        Some(format!(in alloc; "{number} {back}").ok()?.into_bytes())
    }
}

#[test]
fn finds_justifications(rt: HostRuntime) {
    all_hold::<JustificationWord>(&rt, rt.alloc(), JUSTIFICATIONS);
    assert!(rt; Justification::of_number(0).is_none());
}

/// What actions need, and how many of their parameters may be missing.
static NEEDS: [(ActionName, &[Need], usize); 5] = [
    (ActionName::Run, &[], 0),
    (ActionName::SetTimer, &[Need::Int, Need::Int, Need::Bool], 2),
    (
        ActionName::SendEvent,
        &[Need::Ref, Need::Event, Need::Data],
        1,
    ),
    (
        ActionName::GetListItem,
        &[Need::Int, Need::Receiver(Kind::Object)],
        0,
    ),
    (
        ActionName::Fork,
        &[Need::Receiver(Kind::Bool), Need::Arguments],
        0,
    ),
];

#[test]
fn tells_what_actions_need(rt: HostRuntime) {
    for (name, needs, optional) in &NEEDS {
        assert!(rt; name.needs() == *needs && name.optional() == *optional);
    }
}

/// What an action can emit on an object of the class.
static EMITTED: &str = r#"
Run Text => IsAvailable ContentAvailable IsRunning;; Run Link => ;;
Activate Link => IsAvailable IsRunning;; TestVariable Rectangle => ;;
TestVariable OStringVar => TestEvent;; SetPosition Rectangle => ;; TransitionTo Scene => IsRunning;;
Launch Application => IsRunning;; Quit Application => ;; Quit Scene => "#;

struct Emitted;

impl Question for Emitted {
    fn answer(alloc: Global, asked: &str, _: &[u8]) -> Option<Vec<u8>> {
        let name = ActionName::of_word(word(asked, 0).as_bytes())?;
        let class = Class::of_word(word(asked, 1).as_bytes())?;
        let mut words = Vec::new(alloc);
        for event in name.may_emit(class) {
            words.push(event_word(*event)).ok()?;
        }
        joined(alloc, words.as_slice())
    }
}

#[test]
fn tells_what_actions_emit(rt: HostRuntime) {
    all_hold::<Emitted>(&rt, rt.alloc(), EMITTED);
}

/// The types of events that can be sent: all of them.
static SENT: [u32; 25] = [
    1, 2, 3, 4, 5, 6, 8, 9, 10, 11, 12, 13, 17, 18, 21, 22, 23, 24, 25, 26, 27, 28, 29, 30, 31,
];

#[test]
fn sends_events_of_all_types(rt: HostRuntime) {
    let sent = ActionName::SendEvent.may_emit(Class::Scene);
    assert!(rt; sent.len() == SENT.len());
    for (event, number) in sent.iter().zip(&SENT) {
        assert!(rt; event.number() == *number);
    }
}
