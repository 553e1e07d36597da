//! What is offered to be written, as it is written.
use crate::actions::action_rule;
use crate::attributes::attribute_rule;
use crate::classes::class_rule;
use crate::events::event_rule;
use crate::renaming::edit_value;
use crate::texts::{keyword_of, put_call};
use mh_base::{EventType, KINDS};
use mh_edit::{Role, Spot};
use mh_group::{ActionName, Attribute, Class, event_word, kind_word};
use mh_protocol::Range;
use serde_json::{Value, json, push};
use std::alloc::{AllocError, Global};

/// The largest number of a type of events.
const LAST_EVENT: u32 = 31;

/// Something that may be written.
#[derive(Clone, Copy)]
pub(crate) struct Offer<'a> {
    pub(crate) text: &'a [u8],
    /// The protocol's number for what it is.
    pub(crate) kind: u64,
    pub(crate) detail: &'a [u8],
}

impl<'a> Offer<'a> {
    /// Pushes it, to be written in the range.
    pub(crate) fn push(
        &self,
        alloc: Global,
        items: &mut Vec<Value>,
        range: Range,
    ) -> Result<(), AllocError> {
        let text = String::from_utf8_lossy(alloc, self.text)?;
        let detail = String::from_utf8_lossy(alloc, self.detail)?;
        let item = item_value(alloc, text.as_str(), self.kind, detail.as_str(), range)?;
        push(items, item)
    }
}

fn item_value(
    alloc: Global,
    text: &str,
    kind: u64,
    detail: &str,
    range: Range,
) -> Result<Value, AllocError> {
    let edit = edit_value(alloc, range, text)?;
    json!(in alloc; {"detail": detail, "kind": kind, "label": text, "textEdit": edit})
}

/// Pushes the classes of groups, or those of the objects in them.
pub(crate) fn push_classes(
    alloc: Global,
    items: &mut Vec<Value>,
    range: Range,
    are_groups: bool,
) -> Result<(), AllocError> {
    for class in mh_group::class::ALL.iter() {
        if class.is_group() == are_groups {
            push_keyword(alloc, items, range, class.word(), 7, class_rule(*class))?;
        }
    }
    Ok(())
}

/// Pushes the attributes that the object takes and has not yet.
pub(crate) fn push_attributes(
    alloc: Global,
    items: &mut Vec<Value>,
    range: Range,
    class: Class,
    object: u32,
    spots: &[Spot],
) -> Result<(), AllocError> {
    for attribute in mh_group::attribute::ALL.iter() {
        if class.takes(*attribute) && !has_attribute(spots, object, *attribute) {
            let rule = attribute_rule(*attribute);
            push_keyword(alloc, items, range, attribute.word(), 10, rule)?;
        }
    }
    Ok(())
}

fn has_attribute(spots: &[Spot], object: u32, attribute: Attribute) -> bool {
    spots
        .iter()
        .any(|spot| is_attribute_of(spot, object, attribute))
}

fn is_attribute_of(spot: &Spot, object: u32, attribute: Attribute) -> bool {
    match spot.role {
        Role::Attribute(found) => found == attribute && spot.object == object,
        _ => false,
    }
}

pub(crate) fn push_actions(
    alloc: Global,
    items: &mut Vec<Value>,
    range: Range,
) -> Result<(), AllocError> {
    for action in mh_group::action_name::ALL.iter() {
        push_action(alloc, items, range, *action)?;
    }
    Ok(())
}

fn push_action(
    alloc: Global,
    items: &mut Vec<Value>,
    range: Range,
    action: ActionName,
) -> Result<(), AllocError> {
    let mut detail = Vec::new(alloc);
    put_detail(&mut detail, action)?;
    push_keyword(alloc, items, range, action.word(), 3, detail.as_slice())
}

/// Puts how an action is written, and what it does.
fn put_detail(text: &mut Vec<u8>, action: ActionName) -> Result<(), AllocError> {
    put_call(text, action)?;
    text.extend_from_slice(b": ")?;
    text.extend_from_slice(action_rule(action))
}

/// Pushes a word with a colon in front.
fn push_keyword(
    alloc: Global,
    items: &mut Vec<Value>,
    range: Range,
    word: &[u8],
    kind: u64,
    detail: &[u8],
) -> Result<(), AllocError> {
    let text = keyword_of(alloc, word)?;
    let offer = Offer {
        text: text.as_slice(),
        kind,
        detail,
    };
    offer.push(alloc, items, range)
}

pub(crate) fn push_events(
    alloc: Global,
    items: &mut Vec<Value>,
    range: Range,
) -> Result<(), AllocError> {
    for number in 1..=LAST_EVENT {
        if let Some(event) = EventType::of_number(number) {
            let offer = Offer {
                text: event_word(event),
                kind: 20,
                detail: event_rule(event),
            };
            offer.push(alloc, items, range)?;
        }
    }
    Ok(())
}

pub(crate) fn push_kinds(
    alloc: Global,
    items: &mut Vec<Value>,
    range: Range,
) -> Result<(), AllocError> {
    for kind in KINDS.iter() {
        push_keyword(alloc, items, range, kind_word(*kind), 14, b"")?;
    }
    Ok(())
}

pub(crate) fn push_words(
    alloc: Global,
    items: &mut Vec<Value>,
    range: Range,
    words: &[&str],
) -> Result<(), AllocError> {
    for word in words {
        let offer = Offer {
            text: word.as_bytes(),
            kind: 12,
            detail: b"",
        };
        offer.push(alloc, items, range)?;
    }
    Ok(())
}
