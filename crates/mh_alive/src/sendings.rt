//! With which data events may come.
//!
//! Promise: what is gathered, and what is answered, is what the definition that its clause names says.
ghost use Rattle.std.specs.Prelude.{◌≡◌, ◌∷◌, [], None, Some, OnOk};
ghost use Rattle.std.specs.List.{flat_map, list_any};
ghost use Rattle.std.specs.Option.{option_copied};
ghost use Rattle.indexmap.specs.IndexSet.{insert_all};
ghost use Rattle.mh_base.specs.Event.{number_of};
ghost use Rattle.mh_laws.specs.Costs.{data_sent};
ghost use Rattle.mh_never.specs.Saying as saying;
ghost use Rattle.mh_laws.specs.Ways.{Sure, Unsure};
ghost use Rattle.mh_model.specs.Saying.{event_numbered};
ghost use Rattle.mh_alive.specs.Sendings as spec;
ghost use Rattle.mh_alive.specs.Sendings.{same_sending};

use indexmap::IndexSet;
use mh_base::{EventType, Value};
use mh_flow::Site;
use mh_group::ActionName;
use mh_model::{Act, Argument};
use std::alloc::AllocError;

/// The type of an event, by its number, and data: by a sort, 0 where it may be any, 1 where there is none, 2 and 3 where it
/// is false and true, 4 where it is the number.
#[derive(Drop, PartialEq, Eq, Hash)]
pub(crate) struct Sending {
    pub kind: u32,
    pub sort: u32,
    pub number: i32,
}

/// An event of this type, of whose data nothing is known.
fn unsure(kind: EventType) -> Sending
    ensures { result ≡ spec.sending_of (number_of kind) Unsure }
{
    Sending {
        kind: kind.number(),
        sort: 0,
        number: 0,
    }
}

/// An event of this type without data.
fn plain(kind: EventType) -> Sending
    ensures { result ≡ spec.sending_of (number_of kind) (Sure None) }
{
    Sending {
        kind: kind.number(),
        sort: 1,
        number: 0,
    }
}

/// An event of this type with a truth value.
fn with_truth(kind: EventType, truth: bool) -> Sending
    ensures { result ≡ spec.sending_of (number_of kind) (Sure (Some (Value.Bool truth))) }
{
    let sort = if truth { 3 } else { 2 };
    Sending {
        kind: kind.number(),
        sort,
        number: 0,
    }
}

/// An event of this type with the value.
fn with_value(kind: EventType, value: &Value) -> Sending
    ensures { result ≡ spec.sending_of (number_of kind) (Sure (Some value.now)) }
{
    match value {
        Value::Bool(truth) => with_truth(kind, *truth),
        Value::Int(number) => Sending {
            kind: kind.number(),
            sort: 4,
            number: *number,
        },
        _ => unsure(kind),
    }
}

/// An event of this type with the value, or without data.
fn with_data(kind: EventType, value: Option<&Value>) -> Sending
    ensures { result ≡ spec.sending_of (number_of kind) (Sure (option_copied value.entry)) }
{
    match value {
        None => plain(kind),
        Some(value) => with_value(kind, value),
    }
}

/// An event of this type with what stands behind the type.
fn sending_of(kind: EventType, more: &[Argument]) -> Sending
    ensures { result ≡ spec.sending_of (number_of kind) (data_sent more.now) }
{
    match more {
        [] => plain(kind),
        [Argument::Direct(value), ..] => with_value(kind, value),
        _ => unsure(kind),
    }
}

/// The type of events with this number.
pub(crate) fn event_numbered(number: i32) -> Option<EventType>
    ensures { result ≡ event_numbered number }
{
    match u32::try_from(number) {
        Ok(number) => EventType::of_number(number),
        Err(_) => None,
    }
}

fn put(sent: &mut IndexSet<Sending>, one: Sending) -> Result<(), AllocError>
    ensures { OnOk result (sent.new.keys ≡ insert_all same_sending sent.old.keys (one ∷ [])) }
{
    sent.insert(one)?;
    Ok(())
}

/// Puts in what is sent with a type of this number.
fn put_numbered(
    sent: &mut IndexSet<Sending>,
    number: i32,
    more: &[Argument],
) -> Result<(), AllocError>
    ensures { OnOk result (sent.new.keys
        ≡ insert_all same_sending sent.old.keys (spec.sending_numbered number more.now)) }
{
    match event_numbered(number) {
        None => Ok(()),
        Some(kind) => put(sent, sending_of(kind, more)),
    }
}

/// Puts in what is sent where these stand behind the source.
fn put_typed(sent: &mut IndexSet<Sending>, behind: &[Argument]) -> Result<(), AllocError>
    ensures { OnOk result (sent.new.keys
        ≡ insert_all same_sending sent.old.keys (spec.sending_typed behind.now)) }
{
    let Some((word, more)) = behind.split_first() else {
        return Ok(());
    };
    match word {
        Argument::Direct(Value::Int(number)) => put_numbered(sent, *number, more),
        _ => Ok(()),
    }
}

/// Puts in what is sent with these arguments.
fn put_with(sent: &mut IndexSet<Sending>, arguments: &[Argument]) -> Result<(), AllocError>
    ensures { OnOk result (sent.new.keys ≡ insert_all same_sending sent.old.keys (spec.sending_with arguments.now)) }
{
    match arguments.split_first() {
        None => Ok(()),
        Some((_, behind)) => put_typed(sent, behind),
    }
}

fn put_act(sent: &mut IndexSet<Sending>, act: &Act) -> Result<(), AllocError>
    ensures { OnOk result (sent.new.keys ≡ insert_all same_sending sent.old.keys (spec.sent_by act.now)) }
{
    match act.name {
        ActionName::SendEvent => put_with(sent, act.arguments.as_slice()),
        _ => Ok(()),
    }
}

/// Puts in what the actions at these sites send.
#[tactic(auto, using(crate::proofs::SetLemmas::put_both))]
pub(crate) fn put_sites(sent: &mut IndexSet<Sending>, sites: &[Site<'_>]) -> Result<(), AllocError>
    ensures { OnOk result (sent.new.keys
        ≡ insert_all same_sending sent.old.keys (flat_map (λ x. spec.sent_by x.act) sites.now)) }
{
    for site in sites {
        put_act(sent, site.act)?;
    }
    Ok(())
}

fn is_key_number(number: i32) -> bool
    ensures { result ≡ spec.is_key_number number }
{
    match u32::try_from(number) {
        Ok(number) => 1 <= number && number <= 16 || 100 <= number && number <= 104,
        Err(_) => false,
    }
}

/// Whether an event of this type is counted on with the data where no action sends it.
fn is_counted(kind: EventType, value: Option<&Value>) -> bool
    ensures { result ≡ spec.is_counted kind (option_copied value.entry) }
{
    match kind {
        EventType::TestEvent | EventType::FirstItemPresented | EventType::LastItemPresented => {
            matches!(value, Some(Value::Bool(_)))
        }
        EventType::TokenMovedFrom
        | EventType::TokenMovedTo
        | EventType::HeadItems
        | EventType::TailItems
        | EventType::ItemSelected
        | EventType::ItemDeselected
        | EventType::StreamEvent
        | EventType::TimerFired
        | EventType::EngineEvent => matches!(value, Some(Value::Int(_))),
        EventType::UserInput => is_key_data(value),
        _ => value.is_none(),
    }
}

/// Whether events of keys come with this data: it is the number of one.
pub fn is_key_data(value: Option<&Value>) -> bool
    ensures { result ≡ spec.is_key_data (option_copied value.entry) }
{
    match value {
        Some(Value::Int(number)) => is_key_number(*number),
        _ => false,
    }
}

/// Whether an event of this type is sent of whose data nothing is known.
fn sends_any(sent: &IndexSet<Sending>, kind: EventType) -> bool
    ensures { result ≡ list_any (same_sending (spec.sending_of (number_of kind) Unsure)) sent.now.keys }
{
    let wanted = unsure(kind);
    sent.contains(&wanted)
}

/// Whether an event of this type is sent with the data.
fn sends_with(sent: &IndexSet<Sending>, kind: EventType, value: Option<&Value>) -> bool
    ensures { result ≡ list_any (same_sending (spec.sending_of (number_of kind) (Sure (option_copied value.entry)))) sent.now.keys }
{
    let wanted = with_data(kind, value);
    sent.contains(&wanted)
}

/// Whether an event of this type may be sent with the data.
fn is_sent(sent: &IndexSet<Sending>, kind: EventType, value: Option<&Value>) -> bool
    ensures { result ≡ spec.is_sent sent.now.keys kind (option_copied value.entry) }
{
    sends_any(sent, kind) || sends_with(sent, kind, value)
}

/// Whether an event of this type may come with the data.
pub(crate) fn may_say(sent: &IndexSet<Sending>, kind: EventType, value: Option<&Value>) -> bool
    ensures { result ≡ spec.may_say sent.now.keys kind (option_copied value.entry) }
{
    is_counted(kind, value) || is_sent(sent, kind, value)
}
