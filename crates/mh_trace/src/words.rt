//! What a trace says of single things: references, values, events, inputs, items and places of actions.
//!
//! Nothing of what files hold gives a terminal an order: names have visible characters and spaces, and any
//! other octet of a value is shown as a dot.
ghost use Rattle.std.specs.Prelude.{◌≡◌, ◌++◌, OnOk};
ghost use Rattle.std.specs.Fmt.{signed_decimal};
ghost use Rattle.mh_trace.specs.Words as spec;

use crate::site::{EffectKind, Site};
use mh_base::{ObjRef, Value};
use mh_group::event_word;
use mh_model::{Act, Event, Input, Item, Target, Waiting};
use mh_script::key_name;
use mh_told::text::Text;
use std::alloc::{AllocError, Global};

/// Puts an object: its group, and its number there.
#[tactic(auto, unfolding(crate::specs::Words::ref_text))]
pub fn put_ref(text: &mut Text, at: &ObjRef) -> Result<(), AllocError>
    ensures { OnOk result (text.new ≡ text.old ++ spec.ref_text at.now) }
{
    text.put(at.group.as_bytes())?;
    text.put(b" ")?;
    text.put_number(u64::from(at.number))
}

/// Puts a value of a variable or of an event.
pub fn put_value(alloc: Global, text: &mut Text, value: &Value) -> Result<(), AllocError>
    ensures { OnOk result (text.new ≡ text.old ++ spec.value_text value.now) }
{
    match value {
        Value::Bool(truth) => put_truth(text, *truth),
        Value::Int(number) => put_integer(alloc, text, *number),
        Value::Octets(octets) => put_octets(text, octets.as_slice()),
        Value::Object(at) => put_ref(text, at),
        Value::Content(name) => text.put(name.as_bytes()),
    }
}

#[tactic(auto, unfolding(crate::specs::Words::truth_text))]
pub fn put_truth(text: &mut Text, truth: bool) -> Result<(), AllocError>
    ensures { OnOk result (text.new ≡ text.old ++ spec.truth_text truth) }
{
    if truth {
        text.put(b"true")
    } else {
        text.put(b"false")
    }
}

/// Puts a number with its sign.
pub fn put_integer(alloc: Global, text: &mut Text, number: i32) -> Result<(), AllocError>
    ensures { OnOk result (text.new ≡ text.old ++ signed_decimal number) }
{
    let digits = format!(in alloc; "{number}")?;
    text.put(digits.as_bytes())
}

/// Puts octets between quotation marks.
#[tactic(auto, unfolding(crate::specs::Words::octets_text))]
pub fn put_octets(text: &mut Text, octets: &[u8]) -> Result<(), AllocError>
    ensures { OnOk result (text.new ≡ text.old ++ spec.octets_text octets.now) }
{
    text.put(b"'")?;
    put_shown(text, octets)?;
    text.put(b"'")
}

fn put_shown(text: &mut Text, octets: &[u8]) -> Result<(), AllocError>
    ensures { OnOk result (text.new ≡ text.old ++ spec.shown_octets octets.now) }
{
    for octet in octets {
        text.put_byte(shown_octet(*octet))?;
    }
    Ok(())
}

fn shown_octet(octet: u8) -> u8
    ensures { result ≡ spec.shown_octet octet }
{
    if 32 <= octet && octet <= 126 {
        octet
    } else {
        b'.'
    }
}

/// Puts an event: its type, its source, and its data if it has some.
#[tactic(auto, unfolding(crate::specs::Words::event_text))]
pub fn put_event(alloc: Global, text: &mut Text, event: &Event) -> Result<(), AllocError>
    ensures { OnOk result (text.new ≡ text.old ++ spec.event_text event.now) }
{
    text.put(event_word(event.kind))?;
    text.put(b" of ")?;
    put_ref(text, &event.source)?;
    put_data(alloc, text, &event.data)
}

fn put_data(alloc: Global, text: &mut Text, data: &Option<Value>) -> Result<(), AllocError>
    ensures { OnOk result (text.new ≡ text.old ++ spec.data_text «data».now) }
{
    match data {
        Some(value) => {
            text.put(b" with ")?;
            put_value(alloc, text, value)
        }
        None => Ok(()),
    }
}

/// Puts what waits: an input as a script says it, or an event.
pub fn put_waiting(alloc: Global, text: &mut Text, waiting: &Waiting) -> Result<(), AllocError>
    ensures { OnOk result (text.new ≡ text.old ++ spec.waiting_text waiting.now) }
{
    match waiting {
        Waiting::Input(input) => put_input(alloc, text, input),
        Waiting::Event(event) => {
            text.put(b"take ")?;
            put_event(alloc, text, event)
        }
    }
}

/// Puts an input as a script says it, a file without its octets.
pub fn put_input(alloc: Global, text: &mut Text, input: &Input) -> Result<(), AllocError>
    ensures { OnOk result (text.new ≡ text.old ++ spec.input_text input.now) }
{
    match input {
        Input::Key(key) => put_named(text, b"key ", key_name(*key)),
        Input::Tick(length) => put_tick(text, *length),
        Input::Stream(tag) => put_numbered(alloc, text, b"stream ", tag),
        Input::Engine(number) => put_numbered(alloc, text, b"engine ", number),
        Input::Arrive(file) => put_named(text, b"file ", file.name.as_bytes()),
        Input::Scene(name, _) => put_named(text, b"scene ", name.as_bytes()),
    }
}

fn put_named(text: &mut Text, word: &[u8], name: &[u8]) -> Result<(), AllocError>
    ensures { OnOk result (text.new ≡ text.old ++ word.now ++ name.now) }
{
    text.put(word)?;
    text.put(name)
}

#[tactic(auto, unfolding(crate::specs::Words::tick_text))]
fn put_tick(text: &mut Text, length: u32) -> Result<(), AllocError>
    ensures { OnOk result (text.new ≡ text.old ++ spec.tick_text length) }
{
    text.put(b"tick ")?;
    text.put_number(u64::from(length))
}

fn put_numbered(alloc: Global, text: &mut Text, word: &[u8], number: &i32) -> Result<(), AllocError>
    ensures { OnOk result (text.new ≡ text.old ++ word.now ++ signed_decimal number.now) }
{
    text.put(word)?;
    put_integer(alloc, text, *number)
}

/// Puts an item of the work list.
pub fn put_item(alloc: Global, text: &mut Text, item: &Item) -> Result<(), AllocError>
    ensures { OnOk result (text.new ≡ text.old ++ spec.item_text item.now) }
{
    match item {
        Item::Act(act) => put_act(text, act),
        Item::Prepare(at) => put_at(text, b"prepare ", at),
        Item::Run(at) => put_at(text, b"run ", at),
        Item::Halt(at) => put_at(text, b"stop ", at),
        Item::RunMember(at) => put_at(text, b"run member ", at),
        Item::HaltMember(at) => put_halted(text, at),
        Item::Drop(at) => put_at(text, b"drop ", at),
        Item::Emit(event) => put_event(alloc, text, event),
        Item::Enter(group) => put_named(text, b"enter ", group.as_bytes()),
        Item::Exchange(group) => put_named(text, b"exchange ", group.as_bytes()),
        Item::End => text.put(b"end"),
    }
}

#[tactic(auto, unfolding(crate::specs::Words::halted_text))]
fn put_halted(text: &mut Text, at: &ObjRef) -> Result<(), AllocError>
    ensures { OnOk result (text.new ≡ text.old ++ spec.halted_text at.now) }
{
    text.put(halted_word())?;
    put_ref(text, at)
}

#[tactic(auto, unfolding(crate::specs::Words::halted_word))]
fn halted_word() -> &'static [u8]
    ensures { result.now ≡ spec.halted_word }
{
    b"stop member "
}

fn put_at(text: &mut Text, word: &[u8], at: &ObjRef) -> Result<(), AllocError>
    ensures { OnOk result (text.new ≡ text.old ++ word.now ++ spec.ref_text at.now) }
{
    text.put(word)?;
    put_ref(text, at)
}

/// Puts an action: its name, and what it is done to.
#[tactic(auto, unfolding(crate::specs::Words::act_text))]
pub fn put_act(text: &mut Text, act: &Act) -> Result<(), AllocError>
    ensures { OnOk result (text.new ≡ text.old ++ spec.act_text act.now) }
{
    text.put(act.name.word())?;
    text.put(b" ")?;
    put_target(text, &act.target)
}

fn put_target(text: &mut Text, target: &Target) -> Result<(), AllocError>
    ensures { OnOk result (text.new ≡ text.old ++ spec.target_text target.now) }
{
    match target {
        Target::Direct(at) => put_ref(text, at),
        Target::Through(variable) => put_at(text, b"through ", variable),
    }
}

/// Puts where an action stands: its number there, from 1 on, the object and the effect.
#[tactic(auto, unfolding(crate::specs::Words::site_text))]
pub fn put_site(text: &mut Text, site: &Site) -> Result<(), AllocError>
    ensures { OnOk result (text.new ≡ text.old ++ spec.site_text site.now) }
{
    text.put(b"action ")?;
    text.put_number(site.number as u64)?;
    text.put(b" of ")?;
    put_place(text, &site.object, site.kind)
}

/// Puts an effect of an object.
#[tactic(auto, unfolding(crate::specs::Words::place_text))]
pub fn put_place(text: &mut Text, object: &ObjRef, kind: EffectKind) -> Result<(), AllocError>
    ensures { OnOk result (text.new ≡ text.old ++ spec.place_text object.now kind) }
{
    put_ref(text, object)?;
    text.put(b" ")?;
    put_effect(text, kind)
}

fn put_effect(text: &mut Text, kind: EffectKind) -> Result<(), AllocError>
    ensures { OnOk result (text.new ≡ text.old ++ spec.effect_text kind) }
{
    match kind {
        EffectKind::StartUp => text.put(b"OnStartUp"),
        EffectKind::CloseDown => text.put(b"OnCloseDown"),
        EffectKind::Link => text.put(b"LinkEffect"),
        EffectKind::Slot(member, slot) => put_slot(text, member, slot),
    }
}

#[tactic(auto, unfolding(crate::specs::Words::slot_text))]
fn put_slot(text: &mut Text, member: usize, slot: usize) -> Result<(), AllocError>
    ensures { OnOk result (text.new ≡ text.old ++ spec.slot_text member slot) }
{
    text.put(b"slot ")?;
    text.put_number(slot as u64)?;
    text.put(b" of member ")?;
    text.put_number(member as u64)
}
