//! A part of an object that is not as it was, as an object of a list.
ghost use Rattle.std.specs.Prelude.{◌≡◌, ◌++◌, IfOk, OnOk};
ghost use Rattle.std.specs.Fmt.{decimal};
ghost use Rattle.std.specs.Option.{option_copied};
ghost use Rattle.mh_trace.specs.Changes as spec;
ghost use Rattle.mh_trace.specs.Words.{ref_text, truth_text};

use crate::json::{put_member, put_more};
use crate::short::{put_given, put_held, put_loaded_text, put_read};
use crate::words::{put_ref, put_truth};
use mh_base::{ObjRef, Octets, Value};
use mh_group::Attribute;
use mh_model::Held;
use mh_told::text::Text;
use std::alloc::{AllocError, Global};

/// A reference as it is shown.
pub fn shown_ref(alloc: Global, at: &ObjRef) -> Result<Text, AllocError>
    ensures { IfOk result (λ shown. shown ≡ ref_text at.now) }
{
    let mut shown = Text::new(alloc);
    put_ref(&mut shown, at)?;
    Ok(shown)
}

#[tactic(auto, unfolding(crate::specs::Changes::json_start))]
fn put_start(alloc: Global, text: &mut Text, at: &ObjRef, part: &[u8]) -> Result<(), AllocError>
    ensures { OnOk result (text.new ≡ text.old ++ spec.json_start at.now part.now) }
{
    let shown = shown_ref(alloc, at)?;
    text.put(b",{")?;
    put_member(text, b"object", shown.as_slice())?;
    put_more(text, b"part", part)
}

#[tactic(auto, unfolding(crate::specs::Changes::json_change))]
fn put_change(
    alloc: Global,
    text: &mut Text,
    at: &ObjRef,
    part: &[u8],
    before: &Text,
    behind: &Text,
) -> Result<(), AllocError>
    ensures { OnOk result (text.new ≡ text.old ++ spec.json_change at.now part.now before.now behind.now) }
{
    put_start(alloc, text, at, part)?;
    put_more(text, b"from", before.as_slice())?;
    put_more(text, b"to", behind.as_slice())?;
    text.put(b"}")
}

pub fn put_flag_json(
    alloc: Global,
    text: &mut Text,
    at: &ObjRef,
    word: &[u8],
    flag: bool,
) -> Result<(), AllocError>
    ensures { OnOk result (text.new ≡ text.old ++ spec.flag_json at.now word.now flag) }
{
    let before = shown_truth(alloc, !flag)?;
    let behind = shown_truth(alloc, flag)?;
    put_change(alloc, text, at, word, &before, &behind)
}

fn shown_truth(alloc: Global, truth: bool) -> Result<Text, AllocError>
    ensures { IfOk result (λ shown. shown ≡ truth_text truth) }
{
    let mut shown = Text::new(alloc);
    put_truth(&mut shown, truth)?;
    Ok(shown)
}

pub fn put_count_json(
    alloc: Global,
    text: &mut Text,
    at: &ObjRef,
    word: &[u8],
    before: usize,
    behind: usize,
) -> Result<(), AllocError>
    ensures { OnOk result (text.new ≡ text.old ++ spec.count_json at.now word.now before behind) }
{
    let before = shown_count(alloc, before)?;
    let behind = shown_count(alloc, behind)?;
    put_change(alloc, text, at, word, &before, &behind)
}

fn shown_count(alloc: Global, count: usize) -> Result<Text, AllocError>
    ensures { IfOk result (λ shown. shown ≡ decimal count) }
{
    let mut shown = Text::new(alloc);
    shown.put_number(count as u64)?;
    Ok(shown)
}

pub fn put_value_json(
    alloc: Global,
    text: &mut Text,
    at: &ObjRef,
    before: Option<&Value>,
    behind: Option<&Value>,
) -> Result<(), AllocError>
    ensures { OnOk result (text.new
        ≡ text.old ++ spec.value_json at.now (option_copied before.entry) (option_copied behind.entry)) }
{
    let before = shown_given(alloc, before)?;
    let behind = shown_given(alloc, behind)?;
    put_change(alloc, text, at, b"value", &before, &behind)
}

/// What a variable holds, as it is shown.
pub fn shown_given(alloc: Global, value: Option<&Value>) -> Result<Text, AllocError>
    ensures { IfOk result (λ shown. shown ≡ spec.given_text (option_copied value.entry)) }
{
    let mut shown = Text::new(alloc);
    put_given(alloc, &mut shown, value)?;
    Ok(shown)
}

pub fn put_loaded_json(
    alloc: Global,
    text: &mut Text,
    at: &ObjRef,
    before: &Option<Octets>,
    behind: &Option<Octets>,
) -> Result<(), AllocError>
    ensures { OnOk result (text.new ≡ text.old ++ spec.loaded_json at.now before.now behind.now) }
{
    let before = shown_loaded(alloc, before)?;
    let behind = shown_loaded(alloc, behind)?;
    put_change(alloc, text, at, b"text", &before, &behind)
}

fn shown_loaded(alloc: Global, loaded: &Option<Octets>) -> Result<Text, AllocError>
    ensures { IfOk result (λ shown. shown ≡ spec.loaded_text loaded.now) }
{
    let mut shown = Text::new(alloc);
    put_loaded_text(&mut shown, loaded)?;
    Ok(shown)
}

#[tactic(auto, unfolding(crate::specs::Changes::items_json))]
pub fn put_items_json(alloc: Global, text: &mut Text, at: &ObjRef) -> Result<(), AllocError>
    ensures { OnOk result (text.new ≡ text.old ++ spec.items_json at.now) }
{
    put_start(alloc, text, at, b"items")?;
    text.put(b"}")
}

pub fn put_attribute_json(
    alloc: Global,
    text: &mut Text,
    at: &ObjRef,
    attribute: Attribute,
    before: Option<&Held>,
    behind: &Held,
) -> Result<(), AllocError>
    ensures { OnOk result (text.new
        ≡ text.old ++ spec.attribute_json at.now attribute (option_copied before.entry) behind.now) }
{
    let before = shown_read(alloc, before)?;
    let behind = shown_held(alloc, behind)?;
    put_change(alloc, text, at, attribute.word(), &before, &behind)
}

fn shown_read(alloc: Global, held: Option<&Held>) -> Result<Text, AllocError>
    ensures { IfOk result (λ shown. shown ≡ spec.read_text (option_copied held.entry)) }
{
    let mut shown = Text::new(alloc);
    put_read(alloc, &mut shown, held)?;
    Ok(shown)
}

fn shown_held(alloc: Global, held: &Held) -> Result<Text, AllocError>
    ensures { IfOk result (λ shown. shown ≡ spec.held_text held.now) }
{
    let mut shown = Text::new(alloc);
    put_held(alloc, &mut shown, held)?;
    Ok(shown)
}
