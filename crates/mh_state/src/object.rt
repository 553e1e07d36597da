//! An object as it is: its class, its status, what it holds, and its attributes.
ghost use Rattle.std.specs.Prelude.{◌≡◌, ◌++◌, OnOk};
ghost use Rattle.std.specs.List.{flat_map};
ghost use Rattle.std.specs.Option.{option_copied};
ghost use Rattle.mh_model.specs.State.{all};
ghost use Rattle.mh_state.specs.Object as spec;

use crate::status::{put_counts, put_status};
use mh_base::{ObjRef, Octets, Value};
use mh_group::Attribute;
use mh_group::attribute::ALL;
use mh_model::{Entry, Held, Object};
use mh_store::Objects;
use mh_told::text::Text;
use mh_trace::put_ref;
use mh_trace::short::{put_held, put_loaded_text, put_short};
use std::alloc::{AllocError, Global};

/// Puts what is told of the object at this reference, or that it is not present.
pub fn put_object(
    alloc: Global,
    text: &mut Text,
    objects: &Objects,
    at: &ObjRef,
) -> Result<(), AllocError>
    ensures { OnOk result (text.new ≡ text.old ++ spec.object_text (all objects.now) at.now) }
{
    match objects.get(at) {
        Some(object) => put_present(alloc, text, object),
        None => put_absent(text, at),
    }
}

#[tactic(auto, unfolding(crate::specs::Object::absent_line))]
pub(crate) fn put_absent(text: &mut Text, at: &ObjRef) -> Result<(), AllocError>
    ensures { OnOk result (text.new ≡ text.old ++ spec.absent_line at.now) }
{
    put_ref(text, at)?;
    text.put(b" is not present")?;
    text.put(b"\n")
}

#[tactic(auto, unfolding(crate::specs::Object::present_text))]
fn put_present(alloc: Global, text: &mut Text, object: &Object) -> Result<(), AllocError>
    ensures { OnOk result (text.new ≡ text.old ++ spec.present_text object.now) }
{
    put_head(text, object)?;
    put_status(text, &object.body)?;
    put_counts(text, object.fixed.get().class, &object.body)?;
    put_value(alloc, text, object.value())?;
    put_loaded(text, &object.body.text)?;
    put_entries(text, object.body.list.entries())?;
    put_attributes(alloc, text, object, &ALL)
}

#[tactic(auto, unfolding(crate::specs::Object::head_line))]
fn put_head(text: &mut Text, object: &Object) -> Result<(), AllocError>
    ensures { OnOk result (text.new ≡ text.old ++ spec.head_line object.now) }
{
    let fixed = object.fixed.get();
    put_ref(text, &fixed.key)?;
    text.put(b" ")?;
    text.put(fixed.class.word())?;
    text.put(b"\n")
}

fn put_value(alloc: Global, text: &mut Text, value: Option<&Value>) -> Result<(), AllocError>
    ensures { OnOk result (text.new ≡ text.old ++ spec.value_line (option_copied value.entry)) }
{
    match value {
        Some(value) => put_value_line(alloc, text, value),
        None => Ok(()),
    }
}

#[tactic(auto, unfolding(crate::specs::Object::holds_line))]
fn put_value_line(alloc: Global, text: &mut Text, value: &Value) -> Result<(), AllocError>
    ensures { OnOk result (text.new ≡ text.old ++ spec.holds_line value.now) }
{
    text.put(b"holds ")?;
    put_short(alloc, text, value)?;
    text.put(b"\n")
}

fn put_loaded(text: &mut Text, loaded: &Option<Octets>) -> Result<(), AllocError>
    ensures { OnOk result (text.new ≡ text.old ++ spec.loaded_line loaded.now) }
{
    match loaded {
        Some(_) => put_text_line(text, loaded),
        None => Ok(()),
    }
}

#[tactic(auto, unfolding(crate::specs::Object::text_line))]
fn put_text_line(text: &mut Text, loaded: &Option<Octets>) -> Result<(), AllocError>
    ensures { OnOk result (text.new ≡ text.old ++ spec.text_line loaded.now) }
{
    text.put(b"text ")?;
    put_loaded_text(text, loaded)?;
    text.put(b"\n")
}

fn put_entries(text: &mut Text, entries: &[Entry]) -> Result<(), AllocError>
    ensures { OnOk result (text.new ≡ text.old ++ flat_map spec.entry_line entries.now) }
{
    for entry in entries {
        put_entry(text, entry)?;
    }
    Ok(())
}

#[tactic(auto, unfolding(crate::specs::Object::entry_line))]
fn put_entry(text: &mut Text, entry: &Entry) -> Result<(), AllocError>
    ensures { OnOk result (text.new ≡ text.old ++ spec.entry_line entry.now) }
{
    text.put(b"item ")?;
    put_ref(text, &entry.object)?;
    put_selected(text, entry.selected)?;
    text.put(b"\n")
}

fn put_selected(text: &mut Text, selected: bool) -> Result<(), AllocError>
    ensures { OnOk result (text.new ≡ text.old ++ spec.selected_note selected) }
{
    if selected {
        text.put(b", selected")
    } else {
        Ok(())
    }
}

fn put_attributes(
    alloc: Global,
    text: &mut Text,
    object: &Object,
    attributes: &[Attribute],
) -> Result<(), AllocError>
    ensures { OnOk result (text.new
        ≡ text.old ++ flat_map (spec.attribute_of object.now) attributes.now) }
{
    for attribute in attributes {
        put_attribute(alloc, text, *attribute, object.read(*attribute))?;
    }
    Ok(())
}

fn put_attribute(
    alloc: Global,
    text: &mut Text,
    attribute: Attribute,
    held: Option<&Held>,
) -> Result<(), AllocError>
    ensures { OnOk result (text.new
        ≡ text.old ++ spec.attribute_if attribute (option_copied held.entry)) }
{
    match held {
        Some(held) => put_attribute_line(alloc, text, attribute, held),
        None => Ok(()),
    }
}

#[tactic(auto, unfolding(crate::specs::Object::attribute_line))]
fn put_attribute_line(
    alloc: Global,
    text: &mut Text,
    attribute: Attribute,
    held: &Held,
) -> Result<(), AllocError>
    ensures { OnOk result (text.new ≡ text.old ++ spec.attribute_line attribute held.now) }
{
    text.put(attribute.word())?;
    put_told(alloc, text, held)?;
    text.put(b"\n")
}

/// Puts what an attribute holds, where it is a value, a pair or a colour.
fn put_told(alloc: Global, text: &mut Text, held: &Held) -> Result<(), AllocError>
    ensures { OnOk result (text.new ≡ text.old ++ spec.told_held held.now) }
{
    match held {
        Held::Value(_) | Held::Pair(_, _) | Held::Colour(_) => put_behind(alloc, text, held),
        _ => Ok(()),
    }
}

#[tactic(auto, unfolding(crate::specs::Object::behind_word))]
fn put_behind(alloc: Global, text: &mut Text, held: &Held) -> Result<(), AllocError>
    ensures { OnOk result (text.new ≡ text.old ++ spec.behind_word held.now) }
{
    text.put(b" ")?;
    put_held(alloc, text, held)
}
