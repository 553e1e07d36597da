//! What a step has made of objects, told part by part: how each was, and how it is.

pub(crate) mod counts;
pub(crate) mod json;
pub(crate) mod life;
pub(crate) mod parts;
pub(crate) mod same;
pub(crate) mod text;

ghost use Rattle.std.specs.Prelude.{◌≡◌, ◌++◌, OnOk, IfOk};
ghost use Rattle.std.specs.List.{flat_map};
ghost use Rattle.std.specs.Option.{option_copied};
ghost use Rattle.mh_model.specs.Property.{value_held};
ghost use Rattle.mh_model.specs.State.{all};
ghost use Rattle.mh_trace.specs.Changes as spec;

use crate::changes::counts::put_counts;
use crate::changes::life::put_life;
use crate::changes::parts::{put_attribute, put_items, put_loaded, put_value};
use crate::form::Form;
use mh_base::{ObjRef, Value};
use mh_group::Attribute;
use mh_group::attribute::ALL;
use mh_model::held::as_value;
use mh_model::{Body, Object};
use mh_store::Objects;
use mh_told::text::Text;
use std::alloc::{AllocError, Global};

/// What has become of these objects among those that are present now.
pub fn changes(
    alloc: Global,
    form: Form,
    before: &[Object],
    objects: &Objects,
) -> Result<Text, AllocError>
    ensures { IfOk result (λ text. text ≡ spec.notes form before.now (all objects.now)) }
{
    let mut text = Text::new(alloc);
    put_all(alloc, form, &mut text, before, objects)?;
    Ok(text)
}

fn put_all(
    alloc: Global,
    form: Form,
    text: &mut Text,
    before: &[Object],
    objects: &Objects,
) -> Result<(), AllocError>
    ensures { OnOk result (text.new ≡ text.old ++ spec.notes form before.now (all objects.now)) }
{
    for object in before {
        put_among(alloc, form, text, object, objects)?;
    }
    Ok(())
}

fn put_among(
    alloc: Global,
    form: Form,
    text: &mut Text,
    object: &Object,
    objects: &Objects,
) -> Result<(), AllocError>
    ensures { OnOk result (text.new ≡ text.old ++ spec.notes_among form (all objects.now) object.now) }
{
    match objects.get(&object.fixed.get().key) {
        Some(behind) => put_notes(alloc, form, text, object, &behind.body),
        None => Ok(()),
    }
}

#[tactic(auto, unfolding(crate::specs::Changes::notes_on))]
fn put_notes(
    alloc: Global,
    form: Form,
    text: &mut Text,
    object: &Object,
    behind: &Body,
) -> Result<(), AllocError>
    ensures { OnOk result (text.new ≡ text.old ++ spec.notes_on form object.now behind.now) }
{
    let at = &object.fixed.get().key;
    put_life(alloc, form, text, at, &object.body, behind)?;
    put_counts(alloc, form, text, at, &object.body, behind)?;
    put_content(alloc, form, text, object, behind)?;
    put_attributes(alloc, form, text, object, behind, &ALL)
}

#[tactic(auto, unfolding(crate::specs::Changes::content_notes))]
fn put_content(
    alloc: Global,
    form: Form,
    text: &mut Text,
    object: &Object,
    behind: &Body,
) -> Result<(), AllocError>
    ensures { OnOk result (text.new ≡ text.old ++ spec.content_notes form object.now behind.now) }
{
    let at = &object.fixed.get().key;
    put_value(
        alloc,
        form,
        text,
        at,
        object.value(),
        held_value(object, behind),
    )?;
    put_loaded(alloc, form, text, at, &object.body.text, &behind.text)?;
    put_items(
        alloc,
        form,
        text,
        at,
        object.body.list.entries(),
        behind.list.entries(),
    )
}

/// The value that the object holds where this is its body.
fn held_value<'a>(object: &'a Object, behind: &'a Body) -> Option<&'a Value>
    ensures { option_copied result ≡ value_held object.now.fixed behind.now }
{
    match &behind.value {
        Some(value) => Some(value),
        None => as_value(object.fixed.get().properties.get(Attribute::OrigValue)),
    }
}

fn put_attributes(
    alloc: Global,
    form: Form,
    text: &mut Text,
    object: &Object,
    behind: &Body,
    attributes: &[Attribute],
) -> Result<(), AllocError>
    ensures { OnOk result (text.new
        ≡ text.old ++ flat_map (spec.attribute_note form object.now behind.now) attributes.now) }
{
    for attribute in attributes {
        put_attribute_of(alloc, form, text, object, behind, *attribute)?;
    }
    Ok(())
}

fn put_attribute_of(
    alloc: Global,
    form: Form,
    text: &mut Text,
    object: &Object,
    behind: &Body,
    attribute: Attribute,
) -> Result<(), AllocError>
    ensures { OnOk result (text.new ≡ text.old ++ spec.attribute_note form object.now behind.now attribute) }
{
    match behind.changes.get(attribute) {
        Some(held) => {
            let at = &object.fixed.get().key;
            put_attribute(
                alloc,
                form,
                text,
                at,
                attribute,
                object.read(attribute),
                held,
            )
        }
        None => Ok(()),
    }
}
