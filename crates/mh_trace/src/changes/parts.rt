//! Notes on the parts of an object: each is put where the part is not as it was.
ghost use Rattle.std.specs.Prelude.{◌≡◌, ◌++◌, OnOk};
ghost use Rattle.std.specs.Option.{option_copied};
ghost use Rattle.mh_trace.specs.Changes as spec;

use crate::changes::json::{
    put_attribute_json, put_count_json, put_flag_json, put_items_json, put_loaded_json,
    put_value_json,
};
use crate::changes::same::{is_same_given, is_same_list, is_same_loaded, is_same_read};
use crate::changes::text::{
    put_attribute_text, put_count_text, put_flag_text, put_items_text, put_loaded_change,
    put_value_text,
};
use crate::form::Form;
use mh_base::{ObjRef, Octets, Value};
use mh_group::Attribute;
use mh_model::{Entry, Held};
use mh_told::text::Text;
use std::alloc::{AllocError, Global};

pub fn put_flag(
    alloc: Global,
    form: Form,
    text: &mut Text,
    at: &ObjRef,
    word: &[u8],
    before: bool,
    behind: bool,
) -> Result<(), AllocError>
    ensures { OnOk result (text.new ≡ text.old ++ spec.flag_note form at.now word.now before behind) }
{
    if before == behind {
        Ok(())
    } else {
        put_flag_change(alloc, form, text, at, word, behind)
    }
}

fn put_flag_change(
    alloc: Global,
    form: Form,
    text: &mut Text,
    at: &ObjRef,
    word: &[u8],
    flag: bool,
) -> Result<(), AllocError>
    ensures { OnOk result (text.new ≡ text.old ++ spec.flag_change form at.now word.now flag) }
{
    match form {
        Form::Text => put_flag_text(text, at, word, flag),
        Form::Json => put_flag_json(alloc, text, at, word, flag),
    }
}

pub fn put_count(
    alloc: Global,
    form: Form,
    text: &mut Text,
    at: &ObjRef,
    word: &[u8],
    before: usize,
    behind: usize,
) -> Result<(), AllocError>
    ensures { OnOk result (text.new ≡ text.old ++ spec.count_note form at.now word.now before behind) }
{
    if before == behind {
        Ok(())
    } else {
        put_count_change(alloc, form, text, at, word, before, behind)
    }
}

fn put_count_change(
    alloc: Global,
    form: Form,
    text: &mut Text,
    at: &ObjRef,
    word: &[u8],
    before: usize,
    behind: usize,
) -> Result<(), AllocError>
    ensures { OnOk result (text.new ≡ text.old ++ spec.count_change form at.now word.now before behind) }
{
    match form {
        Form::Text => put_count_text(text, at, word, before, behind),
        Form::Json => put_count_json(alloc, text, at, word, before, behind),
    }
}

pub fn put_value(
    alloc: Global,
    form: Form,
    text: &mut Text,
    at: &ObjRef,
    before: Option<&Value>,
    behind: Option<&Value>,
) -> Result<(), AllocError>
    ensures { OnOk result (text.new
        ≡ text.old ++ spec.value_note form at.now (option_copied before.entry) (option_copied behind.entry)) }
{
    if is_same_given(before, behind) {
        Ok(())
    } else {
        put_value_change(alloc, form, text, at, before, behind)
    }
}

fn put_value_change(
    alloc: Global,
    form: Form,
    text: &mut Text,
    at: &ObjRef,
    before: Option<&Value>,
    behind: Option<&Value>,
) -> Result<(), AllocError>
    ensures { OnOk result (text.new
        ≡ text.old ++ spec.value_change form at.now (option_copied before.entry) (option_copied behind.entry)) }
{
    match form {
        Form::Text => put_value_text(alloc, text, at, before, behind),
        Form::Json => put_value_json(alloc, text, at, before, behind),
    }
}

pub fn put_loaded(
    alloc: Global,
    form: Form,
    text: &mut Text,
    at: &ObjRef,
    before: &Option<Octets>,
    behind: &Option<Octets>,
) -> Result<(), AllocError>
    ensures { OnOk result (text.new ≡ text.old ++ spec.text_note form at.now before.now behind.now) }
{
    if is_same_loaded(before, behind) {
        Ok(())
    } else {
        put_text_change(alloc, form, text, at, before, behind)
    }
}

fn put_text_change(
    alloc: Global,
    form: Form,
    text: &mut Text,
    at: &ObjRef,
    before: &Option<Octets>,
    behind: &Option<Octets>,
) -> Result<(), AllocError>
    ensures { OnOk result (text.new ≡ text.old ++ spec.text_change form at.now before.now behind.now) }
{
    match form {
        Form::Text => put_loaded_change(text, at, before, behind),
        Form::Json => put_loaded_json(alloc, text, at, before, behind),
    }
}

pub fn put_items(
    alloc: Global,
    form: Form,
    text: &mut Text,
    at: &ObjRef,
    before: &[Entry],
    behind: &[Entry],
) -> Result<(), AllocError>
    ensures { OnOk result (text.new ≡ text.old ++ spec.items_note form at.now before.now behind.now) }
{
    if is_same_list(before, behind) {
        Ok(())
    } else {
        put_items_change(alloc, form, text, at)
    }
}

fn put_items_change(
    alloc: Global,
    form: Form,
    text: &mut Text,
    at: &ObjRef,
) -> Result<(), AllocError>
    ensures { OnOk result (text.new ≡ text.old ++ spec.items_change form at.now) }
{
    match form {
        Form::Text => put_items_text(text, at),
        Form::Json => put_items_json(alloc, text, at),
    }
}

/// Puts a note on an attribute that holds this now, where it held something else before.
pub fn put_attribute(
    alloc: Global,
    form: Form,
    text: &mut Text,
    at: &ObjRef,
    attribute: Attribute,
    before: Option<&Held>,
    behind: &Held,
) -> Result<(), AllocError>
    ensures { OnOk result (text.new
        ≡ text.old ++ spec.attribute_by form at.now attribute (option_copied before.entry) (Some behind.now)) }
{
    if is_same_read(before, behind) {
        Ok(())
    } else {
        put_attribute_change(alloc, form, text, at, attribute, before, behind)
    }
}

fn put_attribute_change(
    alloc: Global,
    form: Form,
    text: &mut Text,
    at: &ObjRef,
    attribute: Attribute,
    before: Option<&Held>,
    behind: &Held,
) -> Result<(), AllocError>
    ensures { OnOk result (text.new
        ≡ text.old ++ spec.attribute_change form at.now attribute (option_copied before.entry) behind.now) }
{
    match form {
        Form::Text => put_attribute_text(alloc, text, at, attribute, before, behind),
        Form::Json => put_attribute_json(alloc, text, at, attribute, before, behind),
    }
}
