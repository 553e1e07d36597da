//! A part of an object that is not as it was, in a line.
ghost use Rattle.std.specs.Prelude.{◌≡◌, ◌++◌, OnOk};
ghost use Rattle.std.specs.Option.{option_copied};
ghost use Rattle.mh_trace.specs.Changes as spec;

use crate::short::{put_given, put_held, put_loaded_text, put_read};
use crate::words::put_ref;
use mh_base::{ObjRef, Octets, Value};
use mh_group::Attribute;
use mh_model::Held;
use mh_told::text::Text;
use std::alloc::{AllocError, Global};

/// Puts the beginning of a note on an object.
#[tactic(auto, unfolding(crate::specs::Changes::note_start))]
fn put_start(text: &mut Text, at: &ObjRef) -> Result<(), AllocError>
    ensures { OnOk result (text.new ≡ text.old ++ spec.note_start at.now) }
{
    text.put(b"; ")?;
    put_ref(text, at)?;
    text.put(b": ")
}

#[tactic(auto, unfolding(crate::specs::Changes::becomes))]
fn becomes() -> &'static [u8]
    ensures { result.now ≡ spec.becomes }
{
    b" becomes "
}

#[tactic(auto, unfolding(crate::specs::Changes::flag_text))]
pub fn put_flag_text(
    text: &mut Text,
    at: &ObjRef,
    word: &[u8],
    flag: bool,
) -> Result<(), AllocError>
    ensures { OnOk result (text.new ≡ text.old ++ spec.flag_text at.now word.now flag) }
{
    put_start(text, at)?;
    put_not(text, flag)?;
    text.put(word)
}

fn put_not(text: &mut Text, flag: bool) -> Result<(), AllocError>
    ensures { OnOk result (text.new ≡ text.old ++ spec.not_word flag) }
{
    if flag { Ok(()) } else { text.put(b"not ") }
}

#[tactic(auto, unfolding(crate::specs::Changes::count_text))]
pub fn put_count_text(
    text: &mut Text,
    at: &ObjRef,
    word: &[u8],
    before: usize,
    behind: usize,
) -> Result<(), AllocError>
    ensures { OnOk result (text.new ≡ text.old ++ spec.count_text at.now word.now before behind) }
{
    put_start(text, at)?;
    text.put(word)?;
    text.put(b" ")?;
    text.put_number(before as u64)?;
    text.put(becomes())?;
    text.put_number(behind as u64)
}

#[tactic(auto, unfolding(crate::specs::Changes::value_text_change))]
pub fn put_value_text(
    alloc: Global,
    text: &mut Text,
    at: &ObjRef,
    before: Option<&Value>,
    behind: Option<&Value>,
) -> Result<(), AllocError>
    ensures { OnOk result (text.new
        ≡ text.old ++ spec.value_text_change at.now (option_copied before.entry) (option_copied behind.entry)) }
{
    put_start(text, at)?;
    put_given(alloc, text, before)?;
    text.put(becomes())?;
    put_given(alloc, text, behind)
}

#[tactic(auto, unfolding(crate::specs::Changes::loaded_change))]
pub fn put_loaded_change(
    text: &mut Text,
    at: &ObjRef,
    before: &Option<Octets>,
    behind: &Option<Octets>,
) -> Result<(), AllocError>
    ensures { OnOk result (text.new ≡ text.old ++ spec.loaded_change at.now before.now behind.now) }
{
    put_start(text, at)?;
    text.put(b"text ")?;
    put_loaded_text(text, before)?;
    text.put(becomes())?;
    put_loaded_text(text, behind)
}

#[tactic(auto, unfolding(crate::specs::Changes::items_text))]
pub fn put_items_text(text: &mut Text, at: &ObjRef) -> Result<(), AllocError>
    ensures { OnOk result (text.new ≡ text.old ++ spec.items_text at.now) }
{
    put_start(text, at)?;
    text.put(b"other items")
}

#[tactic(auto, unfolding(crate::specs::Changes::attribute_text))]
pub fn put_attribute_text(
    alloc: Global,
    text: &mut Text,
    at: &ObjRef,
    attribute: Attribute,
    before: Option<&Held>,
    behind: &Held,
) -> Result<(), AllocError>
    ensures { OnOk result (text.new
        ≡ text.old ++ spec.attribute_text at.now attribute (option_copied before.entry) behind.now) }
{
    put_start(text, at)?;
    text.put(attribute.word())?;
    text.put(b" ")?;
    put_read(alloc, text, before)?;
    text.put(becomes())?;
    put_held(alloc, text, behind)
}
