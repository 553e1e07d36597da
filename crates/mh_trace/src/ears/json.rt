//! What a link makes of an event that it waits for, as an object of a list.
ghost use Rattle.std.specs.Prelude.{◌≡◌, ◌++◌, IfOk, OnOk};
ghost use Rattle.std.specs.Option.{option_copied};
ghost use Rattle.mh_trace.specs.Ears as spec;
ghost use Rattle.mh_trace.specs.Words.{truth_text};

use crate::changes::json::shown_ref;
use crate::ears::text::put_wanted;
use crate::json::{put_member, put_more, put_plain};
use mh_base::{ObjRef, Value};
use mh_told::text::Text;
use std::alloc::{AllocError, Global};

#[tactic(auto, unfolding(crate::specs::Ears::link_json))]
fn put_link(alloc: Global, text: &mut Text, at: &ObjRef, hears: bool) -> Result<(), AllocError>
    ensures { OnOk result (text.new ≡ text.old ++ spec.link_json at.now hears) }
{
    let shown = shown_ref(alloc, at)?;
    text.put(b",{")?;
    put_member(text, b"link", shown.as_slice())?;
    put_plain(text, b"hears", truth_word(hears))
}

#[tactic(auto, unfolding(crate::specs::Words::truth_text))]
fn truth_word(truth: bool) -> &'static [u8]
    ensures { result.now ≡ truth_text truth }
{
    if truth { b"true" } else { b"false" }
}

#[tactic(auto, unfolding(crate::specs::Ears::heard_json))]
pub fn put_heard_json(alloc: Global, text: &mut Text, at: &ObjRef) -> Result<(), AllocError>
    ensures { OnOk result (text.new ≡ text.old ++ spec.heard_json at.now) }
{
    put_link(alloc, text, at, true)?;
    text.put(b"}")
}

#[tactic(auto, unfolding(crate::specs::Ears::stopped_json))]
pub fn put_stopped_json(alloc: Global, text: &mut Text, at: &ObjRef) -> Result<(), AllocError>
    ensures { OnOk result (text.new ≡ text.old ++ spec.stopped_json at.now) }
{
    put_link(alloc, text, at, false)?;
    put_plain(text, b"runs", b"false")?;
    text.put(b"}")
}

#[tactic(auto, unfolding(crate::specs::Ears::unlike_json))]
pub fn put_unlike_json(
    alloc: Global,
    text: &mut Text,
    at: &ObjRef,
    wanted: Option<&Value>,
) -> Result<(), AllocError>
    ensures { OnOk result (text.new ≡ text.old ++ spec.unlike_json at.now (option_copied wanted.entry)) }
{
    let shown = shown_wanted(alloc, wanted)?;
    put_link(alloc, text, at, false)?;
    put_more(text, b"waits for", shown.as_slice())?;
    text.put(b"}")
}

fn shown_wanted(alloc: Global, wanted: Option<&Value>) -> Result<Text, AllocError>
    ensures { IfOk result (λ shown. shown ≡ spec.wanted_text (option_copied wanted.entry)) }
{
    let mut shown = Text::new(alloc);
    put_wanted(alloc, &mut shown, wanted)?;
    Ok(shown)
}
