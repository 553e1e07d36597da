//! What a link makes of an event that it waits for, in a line.
ghost use Rattle.std.specs.Prelude.{◌≡◌, ◌++◌, OnOk};
ghost use Rattle.std.specs.Option.{option_copied};
ghost use Rattle.mh_trace.specs.Ears as spec;

use crate::words::{put_ref, put_value};
use mh_base::{ObjRef, Value};
use mh_told::text::Text;
use std::alloc::{AllocError, Global};

#[tactic(auto, unfolding(crate::specs::Ears::heard_note))]
pub fn put_heard(text: &mut Text, at: &ObjRef) -> Result<(), AllocError>
    ensures { OnOk result (text.new ≡ text.old ++ spec.heard_note at.now) }
{
    text.put(b"; heard by ")?;
    put_ref(text, at)
}

#[tactic(auto, unfolding(crate::specs::Ears::stopped_note))]
pub fn put_stopped(text: &mut Text, at: &ObjRef) -> Result<(), AllocError>
    ensures { OnOk result (text.new ≡ text.old ++ spec.stopped_note at.now) }
{
    put_unheard(text, at)?;
    text.put(b", which does not run")
}

#[tactic(auto, unfolding(crate::specs::Ears::unheard_note))]
fn put_unheard(text: &mut Text, at: &ObjRef) -> Result<(), AllocError>
    ensures { OnOk result (text.new ≡ text.old ++ spec.unheard_note at.now) }
{
    text.put(unheard_word())?;
    put_ref(text, at)
}

#[tactic(auto, unfolding(crate::specs::Ears::unheard_word))]
fn unheard_word() -> &'static [u8]
    ensures { result.now ≡ spec.unheard_word }
{
    b"; not heard by "
}

#[tactic(auto, unfolding(crate::specs::Ears::unlike_note))]
pub fn put_unlike(
    alloc: Global,
    text: &mut Text,
    at: &ObjRef,
    wanted: Option<&Value>,
) -> Result<(), AllocError>
    ensures { OnOk result (text.new ≡ text.old ++ spec.unlike_note at.now (option_copied wanted.entry)) }
{
    put_unheard(text, at)?;
    text.put(b", which waits for ")?;
    put_wanted(alloc, text, wanted)
}

pub fn put_wanted(alloc: Global, text: &mut Text, wanted: Option<&Value>) -> Result<(), AllocError>
    ensures { OnOk result (text.new ≡ text.old ++ spec.wanted_text (option_copied wanted.entry)) }
{
    match wanted {
        Some(value) => put_value(alloc, text, value),
        None => Ok(()),
    }
}
