//! Whether an object has come to be available, to run and the like, or does so no longer.
ghost use Rattle.std.specs.Prelude.{◌≡◌, ◌++◌, OnOk};
ghost use Rattle.mh_trace.specs.Changes as spec;

use crate::changes::parts::put_flag;
use crate::form::Form;
use mh_base::ObjRef;
use mh_model::Body;
use mh_told::text::Text;
use std::alloc::{AllocError, Global};

#[tactic(auto, unfolding(crate::specs::Changes::life_notes))]
pub fn put_life(
    alloc: Global,
    form: Form,
    text: &mut Text,
    at: &ObjRef,
    before: &Body,
    behind: &Body,
) -> Result<(), AllocError>
    ensures { OnOk result (text.new ≡ text.old ++ spec.life_notes form at.now before.now behind.now) }
{
    put_available(alloc, form, text, at, before.available, behind.available)?;
    put_running(alloc, form, text, at, before.running, behind.running)?;
    put_highlighted(
        alloc,
        form,
        text,
        at,
        before.highlighted,
        behind.highlighted,
    )?;
    put_selected(alloc, form, text, at, before.selected, behind.selected)?;
    put_overwriting(alloc, form, text, at, before.overwrites, behind.overwrites)
}

#[tactic(auto, unfolding(crate::specs::Changes::available_note))]
fn put_available(
    alloc: Global,
    form: Form,
    text: &mut Text,
    at: &ObjRef,
    before: bool,
    behind: bool,
) -> Result<(), AllocError>
    ensures { OnOk result (text.new ≡ text.old ++ spec.available_note form at.now before behind) }
{
    put_flag(alloc, form, text, at, b"available", before, behind)
}

#[tactic(auto, unfolding(crate::specs::Changes::running_note))]
fn put_running(
    alloc: Global,
    form: Form,
    text: &mut Text,
    at: &ObjRef,
    before: bool,
    behind: bool,
) -> Result<(), AllocError>
    ensures { OnOk result (text.new ≡ text.old ++ spec.running_note form at.now before behind) }
{
    put_flag(alloc, form, text, at, b"running", before, behind)
}

#[tactic(auto, unfolding(crate::specs::Changes::highlighted_note))]
fn put_highlighted(
    alloc: Global,
    form: Form,
    text: &mut Text,
    at: &ObjRef,
    before: bool,
    behind: bool,
) -> Result<(), AllocError>
    ensures { OnOk result (text.new ≡ text.old ++ spec.highlighted_note form at.now before behind) }
{
    put_flag(alloc, form, text, at, b"highlighted", before, behind)
}

#[tactic(auto, unfolding(crate::specs::Changes::selected_note))]
fn put_selected(
    alloc: Global,
    form: Form,
    text: &mut Text,
    at: &ObjRef,
    before: bool,
    behind: bool,
) -> Result<(), AllocError>
    ensures { OnOk result (text.new ≡ text.old ++ spec.selected_note form at.now before behind) }
{
    put_flag(alloc, form, text, at, b"selected", before, behind)
}

#[tactic(auto, unfolding(crate::specs::Changes::overwriting_note))]
fn put_overwriting(
    alloc: Global,
    form: Form,
    text: &mut Text,
    at: &ObjRef,
    before: bool,
    behind: bool,
) -> Result<(), AllocError>
    ensures { OnOk result (text.new ≡ text.old ++ spec.overwriting_note form at.now before behind) }
{
    put_flag(alloc, form, text, at, b"overwriting", before, behind)
}
