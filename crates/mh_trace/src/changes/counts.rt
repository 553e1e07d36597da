//! The numbers of an object that have changed.
ghost use Rattle.std.specs.Prelude.{◌≡◌, ◌++◌, OnOk};
ghost use Rattle.mh_trace.specs.Changes as spec;

use crate::changes::parts::put_count;
use crate::form::Form;
use mh_base::ObjRef;
use mh_model::Body;
use mh_told::text::Text;
use std::alloc::{AllocError, Global};

#[tactic(auto, unfolding(crate::specs::Changes::count_notes))]
pub fn put_counts(
    alloc: Global,
    form: Form,
    text: &mut Text,
    at: &ObjRef,
    before: &Body,
    behind: &Body,
) -> Result<(), AllocError>
    ensures { OnOk result (text.new ≡ text.old ++ spec.count_notes form at.now before.now behind.now) }
{
    put_token(alloc, form, text, at, before.token, behind.token)?;
    put_point(alloc, form, text, at, before.point, behind.point)?;
    let (drawn, more) = (before.drawings.len(), behind.drawings.len());
    put_drawings(alloc, form, text, at, drawn, more)?;
    put_first(
        alloc,
        form,
        text,
        at,
        before.list.first(),
        behind.list.first(),
    )
}

#[tactic(auto, unfolding(crate::specs::Changes::token_note))]
fn put_token(
    alloc: Global,
    form: Form,
    text: &mut Text,
    at: &ObjRef,
    before: usize,
    behind: usize,
) -> Result<(), AllocError>
    ensures { OnOk result (text.new ≡ text.old ++ spec.token_note form at.now before behind) }
{
    put_count(alloc, form, text, at, b"token", before, behind)
}

#[tactic(auto, unfolding(crate::specs::Changes::point_note))]
fn put_point(
    alloc: Global,
    form: Form,
    text: &mut Text,
    at: &ObjRef,
    before: usize,
    behind: usize,
) -> Result<(), AllocError>
    ensures { OnOk result (text.new ≡ text.old ++ spec.point_note form at.now before behind) }
{
    put_count(alloc, form, text, at, b"entry point", before, behind)
}

#[tactic(auto, unfolding(crate::specs::Changes::drawings_note))]
fn put_drawings(
    alloc: Global,
    form: Form,
    text: &mut Text,
    at: &ObjRef,
    before: usize,
    behind: usize,
) -> Result<(), AllocError>
    ensures { OnOk result (text.new ≡ text.old ++ spec.drawings_note form at.now before behind) }
{
    put_count(alloc, form, text, at, b"drawings", before, behind)
}

#[tactic(auto, unfolding(crate::specs::Changes::first_note))]
fn put_first(
    alloc: Global,
    form: Form,
    text: &mut Text,
    at: &ObjRef,
    before: usize,
    behind: usize,
) -> Result<(), AllocError>
    ensures { OnOk result (text.new ≡ text.old ++ spec.first_note form at.now before behind) }
{
    put_count(alloc, form, text, at, b"first item", before, behind)
}
