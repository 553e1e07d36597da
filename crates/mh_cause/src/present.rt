//! How an object is mended that is not there: what is there, and most like it.
ghost use Rattle.std.specs.Prelude.{◌≡◌, ◌++◌, OnOk};
ghost use Rattle.std.specs.Option.{option_copied};
ghost use Rattle.mh_service.specs.Resolved.{parts_under};
ghost use Rattle.mh_cause.specs.Absent.{absent_mend, absent_mend_for, held_mend, holder_mend, kept_mend, list_mend, like_name, name_told, near_name, no_group_mend, no_number_mend, not_shown_mend, there_mend, written_mend};

use crate::acts::part_numbered;
use crate::candidates::put_candidates;
use crate::elsewhere::meant_names;
use crate::naming::put_named;
use crate::phrases::{
    ADD_FILE, HOLD_PRESENT, KEPT_VARIABLE, MOVE_TO, NAME_THERE, NEAREST_NAME, THAT_IS_THERE,
};
use crate::refused::Refused;
use mh_base::{GroupName, Kind, ObjRef};
use mh_group::ActionName;
use mh_misread::is_like;
use mh_model::kinds::variable_kind;
use mh_model::{Fixed, FixedPart};
use mh_service::Service;
use mh_told::text::Text;
use std::alloc::{AllocError, Global};

/// The name that is most like the word.
#[tactic(auto, unfolding(crate::specs::Absent::near_name))]
fn near_name<'a>(word: &[u8], names: &'a [GroupName]) -> Option<&'a GroupName>
    ensures { option_copied result ≡ near_name word.now names.now }
{
    if let Some(name) = like_name(0, word, names) {
        return Some(name);
    }
    if let Some(name) = like_name(1, word, names) {
        return Some(name);
    }
    like_name(2, word, names)
}

/// The first name of which the word is written with so many changes.
fn like_name<'a>(changes: usize, word: &[u8], names: &'a [GroupName]) -> Option<&'a GroupName>
    ensures { option_copied result ≡ like_name changes word.now names.now }
{
    names
        .iter()
        .find(|name| is_like(changes, word, name.as_bytes()))
}

#[tactic(auto, unfolding(crate::specs::Absent::name_told))]
fn put_name_told(text: &mut Text, name: Option<&GroupName>) -> Result<(), AllocError>
    ensures { OnOk result (text.new ≡ text.old ++ name_told (option_copied name.entry)) }
{
    match name {
        None => Ok(()),
        Some(name) => {
            text.put(NEAREST_NAME)?;
            text.put(name.as_bytes())
        }
    }
}

#[tactic(auto, unfolding(crate::specs::Absent::no_group_mend))]
fn put_no_group_mend(
    alloc: Global,
    text: &mut Text,
    service: &Service,
    action: Option<ActionName>,
    at: &ObjRef,
) -> Result<(), AllocError>
    ensures { OnOk result (text.new ≡ text.old ++ no_group_mend service.now action at.now) }
{
    let names = meant_names(alloc, service, action)?;
    text.put(ADD_FILE)?;
    put_name_told(text, near_name(at.group.as_bytes(), names.as_slice()))
}

#[tactic(auto, unfolding(crate::specs::Absent::no_number_mend))]
fn put_no_number_mend(
    alloc: Global,
    text: &mut Text,
    service: &Service,
    refused: &Refused<'_>,
) -> Result<(), AllocError>
    ensures { OnOk result (text.new ≡ text.old ++ no_number_mend service.now refused.now) }
{
    text.put(NAME_THERE)?;
    put_candidates(alloc, text, service, refused)
}

#[tactic(auto, unfolding(crate::specs::Absent::not_shown_mend))]
fn put_not_shown_mend(text: &mut Text, at: &ObjRef, part: &Fixed) -> Result<(), AllocError>
    ensures { OnOk result (text.new ≡ text.old ++ not_shown_mend at.now part.now) }
{
    text.put(MOVE_TO)?;
    text.put(at.group.as_bytes())?;
    put_kept_mend(text, variable_kind(part.class))
}

#[tactic(auto, unfolding(crate::specs::Absent::kept_mend))]
fn put_kept_mend(text: &mut Text, kind: Option<Kind>) -> Result<(), AllocError>
    ensures { OnOk result (text.new ≡ text.old ++ kept_mend kind) }
{
    match kind {
        None => Ok(()),
        Some(_) => text.put(KEPT_VARIABLE),
    }
}

fn put_there_mend(
    alloc: Global,
    text: &mut Text,
    service: &Service,
    refused: &Refused<'_>,
    part: Option<&FixedPart>,
) -> Result<(), AllocError>
    ensures { OnOk result (text.new ≡ text.old ++ there_mend service.now refused.now (option_copied part.entry)) }
{
    match part {
        None => put_no_number_mend(alloc, text, service, refused),
        Some(part) => put_not_shown_mend(text, refused.at, part.get()),
    }
}

fn put_written_mend(
    alloc: Global,
    text: &mut Text,
    service: &Service,
    refused: &Refused<'_>,
    parts: Option<&[FixedPart]>,
) -> Result<(), AllocError>
    ensures { OnOk result (text.new ≡ text.old ++ written_mend service.now refused.now (option_copied parts.entry)) }
{
    match parts {
        None => put_no_group_mend(alloc, text, service, refused.action, refused.at),
        Some(parts) => {
            let part = part_numbered(parts, refused.at.number);
            put_there_mend(alloc, text, service, refused, part)
        }
    }
}

#[tactic(auto, unfolding(crate::specs::Absent::held_mend))]
fn put_held_mend(text: &mut Text, holder: &ObjRef) -> Result<(), AllocError>
    ensures { OnOk result (text.new ≡ text.old ++ held_mend holder.now) }
{
    text.put(b"set ")?;
    put_named(text, holder)?;
    text.put(THAT_IS_THERE)
}

#[tactic(auto, unfolding(crate::specs::Absent::list_mend))]
fn put_list_mend(text: &mut Text, holder: &ObjRef) -> Result<(), AllocError>
    ensures { OnOk result (text.new ≡ text.old ++ list_mend holder.now) }
{
    text.put(b"let ")?;
    put_named(text, holder)?;
    text.put(HOLD_PRESENT)
}

/// Puts what a list, or a variable, may hold.
fn put_holder_mend(
    text: &mut Text,
    holder: &ObjRef,
    action: Option<ActionName>,
) -> Result<(), AllocError>
    ensures { OnOk result (text.new ≡ text.old ++ holder_mend holder.now action) }
{
    match action {
        None => put_list_mend(text, holder),
        Some(_) => put_held_mend(text, holder),
    }
}

/// Puts what may be named in its place.
pub(crate) fn put_absent_mend(
    alloc: Global,
    text: &mut Text,
    service: &Service,
    refused: &Refused<'_>,
) -> Result<(), AllocError>
    ensures { OnOk result (text.new ≡ text.old ++ absent_mend service.now refused.now) }
{
    match refused.holder {
        None => {
            let parts = service.group(&refused.at.group);
            put_written_mend(alloc, text, service, refused, parts)
        }
        Some(holder) => put_holder_mend(text, holder, refused.action),
    }
}
