//! Objects that are not there: where they are named, why they are not there, and what is.
ghost use Rattle.std.specs.Prelude.{◌≡◌, ◌++◌, OnOk, IfOk};
ghost use Rattle.std.specs.Option.{option_copied};
ghost use Rattle.mh_service.specs.Resolved.{parts_under};
ghost use Rattle.mh_cause.specs.Acts.{numbered};
ghost use Rattle.mh_cause.specs.Absent.{absence, absent_cause, absent_in, file_kind, held_front, held_words, item_words, member_words, no_group, no_number, not_shown, of_action, of_members, place_words, shown_words, written_words};

use crate::acts::part_numbered;
use crate::naming::{put_named, put_numbered, put_parameter};
use crate::phrases::{
    A_MEMBER_OF, HAS_NO_OBJECT, HOLDS_WHICH, IN_FOLDER_IS, IS_DONE_TO, IS_WHAT, NO_FILE,
    ONLY_WHILE, THE_TARGET_OF,
};
use crate::refused::Refused;
use crate::role::{Role, role_at};
use mh_base::{GroupName, ObjRef};
use mh_group::ActionName;
use mh_model::FixedPart;
use mh_service::Service;
use mh_told::text::Text;
use std::alloc::AllocError;

/// Puts where it is written.
#[tactic(auto, unfolding(crate::specs::Absent::written_words))]
fn put_written_words(
    text: &mut Text,
    action: ActionName,
    role: Role,
    at: &ObjRef,
) -> Result<(), AllocError>
    ensures { OnOk result (text.new ≡ text.old ++ written_words action role at.now) }
{
    match role {
        Role::Target => {
            text.put(action.word())?;
            text.put(IS_DONE_TO)?;
            put_named(text, at)
        }
        Role::Through => {
            text.put(THE_TARGET_OF)?;
            text.put(action.word())?;
            text.put(IS_WHAT)?;
            put_named(text, at)?;
            text.put(b" holds")
        }
        Role::Parameter(number) => {
            put_parameter(text, action, number)?;
            text.put(b" is ")?;
            put_named(text, at)
        }
        Role::Unknown => {
            text.put(action.word())?;
            text.put(b" names ")?;
            put_named(text, at)
        }
    }
}

fn put_held_front(text: &mut Text, action: ActionName, role: Role) -> Result<(), AllocError>
    ensures { OnOk result (text.new ≡ text.old ++ held_front action role) }
{
    match role {
        Role::Parameter(number) => {
            put_parameter(text, action, number)?;
            text.put(IS_WHAT)
        }
        _ => {
            text.put(action.word())?;
            text.put(IS_DONE_TO)?;
            text.put(b"what ")
        }
    }
}

/// Puts where the variable is written that may hold it.
#[tactic(auto, unfolding(crate::specs::Absent::held_words))]
fn put_held_words(
    text: &mut Text,
    action: ActionName,
    role: Role,
    holder: &ObjRef,
    at: &ObjRef,
) -> Result<(), AllocError>
    ensures { OnOk result (text.new ≡ text.old ++ held_words action role holder.now at.now) }
{
    put_held_front(text, action, role)?;
    put_named(text, holder)?;
    text.put(HOLDS_WHICH)?;
    put_named(text, at)
}

#[tactic(auto, unfolding(crate::specs::Absent::member_words))]
fn put_member_words(text: &mut Text, refused: &Refused<'_>) -> Result<(), AllocError>
    ensures { OnOk result (text.new ≡ text.old ++ member_words refused.now) }
{
    text.put(A_MEMBER_OF)?;
    put_numbered(text, refused.group.as_bytes(), refused.object)?;
    text.put(b" is ")?;
    put_named(text, refused.at)
}

#[tactic(auto, unfolding(crate::specs::Absent::item_words))]
fn put_item_words(text: &mut Text, refused: &Refused<'_>) -> Result<(), AllocError>
    ensures { OnOk result (text.new ≡ text.old ++ item_words refused.now) }
{
    text.put(b"an item of ")?;
    put_numbered(text, refused.group.as_bytes(), refused.object)?;
    text.put(b" can be ")?;
    put_named(text, refused.at)
}

fn put_of_members(
    text: &mut Text,
    refused: &Refused<'_>,
    holder: Option<&ObjRef>,
) -> Result<(), AllocError>
    ensures { OnOk result (text.new ≡ text.old ++ of_members refused.now (option_copied holder.entry)) }
{
    match holder {
        None => put_member_words(text, refused),
        Some(_) => put_item_words(text, refused),
    }
}

fn put_of_action(
    text: &mut Text,
    service: &Service,
    refused: &Refused<'_>,
    action: ActionName,
    holder: Option<&ObjRef>,
) -> Result<(), AllocError>
    ensures { OnOk result (text.new ≡ text.old ++ of_action service.now refused.now action (option_copied holder.entry)) }
{
    match holder {
        None => {
            let role = role_at(service, refused, refused.at);
            put_written_words(text, action, role, refused.at)
        }
        Some(holder) => {
            let role = role_at(service, refused, holder);
            put_held_words(text, action, role, holder, refused.at)
        }
    }
}

fn put_place_words(
    text: &mut Text,
    service: &Service,
    refused: &Refused<'_>,
    action: Option<ActionName>,
) -> Result<(), AllocError>
    ensures { OnOk result (text.new ≡ text.old ++ place_words service.now refused.now action) }
{
    match action {
        None => put_of_members(text, refused, refused.holder),
        Some(action) => put_of_action(text, service, refused, action, refused.holder),
    }
}

/// What the file of the group that is named has to be.
fn file_kind(action: Option<ActionName>) -> &'static [u8]
    ensures { result.now ≡ file_kind action }
{
    match action {
        Some(ActionName::TransitionTo) => b"a scene",
        Some(ActionName::Launch) => b"an application",
        _ => b"a group",
    }
}

#[tactic(auto, unfolding(crate::specs::Absent::no_group))]
fn put_no_group(text: &mut Text, action: Option<ActionName>, at: &ObjRef) -> Result<(), AllocError>
    ensures { OnOk result (text.new ≡ text.old ++ no_group action at.now) }
{
    text.put(NO_FILE)?;
    text.put(at.group.as_bytes())?;
    text.put(IN_FOLDER_IS)?;
    text.put(file_kind(action))
}

#[tactic(auto, unfolding(crate::specs::Absent::no_number))]
fn put_no_number(text: &mut Text, at: &ObjRef) -> Result<(), AllocError>
    ensures { OnOk result (text.new ≡ text.old ++ no_number at.now) }
{
    text.put(b", and ")?;
    text.put(at.group.as_bytes())?;
    text.put(HAS_NO_OBJECT)?;
    text.put_number(u64::from(at.number))
}

/// Puts that the group is the scene or the application.
#[tactic(auto, unfolding(crate::specs::Absent::shown_words))]
fn put_shown(text: &mut Text, service: &Service, group: &GroupName) -> Result<(), AllocError>
    ensures { OnOk result (text.new ≡ text.old ++ shown_words service.now group.now) }
{
    if service.has_scene(group) {
        text.put(b"scene ")?;
        text.put(group.as_bytes())?;
        return text.put(b" is shown");
    }
    text.put(b"application ")?;
    text.put(group.as_bytes())?;
    text.put(b" runs")
}

#[tactic(auto, unfolding(crate::specs::Absent::not_shown))]
fn put_not_shown(text: &mut Text, service: &Service, at: &ObjRef) -> Result<(), AllocError>
    ensures { OnOk result (text.new ≡ text.old ++ not_shown service.now at.now) }
{
    text.put(ONLY_WHILE)?;
    put_shown(text, service, &at.group)
}

fn put_absent_in(
    text: &mut Text,
    service: &Service,
    at: &ObjRef,
    part: Option<&FixedPart>,
) -> Result<(), AllocError>
    ensures { OnOk result (text.new ≡ text.old ++ absent_in service.now at.now (option_copied part.entry)) }
{
    match part {
        None => put_no_number(text, at),
        Some(_) => put_not_shown(text, service, at),
    }
}

fn put_absence(
    text: &mut Text,
    service: &Service,
    action: Option<ActionName>,
    at: &ObjRef,
    parts: Option<&[FixedPart]>,
) -> Result<(), AllocError>
    ensures { OnOk result (text.new ≡ text.old ++ absence service.now action at.now (option_copied parts.entry)) }
{
    match parts {
        None => put_no_group(text, action, at),
        Some(parts) => put_absent_in(text, service, at, part_numbered(parts, at.number)),
    }
}

/// Puts where the object is named, and why it is not there.
#[tactic(auto, unfolding(crate::specs::Absent::absent_cause))]
pub(crate) fn put_absent_cause(
    text: &mut Text,
    service: &Service,
    refused: &Refused<'_>,
) -> Result<(), AllocError>
    ensures { OnOk result (text.new ≡ text.old ++ absent_cause service.now refused.now) }
{
    put_place_words(text, service, refused, refused.action)?;
    let parts = service.group(&refused.at.group);
    put_absence(text, service, refused.action, refused.at, parts)
}
