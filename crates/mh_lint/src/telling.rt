//! The lines of findings: the file, the line and the column, what never happens, and why.
//!
//! Promise: each function puts what the definition of its name in `specs/Telling` says.
ghost use Rattle.std.specs.Prelude.{◌≡◌, ◌++◌, Some, OnOk, None, Option};
ghost use Rattle.std.specs.List.{flat_map};
ghost use Rattle.std.specs.Option.{option_copied};
ghost use Rattle.mh_lint.specs.Telling as spec;

use crate::finding::Finding;
use crate::reasons::{Lack, put_idle_reason, put_link_reason};
use mh_base::{EventType, GroupName, ObjRef, Value};
use mh_flow::Equipped;
use mh_group::event_word;
use mh_model::{Config, Fixed};
use mh_places::{Directory, Place, put_place};
use mh_told::text::Text;
use std::alloc::{AllocError, Global};

#[tactic(auto, unfolding(crate::specs::Telling::place_words))]
pub(crate) fn put_front_place(text: &mut Text, place: Option<Place>) -> Result<(), AllocError>
    ensures { OnOk result (text.new ≡ text.old ++ spec.place_words place) }
{
    match place {
        None => Ok(()),
        Some(place) => {
            put_place(text, place)?;
            text.put(b":")
        }
    }
}

/// Puts the file, and the place in it where that is found.
#[tactic(auto, unfolding(crate::specs::Telling::front_words))]
pub(crate) fn put_front(
    text: &mut Text,
    directory: &Directory<'_>,
    at: &ObjRef,
) -> Result<(), AllocError>
    ensures { OnOk result (text.new ≡ text.old ++ spec.front_words directory.now at.now) }
{
    text.put(at.group.as_bytes())?;
    text.put(b":")?;
    put_front_place(text, directory.object_place(at))
}

#[tactic(auto, unfolding(crate::specs::Telling::class_words))]
fn put_class(text: &mut Text, part: Option<&Fixed>) -> Result<(), AllocError>
    ensures { OnOk result (text.new ≡ text.old ++ spec.class_words (option_copied part.entry)) }
{
    match part {
        None => text.put(b"object"),
        Some(part) => text.put(part.class.word()),
    }
}

/// Puts the class of the object and its number.
#[tactic(auto, unfolding(crate::specs::Telling::object_words))]
pub fn put_object(text: &mut Text, service: &Equipped<'_>, at: &ObjRef) -> Result<(), AllocError>
    ensures { OnOk result (text.new ≡ text.old ++ spec.object_words service.now at.now) }
{
    put_class(text, service.find(at))?;
    text.put(b" ")?;
    text.put_number(u64::from(at.number))
}

#[tactic(auto, unfolding(crate::specs::Telling::group_words))]
fn put_group(text: &mut Text, from: &GroupName, group: &GroupName) -> Result<(), AllocError>
    ensures { OnOk result (text.new ≡ text.old ++ spec.group_words from.now group.now) }
{
    if *group == *from {
        return Ok(());
    }
    text.put(b" of ")?;
    text.put(group.as_bytes())
}

/// Puts an object, with its group where that is another.
#[tactic(auto, unfolding(crate::specs::Telling::source_words))]
pub(crate) fn put_source(
    text: &mut Text,
    service: &Equipped<'_>,
    from: &GroupName,
    at: &ObjRef,
) -> Result<(), AllocError>
    ensures { OnOk result (text.new ≡ text.old ++ spec.source_words service.now from.now at.now) }
{
    put_object(text, service, at)?;
    put_group(text, from, &at.group)
}

#[tactic(auto, unfolding(crate::specs::Telling::signed_words))]
fn put_signed(text: &mut Text, number: &i32) -> Result<(), AllocError>
    ensures { OnOk result (text.new ≡ text.old ++ spec.signed_words number.now) }
{
    if *number < 0 {
        text.put(b"-")?;
    }
    text.put_number(u64::from(number.unsigned_abs()))
}

#[tactic(auto, unfolding(crate::specs::Telling::value_words))]
pub(crate) fn put_value(text: &mut Text, value: &Value) -> Result<(), AllocError>
    ensures { OnOk result (text.new ≡ text.old ++ spec.value_words value.now) }
{
    match value {
        Value::Bool(true) => text.put(b"true"),
        Value::Bool(false) => text.put(b"false"),
        Value::Int(number) => put_signed(text, number),
        Value::Octets(_) => text.put(b"these octets"),
        Value::Object(_) => text.put(b"this object"),
        Value::Content(_) => text.put(b"this content"),
    }
}

#[tactic(auto, unfolding(crate::specs::Telling::unreached_words))]
fn put_unreached(text: &mut Text) -> Result<(), AllocError>
    ensures { OnOk result (text.new ≡ text.old ++ spec.unreached_words) }
{
    text.put(b" is entered by nothing: no active action leads to it")
}

/// Puts that no event of the type comes with the data for which the link waits.
#[tactic(auto, unfolding(crate::specs::Telling::unsaid_words))]
fn put_unsaid(text: &mut Text, kind: EventType, value: &Value) -> Result<(), AllocError>
    ensures { OnOk result (text.new ≡ text.old ++ spec.unsaid_words kind value.now) }
{
    text.put(b" waits for ")?;
    text.put(event_word(kind))?;
    text.put(b" with ")?;
    put_value(text, value)?;
    text.put(b": none comes with that")
}

/// Puts the data that the link names, if it names any.
#[tactic(auto, unfolding(crate::specs::Telling::data_words))]
pub(crate) fn put_data(text: &mut Text, value: Option<&Value>) -> Result<(), AllocError>
    ensures { OnOk result (text.new ≡ text.old ++ spec.data_words (option_copied value.entry)) }
{
    match value {
        None => Ok(()),
        Some(Value::Int(number)) => {
            text.put(b" ")?;
            put_signed(text, number)
        }
        Some(value) => {
            text.put(b" with ")?;
            put_value(text, value)
        }
    }
}

/// Puts of which object.
#[tactic(auto, unfolding(crate::specs::Telling::of_words))]
pub(crate) fn put_of(
    text: &mut Text,
    service: &Equipped<'_>,
    from: &GroupName,
    at: &ObjRef,
) -> Result<(), AllocError>
    ensures { OnOk result (text.new ≡ text.old ++ spec.of_words service.now from.now at.now) }
{
    text.put(b" of ")?;
    put_source(text, service, from, at)
}

#[tactic(auto, unfolding(crate::specs::Telling::idle_words))]
fn put_idle(text: &mut Text, configs: &[Config], group: &GroupName) -> Result<(), AllocError>
    ensures { OnOk result (text.new ≡ text.old ++ spec.idle_words configs.now group.now) }
{
    text.put(b" is run by nothing")?;
    put_idle_reason(text, configs, group)
}

#[tactic(auto, unfolding(crate::specs::Telling::unput_words))]
fn put_unput(
    text: &mut Text,
    service: &Equipped<'_>,
    configs: &[Config],
    at: &ObjRef,
) -> Result<(), AllocError>
    ensures { OnOk result (text.new ≡ text.old ++ spec.unput_words service.now configs.now at.now) }
{
    text.put(b" is put to work by nothing")?;
    put_link_reason(text, Lack::Emission, service, configs, at)
}

#[tactic(auto, unfolding(crate::specs::Telling::deaf_words))]
fn put_deaf(
    text: &mut Text,
    service: &Equipped<'_>,
    configs: &[Config],
    at: &ObjRef,
) -> Result<(), AllocError>
    ensures { OnOk result (text.new ≡ text.old ++ spec.deaf_words service.now configs.now at.now) }
{
    text.put(b" hears nothing")?;
    put_link_reason(text, Lack::Hearing, service, configs, at)
}

/// Puts what is said of a finding behind its object, where these configurations are reached.
pub fn put_words(
    text: &mut Text,
    service: &Equipped<'_>,
    configs: &[Config],
    finding: &Finding,
) -> Result<(), AllocError>
    ensures { OnOk result (text.new ≡ text.old ++ spec.said_words service.now configs.now finding.now) }
{
    match finding {
        Finding::Unreached(_) => put_unreached(text),
        Finding::Idle(at) => put_idle(text, configs, &at.group),
        Finding::Unsaid(_, kind, value) => put_unsaid(text, *kind, value),
        Finding::Unput(at) => put_unput(text, service, configs, at),
        Finding::Deaf(at) => put_deaf(text, service, configs, at),
    }
}

/// The object of which a finding is told.
pub fn object_of(finding: &Finding) -> &ObjRef
    ensures { result.now ≡ spec.object_of finding.now }
{
    match finding {
        Finding::Unreached(at)
        | Finding::Idle(at)
        | Finding::Unsaid(at, _, _)
        | Finding::Unput(at)
        | Finding::Deaf(at) => at,
    }
}

/// Puts the line of a finding.
#[tactic(auto, unfolding(crate::specs::Telling::finding_words))]
pub fn put_finding(
    text: &mut Text,
    service: &Equipped<'_>,
    configs: &[Config],
    directory: &Directory<'_>,
    finding: &Finding,
) -> Result<(), AllocError>
    ensures { OnOk result (text.new
        ≡ text.old ++ spec.finding_words service.now configs.now directory.now finding.now) }
{
    let at = object_of(finding);
    put_front(text, directory, at)?;
    text.put(b" never: ")?;
    put_object(text, service, at)?;
    put_words(text, service, configs, finding)?;
    text.put(b"\n")
}

/// Puts the lines of all findings, where these configurations are reached.
pub fn put_findings(
    text: &mut Text,
    service: &Equipped<'_>,
    configs: &[Config],
    directory: &Directory<'_>,
    found: &[Finding],
) -> Result<(), AllocError>
    ensures { OnOk result (text.new
        ≡ text.old ++ spec.never_words service.now configs.now directory.now found.now) }
{
    for finding in found {
        put_finding(text, service, configs, directory, finding)?;
    }
    Ok(())
}
