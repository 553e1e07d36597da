//! Chains: whether links bring a reference to a variable or a list, one after another.
//!
//! Promise: each function answers what the definition that its clause names says. To what variables refer is granted.
ghost use Rattle.std.specs.Prelude.{◌≡◌, ◌&&◌, false};
ghost use Rattle.std.specs.List.{list_any};
ghost use Rattle.std.specs.Option.{option_copied, option_map_or, option_to_list};
ghost use Rattle.mh_laws.specs.Flow as flow;
ghost use Rattle.mh_flow.specs.Chart.{firsts};
ghost use Rattle.mh_model.specs.Arguments.{receiver_of};
ghost use Rattle.mh_model.specs.Property.{as_reference, value_held};
ghost use Rattle.mh_model.specs.Reference.{same_key};
ghost use Rattle.mh_model.specs.Service.{fresh, group_parts};
ghost use Rattle.mh_verify.specs.Evidence as spec;
ghost use Rattle.mh_evidence.specs.Spots as spots;

use crate::sites::{at_link, handed};
use crate::there::{class_in, is_holder, is_list_group, members, refers};
use mh_base::{ObjRef, Value};
use mh_flow::{Link, Site};
use mh_group::{ActionName, Attribute};
use mh_model::held::as_value;
use mh_model::{Argument, Fixed, Member, Target};
use mh_service::Service;

/// Whether the links bring the reference to what the last of them writes.
#[tactic(auto, using(crate::proofs::ChainLemmas::led_on_there))]
pub(crate) fn brings(service: &Service, at: &ObjRef, links: &[Link]) -> bool
    ensures { result ≡ spec.brings service.now at.now links.now }
{
    match links.split_first() {
        None => false,
        Some((link, behind)) => {
            begins(service, at, link) && leads_on(service, &link.written, behind)
        }
    }
}

/// Whether the links lead on from what was written last.
fn leads_on(service: &Service, from: &ObjRef, links: &[Link]) -> bool
    ensures { result ≡ spots.leads_on_there service.now from.now links.now }
{
    let mut from = from;
    for link in links {
        if !goes_on(service, from, link) {
            return false;
        }
        from = &link.written;
    }
    true
}

/// What the links write last.
#[tactic(auto, using(crate::proofs::ChainLemmas::written_last))]
pub(crate) fn last_written(links: &[Link]) -> Option<&ObjRef>
    ensures { option_copied result ≡ spec.last_written links.now }
{
    links.last().map(|link| &link.written)
}

/// Whether an object has the reference at first, or an action that names it writes it.
#[tactic(auto, using(crate::proofs::ChainLemmas::begun_there))]
fn begins(service: &Service, at: &ObjRef, link: &Link) -> bool
    ensures { result ≡ spec.begins service.now at.now link.now }
{
    if link.index == 0 {
        starts(service, at, link)
    } else {
        is_written_there(service, at, link)
    }
}

/// Whether the object of the link has the reference at first.
fn starts(service: &Service, at: &ObjRef, link: &Link) -> bool
    ensures { let parts = group_parts service.now link.now.key.group in
        result ≡ list_any (λ p. spec.is_first_at link.now p && list_any (same_key at.now) (firsts p)) parts }
{
    let parts = service.parts(&link.key.group);
    parts.iter().any(|part| is_start(at, link, part.get()))
}

fn is_start(at: &ObjRef, link: &Link, part: &Fixed) -> bool
    ensures { result ≡ (spec.is_first_at link.now part.now && list_any (same_key at.now) (firsts part.now)) }
{
    is_first_at(link, part) && is_first(at, part)
}

/// Whether the link is at the object's own place.
fn is_first_at(link: &Link, part: &Fixed) -> bool
    ensures { result ≡ spec.is_first_at link.now part.now }
{
    link.key == part.key && link.written == part.key
}

/// Whether the object has the reference at first.
#[tactic(auto, using(crate::proofs::AnyLemmas::any_in_two, crate::proofs::AnyLemmas::any_mapped))]
fn is_first(at: &ObjRef, part: &Fixed) -> bool
    ensures { result ≡ list_any (same_key at.now) (firsts part.now) }
{
    (refers(part.class) && is_value(at, part))
        || (is_list_group(part.class) && is_member(at, members(part)))
}

/// Whether the variable has the reference at first.
fn is_value(at: &ObjRef, part: &Fixed) -> bool
    ensures { let value = value_held part.now (fresh part.now).body in
        result ≡ list_any (same_key at.now) (option_to_list (as_reference value)) }
{
    match as_value(part.properties.get(Attribute::OrigValue)) {
        Some(Value::Object(value)) => *at == *value,
        _ => false,
    }
}

/// Whether the reference is that of one of the members.
fn is_member(at: &ObjRef, members: &[Member]) -> bool
    ensures { result ≡ list_any (λ m. same_key at.now m.object) members.now }
{
    members.iter().any(|member| *at == member.object)
}

/// Whether an action at the link names the reference and writes it.
#[tactic(auto, unfolding(crate::specs::Spots::begins_there))]
fn is_written_there(service: &Service, at: &ObjRef, link: &Link) -> bool
    ensures { result ≡ spots.begins_there service.now at.now link.now }
{
    let parts = service.parts(&link.key.group);
    parts
        .iter()
        .any(|part| is_written_in(service, at, link, part.get()))
}

fn is_written_in(service: &Service, at: &ObjRef, link: &Link, part: &Fixed) -> bool
    ensures { let is = spots.is_beginning service.now at.now link.now in
        result ≡ list_any is (spots.at_link link.now part.now) }
{
    match at_link(link, part) {
        None => false,
        Some(site) => writes(service, &site, &link.written) && is_written(at, handed(site.act)),
    }
}

/// Whether an action at the link reads what was written last, and writes what the link says.
#[tactic(auto, unfolding(crate::specs::Spots::goes_on_there))]
fn goes_on(service: &Service, from: &ObjRef, link: &Link) -> bool
    ensures { result ≡ spots.goes_on_there service.now from.now link.now }
{
    let parts = service.parts(&link.key.group);
    parts
        .iter()
        .any(|part| goes_on_in(service, from, link, part.get()))
}

fn goes_on_in(service: &Service, from: &ObjRef, link: &Link, part: &Fixed) -> bool
    ensures { let is = spots.is_step service.now from.now link.now in
        result ≡ list_any is (spots.at_link link.now part.now) }
{
    match at_link(link, part) {
        None => false,
        Some(site) => is_step(service, from, link, &site),
    }
}

fn is_step(service: &Service, from: &ObjRef, link: &Link, site: &Site<'_>) -> bool
    ensures { result ≡ spots.is_step service.now from.now link.now site.now }
{
    if writes(service, site, &link.written) && reads(service, site, from) {
        return true;
    }
    answers(service, site, from, &link.written)
}

/// Whether the target can be this: it is written so, or it is granted of a variable.
fn can_be(target: &Target, at: &ObjRef) -> bool
    ensures { result ≡ spec.can_be target.now at.now }
{
    match target {
        Target::Direct(written) => *at == *written,
        Target::Through(_) => true,
    }
}

/// Whether the action can write the variable or list.
fn writes(service: &Service, site: &Site<'_>, at: &ObjRef) -> bool
    ensures { result ≡ spec.writes service.now site.now at.now }
{
    can_be(&site.act.target, at) && is_given(service, site.act.name, at)
}

/// Whether the action can hand the object what it keeps.
fn is_given(service: &Service, action: ActionName, at: &ObjRef) -> bool
    ensures { result ≡ flow.is_given (group_parts service.now at.now.group) action at.now }
{
    class_in(service, at).is_some_and(|class| class.admits(action) && is_holder(class))
}

fn is_written(at: &ObjRef, argument: Option<&Argument>) -> bool
    ensures { result ≡ spec.is_written at.now (option_copied argument.entry) }
{
    match argument {
        Some(Argument::Direct(Value::Object(written))) => *at == *written,
        _ => false,
    }
}

fn is_read(variable: &ObjRef, argument: Option<&Argument>) -> bool
    ensures { result ≡ spec.is_read variable.now (option_copied argument.entry) }
{
    match argument {
        Some(Argument::Through(at, _)) => *variable == *at,
        _ => false,
    }
}

/// Whether the variable is there, and is one of references.
fn is_reference(service: &Service, at: &ObjRef) -> bool
    ensures { result ≡ flow.is_reference_in (group_parts service.now at.now.group) at.now }
{
    class_in(service, at).is_some_and(|class| refers(class))
}

/// Whether the list is there.
fn is_list(service: &Service, at: &ObjRef) -> bool
    ensures { result ≡ flow.is_list_in (group_parts service.now at.now.group) at.now }
{
    class_in(service, at).is_some_and(|class| is_list_group(class))
}

/// Whether the action hands on what the variable refers to.
fn reads(service: &Service, site: &Site<'_>, variable: &ObjRef) -> bool
    ensures { result ≡ spec.reads service.now site.now variable.now }
{
    is_read(variable, handed(site.act)) && is_reference(service, variable)
}

/// Whether the action answers an item of the list to the variable.
#[tactic(auto, using(crate::proofs::AnyLemmas::any_given))]
fn answers(service: &Service, site: &Site<'_>, list: &ObjRef, variable: &ObjRef) -> bool
    ensures { result ≡ spec.answers service.now site.now list.now variable.now }
{
    fills(site.act.name)
        && can_be(&site.act.target, list)
        && is_list(service, list)
        && is_received(variable, site.act.arguments.as_slice())
        && is_reference(service, variable)
}

/// Whether the action answers items of a list.
fn fills(action: ActionName) -> bool
    ensures { result ≡ flow.fills action }
{
    matches!(action, ActionName::GetListItem | ActionName::GetCellItem)
}

/// Whether the variable receives an answer.
fn is_received(variable: &ObjRef, arguments: &[Argument]) -> bool
    ensures { result ≡ list_any (λ a. option_map_or (same_key variable.now) (receiver_of a) false) arguments.now }
{
    arguments
        .iter()
        .any(|argument| receives(variable, argument))
}

fn receives(variable: &ObjRef, argument: &Argument) -> bool
    ensures { result ≡ option_map_or (same_key variable.now) (receiver_of argument.now) false }
{
    match argument {
        Argument::Receiver(at) => *variable == *at,
        _ => false,
    }
}
