//! The rows of a coverage: for each effect with actions how many of them were done.
ghost use Rattle.std.specs.Prelude.{◌≡◌, ◌++◌, ◌+◌, ◌<◌, OnOk, IfOk, filter, length};
ghost use Rattle.mh_group.specs.Table.{is_application};
ghost use Rattle.mh_trace.specs.Cover as spec;
ghost use Rattle.mh_trace.specs.Sites.{places_in as sites_in};

use crate::cover::row::{GroupRow, Row};
use crate::site::{EffectKind, Site};
use crate::sites::places_in;
use indexmap::IndexSet;
use mh_base::{GroupName, ObjRef};
use mh_group::{Attribute, Class};
use mh_model::parts::{effect_of, members};
use mh_model::{Act, Effect, Fixed, FixedPart, Member};
use mh_service::Service;
use std::alloc::{AllocError, Global};

/// The rows of all effects of a service, in the order of its groups and their objects.
pub fn all_rows(
    alloc: Global,
    service: &Service,
    done: &IndexSet<Site>,
) -> Result<Vec<Row>, AllocError>
    ensures { IfOk result (λ rows. rows.items ≡ spec.all_rows done.now.keys (spec.all_parts service.now)) }
{
    let mut rows = Vec::new(alloc);
    for parts in service.groups().values() {
        push_group(&mut rows, done, parts.as_slice())?;
    }
    Ok(rows)
}

/// The rows of all groups of a service, in their order.
pub fn all_groups(
    alloc: Global,
    service: &Service,
    entered: &IndexSet<GroupName>,
) -> Result<Vec<GroupRow>, AllocError>
    ensures { IfOk result (λ rows. rows.items ≡ spec.all_groups entered.now.keys (spec.all_parts service.now)) }
{
    let mut rows = Vec::new(alloc);
    for parts in service.groups().values() {
        push_entered(&mut rows, entered, parts.as_slice())?;
    }
    Ok(rows)
}

fn push_entered(
    rows: &mut Vec<GroupRow>,
    entered: &IndexSet<GroupName>,
    parts: &[FixedPart],
) -> Result<(), AllocError>
    ensures { OnOk result (rows.new.items ≡ rows.old.items ++ spec.parts_row entered.now.keys parts.now) }
{
    if let [first, ..] = parts {
        rows.push(group_row(entered, first.get())?)?;
    }
    Ok(())
}

fn group_row(entered: &IndexSet<GroupName>, group: &Fixed) -> Result<GroupRow, AllocError>
    ensures { IfOk result (λ row. row ≡ spec.group_row entered.now.keys group.now) }
{
    Ok(GroupRow {
        name: group.key.group.clone()?,
        is_application: is_application(group.class),
        is_entered: entered.contains(&group.key.group),
    })
}

fn is_application(class: Class) -> bool
    ensures { result ≡ is_application class }
{
    matches!(class, Class::Application)
}

fn push_group(
    rows: &mut Vec<Row>,
    done: &IndexSet<Site>,
    parts: &[FixedPart],
) -> Result<(), AllocError>
    ensures { OnOk result (rows.new.items ≡ rows.old.items ++ spec.group_rows done.now.keys parts.now) }
{
    for part in parts {
        push_part(rows, done, part.get())?;
    }
    Ok(())
}

fn push_part(rows: &mut Vec<Row>, done: &IndexSet<Site>, part: &Fixed) -> Result<(), AllocError>
    ensures { OnOk result (rows.new.items ≡ rows.old.items ++ spec.part_rows done.now.keys part.now) }
{
    let at = &part.key;
    let start = effect_of(part, Attribute::OnStartUp);
    let close = effect_of(part, Attribute::OnCloseDown);
    let link = effect_of(part, Attribute::LinkEffect);
    push_effect(rows, done, at, EffectKind::StartUp, start)?;
    push_effect(rows, done, at, EffectKind::CloseDown, close)?;
    push_effect(rows, done, at, EffectKind::Link, link)?;
    push_members(rows, done, at, members(part))
}

fn push_members(
    rows: &mut Vec<Row>,
    done: &IndexSet<Site>,
    at: &ObjRef,
    members: &[Member],
) -> Result<(), AllocError>
    ensures { OnOk result (rows.new.items ≡ rows.old.items ++ spec.member_rows done.now.keys at.now 1 members.now) }
{
    for (index, member) in members.iter().enumerate() {
        push_slots(rows, done, at, index + 1, member.slots.as_slice())?;
    }
    Ok(())
}

fn push_slots(
    rows: &mut Vec<Row>,
    done: &IndexSet<Site>,
    at: &ObjRef,
    member: usize,
    slots: &[Effect],
) -> Result<(), AllocError>
    ensures { OnOk result (rows.new.items
        ≡ rows.old.items ++ spec.slot_rows done.now.keys at.now member 1 slots.now) }
{
    for (index, slot) in slots.iter().enumerate() {
        let kind = EffectKind::Slot(member, index + 1);
        push_effect(rows, done, at, kind, slot.as_slice())?;
    }
    Ok(())
}

fn push_effect(
    rows: &mut Vec<Row>,
    done: &IndexSet<Site>,
    at: &ObjRef,
    kind: EffectKind,
    acts: &[Act],
) -> Result<(), AllocError>
    ensures { OnOk result (rows.new.items ≡ rows.old.items ++ spec.effect_rows done.now.keys at.now kind acts.now) }
{
    if !acts.is_empty() {
        rows.push(row_of(done, at, kind, acts)?)?;
    }
    Ok(())
}

fn row_of(
    done: &IndexSet<Site>,
    at: &ObjRef,
    kind: EffectKind,
    acts: &[Act],
) -> Result<Row, AllocError>
    ensures { IfOk result (λ row. row ≡ spec.row_of done.now.keys at.now kind acts.now) }
{
    Ok(Row {
        object: at.clone()?,
        kind,
        done: count_in(done, at, kind, acts)?,
        all: acts.len(),
    })
}

/// How many of the actions of this effect of this object were done.
fn count_in(
    done: &IndexSet<Site>,
    at: &ObjRef,
    kind: EffectKind,
    acts: &[Act],
) -> Result<usize, AllocError>
    ensures { IfOk result (λ count. count ≡ length (filter (spec.is_done done.now.keys) (sites_in at.now kind acts.now))) }
{
    let places = places_in(*done.allocator(), at, kind, acts)?;
    Ok(count_done(done, places.as_slice()))
}

/// How many of these were done.
fn count_done(done: &IndexSet<Site>, places: &[Site]) -> usize
    ensures { result ≡ length (filter (spec.is_done done.now.keys) places.now) }
{
    places.iter().filter(|site| is_done(done, *site)).count()
}

/// Whether the action was done.
fn is_done(done: &IndexSet<Site>, site: &Site) -> bool
    ensures { result ≡ spec.is_done done.now.keys site.now }
{
    done.contains(site)
}
