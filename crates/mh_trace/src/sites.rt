//! The places of the actions that are put on the work list at once.
ghost use Rattle.std.specs.Prelude.{◌≡◌, ◌++◌, [], OnOk, IfOk};
ghost use Rattle.std.specs.List.{flat_map};
ghost use Rattle.std.specs.Option.{option_copied, option_map_or};
ghost use Rattle.mh_group.specs.declared.attribute.Attribute.TheVariants as attribute;
ghost use Rattle.mh_model.specs.Items.{acts};
ghost use Rattle.mh_model.specs.Service.{parts};
ghost use Rattle.mh_model.specs.State.{all};
ghost use Rattle.mh_model.specs.Tokens.{slot_items};
ghost use Rattle.mh_trace.specs.Listening.{IsIndexOf, at_place};
ghost use Rattle.mh_trace.specs.Sites as spec;

use crate::ears::hearing::hears;
use crate::ears::listening::{Listening, places};
use crate::site::{EffectKind, Site};
use mh_base::{GroupName, ObjRef, Value};
use mh_group::Attribute;
use mh_model::parts::{effect_of, group_ref, part_at};
use mh_model::{Act, Event, Fixed, Object};
use mh_service::Service;
use mh_store::Objects;
use mh_widgets::tokens::slot_of;
use std::alloc::{AllocError, Global};

/// The places of all actions of an effect.
pub fn places_in(
    alloc: Global,
    object: &ObjRef,
    kind: EffectKind,
    acts: &[Act],
) -> Result<Vec<Site>, AllocError>
    ensures { IfOk result (λ sites. sites.items ≡ spec.places_in object.now kind acts.now) }
{
    let mut sites = Vec::new(alloc);
    push_places(&mut sites, object, kind, acts)?;
    Ok(sites)
}

/// Adds the places of all actions of an effect.
fn push_places(
    sites: &mut Vec<Site>,
    object: &ObjRef,
    kind: EffectKind,
    acts: &[Act],
) -> Result<(), AllocError>
    ensures { OnOk result (sites.new.items ≡ sites.old.items ++ spec.places_in object.now kind acts.now) }
{
    for (index, _) in acts.iter().enumerate() {
        sites.push(place(object, kind, index + 1)?)?;
    }
    Ok(())
}

fn place(object: &ObjRef, kind: EffectKind, number: usize) -> Result<Site, AllocError>
    ensures { IfOk result (λ site. site ≡ record { object = object.now; kind = kind; number = number }) }
{
    Ok(Site {
        object: object.clone()?,
        kind,
        number,
    })
}

/// The places of the actions of all links that hear the event, in the order of the objects. `listening` is the index
/// of their links.
pub fn heard_sites(
    alloc: Global,
    event: &Event,
    objects: &Objects,
    listening: &Listening,
) -> Result<Vec<Site>, AllocError>
    requires { IsIndexOf listening.now.entries (parts (all objects.now)) }
    ensures { IfOk result (λ sites. sites.items ≡ spec.heard_sites event.now (all objects.now)) }
{
    let sites = heard_sites_at(
        alloc,
        event,
        objects,
        places(listening, event.source.number),
    )?;
    Ok(sites)
}

fn heard_sites_at(
    alloc: Global,
    event: &Event,
    objects: &Objects,
    places: &[usize],
) -> Result<Vec<Site>, AllocError>
    ensures { IfOk result (λ sites. sites.items
        ≡ flat_map (at_place (spec.heard_at event.now) (all objects.now)) places.now) }
{
    let mut sites = Vec::new(alloc);
    for place in places {
        push_heard(&mut sites, event, objects.at(*place))?;
    }
    Ok(sites)
}

fn push_heard(
    sites: &mut Vec<Site>,
    event: &Event,
    found: Option<&Object>,
) -> Result<(), AllocError>
    ensures { OnOk result (sites.new.items
        ≡ sites.old.items ++ option_map_or (spec.heard_at event.now) (option_copied found.entry) []) }
{
    match found {
        Some(object) => push_heard_by(sites, event, object),
        None => Ok(()),
    }
}

fn push_heard_by(sites: &mut Vec<Site>, event: &Event, object: &Object) -> Result<(), AllocError>
    ensures { OnOk result (sites.new.items ≡ sites.old.items ++ spec.heard_at event.now object.now) }
{
    if !hears(event, object) {
        return Ok(());
    }
    let fixed = object.fixed.get();
    push_places(
        sites,
        &fixed.key,
        EffectKind::Link,
        effect_of(fixed, Attribute::LinkEffect),
    )
}

/// Adds the places of the actions with which a group starts up.
pub fn push_start_up(
    sites: &mut Vec<Site>,
    service: &Service,
    group: &GroupName,
) -> Result<(), AllocError>
    ensures { OnOk result (sites.new.items
        ≡ sites.old.items ++ spec.group_sites EffectKind.StartUp attribute.OnStartUp service.now group.now) }
{
    push_own(
        sites,
        part_at(service.parts(group), &group_ref(group)?),
        EffectKind::StartUp,
        Attribute::OnStartUp,
    )
}

/// Adds the places of the actions with which a group closes down.
pub fn push_close_down(
    sites: &mut Vec<Site>,
    service: &Service,
    group: &GroupName,
) -> Result<(), AllocError>
    ensures { OnOk result (sites.new.items
        ≡ sites.old.items ++ spec.group_sites EffectKind.CloseDown attribute.OnCloseDown service.now group.now) }
{
    push_own(
        sites,
        part_at(service.parts(group), &group_ref(group)?),
        EffectKind::CloseDown,
        Attribute::OnCloseDown,
    )
}

fn push_own(
    sites: &mut Vec<Site>,
    part: Option<&Fixed>,
    kind: EffectKind,
    attribute: Attribute,
) -> Result<(), AllocError>
    ensures { OnOk result (sites.new.items
        ≡ sites.old.items ++ spec.own_sites kind attribute (option_copied part.entry)) }
{
    match part {
        Some(part) => push_places(sites, &part.key, kind, effect_of(part, attribute)),
        None => Ok(()),
    }
}

/// The places of the actions of the slot that is called with these values.
pub fn slot_sites(
    alloc: Global,
    values: &[Value],
    found: Option<&Object>,
) -> Result<Vec<Site>, AllocError>
    ensures { IfOk result (λ sites. sites.items ≡ spec.slot_sites values.now (option_copied found.entry)) }
{
    match (values, found) {
        ([Value::Int(number)], Some(object)) if *number >= 0 => {
            called(alloc, values, number.unsigned_abs() as usize, object)
        }
        _ => Ok(Vec::new(alloc)),
    }
}

fn called(
    alloc: Global,
    values: &[Value],
    slot: usize,
    object: &Object,
) -> Result<Vec<Site>, AllocError>
    ensures { IfOk result (λ sites. sites.items
        ≡ spec.places_in object.now.fixed.key (EffectKind.Slot object.now.body.token slot) (slot_items values.now object.now.fixed object.now.body)) }
{
    let mut sites = Vec::new(alloc);
    let kind = EffectKind::Slot(object.body.token, slot);
    let at = &object.fixed.get().key;
    push_places(&mut sites, at, kind, slot_acts(values, object))?;
    Ok(sites)
}

/// What the slot that is called does.
fn slot_acts<'a>(values: &[Value], object: &'a Object) -> &'a [Act]
    ensures { acts result.now ≡ slot_items values.now object.now.fixed object.now.body }
{
    match slot_of(values, object) {
        Some(effect) => effect.as_slice(),
        None => &[],
    }
}
