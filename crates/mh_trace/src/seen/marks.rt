//! What a step is noted by, whether it is told or not: where the actions stand that it does and puts.
ghost use Rattle.std.specs.Prelude.{◌≡◌, None, IfOk, slice_get};
ghost use Rattle.mh_model.specs.Service.{parts};
ghost use Rattle.mh_model.specs.State.{all};
ghost use Rattle.mh_group.specs.declared.attribute.Attribute.TheVariants as attribute;
ghost use Rattle.mh_model.specs.Arguments as said;
ghost use Rattle.mh_trace.specs.declared.site.EffectKind.TheVariants as kind;
ghost use Rattle.mh_trace.specs.Ears as ears_spec;
ghost use Rattle.mh_trace.specs.Listening.{IsIndexOf};
ghost use Rattle.mh_trace.specs.Sites as sites_spec;
ghost use Rattle.mh_trace.specs.Head.{place_of};
ghost use Rattle.mh_trace.specs.Trace as spec;

use crate::ears::listening::Listening;
use crate::ears::told;
use crate::seen::closing::closing;
use crate::seen::is_begun;
use crate::site::Site;
use crate::sites::{heard_sites, push_start_up, slot_sites};
use mh_actions::arguments::{referred, values};
use mh_base::{GroupName, Seq};
use mh_group::ActionName;
use mh_machine::Machine;
use mh_model::{Act, Event, Item};
use mh_service::Service;
use mh_store::Objects;
use std::alloc::{AllocError, Global};
use std::collections::VecDeque;

/// What a step is noted by.
#[derive(Drop)]
pub struct Marks {
    /// Where the actions stand that the step puts, if it begins no transition.
    pub opened: Seq<Site>,
    /// Where those stand that it puts, if it begins one.
    pub closing: Seq<Site>,
    /// Whether a transition has begun before it.
    pub begun: bool,
    /// Where the action stands that is done, if one is.
    pub place: Option<Site>,
}

/// What the next step of a machine is noted by, which does this item, or takes what waits where there is none.
pub fn marks_of(
    alloc: Global,
    front: &Option<Item>,
    machine: &Machine,
    places: &VecDeque<Site>,
    listening: &Listening,
) -> Result<Marks, AllocError>
    requires { IsIndexOf listening.now.entries (parts (all machine.now.objects)) }
    ensures { IfOk result (λ marks. marks ≡ spec.marks_of front.now machine.now places.now.items) }
{
    let opened = opened(alloc, front, machine, listening)?;
    let closing = closing(alloc, front, machine)?;
    let place = place_of(front, places)?;
    Ok(Marks {
        opened,
        closing,
        begun: is_begun(machine.transition()),
        place,
    })
}

/// Where the action stands that is done, if one is.
pub fn place_of(front: &Option<Item>, places: &VecDeque<Site>) -> Result<Option<Site>, AllocError>
    ensures { IfOk result (λ place. place ≡ place_of front.now places.now.items) }
{
    match front {
        Some(Item::Act(_)) => first_of(places),
        _ => Ok(None),
    }
}

fn first_of(places: &VecDeque<Site>) -> Result<Option<Site>, AllocError>
    ensures { IfOk result (λ place. place ≡ slice_get places.now.items 0) }
{
    match places.front() {
        Some(first) => Ok(Some(first.copied()?)),
        None => Ok(None),
    }
}

/// Where the actions stand that a step puts, if it begins no transition.
fn opened(
    alloc: Global,
    front: &Option<Item>,
    machine: &Machine,
    listening: &Listening,
) -> Result<Seq<Site>, AllocError>
    requires { IsIndexOf listening.now.entries (parts (all machine.now.objects)) }
    ensures { IfOk result (λ sites. sites ≡ spec.opened front.now machine.now) }
{
    let sites = match front {
        Some(item) => opened_by(alloc, item, machine, listening)?,
        None => told_sites(alloc, told_first(machine)?, machine.objects(), listening)?,
    };
    Ok(Seq::from_vec(sites))
}

fn told_first(machine: &Machine) -> Result<Option<Event>, AllocError>
    ensures { IfOk result (λ event. event ≡ ears_spec.told None (slice_get machine.now.queue 0) machine.now) }
{
    told(&None, machine.queue().first(), machine)
}

fn opened_by(
    alloc: Global,
    item: &Item,
    machine: &Machine,
    listening: &Listening,
) -> Result<Vec<Site>, AllocError>
    requires { IsIndexOf listening.now.entries (parts (all machine.now.objects)) }
    ensures { IfOk result (λ sites. sites.items ≡ spec.opened_by item.now machine.now) }
{
    match item {
        Item::Act(act) => called_sites(alloc, act, machine.objects()),
        Item::Enter(group) => starting(alloc, machine.service(), group),
        Item::Emit(event) => told_sites(alloc, heard_now(event)?, machine.objects(), listening),
        _ => Ok(Vec::new(alloc)),
    }
}

/// The event, if it is heard at once.
fn heard_now(event: &Event) -> Result<Option<Event>, AllocError>
    ensures { IfOk result (λ told. told ≡ ears_spec.told_by_item (Item.Emit event.now)) }
{
    if event.kind.is_sync() {
        Ok(Some(event.clone()?))
    } else {
        Ok(None)
    }
}

fn starting(alloc: Global, service: &Service, group: &GroupName) -> Result<Vec<Site>, AllocError>
    ensures { IfOk result (λ sites. sites.items
        ≡ sites_spec.group_sites kind.StartUp attribute.OnStartUp service.now group.now) }
{
    let mut sites = Vec::new(alloc);
    push_start_up(&mut sites, service, group)?;
    Ok(sites)
}

fn told_sites(
    alloc: Global,
    told: Option<Event>,
    objects: &Objects,
    listening: &Listening,
) -> Result<Vec<Site>, AllocError>
    requires { IsIndexOf listening.now.entries (parts (all objects.now)) }
    ensures { IfOk result (λ sites. sites.items ≡ spec.told_sites told (all objects.now)) }
{
    match told {
        Some(event) => heard_sites(alloc, &event, objects, listening),
        None => Ok(Vec::new(alloc)),
    }
}

fn called_sites(alloc: Global, act: &Act, objects: &Objects) -> Result<Vec<Site>, AllocError>
    ensures { IfOk result (λ sites. sites.items
        ≡ spec.called_sites act.now.name act.now (all objects.now)) }
{
    match act.name {
        ActionName::CallActionSlot => slot_called(alloc, act, objects),
        _ => Ok(Vec::new(alloc)),
    }
}

fn slot_called(alloc: Global, act: &Act, objects: &Objects) -> Result<Vec<Site>, AllocError>
    ensures { let os = all objects.now in
        let vs = said.values os act.now.arguments in
        IfOk result (λ sites. sites.items
        ≡ sites_spec.slot_sites vs (spec.target_at (said.referred act.now.target os) os)) }
{
    let values = values(alloc, objects, act.arguments.as_slice())?;
    let found = match referred(objects, &act.target) {
        Some(at) => objects.get(at),
        None => None,
    };
    slot_sites(alloc, values.as_slice(), found)
}
