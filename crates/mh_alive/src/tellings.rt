//! Which events may come of which objects, and which timers can be set.
//!
//! Promise: what is gathered is what the definition that its clause names says.
ghost use Rattle.std.specs.Prelude.{◌≡◌, ◌∷◌, [], map, if◌then◌else◌, IfOk, OnOk};
ghost use Rattle.std.specs.List.{flat_map};
ghost use Rattle.indexmap.specs.IndexSet.{insert_all};
ghost use Rattle.mh_model.specs.Effects.{is_sending};
ghost use Rattle.mh_alive.specs.Tellings as spec;
ghost use Rattle.mh_alive.specs.Tellings.{same_telling};
ghost use Rattle.mh_alive.specs.There.{comes_to, sets_there};

use crate::sendings::event_numbered;
use crate::there::There;
use indexmap::IndexSet;
use mh_base::{EventType, ObjRef, Value};
use mh_flow::Site;
use mh_group::{ActionName, Class};
use mh_model::{Act, Argument, Fixed, FixedPart};
use std::alloc::AllocError;

/// An object, and the number of a type of its events.
#[derive(Drop, PartialEq, Eq, Hash)]
pub(crate) struct Telling {
    pub at: ObjRef,
    pub kind: u32,
}

/// A timer that can be set: its group, and its id.
#[derive(Drop, PartialEq, Eq, Hash)]
pub(crate) struct SetTimer {
    pub at: ObjRef,
    pub id: i32,
}

static LIST: [EventType; 4] = [
    EventType::FirstItemPresented,
    EventType::LastItemPresented,
    EventType::HeadItems,
    EventType::TailItems,
];

/// The types of events that the action tells of what it is done to, those apart that come of each object which runs or
/// halts.
#[tactic(auto, unfolding(crate::specs::Tellings::tells))]
fn tells(name: ActionName) -> &'static [EventType]
    ensures { result.now ≡ spec.tells name }
{
    match name {
        ActionName::Unload => &[EventType::IsDeleted],
        ActionName::TestVariable => &[EventType::TestEvent],
        ActionName::SetData => &[EventType::ContentAvailable],
        ActionName::Fork => &[EventType::AsyncStopped],
        ActionName::SetInteractionStatus => &[EventType::InteractionCompleted],
        ActionName::SetHighlightStatus => &[EventType::HighlightOn, EventType::HighlightOff],
        ActionName::Select => &[EventType::IsSelected],
        ActionName::Deselect => &[EventType::IsDeselected],
        ActionName::Move | ActionName::MoveTo => {
            &[EventType::TokenMovedFrom, EventType::TokenMovedTo]
        }
        ActionName::AddItem
        | ActionName::DelItem
        | ActionName::ScrollItems
        | ActionName::SetFirstItem => &LIST,
        ActionName::SelectItem | ActionName::ToggleItem => {
            &[EventType::ItemDeselected, EventType::ItemSelected]
        }
        ActionName::DeselectItem => &[EventType::ItemDeselected],
        _ => &[],
    }
}

/// Those of an object of the class that come though no action tells them.
#[tactic(auto, unfolding(crate::specs::Tellings::tells_itself))]
fn tells_itself(class: Class) -> &'static [EventType]
    ensures { result.now ≡ spec.tells_itself class }
{
    match class {
        Class::ListGroup => &LIST,
        Class::TokenGroup => &[EventType::TokenMovedTo],
        Class::EntryField => &[EventType::EntryFieldFull, EventType::InteractionCompleted],
        Class::PushButton => &[EventType::IsSelected, EventType::InteractionCompleted],
        Class::Stream => &[EventType::StreamEvent],
        _ => &[],
    }
}

pub(crate) fn one_telling(at: &ObjRef, kind: EventType) -> Result<Telling, AllocError>
    ensures { IfOk result (λ one. one ≡ spec.telling at.now kind) }
{
    Ok(Telling {
        at: at.clone()?,
        kind: kind.number(),
    })
}

fn put(told: &mut IndexSet<Telling>, at: &ObjRef, kind: EventType) -> Result<(), AllocError>
    ensures { OnOk result (told.new.keys ≡ insert_all same_telling told.old.keys (spec.telling at.now kind ∷ [])) }
{
    told.insert(one_telling(at, kind)?)?;
    Ok(())
}

/// Puts in that events of these types may come of the object.
fn put_kinds(
    told: &mut IndexSet<Telling>,
    at: &ObjRef,
    kinds: &[EventType],
) -> Result<(), AllocError>
    ensures { OnOk result (told.new.keys ≡ insert_all same_telling told.old.keys (spec.tellings kinds.now at.now)) }
{
    for kind in kinds {
        put(told, at, *kind)?;
    }
    Ok(())
}

/// The same of each of these objects.
#[tactic(auto, using(crate::proofs::SetLemmas::put_both))]
fn put_each(
    told: &mut IndexSet<Telling>,
    objects: &[ObjRef],
    kinds: &[EventType],
) -> Result<(), AllocError>
    ensures { OnOk result (told.new.keys
        ≡ insert_all same_telling told.old.keys (flat_map (spec.tellings kinds.now) objects.now)) }
{
    for at in objects {
        put_kinds(told, at, kinds)?;
    }
    Ok(())
}

/// Puts in what comes of each of these objects though no action tells it.
#[tactic(auto, using(crate::proofs::SetLemmas::put_both))]
pub(crate) fn put_parts(told: &mut IndexSet<Telling>, parts: &[FixedPart]) -> Result<(), AllocError>
    ensures { OnOk result (told.new.keys
        ≡ insert_all same_telling told.old.keys (flat_map spec.told_itself parts.now)) }
{
    for part in parts {
        put_part(told, part.get())?;
    }
    Ok(())
}

fn put_part(told: &mut IndexSet<Telling>, part: &Fixed) -> Result<(), AllocError>
    ensures { OnOk result (told.new.keys ≡ insert_all same_telling told.old.keys (spec.told_itself part.now)) }
{
    put_kinds(told, &part.key, tells_itself(part.class))
}

/// Puts in what is sent with a type of this number.
fn put_numbered(
    told: &mut IndexSet<Telling>,
    there: &There<'_>,
    source: &Argument,
    number: i32,
) -> Result<(), AllocError>
    ensures { OnOk result (told.new.keys ≡ insert_all same_telling told.old.keys
        (spec.told_numbered (sets_there there.now) source.now number)) }
{
    match event_numbered(number) {
        None => Ok(()),
        Some(kind) => put_each(told, there.names(source), &[kind]),
    }
}

fn put_typed(
    told: &mut IndexSet<Telling>,
    there: &There<'_>,
    source: &Argument,
    behind: &[Argument],
) -> Result<(), AllocError>
    ensures { OnOk result (told.new.keys ≡ insert_all same_telling told.old.keys
        (spec.told_typed (sets_there there.now) source.now behind.now)) }
{
    let Some((word, _)) = behind.split_first() else {
        return Ok(());
    };
    match word {
        Argument::Direct(Value::Int(number)) => put_numbered(told, there, source, *number),
        _ => Ok(()),
    }
}

/// Puts in what is sent with these arguments.
fn put_with(
    told: &mut IndexSet<Telling>,
    there: &There<'_>,
    arguments: &[Argument],
) -> Result<(), AllocError>
    ensures { OnOk result (told.new.keys ≡ insert_all same_telling told.old.keys
        (spec.told_with (sets_there there.now) arguments.now)) }
{
    match arguments.split_first() {
        None => Ok(()),
        Some((source, behind)) => put_typed(told, there, source, behind),
    }
}

fn put_sent(told: &mut IndexSet<Telling>, there: &There<'_>, act: &Act) -> Result<(), AllocError>
    ensures { OnOk result (told.new.keys ≡ insert_all same_telling told.old.keys
        (if is_sending act.now.name then spec.told_with (sets_there there.now) act.now.arguments else [])) }
{
    match act.name {
        ActionName::SendEvent => put_with(told, there, act.arguments.as_slice()),
        _ => Ok(()),
    }
}

#[tactic(auto, using(crate::proofs::SetLemmas::put_both))]
fn put_act(told: &mut IndexSet<Telling>, there: &There<'_>, act: &Act) -> Result<(), AllocError>
    ensures { OnOk result (told.new.keys
        ≡ insert_all same_telling told.old.keys (spec.told_by (sets_there there.now) act.now)) }
{
    put_each(told, there.comes_to(&act.target), tells(act.name))?;
    put_sent(told, there, act)
}

/// Puts in what the actions at these sites tell.
#[tactic(auto, using(crate::proofs::SetLemmas::put_both))]
pub(crate) fn put_sites(
    told: &mut IndexSet<Telling>,
    there: &There<'_>,
    sites: &[Site<'_>],
) -> Result<(), AllocError>
    ensures { OnOk result (told.new.keys
        ≡ insert_all same_telling told.old.keys (flat_map (λ x. spec.told_by (sets_there there.now) x.act) sites.now)) }
{
    for site in sites {
        put_act(told, there, site.act)?;
    }
    Ok(())
}
