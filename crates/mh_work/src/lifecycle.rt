//! What is put when an object is prepared, runs, stops and is dropped.
ghost use Rattle.std.specs.Prelude.{◌≡◌, ◌&&◌, ◌++◌, [], IfOk, OnOk};
ghost use Rattle.std.specs.Option.{option_copied};
ghost use Rattle.mh_model.specs.Lifecycle as spec;
ghost use Rattle.mh_work.specs.Loading.{prepare_told, run_told, content_told};
ghost use Rattle.mh_work.specs.Batches.{written};

use crate::batch::Batch;
use crate::groups::plain_event;
use mh_base::{EventType, ObjRef, Value};
use mh_group::Class;
use mh_model::parts::members;
use mh_model::{Event, Item, Member, Object};
use mh_widgets::lists::{list_halted, list_started};
use std::alloc::{AllocError, Global};

pub fn is_available(found: Option<&Object>) -> bool
    ensures { result ≡ spec.is_available_at (option_copied found.entry) }
{
    match found {
        Some(object) => object.body.available,
        None => false,
    }
}

/// Whether the object is there, and is not available.
pub fn is_unavailable(found: Option<&Object>) -> bool
    ensures { result ≡ spec.is_unavailable_at (option_copied found.entry) }
{
    match found {
        Some(object) => !object.body.available,
        None => false,
    }
}

/// Whether the object is there, does not run, and is not available.
pub fn is_unprepared(found: Option<&Object>) -> bool
    ensures { result ≡ spec.is_unprepared_at (option_copied found.entry) }
{
    match found {
        Some(object) => !object.body.running && !object.body.available,
        None => false,
    }
}

pub fn is_visible(found: Option<&Object>) -> bool
    ensures { result ≡ spec.is_visible_at (option_copied found.entry) }
{
    match found {
        Some(object) => object.fixed.get().class.is_visible(),
        None => false,
    }
}

/// Puts an event behind these batches, if it comes.
#[inline(always)]
fn push_event_if(
    batches: &mut Vec<Batch>,
    comes: bool,
    at: &ObjRef,
    kind: EventType,
) -> Result<(), AllocError>
    ensures { OnOk result (written batches.new.items
        ≡ written batches.old.items ++ spec.emit_if comes at.now kind) }
{
    if comes {
        batches.push(Batch::One(plain_event(at, kind)?))?;
    }
    Ok(())
}

/// Puts behind these batches that the object becomes available, if it does, and that its content is there.
fn push_rise(
    batches: &mut Vec<Batch>,
    becomes: bool,
    loads: bool,
    at: &ObjRef,
) -> Result<(), AllocError>
    ensures { OnOk result (written batches.new.items
        ≡ written batches.old.items ++ (spec.emit_if becomes at.now EventType.IsAvailable
        ++ spec.emit_if (becomes && loads) at.now EventType.ContentAvailable)) }
{
    if !becomes {
        return Ok(());
    }
    push_event_if(batches, true, at, EventType::IsAvailable)?;
    push_event_if(batches, loads, at, EventType::ContentAvailable)
}

/// What is put when the object is to become available, and its content is there or not.
pub fn prepare_batches(
    alloc: Global,
    at: &ObjRef,
    found: Option<&Object>,
    loads: bool,
) -> Result<Vec<Batch>, AllocError>
    ensures { IfOk result (λ batches. written batches.items
        ≡ prepare_told loads at.now (option_copied found.entry)) }
{
    let mut batches = Vec::new(alloc);
    push_rise(&mut batches, is_unavailable(found), loads, at)?;
    Ok(batches)
}

/// What is put when the object is to run, and its content is there or not, in this list.
pub fn run_batches(
    alloc: Global,
    spare: Vec<Batch>,
    at: &ObjRef,
    found: Option<&Object>,
    loads: bool,
) -> Result<Vec<Batch>, AllocError>
    requires { spare.items ≡ [] }
    ensures { IfOk result (λ batches. written batches.items
        ≡ run_told loads at.now (option_copied found.entry)) }
{
    let mut batches = spare;
    push_rise(&mut batches, is_unprepared(found), loads, at)?;
    push_started(alloc, &mut batches, at, found)?;
    Ok(batches)
}

/// Puts behind these batches what an object puts that begins to run.
fn push_started(
    alloc: Global,
    batches: &mut Vec<Batch>,
    at: &ObjRef,
    found: Option<&Object>,
) -> Result<(), AllocError>
    ensures { OnOk result (written batches.new.items
        ≡ written batches.old.items ++ spec.started_items at.now (option_copied found.entry)) }
{
    match found {
        Some(object) if !object.body.running => push_running(alloc, batches, at, object),
        _ => Ok(()),
    }
}

fn push_running(
    alloc: Global,
    batches: &mut Vec<Batch>,
    at: &ObjRef,
    object: &Object,
) -> Result<(), AllocError>
    ensures { OnOk result (written batches.new.items
        ≡ written batches.old.items ++ spec.running_items at.now object.now) }
{
    push_group_runs(alloc, batches, at, object)?;
    push_event_if(batches, true, at, EventType::IsRunning)?;
    push_token(batches, at, object.fixed.get().class)
}

/// A token group runs its members, a list what it shows.
fn push_group_runs(
    alloc: Global,
    batches: &mut Vec<Batch>,
    at: &ObjRef,
    object: &Object,
) -> Result<(), AllocError>
    ensures { OnOk result (written batches.new.items
        ≡ written batches.old.items ++ spec.group_runs object.now.fixed.class at.now object.now) }
{
    match object.fixed.get().class {
        Class::TokenGroup => push_members_run(batches, members(object.fixed.get())),
        Class::ListGroup => push_items(batches, list_started(alloc, at, object)?.items),
        _ => Ok(()),
    }
}

/// What the token of a token group tells when that runs.
fn push_token(batches: &mut Vec<Batch>, at: &ObjRef, class: Class) -> Result<(), AllocError>
    ensures { OnOk result (written batches.new.items
        ≡ written batches.old.items ++ spec.token_told class at.now) }
{
    if matches!(class, Class::TokenGroup) {
        let source = at.clone()?;
        batches.push(Batch::One(Item::Emit(Event {
            source,
            kind: EventType::TokenMovedTo,
            data: Some(Value::Int(1)),
        })))?;
    }
    Ok(())
}

fn push_members_run(batches: &mut Vec<Batch>, members: &[Member]) -> Result<(), AllocError>
    ensures { OnOk result (written batches.new.items
        ≡ written batches.old.items ++ spec.members_run members.now) }
{
    for member in members {
        batches.push(Batch::One(Item::RunMember(member.object.clone()?)))?;
    }
    Ok(())
}

fn push_members_halted(batches: &mut Vec<Batch>, members: &[Member]) -> Result<(), AllocError>
    ensures { OnOk result (written batches.new.items
        ≡ written batches.old.items ++ spec.members_halted members.now) }
{
    for member in members {
        batches.push(Batch::One(Item::HaltMember(member.object.clone()?)))?;
    }
    Ok(())
}

/// Puts these items behind these batches.
pub fn push_items(batches: &mut Vec<Batch>, items: Vec<Item>) -> Result<(), AllocError>
    ensures { OnOk result (written batches.new.items ≡ written batches.old.items ++ items.items) }
{
    for item in items {
        batches.push(Batch::One(item))?;
    }
    Ok(())
}

/// What is put when the object is to stop, in this list.
pub fn halt_batches(
    alloc: Global,
    spare: Vec<Batch>,
    at: &ObjRef,
    found: Option<&Object>,
) -> Result<Vec<Batch>, AllocError>
    requires { spare.items ≡ [] }
    ensures { IfOk result (λ batches. written batches.items
        ≡ spec.halt_items at.now (option_copied found.entry)) }
{
    let mut batches = spare;
    match found {
        Some(object) if object.body.running => push_stopping(alloc, &mut batches, at, object)?,
        _ => {}
    }
    Ok(batches)
}

fn push_stopping(
    alloc: Global,
    batches: &mut Vec<Batch>,
    at: &ObjRef,
    object: &Object,
) -> Result<(), AllocError>
    ensures { OnOk result (written batches.new.items
        ≡ written batches.old.items ++ spec.stopping_items at.now object.now) }
{
    match object.fixed.get().class {
        Class::TokenGroup => push_members_halted(batches, members(object.fixed.get()))?,
        Class::ListGroup => push_items(batches, list_halted(alloc, object)?)?,
        _ => {}
    }
    push_event_if(batches, true, at, EventType::IsStopped)
}

/// What is put when the object is dropped.
pub fn drop_batches(
    alloc: Global,
    at: &ObjRef,
    found: Option<&Object>,
) -> Result<Vec<Batch>, AllocError>
    ensures { IfOk result (λ batches. written batches.items
        ≡ spec.drop_items at.now (option_copied found.entry)) }
{
    let mut batches = Vec::new(alloc);
    push_event_if(&mut batches, is_available(found), at, EventType::IsDeleted)?;
    Ok(batches)
}

/// What is put when new content is there, or not.
pub fn content_batches(alloc: Global, at: &ObjRef, loads: bool) -> Result<Vec<Batch>, AllocError>
    ensures { IfOk result (λ batches. written batches.items ≡ content_told loads at.now) }
{
    let mut batches = Vec::new(alloc);
    push_event_if(&mut batches, loads, at, EventType::ContentAvailable)?;
    Ok(batches)
}
