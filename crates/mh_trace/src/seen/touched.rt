//! The objects that an entry may change: copies of them, as they are before the step.
ghost use Rattle.std.specs.Prelude.{◌≡◌, ◌++◌, OnOk, IfOk, slice_get};
ghost use Rattle.std.specs.List.{flat_map};
ghost use Rattle.std.specs.Option.{option_copied};
ghost use Rattle.mh_model.specs.State.{all};
ghost use Rattle.mh_trace.specs.Touched as spec;

use mh_actions::arguments::referred;
use mh_base::{ObjRef, Seq};
use mh_machine::Machine;
use mh_model::sort::{Sort, sort_of};
use mh_model::{Act, Argument, Input, Interaction, Item, Object, Waiting};
use mh_store::Objects;
use std::alloc::{AllocError, Global};

/// Copies of the objects that the next step may change, if it does not exchange them all.
pub fn touched(
    alloc: Global,
    front: &Option<Item>,
    machine: &Machine,
) -> Result<Seq<Object>, AllocError>
    ensures { IfOk result (λ found. found ≡ spec.touched front.now (slice_get machine.now.queue 0) machine.now) }
{
    let objects = machine.objects();
    let mut found = Vec::new(alloc);
    match (front, machine.queue().first()) {
        (Some(item), _) => push_of_item(alloc, &mut found, objects, item)?,
        (None, Some(waiting)) => {
            push_of_waiting(alloc, &mut found, objects, machine.interaction(), waiting)?;
        }
        (None, None) => {}
    }
    Ok(Seq::from_vec(found))
}

fn push_of_item(
    alloc: Global,
    found: &mut Vec<Object>,
    objects: &Objects,
    item: &Item,
) -> Result<(), AllocError>
    ensures { OnOk result (found.new.items ≡ found.old.items ++ spec.item_touches (all objects.now) item.now) }
{
    match item {
        Item::Act(act) => push_of_act(alloc, found, objects, act),
        Item::Prepare(at)
        | Item::Run(at)
        | Item::Halt(at)
        | Item::RunMember(at)
        | Item::HaltMember(at)
        | Item::Drop(at) => push_at(alloc, found, objects, at),
        _ => Ok(()),
    }
}

fn push_of_act(
    alloc: Global,
    found: &mut Vec<Object>,
    objects: &Objects,
    act: &Act,
) -> Result<(), AllocError>
    ensures { OnOk result (found.new.items ≡ found.old.items ++ spec.act_touches (all objects.now) act.now) }
{
    push_option(alloc, found, objects, referred(objects, &act.target))?;
    push_filled(
        alloc,
        found,
        objects,
        sort_of(act.name),
        act.arguments.as_slice(),
    )
}

fn push_filled(
    alloc: Global,
    found: &mut Vec<Object>,
    objects: &Objects,
    sort: Sort,
    arguments: &[Argument],
) -> Result<(), AllocError>
    ensures { OnOk result (found.new.items
        ≡ found.old.items ++ flat_map (spec.filled_object (all objects.now) sort) arguments.now) }
{
    for argument in arguments {
        push_option(alloc, found, objects, filled_by(argument, sort))?;
    }
    Ok(())
}

/// The variable that an argument may change.
fn filled_by(argument: &Argument, sort: Sort) -> Option<&ObjRef>
    ensures { option_copied result ≡ spec.filled_by argument.now sort }
{
    match (argument, sort) {
        (Argument::Receiver(at), _) => Some(at),
        (Argument::Through(at, _), Sort::Call) => Some(at),
        _ => None,
    }
}

fn push_of_waiting(
    alloc: Global,
    found: &mut Vec<Object>,
    objects: &Objects,
    begun: Option<&Interaction>,
    waiting: &Waiting,
) -> Result<(), AllocError>
    ensures { OnOk result (found.new.items
        ≡ found.old.items ++ spec.waiting_touches (all objects.now) (option_copied begun.entry) waiting.now) }
{
    match (waiting, begun) {
        (Waiting::Input(Input::Key(_)), Some(begun)) => {
            push_at(alloc, found, objects, &begun.object)
        }
        _ => Ok(()),
    }
}

fn push_option(
    alloc: Global,
    found: &mut Vec<Object>,
    objects: &Objects,
    at: Option<&ObjRef>,
) -> Result<(), AllocError>
    ensures { OnOk result (found.new.items
        ≡ found.old.items ++ spec.found_at_option (all objects.now) (option_copied at.entry)) }
{
    match at {
        Some(at) => push_at(alloc, found, objects, at),
        None => Ok(()),
    }
}

/// Adds a copy of the object at this reference, if it is present.
fn push_at(
    alloc: Global,
    found: &mut Vec<Object>,
    objects: &Objects,
    at: &ObjRef,
) -> Result<(), AllocError>
    ensures { OnOk result (found.new.items ≡ found.old.items ++ spec.found_at (all objects.now) at.now) }
{
    if let Some(object) = objects.get(at) {
        found.push(copied(alloc, object)?)?;
    }
    Ok(())
}

fn copied(alloc: Global, object: &Object) -> Result<Object, AllocError>
    ensures { IfOk result (λ copy. copy ≡ object.now) }
{
    Ok(Object {
        fixed: object.fixed.clone()?,
        body: object.body.copy(alloc)?,
    })
}

/// Whether the entry may change the display stack beside an object that becomes available.
pub fn restacks(front: &Option<Item>) -> bool
    ensures { result ≡ spec.restacks front.now }
{
    match front {
        Some(Item::Act(act)) => matches!(sort_of(act.name), Sort::Order),
        Some(Item::Drop(_)) => true,
        _ => false,
    }
}
