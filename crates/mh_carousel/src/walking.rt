//! From place to place: those that wait for one file, and the files that are waited for.
ghost use Rattle.std.specs.Prelude.{◌≡◌, ◌<◌, ◌++◌, Some, IfOk, OnOk, length, map, slice_get};
ghost use Rattle.std.specs.Str.{bytes_eq};
ghost use Rattle.indexmap.specs.IndexSet.{insert_all};
ghost use Rattle.mh_carousel.specs.Carried.{awaited_names, waiting_for};
ghost use Rattle.mh_carousel.specs.Waited.{wait_at, waits_from, AreLinked};

use crate::slot::{Chain, Slot};
use crate::tables::{newest, wait_at};
use indexmap::{IndexMap, IndexSet};
use mh_base::{GroupName, ObjRef, Seq};
use std::alloc::{AllocError, Global};

/// The objects that wait for the file of this name, in the order in which they came to.
pub(crate) fn waiting(
    alloc: Global,
    objects: &IndexMap<ObjRef, Option<usize>>,
    names: &IndexMap<GroupName, Chain>,
    slots: &[Slot],
    name: &GroupName,
) -> Result<Vec<ObjRef>, AllocError>
    requires { AreLinked objects.now.entries names.now.entries slots.now }
    ensures { let waits = waits_from objects.now.entries names.now.entries 0 slots.now in
        IfOk result (λ found. found.items ≡ waiting_for name.now waits) }
{
    let mut found = Vec::new(alloc);
    let mut next = newest(names, name);
    while let Some(place) = next {
        let slot = slot_at(slots, place);
        push_at(&mut found, objects, names, place, slot)?;
        next = slot.older;
    }
    found.reverse();
    Ok(found)
}

/// What stands at a place.
pub(crate) fn slot_at(slots: &[Slot], place: usize) -> Slot
    requires { place < length slots.now }
    ensures { slice_get slots.now place ≡ Some result }
{
    slots[place]
}

/// Adds the object that waits at a place, if one does.
fn push_at(
    found: &mut Vec<ObjRef>,
    objects: &IndexMap<ObjRef, Option<usize>>,
    names: &IndexMap<GroupName, Chain>,
    place: usize,
    slot: Slot,
) -> Result<(), AllocError>
    ensures { OnOk result (found.new.items
        ≡ found.old.items ++ map (λ w. w.object) (wait_at objects.now.entries names.now.entries place slot)) }
{
    if let Some((object, _)) = wait_at(objects, names, place, slot) {
        found.push(object.clone()?)?;
    }
    Ok(())
}

/// The names of the files for which some object waits, each once, in the order in which one came to.
pub(crate) fn awaited_names(
    alloc: Global,
    objects: &IndexMap<ObjRef, Option<usize>>,
    names: &IndexMap<GroupName, Chain>,
    slots: &[Slot],
) -> Result<Seq<GroupName>, AllocError>
    ensures { let waits = waits_from objects.now.entries names.now.entries 0 slots.now in
        IfOk result (λ found. found ≡ awaited_names waits) }
{
    let found = awaited_set(alloc, objects, names, slots)?;
    listed(alloc, &found)
}

fn awaited_set(
    alloc: Global,
    objects: &IndexMap<ObjRef, Option<usize>>,
    names: &IndexMap<GroupName, Chain>,
    slots: &[Slot],
) -> Result<IndexSet<GroupName>, AllocError>
    ensures { let waits = waits_from objects.now.entries names.now.entries 0 slots.now in
        IfOk result (λ found. found.keys ≡ awaited_names waits) }
{
    let mut found = IndexSet::new(alloc);
    for place in 0..slots.len() {
        let slot = slot_at(slots, place);
        put_at(&mut found, objects, names, place, slot)?;
    }
    Ok(found)
}

/// Puts in the name of the file that is waited for at a place, if one is.
fn put_at(
    found: &mut IndexSet<GroupName>,
    objects: &IndexMap<ObjRef, Option<usize>>,
    names: &IndexMap<GroupName, Chain>,
    place: usize,
    slot: Slot,
) -> Result<(), AllocError>
    ensures { let here = wait_at objects.now.entries names.now.entries place slot in
        OnOk result (found.new.keys ≡ insert_all bytes_eq found.old.keys (map (λ w. w.name) here)) }
{
    if let Some((_, name)) = wait_at(objects, names, place, slot) {
        found.insert(name.clone()?)?;
    }
    Ok(())
}

fn listed(alloc: Global, names: &IndexSet<GroupName>) -> Result<Seq<GroupName>, AllocError>
    ensures { IfOk result (λ list. list ≡ names.now.keys) }
{
    let mut list = Seq::new(alloc);
    for name in names.iter() {
        list.push(name.clone()?)?;
    }
    Ok(list)
}
