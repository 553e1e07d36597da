//! `Waits`: the objects that wait for a file.
//!
//! An object that comes to wait is given the next place. A table of objects tells the last place of
//! each, so that to forget an object is one look-up, and a table of names tells the last place of each
//! file, from which every place leads to the one before it for the same file: what concerns one file
//! costs what waits for that file. Places at which nobody waits any more are closed up where room is made.
ghost use Rattle.std.specs.Prelude.{◌≡◌, ◌≤◌, [], Some, OnOk, IfOk, filter};
ghost use Rattle.std.specs.Str.{bytes_eq};
ghost use Rattle.mh_model.specs.Files.{arrived, awaited, forgotten};
ghost use Rattle.mh_carousel.specs.Carried.{awaited_names, waiting_for};
ghost use Rattle.mh_carousel.specs.Waited.{joined, waits_from};
ghost use Rattle.mh_carousel.specs.Waited as spec;

use crate::slot::{Chain, Slot};
use crate::tables::{
    forget_place, keep_places, put_name, put_object, reveal_apart, start_anew, wait_at,
};
use crate::walking::{awaited_names, slot_at, waiting};
use indexmap::IndexMap;
use mh_base::{GroupName, ObjRef, Seq};
use mh_model::Wait;
use std::alloc::{AllocError, Global};
use std::marker::Model;

/// How many places more than there are objects that wait are made when places are closed up.
const MORE_PLACES: usize = 8;

/// The objects that wait for a file, each for one at most. A contract sees them in the order in which
/// they came to, and for how many more there is room.
#[derive(Drop)]
pub(crate) struct Waits {
    /// The place at which each object waits, if it still does.
    objects: IndexMap<ObjRef, Option<usize>>,
    names: IndexMap<GroupName, Chain>,
    slots: Vec<Slot>,
}

impl Model for Waits {
    ghost use Rattle.std.specs.Prelude.{◌-◌, min, vec_len, vec_capacity};
    ghost use Rattle.indexmap.specs.IndexMap.{spare};
    ghost use Rattle.mh_carousel.specs.Waited.{Waited, waits_from, AreLinked};

    ghost Value = { Waited };

    ghost view = { λ w. record {
      waits = waits_from w.objects.entries w.names.entries 0 w.slots.items;
      room = min (vec_capacity w.slots - vec_len w.slots) (min (spare w.objects) (spare w.names));
    } };

    ghost invariant = { λ w. AreLinked w.objects.entries w.names.entries w.slots.items };
}

impl Waits {
    /// Nobody waits. It takes no memory.
    pub fn new(alloc: Global) -> Waits
        ensures { result.waits ≡ [] }
    {
        Waits {
            objects: IndexMap::new(alloc),
            names: IndexMap::new(alloc),
            slots: Vec::new(alloc),
        }
    }

    /// The objects that wait for the file of this name, in the order in which they came to. Where none
    /// does it takes no memory.
    pub fn waiting(&self, alloc: Global, name: &GroupName) -> Result<Vec<ObjRef>, AllocError>
        ensures { IfOk result (λ objects. objects.items ≡ waiting_for name.now self.now.waits) }
    {
        waiting(
            alloc,
            &self.objects,
            &self.names,
            self.slots.as_slice(),
            name,
        )
    }

    /// The names of the files for which some object waits, each once, in the order in which one came to. It takes the
    /// longer, the more wait. Where none does it takes no memory.
    pub fn awaited_names(&self, alloc: Global) -> Result<Seq<GroupName>, AllocError>
        ensures { IfOk result (λ names. names ≡ awaited_names self.now.waits) }
    {
        awaited_names(alloc, &self.objects, &self.names, self.slots.as_slice())
    }

    /// Makes room for one more. Where no place is left, those at which nobody waits any more are closed
    /// up, after at least as many new ones as objects waited then. Where memory is refused nothing changes.
    pub fn reserve(&mut self) -> Result<(), AllocError>
        ensures waits { self.new.waits ≡ self.old.waits }
        ensures room { OnOk result (1 ≤ self.new.room) }
    {
        if self.slots.len() < self.slots.capacity() {
            self.make_room(1)
        } else {
            let alloc = *self.slots.allocator();
            *self = closed_up(alloc, &self.objects, &self.names, self.slots.as_slice())?;
            Ok(())
        }
    }

    /// Makes room for so many more.
    fn make_room(&mut self, count: usize) -> Result<(), AllocError>
        ensures waits { self.new.waits ≡ self.old.waits }
        ensures room { OnOk result (count ≤ self.new.room) }
    {
        self.slots.reserve(count)?;
        self.objects.reserve(count)?;
        self.names.reserve(count)
    }

    /// Makes room for as many more as there are places, and for some.
    fn make_room_again(&mut self) -> Result<(), AllocError>
        ensures waits { self.new.waits ≡ self.old.waits }
        ensures room { OnOk result (1 ≤ self.new.room) }
    {
        let count = self.slots.len().saturating_add(MORE_PLACES);
        self.make_room(count)
    }

    /// Lets the object wait for this file, and for no other any more.
    fn add(&mut self, object: &ObjRef, name: &GroupName) -> Result<(), AllocError>
        ensures { OnOk result (self.new.waits ≡ awaited (Some name.now) object.now self.old.waits) }
    {
        let wait = Wait {
            object: object.clone()?,
            name: name.clone()?,
        };
        self.make_room(1)?;
        self.wait(wait);
        Ok(())
    }

    /// Lets the object wait for this file, and for no other any more, where there is room. It takes no memory.
    pub fn wait(&mut self, wait: Wait)
        requires { 1 ≤ self.old.room }
        ensures { self.new.waits ≡ awaited (Some wait.name) wait.object self.old.waits }
    {
        reveal_apart(&self.objects, &self.names);
        let place = self.slots.len();
        let Wait { object, name } = wait;
        let object = put_object(&mut self.objects, object, place);
        let (name, older) = put_name(&mut self.names, name, place);
        self.slots.push_reserved(Slot {
            object,
            name,
            older,
        });
    }

    /// Lets the object wait for nothing any more.
    pub fn forget(&mut self, object: &ObjRef)
        ensures waits { self.new.waits ≡ forgotten object.now self.old.waits }
        ensures room { self.new.room ≡ self.old.room }
    {
        reveal_apart(&self.objects, &self.names);
        forget_place(&mut self.objects, object);
    }

    /// Lets nobody wait for the file of this name any more. It takes no longer, the more do.
    pub fn arrived(&mut self, name: &GroupName)
        ensures waits { self.new.waits ≡ arrived name.now self.old.waits }
        ensures room { self.new.room ≡ self.old.room }
    {
        reveal_apart(&self.objects, &self.names);
        let next = self.slots.len();
        start_anew(&mut self.names, name, next);
    }

    /// Lets the objects of the application alone wait on.
    pub fn keep(&mut self, application: &GroupName)
        ensures waits { self.new.waits
            ≡ filter (λ w. bytes_eq w.object.group application.now) self.old.waits }
        ensures room { self.old.room ≤ self.new.room }
    {
        keep_places(&mut self.objects, application);
    }

    /// Lets nobody wait any more.
    pub fn clear(&mut self)
        ensures waits { self.new.waits ≡ [] }
        ensures room { self.old.room ≤ self.new.room }
    {
        self.objects.clear();
        self.names.clear();
        self.slots.clear();
    }
}

/// The same objects, with no place at which nobody waits, and as many free ones again.
fn closed_up(
    alloc: Global,
    objects: &IndexMap<ObjRef, Option<usize>>,
    names: &IndexMap<GroupName, Chain>,
    slots: &[Slot],
) -> Result<Waits, AllocError>
    ensures waits { let waits = waits_from objects.now.entries names.now.entries 0 slots.now in
        IfOk result (λ closed. closed.waits ≡ waits) }
    ensures room { IfOk result (λ closed. 1 ≤ closed.room) }
{
    reveal_apart(objects, names);
    let mut closed = Waits::new(alloc);
    for place in 0..slots.len() {
        let slot = slot_at(slots, place);
        take_up(&mut closed, objects, names, place, slot)?;
    }
    closed.make_room_again()?;
    Ok(closed)
}

/// Takes up who waits at a place, if one does.
fn take_up(
    closed: &mut Waits,
    objects: &IndexMap<ObjRef, Option<usize>>,
    names: &IndexMap<GroupName, Chain>,
    place: usize,
    slot: Slot,
) -> Result<(), AllocError>
    ensures { OnOk result (closed.new.waits
        ≡ joined closed.old.waits (spec.wait_at objects.now.entries names.now.entries place slot)) }
{
    if let Some((object, name)) = wait_at(objects, names, place, slot) {
        closed.add(object, name)?;
    }
    Ok(())
}
