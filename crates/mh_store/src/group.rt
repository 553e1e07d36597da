//! `Group`: the objects of one group.
ghost use Rattle.std.specs.Prelude.{◌≡◌, ◌<◌, ◌^◌, IfOk, OnOk, OnErr, true, ◌∷◌, ◌++◌, [], map, length, nat_eq, slice_get};
ghost use Rattle.std.specs.List.{list_all};
ghost use Rattle.std.specs.Map.{lookup, set_value};
ghost use Rattle.std.specs.Option.{option_copied};
ghost use Rattle.mh_model.specs.Bodies.{given};
ghost use Rattle.mh_model.specs.Configuration.{are_apart};
ghost use Rattle.mh_model.specs.Edits.{edited};
ghost use Rattle.mh_model.specs.Service.{object_at, is_in, fresh};
ghost use Rattle.mh_store.specs.Apart.{AreApart, AreOfOthers};
ghost use Rattle.mh_store.specs.Bringing.{ready_from, all_put, keys_of, AreOwn};
ghost use Rattle.mh_store.specs.Places.{is_among, places_at, places_from};
ghost use Rattle.mh_store.specs.Placing.{renewed_in};
ghost use Rattle.mh_store.specs.Table.{changed_at, entry_of, is_new};
ghost use Rattle.mh_store.specs.Trying.{left_over, edited_in, given_in};

use crate::boxed::Boxed;
use crate::bringing::{add_ready, put_all, put_boxed};
use crate::places::{push_place, rise};
use crate::ready::Ready;
use crate::table::{find, place_of};
use indexmap::IndexMap;
use mh_base::{GroupName, ObjRef, Octets, Value};
use mh_model::{Edit, FixedPart, Object};
use std::alloc::{AllocError, Global};
use std::marker::Model;

/// The objects of one group, found by their references. A contract sees the list of them, in the
/// order in which the group's file has them.
#[derive(Drop)]
pub struct Group {
    alloc: Global,
    name: GroupName,
    /// Each object stands under its own number.
    table: IndexMap<u32, Boxed>,
}

impl Model for Group {
    ghost use Rattle.std.specs.Prelude.{List};
    ghost use Rattle.mh_model.specs.declared.object.Object.{Object as ObjectValue};
    ghost use Rattle.mh_store.specs.Table.{IsKeyed, objects_of};

    ghost Value = { List ObjectValue };

    ghost view = { λ g. objects_of g.table.entries };

    ghost invariant = { λ g. IsKeyed g.name g.table.entries };
}

impl Group {
    /// The objects of a group as they are when it is entered.
    pub fn fresh(alloc: Global, name: &GroupName, parts: &[FixedPart]) -> Result<Group, AllocError>
        requires apart { are_apart parts.now ≡ true }
        requires own { list_all (is_in name.now) parts.now ≡ true }
        ensures { IfOk result (λ group. group ≡ map fresh parts.now) }
    {
        let table = entered(alloc, name, parts)?;
        let name = name.clone()?;
        Ok(Group { alloc, name, table })
    }

    /// The object to which the reference leads, with its box, if it is here.
    pub(crate) fn boxed(&self, at: &ObjRef) -> Option<&Boxed>
        ensures { option_copied result ≡ object_at at.now self.now }
    {
        if at.group != self.name {
            return None;
        }
        find(&self.table, at.number)
    }

    /// The object at this place.
    pub(crate) fn at(&self, place: usize) -> Option<&Object>
        ensures { option_copied result ≡ slice_get self.now place }
    {
        match self.boxed_at(place) {
            Some(kept) => Some(kept.object()),
            None => None,
        }
    }

    /// The object at this place, with its box.
    fn boxed_at(&self, place: usize) -> Option<&Boxed>
        ensures { option_copied result ≡ slice_get self.now place }
    {
        match self.table.get_index(place) {
            Some((_, kept)) => Some(kept),
            None => None,
        }
    }

    /// Whether the two have different names, so that no reference leads into both.
    pub(crate) fn is_apart(&self, other: &Group) -> bool
        ensures { AreApart result self.now other.now }
    {
        self.name != other.name
    }

    /// Whether this is another group than the one of the name, so that no reference to that one leads into it.
    pub(crate) fn is_other(&self, name: &GroupName) -> bool
        ensures { AreOfOthers result name.now self.now }
    {
        self.name != *name
    }

    pub(crate) fn allocator(&self) -> Global {
        self.alloc
    }

    /// How many objects there are.
    pub(crate) fn len(&self) -> usize
        ensures all { result ≡ length self.now }
        ensures small { result < 2 ^ 63 }
    {
        self.table.len()
    }

    /// Changes the body of the object at this reference. Where there is none the change comes back.
    #[inline(always)]
    pub(crate) fn edit(&mut self, at: &ObjRef, edit: Edit) -> Result<Option<Edit>, AllocError>
        ensures done { OnOk result (self.new ≡ edited_in edit at.now self.old) }
        ensures back { IfOk result (λ back. back ≡ left_over edit (object_at at.now self.old)) }
        ensures kept { OnErr result (self.new ≡ self.old) }
    {
        if at.group != self.name {
            return Ok(Some(edit));
        }
        edit_under(&mut self.table, at.number, edit)
    }

    /// The places of the objects that have these references, in rising order. The first object here stands at
    /// `first`. Each is found by its number: what else is here costs nothing.
    pub(crate) fn places(&self, first: usize, named: &[ObjRef]) -> Result<Vec<usize>, AllocError>
        requires { first < 2 ^ 63 }
        ensures { IfOk result (λ places. places.items ≡ places_from first (is_among named.now) self.now) }
    {
        let mut places = Vec::new(self.alloc);
        for at in named {
            self.push_place(&mut places, first, at)?;
        }
        rise(&mut places);
        Ok(places)
    }

    /// Adds the place of the object that has this reference, if it is here.
    fn push_place(
        &self,
        places: &mut Vec<usize>,
        first: usize,
        at: &ObjRef,
    ) -> Result<(), AllocError>
        requires { first < 2 ^ 63 }
        ensures { OnOk result (places.new.items ≡ places.old.items ++ places_at first self.now at.now) }
    {
        if at.group != self.name {
            return Ok(());
        }
        push_place(places, first, &self.table, at.number)
    }

    /// The objects to which a text is brought, with it, and with their places.
    pub(crate) fn ready(&self, waiting: &[ObjRef], text: &Octets) -> Result<Vec<Ready>, AllocError>
        ensures { IfOk result (λ ready. ready.items
            ≡ ready_from 0 (is_among waiting.now) text.now self.now) }
    {
        let mut ready = Vec::new(self.alloc);
        let places = self.places(0, waiting)?;
        for place in &places {
            add_ready(self.alloc, &mut ready, *place, self.boxed_at(*place), text)?;
        }
        Ok(ready)
    }

    /// Puts these at their places, each of which is the object's own. It takes no memory.
    pub(crate) fn put(&mut self, ready: Vec<Ready>)
        requires { AreOwn ready.items (keys_of self.old) }
        ensures { self.new ≡ all_put ready.items self.old }
    {
        put_all(&mut self.table, ready);
    }

    /// Puts this where the object with its reference is. Where there is none it comes back.
    pub(crate) fn renew(&mut self, kept: Boxed) -> Option<Boxed>
        ensures done { self.new ≡ renewed_in kept self.old }
        ensures back { result ≡ left_over kept (object_at kept.fixed.key self.old) }
    {
        if !kept.is_in(&self.name) {
            return Some(kept);
        }
        renew_under(&mut self.table, kept.number(), kept)
    }

    /// Gives the variable at this reference a value. Where there is none the value comes back.
    #[inline(always)]
    pub(crate) fn give(&mut self, at: &ObjRef, value: Value) -> Option<Value>
        ensures done { self.new ≡ given_in value at.now self.old }
        ensures back { result ≡ left_over value (object_at at.now self.old) }
    {
        if at.group != self.name {
            return Some(value);
        }
        give_under(&mut self.table, at.number, value)
    }
}

/// Changes the body of the object under this number. Where there is none the change comes back.
#[inline(always)]
fn edit_under(
    table: &mut IndexMap<u32, Boxed>,
    at: u32,
    edit: Edit,
) -> Result<Option<Edit>, AllocError>
    ensures done { OnOk result (table.new.entries ≡ changed_at (edited edit) at table.old.entries) }
    ensures back { IfOk result (λ back. back ≡ left_over edit (lookup (nat_eq at) table.old.entries)) }
    ensures kept { OnErr result (table.new.entries ≡ table.old.entries) }
{
    let place = place_of(table, at);
    match table.get_index_mut(place) {
        Some(kept) => {
            kept.edit(edit)?;
            Ok(None)
        }
        None => Ok(Some(edit)),
    }
}

/// Gives the variable under this number a value. Where there is none the value comes back.
#[inline(always)]
fn give_under(table: &mut IndexMap<u32, Boxed>, at: u32, value: Value) -> Option<Value>
    ensures done { table.new.entries ≡ changed_at (λ _ b. given value b) at table.old.entries }
    ensures back { result ≡ left_over value (lookup (nat_eq at) table.old.entries) }
{
    let place = place_of(table, at);
    match table.get_index_mut(place) {
        Some(variable) => {
            variable.give(value);
            None
        }
        None => Some(value),
    }
}

/// Puts this where the object under this number is. Where there is none it comes back.
fn renew_under(table: &mut IndexMap<u32, Boxed>, at: u32, kept: Boxed) -> Option<Boxed>
    ensures done { table.new.entries ≡ set_value (nat_eq at) table.old.entries kept }
    ensures back { result ≡ left_over kept (lookup (nat_eq at) table.old.entries) }
{
    let place = place_of(table, at);
    match table.get_index_mut(place) {
        Some(there) => {
            put_boxed(there, kept);
            None
        }
        None => Some(kept),
    }
}

/// The objects of the parts under their numbers.
fn entered(
    alloc: Global,
    name: &GroupName,
    parts: &[FixedPart],
) -> Result<IndexMap<u32, Boxed>, AllocError>
    requires apart { are_apart parts.now ≡ true }
    requires own { list_all (is_in name.now) parts.now ≡ true }
    ensures { IfOk result (λ table. table.entries ≡ map entry_of parts.now) }
{
    let mut table = IndexMap::with_capacity(alloc, parts.len())?;
    for part in parts {
        add(alloc, &mut table, part)?;
    }
    Ok(table)
}

/// Puts the object of the part at the end.
fn add(alloc: Global, table: &mut IndexMap<u32, Boxed>, part: &FixedPart) -> Result<(), AllocError>
    requires { is_new part.now.key.number table.old.entries ≡ true }
    ensures { OnOk result (table.new.entries ≡ table.old.entries ++ entry_of part.now ∷ []) }
{
    let number = part.get().key.number;
    let object = Boxed::fresh(alloc, part)?;
    table.insert(number, object)?;
    Ok(())
}
