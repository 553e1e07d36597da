//! `Line`: references in an order, each at most once, in which each is found and moved in constant time.
ghost use Rattle.std.specs.Prelude.{◌≡◌, ◌≢◌, ◌<◌, ◌≤◌, ◌+◌, ◌-◌, ◌∷◌, ◌++◌, [], suc, filter, false, get_or, length, max, reverse, if◌then◌else◌, OnOk};
ghost use Rattle.std.specs.List.{list_any};
ghost use Rattle.std.specs.Str.{bytes_eq};
ghost use Rattle.indexmap.specs.IndexSet.{spare};
ghost use Rattle.mh_model.specs.Reference.{group_ref, same_ref};
ghost use Rattle.mh_model.specs.Stack.{just_above, just_below, without};
ghost use Rattle.mh_stack.specs.References.{Tells, ref_at, refs_at};
ghost use Rattle.mh_stack.specs.Rings.{AreIn, order, without_number};

use crate::linked::LinkedRefs;
use crate::ring::Ring;
use indexmap::IndexSet;
use mh_base::{GroupName, ObjRef};
use std::alloc::{AllocError, Global};
use std::marker::Model;

/// References in an order. Each that was put in has a number, which it keeps when it is taken off.
#[derive(Drop)]
pub struct Line {
    refs: IndexSet<ObjRef>,
    ring: Ring,
}

impl Model for Line {
    ghost use Rattle.std.specs.Prelude.{◌≡◌, ◌-◌, length, min};
    ghost use Rattle.indexmap.specs.IndexSet.{spare};
    ghost use Rattle.mh_stack.specs.References.{refs_at};
    ghost use Rattle.mh_stack.specs.Rings.{order};
    ghost use Rattle.mh_stack.specs.Shelf.{Shelf};

    ghost Value = { Shelf };

    ghost view = { λ l. record {
      places = refs_at l.refs.keys (order l.ring);
      room = min (spare l.refs) (l.ring.room - 1);
    } };

    ghost invariant = { λ l. length l.refs.keys ≡ length l.ring.above - 1 };
}

impl Line {
    /// A line without references. It takes no memory.
    pub fn new(alloc: Global) -> Line
        ensures { result.places ≡ [] }
    {
        Line {
            refs: IndexSet::new(alloc),
            ring: Ring::new(alloc),
        }
    }

    /// Makes room for one more.
    pub fn reserve(&mut self) -> Result<(), AllocError>
        ensures same { self.new.places ≡ self.old.places }
        ensures room { OnOk result (1 ≤ self.new.room) }
    {
        self.refs.reserve(1)?;
        self.ring.reserve()
    }

    /// Whether most of the references that have a number are in the order no more.
    pub fn is_sparse(&self) -> bool {
        self.ring.count() < self.refs.len() / 2
    }

    /// Whether the reference is in the order.
    pub fn has(&self, at: &ObjRef) -> bool
        ensures { result ≡ list_any (same_ref at.now) self.now.places }
    {
        let _ = self.ring.len();
        let number = number_of(&self.refs, at);
        self.ring.has(number)
    }

    /// Takes a reference off.
    pub fn take_off(&mut self, at: &ObjRef)
        ensures places { self.new.places ≡ without at.now self.old.places }
        ensures room { self.new.room ≡ self.old.room }
    {
        let _ = self.ring.len();
        let number = number_of(&self.refs, at);
        self.ring.take_out(number);
    }

    /// Puts a reference on top.
    pub fn put_top(&mut self, at: ObjRef)
        requires room { 1 ≤ self.old.room }
        requires new { list_any (same_ref at) self.old.places ≡ false }
        ensures { self.new.places ≡ self.old.places ++ at ∷ [] }
    {
        let number = enter(&mut self.refs, &mut self.ring, at);
        self.ring.put_top(number);
    }

    /// Puts a reference at the bottom.
    pub fn put_bottom(&mut self, at: ObjRef)
        requires room { 1 ≤ self.old.room }
        requires new { list_any (same_ref at) self.old.places ≡ false }
        ensures { self.new.places ≡ at ∷ self.old.places }
    {
        let number = enter(&mut self.refs, &mut self.ring, at);
        self.ring.put_bottom(number);
    }

    /// Puts a reference just above another one, or on top where that one is not there.
    pub fn put_above(&mut self, at: ObjRef, other: &ObjRef)
        requires room { 1 ≤ self.old.room }
        requires new { list_any (same_ref at) self.old.places ≡ false }
        ensures { self.new.places ≡ just_above at other.now self.old.places }
    {
        let number = enter(&mut self.refs, &mut self.ring, at);
        let place = number_of(&self.refs, other);
        self.ring.put_above(number, place);
    }

    /// Puts a reference just below another one, or on top where that one is not there.
    pub fn put_below(&mut self, at: ObjRef, other: &ObjRef)
        requires room { 1 ≤ self.old.room }
        requires new { list_any (same_ref at) self.old.places ≡ false }
        ensures { self.new.places ≡ just_below at other.now self.old.places }
    {
        let number = enter(&mut self.refs, &mut self.ring, at);
        let place = number_of(&self.refs, other);
        self.ring.put_below(number, place);
    }

    /// Leaves those of this group alone.
    pub fn keep(&mut self, application: &GroupName)
        ensures { self.new.places ≡ filter (λ r. bytes_eq r.group application.now) self.old.places }
    {
        let _ = self.ring.len();
        keep_of(&mut self.ring, self.refs.as_slice(), application);
    }

    /// The references, the lowest first.
    pub fn up(&self) -> LinkedRefs<'_>
        ensures { result ≡ self.now.places }
    {
        let _ = self.ring.len();
        LinkedRefs::new(
            self.refs.as_slice(),
            self.ring.links_up(),
            self.ring.count(),
        )
    }

    /// The references, the highest first.
    pub fn down(&self) -> LinkedRefs<'_>
        ensures { result ≡ reverse self.now.places }
    {
        let _ = self.ring.len();
        LinkedRefs::new(
            self.refs.as_slice(),
            self.ring.links_down(),
            self.ring.count(),
        )
    }
}

/// The number of a reference, or 0 where it has none.
fn number_of(refs: &IndexSet<ObjRef>, at: &ObjRef) -> usize
    ensures { Tells at.now refs.now.keys result }
{
    let _ = refs.len();
    match refs.get_index_of(at) {
        Some(index) => index + 1,
        None => 0,
    }
}

/// The number of a reference, which gets one where it has none.
fn enter(refs: &mut IndexSet<ObjRef>, ring: &mut Ring, at: ObjRef) -> usize
    requires fit { length refs.old.keys ≡ length ring.old.above - 1 }
    requires room { 1 ≤ spare refs.old }
    requires links { 2 ≤ ring.old.room }
    ensures order { order ring.new ≡ order ring.old }
    ensures within { AreIn (suc (length refs.new.keys)) (order ring.old) }
    ensures fit { length refs.new.keys ≡ length ring.new.above - 1 }
    ensures own { ref_at refs.new.keys result ≡ at }
    ensures kept { refs_at refs.new.keys (order ring.old) ≡ refs_at refs.old.keys (order ring.old) }
    ensures some { result ≢ 0 }
    ensures known { result < length ring.new.above }
{
    let _ = ring.len();
    match refs.insert_full(at) {
        Ok(entry) => {
            grow_if(ring, entry.1);
            entry.0 + 1
        }
        Err(_) => unreachable!(),
    }
}

fn grow_if(ring: &mut Ring, added: bool)
    requires { 2 ≤ ring.old.room }
    ensures order { order ring.new ≡ order ring.old }
    ensures long { length ring.new.above ≡ (if added then max 1 (length ring.old.above) + 1 else length ring.old.above) }
{
    if added {
        ring.grow();
    }
}

/// Takes out the numbers of references to other groups.
fn keep_of(ring: &mut Ring, refs: &[ObjRef], application: &GroupName)
    requires { AreIn (suc (length refs.now)) (order ring.old) }
    ensures places { refs_at refs.now (order ring.new) ≡ filter (λ r. bytes_eq r.group application.now) (refs_at refs.now (order ring.old)) }
    ensures long { length ring.new.above ≡ length ring.old.above }
{
    for index in 0..refs.len() {
        keep_at(ring, refs, index, application);
    }
}

/// Takes the number of this reference out where it is to another group.
fn keep_at(ring: &mut Ring, refs: &[ObjRef], index: usize, application: &GroupName)
    requires { index < length refs.now }
    ensures order { order ring.new ≡ (if bytes_eq (get_or refs.now index (group_ref [])).group application.now then order ring.old else without_number (index + 1) (order ring.old)) }
    ensures long { length ring.new.above ≡ length ring.old.above }
{
    if !is_of(refs, index, application) {
        ring.take_out(index + 1);
    }
}

/// Whether the reference is to this group.
fn is_of(refs: &[ObjRef], index: usize, application: &GroupName) -> bool
    requires { index < length refs.now }
    ensures { result ≡ bytes_eq (get_or refs.now index (group_ref [])).group application.now }
{
    refs[index].group == *application
}
