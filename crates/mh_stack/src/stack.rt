//! `Stack`: the display stack.
//!
//! What may want memory is `reserve` alone; with room for one more, each change of the stack succeeds. A change takes
//! the same time however many references there are, as long as none of them is there twice.
ghost use Rattle.std.specs.Prelude.{◌≡◌, ◌++◌, ◌∷◌, ◌+◌, ◌<◌, ◌≤◌, [], IfOk, OnOk, filter, reverse, vec_len};
ghost use Rattle.std.specs.List.{insert, position};
ghost use Rattle.std.specs.Str.{bytes_eq};
ghost use Rattle.std.specs.Vec.{vec_capacity};
ghost use Rattle.mh_model.specs.Stack.{without, brought_to_front, sent_to_back, just_above, just_below};
ghost use Rattle.mh_model.specs.Reference.{same_ref};

use crate::line::Line;
use crate::places::{insert_above, insert_below, keep_of, take_off};
use crate::walk::Walk;
use mh_base::{GroupName, ObjRef};
use std::alloc::{AllocError, Global};
use std::marker::Model;

/// The display stack (ISO/IEC 13522-5), the bottom first. A contract sees the references and the room.
#[derive(Drop)]
pub struct Stack {
    /// References of which none is there twice.
    line: Line,
    /// What rose while it was there already, and all that rose behind it.
    doubled: Vec<ObjRef>,
    alloc: Global,
}

impl Model for Stack {
    ghost use Rattle.std.specs.Prelude.{◌++◌, ◌-◌, min, vec_len};
    ghost use Rattle.std.specs.Vec.{vec_capacity};
    ghost use Rattle.mh_stack.specs.Shelf.{Shelf};

    ghost Value = { Shelf };

    ghost view = { λ s. record {
      places = s.line.places ++ s.doubled.items;
      room = min s.line.room (vec_capacity s.doubled - vec_len s.doubled);
    } };
}

impl Stack {
    /// A stack with nothing on it. It takes no memory.
    pub fn new(alloc: Global) -> Stack
        ensures { result.places ≡ [] }
    {
        Stack {
            line: Line::new(alloc),
            doubled: Vec::new(alloc),
            alloc,
        }
    }

    /// Makes room for one more. What went off the stack long ago is let go.
    pub fn reserve(&mut self) -> Result<(), AllocError>
        ensures same { self.new.places ≡ self.old.places }
        ensures room { OnOk result (1 ≤ self.new.room) }
    {
        if self.line.is_sparse() {
            self.renew()?;
        }
        self.make_room()
    }

    fn make_room(&mut self) -> Result<(), AllocError>
        ensures same { self.new.places ≡ self.old.places }
        ensures room { OnOk result (1 ≤ self.new.room) }
    {
        self.line.reserve()?;
        self.doubled.reserve(1)
    }

    /// Puts the references into a new stack, which has numbers for no others.
    fn renew(&mut self) -> Result<(), AllocError>
        ensures { self.new.places ≡ self.old.places }
    {
        let fresh = copied(self.alloc, self.up())?;
        *self = fresh;
        Ok(())
    }

    /// Puts a visible on top.
    pub fn rise(&mut self, at: ObjRef)
        requires { 1 ≤ self.old.room }
        ensures { self.new.places ≡ self.old.places ++ at ∷ [] }
    {
        if self.doubled.is_empty() && !self.line.has(&at) {
            self.line.put_top(at);
        } else {
            self.doubled.push_reserved(at);
        }
    }

    /// Takes a visible off.
    pub fn fall(&mut self, at: &ObjRef)
        ensures places { self.new.places ≡ without at.now self.old.places }
        ensures room { self.old.room ≤ self.new.room }
    {
        self.line.take_off(at);
        take_off(&mut self.doubled, at);
    }

    /// Leaves those of this group alone.
    pub fn keep(&mut self, application: &GroupName)
        ensures { self.new.places ≡ filter (λ r. bytes_eq r.group application.now) self.old.places }
    {
        self.line.keep(application);
        keep_of(&mut self.doubled, application);
    }

    /// BringToFront.
    pub fn bring_to_front(&mut self, at: ObjRef)
        requires { 1 ≤ self.old.room }
        ensures { self.new.places ≡ brought_to_front at self.old.places }
    {
        self.fall(&at);
        self.rise(at);
    }

    /// SendToBack.
    pub fn send_to_back(&mut self, at: ObjRef)
        requires { 1 ≤ self.old.room }
        ensures { self.new.places ≡ sent_to_back at self.old.places }
    {
        self.line.take_off(&at);
        take_off(&mut self.doubled, &at);
        self.line.put_bottom(at);
    }

    /// Puts a visible just above another one (PutBefore).
    pub fn put_above(&mut self, at: ObjRef, other: &ObjRef)
        requires { 1 ≤ self.old.room }
        ensures { self.new.places ≡ just_above at other.now (without at self.old.places) }
    {
        self.line.take_off(&at);
        take_off(&mut self.doubled, &at);
        if self.line.has(other) {
            self.line.put_above(at, other);
        } else if self.doubled.is_empty() {
            self.line.put_top(at);
        } else {
            insert_above(&mut self.doubled, at, other);
        }
    }

    /// Puts a visible just below another one (PutBehind).
    pub fn put_below(&mut self, at: ObjRef, other: &ObjRef)
        requires { 1 ≤ self.old.room }
        ensures { self.new.places ≡ just_below at other.now (without at self.old.places) }
    {
        self.line.take_off(&at);
        take_off(&mut self.doubled, &at);
        if self.line.has(other) {
            self.line.put_below(at, other);
        } else if self.doubled.is_empty() {
            self.line.put_top(at);
        } else {
            insert_below(&mut self.doubled, at, other);
        }
    }

    /// The references, the bottom first.
    pub fn up(&self) -> Walk<'_>
        ensures { result ≡ self.now.places }
    {
        let (none, doubled) = self.doubled.as_slice().split_at(0);
        Walk::new(none, self.line.up(), doubled)
    }

    /// The references, the top first.
    pub fn down(&self) -> Walk<'_>
        ensures { result ≡ reverse self.now.places }
    {
        let (none, doubled) = self.doubled.as_slice().split_at(0);
        Walk::new(doubled, self.line.down(), none)
    }
}

/// A stack with copies of these references, which share their names.
fn copied(alloc: Global, refs: Walk<'_>) -> Result<Stack, AllocError>
    ensures { IfOk result (λ s. s.places ≡ refs.entry) }
{
    let mut fresh = Stack::new(alloc);
    let mut left = refs;
    while let Some(at) = left.next() {
        fresh.make_room()?;
        fresh.rise(at.clone()?);
    }
    Ok(fresh)
}
