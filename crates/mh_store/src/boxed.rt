//! `Boxed`: an object with its box.
ghost use Rattle.std.specs.Prelude.{◌≡◌, true, IfOk, OnOk, OnErr};
ghost use Rattle.std.specs.Str.{bytes_eq};
ghost use Rattle.mh_group.specs.Table.{is_visible};
ghost use Rattle.mh_model.specs.Bodies.{given};
ghost use Rattle.mh_model.specs.Edits.{edited};
ghost use Rattle.mh_model.specs.Looks.{area_of as area_of_lem};
ghost use Rattle.mh_model.specs.Service.{fresh};
ghost use Rattle.mh_store.specs.Bringing.{with_brought};
ghost use Rattle.mh_store.specs.Placing.{with_place};
ghost use Rattle.mh_store.specs.Table.{with_body};

use crate::keeping::leaves_box;
use crate::looks::area_of;
use mh_base::{Area, GroupName, Octets, Value, both};
use mh_group::{Attribute, Position};
use mh_model::{Edit, FixedPart, Held, Object};
use std::alloc::{AllocError, Global};
use std::marker::Model;

/// An object with its box, which is read off its attributes where it can change alone. A contract sees the object.
#[derive(Drop)]
pub struct Boxed {
    object: Object,
    area: Area,
}

impl Model for Boxed {
    ghost use Rattle.std.specs.Prelude.{◌≡◌};
    ghost use Rattle.mh_model.specs.declared.object.Object.{Object};
    ghost use Rattle.mh_model.specs.Looks.{area_of};

    ghost Value = { Object };

    ghost view = { λ k. k.object };

    ghost invariant = { λ k. k.area ≡ area_of k.object };
}

impl Boxed {
    /// The object, with its box.
    fn of(object: Object) -> Boxed
        ensures { result ≡ object }
    {
        let area = area_of(&object);
        Boxed { object, area }
    }

    /// The object as it is when its group is entered.
    pub(crate) fn fresh(alloc: Global, part: &FixedPart) -> Result<Boxed, AllocError>
        ensures { IfOk result (λ kept. kept ≡ fresh part.now) }
    {
        Ok(Boxed::of(Object::fresh(alloc, part)?))
    }

    pub fn object(&self) -> &Object
        ensures { result.now ≡ self.now }
    {
        &self.object
    }

    /// Its box.
    pub fn area(&self) -> &Area
        ensures { result.now ≡ area_of_lem self.now }
    {
        &self.area
    }

    /// Gives a variable a value. It takes no memory.
    #[inline(always)]
    pub(crate) fn give(&mut self, value: Value)
        ensures { self.new ≡ with_body (λ _ b. given value b) self.old }
    {
        self.object.body.give(value);
    }

    /// A copy of it with this text.
    pub(crate) fn with_text(&self, alloc: Global, text: &Octets) -> Result<Boxed, AllocError>
        ensures { IfOk result (λ kept. kept ≡ with_brought text.now self.now) }
    {
        Ok(Boxed::of(brought_copy(alloc, &self.object, text)?))
    }

    /// The number of its reference.
    pub(crate) fn number(&self) -> u32
        ensures { result ≡ self.now.fixed.key.number }
    {
        self.object.fixed.get().key.number
    }

    /// Whether it is an object of the group of this name.
    pub(crate) fn is_in(&self, name: &GroupName) -> bool
        ensures { result ≡ bytes_eq self.now.fixed.key.group name.now }
    {
        self.object.fixed.get().key.group == *name
    }

    pub(crate) fn is_visible(&self) -> bool
        ensures { result ≡ is_visible self.now.fixed.class }
    {
        self.object.fixed.get().class.is_visible()
    }

    /// A copy of a visible that is placed here.
    pub(crate) fn placed(&self, alloc: Global, position: Position) -> Result<Boxed, AllocError>
        ensures { IfOk result (λ kept. is_visible self.now.fixed.class ≡ true
            → kept ≡ with_place position self.now) }
    {
        let edit = Edit::Put(Attribute::OrigPosition, Held::Pair(position.x, position.y));
        Ok(Boxed::of(edited_copy(alloc, &self.object, edit)?))
    }

    /// Changes the body of the object, and its box where that can move.
    #[inline(always)]
    pub(crate) fn edit(&mut self, edit: Edit) -> Result<(), AllocError>
        ensures done { OnOk result (self.new ≡ with_body (edited edit) self.old) }
        ensures kept { OnErr result (self.new ≡ self.old) }
    {
        edit_in_place(&mut self.object, &mut self.area, edit)
    }
}

/// Changes the body of an object in place, and its box where that can move.
#[inline(always)]
fn edit_in_place(object: &mut Object, area: &mut Area, edit: Edit) -> Result<(), AllocError>
    requires { area.old ≡ area_of_lem object.old }
    ensures done { OnOk result (object.new ≡ with_body (edited edit) object.old) }
    ensures kept { OnErr result (object.new ≡ object.old) }
    ensures there { area.new ≡ area_of_lem object.new }
{
    if leaves_box(&edit) {
        return edit_object(object, edit);
    }
    let answer = edit_object(object, edit);
    *area = area_of(object);
    answer
}

/// Changes the body of an object in place.
#[inline(always)]
fn edit_object(object: &mut Object, edit: Edit) -> Result<(), AllocError>
    ensures done { OnOk result (object.new ≡ with_body (edited edit) object.old) }
    ensures kept { OnErr result (object.new ≡ object.old) }
{
    object.body.edit(object.fixed.get(), edit)
}

/// A copy of the object. What never changes is shared with it.
fn copied(alloc: Global, object: &Object) -> Result<Object, AllocError>
    ensures { IfOk result (λ copy. copy ≡ object.now) }
{
    let (fixed, body) = both(object.fixed.clone(), object.body.copy(alloc))?;
    Ok(Object { fixed, body })
}

/// A copy of the object with its body changed.
fn edited_copy(alloc: Global, object: &Object, edit: Edit) -> Result<Object, AllocError>
    ensures { IfOk result (λ after. after ≡ with_body (edited edit) object.now) }
{
    let (mut copy, edit) = both(copied(alloc, object), Ok(edit))?;
    edit_object(&mut copy, edit).and(Ok(copy))
}

/// A copy of the object with this text.
fn brought_copy(alloc: Global, object: &Object, text: &Octets) -> Result<Object, AllocError>
    ensures { IfOk result (λ after. after ≡ with_brought text.now object.now) }
{
    let (mut copy, text) = both(copied(alloc, object), text.clone())?;
    copy.body.bring(text);
    Ok(copy)
}
