//! Objects of the machine: what their files say of them, and what has changed.

pub mod listing;
pub mod member;
pub mod shared_group;

ghost use Rattle.std.specs.Prelude.{◌≡◌, ◌==◌, ◌&&◌, IfOk, [], Some, None};
ghost use Rattle.std.specs.Option.{option_copied};
ghost use Rattle.mh_model.specs.Property.{read, value_held};
ghost use Rattle.mh_model.specs.Service.{fresh};
ghost use Rattle.mh_model.specs.ListItems.{listed_at_first};
ghost use Rattle.mh_model.specs.Bodies.{text_of};

use crate::held::{as_members, as_value};
use crate::{Drawings, Held, Listing, Properties};
use mh_base::{ObjRef, Octets, Value};
use mh_group::{Attribute, Class};
use std::alloc::{AllocError, Global};
use std::marker::Model;
use std::rc::Rc;

/// What the file of its group says of an object. No action ever changes it.
#[derive(Drop)]
pub struct Fixed {
    pub key: ObjRef,
    pub class: Class,
    /// The attributes that are written.
    pub properties: Properties,
}

/// The fixed part of an object, whose copies share one piece of memory. A contract sees what it says.
#[derive(Drop)]
pub struct FixedPart {
    shared: Rc<Fixed>,
}

impl Model for FixedPart {
    ghost use Rattle.mh_model.specs.declared.object.Fixed.{Fixed};

    ghost Value = { Fixed };

    ghost view = { λ p. p.shared.value };
}

impl FixedPart {
    pub fn new(alloc: Global, fixed: Fixed) -> Result<FixedPart, AllocError>
        ensures { IfOk result (λ part. part ≡ fixed) }
    {
        let shared = Rc::new(alloc, fixed)?;
        Ok(FixedPart { shared })
    }

    pub fn get(&self) -> &Fixed
        ensures { result.now ≡ self.now }
    {
        self.shared.as_ref()
    }
}

impl Clone for FixedPart {
    ghost is_clone = { λ part copy. copy ≡ part };

    fn clone(&self) -> Result<FixedPart, AllocError> {
        Ok(FixedPart {
            shared: self.shared.clone()?,
        })
    }
}

/// What changes of an object.
#[derive(Drop)]
pub struct Body {
    /// What a variable was given, which stands above its original value.
    pub value: Option<Value>,
    /// The attributes that were changed, which stand above the written ones.
    pub changes: Properties,
    /// The text that was loaded, if any was.
    pub text: Option<Octets>,
    /// What was drawn, in order.
    pub drawings: Drawings,
    pub available: bool,
    pub running: bool,
    /// The position that has the token of a group of objects, from 1 on, or 0.
    pub token: usize,
    /// The items of a list group.
    pub list: Listing,
    /// How many octets of an entry field's text stand before its entry point.
    pub point: usize,
    /// Whether what is typed into an entry field replaces what stands there.
    pub overwrites: bool,
    pub highlighted: bool,
    /// Whether a push button is selected.
    pub selected: bool,
}

impl Body {
    /// A copy, which shares octets with it.
    pub fn copy(&self, alloc: Global) -> Result<Body, AllocError>
        ensures { IfOk result (λ copy. copy ≡ self.now) }
    {
        let value = self.value.clone()?;
        let text = self.text.clone()?;
        let changes = self.changes.copy(alloc)?;
        let drawings = self.drawings.copy(alloc)?;
        let list = self.list.copy()?;
        Ok(Body {
            value,
            changes,
            text,
            drawings,
            available: self.available,
            running: self.running,
            token: self.token,
            list,
            point: self.point,
            overwrites: self.overwrites,
            highlighted: self.highlighted,
            selected: self.selected,
        })
    }
}

/// An object that is present.
#[derive(Drop)]
pub struct Object {
    pub fixed: FixedPart,
    pub body: Body,
}

impl Object {
    /// The object as it is when its group is entered: nothing changed, neither available nor running.
    pub fn fresh(alloc: Global, part: &FixedPart) -> Result<Object, AllocError>
        ensures { IfOk result (λ object. object ≡ fresh part.now) }
    {
        let list = list_at_first(alloc, part.get())?;
        Ok(Object {
            fixed: part.clone()?,
            body: Body {
                value: None,
                changes: Properties::new(alloc),
                text: None,
                drawings: Drawings::new(alloc),
                available: false,
                running: false,
                token: 1,
                list,
                point: 0,
                overwrites: false,
                highlighted: false,
                selected: false,
            },
        })
    }

    /// The text that was loaded, or none.
    pub fn text(&self) -> &[u8]
        ensures { result.now ≡ text_of self.now.body }
    {
        match &self.body.text {
            Some(text) => text.as_slice(),
            None => &[],
        }
    }

    /// The value that a variable holds: what it was given, else its original value.
    pub fn value(&self) -> Option<&Value>
        ensures { option_copied result ≡ value_held self.now.fixed self.now.body }
    {
        match &self.body.value {
            Some(value) => Some(value),
            None => as_value(self.fixed.get().properties.get(Attribute::OrigValue)),
        }
    }

    /// What is read under the attribute: what was changed, else what was written.
    pub fn read(&self, attribute: Attribute) -> Option<&Held>
        ensures { option_copied result ≡ read attribute self.now }
    {
        match self.body.changes.get(attribute) {
            Some(held) => Some(held),
            None => self.fixed.get().properties.get(attribute),
        }
    }
}

/// The items of a list group when it is entered; of any other object none.
fn list_at_first(alloc: Global, fixed: &Fixed) -> Result<Listing, AllocError>
    ensures { IfOk result (λ list. list ≡ listed_at_first fixed.now) }
{
    if !matches!(fixed.class, Class::ListGroup) {
        return Ok(Listing::new());
    }
    let members = as_members(fixed.properties.get(Attribute::TokenGroupItems));
    Listing::of_members(alloc, members)
}
