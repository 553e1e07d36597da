//! `Listing`: the items of a list group.
ghost use Rattle.std.specs.Prelude.{◌≡◌, [], ◌≤◌, length, suc, IfOk};
ghost use Rattle.mh_model.specs.ListItems.{has_item, with_item, entries_once, listed_once};

use crate::Member;
use crate::parts::same_ref;
use mh_base::{ObjRef, Shared};
use std::alloc::{AllocError, Global};
use std::marker::Model;

/// An item of a list group, and whether it is selected (ISO/IEC 13522-5, ListGroup).
#[derive(Clone, Drop)]
pub struct Entry {
    pub object: ObjRef,
    pub selected: bool,
}

/// The items of a list group, and the number of the one in its first cell, from 1 on. Copies share the
/// items. A contract sees both.
#[derive(Drop)]
pub struct Listing {
    entries: Option<Shared<Entry>>,
    first: usize,
}

impl Model for Listing {
    ghost use Rattle.std.specs.Prelude.{◌≤◌, length, suc};
    ghost use Rattle.mh_model.specs.Listed.{Listed, entries_of};

    ghost Value = { Listed };

    ghost view = { λ l. record { entries = entries_of l.entries; first = l.first } };

    ghost invariant = { λ l. l.first ≤ suc (length (entries_of l.entries)) };
}

impl Listing {
    /// A list without items. It takes no memory.
    pub fn new() -> Listing
        ensures { result ≡ record { entries = []; first = 1 } }
    {
        Listing {
            entries: None,
            first: 1,
        }
    }

    /// The list of these members, each once.
    pub fn of_members(alloc: Global, members: &[Member]) -> Result<Listing, AllocError>
        ensures { IfOk result (λ list. list ≡ listed_once members.now) }
    {
        Listing::of_entries(alloc, entries_of_members(alloc, members)?, 1)
    }

    /// The list of these items, the one with this number first.
    pub fn of_entries(
        alloc: Global,
        entries: Vec<Entry>,
        first: usize,
    ) -> Result<Listing, AllocError>
        requires { first ≤ suc (length entries.items) }
        ensures { IfOk result (λ list. list ≡ record { entries = entries.items; first = first }) }
    {
        let entries = Shared::from_vec(alloc, entries)?;
        Ok(Listing {
            entries: Some(entries),
            first,
        })
    }

    /// The same items, the one with this number first.
    pub fn beginning(&self, first: usize) -> Result<Listing, AllocError>
        requires { first ≤ suc (length self.now.entries) }
        ensures { IfOk result (λ list. list ≡ record self.now { first = first }) }
    {
        Ok(Listing {
            entries: self.entries.clone()?,
            first,
        })
    }

    pub fn entries(&self) -> &[Entry]
        ensures { result.now ≡ self.now.entries }
    {
        match &self.entries {
            Some(entries) => entries.as_slice(),
            None => &[],
        }
    }

    /// The number of the item in the first cell, from 1 on.
    pub fn first(&self) -> usize
        ensures inside { result ≤ suc (length self.now.entries) }
        ensures first { result ≡ self.now.first }
    {
        self.first
    }

    /// A copy, which shares the items with it.
    pub fn copy(&self) -> Result<Listing, AllocError>
        ensures { IfOk result (λ copy. copy ≡ self.now) }
    {
        Ok(Listing {
            entries: self.entries.clone()?,
            first: self.first,
        })
    }
}

/// An item for each of these members, but for one that came before.
fn entries_of_members(alloc: Global, members: &[Member]) -> Result<Vec<Entry>, AllocError>
    ensures { IfOk result (λ entries. entries.items ≡ entries_once [] members.now) }
{
    let mut entries = Vec::new(alloc);
    for member in members {
        push_once(&mut entries, &member.object)?;
    }
    Ok(entries)
}

fn push_once(entries: &mut Vec<Entry>, object: &ObjRef) -> Result<(), AllocError>
    ensures { IfOk result (λ _. entries.new.items ≡ with_item object.now entries.old.items) }
{
    if is_listed(entries.as_slice(), object) {
        return Ok(());
    }
    entries.push(Entry {
        object: object.clone()?,
        selected: false,
    })?;
    Ok(())
}

/// Whether the object is among the items.
pub fn is_listed(entries: &[Entry], object: &ObjRef) -> bool
    ensures { result ≡ has_item object.now entries.now }
{
    entries.iter().any(|entry| same_ref(object, &entry.object))
}
