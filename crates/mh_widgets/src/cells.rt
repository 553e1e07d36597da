//! The items in the cells of a list group.
ghost use Rattle.std.specs.Prelude.{◌≡◌, ◌++◌, ◌∷◌, ◌-◌, ◌==◌, [], length, slice_get, take, if◌then◌else◌, OnOk};
ghost use Rattle.std.specs.Option.{option_copied};
ghost use Rattle.std.specs.List.{zip};
ghost use Rattle.mh_model.specs.Lists.{wraps, before_first, objects_of, in_cells, is_shown, halted_members, run_members};
ghost use Rattle.mh_model.specs.Tokens.{numbered, positions as positions_lem};

use crate::slices::{behind_of, front_of};
use mh_base::ObjRef;
use mh_group::{Attribute, Position};
use mh_model::held::{as_bool, as_positions};
use mh_model::object::listing::is_listed;
use mh_model::{Entry, Fixed, Item, Listing};
use std::alloc::AllocError;
use std::marker::Model;

/// Whether the first item of the list follows the last.
pub(crate) fn wraps(fixed: &Fixed) -> bool
    ensures { result ≡ wraps fixed.now }
{
    as_bool(fixed.properties.get(Attribute::WrapAround), false)
}

/// Where the cells of the list lie.
pub(crate) fn positions(fixed: &Fixed) -> &[Position]
    ensures { result.now ≡ positions_lem fixed.now }
{
    as_positions(fixed.properties.get(Attribute::Positions))
}

/// How many items stand before the one in the first cell.
pub(crate) fn before_first(list: &Listing) -> usize
    ensures { result ≡ before_first list.now }
{
    list.first().saturating_sub(1)
}

/// The items in the cells of a list group, in their order: some of the list, and behind them, where the
/// first follows the last, some from its front. A contract sees the objects that they are.
#[derive(Drop)]
pub(crate) struct Cells<'a> {
    some: &'a [Entry],
    wrapped: &'a [Entry],
}

impl<'a> Model for Cells<'a> {
    ghost use Rattle.std.specs.Prelude.{List, ◌++◌};
    ghost use Rattle.mh_base.specs.declared.obj_ref.ObjRef.{ObjRef};
    ghost use Rattle.mh_model.specs.Lists.{objects_of};

    ghost Value = { List ObjRef };

    ghost view = { λ c. objects_of c.some.now ++ objects_of c.wrapped.now };
}

impl<'a> Cells<'a> {
    /// The cells of a list that shows nothing.
    pub(crate) fn empty() -> Cells<'a>
        ensures { result ≡ [] }
    {
        Cells {
            some: &[],
            wrapped: &[],
        }
    }

    /// The items in the cells of the list.
    pub(crate) fn of(fixed: &Fixed, list: &'a Listing) -> Cells<'a>
        ensures { result ≡ in_cells fixed.now list.now }
    {
        let cells = positions(fixed).len();
        let before = before_first(list);
        let some = front_of(behind_of(list.entries(), before), cells);
        let left = cells.saturating_sub(some.len());
        Cells {
            some,
            wrapped: behind_last(fixed, list, left),
        }
    }

    pub(crate) fn is_empty(&self) -> bool
        ensures { result ≡ (length self.now == 0) }
    {
        self.some.is_empty() && self.wrapped.is_empty()
    }

    /// How many of so many items are in none of the cells, where all in the cells are among them.
    pub(crate) fn left_of(&self, items: usize) -> usize
        ensures { result ≡ items - length self.now }
    {
        items
            .saturating_sub(self.some.len())
            .saturating_sub(self.wrapped.len())
    }

    /// Whether the object is in a cell.
    pub(crate) fn shows(&self, object: &ObjRef) -> bool
        ensures { result ≡ is_shown object.now self.now }
    {
        is_listed(self.some, object) || is_listed(self.wrapped, object)
    }

    /// The object in the cell with this number, from 1 on.
    pub(crate) fn at(&self, number: usize) -> Option<&'a ObjRef>
        ensures { option_copied result ≡ numbered self.now number }
    {
        match number {
            0 => None,
            _ => self.in_place(number - 1),
        }
    }

    fn in_place(&self, place: usize) -> Option<&'a ObjRef>
        ensures { option_copied result ≡ slice_get self.now place }
    {
        let some = self.some.len();
        if place < some {
            object_at(self.some, place)
        } else {
            object_at(self.wrapped, place - some)
        }
    }

    /// Puts that those halt which are in none of these other cells.
    pub(crate) fn halt_all_but(
        &self,
        items: &mut Vec<Item>,
        others: &Cells<'_>,
    ) -> Result<(), AllocError>
        ensures { OnOk result (items.new.items
            ≡ items.old.items ++ halted_members self.now others.now) }
    {
        halt_members(items, self.some, others)?;
        halt_members(items, self.wrapped, others)
    }

    /// Puts that those run which are in none of these other cells.
    pub(crate) fn run_all_but(
        &self,
        items: &mut Vec<Item>,
        others: &Cells<'_>,
    ) -> Result<(), AllocError>
        ensures { OnOk result (items.new.items
            ≡ items.old.items ++ run_members others.now self.now) }
    {
        run_members(items, self.some, others)?;
        run_members(items, self.wrapped, others)
    }

    /// Puts each object with the place of its cell.
    pub(crate) fn place_at(
        &self,
        placed: &mut Vec<(ObjRef, Position)>,
        positions: &[Position],
    ) -> Result<(), AllocError>
        ensures { OnOk result (placed.new.items
            ≡ placed.old.items ++ zip self.now positions.now) }
    {
        place_entries(placed, self.some, positions)?;
        let left = behind_of(positions, self.some.len());
        place_entries(placed, self.wrapped, left)?;
        Ok(())
    }
}

/// The object that the item at this place is.
fn object_at(entries: &[Entry], place: usize) -> Option<&ObjRef>
    ensures { option_copied result ≡ slice_get (objects_of entries.now) place }
{
    match entries.get(place) {
        Some(entry) => Some(&entry.object),
        None => None,
    }
}

/// The first items of the list, at most so many, where they follow the last: those before the one in the
/// first cell.
fn behind_last<'a>(fixed: &Fixed, list: &'a Listing, most: usize) -> &'a [Entry]
    ensures { result.now ≡ (if wraps fixed.now
        then take most (take (before_first list.now) list.now.entries) else []) }
{
    if wraps(fixed) {
        front_of(front_of(list.entries(), before_first(list)), most)
    } else {
        &[]
    }
}

/// Puts that those of these items halt which are in none of these other cells.
fn halt_members(
    items: &mut Vec<Item>,
    entries: &[Entry],
    others: &Cells<'_>,
) -> Result<(), AllocError>
    ensures { OnOk result (items.new.items
        ≡ items.old.items ++ halted_members (objects_of entries.now) others.now) }
{
    for entry in entries {
        if !others.shows(&entry.object) {
            items.push(Item::HaltMember(entry.object.clone()?))?;
        }
    }
    Ok(())
}

/// Puts that those of these items run which are in none of these other cells.
fn run_members(
    items: &mut Vec<Item>,
    entries: &[Entry],
    others: &Cells<'_>,
) -> Result<(), AllocError>
    ensures { OnOk result (items.new.items
        ≡ items.old.items ++ run_members others.now (objects_of entries.now)) }
{
    for entry in entries {
        if !others.shows(&entry.object) {
            items.push(Item::RunMember(entry.object.clone()?))?;
        }
    }
    Ok(())
}

/// Puts this object at the position.
fn place(
    placed: &mut Vec<(ObjRef, Position)>,
    object: &ObjRef,
    position: Position,
) -> Result<(), AllocError>
    ensures { OnOk result (placed.new.items ≡ placed.old.items ++ (object.now, position) ∷ []) }
{
    placed.push((object.clone()?, position))?;
    Ok(())
}

/// Puts the object that each of these items is at the position beside it.
fn place_entries(
    placed: &mut Vec<(ObjRef, Position)>,
    entries: &[Entry],
    positions: &[Position],
) -> Result<(), AllocError>
    ensures { OnOk result (placed.new.items
        ≡ placed.old.items ++ zip (objects_of entries.now) positions.now) }
{
    let mut left = entries;
    let mut free = positions;
    while let Some((entry, behind)) = left.split_first() {
        let Some((position, others)) = free.split_first() else {
            return Ok(());
        };
        place(placed, &entry.object, *position)?;
        left = behind;
        free = others;
    }
    Ok(())
}
