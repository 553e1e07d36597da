//! What a list group shows, and what is told of a change.
ghost use Rattle.std.specs.Prelude.{◌≡◌, ◌++◌, if◌then◌else◌, OnOk, IfOk};
ghost use Rattle.std.specs.Option.{option_copied};
ghost use Rattle.mh_model.specs.Lists as spec;
ghost use Rattle.mh_model.specs.Lists.{shows, nothing_shown, shown_in, in_cells, cells_placed, list_items};

use crate::cells::{Cells, before_first, positions, wraps};
use crate::events::{count_event, truth_event};
use mh_base::{EventType, ObjRef};
use mh_group::Position;
use mh_model::{Entry, Fixed, Item, Listing};
use std::alloc::{AllocError, Global};
use std::marker::Model;

/// The items that a list shows, and what its four events tell: whether the first item is shown, and the
/// last, and how many stand before those that are shown, and behind.
#[derive(Drop)]
pub(crate) struct Showing<'a> {
    cells: Cells<'a>,
    has_first: bool,
    has_last: bool,
    head: usize,
    tail: usize,
}

impl<'a> Model for Showing<'a> {
    ghost use Rattle.mh_model.specs.Lists.{Shown};

    ghost Value = { Shown };

    ghost view = { λ s. record {
      items = s.cells;
      has_first = s.has_first;
      has_last = s.has_last;
      head = s.head;
      tail = s.tail;
    } };
}

impl<'a> Showing<'a> {
    /// What a list shows that does not run.
    pub(crate) fn nothing() -> Showing<'a>
        ensures { result ≡ nothing_shown }
    {
        Showing {
            cells: Cells::empty(),
            has_first: false,
            has_last: false,
            head: 0,
            tail: 0,
        }
    }

    /// What the list shows: its items while it runs.
    pub(crate) fn of(running: bool, fixed: &Fixed, list: &'a Listing) -> Showing<'a>
        ensures { result ≡ shows running fixed.now list.now }
    {
        if running {
            Showing::running(fixed, list)
        } else {
            Showing::nothing()
        }
    }

    /// What the list shows while it runs.
    fn running(fixed: &Fixed, list: &'a Listing) -> Showing<'a>
        ensures { result ≡ shown_in fixed.now list.now (in_cells fixed.now list.now) }
    {
        let cells = Cells::of(fixed, list);
        let entries = list.entries();
        Showing {
            has_first: is_shown(entries.first(), &cells),
            has_last: is_shown(entries.last(), &cells),
            head: head_of(fixed, list),
            tail: tail_of(fixed, list, &cells),
            cells,
        }
    }

    /// The items that are shown, in the order of their cells.
    pub(crate) fn cells(&self) -> &Cells<'a>
        ensures { result.now ≡ self.now.items }
    {
        &self.cells
    }

    /// What the events tell otherwise of a list that showed something else before.
    fn tell(
        &self,
        items: &mut Vec<Item>,
        at: &ObjRef,
        before: &Showing<'_>,
    ) -> Result<(), AllocError>
        ensures { OnOk result (items.new.items
            ≡ items.old.items ++ spec.list_events at.now before.now self.now) }
    {
        let kind = EventType::FirstItemPresented;
        tell_truth(items, kind, at, before.has_first, self.has_first)?;
        let kind = EventType::LastItemPresented;
        tell_truth(items, kind, at, before.has_last, self.has_last)?;
        tell_count(items, EventType::HeadItems, at, before.head, self.head)?;
        tell_count(items, EventType::TailItems, at, before.tail, self.tail)
    }
}

/// Whether there is the item, and it is in a cell.
fn is_shown(entry: Option<&Entry>, cells: &Cells<'_>) -> bool
    ensures { result ≡ spec.is_shown_if (option_copied entry.entry) cells.now }
{
    match entry {
        Some(entry) => cells.shows(&entry.object),
        None => false,
    }
}

/// How many items stand before those that are shown; with wrapping none.
fn head_of(fixed: &Fixed, list: &Listing) -> usize
    ensures { result ≡ (if spec.wraps fixed.now then 0 else spec.before_first list.now) }
{
    if wraps(fixed) { 0 } else { before_first(list) }
}

/// How many items stand behind those that are shown; with wrapping none, nor where none is shown.
fn tail_of(fixed: &Fixed, list: &Listing, cells: &Cells<'_>) -> usize
    ensures { result ≡ (if spec.wraps fixed.now then 0 else spec.behind_cells list.now cells.now) }
{
    if wraps(fixed) || cells.is_empty() {
        0
    } else {
        let items = list.entries().len();
        cells.left_of(items.saturating_sub(before_first(list)))
    }
}

/// Tells whether it is so, where it was otherwise.
fn tell_truth(
    items: &mut Vec<Item>,
    kind: EventType,
    at: &ObjRef,
    before: bool,
    after: bool,
) -> Result<(), AllocError>
    ensures { OnOk result (items.new.items
        ≡ items.old.items ++ spec.truth_told kind at.now before after) }
{
    if before != after {
        items.push(truth_event(at, kind, after)?)?;
    }
    Ok(())
}

/// Tells the count, where it was another.
fn tell_count(
    items: &mut Vec<Item>,
    kind: EventType,
    at: &ObjRef,
    before: usize,
    after: usize,
) -> Result<(), AllocError>
    ensures { OnOk result (items.new.items
        ≡ items.old.items ++ spec.count_told kind at.now before after) }
{
    if before != after {
        items.push(count_event(at, kind, after)?)?;
    }
    Ok(())
}

/// What is put where the list at this reference shows other items than before: those halt that are no
/// longer shown, those run that were not, and then the events tell of it.
pub(crate) fn list_items(
    alloc: Global,
    at: &ObjRef,
    before: &Showing<'_>,
    after: &Showing<'_>,
) -> Result<Vec<Item>, AllocError>
    ensures { IfOk result (λ items. items.items ≡ list_items at.now before.now after.now) }
{
    let mut items = Vec::new(alloc);
    before.cells().halt_all_but(&mut items, after.cells())?;
    after.cells().run_all_but(&mut items, before.cells())?;
    after.tell(&mut items, at, before)?;
    Ok(items)
}

/// Where the items that are shown are placed.
pub(crate) fn cells_placed(
    alloc: Global,
    fixed: &Fixed,
    shown: &Showing<'_>,
) -> Result<Vec<(ObjRef, Position)>, AllocError>
    ensures { IfOk result (λ placed. placed.items ≡ cells_placed fixed.now shown.now) }
{
    let mut placed = Vec::new(alloc);
    shown.cells().place_at(&mut placed, positions(fixed))?;
    Ok(placed)
}
