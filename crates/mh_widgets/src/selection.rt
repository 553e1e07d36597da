//! Which items of a list group are selected (ISO/IEC 13522-5, ListGroup).
ghost use Rattle.std.specs.Prelude.{◌≡◌, ◌<◌, ◌+◌, ◌^◌, length, slice_get, vec_len, IfOk, IfSome};
ghost use Rattle.std.specs.List.{position};
ghost use Rattle.mh_group.specs.Table.{is_visible};
ghost use Rattle.mh_model.specs.declared.object.listing.Entry.{Entry as EntryValue};
ghost use Rattle.mh_model.specs.Lists as spec;
ghost use Rattle.mh_model.specs.Lists.{selection_worked};
ghost use Rattle.mh_widgets.specs.Does.{Does, placed_by, placed_with};

use crate::done::Done;
use crate::entries::push_copies;
use crate::events::count_event;
use mh_base::{EventType, ObjRef, Value};
use mh_group::{ActionName, Attribute};
use mh_model::held::as_bool;
use mh_model::{Edit, Entry, Fixed, Item, Listing, Object};
use std::alloc::{AllocError, Global};

/// What SelectItem, DeselectItem or ToggleItem makes of the list at this reference: only a change is
/// told, and where only one item may be selected, another one no longer is.
pub fn selection_worked(
    alloc: Global,
    name: ActionName,
    values: &[Value],
    at: &ObjRef,
    object: &Object,
) -> Result<Done, AllocError>
    ensures done { let said = selection_worked name values.now at.now object.now.fixed object.now.body in
        IfOk result (λ done. Does object.now said done) }
    ensures edited { IfOk result (λ done. done.placed.items ≡ placed_with done.edit done.placed.items) }
    ensures unseen { let seen = is_visible object.now.fixed.class in
        IfOk result (λ done. done.placed.items ≡ placed_by done.placed.items seen) }
{
    match values {
        [Value::Int(number)] if *number > 0 => {
            selection_at(alloc, name, number.unsigned_abs() as usize - 1, at, object)
        }
        _ => Ok(Done::nothing(alloc)),
    }
}

/// What the action makes of the item behind so many, if there is one.
fn selection_at(
    alloc: Global,
    name: ActionName,
    place: usize,
    at: &ObjRef,
    object: &Object,
) -> Result<Done, AllocError>
    ensures done { let said = spec.selection_at name place (slice_get object.now.body.list.entries place)
        at.now object.now.fixed object.now.body in
        IfOk result (λ done. Does object.now said done) }
    ensures edited { IfOk result (λ done. done.placed.items ≡ placed_with done.edit done.placed.items) }
    ensures unseen { let seen = is_visible object.now.fixed.class in
        IfOk result (λ done. done.placed.items ≡ placed_by done.placed.items seen) }
{
    let Some(entry) = object.body.list.entries().get(place) else {
        return Ok(Done::nothing(alloc));
    };
    let wanted = selection_wanted(name, entry.selected);
    if wanted == entry.selected {
        return Ok(Done::nothing(alloc));
    }
    if wanted {
        item_selected(alloc, place, at, object)
    } else {
        item_deselected(alloc, place, at, object)
    }
}

/// Whether the item is to be selected, as the action has it.
fn selection_wanted(name: ActionName, now: bool) -> bool
    ensures { result ≡ spec.selection_wanted name now }
{
    match name {
        ActionName::SelectItem => true,
        ActionName::DeselectItem => false,
        _ => !now,
    }
}

/// The item behind so many is selected, and another one no longer is where only one may be.
fn item_selected(
    alloc: Global,
    place: usize,
    at: &ObjRef,
    object: &Object,
) -> Result<Done, AllocError>
    requires { place < length object.now.body.list.entries }
    ensures done { let said = spec.item_selected place at.now object.now.fixed object.now.body in
        IfOk result (λ done. Does object.now said done) }
    ensures edited { IfOk result (λ done. done.placed.items ≡ placed_with done.edit done.placed.items) }
    ensures unseen { let seen = is_visible object.now.fixed.class in
        IfOk result (λ done. done.placed.items ≡ placed_by done.placed.items seen) }
{
    let list = &object.body.list;
    let other = other_marked(object.fixed.get(), list.entries());
    let mut entries = Vec::new(alloc);
    push_copies(&mut entries, list.entries())?;
    let mut items = Vec::new(alloc);
    if let Some(other) = other {
        mark(&mut entries, other, false);
        items.push(item_event(at, EventType::ItemDeselected, other)?)?;
    }
    mark(&mut entries, place, true);
    items.push(item_event(at, EventType::ItemSelected, place)?)?;
    let list = Listing::of_entries(alloc, entries, list.first())?;
    Ok(Done {
        edit: Some(Edit::List(list)),
        placed: Vec::new(alloc),
        items,
    })
}

/// The place of the item that is selected, where only one may be.
fn other_marked(fixed: &Fixed, entries: &[Entry]) -> Option<usize>
    ensures place { result ≡ spec.other_marked fixed.now entries.now }
    ensures inside { IfSome result (λ place. place < length entries.now) }
{
    if as_bool(fixed.properties.get(Attribute::MultipleSelection), false) {
        None
    } else {
        first_marked(entries)
    }
}

/// The place of the first item that is selected.
fn first_marked(entries: &[Entry]) -> Option<usize>
    ensures place { result ≡ position (λ (e : EntryValue). e.selected) entries.now }
    ensures inside { IfSome result (λ place. place < length entries.now) }
{
    entries.iter().position(|entry| entry.selected)
}

fn item_deselected(
    alloc: Global,
    place: usize,
    at: &ObjRef,
    object: &Object,
) -> Result<Done, AllocError>
    requires { place < length object.now.body.list.entries }
    ensures done { let said = spec.item_deselected place at.now object.now.body in
        IfOk result (λ done. Does object.now said done) }
    ensures edited { IfOk result (λ done. done.placed.items ≡ placed_with done.edit done.placed.items) }
    ensures unseen { let seen = is_visible object.now.fixed.class in
        IfOk result (λ done. done.placed.items ≡ placed_by done.placed.items seen) }
{
    let list = &object.body.list;
    let mut entries = Vec::new(alloc);
    push_copies(&mut entries, list.entries())?;
    mark(&mut entries, place, false);
    let mut items = Vec::new(alloc);
    items.push(item_event(at, EventType::ItemDeselected, place)?)?;
    let list = Listing::of_entries(alloc, entries, list.first())?;
    Ok(Done {
        edit: Some(Edit::List(list)),
        placed: Vec::new(alloc),
        items,
    })
}

/// The item behind so many is selected, or no longer is.
fn mark(entries: &mut Vec<Entry>, place: usize, on: bool)
    requires { place < vec_len entries.old }
    ensures marked { entries.new.items ≡ spec.marked_at place on entries.old.items }
    ensures many { length entries.new.items ≡ length entries.old.items }
{
    entries[place].selected = on;
}

/// The event of this type for the item behind so many, whose number is its data.
fn item_event(at: &ObjRef, kind: EventType, place: usize) -> Result<Item, AllocError>
    requires { place + 1 < 2 ^ 64 }
    ensures { IfOk result (λ item. item ≡ spec.item_event at.now kind place) }
{
    count_event(at, kind, place + 1)
}
