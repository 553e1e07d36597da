//! What AddItem, DelItem, ScrollItems and SetFirstItem make of the items of a list group.
ghost use Rattle.std.specs.Prelude.{◌≡◌, ◌∷◌, ◌<◌, ◌≤◌, ◌++◌, length, take, drop, nat_le, nat_lt, ◌&&◌, ◌+◌, not, false, IfOk};
ghost use Rattle.std.specs.List.{position};
ghost use Rattle.mh_model.specs.Limits.{most_items};
ghost use Rattle.mh_model.specs.Lists as spec;
ghost use Rattle.mh_model.specs.Lists.{relisted};
ghost use Rattle.mh_model.specs.ListItems.{has_item};
ghost use Rattle.mh_model.specs.Reference.{same_ref};

use crate::cells::{before_first, wraps};
use crate::entries::push_copies;
use mh_base::{ObjRef, Value};
use mh_group::ActionName;
use mh_model::object::listing::is_listed;
use mh_model::parts::same_ref;
use mh_model::{Entry, Fixed, Listing};
use std::alloc::{AllocError, Global};

/// The most items of a list.
const MOST_ITEMS: usize = 256;

/// What the action makes of the items and of which of them comes first, if it changes anything.
pub(crate) fn relisted(
    alloc: Global,
    name: ActionName,
    values: &[Value],
    fixed: &Fixed,
    list: &Listing,
) -> Result<Option<Listing>, AllocError>
    ensures { IfOk result (λ after. after ≡ relisted name values.now fixed.now list.now) }
{
    match (name, values) {
        (ActionName::AddItem, [Value::Int(number), Value::Object(object)]) => {
            if *number < 0 {
                return Ok(None);
            }
            inserted(alloc, number.unsigned_abs() as usize, object, list)
        }
        (ActionName::DelItem, [Value::Object(object)]) => without_item(alloc, object, list),
        (ActionName::ScrollItems, [Value::Int(number)]) => {
            first_set(scrolled_to(wraps(fixed), *number, list), list)
        }
        (ActionName::SetFirstItem, [Value::Int(number)]) => first_set(i128::from(*number), list),
        _ => Ok(None),
    }
}

/// The list with the object as its item with this number, if it is not among them yet and there is room. The same item
/// as before stays in the first cell, but for one that is put there.
fn inserted(
    alloc: Global,
    number: usize,
    object: &ObjRef,
    list: &Listing,
) -> Result<Option<Listing>, AllocError>
    ensures { IfOk result (λ after. after ≡ spec.inserted number object.now list.now) }
{
    if !can_insert(number, object, list.entries()) {
        return Ok(None);
    }
    let entries = with_entry(alloc, list.entries(), number - 1, object)?;
    let first = list.first();
    let first = if number < first { first + 1 } else { first };
    Ok(Some(Listing::of_entries(alloc, entries, first)?))
}

fn can_insert(number: usize, object: &ObjRef, entries: &[Entry]) -> bool
    ensures { result ≡ (nat_le 1 number && nat_le number (length entries.now + 1)
        && nat_lt (length entries.now) most_items && not (has_item object.now entries.now)) }
{
    1 <= number && number <= entries.len() + 1 && has_room(entries) && !is_listed(entries, object)
}

/// Whether the list can have one more item.
fn has_room(entries: &[Entry]) -> bool
    ensures { result ≡ nat_lt (length entries.now) most_items }
{
    entries.len() < MOST_ITEMS
}

/// The items with the object, which is not selected, behind so many of them.
fn with_entry(
    alloc: Global,
    entries: &[Entry],
    before: usize,
    object: &ObjRef,
) -> Result<Vec<Entry>, AllocError>
    requires { before ≤ length entries.now }
    ensures { IfOk result (λ after. after.items ≡ take before entries.now
        ++ record { object = object.now; selected = false } ∷ drop before entries.now) }
{
    let mut after = Vec::with_capacity(alloc, entries.len() + 1)?;
    push_copies(&mut after, &entries[..before])?;
    after.push(Entry {
        object: object.clone()?,
        selected: false,
    })?;
    push_copies(&mut after, &entries[before..])?;
    Ok(after)
}

/// The list without the item that the object is, if it is among them.
fn without_item(
    alloc: Global,
    object: &ObjRef,
    list: &Listing,
) -> Result<Option<Listing>, AllocError>
    ensures { IfOk result (λ after. after ≡ spec.without_item object.now list.now) }
{
    match place_of(object, list.entries()) {
        Some(place) => Ok(Some(removed(alloc, list, place)?)),
        None => Ok(None),
    }
}

/// The place of the item that the object is, if it is among them.
fn place_of(object: &ObjRef, entries: &[Entry]) -> Option<usize>
    ensures { result ≡ position (λ e. same_ref object.now e.object) entries.now }
{
    entries
        .iter()
        .position(|entry| same_ref(object, &entry.object))
}

/// The list without the item behind so many. Whether another one is selected goes with that one; the
/// same item as before stays in the first cell, while there is one.
fn removed(alloc: Global, list: &Listing, place: usize) -> Result<Listing, AllocError>
    requires { place < length list.now.entries }
    ensures { IfOk result (λ after. after ≡ spec.removed list.now place) }
{
    let entries = without_entry(alloc, list.entries(), place)?;
    let first = list.first();
    let first = if place + 1 < first { first - 1 } else { first };
    Listing::of_entries(alloc, entries, kept_within(first, list.entries().len() - 1))
}

fn without_entry(alloc: Global, entries: &[Entry], place: usize) -> Result<Vec<Entry>, AllocError>
    requires { place < length entries.now }
    ensures { IfOk result (λ after. after.items
        ≡ take place entries.now ++ drop (place + 1) entries.now) }
{
    let mut after = Vec::with_capacity(alloc, entries.len() - 1)?;
    push_copies(&mut after, &entries[..place])?;
    push_copies(&mut after, &entries[place + 1..])?;
    Ok(after)
}

/// At most as many as there are, and at least 1.
fn kept_within(number: usize, most: usize) -> usize
    ensures { result ≡ spec.kept_within number most }
{
    match most {
        0 => 1,
        _ => number.min(most),
    }
}

/// The list with the item with this number first, if there is one and it is not first yet.
fn first_set(number: i128, list: &Listing) -> Result<Option<Listing>, AllocError>
    ensures { IfOk result (λ after. after ≡ spec.first_set number list.now) }
{
    if number < 0 {
        return Ok(None);
    }
    let items = list.entries().len();
    match usize::try_from(number) {
        Ok(number) if 1 <= number && number <= items && number != list.first() => {
            Ok(Some(list.beginning(number)?))
        }
        _ => Ok(None),
    }
}

/// The number of the item so many behind the first one; where the first follows the last, it is one of
/// theirs.
fn scrolled_to(wraps: bool, by: i32, list: &Listing) -> i128
    ensures { result ≡ spec.scrolled_to wraps by list.now }
{
    let items = list.entries().len();
    if wraps && items > 0 {
        let place = before_first(list) as i128 + i128::from(by);
        place.rem_euclid(items as i128) + 1
    } else {
        list.first() as i128 + i128::from(by)
    }
}
