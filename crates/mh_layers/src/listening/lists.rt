//! The links that wait for events, by what they have in common: the source and the type, the group, and the data.
//!
//! Promise: each link stands at its one place, behind those of the same place that stand before it in the files.
ghost use Rattle.std.specs.Prelude.{◌≡◌, ◌++◌, ◌∷◌, [], IfOk, OnOk, if◌then◌else◌, Some, slice_get};
ghost use Rattle.std.specs.Map.{lookup};
ghost use Rattle.std.specs.Option.{option_copied};
ghost use Rattle.mh_layers.specs.Listening as spec;
ghost use Rattle.mh_layers.specs.Listening.{is_place, listed, lists_at, lists_from, lists_in, same_place};

use crate::listening::Groups;
use crate::listening::listener_slot::{EventKey, ListenerSlot, Share};
use crate::listening::named_data::{Ears, data_of, ear_of, ear_with};
use crate::numbered::values::Values;
use indexmap::{IndexMap, IndexSet};
use mh_base::{EventType, ObjRef, Seq, Value};
use mh_model::{Fixed, FixedPart};
use std::alloc::{AllocError, Global};

/// The links, by what they have in common.
pub(crate) type Lists = IndexMap<ListenerSlot, Seq<FixedPart>>;

/// The links of the group with this number that wait for such events, and have no data, or the value with this number.
pub(crate) fn place_with(
    objects: &IndexSet<ObjRef>,
    group: Option<usize>,
    source: &ObjRef,
    kind: EventType,
    value: Option<usize>,
) -> Option<ListenerSlot>
    ensures { result ≡ spec.place_with objects.now.keys group source.now kind value }
{
    match (ear_with(objects, source, kind), group) {
        (Some(ear), Some(group)) => Some(place_at(ear, group, value)),
        _ => None,
    }
}

fn place_at(ear: EventKey, group: usize, value: Option<usize>) -> ListenerSlot
    ensures { result ≡ spec.place_at ear group value }
{
    ListenerSlot {
        ear,
        share: Share { group, value },
    }
}

/// Which of the values that are named the data of a link is: none, where it has no data, or the value with this number.
fn number_in(values: Option<&Values>, value: Option<&Value>) -> Option<Option<usize>>
    ensures { result ≡ spec.number_in (option_copied values.entry) (option_copied value.entry) }
{
    match value {
        None => Some(None),
        Some(value) => match values {
            None => None,
            Some(values) => numbered(values, value),
        },
    }
}

fn numbered(values: &Values, value: &Value) -> Option<Option<usize>>
    ensures { result ≡ spec.number_in (Some values.now) (Some value.now) }
{
    match values.number_of(value) {
        None => None,
        Some(number) => Some(Some(number)),
    }
}

/// The place of a link of the group with this number.
fn place_of(
    objects: &IndexSet<ObjRef>,
    ears: &Ears,
    group: usize,
    part: &Fixed,
) -> Option<ListenerSlot>
    ensures { result ≡ spec.place_of objects.now.keys ears.now.entries group part.now }
{
    match ear_of(objects, part) {
        None => None,
        Some(ear) => match number_in(ears.get(&ear), data_of(part)) {
            None => None,
            Some(value) => Some(place_at(ear, group, value)),
        },
    }
}

/// Puts a link to those at this place.
fn list(
    alloc: Global,
    lists: &mut Lists,
    place: ListenerSlot,
    part: &FixedPart,
) -> Result<(), AllocError>
    ensures { OnOk result
        ((q : _) →
        listed q lists.new.entries
        ≡ listed q lists.old.entries ++ (if same_place place q then part.now ∷ [] else [])) }
{
    let part = part.clone()?;
    match lists.get_mut(&place) {
        Some(parts) => {
            parts.push(part)?;
            Ok(())
        }
        None => start(alloc, lists, place, part),
    }
}

/// Puts the first link to a place.
fn start(
    alloc: Global,
    lists: &mut Lists,
    place: ListenerSlot,
    part: FixedPart,
) -> Result<(), AllocError>
    ensures { OnOk result
        ((q : _) →
        lookup (same_place q) lists.new.entries
        ≡ (if same_place place q then Some (part ∷ []) else lookup (same_place q) lists.old.entries)) }
{
    let mut parts = Seq::new(alloc);
    parts.push(part)?;
    lists.insert(place, parts)?;
    Ok(())
}

/// Puts a link to those at its place.
fn list_part(
    alloc: Global,
    objects: &IndexSet<ObjRef>,
    ears: &Ears,
    lists: &mut Lists,
    group: usize,
    part: &FixedPart,
) -> Result<(), AllocError>
    ensures { let at = spec.place_of objects.now.keys ears.now.entries group part.now in OnOk result
        ((q : _) →
        listed q lists.new.entries ≡ listed q lists.old.entries ++ (if is_place q at then part.now ∷ [] else [])) }
{
    match place_of(objects, ears, group, part.get()) {
        None => Ok(()),
        Some(place) => {
            list(alloc, lists, place, part)?;
            Ok(())
        }
    }
}

/// The same for the links of a group.
fn list_parts(
    alloc: Global,
    objects: &IndexSet<ObjRef>,
    ears: &Ears,
    lists: &mut Lists,
    group: usize,
    parts: &[FixedPart],
) -> Result<(), AllocError>
    ensures { let os = objects.now.keys in let es = ears.now.entries in OnOk result
        ((q : _) →
        listed q lists.new.entries ≡ listed q lists.old.entries ++ lists_in os es q group parts.now) }
{
    for part in parts {
        list_part(alloc, objects, ears, lists, group, part)?;
    }
    Ok(())
}

/// The same for the group with this number.
fn list_group(
    alloc: Global,
    objects: &IndexSet<ObjRef>,
    ears: &Ears,
    lists: &mut Lists,
    group: usize,
    groups: &Groups,
) -> Result<(), AllocError>
    ensures { let os = objects.now.keys in let es = ears.now.entries in OnOk result
        ((q : _) →
        listed q lists.new.entries
        ≡ listed q lists.old.entries ++ lists_at os es q group (slice_get groups.now.entries group)) }
{
    match groups.get_index(group) {
        None => Ok(()),
        Some((_, parts)) => {
            list_parts(alloc, objects, ears, lists, group, parts.as_slice())?;
            Ok(())
        }
    }
}

/// The links of the groups, by what they have in common.
pub(crate) fn lists_of(
    alloc: Global,
    objects: &IndexSet<ObjRef>,
    ears: &Ears,
    groups: &Groups,
) -> Result<Lists, AllocError>
    ensures { let os = objects.now.keys in let es = ears.now.entries in IfOk result
        (λ lists. (q : _) → listed q lists.entries ≡ lists_from os es q 0 groups.now.entries) }
{
    let mut lists = IndexMap::new(alloc);
    for group in 0..groups.len() {
        list_group(alloc, objects, ears, &mut lists, group, groups)?;
    }
    Ok(lists)
}
