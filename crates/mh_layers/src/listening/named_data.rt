//! The data that links name, by the events for which they wait.
//!
//! Promise: what is named of the events of a source is the data of all links that wait for them, each once.
ghost use Rattle.std.specs.Prelude.{◌≡◌, [], IfOk, OnOk, if◌then◌else◌, None, Some};
ghost use Rattle.std.specs.List.{flat_map};
ghost use Rattle.std.specs.Map.{lookup};
ghost use Rattle.std.specs.Option.{option_copied};
ghost use Rattle.mh_layers.specs.CostNodes as cost_nodes;
ghost use Rattle.mh_layers.specs.Listening as spec;
ghost use Rattle.mh_layers.specs.Listening.{is_ear, named, named_by, same_ear, with_data, with_more};

use crate::listening::Groups;
use crate::listening::listener_slot::EventKey;
use crate::numbered::values::Values;
use indexmap::{IndexMap, IndexSet};
use mh_base::{EventType, ObjRef, Value};
use mh_group::{Attribute, Class};
use mh_model::held::{as_event, as_value};
use mh_model::{Fixed, FixedPart};
use std::alloc::{AllocError, Global};

/// What data is named of which events.
pub(crate) type Ears = IndexMap<EventKey, Values>;

/// The source for whose events a link waits.
pub(crate) fn source_of(part: &Fixed) -> Option<&ObjRef>
    ensures { option_copied result ≡ spec.source_of part.now }
{
    if !matches!(part.class, Class::Link) {
        return None;
    }
    match as_value(part.properties.get(Attribute::EventSource)) {
        Some(Value::Object(source)) => Some(source),
        _ => None,
    }
}

/// The data that a link names.
pub(crate) fn data_of(part: &Fixed) -> Option<&Value>
    ensures { option_copied result ≡ cost_nodes.data_of part.now }
{
    as_value(part.properties.get(Attribute::EventData))
}

/// The events of this type of a source that has a number.
pub(crate) fn ear_with(
    objects: &IndexSet<ObjRef>,
    source: &ObjRef,
    kind: EventType,
) -> Option<EventKey>
    ensures { result ≡ spec.ear_with objects.now.keys source.now kind }
{
    match objects.get_index_of(source) {
        None => None,
        Some(source) => Some(EventKey {
            source,
            kind: kind.number(),
        }),
    }
}

/// The events for which a link waits.
pub(crate) fn ear_of(objects: &IndexSet<ObjRef>, part: &Fixed) -> Option<EventKey>
    ensures { result ≡ spec.ear_of objects.now.keys part.now }
{
    match source_of(part) {
        None => None,
        Some(source) => match as_event(part.properties.get(Attribute::EventType)) {
            None => None,
            Some(kind) => ear_with(objects, source, kind),
        },
    }
}

/// Puts the data of a link, if it has any, to what is named of these events.
fn hear(
    alloc: Global,
    ears: &mut Ears,
    ear: EventKey,
    value: Option<&Value>,
) -> Result<(), AllocError>
    ensures { let d = option_copied value.entry in OnOk result
        ((q : _) →
        let before = lookup (same_ear q) ears.old.entries in
        lookup (same_ear q) ears.new.entries ≡ (if same_ear ear q then Some (with_more d before) else before)) }
{
    match ears.get_mut(&ear) {
        Some(values) => {
            values.add(value)?;
            Ok(())
        }
        None => begin(alloc, ears, ear, value),
    }
}

/// The data of the first link that waits for these events.
fn begin(
    alloc: Global,
    ears: &mut Ears,
    ear: EventKey,
    value: Option<&Value>,
) -> Result<(), AllocError>
    ensures { let d = option_copied value.entry in OnOk result
        ((q : _) →
        lookup (same_ear q) ears.new.entries
        ≡ (if same_ear ear q then Some (with_data [] d) else lookup (same_ear q) ears.old.entries)) }
{
    let mut values = Values::new(alloc);
    values.add(value)?;
    ears.insert(ear, values)?;
    Ok(())
}

/// Puts the data of a link to what is named of the events for which it waits.
fn hear_part(
    alloc: Global,
    objects: &IndexSet<ObjRef>,
    ears: &mut Ears,
    part: &Fixed,
) -> Result<(), AllocError>
    ensures { let os = objects.now.keys in OnOk result
        ((q : _) →
        lookup (same_ear q) ears.new.entries
        ≡ named_by (λ p. is_ear q (spec.ear_of os p)) (lookup (same_ear q) ears.old.entries) part.now) }
{
    match ear_of(objects, part) {
        None => Ok(()),
        Some(ear) => {
            hear(alloc, ears, ear, data_of(part))?;
            Ok(())
        }
    }
}

/// The same for the links of a group.
fn hear_parts(
    alloc: Global,
    objects: &IndexSet<ObjRef>,
    ears: &mut Ears,
    parts: &[FixedPart],
) -> Result<(), AllocError>
    ensures { let os = objects.now.keys in OnOk result
        ((q : _) →
        lookup (same_ear q) ears.new.entries
        ≡ named (λ p. is_ear q (spec.ear_of os p)) (lookup (same_ear q) ears.old.entries) parts.now) }
{
    for part in parts {
        hear_part(alloc, objects, ears, part.get())?;
    }
    Ok(())
}

/// What data the links of the groups name, by the events for which they wait.
pub(crate) fn ears_of(
    alloc: Global,
    objects: &IndexSet<ObjRef>,
    groups: &Groups,
) -> Result<Ears, AllocError>
    ensures { let os = objects.now.keys in IfOk result
        (λ ears. (q : _) →
        lookup (same_ear q) ears.entries
        ≡ named (λ p. is_ear q (spec.ear_of os p)) None (flat_map (λ e. e.1) groups.now.entries)) }
{
    let mut ears = IndexMap::new(alloc);
    for parts in groups.values() {
        hear_parts(alloc, objects, &mut ears, parts.as_slice())?;
    }
    Ok(ears)
}
