//! The tables of objects and of names, read and written at one key.
ghost use Rattle.std.specs.Prelude.{◌≡◌, ◌+◌, ◌≤◌, [], ◌∷◌, None, Some, true, map, MatchOption, if◌then◌else◌};
ghost use Rattle.std.specs.List.{IsDistinct, position_or_len};
ghost use Rattle.std.specs.Map.{keys_of, lookup, set_value};
ghost use Rattle.std.specs.Str.{bytes_eq};
ghost use Rattle.indexmap.specs.IndexMap.{insert_entry, spare};
ghost use Rattle.mh_model.specs.Reference.{same_key};
ghost use Rattle.mh_carousel.specs.Waited as spec;

use crate::slot::{Chain, Slot};
use indexmap::IndexMap;
use mh_base::{GroupName, ObjRef};

/// Who waits at a place, and for which file.
pub(crate) fn wait_at<'a>(
    objects: &'a IndexMap<ObjRef, Option<usize>>,
    names: &'a IndexMap<GroupName, Chain>,
    place: usize,
    slot: Slot,
) -> Option<(&'a ObjRef, &'a GroupName)>
    ensures { let here = spec.wait_at objects.now.entries names.now.entries place slot in
        MatchOption result (here ≡ []) (λ w. here ≡ record { object = w.0.now; name = w.1.now } ∷ []) }
{
    let (object, last) = objects.get_index(slot.object)?;
    let (name, chain) = names.get_index(slot.name)?;
    if is_place(place, last) && chain.from <= place {
        Some((object, name))
    } else {
        None
    }
}

/// Reveals that no object and no name stands twice; does nothing.
pub(crate) fn reveal_apart(
    objects: &IndexMap<ObjRef, Option<usize>>,
    names: &IndexMap<GroupName, Chain>,
)
    ensures objects { IsDistinct same_key (keys_of objects.now.entries) }
    ensures names { IsDistinct bytes_eq (keys_of names.now.entries) }
{
    let _ = objects.len();
    let _ = names.len();
}

fn is_place(place: usize, last: &Option<usize>) -> bool
    ensures { result ≡ spec.is_place place last.now }
{
    match last {
        None => false,
        Some(last) => *last == place,
    }
}

/// The last place for the file of this name.
pub(crate) fn newest(names: &IndexMap<GroupName, Chain>, name: &GroupName) -> Option<usize>
    ensures { result ≡ spec.newest_of (lookup (bytes_eq name.now) names.now.entries) }
{
    match names.get(name) {
        None => None,
        Some(chain) => chain.newest,
    }
}

/// Lets the object have no place any more. Where no object has one, none is looked for.
pub(crate) fn forget_place(objects: &mut IndexMap<ObjRef, Option<usize>>, object: &ObjRef)
    ensures entries { objects.new.entries ≡ set_value (same_key object.now) objects.old.entries None }
    ensures room { spare objects.new ≡ spare objects.old }
{
    if objects.len() != 0 {
        take_place(objects, object);
    }
}

/// Takes its place from the object, if it has one.
fn take_place(objects: &mut IndexMap<ObjRef, Option<usize>>, object: &ObjRef)
    ensures entries { objects.new.entries ≡ set_value (same_key object.now) objects.old.entries None }
    ensures room { spare objects.new ≡ spare objects.old }
{
    if let Some(last) = objects.get_mut(object) {
        *last = None;
    }
}

/// Lets the objects of the application alone have a place any more.
pub(crate) fn keep_places(objects: &mut IndexMap<ObjRef, Option<usize>>, application: &GroupName)
    ensures entries { objects.new.entries ≡ map (spec.kept_place application.now) objects.old.entries }
    ensures room { spare objects.old ≤ spare objects.new }
{
    objects.retain(|object, last| keep_place(object, last, application));
}

/// Takes its place from an object that is not of the application.
fn keep_place(object: &ObjRef, last: &mut Option<usize>, application: &GroupName) -> bool
    ensures all { result ≡ true }
    ensures last { last.new ≡ (if bytes_eq object.now.group application.now then last.old else None) }
{
    if object.group != *application {
        *last = None;
    }
    true
}

/// Begins with the places of the file of this name anew: nobody waits for it at one before this.
pub(crate) fn start_anew(names: &mut IndexMap<GroupName, Chain>, name: &GroupName, from: usize)
    ensures entries { names.new.entries
        ≡ set_value (bytes_eq name.now) names.old.entries (record { newest = None; from = from }) }
    ensures room { spare names.new ≡ spare names.old }
{
    if let Some(chain) = names.get_mut(name) {
        *chain = Chain { newest: None, from };
    }
}

/// Gives the object this place, where there is room, and answers where it stands.
pub(crate) fn put_object(
    objects: &mut IndexMap<ObjRef, Option<usize>>,
    object: ObjRef,
    place: usize,
) -> usize
    requires { 1 ≤ spare objects.old }
    ensures entries { objects.new.entries ≡ insert_entry same_key objects.old.entries object (Some place) }
    ensures stands { result ≡ position_or_len (same_key object) (keys_of objects.old.entries) }
{
    match objects.insert_full(object, Some(place)) {
        Ok((stands, _)) => stands,
        Err(_) => unreachable!(),
    }
}

/// Gives the file this place as its last one, where there is room, and answers where its name stands
/// and which place was the last before.
pub(crate) fn put_name(
    names: &mut IndexMap<GroupName, Chain>,
    name: GroupName,
    place: usize,
) -> (usize, Option<usize>)
    requires { 1 ≤ spare names.old }
    ensures entries { names.new.entries ≡ insert_entry bytes_eq names.old.entries name
        (spec.chain_with place (lookup (bytes_eq name) names.old.entries)) }
    ensures stands { result.0 ≡ position_or_len (bytes_eq name) (keys_of names.old.entries) }
    ensures older { result.1 ≡ spec.newest_of (lookup (bytes_eq name) names.old.entries) }
{
    let (older, chain) = chain_with(names, &name, place);
    match names.insert_full(name, chain) {
        Ok((stands, _)) => (stands, older),
        Err(_) => unreachable!(),
    }
}

/// The last place of the file so far, and its places with this as the last.
fn chain_with(
    names: &IndexMap<GroupName, Chain>,
    name: &GroupName,
    place: usize,
) -> (Option<usize>, Chain)
    ensures older { result.0 ≡ spec.newest_of (lookup (bytes_eq name.now) names.now.entries) }
    ensures chain { result.1 ≡ spec.chain_with place (lookup (bytes_eq name.now) names.now.entries) }
{
    let newest = Some(place);
    match names.get(name) {
        None => (
            None,
            Chain {
                newest,
                from: place,
            },
        ),
        Some(chain) => (
            chain.newest,
            Chain {
                newest,
                from: chain.from,
            },
        ),
    }
}
