//! Who listens to what: for each source and each type of events the links that wait for them, and the data that
//! they name.
//!
//! Promise: of each group exactly the links that wait for such an event are found, in their order, by their data; and
//! the data that is named is each once in one list, which leaves none out.

pub(crate) mod listener_slot;
pub(crate) mod lists;
pub(crate) mod named_data;

ghost use Rattle.std.specs.Prelude.{◌≡◌, ◌∷◌, [], ◌&&◌, IfOk, OnOk, None, Some, filter, length, position, slice_get};
ghost use Rattle.std.specs.List.{flat_map};
ghost use Rattle.std.specs.Option.{option_copied};
ghost use Rattle.indexmap.specs.IndexSet.{insert_all};
ghost use Rattle.mh_model.specs.Reference.{same_key};
ghost use Rattle.mh_model.specs.Service.{group_parts};
ghost use Rattle.mh_model.specs.Variables.{same_value};
ghost use Rattle.mh_layers.specs.Grouped.{has, is_plain};
ghost use Rattle.mh_layers.specs.CostNodes as cost_nodes;
ghost use Rattle.mh_layers.specs.Listening as spec;
ghost use Rattle.mh_layers.specs.Listening.{AllAreHeard, HeardIsNamed, IsListening, ObjectsAreNumbered, SumsOverLinks, ValuesAreNumbered, heard, listed, mentioned};

use crate::listening::listener_slot::ListenerSlot;
use crate::listening::lists::{Lists, lists_of, place_with};
use crate::listening::named_data::{Ears, ear_with, ears_of, source_of};
use crate::numbered::values::Values;
use indexmap::{IndexMap, IndexSet};
use mh_base::{EventType, GroupName, ObjRef, Seq};
use mh_flow::Equipped;
use mh_model::{Fixed, FixedPart};
use std::alloc::{AllocError, Global};
use std::marker::Model;

/// The groups of a service, each with what its file says of its objects.
pub(crate) type Groups = IndexMap<GroupName, Seq<FixedPart>>;

impl Model for Listeners {
    ghost use Rattle.mh_layers.specs.Listening.{Listeners as ListenersValue};

    ghost Value = { ListenersValue };

    ghost view = { λ l. record {
      objects = l.objects.keys;
      ears = l.ears.entries;
      lists = l.lists.entries;
    } };
}

/// Who listens to what in a service.
#[derive(Drop)]
pub(crate) struct Listeners {
    /// All objects, and all sources that links name.
    objects: IndexSet<ObjRef>,
    ears: Ears,
    lists: Lists,
}

impl Listeners {
    /// The listeners of the service.
    pub fn of(alloc: Global, service: &Equipped<'_>) -> Result<Listeners, AllocError>
        ensures { IfOk result (λ listeners. IsListening service.now listeners) }
    {
        let groups = service.groups();
        let objects = objects_of(alloc, groups)?;
        let ears = ears_of(alloc, &objects, groups)?;
        let lists = lists_of(alloc, &objects, &ears, groups)?;
        Ok(Listeners {
            objects,
            ears,
            lists,
        })
    }

    /// The number of the object, if it is one of the service or a source.
    pub fn number_of(&self, at: &ObjRef) -> Option<usize>
        ensures { result ≡ position (same_key at.now) self.now.objects }
    {
        self.objects.get_index_of(at)
    }

    /// The object with this number.
    pub fn at(&self, number: usize) -> Option<&ObjRef>
        ensures { option_copied result ≡ slice_get self.now.objects number }
    {
        self.objects.get_index(number)
    }

    /// All that have a number, in its order.
    pub fn objects(&self) -> &[ObjRef]
        ensures { result.now ≡ self.now.objects }
    {
        self.objects.as_slice()
    }

    /// How many have a number.
    pub fn len(&self) -> usize
        ensures { result ≡ length self.now.objects }
    {
        self.objects.len()
    }

    /// The data that links name which wait for such an event; nothing where none waits.
    pub fn values(&self, source: &ObjRef, kind: EventType) -> Option<&Values>
        ensures { option_copied result ≡ heard self.now source.now kind }
    {
        match ear_with(&self.objects, source, kind) {
            None => None,
            Some(ear) => self.ears.get(&ear),
        }
    }

    /// The links of the group that wait for such an event and have no data, in their order.
    pub fn plain_links(
        &self,
        service: &Equipped<'_>,
        group: &GroupName,
        source: &ObjRef,
        kind: EventType,
    ) -> &[FixedPart]
        requires { IsListening service.now self.now }
        ensures { let ps = group_parts service.now group.now in
            result.now ≡ filter (λ p. cost_nodes.waits_for source.now kind p && is_plain (cost_nodes.data_of p)) ps }
    {
        let group = service.groups().get_index_of(group);
        self.links_at(group, source, kind, None)
    }

    /// The links of the group that wait for such an event and have the value with this number, in their order.
    pub fn links_with(
        &self,
        service: &Equipped<'_>,
        group: &GroupName,
        source: &ObjRef,
        kind: EventType,
        value: usize,
    ) -> &[FixedPart]
        requires { IsListening service.now self.now }
        ensures named { let ps = group_parts service.now group.now in
            (x : _) → slice_get (cost_nodes.values (heard self.now source.now kind)) value ≡ Some x
            → result.now ≡ filter (λ p. cost_nodes.waits_for source.now kind p && has same_value x (cost_nodes.data_of p)) ps }
        ensures unnamed { slice_get (cost_nodes.values (heard self.now source.now kind)) value ≡ None → result.now ≡ [] }
    {
        let group = service.groups().get_index_of(group);
        self.links_at(group, source, kind, Some(value))
    }

    /// The links of the group with this number that wait for such an event, and have no data, or the value with this
    /// number.
    fn links_at(
        &self,
        group: Option<usize>,
        source: &ObjRef,
        kind: EventType,
        value: Option<usize>,
    ) -> &[FixedPart]
        ensures { result.now ≡ spec.links_at self.now group source.now kind value }
    {
        match place_with(&self.objects, group, source, kind, value) {
            None => &[],
            Some(place) => self.list(&place),
        }
    }

    fn list(&self, place: &ListenerSlot) -> &[FixedPart]
        ensures { result.now ≡ listed place.now self.now.lists }
    {
        match self.lists.get(place) {
            None => &[],
            Some(parts) => parts.as_slice(),
        }
    }
}

// The objects

fn put(objects: &mut IndexSet<ObjRef>, at: &ObjRef) -> Result<(), AllocError>
    ensures { OnOk result (objects.new.keys ≡ insert_all same_key objects.old.keys (at.now ∷ [])) }
{
    objects.insert(at.clone()?)?;
    Ok(())
}

/// Puts an object and the source that it names among these.
fn put_part(objects: &mut IndexSet<ObjRef>, part: &Fixed) -> Result<(), AllocError>
    ensures { OnOk result (objects.new.keys ≡ insert_all same_key objects.old.keys (mentioned part.now)) }
{
    put(objects, &part.key)?;
    if let Some(source) = source_of(part) {
        put(objects, source)?;
    }
    Ok(())
}

/// The same for the objects of a group.
#[tactic(auto, using(crate::proofs::ListeningLemmas::more_put))]
fn put_parts(objects: &mut IndexSet<ObjRef>, parts: &[FixedPart]) -> Result<(), AllocError>
    ensures { let all = flat_map mentioned parts.now in
        OnOk result (objects.new.keys ≡ insert_all same_key objects.old.keys all) }
{
    for part in parts {
        put_part(objects, part.get())?;
    }
    Ok(())
}

/// All objects of the groups, and all sources that links name.
fn objects_of(alloc: Global, groups: &Groups) -> Result<IndexSet<ObjRef>, AllocError>
    ensures { IfOk result (λ objects. objects.keys ≡ spec.objects_of (flat_map (λ e. e.1) groups.now.entries)) }
{
    let mut objects = IndexSet::new(alloc);
    for parts in groups.values() {
        put_parts(&mut objects, parts.as_slice())?;
    }
    Ok(objects)
}

/// What is heard is what links name that wait, so that none is left out, whatever flow; objects and values are told by
/// their numbers; and the sum over the links that wait is that over all that is present.
pub fn listeners_are_exact()
    ensures heard { HeardIsNamed }
    ensures all { AllAreHeard }
    ensures objects { ObjectsAreNumbered }
    ensures values { ValuesAreNumbered }
    ensures sums { SumsOverLinks }
{}
