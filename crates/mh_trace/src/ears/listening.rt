//! `Listening`: the links among the objects that are present, by the number of the object for whose events each waits.
//!
//! Promise: the places that are answered for a number are those of all links that wait for what has it, in their order.
ghost use Rattle.std.specs.Prelude.{◌≡◌, ◌++◌, ◌∷◌, [], nat_eq, if◌then◌else◌, IfOk, OnOk, Some};
ghost use Rattle.std.specs.Map.{lookup};
ghost use Rattle.std.specs.Option.{option_copied, option_map_or};
ghost use Rattle.mh_model.specs.Service.{parts};
ghost use Rattle.mh_model.specs.State.{all};
ghost use Rattle.mh_trace.specs.Listening as spec;

use indexmap::IndexMap;
use mh_base::{Seq, Value};
use mh_group::{Attribute, Class};
use mh_model::held::as_value;
use mh_model::{Fixed, Object};
use mh_store::Objects;
use std::alloc::{AllocError, Global};

/// The places of links, by the numbers of what they wait for. `IsIndexOf` says of which parts they are the index.
pub type Listening = IndexMap<u32, Seq<usize>>;

/// The links among these objects.
pub fn listening_of(alloc: Global, objects: &Objects) -> Result<Listening, AllocError>
    ensures { IfOk result (λ index. spec.IsIndexOf index.entries (parts (all objects.now))) }
{
    let mut index = IndexMap::new(alloc);
    for place in 0..objects.len() {
        add_at(alloc, &mut index, place, objects.at(place))?;
    }
    Ok(index)
}

/// The places of the links that wait for what has this number.
pub fn places(index: &Listening, number: u32) -> &[usize]
    ensures { result.now ≡ spec.listed number index.now.entries }
{
    match index.get(&number) {
        Some(places) => places.as_slice(),
        None => &[],
    }
}

fn add_at(
    alloc: Global,
    index: &mut Listening,
    place: usize,
    found: Option<&Object>,
) -> Result<(), AllocError>
    ensures { OnOk result
        ((n : _) →
        spec.listed n index.new.entries
        ≡ spec.listed n index.old.entries ++ option_map_or (λ o. spec.place_if (spec.heard_number o.fixed) n place) (option_copied found.entry) []) }
{
    match found {
        Some(object) => add(alloc, index, place, heard_number(object.fixed.get())),
        None => Ok(()),
    }
}

fn add(
    alloc: Global,
    index: &mut Listening,
    place: usize,
    number: Option<u32>,
) -> Result<(), AllocError>
    ensures { OnOk result
        ((n : _) → spec.listed n index.new.entries ≡ spec.listed n index.old.entries ++ spec.place_if number n place) }
{
    match number {
        Some(number) => list(alloc, index, number, place),
        None => Ok(()),
    }
}

/// Puts a place to those of this number.
fn list(alloc: Global, index: &mut Listening, number: u32, place: usize) -> Result<(), AllocError>
    ensures { OnOk result
        ((n : _) →
        spec.listed n index.new.entries
        ≡ spec.listed n index.old.entries ++ (if nat_eq number n then place ∷ [] else [])) }
{
    match index.get_mut(&number) {
        Some(places) => {
            places.push(place)?;
            Ok(())
        }
        None => start(alloc, index, number, place),
    }
}

/// Puts the first place of a number.
fn start(alloc: Global, index: &mut Listening, number: u32, place: usize) -> Result<(), AllocError>
    ensures { OnOk result
        ((n : _) →
        lookup (nat_eq n) index.new.entries
        ≡ (if nat_eq number n then Some (place ∷ []) else lookup (nat_eq n) index.old.entries)) }
{
    let mut places = Seq::new(alloc);
    places.push(place)?;
    index.insert(number, places)?;
    Ok(())
}

/// The number of the object for whose events a link waits.
fn heard_number(part: &Fixed) -> Option<u32>
    ensures { result ≡ spec.heard_number part.now }
{
    if !matches!(part.class, Class::Link) {
        return None;
    }
    match as_value(part.properties.get(Attribute::EventSource)) {
        Some(Value::Object(at)) => Some(at.number),
        _ => None,
    }
}
