//! Where an object is likely to stand in its group.
//!
//! Promise: the place is that of the object to which the reference leads; the index is asked only where the object does not
//! stand where its number tells.
ghost use Rattle.std.specs.Prelude.{◌≡◌, nat_lt};
ghost use Rattle.mh_flow.specs.Chart.{place_in};
ghost use Rattle.mh_flow.specs.Index.{indexed};
ghost use Rattle.mh_flow.specs.Likely.{has_number};
ghost use Rattle.mh_model.specs.Service.{group_parts};

use crate::equipped::Equipped;
use crate::index::{Index, home_of};
use mh_base::ObjRef;
use mh_model::FixedPart;

/// Whether the object at this place has the number.
fn has_number(parts: &[FixedPart], place: usize, number: u32) -> bool
    ensures { result ≡ has_number parts.now place number }
{
    match parts.get(place) {
        None => false,
        Some(part) => part.get().key.number == number,
    }
}

fn is_before(part: &FixedPart, number: u32) -> bool
    ensures { result ≡ nat_lt part.now.key.number number }
{
    part.get().key.number < number
}

/// The place of the object with this number, where these stand in the order of their numbers. It is advice: who asks
/// looks whether the object stands there.
fn likely_place(parts: &[FixedPart], number: u32) -> usize {
    // Where no number is left out, an object's number is its place.
    let same = number as usize;
    if has_number(parts, same, number) {
        return same;
    }
    parts.partition_point(|part| is_before(part, number))
}

/// How many objects of its group stand before the one to which the reference leads: by its likely place, or else by the
/// index.
pub(crate) fn place_among(
    service: &Equipped<'_>,
    index: &Index,
    parts: &[FixedPart],
    at: &ObjRef,
) -> Option<usize>
    requires index { index.now.entries ≡ indexed service.now }
    requires parts { parts.now ≡ group_parts service.now at.now.group }
    ensures { result ≡ place_in parts.now at.now }
{
    // that no two of them have one key is known where there are groups
    let _ = service.groups();
    let likely = likely_place(parts, at.number);
    if has_number(parts, likely, at.number) {
        return Some(likely);
    }
    match home_of(index, at) {
        None => None,
        Some(home) => Some(home.place),
    }
}
