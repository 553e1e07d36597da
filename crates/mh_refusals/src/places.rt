//! A list of what is wrong, in the order of places: one a place, and of that what comes first.
//!
//! Promise: each function answers what the definition of the same matter in `specs/Places` says.
ghost use Rattle.std.specs.Prelude.{◌≡◌, ◌<◌, length, slice_index_or, take, Some, OnOk};
ghost use Rattle.std.specs.List.{position};
ghost use Rattle.std.specs.Option.{option_cmp};
ghost use Rattle.std.specs.Ordering.{nat_cmp};
ghost use Rattle.mh_verify.specs.Kinds.{kind_number};
ghost use Rattle.mh_verify.specs.Order.{by_place as by_place_lem, is_before as is_before_lem};
ghost use Rattle.mh_refusals.specs.Places as spec;

use mh_flow::order::by_config;
use mh_verify::{Found, Place, RefusalKind};
use std::alloc::AllocError;
use std::cmp::Ordering;

pub(crate) fn by_place(first: &Place, second: &Place) -> Ordering
    ensures { result ≡ by_place_lem first.now second.now }
{
    let group = first.group.as_bytes().cmp(&second.group.as_bytes());
    group
        .then(first.object.cmp(&second.object))
        .then(first.index.cmp(&second.index))
}

fn by_kind(first: RefusalKind, second: RefusalKind) -> Ordering
    ensures { result ≡ option_cmp nat_cmp (kind_number first) (kind_number second) }
{
    first.number().cmp(&second.number())
}

/// Whether the verifier names the first before the second.
fn is_before(first: &Found, second: &Found) -> bool
    ensures { result ≡ is_before_lem first.now second.now }
{
    by_place(&first.place, &second.place)
        .then(by_kind(first.kind, second.kind))
        .then(by_config(&first.config, &second.config))
        .is_lt()
}

/// Whether the place of the second is not before that of the first.
fn reaches(found: &Found, other: &Found) -> bool
    ensures { result ≡ spec.reaches found.now other.now }
{
    !by_place(&found.place, &other.place).is_gt()
}

/// Whether what stands there has the same place.
fn is_at_place(list: &[Found], at: usize, found: &Found) -> bool
    requires { at < length list.now }
    ensures { (d : _) → result ≡ spec.is_at_place found.now (slice_index_or list.now at d) }
{
    by_place(&found.place, &list[at].place).is_eq()
}

/// Whether it comes before what stands there.
fn comes_first(list: &[Found], at: usize, found: &Found) -> bool
    requires { at < length list.now }
    ensures { (d : _) → result ≡ is_before_lem found.now (slice_index_or list.now at d) }
{
    is_before(found, &list[at])
}

/// Where the first of these stands whose place is not before that of what is found.
fn place_in(list: &[Found], found: &Found) -> Option<usize>
    ensures { result ≡ position (spec.reaches found.now) list.now }
{
    list.iter().position(|other| reaches(found, other))
}

/// Puts what is found where that is; of two at one place, the one that comes first stays.
fn put_at(list: &mut Vec<Found>, at: usize, found: Found) -> Result<(), AllocError>
    requires { position (spec.reaches found) list.old.items ≡ Some at }
    ensures { OnOk result (list.new.items ≡ spec.with_one found list.old.items) }
{
    if !is_at_place(list.as_slice(), at, &found) {
        list.insert(at, found)?;
        return Ok(());
    }
    if comes_first(list.as_slice(), at, &found) {
        drop(list.remove(at));
        list.insert(at, found)?;
    }
    Ok(())
}

/// Puts one more among these.
fn put_one(list: &mut Vec<Found>, found: Found) -> Result<(), AllocError>
    ensures { OnOk result (list.new.items ≡ spec.with_one found list.old.items) }
{
    match place_in(list.as_slice(), &found) {
        Some(at) => put_at(list, at, found),
        None => {
            list.push(found)?;
            Ok(())
        }
    }
}

/// Puts one more among these, of which the first stay, at most so many.
pub(crate) fn put(list: &mut Vec<Found>, most: usize, found: Found) -> Result<(), AllocError>
    ensures { OnOk result (list.new.items ≡ take most (spec.with_one found list.old.items)) }
{
    put_one(list, found)?;
    list.truncate(most);
    Ok(())
}
