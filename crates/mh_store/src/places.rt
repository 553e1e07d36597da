//! The places of several objects of a group.
ghost use Rattle.std.specs.Prelude.{◌≡◌, ◌<◌, ◌^◌, ◌++◌, ℕ, OnOk, nat_eq};
ghost use Rattle.std.specs.List.{list_any};
ghost use Rattle.std.specs.List.Sorted.{IsStrictlySortedBy};
ghost use Rattle.std.specs.Ordering.{nat_cmp};
ghost use Rattle.mh_store.specs.Places.{places_under};

use crate::Boxed;
use crate::table::place_of;
use indexmap::IndexMap;
use std::alloc::AllocError;

/// Adds the place of the object under this number, if there is one. The first object stands at `first`.
pub(crate) fn push_place(
    places: &mut Vec<usize>,
    first: usize,
    table: &IndexMap<u32, Boxed>,
    at: u32,
) -> Result<(), AllocError>
    requires { first < 2 ^ 63 }
    ensures { OnOk result (places.new.items ≡ places.old.items ++ places_under first at table.now.entries) }
{
    let place = place_of(table, at);
    if place < table.len() {
        places.push(first + place)?;
    }
    Ok(())
}

/// Brings places into rising order, each once. It takes no memory.
pub(crate) fn rise(places: &mut Vec<usize>)
    ensures rising { IsStrictlySortedBy nat_cmp places.new.items }
    ensures same { (n : ℕ) → list_any (nat_eq n) places.new.items ≡ list_any (nat_eq n) places.old.items }
{
    places.sort_unstable();
    places.dedup();
}
