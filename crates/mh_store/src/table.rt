//! Where an object stands in the table of its group.
ghost use Rattle.std.specs.Prelude.{◌≡◌, nat_eq};
ghost use Rattle.std.specs.Map.{lookup};
ghost use Rattle.std.specs.Option.{option_copied};
ghost use Rattle.mh_store.specs.Table.{IsPlace};

use crate::Boxed;
use indexmap::IndexMap;

/// Where the object under this number stands, if the objects behind the group itself are numbered one by one
/// from that of the first of them on, as a file mostly does. It is a guess: who asks looks whether it is right.
fn likely_place(table: &IndexMap<u32, Boxed>, at: u32) -> usize {
    match table.get_index(1) {
        Some((first, _)) if *first <= at => (at - *first) as usize + 1,
        _ => 0,
    }
}

/// The object under this number. Where it stands at its likely place nothing is hashed.
pub(crate) fn find(table: &IndexMap<u32, Boxed>, at: u32) -> Option<&Boxed>
    ensures { option_copied result ≡ lookup (nat_eq at) table.now.entries }
{
    match table.get_index(likely_place(table, at)) {
        Some((own, kept)) if *own == at => Some(kept),
        _ => find_by_hash(table, at),
    }
}

/// The same by the table alone. It stands aside, so that the way that is mostly gone needs few registers.
#[inline(never)]
fn find_by_hash(table: &IndexMap<u32, Boxed>, at: u32) -> Option<&Boxed>
    ensures { option_copied result ≡ lookup (nat_eq at) table.now.entries }
{
    table.get(&at)
}

/// Where the object under this number stands, looked for as above; behind all where there is none.
pub(crate) fn place_of(table: &IndexMap<u32, Boxed>, at: u32) -> usize
    ensures { IsPlace at table.now.entries result }
{
    let _ = table.len();
    let likely = likely_place(table, at);
    match table.get_index(likely) {
        Some((own, _)) if *own == at => likely,
        _ => place_by_hash(table, at),
    }
}

/// The same by the table alone.
#[inline(never)]
fn place_by_hash(table: &IndexMap<u32, Boxed>, at: u32) -> usize
    ensures { IsPlace at table.now.entries result }
{
    let behind = table.len();
    table.get_index_of(&at).unwrap_or(behind)
}
