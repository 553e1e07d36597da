//! A text that is brought to several objects at once: all that wants memory is made first, and then
//! put in place.
ghost use Rattle.std.specs.Prelude.{◌≡◌, ◌++◌, OnOk};
ghost use Rattle.std.specs.Option.{option_copied};
ghost use Rattle.indexmap.specs.IndexMap.{set_value_at};
ghost use Rattle.mh_store.specs.Bringing.{found_ready, entries_put};

use crate::Boxed;
use crate::ready::Ready;
use indexmap::IndexMap;
use mh_base::Octets;
use std::alloc::{AllocError, Global};

/// Adds the object with the text, and its place, if there is one.
pub(crate) fn add_ready(
    alloc: Global,
    ready: &mut Vec<Ready>,
    place: usize,
    found: Option<&Boxed>,
    text: &Octets,
) -> Result<(), AllocError>
    ensures { OnOk result (ready.new.items
        ≡ ready.old.items ++ found_ready place text.now (option_copied found.entry)) }
{
    if let Some(kept) = found {
        let kept = kept.with_text(alloc, text)?;
        ready.push(Ready { place, kept })?;
    }
    Ok(())
}

/// Puts these at their places, one after another. It takes no memory.
pub(crate) fn put_all(table: &mut IndexMap<u32, Boxed>, ready: Vec<Ready>)
    ensures { table.new.entries ≡ entries_put ready.items table.old.entries }
{
    for one in ready {
        put_one(table, one);
    }
}

fn put_one(table: &mut IndexMap<u32, Boxed>, one: Ready)
    ensures { table.new.entries ≡ set_value_at table.old.entries one.place one.kept }
{
    let Ready { place, kept } = one;
    if let Some(there) = table.get_index_mut(place) {
        put_boxed(there, kept);
    }
}

pub(crate) fn put_boxed(place: &mut Boxed, kept: Boxed)
    ensures { place.new ≡ kept }
{
    *place = kept;
}
