//! Copies of the items of a list group.
ghost use Rattle.std.specs.Prelude.{◌≡◌, ◌++◌, IfOk, OnOk};

use mh_model::Entry;
use std::alloc::AllocError;

/// Puts copies of the items behind these.
pub(crate) fn push_copies(copies: &mut Vec<Entry>, entries: &[Entry]) -> Result<(), AllocError>
    ensures { OnOk result (copies.new.items ≡ copies.old.items ++ entries.now) }
{
    for entry in entries {
        copies.push(copied(entry)?)?;
    }
    Ok(())
}

fn copied(entry: &Entry) -> Result<Entry, AllocError>
    ensures { IfOk result (λ copy. copy ≡ entry.now) }
{
    entry.clone()
}
