//! Visibles that are placed: all that wants memory is made first, each from the object as it is, and
//! then put where the object with its reference is. Where one is named twice the later place stands,
//! since a place is put over a place.
ghost use Rattle.std.specs.Prelude.{◌≡◌, ◌++◌, IfOk, OnOk};
ghost use Rattle.std.specs.Option.{option_copied};
ghost use Rattle.mh_store.specs.Placing.{found_placed, ready_placed, all_renewed};

use crate::{Boxed, Objects};
use mh_base::ObjRef;
use mh_group::Position;
use std::alloc::{AllocError, Global};

/// The objects that are placed, as they will be.
pub(crate) fn ready_placed(
    alloc: Global,
    objects: &Objects,
    placed: &[(ObjRef, Position)],
) -> Result<Vec<Boxed>, AllocError>
    ensures { IfOk result (λ ready. ready.items ≡ ready_placed placed.now objects.now) }
{
    let mut ready = Vec::new(alloc);
    for one in placed {
        add_placed(alloc, &mut ready, objects.boxed(&one.0), one.1)?;
    }
    Ok(ready)
}

/// Adds the object, placed here, if there is one and it is a visible.
fn add_placed(
    alloc: Global,
    ready: &mut Vec<Boxed>,
    found: Option<&Boxed>,
    position: Position,
) -> Result<(), AllocError>
    ensures { OnOk result (ready.new.items
        ≡ ready.old.items ++ found_placed position (option_copied found.entry)) }
{
    let Some(kept) = found else {
        return Ok(());
    };
    if kept.is_visible() {
        let placed = kept.placed(alloc, position)?;
        ready.push(placed)?;
    }
    Ok(())
}

/// Puts these where those with their references are, one after another. It takes no memory.
pub(crate) fn renew_all(objects: &mut Objects, ready: Vec<Boxed>)
    ensures { objects.new ≡ all_renewed ready.items objects.old }
{
    for kept in ready {
        objects.renew(kept);
    }
}
