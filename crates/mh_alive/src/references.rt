//! References, each once, in a set that finds them by hash.
//!
//! Promise: what is put in is put behind the others, unless it is there.
ghost use Rattle.std.specs.Prelude.{◌≡◌, ◌∷◌, [], OnOk, map};
ghost use Rattle.indexmap.specs.IndexSet.{insert_all};
ghost use Rattle.mh_model.specs.Reference.{same_key};

use indexmap::IndexSet;
use mh_base::ObjRef;
use mh_model::Member;
use std::alloc::AllocError;

/// Puts the reference in, unless it is there.
pub(crate) fn put(references: &mut IndexSet<ObjRef>, at: &ObjRef) -> Result<(), AllocError>
    ensures { OnOk result (references.new.keys ≡ insert_all same_key references.old.keys (at.now ∷ [])) }
{
    references.insert(at.clone()?)?;
    Ok(())
}

/// Puts each of these in.
pub(crate) fn put_all(references: &mut IndexSet<ObjRef>, all: &[ObjRef]) -> Result<(), AllocError>
    ensures { OnOk result (references.new.keys ≡ insert_all same_key references.old.keys all.now) }
{
    for at in all {
        put(references, at)?;
    }
    Ok(())
}

/// Puts in what these members are.
pub(crate) fn put_members(
    references: &mut IndexSet<ObjRef>,
    members: &[Member],
) -> Result<(), AllocError>
    ensures { OnOk result (references.new.keys
        ≡ insert_all same_key references.old.keys (map (λ m. m.object) members.now)) }
{
    for member in members {
        put(references, &member.object)?;
    }
    Ok(())
}
