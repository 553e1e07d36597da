//! The objects of a service under their references, so that none is searched for.
//!
//! Promise: what is found under a reference is what the files say of the object to which it leads, and how
//! many objects stand before it in its group.

pub(crate) mod likely;

ghost use Rattle.std.specs.Prelude.{◌≡◌, ◌++◌, ◌∷◌, [], IfOk, OnOk, false};
ghost use Rattle.std.specs.Map.{lookup};
ghost use Rattle.std.specs.Option.{option_copied, is_some};
ghost use Rattle.mh_model.specs.Reference.{same_ref};
ghost use Rattle.mh_laws.specs.Flow.{is_holder};
ghost use Rattle.mh_flow.specs.Index.{
  held_index,
  holders,
  indexed,
  with_home,
  with_homes,
  with_groups,
};

use crate::equipped::Equipped;
use crate::present::is_holder;
use indexmap::IndexMap;
use mh_base::ObjRef;
use mh_model::FixedPart;
use std::alloc::{AllocError, Global};
use std::marker::Model;

/// Where an object stands: what the files say of it, and how many stand before it in its group.
#[derive(Drop)]
pub(crate) struct Home {
    pub part: FixedPart,
    pub place: usize,
}

impl Model for Home {
    ghost use Rattle.mh_flow.specs.Index.{Home as HomeValue};

    ghost Value = { HomeValue };

    ghost view = { λ h. record { part = h.part; place = h.place } };
}

/// The objects of a service under their references.
pub(crate) type Index = IndexMap<ObjRef, Home>;

/// The home of the object to which the reference leads, if there is one.
pub(crate) fn home_of<'a>(index: &'a Index, at: &ObjRef) -> Option<&'a Home>
    ensures { option_copied result ≡ lookup (same_ref at.now) index.now.entries }
{
    index.get(at)
}

fn has(index: &Index, at: &ObjRef) -> bool
    ensures { result ≡ is_some (lookup (same_ref at.now) index.now.entries) }
{
    home_of(index, at).is_some()
}

/// Puts an object under its reference, where there is none yet.
fn add(index: &mut Index, place: usize, part: &FixedPart) -> Result<(), AllocError>
    requires { is_some (lookup (same_ref part.now.key) index.old.entries) ≡ false }
    ensures { OnOk result (index.new.entries
        ≡ index.old.entries ++ (part.now.key, record { part = part.now; place = place }) ∷ []) }
{
    let key = part.get().key.clone()?;
    let part = part.clone()?;
    index.insert(key, Home { part, place })?;
    Ok(())
}

/// Puts an object under its reference, unless there is one already.
fn put(index: &mut Index, place: usize, part: &FixedPart) -> Result<(), AllocError>
    ensures { OnOk result (index.new.entries ≡ with_home index.old.entries place part.now) }
{
    if !has(index, &part.get().key) {
        add(index, place, part)?;
    }
    Ok(())
}

/// Puts the objects of a group under their references.
fn put_group(index: &mut Index, parts: &[FixedPart]) -> Result<(), AllocError>
    ensures { OnOk result (index.new.entries ≡ with_homes index.old.entries 0 parts.now) }
{
    for place in 0..parts.len() {
        put(index, place, &parts[place])?;
    }
    Ok(())
}

/// The objects of the service under their references.
pub(crate) fn index_of(alloc: Global, service: &Equipped<'_>) -> Result<Index, AllocError>
    ensures { IfOk result (λ index. index.entries ≡ indexed service.now) }
{
    let mut index = IndexMap::new(alloc);
    for parts in service.groups().values() {
        put_group(&mut index, parts.as_slice())?;
    }
    Ok(index)
}

/// Puts the variables of references and the lists of a group under their references.
fn put_holders(index: &mut Index, parts: &[FixedPart]) -> Result<(), AllocError>
    ensures { OnOk result (index.new.entries ≡ with_homes index.old.entries 0 (holders parts.now)) }
{
    let mut count = 0;
    for place in 0..parts.len() {
        if is_holder(parts[place].get().class) {
            put(index, count, &parts[place])?;
            count += 1;
        }
    }
    Ok(())
}

/// The variables of references and the lists of the service under their references, each with how many of them stand
/// before it in its group.
pub(crate) fn holders_of(alloc: Global, service: &Equipped<'_>) -> Result<Index, AllocError>
    ensures { IfOk result (λ index. index.entries ≡ held_index service.now) }
{
    let mut index = IndexMap::new(alloc);
    for parts in service.groups().values() {
        put_holders(&mut index, parts.as_slice())?;
    }
    Ok(index)
}
