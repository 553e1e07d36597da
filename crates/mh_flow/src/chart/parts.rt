//! The parts of a chart, each made by itself: while one is made, no other stands beside what may want memory.
//!
//! Promise: each is the definition's.
ghost use Rattle.std.specs.Prelude.{◌≡◌, ◌<◌, ◌^◌, [], true, Ok, suc, length, IfOk, OnOk};
ghost use Rattle.std.specs.List.{IsDistinct, list_any};
ghost use Rattle.mh_laws.specs.Least.{are_ascending};
ghost use Rattle.mh_model.specs.Configuration.{configurations, same_config};
ghost use Rattle.mh_model.specs.Reference.{same_ref};
ghost use Rattle.mh_flow.specs.Chart as spec;

use crate::chart::numbering::{first_sets, numbered};
use crate::chart::{Bases, Set};
use crate::equipped::Equipped;
use crate::references::{put_in_order, put_service};
use indexmap::{IndexMap, IndexSet};
use mh_base::ObjRef;
use mh_model::Config;
use std::alloc::{AllocError, Global};

/// The configurations with the numbers of their sets, and the sets.
#[derive(Drop)]
pub(crate) struct Numbers {
    pub configs: IndexMap<Config, Bases>,
    pub sets: Vec<Set>,
}

/// The references that may be held, in their order, and the variables through which an action has its target.
#[derive(Drop)]
pub(crate) struct References {
    pub members: IndexSet<ObjRef>,
    pub targeted: IndexSet<ObjRef>,
}

/// The configurations of the service, numbered, with their sets.
pub(crate) fn numbers_of(alloc: Global, service: &Equipped<'_>) -> Result<Numbers, AllocError>
    ensures configs { IfOk result (λ numbers. numbers.configs.entries
        ≡ spec.based service.now (suc (length (configurations service.now))) (configurations service.now)) }
    ensures sets { IfOk result (λ numbers. numbers.sets.items ≡ spec.all_sets service.now) }
    ensures fits { IfOk result (λ numbers. length numbers.sets.items < 2 ^ 64) }
    ensures once { OnOk result (IsDistinct same_config (configurations service.now)) }
{
    let configs = service.configurations(alloc)?;
    let mut sets = first_sets(alloc, service, configs.as_slice())?;
    let configs = numbered(alloc, service, &mut sets, configs)?;
    Ok(Numbers { configs, sets })
}

/// The references that may be held, and the variables through which an action has its target.
pub(crate) fn references_of(alloc: Global, service: &Equipped<'_>) -> Result<References, AllocError>
    ensures members { (q : _) → IfOk result (λ references. list_any (same_ref q) references.members.keys
        ≡ list_any (same_ref q) (spec.all_held service.now)) }
    ensures targeted { (q : _) → IfOk result (λ references. list_any (same_ref q) references.targeted.keys
        ≡ list_any (same_ref q) (spec.all_targeted service.now)) }
    ensures ascending { IfOk result (λ references. are_ascending references.members.keys ≡ true) }
{
    let mut members = IndexSet::new(alloc);
    let mut targeted = IndexSet::new(alloc);
    put_ordered(alloc, service, &mut members, &mut targeted)?;
    Ok(References { members, targeted })
}

/// Puts the references that may be held, in their order, and the variables through which an action has its target.
fn put_ordered(
    alloc: Global,
    service: &Equipped<'_>,
    members: &mut IndexSet<ObjRef>,
    targeted: &mut IndexSet<ObjRef>,
) -> Result<(), AllocError>
    requires members { members.old.keys ≡ [] }
    requires targeted { targeted.old.keys ≡ [] }
    ensures members { (q : _) → OnOk result (list_any (same_ref q) members.new.keys
        ≡ list_any (same_ref q) (spec.all_held service.now)) }
    ensures targeted { (q : _) → OnOk result (list_any (same_ref q) targeted.new.keys
        ≡ list_any (same_ref q) (spec.all_targeted service.now)) }
    ensures ascending { OnOk result (are_ascending members.new.keys ≡ true) }
{
    put_service(alloc, members, targeted, service)?;
    put_in_order(members)?;
    Ok(())
}

/// All four, where none was refused memory. It is generic in what it holds, so that whoever asks has nothing to drop where
/// one was refused.
pub(crate) fn all_of<A: Drop, B: Drop, C: Drop, D: Drop>(
    first: Result<A, AllocError>,
    second: Result<B, AllocError>,
    third: Result<C, AllocError>,
    fourth: Result<D, AllocError>,
) -> Result<(A, B, C, D), AllocError>
    ensures { IfOk result (λ all. (first ≡ Ok all.0) × (second ≡ Ok all.1) × (third ≡ Ok all.2) × (fourth ≡ Ok all.3)) }
{
    Ok((first?, second?, third?, fourth?))
}
