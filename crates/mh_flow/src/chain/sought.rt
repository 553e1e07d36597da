//! The references whose ways are sought.
//!
//! Promise: a set has what it is made of, and each test says whether one of these is among it.
ghost use Rattle.std.specs.Prelude.{◌≡◌, ◌∷◌, [], false, IfOk};
ghost use Rattle.std.specs.List.{list_any};
ghost use Rattle.std.specs.Option.{option_map_or};
ghost use Rattle.mh_flow.specs.Chart.{firsts, with_references};
ghost use Rattle.mh_flow.specs.Chart as spec;
ghost use Rattle.mh_flow.specs.Steps.{is_one_of};

use crate::references::{first_items, first_value, put};
use indexmap::IndexSet;
use mh_base::ObjRef;
use mh_model::{Fixed, Member};
use std::alloc::{AllocError, Global};

/// This reference alone.
pub(crate) fn alone(alloc: Global, at: &ObjRef) -> Result<IndexSet<ObjRef>, AllocError>
    ensures { IfOk result (λ sought. sought.keys ≡ at.now ∷ []) }
{
    let mut sought = IndexSet::new(alloc);
    put(&mut sought, at)?;
    Ok(sought)
}

/// These references, each once.
pub(crate) fn each_once(
    alloc: Global,
    references: &[ObjRef],
) -> Result<IndexSet<ObjRef>, AllocError>
    ensures { IfOk result (λ sought. sought.keys ≡ with_references [] references.now) }
{
    let mut sought = IndexSet::new(alloc);
    for at in references {
        put(&mut sought, at)?;
    }
    Ok(sought)
}

/// Whether the reference is sought.
#[tactic(auto, using(crate::proofs::ChartLemmas::any_key))]
pub(crate) fn is_sought(sought: &IndexSet<ObjRef>, at: &ObjRef) -> bool
    ensures { result ≡ is_one_of sought.now.keys at.now }
{
    sought.contains(at)
}

/// Whether one of these references is sought.
pub(crate) fn is_any(sought: &IndexSet<ObjRef>, references: &[ObjRef]) -> bool
    ensures { result ≡ list_any (is_one_of sought.now.keys) references.now }
{
    for reference in references {
        if is_sought(sought, reference) {
            return true;
        }
    }
    false
}

/// Whether the reference of one of the members is sought.
fn is_member(sought: &IndexSet<ObjRef>, members: &[Member]) -> bool
    ensures { result ≡ list_any (λ m. is_one_of sought.now.keys m.object) members.now }
{
    for member in members {
        if is_sought(sought, &member.object) {
            return true;
        }
    }
    false
}

/// Whether what the variable has at first is sought.
fn is_value(sought: &IndexSet<ObjRef>, part: &Fixed) -> bool
    ensures { result ≡ option_map_or (is_one_of sought.now.keys) (spec.first_value part.now) false }
{
    match first_value(part) {
        None => false,
        Some(value) => is_sought(sought, value),
    }
}

/// Whether something is sought of what the object has at first.
pub(crate) fn is_first(sought: &IndexSet<ObjRef>, part: &Fixed) -> bool
    ensures { result ≡ list_any (is_one_of sought.now.keys) (firsts part.now) }
{
    is_value(sought, part) || is_member(sought, first_items(part))
}
