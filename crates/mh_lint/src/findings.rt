//! What is found of a service.
//!
//! Promise: each function answers what the definition of the same matter in `specs/Findings` says.
ghost use Rattle.std.specs.Prelude.{◌≡◌, ◌++◌, ◌∷◌, [], IfOk, OnOk};
ghost use Rattle.std.specs.List.{flat_map};
ghost use Rattle.mh_lint.specs.Findings as spec;
ghost use Rattle.mh_lint.specs.Laws.{FindingsNeverHappen};

use crate::finding::Finding;
use crate::parts::{is_unreached, push_part};
use mh_alive::Alive;
use mh_flow::Equipped;
use mh_model::{Config, Fixed, FixedPart};
use std::alloc::{AllocError, Global};

/// What is found of these objects.
fn push_parts(
    found: &mut Vec<Finding>,
    all: bool,
    alive: &Alive,
    configs: &[Config],
    parts: &[FixedPart],
) -> Result<(), AllocError>
    ensures { OnOk result (found.new.items
        ≡ found.old.items ++ flat_map (spec.found_of all alive.now configs.now) parts.now) }
{
    for part in parts {
        push_part(found, all, alive, configs, part.get())?;
    }
    Ok(())
}

/// What follows from that nothing leads to the group of these objects.
fn push_beyond(
    found: &mut Vec<Finding>,
    all: bool,
    alive: &Alive,
    configs: &[Config],
    parts: &[FixedPart],
) -> Result<(), AllocError>
    ensures { OnOk result (found.new.items ≡ found.old.items ++ spec.beyond all alive.now configs.now parts.now) }
{
    if all {
        return push_parts(found, true, alive, configs, parts);
    }
    Ok(())
}

/// What is found of a group, whose first object is the group itself.
fn push_group(
    found: &mut Vec<Finding>,
    all: bool,
    alive: &Alive,
    configs: &[Config],
    parts: &[FixedPart],
) -> Result<(), AllocError>
    ensures { OnOk result (found.new.items
        ≡ found.old.items ++ spec.of_group all alive.now configs.now parts.now) }
{
    let Some((first, _)) = parts.split_first() else {
        return Ok(());
    };
    if is_unreached(configs, &first.get().key.group) {
        push_unreached(found, first.get())?;
        return push_beyond(found, all, alive, configs, parts);
    }
    push_parts(found, all, alive, configs, parts)
}

fn push_unreached(found: &mut Vec<Finding>, group: &Fixed) -> Result<(), AllocError>
    ensures { OnOk result (found.new.items ≡ found.old.items ++ Finding.Unreached group.now.key ∷ []) }
{
    found.push(Finding::Unreached(group.key.clone()?))?;
    Ok(())
}

/// What is found of the service, where these configurations are reached: in the order of the groups and of their objects;
/// the roots, or all.
pub fn findings_of(
    alloc: Global,
    service: &Equipped<'_>,
    configs: &[Config],
    alive: &Alive,
    all: bool,
) -> Result<Vec<Finding>, AllocError>
    ensures { IfOk result (λ found. found.items ≡ spec.findings all service.now configs.now alive.now) }
{
    let mut found = Vec::new(alloc);
    for parts in service.groups().values() {
        push_group(&mut found, all, alive, configs, parts.as_slice())?;
    }
    Ok(found)
}

/// The law that what is found of an accepted service, by its flow and the sets that are made of it, happens in no run of it.
pub fn findings_never_happen()
    ensures { FindingsNeverHappen }
{}
