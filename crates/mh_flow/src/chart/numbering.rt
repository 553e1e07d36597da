//! The sets of a service, configuration by configuration.
//!
//! Promise: no set is made for what is not present.
ghost use Rattle.std.specs.Prelude.{◌≡◌, ◌≤◌, ◌++◌, ◌∷◌, ◌-◌, [], false, length, vec_len, map, IfOk, OnOk};
ghost use Rattle.std.specs.List.{IsDistinct, list_any};
ghost use Rattle.mh_model.specs.Configuration.{present, same_config};
ghost use Rattle.mh_flow.specs.Chart as spec;

use crate::chart::{Bases, Set};
use crate::equipped::Equipped;
use crate::present::{is_holder, place_behind, scene_parts};
use indexmap::IndexMap;
use mh_model::{Config, FixedPart};
use std::alloc::{AllocError, Global};

/// How many of these objects have a set.
fn count_holders(parts: &[FixedPart]) -> usize {
    let mut count: usize = 0;
    for part in parts {
        if is_holder(part.get().class) {
            count = count.saturating_add(1);
        }
    }
    count
}

/// How many sets there will be. It is room alone: what is put there does not depend on it.
fn room_for(service: &Equipped<'_>, configs: &[Config]) -> usize {
    let mut room = configs.len().saturating_add(1);
    for config in configs {
        let application = count_holders(service.parts(&config.app));
        let scene = count_holders(scene_parts(service, &config.scene));
        room = room.saturating_add(application).saturating_add(scene);
    }
    room
}

/// The sets of configurations: those that are reached, and those to which each leads. There is room for all others behind
/// them.
pub(crate) fn first_sets(
    alloc: Global,
    service: &Equipped<'_>,
    configs: &[Config],
) -> Result<Vec<Set>, AllocError>
    ensures { IfOk result (λ sets. sets.items ≡ spec.first_sets configs.now) }
{
    let mut sets = Vec::with_capacity(alloc, room_for(service, configs))?;
    sets.push(Set::Reached)?;
    for number in 0..configs.len() {
        sets.push(Set::Led(number))?;
    }
    Ok(sets)
}

/// Puts the sets of these objects of a configuration behind those that are there; of what is present, these stand
/// before them.
fn push_held(
    sets: &mut Vec<Set>,
    config: usize,
    before: &[FixedPart],
    parts: &[FixedPart],
) -> Result<(), AllocError>
    ensures { OnOk result (sets.new.items ≡ sets.old.items ++ spec.sets_in config (length before.now) parts.now) }
{
    for place in 0..parts.len() {
        if is_holder(parts[place].get().class) {
            sets.push(Set::Held(config, place_behind(before, parts, place)))?;
        }
    }
    Ok(())
}

/// Puts the sets of a configuration behind those that are there, and says where they begin.
fn push_config(
    sets: &mut Vec<Set>,
    service: &Equipped<'_>,
    number: usize,
    config: &Config,
) -> Result<Bases, AllocError>
    ensures sets { OnOk result (sets.new.items
        ≡ sets.old.items ++ spec.sets_in number 0 (present service.now config.now)) }
    ensures bases { let first = length sets.old.items in
        IfOk result (λ bases. bases ≡ spec.bases_of service.now first config.now) }
{
    let application = sets.len();
    let parts = service.parts(&config.app);
    push_held(sets, number, &[], parts)?;
    let scene = sets.len();
    push_held(sets, number, parts, scene_parts(service, &config.scene))?;
    Ok(Bases { application, scene })
}

/// Puts a configuration with the numbers of its sets behind those that are there.
fn push_numbered(
    numbered: &mut IndexMap<Config, Bases>,
    config: Config,
    bases: Bases,
) -> Result<(), AllocError>
    requires { list_any (same_config config) (map (λ e. e.0) numbered.old.entries) ≡ false }
    ensures { OnOk result (numbered.new.entries ≡ numbered.old.entries ++ (config, bases) ∷ []) }
{
    numbered.insert(config, bases)?;
    Ok(())
}

/// The configurations with the numbers of their sets, which are put behind those that are there.
pub(crate) fn numbered(
    alloc: Global,
    service: &Equipped<'_>,
    sets: &mut Vec<Set>,
    configs: Vec<Config>,
) -> Result<IndexMap<Config, Bases>, AllocError>
    requires { IsDistinct same_config configs.items }
    ensures configs { let first = length sets.old.items in
        IfOk result (λ numbered. numbered.entries ≡ spec.based service.now first configs.items) }
    ensures sets { OnOk result (sets.new.items ≡ sets.old.items ++ spec.sets_from service.now 0 configs.items) }
{
    let mut numbered = IndexMap::new(alloc);
    for config in configs {
        let number = numbered.len();
        let bases = push_config(sets, service, number, &config)?;
        push_numbered(&mut numbered, config, bases)?;
    }
    Ok(numbered)
}
