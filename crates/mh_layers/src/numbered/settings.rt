//! Configurations, each once, and what is held in each.
//!
//! Promise: they stand in the order of coming.
ghost use Rattle.std.specs.Prelude.{◌≡◌, ◌∷◌, [], map, IfOk, OnOk};
ghost use Rattle.std.specs.Option.{option_copied, option_eq};
ghost use Rattle.std.specs.Str.{bytes_eq};
ghost use Rattle.indexmap.specs.IndexSet.{insert_all};
ghost use Rattle.mh_flow.specs.Solved.{IsFlowOf, held_in};
ghost use Rattle.mh_layers.specs.Reading.{same_setting, setting as spec_setting};

use indexmap::IndexSet;
use mh_base::GroupName;
use mh_flow::{Equipped, Flow, Held};
use mh_model::Config;
use std::alloc::{AllocError, Global};

fn copied(config: &Config) -> Result<Config, AllocError>
    ensures { IfOk result (λ copy. copy ≡ config.now) }
{
    config.clone()
}

fn put(configs: &mut IndexSet<Config>, config: &Config) -> Result<(), AllocError>
    ensures { OnOk result (configs.new.keys ≡ insert_all same_setting configs.old.keys (config.now ∷ [])) }
{
    configs.insert(copied(config)?)?;
    Ok(())
}

/// These, each once.
pub(crate) fn each_once(alloc: Global, all: &[Config]) -> Result<IndexSet<Config>, AllocError>
    ensures { IfOk result (λ configs. configs.keys ≡ insert_all same_setting [] all.now) }
{
    let mut configs = IndexSet::new(alloc);
    for config in all {
        put(&mut configs, config)?;
    }
    Ok(configs)
}

pub(crate) fn setting(app: &GroupName, scene: Option<&GroupName>) -> Result<Config, AllocError>
    ensures { IfOk result (λ config. config ≡ spec_setting app.now (option_copied scene.entry)) }
{
    let scene = match scene {
        None => None,
        Some(scene) => Some(scene.clone()?),
    };
    Ok(Config {
        app: app.clone()?,
        scene,
    })
}

fn is_same_scene(first: Option<&GroupName>, second: &Option<GroupName>) -> bool
    ensures { result ≡ option_eq bytes_eq (option_copied first.entry) second.now }
{
    match (first, second) {
        (None, None) => true,
        (Some(first), Some(second)) => *first == *second,
        _ => false,
    }
}

pub(crate) fn is_setting(app: &GroupName, scene: Option<&GroupName>, config: &Config) -> bool
    ensures { result ≡ same_setting (spec_setting app.now (option_copied scene.entry)) config.now }
{
    *app == config.app && is_same_scene(scene, &config.scene)
}

/// What is held in each of these configurations.
pub(crate) fn held_in_each(
    alloc: Global,
    service: &Equipped<'_>,
    flow: &Flow,
    configs: &[Config],
) -> Result<Vec<Held>, AllocError>
    requires { IsFlowOf service.now flow.now }
    ensures { IfOk result (λ held. held.items ≡ map (held_in service.now flow.now) configs.now) }
{
    let mut held = Vec::new(alloc);
    for config in configs {
        held.push(flow.held(alloc, service, config)?)?;
    }
    Ok(held)
}
