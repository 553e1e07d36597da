//! `Reached`: the configurations that are reached, and what is read of them.
//!
//! Promise: each stands under its number, with what is held there. Each part is made by a call of its own, and handed on
//! while the next is made, so that nothing has to be let go where that is refused memory.
ghost use Rattle.std.specs.Prelude.{◌≡◌, [], map, IfOk};
ghost use Rattle.indexmap.specs.IndexSet.{insert_all};
ghost use Rattle.mh_flow.specs.Solved.{IsFlowOf, flow_in, held_in, reached_configs};
ghost use Rattle.mh_layers.specs.CostNodes.{every_timer};
ghost use Rattle.mh_layers.specs.Reading.{same_setting};

use crate::numbered::settings::{each_once, held_in_each};
use crate::numbered::timers::TimerSet;
use indexmap::IndexSet;
use mh_base::both;
use mh_flow::{Equipped, Flow, Held};
use mh_model::Config;
use std::alloc::{AllocError, Global};

/// Configurations in the order of the flow, and the same under their numbers.
#[derive(Drop)]
pub(crate) struct Configs {
    pub all: Vec<Config>,
    pub once: IndexSet<Config>,
}

/// The configurations that are reached, what is held in each that has a number, and the timers that can be set.
#[derive(Drop)]
pub(crate) struct Reached {
    pub configs: Configs,
    pub held: Vec<Held>,
    pub timers: TimerSet,
}

/// The configurations that are reached.
fn configs_of(alloc: Global, flow: &Flow) -> Result<Configs, AllocError>
    ensures all { IfOk result (λ configs. configs.all.items ≡ reached_configs flow.now.chart flow.now.rows) }
    ensures once { IfOk result (λ configs. configs.once.keys ≡ insert_all same_setting [] configs.all.items) }
{
    let all = flow.configs(alloc)?;
    let once = each_once(alloc, &all);
    let (all, once) = both(Ok(all), once)?;
    Ok(Configs { all, once })
}

impl Reached {
    /// The configurations that are reached, and what is read of them.
    pub fn of(alloc: Global, service: &Equipped<'_>, flow: &Flow) -> Result<Reached, AllocError>
        requires { IsFlowOf service.now flow.now }
        ensures all { IfOk result (λ reached. reached.configs.all.items ≡ (flow_in service.now flow.now).configs) }
        ensures once { IfOk result (λ reached. reached.configs.once.keys ≡ insert_all same_setting [] (flow_in service.now flow.now).configs) }
        ensures held { IfOk result (λ reached. reached.held.items ≡ map (held_in service.now flow.now) reached.configs.once.keys) }
        ensures timers { IfOk result (λ reached. reached.timers ≡ every_timer service.now (flow_in service.now flow.now)) }
    {
        let configs = configs_of(alloc, flow)?;
        let held = held_in_each(alloc, service, flow, configs.once.as_slice());
        let (configs, held) = both(Ok(configs), held)?;
        let timers = TimerSet::of(alloc, service, flow, &configs.all, &configs.once, &held);
        let ((configs, held), timers) = both(Ok((configs, held)), timers)?;
        Ok(Reached {
            configs,
            held,
            timers,
        })
    }
}
