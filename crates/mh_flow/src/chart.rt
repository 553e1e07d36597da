//! A service by numbers: its configurations, the references that may be held, and the sets.
//!
//! Promise: the numbers are those of the definitions.

pub(crate) mod numbering;
mod parts;

ghost use Rattle.std.specs.Prelude.{◌≡◌, None, if◌then◌else◌, length, IfOk, slice_get};
ghost use Rattle.std.specs.List.{list_any};
ghost use Rattle.std.specs.Map.{lookup};
ghost use Rattle.std.specs.Option.{option_copied, option_map, option_or};
ghost use Rattle.mh_model.specs.Configuration.{present};
ghost use Rattle.mh_model.specs.Reference.{same_ref};
ghost use Rattle.mh_flow.specs.Chart as spec;
ghost use Rattle.mh_flow.specs.Chart.{IsChart};
ghost use Rattle.mh_flow.specs.Index.{AreNamed, held_index, indexed};
ghost use Rattle.mh_flow.specs.Solved.{is_reached, reached_configs};

use crate::chart::parts::{Numbers, References, all_of, numbers_of, references_of};
use crate::equipped::Equipped;
use crate::fixpoint::sets::Sets;
use crate::index::{Home, Index, holders_of, home_of, index_of};
use crate::present::{Present, is_scene};
use indexmap::{IndexMap, IndexSet};
use mh_base::ObjRef;
use mh_model::Config;
use std::alloc::{AllocError, Global};
use std::marker::Model;

impl Model for Chart {
    ghost use Rattle.mh_flow.specs.Chart.{Chart as ChartValue};

    ghost Value = { ChartValue };

    ghost view = { λ c. record {
      configs = c.configs.entries;
      members = c.members.keys;
      targeted = c.targeted.keys;
      sets = c.sets.items;
      index = c.index.entries;
      holders = c.holders.entries;
    } };
}

/// What a set has as its members.
#[derive(Clone, Copy)]
pub(crate) enum Set {
    /// The configurations that are reached.
    Reached,
    /// Those to which the configuration with this number leads.
    Led(usize),
    /// What an object holds in a configuration: the number of the configuration, and how many objects stand
    /// before it there.
    Held(usize, usize),
}

/// The numbers of the first sets: of the variables and lists of the application, and of those of the scene.
#[derive(Clone, Copy)]
pub(crate) struct Bases {
    pub application: usize,
    pub scene: usize,
}

/// The numbers of a service.
#[derive(Drop)]
pub(crate) struct Chart {
    /// Each configuration, with the numbers of its sets.
    configs: IndexMap<Config, Bases>,
    /// The references that may be held, in their order.
    members: IndexSet<ObjRef>,
    /// The variables through which an action has its target.
    targeted: IndexSet<ObjRef>,
    sets: Vec<Set>,
    /// The objects of the service.
    index: Index,
    /// Those of them that have a set.
    holders: Index,
}

impl Chart {
    /// The numbers of the service.
    pub fn of(alloc: Global, service: &Equipped<'_>) -> Result<Chart, AllocError>
        ensures { IfOk result (λ chart. IsChart service.now chart) }
    {
        let parts = all_of(
            index_of(alloc, service),
            holders_of(alloc, service),
            numbers_of(alloc, service),
            references_of(alloc, service),
        )?;
        // that their names are their own is known where there are groups
        let _ = service.groups();
        Ok(Chart::of_parts(parts))
    }

    fn of_parts(parts: (Index, Index, Numbers, References)) -> Chart
        ensures { result ≡ record {
          configs = parts.2.configs.entries;
          members = parts.3.members.keys;
          targeted = parts.3.targeted.keys;
          sets = parts.2.sets.items;
          index = parts.0.entries;
          holders = parts.1.entries;
        } }
    {
        let (index, holders, numbers, references) = parts;
        let Numbers { configs, sets } = numbers;
        let References { members, targeted } = references;
        Chart {
            configs,
            members,
            targeted,
            sets,
            index,
            holders,
        }
    }

    /// How many sets there are.
    pub fn sets(&self) -> usize
        ensures { result ≡ length self.now.sets }
    {
        self.sets.len()
    }

    /// What the set with this number is.
    pub fn set_at(&self, number: usize) -> Option<Set>
        ensures { result ≡ slice_get self.now.sets number }
    {
        self.sets.get(number).copied()
    }

    /// How many references there are that may be held.
    pub fn members(&self) -> usize
        ensures { result ≡ length self.now.members }
    {
        self.members.len()
    }

    /// How many configurations there are.
    pub fn configs(&self) -> usize
        ensures { result ≡ length self.now.configs }
    {
        self.configs.len()
    }

    /// The configuration with this number, and the numbers of its sets.
    pub fn config_at(&self, number: usize) -> Option<(&Config, &Bases)>
        ensures { option_map (λ e. (e.0.now, e.1.now)) result ≡ slice_get self.now.configs number }
    {
        self.configs.get_index(number)
    }

    /// The number of the configuration.
    pub fn config_number(&self, config: &Config) -> Option<usize>
        ensures { result ≡ spec.config_number self.now config.now }
    {
        self.configs.get_index_of(config)
    }

    /// The configurations that are members of the first of these sets.
    pub fn reached(&self, alloc: Global, sets: &Sets) -> Result<Vec<Config>, AllocError>
        ensures { IfOk result (λ configs. configs.items ≡ reached_configs self.now sets.now) }
    {
        let mut configs = Vec::new(alloc);
        for config in self.configs.keys() {
            if self.is_reached(sets, config) {
                configs.push(config.clone()?)?;
            }
        }
        Ok(configs)
    }

    fn is_reached(&self, sets: &Sets, config: &Config) -> bool
        ensures { result ≡ is_reached self.now sets.now config.now }
    {
        match self.config_number(config) {
            None => false,
            Some(number) => sets.has(0, number),
        }
    }

    /// The reference with this number.
    pub fn member_at(&self, number: usize) -> Option<&ObjRef>
        ensures { option_copied result ≡ slice_get self.now.members number }
    {
        self.members.get_index(number)
    }

    /// The number of the reference, if it may be held.
    #[tactic(auto, using(crate::proofs::ChartLemmas::position_key))]
    pub fn member_of(&self, at: &ObjRef) -> Option<usize>
        ensures { result ≡ spec.member_of self.now at.now }
    {
        self.members.get_index_of(at)
    }

    /// Whether an action has its target through the variable.
    #[tactic(auto, using(crate::proofs::ChartLemmas::any_key))]
    pub fn is_targeted(&self, variable: &ObjRef) -> bool
        ensures { result ≡ list_any (same_ref variable.now) self.now.targeted }
    {
        self.targeted.contains(variable)
    }

    /// What is present in the configuration.
    pub fn present<'a>(&'a self, service: &'a Equipped<'a>, config: &'a Config) -> Present<'a>
        requires { self.now.index ≡ indexed service.now }
        ensures { result ≡ present service.now config.now }
    {
        Present::of(service, &self.index, config)
    }

    /// Where the object stands among those of its group that have a set, if it is one of them.
    fn holder(&self, at: &ObjRef) -> Option<&Home>
        ensures { option_copied result ≡ lookup (same_ref at.now) self.now.holders }
    {
        home_of(&self.holders, at)
    }

    /// The number of the set of the object, if it has one in the configuration with these sets.
    pub fn node_from(&self, config: &Config, at: &ObjRef, bases: &Bases) -> Option<usize>
        ensures { (v : _) → AreNamed v → self.now.holders ≡ held_index v
            → result ≡ spec.node_from v config.now at.now bases.now }
    {
        match self.holder(at) {
            None => None,
            Some(home) => first_of(
                node_at(at.group == config.app, bases.application, home.place),
                node_at(is_scene(&config.scene, &at.group), bases.scene, home.place),
            ),
        }
    }

    /// The number of the set of the object, if it has one in the configuration.
    pub fn node_of(&self, config: &Config, at: &ObjRef) -> Option<usize>
        ensures { (v : _) → AreNamed v → self.now.holders ≡ held_index v
            → result ≡ spec.node_of v self.now config.now at.now }
    {
        match self.configs.get(config) {
            None => None,
            Some(bases) => self.node_from(config, at, bases),
        }
    }
}

/// The number of a set that stands so far behind this one, if the object is there.
fn node_at(is_there: bool, base: usize, place: usize) -> Option<usize>
    ensures { result ≡ if is_there then spec.sum_of base place else None }
{
    if is_there {
        base.checked_add(place)
    } else {
        None
    }
}

fn first_of(first: Option<usize>, second: Option<usize>) -> Option<usize>
    ensures { result ≡ option_or first second }
{
    match first {
        Some(number) => Some(number),
        None => second,
    }
}
