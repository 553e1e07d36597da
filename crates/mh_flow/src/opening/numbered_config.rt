//! A configuration with its numbers, and what is there in members and edges.
//!
//! Promise: each function answers what the definition that its clause names says.
ghost use Rattle.std.specs.Prelude.{◌≡◌, ◌++◌, IfOk, OnOk};
ghost use Rattle.mh_laws.specs.Flow.{is_reference_in};
ghost use Rattle.mh_flow.specs.Chart as numbers;
ghost use Rattle.mh_flow.specs.Opening as spec;
ghost use Rattle.mh_flow.specs.Sites.{sites_of};
ghost use Rattle.mh_flow.specs.Walks.{walks};
ghost use Rattle.mh_model.specs.Configuration.{scene_parts};
ghost use Rattle.mh_model.specs.Service.{group_parts};

use crate::chart::{Bases, Chart};
use crate::equipped::Equipped;
use crate::fixpoint::constraints::{Fact, Item};
use crate::opening::walks::{Walk, Walks};
use crate::present::Present;
use crate::sites::{Site, sites_of};
use mh_base::ObjRef;
use mh_model::Config;
use std::alloc::{AllocError, Global};
use std::marker::Model;

/// A configuration, its number, those of its sets, and what is present there.
#[derive(Drop)]
pub(crate) struct NumberedConfig<'a, 's> {
    pub service: &'a Equipped<'a>,
    pub chart: &'a Chart,
    pub walks: &'a Walks<'s>,
    pub number: usize,
    pub config: &'a Config,
    pub bases: &'a Bases,
    pub present: Present<'a>,
}

impl<'a, 's> Model for NumberedConfig<'a, 's> {
    ghost use Rattle.std.specs.Prelude.{◌≡◌, Some, slice_get};
    ghost use Rattle.mh_model.specs.Configuration.{present as present_there};
    ghost use Rattle.mh_flow.specs.Chart.{IsChart};
    ghost use Rattle.mh_flow.specs.Opening.{NumberedConfig as NumberedConfigValue};

    ghost Value = { NumberedConfigValue };

    ghost view = { λ p. record {
      service = p.service.now;
      chart = p.chart.now;
      number = p.number;
      config = p.config.now;
      bases = p.bases.now;
    } };

    ghost invariant = { λ p. IsChart p.service.now p.chart.now
        × (slice_get p.chart.now.configs p.number ≡ Some (p.config.now, p.bases.now))
        × (p.present ≡ present_there p.service.now p.config.now)
        × (p.walks.now ≡ p.service.now) };
}

/// A member of a set, where both have numbers.
pub(crate) fn push_member(
    items: &mut Vec<Item>,
    node: Option<usize>,
    member: Option<usize>,
) -> Result<(), AllocError>
    ensures { OnOk result (items.new.items ≡ items.old.items ++ spec.member_at node member) }
{
    if let (Some(node), Some(member)) = (node, member) {
        items.push(Item::Member(Fact { node, member }))?;
    }
    Ok(())
}

/// An edge between two sets, where both have numbers.
pub(crate) fn push_edge(
    items: &mut Vec<Item>,
    from: Option<usize>,
    to: Option<usize>,
) -> Result<(), AllocError>
    ensures { OnOk result (items.new.items ≡ items.old.items ++ spec.edge_at from to) }
{
    if let (Some(from), Some(to)) = (from, to) {
        items.push(Item::Edge(from, to))?;
    }
    Ok(())
}

impl<'a, 's> NumberedConfig<'a, 's> {
    pub(crate) fn node(&self, at: &ObjRef) -> Option<usize>
        ensures { let p = self.now in result ≡ numbers.node_from p.service p.config at.now p.bases }
    {
        self.node_in(self.config, at, self.bases)
    }

    /// The same in another configuration.
    pub(crate) fn node_in(&self, config: &Config, at: &ObjRef, bases: &Bases) -> Option<usize>
        ensures { result ≡ numbers.node_from self.now.service config.now at.now bases.now }
    {
        self.chart.node_from(config, at, bases)
    }

    /// Whether it is a variable of references, and present.
    pub(crate) fn is_reference(&self, at: &ObjRef) -> bool
        ensures { let p = self.now in result ≡ is_reference_in (spec.present_in p) at.now }
    {
        self.present.is_reference(at)
    }

    /// The application's actions that go on through the variable.
    pub(crate) fn application_walks(&self, variable: &ObjRef) -> &[Walk<'s>]
        ensures { let p = self.now in result.now ≡ walks variable.now (group_parts p.service p.config.app) }
    {
        self.walks.through(&self.config.app, variable)
    }

    /// Those of the scene.
    pub(crate) fn scene_walks(&self, variable: &ObjRef) -> &[Walk<'s>]
        ensures { let p = self.now in result.now ≡ walks variable.now (scene_parts p.service p.config.scene) }
    {
        match &self.config.scene {
            None => self.walks.none(),
            Some(scene) => self.walks.through(scene, variable),
        }
    }

    /// The sites of all that is active.
    pub(crate) fn sites(&self, alloc: Global) -> Result<Vec<Site<'a>>, AllocError>
        ensures { let p = self.now in
            IfOk result (λ sites. sites.items ≡ sites_of (spec.present_in p)) }
    {
        let sites = sites_of(alloc, &self.present)?;
        Ok(sites)
    }
}
