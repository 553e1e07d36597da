//! Flow: the configurations that are reached, and in each of them to what each variable may refer and which items
//! each list may have.
//!
//! Promise: it is the least solution; what a set has is what finite chains derive, and nothing else.
ghost use Rattle.std.specs.Prelude.{◌≡◌, ◌++◌, ◌∷◌, [], false, ◌↔◌, IfOk, IsTrue, OnOk, map, slice_get, unwrap_or};
ghost use Rattle.std.specs.List.{Contains};
ghost use Rattle.std.specs.Option.{option_map_or};
ghost use Rattle.mh_model.specs.Configuration.{present as present_there};
ghost use Rattle.mh_flow.specs.Rows.{has};
ghost use Rattle.mh_flow.specs.Sets.{members_of};
ghost use Rattle.mh_laws.specs.Least.{Derived, Held as IsHeld};
ghost use Rattle.mh_flow.specs.Bridge.{is_held_at};
ghost use Rattle.mh_flow.specs.Index.{indexed};
ghost use Rattle.mh_flow.specs.Solved.{IsFlowOf, held_by, held_in, named, named_in, reached_configs, set_of};

use crate::chart::Chart;
use crate::equipped::Equipped;
use crate::fixpoint::sets::Sets;
use crate::lists::Lists;
use crate::present::Present;
use mh_base::{ObjRef, Shared};
use mh_model::{Config, Fixed, FixedPart};
use std::alloc::{AllocError, Global};
use std::marker::Model;

/// The flow of a service.
#[derive(Drop)]
pub struct Flow {
    chart: Chart,
    sets: Sets,
    lists: Lists,
}

impl Model for Flow {
    ghost use Rattle.std.specs.Prelude.{◌≡◌, map};
    ghost use Rattle.mh_flow.specs.Solved.{Solved, named_in};

    ghost Value = { Solved };

    ghost view = { λ f. record { chart = f.chart; rows = f.sets } };

    ghost invariant = { λ f. f.lists ≡ map (named_in f.chart.members) f.sets };
}

/// What the objects of a configuration hold: a list for each, in the order in which they are present.
#[derive(Drop)]
pub struct Held {
    lists: Vec<Option<Shared<ObjRef>>>,
}

impl Model for Held {
    ghost use Rattle.std.specs.Prelude.{[], List, map, unwrap_or};
    ghost use Rattle.mh_base.specs.declared.obj_ref.ObjRef.{ObjRef as ObjRefValue};

    ghost Value = { List (List ObjRefValue) };

    ghost view = { λ h. map (λ l. unwrap_or l []) h.lists.items };
}

impl Held {
    /// What the object at the reference holds, where these are present; nothing where it is not.
    pub fn of(&self, present: &Present<'_>, at: &ObjRef) -> &[ObjRef]
        ensures { result.now ≡ held_by present.now self.now at.now }
    {
        match present.place(at) {
            None => &[],
            Some(place) => self.at(place),
        }
    }

    #[tactic(auto, using(crate::proofs::HeldLemmas::get_mapped))]
    fn at(&self, place: usize) -> &[ObjRef]
        ensures { result.now ≡ unwrap_or (slice_get self.now place) [] }
    {
        match self.lists.get(place) {
            Some(Some(list)) => list.as_slice(),
            _ => &[],
        }
    }
}

impl Flow {
    /// The flow of these sets, with what each has.
    pub(crate) fn new(chart: Chart, found: (Sets, Lists)) -> Flow
        requires { found.1 ≡ map (named_in chart.members) found.0 }
        ensures { result ≡ record { chart = chart; rows = found.0 } }
    {
        let (sets, lists) = found;
        Flow { chart, sets, lists }
    }

    /// The configurations that are reached.
    pub fn configs(&self, alloc: Global) -> Result<Vec<Config>, AllocError>
        ensures { IfOk result (λ configs. configs.items ≡ reached_configs self.now.chart self.now.rows) }
    {
        let configs = self.chart.reached(alloc, &self.sets)?;
        Ok(configs)
    }

    /// What is present in the configuration.
    pub fn present<'a>(&'a self, service: &'a Equipped<'a>, config: &'a Config) -> Present<'a>
        requires { self.now.chart.index ≡ indexed service.now }
        ensures { result ≡ present_there service.now config.now }
    {
        self.chart.present(service, config)
    }

    /// Whether the variable or list may hold the reference in the configuration.
    pub fn holds(
        &self,
        service: &Equipped<'_>,
        config: &Config,
        holder: &ObjRef,
        at: &ObjRef,
    ) -> bool
        requires { IsFlowOf service.now self.now }
        ensures { IsTrue result ↔ Derived service.now (IsHeld config.now holder.now at.now) }
    {
        self.has(self.chart.node_of(config, holder), self.chart.member_of(at))
    }

    fn has(&self, node: Option<usize>, member: Option<usize>) -> bool
        ensures { result ≡ option_map_or (λ u. option_map_or (has self.now.rows u) member false) node false }
    {
        match (node, member) {
            (Some(node), Some(member)) => self.sets.has(node, member),
            _ => false,
        }
    }

    /// What the objects hold that are present in the configuration.
    pub fn held(
        &self,
        alloc: Global,
        service: &Equipped<'_>,
        config: &Config,
    ) -> Result<Held, AllocError>
        requires { IsFlowOf service.now self.now }
        ensures each { IfOk result (λ held. held ≡ held_in service.now self.now config.now) }
        ensures sets { IfOk result (λ held. held_by (present_there service.now config.now) held
            ≡ set_of service.now self.now.chart self.now.rows config.now) }
    {
        let present = self.present(service, config);
        let (application, scene) = present.parts();
        let mut lists = Vec::with_capacity(alloc, application.len() + scene.len())?;
        self.push_held(&mut lists, service, &present, config, application)?;
        self.push_held(&mut lists, service, &present, config, scene)?;
        Ok(Held { lists })
    }

    fn push_held(
        &self,
        lists: &mut Vec<Option<Shared<ObjRef>>>,
        service: &Equipped<'_>,
        present: &Present<'_>,
        config: &Config,
        parts: &[FixedPart],
    ) -> Result<(), AllocError>
        requires flow { IsFlowOf service.now self.now }
        requires present { present.now ≡ present_there service.now config.now }
        requires among { (p : _) → Contains parts.now p → Contains present.now p }
        ensures { OnOk result (map (λ l. unwrap_or l []) lists.new.items ≡ map (λ l. unwrap_or l []) lists.old.items
            ++ map (λ p. set_of service.now self.now.chart self.now.rows config.now p.key) parts.now) }
    {
        for part in parts {
            let list = self.set_of(service, present, config, part.get())?;
            lists.push(list)?;
        }
        Ok(())
    }

    /// What the object holds, which is present.
    fn set_of(
        &self,
        service: &Equipped<'_>,
        present: &Present<'_>,
        config: &Config,
        part: &Fixed,
    ) -> Result<Option<Shared<ObjRef>>, AllocError>
        requires flow { IsFlowOf service.now self.now }
        requires present { present.now ≡ present_there service.now config.now }
        requires among { Contains present.now part.now }
        ensures { IfOk result (λ set. unwrap_or set []
            ≡ set_of service.now self.now.chart self.now.rows config.now part.now.key) }
    {
        if present.is_holder(part) {
            self.list_of(self.chart.node_of(config, &part.key))
        } else {
            Ok(None)
        }
    }

    /// What the set with this number has.
    fn list_of(&self, node: Option<usize>) -> Result<Option<Shared<ObjRef>>, AllocError>
        ensures { IfOk result (λ list. unwrap_or list []
            ≡ option_map_or (λ u. named self.now.chart.members (members_of self.now.rows u)) node []) }
    {
        match node {
            None => Ok(None),
            Some(node) => {
                let list = self.lists.share(node)?;
                Ok(list)
            }
        }
    }
}
