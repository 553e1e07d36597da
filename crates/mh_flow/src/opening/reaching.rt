//! What a configuration opens that is reached, and what an object opens that holds a reference.
//!
//! Promise: each function puts behind what is there what the definition that its clause names says.
ghost use Rattle.std.specs.Prelude.{◌≡◌, ◌++◌, ◌&&◌, Some, OnOk, map, slice_get};
ghost use Rattle.std.specs.List.{flat_map, list_any};
ghost use Rattle.std.specs.Option.{option_copied, option_to_list};
ghost use Rattle.mh_model.specs.Reference.{same_ref};
ghost use Rattle.mh_laws.specs.Flow.{is_reference_in};
ghost use Rattle.mh_flow.specs.Chart as numbers;
ghost use Rattle.mh_flow.specs.Chart.{IsChart};
ghost use Rattle.mh_flow.specs.Opening as spec;

use crate::chart::Chart;
use crate::fixpoint::constraints::Item;
use crate::opening::numbered_config::{NumberedConfig, push_member};
use crate::opening::walks::Walk;
use crate::present::is_holder;
use crate::references::{first_items, first_value};
use crate::sites::Site;
use mh_base::ObjRef;
use mh_model::{Act, Fixed, FixedPart, Member, Target};
use std::alloc::{AllocError, Global};

impl<'a, 's> NumberedConfig<'a, 's> {
    /// What a configuration opens that is reached: what its objects hold at first, and what its actions do whose
    /// targets are written.
    pub(crate) fn push_reached(
        &self,
        alloc: Global,
        items: &mut Vec<Item>,
    ) -> Result<(), AllocError>
        ensures { let p = self.now in OnOk result (items.new.items ≡ items.old.items
            ++ spec.by_config p.service p.chart p.number p.config p.bases) }
    {
        let (application, scene) = self.present.parts();
        self.push_all_firsts(items, application)?;
        self.push_all_firsts(items, scene)?;
        let sites = self.sites(alloc)?;
        self.push_all_direct(items, sites.as_slice())?;
        Ok(())
    }

    fn push_all_firsts(&self, items: &mut Vec<Item>, parts: &[FixedPart]) -> Result<(), AllocError>
        ensures { let p = self.now in OnOk result (items.new.items ≡ items.old.items
            ++ flat_map (spec.held_first p.service p.chart p.config p.bases) parts.now) }
    {
        for part in parts {
            self.push_firsts(items, part.get())?;
        }
        Ok(())
    }

    /// What an object holds at first, which is nothing but for variables of references and lists.
    fn push_firsts(&self, items: &mut Vec<Item>, part: &Fixed) -> Result<(), AllocError>
        ensures { let p = self.now in OnOk result (items.new.items ≡ items.old.items
            ++ spec.held_first p.service p.chart p.config p.bases part.now) }
    {
        if is_holder(part.class) {
            self.push_own(items, part)?;
        }
        Ok(())
    }

    /// What a variable or a list has at first.
    fn push_own(&self, items: &mut Vec<Item>, part: &Fixed) -> Result<(), AllocError>
        ensures { let p = self.now in OnOk result (items.new.items ≡ items.old.items
            ++ spec.held_first p.service p.chart p.config p.bases part.now) }
    {
        let node = self.node(&part.key);
        push_some(items, self.chart, node, first_value(part))?;
        push_members(items, self.chart, node, first_items(part))?;
        Ok(())
    }

    fn push_all_direct(&self, items: &mut Vec<Item>, sites: &[Site<'_>]) -> Result<(), AllocError>
        ensures { let p = self.now in OnOk result (items.new.items ≡ items.old.items
            ++ flat_map (λ x. spec.does_direct p.service p.chart p.number p.config p.bases x.act x.act.target)
            sites.now) }
    {
        for site in sites {
            self.push_direct(items, site.act)?;
        }
        Ok(())
    }

    /// What an action does whose target is written.
    fn push_direct(&self, items: &mut Vec<Item>, act: &Act) -> Result<(), AllocError>
        ensures { let p = self.now in OnOk result (items.new.items ≡ items.old.items
            ++ spec.does_direct p.service p.chart p.number p.config p.bases act.now act.now.target) }
    {
        match &act.target {
            Target::Direct(at) => self.push_done(items, act, at),
            Target::Through(_) => Ok(()),
        }
    }

    /// What is there where the object at this place holds this reference.
    pub(crate) fn push_object(
        &self,
        items: &mut Vec<Item>,
        place: usize,
        at: Option<&ObjRef>,
    ) -> Result<(), AllocError>
        ensures { let p = self.now in OnOk result (items.new.items ≡ items.old.items
            ++ spec.by_object p.service p.chart p.number p.config p.bases (option_copied at.entry)
            (slice_get (spec.present_in p) place)) }
    {
        match (at, self.present.at(place)) {
            (Some(at), Some(part)) => self.push_variable(items, &part.key, at),
            _ => Ok(()),
        }
    }

    /// What the actions do that have their targets through the variable, where it holds this reference.
    fn push_variable(
        &self,
        items: &mut Vec<Item>,
        variable: &ObjRef,
        at: &ObjRef,
    ) -> Result<(), AllocError>
        ensures { let p = self.now in OnOk result (items.new.items ≡ items.old.items
            ++ spec.by_variable p.service p.chart p.number p.config p.bases variable.now (Some at.now)) }
    {
        if self.is_walked(variable) {
            self.push_all_walked(items, at, self.application_walks(variable))?;
            self.push_all_walked(items, at, self.scene_walks(variable))?;
        }
        Ok(())
    }

    /// Whether it is a variable of references that is present, and an action has its target through it.
    fn is_walked(&self, variable: &ObjRef) -> bool
        ensures walked { let p = self.now in
            result ≡ (list_any (same_ref variable.now) p.chart.targeted
            && is_reference_in (spec.present_in p) variable.now) }
        ensures chart { IsChart self.now.service self.now.chart }
    {
        self.chart.is_targeted(variable) && self.is_reference(variable)
    }

    fn push_all_walked(
        &self,
        items: &mut Vec<Item>,
        at: &ObjRef,
        walks: &[Walk<'_>],
    ) -> Result<(), AllocError>
        ensures { let p = self.now in OnOk result (items.new.items ≡ items.old.items
            ++ flat_map (spec.walked p.service p.chart p.number p.config p.bases at.now) walks.now) }
    {
        for walk in walks {
            self.push_walked(items, at, walk)?;
        }
        Ok(())
    }

    /// What the action does to the object, if it is active.
    fn push_walked(
        &self,
        items: &mut Vec<Item>,
        at: &ObjRef,
        walk: &Walk<'_>,
    ) -> Result<(), AllocError>
        ensures { let p = self.now in OnOk result (items.new.items ≡ items.old.items
            ++ spec.walked p.service p.chart p.number p.config p.bases at.now walk.now) }
    {
        if self.present.is_active(walk.part) {
            self.push_done(items, walk.act, at)
        } else {
            Ok(())
        }
    }
}

/// The reference is a member of the set, if there is one.
fn push_some(
    items: &mut Vec<Item>,
    chart: &Chart,
    node: Option<usize>,
    at: Option<&ObjRef>,
) -> Result<(), AllocError>
    ensures { OnOk result (items.new.items ≡ items.old.items
        ++ flat_map (λ q. spec.member_at node (numbers.member_of chart.now q))
        (option_to_list (option_copied at.entry))) }
{
    match at {
        None => Ok(()),
        Some(at) => push_member(items, node, chart.member_of(at)),
    }
}

/// What these are are members of the set.
fn push_members(
    items: &mut Vec<Item>,
    chart: &Chart,
    node: Option<usize>,
    members: &[Member],
) -> Result<(), AllocError>
    ensures { OnOk result (items.new.items ≡ items.old.items
        ++ flat_map (λ q. spec.member_at node (numbers.member_of chart.now q)) (map (λ m. m.object) members.now)) }
{
    for member in members {
        push_member(items, node, chart.member_of(&member.object))?;
    }
    Ok(())
}
