//! Sites: the actions of objects, each at its place, in written order.
//!
//! Promise: whoever looks at what can come to be done in a configuration goes over one list, which is made here.
ghost use Rattle.std.specs.Prelude.{◌≡◌, ◌++◌, ◌∷◌, [], suc, length, filter, IfOk, OnOk};
ghost use Rattle.std.specs.List.{flat_map};
ghost use Rattle.mh_laws.specs.Active.{is_active};
ghost use Rattle.mh_flow.specs.Sites.{numbered, through_effects, sites as sites_lem, sites_of};

use crate::present::Present;
use mh_base::ObjRef;
use mh_group::Attribute;
use mh_model::parts::{effect_of, members};
use mh_model::{Act, Effect, Fixed, FixedPart, Member};
use std::alloc::{AllocError, Global};
use std::marker::Model;

/// An action at its place.
#[derive(Drop)]
pub struct Site<'a> {
    /// The object.
    pub key: &'a ObjRef,
    /// The number of the action through the object's effects, from 1 on.
    pub index: usize,
    /// The number of the first action of its effect.
    pub first: usize,
    pub act: &'a Act,
}

impl<'a> Model for Site<'a> {
    ghost use Rattle.mh_flow.specs.Sites.{Site as SiteValue};

    ghost Value = { SiteValue };

    ghost view = { λ s. record { key = s.key.now; index = s.index; first = s.first; act = s.act.now } };
}

/// Puts an action behind these.
fn push_act<'a>(
    sites: &mut Vec<Site<'a>>,
    key: &'a ObjRef,
    first: usize,
    act: &'a Act,
) -> Result<(), AllocError>
    ensures { let next = suc (length sites.old.items) in
        OnOk result (sites.new.items ≡ sites.old.items ++ numbered key.now first next (act.now ∷ [])) }
{
    let index = sites.len() + 1;
    sites.push(Site {
        key,
        index,
        first,
        act,
    })?;
    Ok(())
}

/// Puts actions of an effect behind these.
#[tactic(auto, using(crate::proofs::SiteLemmas::numbered_behind))]
fn push_acts<'a>(
    sites: &mut Vec<Site<'a>>,
    key: &'a ObjRef,
    first: usize,
    acts: &'a [Act],
) -> Result<(), AllocError>
    ensures { let next = suc (length sites.old.items) in
        OnOk result (sites.new.items ≡ sites.old.items ++ numbered key.now first next acts.now) }
{
    for act in acts {
        push_act(sites, key, first, act)?;
    }
    Ok(())
}

/// Puts the actions of an effect behind these.
fn push_effect<'a>(
    sites: &mut Vec<Site<'a>>,
    key: &'a ObjRef,
    acts: &'a [Act],
) -> Result<(), AllocError>
    ensures { let next = suc (length sites.old.items) in
        OnOk result (sites.new.items ≡ sites.old.items ++ through_effects key.now next (acts.now ∷ [])) }
{
    let first = sites.len() + 1;
    push_acts(sites, key, first, acts)
}

/// Puts the actions of slots behind these.
fn push_slots<'a>(
    sites: &mut Vec<Site<'a>>,
    key: &'a ObjRef,
    slots: &'a [Effect],
) -> Result<(), AllocError>
    ensures { let next = suc (length sites.old.items) in
        OnOk result (sites.new.items ≡ sites.old.items ++ through_effects key.now next slots.now) }
{
    for slot in slots {
        push_effect(sites, key, slot.as_slice())?;
    }
    Ok(())
}

/// Puts the actions of the slots of members behind these.
fn push_members<'a>(
    sites: &mut Vec<Site<'a>>,
    key: &'a ObjRef,
    members: &'a [Member],
) -> Result<(), AllocError>
    ensures { let next = suc (length sites.old.items) in
        OnOk result (sites.new.items ≡ sites.old.items
        ++ through_effects key.now next (flat_map (λ m. m.slots) members.now)) }
{
    for member in members {
        push_slots(sites, key, member.slots.as_slice())?;
    }
    Ok(())
}

/// The sites of an object: start-up, close-down, what a link does, and slots.
pub fn sites(alloc: Global, part: &Fixed) -> Result<Vec<Site<'_>>, AllocError>
    ensures { IfOk result (λ sites. sites.items ≡ sites_lem part.now) }
{
    let mut sites = Vec::new(alloc);
    push_effect(&mut sites, &part.key, effect_of(part, Attribute::OnStartUp))?;
    push_effect(
        &mut sites,
        &part.key,
        effect_of(part, Attribute::OnCloseDown),
    )?;
    push_effect(
        &mut sites,
        &part.key,
        effect_of(part, Attribute::LinkEffect),
    )?;
    push_members(&mut sites, &part.key, members(part))?;
    Ok(sites)
}

/// Puts the sites of an object behind these.
fn push_sites<'a>(alloc: Global, all: &mut Vec<Site<'a>>, part: &'a Fixed) -> Result<(), AllocError>
    ensures { OnOk result (all.new.items ≡ all.old.items ++ sites_lem part.now) }
{
    let mut own = sites(alloc, part)?;
    all.append(&mut own)?;
    Ok(())
}

/// Puts the sites of those that are active behind these.
fn push_active<'a>(
    alloc: Global,
    all: &mut Vec<Site<'a>>,
    present: &Present<'_>,
    parts: &'a [FixedPart],
) -> Result<(), AllocError>
    ensures { OnOk result (all.new.items ≡ all.old.items
        ++ flat_map sites_lem (filter (is_active present.now) parts.now)) }
{
    for part in parts {
        if present.is_active(part.get()) {
            push_sites(alloc, all, part.get())?;
        }
    }
    Ok(())
}

/// The sites of what is active where these are present.
pub fn sites_of<'a>(alloc: Global, present: &Present<'a>) -> Result<Vec<Site<'a>>, AllocError>
    ensures { IfOk result (λ sites. sites.items ≡ sites_of present.now) }
{
    let (application, scene) = present.parts();
    let mut all = Vec::new(alloc);
    push_active(alloc, &mut all, present, application)?;
    push_active(alloc, &mut all, present, scene)?;
    Ok(all)
}
