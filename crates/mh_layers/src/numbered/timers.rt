//! `TimerSet`: the timers that can be set.
//!
//! Promise: each that an active action of a reached configuration sets is there once, from the last on.
ghost use Rattle.std.specs.Prelude.{◌≡◌, ◌∷◌, ◌++◌, [], map, position, slice_get, option_and_then, reverse, IfOk, OnOk};
ghost use Rattle.std.specs.List.{flat_map};
ghost use Rattle.std.specs.Option.{option_copied};
ghost use Rattle.indexmap.specs.IndexSet.{insert_all};
ghost use Rattle.mh_laws.specs.Active.{active_actions};
ghost use Rattle.mh_laws.specs.Costs.{same_timer as same_timer_lem, set_with};
ghost use Rattle.mh_flow.specs.Solved.{IsFlowOf, flow_in, held_in};
ghost use Rattle.mh_layers.specs.CostNodes.{every_timer};
ghost use Rattle.mh_layers.specs.Reading.{same_setting};
ghost use Rattle.mh_layers.specs.SetTimers.{set_here, set_in, sets_there, targets_here};

use crate::numbered::set_timer::SetTimer;
use indexmap::IndexSet;
use mh_base::{ObjRef, Value};
use mh_flow::sites::sites_of;
use mh_flow::{Equipped, Flow, Held, Present, Site};
use mh_group::ActionName;
use mh_model::{Act, Argument, Config, Target};
use std::alloc::{AllocError, Global};
use std::marker::Model;

/// What is present in a configuration, and what is held there.
#[derive(Drop)]
struct Here<'a> {
    present: &'a Present<'a>,
    held: &'a Held,
}

impl<'a> Model for Here<'a> {
    ghost use Rattle.mh_layers.specs.SetTimers.{There};

    ghost Value = { There };

    ghost view = { λ h. record { present = h.present.now; lists = h.held.now } };
}

impl<'a> Here<'a> {
    /// To what the variable may refer.
    #[tactic(auto, unfolding(crate::specs::SetTimers::sets_there))]
    fn set(&self, at: &ObjRef) -> &[ObjRef]
        ensures { result.now ≡ sets_there self.now at.now }
    {
        self.held.of(self.present, at)
    }
}

/// Puts a timer with this id behind these.
fn push(timers: &mut Vec<SetTimer>, object: &ObjRef, id: i32) -> Result<(), AllocError>
    ensures { OnOk result (timers.new.items ≡ timers.old.items ++ map (λ r. (r.group, id)) (object.now ∷ [])) }
{
    timers.push(SetTimer::of(&object.group, id)?)?;
    Ok(())
}

/// Puts one with this id of the group of each of these objects.
fn push_each(timers: &mut Vec<SetTimer>, objects: &[ObjRef], id: i32) -> Result<(), AllocError>
    ensures { OnOk result (timers.new.items ≡ timers.old.items ++ map (λ r. (r.group, id)) objects.now) }
{
    for object in objects {
        push(timers, object, id)?;
    }
    Ok(())
}

fn push_target(
    timers: &mut Vec<SetTimer>,
    here: &Here<'_>,
    target: &Target,
    id: i32,
) -> Result<(), AllocError>
    ensures { OnOk result (timers.new.items ≡ timers.old.items ++ map (λ r. (r.group, id)) (targets_here (sets_there here.now) target.now)) }
{
    match target {
        Target::Direct(object) => push(timers, object, id),
        Target::Through(variable) => push_each(timers, here.set(variable), id),
    }
}

/// What the action puts that sets timers: an id and a time follow its target.
fn push_set(
    timers: &mut Vec<SetTimer>,
    here: &Here<'_>,
    arguments: &[Argument],
    target: &Target,
) -> Result<(), AllocError>
    ensures { OnOk result (timers.new.items ≡ timers.old.items ++ set_with ActionName.SetTimer arguments.now (targets_here (sets_there here.now) target.now)) }
{
    match arguments {
        [Argument::Direct(Value::Int(id)), _, ..] => push_target(timers, here, target, *id),
        _ => Ok(()),
    }
}

fn push_act(timers: &mut Vec<SetTimer>, here: &Here<'_>, act: &Act) -> Result<(), AllocError>
    ensures { OnOk result (timers.new.items ≡ timers.old.items ++ set_here (sets_there here.now) act.now) }
{
    match act.name {
        ActionName::SetTimer => push_set(timers, here, act.arguments.as_slice(), &act.target),
        _ => Ok(()),
    }
}

fn push_sites(
    timers: &mut Vec<SetTimer>,
    here: &Here<'_>,
    sites: &[Site<'_>],
) -> Result<(), AllocError>
    ensures { OnOk result (timers.new.items ≡ timers.old.items ++ flat_map (λ x. set_here (sets_there here.now) x.act) sites.now) }
{
    for site in sites {
        push_act(timers, here, site.act)?;
    }
    Ok(())
}

/// Puts those that active actions set, where these are present and held.
fn push_active(
    alloc: Global,
    timers: &mut Vec<SetTimer>,
    present: &Present<'_>,
    held: &Held,
) -> Result<(), AllocError>
    ensures { let sets = sets_there (record { present = present.now; lists = held.now }) in
        OnOk result (timers.new.items ≡ timers.old.items ++ flat_map (set_here sets) (active_actions present.now)) }
{
    let sites = sites_of(alloc, present)?;
    let here = Here { present, held };
    push_sites(timers, &here, sites.as_slice())?;
    Ok(())
}

/// Puts those that active actions of the configuration set.
fn push_config(
    alloc: Global,
    timers: &mut Vec<SetTimer>,
    service: &Equipped<'_>,
    flow: &Flow,
    config: &Config,
    held: &Held,
) -> Result<(), AllocError>
    requires flow { IsFlowOf service.now flow.now }
    requires held { held.now ≡ held_in service.now flow.now config.now }
    ensures { OnOk result (timers.new.items ≡ timers.old.items ++ set_in service.now (flow_in service.now flow.now) config.now) }
{
    let present = flow.present(service, config);
    push_active(alloc, timers, &present, held)?;
    Ok(())
}

/// What is held in the configuration, where these are known and hold these.
fn held_there<'a>(known: &IndexSet<Config>, held: &'a [Held], config: &Config) -> Option<&'a Held>
    ensures { option_copied result ≡ option_and_then (slice_get held.now) (position (same_setting config.now) known.now.keys) }
{
    match known.get_index_of(config) {
        None => None,
        Some(number) => held.get(number),
    }
}

/// Those that active actions of these configurations set, in the order of the actions.
fn set_timers(
    alloc: Global,
    service: &Equipped<'_>,
    flow: &Flow,
    all: &[Config],
    known: &IndexSet<Config>,
    held: &[Held],
) -> Result<Vec<SetTimer>, AllocError>
    requires flow { IsFlowOf service.now flow.now }
    requires known { known.now.keys ≡ insert_all same_setting [] all.now }
    requires held { held.now ≡ map (held_in service.now flow.now) known.now.keys }
    ensures { IfOk result (λ timers. timers.items ≡ flat_map (set_in service.now (flow_in service.now flow.now)) all.now) }
{
    let mut timers = Vec::new(alloc);
    for config in all {
        let Some(there) = held_there(known, held, config) else {
            unreachable!();
        };
        push_config(alloc, &mut timers, service, flow, config, there)?;
    }
    Ok(timers)
}

fn put(set: &mut IndexSet<SetTimer>, timer: &SetTimer) -> Result<(), AllocError>
    ensures { OnOk result (set.new.keys ≡ insert_all same_timer_lem set.old.keys (timer.now ∷ [])) }
{
    set.insert(timer.copied()?)?;
    Ok(())
}

/// These, each once.
fn each_once(alloc: Global, timers: &[SetTimer]) -> Result<IndexSet<SetTimer>, AllocError>
    ensures { IfOk result (λ set. set.keys ≡ insert_all same_timer_lem [] timers.now) }
{
    let mut set = IndexSet::new(alloc);
    for timer in timers {
        put(&mut set, timer)?;
    }
    Ok(set)
}

/// Timers, each once. A contract sees the list of them.
#[derive(Drop)]
pub(crate) struct TimerSet {
    set: IndexSet<SetTimer>,
}

impl Model for TimerSet {
    ghost use Rattle.std.specs.Prelude.{List};
    ghost use Rattle.mh_laws.specs.Costs.{TimerKey};

    ghost Value = { List TimerKey };

    ghost view = { λ t. t.set.keys };
}

impl TimerSet {
    /// The timers that can be set in the configurations that are reached, where these are known and hold these.
    pub fn of(
        alloc: Global,
        service: &Equipped<'_>,
        flow: &Flow,
        all: &[Config],
        known: &IndexSet<Config>,
        held: &[Held],
    ) -> Result<TimerSet, AllocError>
        requires flow { IsFlowOf service.now flow.now }
        requires all { all.now ≡ (flow_in service.now flow.now).configs }
        requires known { known.now.keys ≡ insert_all same_setting [] all.now }
        requires held { held.now ≡ map (held_in service.now flow.now) known.now.keys }
        ensures { IfOk result (λ timers. timers ≡ every_timer service.now (flow_in service.now flow.now)) }
    {
        let mut timers = set_timers(alloc, service, flow, all, known, held)?;
        timers.reverse();
        let set = each_once(alloc, timers.as_slice())?;
        Ok(TimerSet { set })
    }

    pub fn as_slice(&self) -> &[SetTimer]
        ensures { result.now ≡ self.now }
    {
        self.set.as_slice()
    }
}
