//! Which timers are set, and by what.
//!
//! Promise: what is gathered is what the definition that its clause names says.
ghost use Rattle.std.specs.Prelude.{◌≡◌, ◌++◌, ◌∷◌, [], filter, map, IfOk, OnOk};
ghost use Rattle.std.specs.List.{flat_map};
ghost use Rattle.mh_laws.specs.Active.{is_active};
ghost use Rattle.mh_alive.specs.Hearing as spec;
ghost use Rattle.indexmap.specs.IndexSet.{insert_all};
ghost use Rattle.mh_alive.specs.Tellings.{same_timer, set_to, timer as timer_lem};
ghost use Rattle.mh_alive.specs.There.{comes_to, sets_there};

use crate::tellings::SetTimer;
use crate::there::There;
use indexmap::IndexSet;
use mh_base::{ObjRef, Value};
use mh_flow::Site;
use mh_flow::sites::sites;
use mh_group::{ActionName, Class};
use mh_model::parts::group_ref;
use mh_model::{Act, Argument, Fixed, FixedPart};
use std::alloc::{AllocError, Global};

/// A timer that an action sets, and the object in whose effect the action stands.
#[derive(Drop)]
pub(crate) struct Setting {
    pub by: ObjRef,
    pub is_link: bool,
    pub timer: SetTimer,
}

/// The timer of the object's group with this id.
fn timer(at: &ObjRef, id: i32) -> Result<SetTimer, AllocError>
    ensures { IfOk result (λ one. one ≡ timer_lem at.now id) }
{
    let at = group_ref(&at.group)?;
    Ok(SetTimer { at, id })
}

fn setting_of(part: &Fixed, at: &ObjRef, id: i32) -> Result<Setting, AllocError>
    ensures { IfOk result (λ one. one ≡ spec.setting part.now (timer_lem at.now id)) }
{
    Ok(Setting {
        by: part.key.clone()?,
        is_link: matches!(part.class, Class::Link),
        timer: timer(at, id)?,
    })
}

/// Puts those with this id of the groups of these objects behind the others.
fn push_each(
    settings: &mut Vec<Setting>,
    part: &Fixed,
    objects: &[ObjRef],
    id: i32,
) -> Result<(), AllocError>
    ensures { OnOk result (settings.new.items
        ≡ settings.old.items ++ map (spec.setting part.now) (map (λ r. timer_lem r id) objects.now)) }
{
    for at in objects {
        settings.push(setting_of(part, at, id)?)?;
    }
    Ok(())
}

/// Puts those that an action sets with these arguments, done to these objects, behind the others.
fn push_set(
    settings: &mut Vec<Setting>,
    part: &Fixed,
    arguments: &[Argument],
    objects: &[ObjRef],
) -> Result<(), AllocError>
    ensures { OnOk result (settings.new.items
        ≡ settings.old.items ++ map (spec.setting part.now) (set_to ActionName.SetTimer arguments.now objects.now)) }
{
    match arguments {
        [Argument::Direct(Value::Int(id)), _, ..] => push_each(settings, part, objects, *id),
        _ => Ok(()),
    }
}

fn push_act(
    settings: &mut Vec<Setting>,
    there: &There<'_>,
    part: &Fixed,
    act: &Act,
) -> Result<(), AllocError>
    ensures { OnOk result (settings.new.items
        ≡ settings.old.items ++ spec.settings_by (sets_there there.now) part.now act.now) }
{
    match act.name {
        ActionName::SetTimer => push_set(
            settings,
            part,
            act.arguments.as_slice(),
            there.comes_to(&act.target),
        ),
        _ => Ok(()),
    }
}

fn push_sites(
    settings: &mut Vec<Setting>,
    there: &There<'_>,
    part: &Fixed,
    sites: &[Site<'_>],
) -> Result<(), AllocError>
    ensures { OnOk result (settings.new.items ≡ settings.old.items
        ++ flat_map (λ x. spec.settings_by (sets_there there.now) part.now x.act) sites.now) }
{
    for site in sites {
        push_act(settings, there, part, site.act)?;
    }
    Ok(())
}

/// Puts those that the effects of an object set behind the others.
fn push_part(
    alloc: Global,
    settings: &mut Vec<Setting>,
    there: &There<'_>,
    part: &Fixed,
) -> Result<(), AllocError>
    ensures { OnOk result (settings.new.items
        ≡ settings.old.items ++ spec.settings_of (sets_there there.now) part.now) }
{
    let own = sites(alloc, part)?;
    push_sites(settings, there, part, own.as_slice())
}

/// Puts those of the active among these objects behind the others.
pub(crate) fn push_parts(
    alloc: Global,
    settings: &mut Vec<Setting>,
    there: &There<'_>,
    parts: &[FixedPart],
) -> Result<(), AllocError>
    ensures { OnOk result (settings.new.items
        ≡ settings.old.items ++ spec.settings_among (sets_there there.now) there.now.present parts.now) }
{
    for part in parts {
        if there.present.is_active(part.get()) {
            push_part(alloc, settings, there, part.get())?;
        }
    }
    Ok(())
}

fn copied(timer: &SetTimer) -> Result<SetTimer, AllocError>
    ensures { IfOk result (λ copy. copy ≡ timer.now) }
{
    Ok(SetTimer {
        at: timer.at.clone()?,
        id: timer.id,
    })
}

fn put_timer(timers: &mut IndexSet<SetTimer>, timer: &SetTimer) -> Result<(), AllocError>
    ensures { OnOk result (timers.new.keys ≡ insert_all same_timer timers.old.keys (timer.now ∷ [])) }
{
    timers.insert(copied(timer)?)?;
    Ok(())
}

/// The timers that are set, each once.
pub(crate) fn timers_of(
    alloc: Global,
    settings: &[Setting],
) -> Result<IndexSet<SetTimer>, AllocError>
    ensures { IfOk result (λ timers. timers.keys ≡ spec.all_timers settings.now) }
{
    let mut timers = IndexSet::new(alloc);
    for setting in settings {
        put_timer(&mut timers, &setting.timer)?;
    }
    Ok(timers)
}
