//! `Alive`: what may come to be in runs of a service.
//!
//! Promise: what is in none of its sets never runs, never comes, is never put to work and never hears, where the service is
//! accepted.
ghost use Rattle.std.specs.Prelude.{◌≡◌, ◌++◌, true, [], IfOk, OnOk};
ghost use Rattle.std.specs.List.{flat_map};
ghost use Rattle.std.specs.Option.{option_copied};
ghost use Rattle.indexmap.specs.IndexSet.{insert_all};
ghost use Rattle.mh_laws.specs.Acceptable.{IsAcceptableBy};
ghost use Rattle.mh_laws.specs.Budget.{IsAccepted};
ghost use Rattle.mh_never.specs.Firing.{IsUnput};
ghost use Rattle.mh_model.specs.Reference.{same_key};
ghost use Rattle.mh_flow.specs.Solved.{IsFlowOf, flow_in};
ghost use Rattle.mh_alive.specs.Alive as spec;
ghost use Rattle.mh_alive.specs.Hearing.{all_timers};
ghost use Rattle.mh_alive.specs.Puts.{all_puts, web_with};
ghost use Rattle.mh_alive.specs.Alive.{InEachRun, IsAliveOf, IsDeafAt, IsStill, IsUnsaid};

use crate::gathering::{Gathered, gather};
use crate::hearing::hearers_of;
use crate::puts::web_of;
use crate::sendings::{Sending, may_say};
use crate::settings::{Setting, timers_of};
use crate::tellings::Telling;
use indexmap::IndexSet;
use mh_base::{EventType, ObjRef, Value, both};
use mh_flow::{Equipped, Flow};
use std::alloc::{AllocError, Global};
use std::marker::Model;

/// What may come to be in runs of a service.
#[derive(Drop)]
pub struct Alive {
    runners: IndexSet<ObjRef>,
    sent: IndexSet<Sending>,
    puts: IndexSet<ObjRef>,
    hearers: IndexSet<ObjRef>,
}

impl Model for Alive {
    ghost use Rattle.mh_alive.specs.Alive.{Alive as AliveValue};

    ghost Value = { AliveValue };

    ghost view = { λ a. record { runners = a.runners.keys; sent = a.sent.keys; puts = a.puts.keys; hearers = a.hearers.keys } };
}

/// What may come to be in runs of the service, by its flow.
pub fn alive_of(alloc: Global, service: &Equipped<'_>, flow: &Flow) -> Result<Alive, AllocError>
    requires { IsFlowOf service.now flow.now }
    ensures { IfOk result (IsAliveOf service.now (flow_in service.now flow.now)) }
{
    let gathered = gather(alloc, service, flow)?;
    let alive = alive_with(alloc, service, gathered)?;
    Ok(alive)
}

/// What is made of what was gathered.
fn alive_with(
    alloc: Global,
    service: &Equipped<'_>,
    gathered: Gathered,
) -> Result<Alive, AllocError>
    ensures { IfOk result (λ alive. alive ≡ spec.alive_with service.now gathered) }
{
    let Gathered {
        runners,
        sent,
        told,
        settings,
        registers,
    } = gathered;
    let puts = puts_of(alloc, service, told, settings.as_slice());
    let hearers = hearers_of(alloc, service, &sent, &registers, settings);
    drop(registers);
    let made = both(hearers, puts)?;
    Ok(Alive {
        runners,
        sent,
        puts: made.1,
        hearers: made.0,
    })
}

/// The links that may be put to work by what is told and by timers that are set.
fn puts_of(
    alloc: Global,
    service: &Equipped<'_>,
    told: IndexSet<Telling>,
    settings: &[Setting],
) -> Result<IndexSet<ObjRef>, AllocError>
    ensures { IfOk result (λ puts. puts.keys
        ≡ insert_all same_key [] (all_puts service.now (web_with told.keys (all_timers settings.now)))) }
{
    let timers = timers_of(alloc, settings)?;
    let web = web_of(alloc, told, timers)?;
    let puts = web.puts(alloc, service)?;
    Ok(puts)
}

impl Alive {
    /// Whether the object never runs.
    pub fn never_runs(&self, at: &ObjRef) -> bool
        ensures exact { result ≡ spec.never_runs self.now at.now }
        ensures law { result ≡ true → (v w : _) → IsAliveOf v w self.now → IsAcceptableBy v w →
            InEachRun v (IsStill at.now) }
    {
        self.is_idle(at)
    }

    fn is_idle(&self, at: &ObjRef) -> bool
        ensures { result ≡ spec.never_runs self.now at.now }
    {
        !self.runners.contains(at)
    }

    /// Whether no event of this type ever comes with the data, of whatever object, as an event of its own or as what a key or
    /// the engine's number is told by.
    pub fn never_says(&self, kind: EventType, value: Option<&Value>) -> bool
        ensures exact { result ≡ spec.never_says self.now kind (option_copied value.entry) }
        ensures law { result ≡ true → (v w : _) → IsAliveOf v w self.now → IsAcceptableBy v w →
            InEachRun v (IsUnsaid kind (option_copied value.entry)) }
    {
        self.is_unsaid(kind, value)
    }

    fn is_unsaid(&self, kind: EventType, value: Option<&Value>) -> bool
        ensures { result ≡ spec.never_says self.now kind (option_copied value.entry) }
    {
        !may_say(&self.sent, kind, value)
    }

    /// Whether the link at the reference is never put to work, unless it does nothing: no event that may be dealt with next fires
    /// it, be it one that will be emitted or that waits, or, whether posted or not, a key that the register of the scene lets
    /// through or a number of the engine.
    pub fn never_put(&self, at: &ObjRef) -> bool
        ensures exact { result ≡ spec.never_put self.now at.now }
        ensures law { result ≡ true → (most v : _) → (k : IsAccepted most v) → IsAliveOf v k.flow self.now →
            InEachRun v (IsUnput at.now) }
    {
        self.is_unput(at)
    }

    fn is_unput(&self, at: &ObjRef) -> bool
        ensures { result ≡ spec.never_put self.now at.now }
    {
        !self.puts.contains(at)
    }

    /// Whether the link never hears what it waits for: no timer that it waits for is ever set, or no register of the scene lets its
    /// key through.
    pub fn never_hears(&self, at: &ObjRef) -> bool
        ensures exact { result ≡ spec.never_hears self.now at.now }
        ensures law { result ≡ true → (most v : _) → (k : IsAccepted most v) → IsAliveOf v k.flow self.now →
            InEachRun v (IsDeafAt v at.now) }
    {
        self.is_deaf(at)
    }

    fn is_deaf(&self, at: &ObjRef) -> bool
        ensures { result ≡ spec.never_hears self.now at.now }
    {
        !self.hearers.contains(at)
    }
}
