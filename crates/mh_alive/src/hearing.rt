//! Which links may hear a timer or a key.
//!
//! Promise: each function answers what the definition that its clause names says.
ghost use Rattle.std.specs.Prelude.{◌==◌, ◌≡◌, ◌∷◌, [], filter, map, not, IfOk, OnOk};
ghost use Rattle.std.specs.Option.{option_copied};
ghost use Rattle.indexmap.specs.IndexSet.{insert_all};
ghost use Rattle.mh_base.specs.Event.{number_of};
ghost use Rattle.mh_model.specs.Reference.{same_key};
ghost use Rattle.mh_alive.specs.Hearing as spec;
ghost use Rattle.mh_alive.specs.Tellings.{same_timer};
ghost use Rattle.mh_alive.specs.Timers.{timers_with as timers_with_lem};

use crate::references::put;
use crate::registers::{Register, is_let};
use crate::sendings::Sending;
use crate::set_timers::{TimerTable, timers_with};
use crate::settings::Setting;
use crate::tellings::SetTimer;
use indexmap::IndexSet;
use mh_base::{EventType, ObjRef, Value};
use mh_flow::Equipped;
use mh_group::{Attribute, Class};
use mh_model::held::{as_event, as_value};
use mh_model::{Fixed, FixedPart};
use std::alloc::{AllocError, Global};
use std::marker::Model;

/// What is sent, which registers scenes may have, and which timers are there.
#[derive(Drop)]
struct Ears<'a> {
    sent: &'a IndexSet<Sending>,
    registers: &'a IndexSet<Register>,
    timers: TimerTable,
}

impl<'a> Model for Ears<'a> {
    ghost use Rattle.mh_alive.specs.Hearing.{Ears as EarsValue};

    ghost Value = { EarsValue };

    ghost view = { λ e. record { sent = e.sent.now.keys; registers = e.registers.now.keys; timers = e.timers } };
}

fn is_of(sending: &Sending, kind: EventType) -> bool
    ensures { result ≡ (sending.now.kind == number_of kind) }
{
    sending.kind == kind.number()
}

impl<'a> Ears<'a> {
    /// Whether an action sends an event of this type.
    fn sends(&self, kind: EventType) -> bool
        ensures { result ≡ spec.sends self.now.sent kind }
    {
        self.sent
            .as_slice()
            .iter()
            .any(|sending| is_of(sending, kind))
    }

    fn hears_timer(&self, at: &ObjRef, value: Option<&Value>) -> Result<bool, AllocError>
        ensures { IfOk result (λ hears. hears ≡ spec.may_sound self.now at.now EventType.TimerFired (option_copied value.entry)) }
    {
        if self.sends(EventType::TimerFired) {
            return Ok(true);
        }
        self.timers.is_timed(at, value)
    }

    fn hears_key(&self, at: &ObjRef, value: Option<&Value>) -> Result<bool, AllocError>
        ensures { IfOk result (λ hears. hears ≡ spec.may_sound self.now at.now EventType.UserInput (option_copied value.entry)) }
    {
        if self.sends(EventType::UserInput) {
            return Ok(true);
        }
        is_let(self.registers, at, value)
    }

    fn may_sound(
        &self,
        at: &ObjRef,
        kind: EventType,
        value: Option<&Value>,
    ) -> Result<bool, AllocError>
        ensures { IfOk result (λ hears. hears ≡ spec.may_sound self.now at.now kind (option_copied value.entry)) }
    {
        match kind {
            EventType::TimerFired => self.hears_timer(at, value),
            EventType::UserInput => self.hears_key(at, value),
            _ => Ok(true),
        }
    }

    fn may_listen(
        &self,
        source: Option<&Value>,
        kind: Option<EventType>,
        value: Option<&Value>,
    ) -> Result<bool, AllocError>
        ensures { IfOk result (λ hears. hears
            ≡ spec.may_listen self.now (option_copied source.entry) kind (option_copied value.entry)) }
    {
        match (source, kind) {
            (Some(Value::Object(at)), Some(kind)) => self.may_sound(at, kind, value),
            _ => Ok(false),
        }
    }

    /// Whether it is a link that may hear what it waits for.
    fn is_hearing(&self, part: &Fixed) -> Result<bool, AllocError>
        ensures { IfOk result (λ hears. hears ≡ spec.is_hearing self.now part.now) }
    {
        if !matches!(part.class, Class::Link) {
            return Ok(false);
        }
        self.may_listen(
            as_value(part.properties.get(Attribute::EventSource)),
            as_event(part.properties.get(Attribute::EventType)),
            as_value(part.properties.get(Attribute::EventData)),
        )
    }

    fn put_part(&self, hearers: &mut IndexSet<ObjRef>, part: &Fixed) -> Result<(), AllocError>
        ensures { OnOk result (hearers.new.keys
            ≡ insert_all same_key hearers.old.keys (spec.hearing_of self.now (part.now ∷ []))) }
    {
        if self.is_hearing(part)? {
            put(hearers, &part.key)?;
        }
        Ok(())
    }

    /// Puts in those of these objects that may.
    fn put_parts(
        &self,
        hearers: &mut IndexSet<ObjRef>,
        parts: &[FixedPart],
    ) -> Result<(), AllocError>
        ensures { OnOk result (hearers.new.keys
            ≡ insert_all same_key hearers.old.keys (spec.hearing_of self.now parts.now)) }
    {
        for part in parts {
            self.put_part(hearers, part.get())?;
        }
        Ok(())
    }

    /// The links of the service that may.
    fn hearers(&self, alloc: Global, service: &Equipped<'_>) -> Result<IndexSet<ObjRef>, AllocError>
        ensures { IfOk result (λ hearers. hearers.keys ≡ spec.hearers service.now self.now) }
    {
        let mut hearers = IndexSet::new(alloc);
        for parts in service.groups().values() {
            self.put_parts(&mut hearers, parts.as_slice())?;
        }
        Ok(hearers)
    }
}

/// Whether the action that sets the timer may be done.
fn may_set(hearers: &IndexSet<ObjRef>, setting: &Setting) -> bool
    ensures { result ≡ spec.may_set hearers.now.keys setting.now }
{
    !setting.is_link || hearers.contains(&setting.by)
}

/// Puts each setting where it belongs: the timers of those that may be done, and the others, in their order.
fn parted(
    alloc: Global,
    hearers: &IndexSet<ObjRef>,
    settings: Vec<Setting>,
) -> Result<(Vec<SetTimer>, Vec<Setting>), AllocError>
    ensures now { IfOk result (λ x. x.0.items ≡ map (λ s. s.timer) (filter (spec.may_set hearers.now.keys) settings.items)) }
    ensures later { IfOk result (λ x. x.1.items ≡ filter (λ s. not (spec.may_set hearers.now.keys s)) settings.items) }
{
    let mut now = Vec::new(alloc);
    let mut later = Vec::new(alloc);
    for setting in settings {
        if may_set(hearers, &setting) {
            now.push(setting.timer)?;
        } else {
            later.push(setting)?;
        }
    }
    Ok((now, later))
}

/// The timers that are set elsewhere than in the effects of links, and the settings of links.
fn outer(
    alloc: Global,
    settings: Vec<Setting>,
) -> Result<(IndexSet<SetTimer>, Vec<Setting>), AllocError>
    ensures timers { IfOk result (λ x. x.0.keys ≡ spec.outer_timers settings.items) }
    ensures links { IfOk result (λ x. x.1.items ≡ spec.by_links settings.items) }
{
    let mut timers = IndexSet::new(alloc);
    let mut links = Vec::new(alloc);
    for setting in settings {
        if setting.is_link {
            links.push(setting)?;
        } else {
            timers.insert(setting.timer)?;
        }
    }
    Ok((timers, links))
}

/// These timers and further ones.
fn with_timers(
    alloc: Global,
    timers: TimerTable,
    further: Vec<SetTimer>,
) -> Result<TimerTable, AllocError>
    ensures { IfOk result (λ more. more ≡ timers_with_lem (insert_all same_timer timers.set further.items)) }
{
    let mut set = timers.set;
    for timer in further {
        set.insert(timer)?;
    }
    timers_with(alloc, set)
}

/// The links that may hear a timer or a key, where this is sent, scenes may have these registers, and timers are set so: round by
/// round, until no more timers come.
pub(crate) fn hearers_of(
    alloc: Global,
    service: &Equipped<'_>,
    sent: &IndexSet<Sending>,
    registers: &IndexSet<Register>,
    settings: Vec<Setting>,
) -> Result<IndexSet<ObjRef>, AllocError>
    ensures { IfOk result (λ hearers. hearers.keys
        ≡ spec.hearers service.now (spec.settled service.now sent.now.keys registers.now.keys settings.items)) }
{
    let (timers, links) = outer(alloc, settings)?;
    let timers = timers_with(alloc, timers)?;
    let mut ears = Ears {
        sent,
        registers,
        timers,
    };
    let rounds = links.len();
    let mut links = links;
    for _ in 0..rounds {
        let hearers = ears.hearers(alloc, service)?;
        let (now, later) = parted(alloc, &hearers, links)?;
        if now.is_empty() {
            return Ok(hearers);
        }
        let timers = with_timers(alloc, ears.timers, now)?;
        ears = Ears {
            sent,
            registers,
            timers,
        };
        links = later;
    }
    ears.hearers(alloc, service)
}
