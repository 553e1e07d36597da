//! Which links may be put to work.
//!
//! Promise: each function answers, or gathers, what the definition that its clause names says.
ghost use Rattle.std.specs.Prelude.{◌≡◌, ◌&&◌, ◌∷◌, [], IfOk, OnOk};
ghost use Rattle.std.specs.List.{flat_map, list_any};
ghost use Rattle.std.specs.Option.{option_copied};
ghost use Rattle.indexmap.specs.IndexSet.{insert_all};
ghost use Rattle.mh_model.specs.Reference.{same_key};
ghost use Rattle.mh_alive.specs.Puts as spec;
ghost use Rattle.mh_alive.specs.Tellings.{same_telling, telling as telling_lem};
ghost use Rattle.mh_alive.specs.Timers.{is_timed};

use crate::references::put;
use crate::set_timers::{TimerTable, timers_with};
use crate::tellings::{SetTimer, Telling, one_telling};
use indexmap::IndexSet;
use mh_base::{EventType, ObjRef, Value};
use mh_flow::Equipped;
use mh_group::{Attribute, Class};
use mh_model::held::{as_event, as_value};
use mh_model::{Fixed, FixedPart};
use std::alloc::{AllocError, Global};
use std::marker::Model;

/// What may come of which objects, and the timers that can be set.
#[derive(Drop)]
pub(crate) struct Web {
    pub told: IndexSet<Telling>,
    pub timers: TimerTable,
}

impl Model for Web {
    ghost use Rattle.mh_alive.specs.Puts.{Web as WebValue};

    ghost Value = { WebValue };

    ghost view = { λ w. record { told = w.told.keys; timers = w.timers } };
}

/// What may come, where this is told and these timers are set.
pub(crate) fn web_of(
    alloc: Global,
    told: IndexSet<Telling>,
    timers: IndexSet<SetTimer>,
) -> Result<Web, AllocError>
    ensures { IfOk result (λ web. web ≡ spec.web_with told.keys timers.keys) }
{
    let timers = timers_with(alloc, timers)?;
    Ok(Web { told, timers })
}

/// Whether events of this type are counted on of each object that can have them.
fn comes_always(at: &ObjRef, kind: EventType) -> bool
    ensures { result ≡ spec.comes_always at.now kind }
{
    match kind {
        EventType::IsAvailable
        | EventType::ContentAvailable
        | EventType::IsRunning
        | EventType::IsStopped => true,
        EventType::UserInput | EventType::EngineEvent => at.number == 0,
        _ => false,
    }
}

fn is_timer(kind: EventType) -> bool
    ensures { result ≡ spec.is_timer kind }
{
    matches!(kind, EventType::TimerFired)
}

impl Web {
    fn is_told(&self, at: &ObjRef, kind: EventType) -> Result<bool, AllocError>
        ensures { IfOk result (λ told. told ≡ list_any (same_telling (telling_lem at.now kind)) self.now.told) }
    {
        let wanted = one_telling(at, kind)?;
        Ok(self.told.contains(&wanted))
    }

    fn is_timer_of(
        &self,
        at: &ObjRef,
        kind: EventType,
        value: Option<&Value>,
    ) -> Result<bool, AllocError>
        ensures { IfOk result (λ timed. timed
            ≡ (spec.is_timer kind && is_timed self.now.timers at.now (option_copied value.entry))) }
    {
        if is_timer(kind) {
            self.timers.is_timed(at, value)
        } else {
            Ok(false)
        }
    }

    /// Whether an event of this type may come of the object, for a link that names this data.
    fn may_come(
        &self,
        at: &ObjRef,
        kind: EventType,
        value: Option<&Value>,
    ) -> Result<bool, AllocError>
        ensures { IfOk result (λ comes. comes ≡ spec.may_come self.now at.now kind (option_copied value.entry)) }
    {
        if comes_always(at, kind) {
            return Ok(true);
        }
        if self.is_told(at, kind)? {
            return Ok(true);
        }
        self.is_timer_of(at, kind, value)
    }

    fn may_hear(
        &self,
        source: Option<&Value>,
        kind: Option<EventType>,
        value: Option<&Value>,
    ) -> Result<bool, AllocError>
        ensures { IfOk result (λ hears. hears
            ≡ spec.may_hear self.now (option_copied source.entry) kind (option_copied value.entry)) }
    {
        match (source, kind) {
            (Some(Value::Object(at)), Some(kind)) => self.may_come(at, kind, value),
            _ => Ok(false),
        }
    }

    /// Whether the link may be put to work.
    fn is_put(&self, part: &Fixed) -> Result<bool, AllocError>
        ensures { IfOk result (λ puts. puts ≡ spec.is_put self.now part.now) }
    {
        if !matches!(part.class, Class::Link) {
            return Ok(false);
        }
        self.may_hear(
            as_value(part.properties.get(Attribute::EventSource)),
            as_event(part.properties.get(Attribute::EventType)),
            as_value(part.properties.get(Attribute::EventData)),
        )
    }

    fn put_part(&self, puts: &mut IndexSet<ObjRef>, part: &Fixed) -> Result<(), AllocError>
        ensures { OnOk result (puts.new.keys
            ≡ insert_all same_key puts.old.keys (spec.puts_of self.now (part.now ∷ []))) }
    {
        if self.is_put(part)? {
            put(puts, &part.key)?;
        }
        Ok(())
    }

    /// Puts in those of these objects.
    fn put_parts(&self, puts: &mut IndexSet<ObjRef>, parts: &[FixedPart]) -> Result<(), AllocError>
        ensures { OnOk result (puts.new.keys
            ≡ insert_all same_key puts.old.keys (spec.puts_of self.now parts.now)) }
    {
        for part in parts {
            self.put_part(puts, part.get())?;
        }
        Ok(())
    }

    /// The links of the service that may be put to work.
    pub fn puts(
        &self,
        alloc: Global,
        service: &Equipped<'_>,
    ) -> Result<IndexSet<ObjRef>, AllocError>
        ensures { IfOk result (λ puts. puts.keys
            ≡ insert_all same_key [] (spec.all_puts service.now self.now)) }
    {
        let mut puts = IndexSet::new(alloc);
        for parts in service.groups().values() {
            self.put_parts(&mut puts, parts.as_slice())?;
        }
        Ok(puts)
    }
}
