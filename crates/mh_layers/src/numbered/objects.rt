//! `Objects`: what is read of the objects of a service: who listens to them, and their effects.
//!
//! Promise: each that has a number has its effects under it.
ghost use Rattle.std.specs.Prelude.{◌≡◌, map, IfOk};
ghost use Rattle.mh_layers.specs.Listening.{IsListening};
ghost use Rattle.mh_layers.specs.NumberedEffects.{effects_at};

use crate::listening::Listeners;
use crate::numbered::effect_table::EffectTable;
use mh_base::both;
use mh_flow::Equipped;
use std::alloc::{AllocError, Global};

/// Who listens to the objects of a service, and their effects.
#[derive(Drop)]
pub(crate) struct Objects<'a> {
    pub listeners: Listeners,
    pub effects: EffectTable<'a>,
}

impl<'a> Objects<'a> {
    /// What is read of the objects of the service.
    pub fn of(alloc: Global, service: &Equipped<'a>) -> Result<Objects<'a>, AllocError>
        ensures listening { IfOk result (λ objects. IsListening service.now objects.listeners) }
        ensures effects { IfOk result (λ objects. objects.effects ≡ map (effects_at service.now) objects.listeners.objects) }
    {
        let listeners = Listeners::of(alloc, service)?;
        let effects = EffectTable::of(alloc, service, listeners.objects());
        let (listeners, effects) = both(Ok(listeners), effects)?;
        Ok(Objects { listeners, effects })
    }
}
