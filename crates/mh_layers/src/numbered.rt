//! `NumberedService`: a service and its flow as they are read for the layers, with numbers for what its nodes are told by.
//!
//! Promise: configurations, objects and values are found by their numbers, and numbers by them; numbers and names of nodes
//! are one for the other.

pub(crate) mod at;
pub(crate) mod effect_row;
pub(crate) mod effect_table;
pub(crate) mod named;
pub(crate) mod objects;
pub(crate) mod reached;
pub(crate) mod set_timer;
pub(crate) mod settings;
pub(crate) mod timers;
pub(crate) mod values;

ghost use Rattle.std.specs.Prelude.{◌≡◌, map, slice_get, position, ◌&&◌, filter, true, Some, IfOk};
ghost use Rattle.std.specs.Option.{option_copied};
ghost use Rattle.mh_model.specs.Configuration.{present};
ghost use Rattle.mh_model.specs.Service.{group_parts, part_at};
ghost use Rattle.mh_laws.specs.Costs.{effects};
ghost use Rattle.mh_flow.specs.Solved.{IsFlowOf};
ghost use Rattle.mh_layers.specs.Grouped.{has, is_plain};
ghost use Rattle.mh_layers.specs.CostNodes.{data_of, every_timer, waits_for};
ghost use Rattle.mh_layers.specs.Reading.{IsReading, NumbersAreNames, config_number, flow_read, has_object, heard_read, lists_read, object_named, object_number, place_among, same_setting, setting as spec_setting, settings, values_read};
ghost use Rattle.mh_model.specs.Variables.{same_value};

use crate::numbered::effect_row::EffectRow;
use crate::numbered::objects::Objects;
use crate::numbered::reached::Reached;
use crate::numbered::set_timer::SetTimer;
use crate::numbered::settings::{is_setting, setting};
use crate::numbered::values::Values;
use mh_base::{EventType, GroupName, ObjRef, Value, both};
use mh_flow::{Equipped, Flow, Held, Present};
use mh_model::{Config, FixedPart};
use std::alloc::{AllocError, Global};
use std::marker::Model;

/// A service and its flow as they are read for the layers.
#[derive(Drop)]
pub(crate) struct NumberedService<'a> {
    alloc: Global,
    service: &'a Equipped<'a>,
    flow: &'a Flow,
    reached: Reached,
    objects: Objects<'a>,
}

impl<'a> Model for NumberedService<'a> {
    ghost use Rattle.mh_layers.specs.Reading.{IsNumberedService, Reading};

    ghost Value = { Reading };

    ghost view = { λ n. record {
      service = n.service.now;
      flow = n.flow.now;
      listeners = n.objects.listeners;
    } };

    ghost invariant = { λ n.
        IsNumberedService (record { service = n.service.now; flow = n.flow.now; listeners = n.objects.listeners }) n.reached.configs.all.items n.reached.configs.once.keys n.reached.held.items n.reached.timers n.objects.effects };
}

fn value_place(values: &Values, value: &Value) -> usize
    ensures { result ≡ place_among (same_value value.now) values.now }
{
    match values.number_of(value) {
        None => values.len(),
        Some(number) => number,
    }
}

impl<'a> NumberedService<'a> {
    /// The numbered service of a service and its flow.
    pub fn of(
        alloc: Global,
        service: &'a Equipped<'a>,
        flow: &'a Flow,
    ) -> Result<NumberedService<'a>, AllocError>
        requires { IsFlowOf service.now flow.now }
        ensures service { IfOk result (λ numbered_service. numbered_service.service ≡ service.now) }
        ensures flow { IfOk result (λ numbered_service. numbered_service.flow ≡ flow.now) }
        ensures reading { IfOk result (λ numbered_service. IsReading numbered_service) }
    {
        let reached = Reached::of(alloc, service, flow);
        let objects = Objects::of(alloc, service);
        let (reached, objects) = both(reached, objects)?;
        Ok(NumberedService {
            alloc,
            service,
            flow,
            reached,
            objects,
        })
    }

    /// That what is read is so is known.
    pub fn read(&self)
        ensures { IsReading self.now }
    {
        let _ = self.reached.configs.once.len();
    }

    pub fn allocator(&self) -> Global {
        self.alloc
    }

    /// The service.
    pub fn service(&self) -> &'a Equipped<'a>
        ensures { result.now ≡ self.now.service }
    {
        self.service
    }

    /// The configurations that are reached, in the order of the flow.
    pub fn configs(&self) -> &[Config]
        ensures { result.now ≡ (flow_read self.now).configs }
    {
        &self.reached.configs.all
    }

    /// The configuration with this number.
    pub fn config_at(&self, number: usize) -> Option<&Config>
        ensures config { option_copied result ≡ slice_get (settings self.now) number }
        ensures reading { IsReading self.now }
    {
        self.reached.configs.once.get_index(number)
    }

    /// The number of the configuration, if it is reached.
    pub fn number_of(&self, config: &Config) -> Option<usize>
        ensures { result ≡ position (same_setting config.now) (settings self.now) }
    {
        self.reached.configs.once.get_index_of(config)
    }

    /// The number of the configuration; behind all, if it is not reached.
    pub fn config_number(&self, config: &Config) -> usize
        ensures { result ≡ config_number self.now config.now }
    {
        match self.number_of(config) {
            None => self.reached.configs.once.len(),
            Some(number) => number,
        }
    }

    /// The timers that can be set, each once.
    pub fn timers(&self) -> &[SetTimer]
        ensures { result.now ≡ every_timer self.now.service (flow_read self.now) }
    {
        self.reached.timers.as_slice()
    }

    /// The number of this application with this scene or none, if it is reached.
    pub fn place_of(&self, app: &GroupName, scene: Option<&GroupName>) -> Option<usize>
        ensures { let c = spec_setting app.now (option_copied scene.entry) in
            result ≡ position (same_setting c) (settings self.now) }
    {
        match setting(app, scene) {
            Ok(config) => self.number_of(&config),
            // without memory for a copy, one by one
            Err(_) => self.search(app, scene),
        }
    }

    fn search(&self, app: &GroupName, scene: Option<&GroupName>) -> Option<usize>
        ensures { let c = spec_setting app.now (option_copied scene.entry) in
            result ≡ position (same_setting c) (settings self.now) }
    {
        let configs = self.reached.configs.once.as_slice();
        configs
            .iter()
            .position(|config| is_setting(app, scene, config))
    }

    /// What is held in the configuration with this number.
    pub fn held_at(&self, number: usize) -> Option<&Held>
        ensures { option_copied result ≡ slice_get (lists_read self.now) number }
    {
        self.reached.held.get(number)
    }

    /// What is present in the configuration.
    pub fn present<'b>(&'b self, config: &'b Config) -> Present<'b>
        ensures { result ≡ present self.now.service config.now }
    {
        self.flow.present(self.service, config)
    }

    /// The object with this number.
    pub fn object_at(&self, number: usize) -> Option<&ObjRef>
        ensures { option_copied result ≡ slice_get self.now.listeners.objects number }
    {
        self.objects.listeners.at(number)
    }

    /// The number of the object.
    pub fn object_number(&self, at: &ObjRef) -> usize
        ensures { result ≡ object_number self.now at.now }
    {
        match self.objects.listeners.number_of(at) {
            None => self.objects.listeners.len(),
            Some(number) => number,
        }
    }

    /// The effects of the object with this number: those of what is present under its reference, whatever the configuration.
    pub fn effects(&self, object: usize) -> &EffectRow<'a>
        requires { has_object self.now object ≡ true }
        ensures { let r = self.now in (c : _) (p : _)
            → part_at (object_named r object) (present r.service c) ≡ Some p → result.now ≡ effects p }
    {
        match self.objects.effects.at(object) {
            None => unreachable!(),
            Some(effects) => effects,
        }
    }

    /// The data that links name which wait for such an event; nothing where none waits.
    pub fn values(&self, source: &ObjRef, kind: EventType) -> Option<&Values>
        ensures { option_copied result ≡ heard_read self.now source.now kind }
    {
        self.objects.listeners.values(source, kind)
    }

    /// The number of the value among those.
    pub fn value_number(&self, source: &ObjRef, kind: EventType, value: &Value) -> usize
        ensures { result ≡ place_among (same_value value.now) (values_read self.now source.now kind) }
    {
        match self.objects.listeners.values(source, kind) {
            None => 0,
            Some(values) => value_place(values, value),
        }
    }

    /// The links of the group that wait for such an event and have no data, in their order.
    pub fn plain_links(&self, group: &GroupName, source: &ObjRef, kind: EventType) -> &[FixedPart]
        ensures { let ps = group_parts self.now.service group.now in
            result.now ≡ filter (λ p. waits_for source.now kind p && is_plain (data_of p)) ps }
    {
        self.objects
            .listeners
            .plain_links(self.service, group, source, kind)
    }

    /// The links of the group that wait for such an event and have the value with this number, in their order.
    pub fn links_with(
        &self,
        group: &GroupName,
        source: &ObjRef,
        kind: EventType,
        value: usize,
    ) -> &[FixedPart]
        ensures { let ps = group_parts self.now.service group.now in
            (x : _) → slice_get (values_read self.now source.now kind) value ≡ Some x
            → result.now ≡ filter (λ p. waits_for source.now kind p && has same_value x (data_of p)) ps }
    {
        self.objects
            .listeners
            .links_with(self.service, group, source, kind, value)
    }
}

/// Numbers and names of nodes are one for the other.
pub fn numbers_are_names()
    ensures { NumbersAreNames }
{}
