//! `At`: a configuration of a numbered service.
//!
//! Promise: it answers what is present and held in the configuration, and the numbers of its nodes.
ghost use Rattle.std.specs.Prelude.{◌≡◌, ◌++◌, None, Some, position, slice_get, IfNone, IfOk, IfSome};
ghost use Rattle.std.specs.Option.{option_copied};
ghost use Rattle.mh_model.specs.Configuration.{present as present_there};
ghost use Rattle.mh_model.specs.Service.{is_there, part_at};
ghost use Rattle.mh_laws.specs.Active.{is_active};
ghost use Rattle.mh_laws.specs.Flow.{is_list_in};
ghost use Rattle.mh_laws.specs.Safe.{exchanged};
ghost use Rattle.mh_laws.specs.Ways.{Sure};
ghost use Rattle.mh_flow.specs.Sites.{sites_of as sites_of_lem};
ghost use Rattle.mh_layers.specs.CostNode.{Change, Enter, Leave};
ghost use Rattle.mh_layers.specs.declared.numbered_node.NumberedNode.TheVariants as node;
ghost use Rattle.mh_layers.specs.CostNodes.{hearing};
ghost use Rattle.mh_layers.specs.Reading.{IsReading, config_number, effect_node as effect_number, fired_node as fired_number, flow_read, hears_among, hears_told, lists_read, number as number_of, same_setting, settings, context_at};

use crate::numbered::NumberedService;
use crate::numbered::values::Values;
use crate::numbered_node::{Hears, NumberedNode};
use mh_base::{EventType, GroupName, ObjRef, Value};
use mh_flow::sites::sites_of;
use mh_flow::{Held, Present, Site};
use mh_group::Class;
use mh_model::{Config, Fixed, FixedPart};
use mh_prices::Told;
use std::alloc::AllocError;
use std::marker::Model;

/// A configuration of a numbered service.
#[derive(Drop)]
pub(crate) struct At<'a> {
    numbered_service: &'a NumberedService<'a>,
    number: usize,
    config: &'a Config,
    present: Present<'a>,
    held: &'a Held,
}

impl<'a> Model for At<'a> {
    ghost use Rattle.mh_layers.specs.Reading.{IsContext, CostContext};

    ghost Value = { CostContext };

    ghost view = { λ a. record { reading = a.numbered_service.now; config = a.config.now } };

    ghost invariant = { λ a.
        IsContext (record { reading = a.numbered_service.now; config = a.config.now }) a.number a.present a.held.now };
}

/// The number of the value among those that are named, as a hearing; where it is not named, that of events without data.
#[tactic(auto, using(crate::proofs::ContextLemmas::not_named, crate::proofs::ContextLemmas::named_there))]
fn hears_value(values: &Values, value: &Value) -> Hears
    ensures { result ≡ hears_among values.now (hearing values.now (Sure (Some value.now))) }
{
    match values.number_of(value) {
        None => Hears::Plain,
        Some(number) => Hears::With(number),
    }
}

/// The same where there may be no value.
fn hears_sure(values: &Values, value: Option<&Value>) -> Hears
    ensures { result ≡ hears_among values.now (hearing values.now (Sure (option_copied value.entry))) }
{
    match value {
        None => Hears::Plain,
        Some(value) => hears_value(values, value),
    }
}

/// The hearing of an event of whose data this is known, by its number.
fn hears_among(values: &Values, told: &Told<'_>) -> Hears
    ensures { result ≡ hears_among values.now (hearing values.now told.now) }
{
    if told.is_sure {
        hears_sure(values, told.value)
    } else {
        Hears::Any
    }
}

impl<'a> At<'a> {
    /// The configuration with this number.
    pub fn of(numbered_service: &'a NumberedService<'a>, number: usize) -> Option<At<'a>>
        ensures some { IfSome result (λ at. at ≡ context_at numbered_service.now number) }
        ensures none { IfNone result (slice_get (settings numbered_service.now) number ≡ None) }
    {
        match numbered_service.config_at(number) {
            None => None,
            Some(config) => match numbered_service.held_at(number) {
                None => None,
                Some(held) => Some(At::made(numbered_service, number, config, held)),
            },
        }
    }

    fn made(
        numbered_service: &'a NumberedService<'a>,
        number: usize,
        config: &'a Config,
        held: &'a Held,
    ) -> At<'a>
        requires config { slice_get (settings numbered_service.now) number ≡ Some config.now }
        requires held { slice_get (lists_read numbered_service.now) number ≡ Some held.now }
        ensures { result ≡ context_at numbered_service.now number }
    {
        numbered_service.read();
        let present = numbered_service.present(config);
        At {
            numbered_service,
            number,
            config,
            present,
            held,
        }
    }

    // What is there

    /// The numbered service.
    pub fn numbered_service(&self) -> &'a NumberedService<'a>
        ensures { result.now ≡ self.now.reading }
    {
        self.numbered_service
    }

    /// The configuration.
    pub fn config(&self) -> &'a Config
        ensures { result.now ≡ self.now.config }
    {
        self.config
    }

    /// Its scene, if there is one.
    pub fn scene(&self) -> Option<&'a GroupName>
        ensures { option_copied result ≡ self.now.config.scene }
    {
        match &self.config.scene {
            None => None,
            Some(scene) => Some(scene),
        }
    }

    /// What is said of an object that is present.
    pub fn find(&self, at: &ObjRef) -> Option<&Fixed>
        ensures { option_copied result ≡ part_at at.now (present_there self.now.reading.service self.now.config) }
    {
        self.present.find(at)
    }

    /// Whether the object is present.
    pub fn has(&self, at: &ObjRef) -> bool
        ensures { result ≡ is_there at.now (present_there self.now.reading.service self.now.config) }
    {
        self.present.find(at).is_some()
    }

    /// Whether it is a list that is present.
    pub fn has_list(&self, at: &ObjRef) -> bool
        ensures { result ≡ is_list_in (present_there self.now.reading.service self.now.config) at.now }
    {
        match self.present.class_of(at) {
            None => false,
            Some(class) => matches!(class, Class::ListGroup),
        }
    }

    /// To what a variable may refer, or which items a list may have.
    pub fn set(&self, at: &ObjRef) -> &'a [ObjRef]
        ensures { result.now ≡ (flow_read self.now.reading).sets self.now.config at.now }
    {
        self.held.of(&self.present, at)
    }

    /// What is present: the parts of the application, and those of the scene.
    pub fn parts(&self) -> (&'a [FixedPart], &'a [FixedPart])
        ensures { result.0.now ++ result.1.now ≡ present_there self.now.reading.service self.now.config }
    {
        self.present.parts()
    }

    /// The actions that can come to be done here, each at its place.
    pub fn sites(&self) -> Result<Vec<Site<'a>>, AllocError>
        ensures { let s = self.now in
            IfOk result (λ sites. sites.items ≡ sites_of_lem (present_there s.reading.service s.config)) }
    {
        sites_of(self.numbered_service.allocator(), &self.present)
    }

    /// Whether the effects of the object can come to be done here.
    pub fn is_active(&self, part: &Fixed) -> bool
        ensures { result ≡ is_active (present_there self.now.reading.service self.now.config) part.now }
    {
        self.present.is_active(part)
    }

    /// The number of the configuration to which it goes on from here to the group, if that is reached.
    pub fn exchanged(&self, group: &GroupName) -> Option<usize>
        ensures { let s = self.now in
            result ≡ position (same_setting (exchanged s.reading.service s.config group.now)) (settings s.reading) }
    {
        if self.numbered_service.service().has_application(group) {
            self.numbered_service.place_of(group, None)
        } else {
            self.numbered_service
                .place_of(&self.config.app, Some(group))
        }
    }

    /// The hearing of an event of whose data this is known, by its number, if a link hears it.
    pub fn hears(&self, at: &ObjRef, kind: EventType, told: &Told<'_>) -> Option<Hears>
        ensures { result ≡ hears_told self.now.reading at.now kind told.now }
    {
        match self.numbered_service.values(at, kind) {
            None => None,
            Some(values) => Some(hears_among(values, told)),
        }
    }

    // The numbers of its nodes

    /// The number of the configuration.
    fn number(&self) -> usize
        ensures { result ≡ config_number self.now.reading self.now.config }
    {
        self.number
    }

    /// An effect of an object: 0 at start-up, 1 at close-down, 2 of a link, 3 and on its slots.
    pub fn effect_node(&self, at: &ObjRef, index: usize) -> NumberedNode
        ensures { result ≡ effect_number self.now at.now index }
    {
        NumberedNode::Effect(
            self.number(),
            self.numbered_service.object_number(at),
            index,
        )
    }

    /// The same, where the object has this number.
    pub fn numbered_effect(&self, object: usize, index: usize) -> NumberedNode
        ensures { result ≡ node.Effect (config_number self.now.reading self.now.config) object index }
    {
        NumberedNode::Effect(self.number(), object, index)
    }

    /// What an event sets going that is dealt with at once.
    pub fn fired_node(&self, at: &ObjRef, kind: EventType, hears: Hears) -> NumberedNode
        ensures { result ≡ fired_number self.now at.now kind hears }
    {
        NumberedNode::Fired(
            self.number(),
            self.numbered_service.object_number(at),
            kind,
            hears,
        )
    }

    /// A change of a list.
    pub fn change_node(&self, at: &ObjRef) -> NumberedNode
        ensures { result ≡ number_of self.now.reading (Change self.now.config at.now) }
    {
        NumberedNode::Change(self.number(), self.numbered_service.object_number(at))
    }

    /// To leave the scene, or all.
    pub fn leave_node(&self, all: bool) -> NumberedNode
        ensures { result ≡ number_of self.now.reading (Leave self.now.config all) }
    {
        NumberedNode::Leave(self.number(), all)
    }

    /// To enter it.
    pub fn enter_node(&self) -> NumberedNode
        ensures { result ≡ number_of self.now.reading (Enter self.now.config) }
    {
        NumberedNode::Enter(self.number())
    }
}
