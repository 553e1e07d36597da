//! What a member of a set opens.
//!
//! Promise: a configuration that is reached, one to which another leads and what a variable holds each open what the
//! definition says, and nothing that is not there opens anything.

pub(crate) mod doing;
pub(crate) mod leading;
pub(crate) mod numbered_config;
pub(crate) mod reaching;
pub(crate) mod walks;

ghost use Rattle.std.specs.Prelude.{◌≡◌, ◌++◌, [], ℕ, false, Option, IfOk, OnOk, slice_get};
ghost use Rattle.std.specs.Option.{option_map_or};
ghost use Rattle.mh_model.specs.Configuration.{starting};
ghost use Rattle.mh_base.specs.declared.obj_ref.ObjRef.{ObjRef as ObjRefValue};
ghost use Rattle.mh_flow.specs.Opening as spec;

use crate::chart::{Chart, Set};
use crate::equipped::Equipped;
use crate::fixpoint::constraints::{Fact, Item, Rules};
use crate::opening::numbered_config::{NumberedConfig, push_member};
use crate::opening::walks::Walks;
use mh_base::ObjRef;
use mh_model::Config;
use std::alloc::{AllocError, Global};
use std::marker::Model;

/// A service and its numbers, and its actions by the variables through which they go on.
#[derive(Drop)]
pub(crate) struct Opening<'a, 's> {
    pub alloc: Global,
    pub service: &'a Equipped<'a>,
    pub chart: &'a Chart,
    pub walks: &'a Walks<'s>,
}

impl<'a, 's> Model for Opening<'a, 's> {
    ghost use Rattle.std.specs.Prelude.{◌≡◌};
    ghost use Rattle.mh_flow.specs.Chart.{IsChart};
    ghost use Rattle.mh_flow.specs.Opening.{Numbered};

    ghost Value = { Numbered };

    ghost view = { λ o. record { service = o.service.now; chart = o.chart.now } };

    ghost invariant = { λ o. IsChart o.service.now o.chart.now × (o.walks.now ≡ o.service.now) };
}

impl<'a, 's> Rules for Opening<'a, 's> {
    ghost use Rattle.mh_flow.specs.Opening.{system_of};

    ghost system = { λ o. system_of o.service o.chart };

    fn nodes(&self) -> usize {
        self.chart.sets()
    }

    fn width(&self) -> usize {
        let members = self.chart.members();
        let configs = self.chart.configs();
        if members < configs { configs } else { members }
    }

    fn recurs(&self, from: usize, to: usize) -> bool {
        // What leads from one configuration to another is opened by one member of one set alone.
        match (self.chart.set_at(from), self.chart.set_at(to)) {
            (Some(Set::Held(first, _)), Some(Set::Held(second, _))) => first == second,
            _ => true,
        }
    }

    fn starts(&self, items: &mut Vec<Item>) -> Result<(), AllocError> {
        let start = starting(self.service)?;
        push_member(items, Some(0), self.chart.config_number(&start))
    }

    fn opens_at(&self, node: usize) -> bool {
        match self.chart.set_at(node) {
            None => false,
            Some(Set::Held(config, place)) => self.is_walked(config, place),
            Some(_) => true,
        }
    }

    fn open(&self, fact: Fact, items: &mut Vec<Item>) -> Result<(), AllocError> {
        match self.chart.set_at(fact.node) {
            None => Ok(()),
            Some(Set::Reached) => self.push_config(items, fact.member),
            Some(Set::Led(from)) => self.push_led(items, from, fact.member),
            Some(Set::Held(config, place)) => self.push_held(items, config, place, fact.member),
        }
    }
}

/// The start application with no scene.
fn starting(service: &Equipped<'_>) -> Result<Config, AllocError>
    ensures { IfOk result (λ start. start ≡ starting service.now) }
{
    Ok(Config {
        app: service.start().clone()?,
        scene: None,
    })
}

impl<'a, 's> Opening<'a, 's> {
    /// The configuration with this number.
    fn place(&self, number: usize) -> Option<NumberedConfig<'a, 's>>
        ensures { result ≡ spec.place_of self.now.service self.now.chart number }
    {
        match self.chart.config_at(number) {
            None => None,
            Some((config, bases)) => Some(NumberedConfig {
                service: self.service,
                chart: self.chart,
                walks: self.walks,
                number,
                config,
                bases,
                present: self.chart.present(self.service, config),
            }),
        }
    }

    /// Whether the object at this place of a configuration opens anything with what it holds.
    fn is_walked(&self, config: usize, place: usize) -> bool
        ensures { let v = self.now.service in let ch = self.now.chart in
            result ≡ false → (q : ℕ) → spec.opened_in v ch q (Set.Held config place) ≡ [] }
    {
        match self.place(config) {
            None => false,
            Some(there) => there.is_walked_at(place),
        }
    }

    /// What is there where a configuration is reached.
    fn push_config(&self, items: &mut Vec<Item>, number: usize) -> Result<(), AllocError>
        ensures { let v = self.now.service in let ch = self.now.chart in
            OnOk result (items.new.items ≡ items.old.items
            ++ option_map_or (λ e. spec.by_config v ch number e.0 e.1) (slice_get ch.configs number) []) }
    {
        match self.place(number) {
            None => Ok(()),
            Some(place) => place.push_reached(self.alloc, items),
        }
    }

    /// What is there where a configuration leads to another.
    fn push_led(&self, items: &mut Vec<Item>, from: usize, to: usize) -> Result<(), AllocError>
        ensures { let v = self.now.service in let ch = self.now.chart in
            OnOk result (items.new.items ≡ items.old.items
            ++ option_map_or (λ e. spec.by_led e.1 to (slice_get ch.configs to)) (slice_get ch.configs from) []) }
    {
        match self.place(from) {
            None => Ok(()),
            Some(place) => place.push_next(items, to, self.chart.config_at(to)),
        }
    }

    /// What is there where an object holds a reference in a configuration.
    fn push_held(
        &self,
        items: &mut Vec<Item>,
        config: usize,
        place: usize,
        member: usize,
    ) -> Result<(), AllocError>
        ensures { let v = self.now.service in let ch = self.now.chart in
            OnOk result (items.new.items ≡ items.old.items
            ++ spec.opened_in v ch member (Set.Held config place)) }
    {
        match self.place(config) {
            None => Ok(()),
            Some(there) => there.push_object(items, place, self.chart.member_at(member)),
        }
    }
}

impl<'a, 's> NumberedConfig<'a, 's> {
    /// Whether the object at this place is a variable of references through which an action has its target.
    fn is_walked_at(&self, place: usize) -> bool
        ensures { let p = self.now in
            result ≡ false → (q : Option ObjRefValue) → spec.by_object p.service p.chart p.number p.config p.bases q
            (slice_get (spec.present_in p) place) ≡ [] }
    {
        match self.present.at(place) {
            None => false,
            Some(part) => self.is_target(&part.key),
        }
    }

    fn is_target(&self, variable: &ObjRef) -> bool
        ensures { let p = self.now in
            result ≡ false → (q : Option ObjRefValue)
            → spec.by_variable p.service p.chart p.number p.config p.bases variable.now q ≡ [] }
    {
        self.chart.is_targeted(variable) && self.is_reference(variable)
    }
}
