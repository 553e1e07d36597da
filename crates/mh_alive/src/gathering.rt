//! One pass over the configurations that are reached.
//!
//! Promise: what is gathered is what the definition that its clause names says.
ghost use Rattle.std.specs.Prelude.{◌≡◌, [], fold, IfOk, OnOk};
ghost use Rattle.mh_flow.specs.Solved.{IsFlowOf, flow_in};
ghost use Rattle.mh_model.specs.Configuration.{present};
ghost use Rattle.mh_alive.specs.Gathering as spec;
ghost use Rattle.mh_alive.specs.There.{sets_there};

use crate::registers::Register;
use crate::sendings::Sending;
use crate::settings::Setting;
use crate::tellings::Telling;
use crate::there::There;
use crate::{registers, runners, sendings, settings, tellings};
use indexmap::IndexSet;
use mh_base::ObjRef;
use mh_flow::sites::sites_of;
use mh_flow::{Equipped, Flow, Held, Present, Site};
use mh_model::{Config, FixedPart};
use std::alloc::{AllocError, Global};
use std::marker::Model;

/// What may run, what is sent, what is told, which timers are set by what, and which registers scenes may have.
#[derive(Drop)]
pub(crate) struct Gathered {
    pub runners: IndexSet<ObjRef>,
    pub sent: IndexSet<Sending>,
    pub told: IndexSet<Telling>,
    pub settings: Vec<Setting>,
    pub registers: IndexSet<Register>,
}

impl Model for Gathered {
    ghost use Rattle.mh_alive.specs.Gathering.{Gathered as GatheredValue};

    ghost Value = { GatheredValue };

    ghost view = { λ g. record {
      runners = g.runners.keys;
      sent = g.sent.keys;
      told = g.told.keys;
      settings = g.settings.items;
      registers = g.registers.keys;
    } };
}

impl Gathered {
    fn new(alloc: Global) -> Gathered
        ensures { result ≡ spec.nothing }
    {
        Gathered {
            runners: IndexSet::new(alloc),
            sent: IndexSet::new(alloc),
            told: IndexSet::new(alloc),
            settings: Vec::new(alloc),
            registers: IndexSet::new(alloc),
        }
    }

    /// What these objects tell and run of themselves, their registers, and the timers that their effects set.
    fn put_parts(
        &mut self,
        alloc: Global,
        there: &There<'_>,
        parts: &[FixedPart],
    ) -> Result<(), AllocError>
        ensures { OnOk result (self.new ≡ spec.with_parts (sets_there there.now) there.now.present self.old parts.now) }
    {
        runners::put_parts(&mut self.runners, there, parts)?;
        tellings::put_parts(&mut self.told, parts)?;
        settings::push_parts(alloc, &mut self.settings, there, parts)?;
        registers::put_parts(&mut self.registers, parts)
    }

    /// What the actions at these sites do.
    fn put_sites(&mut self, there: &There<'_>, sites: &[Site<'_>]) -> Result<(), AllocError>
        ensures { OnOk result (self.new ≡ spec.with_sites (sets_there there.now) self.old sites.now) }
    {
        runners::put_sites(&mut self.runners, there, sites)?;
        sendings::put_sites(&mut self.sent, sites)?;
        tellings::put_sites(&mut self.told, there, sites)?;
        registers::put_sites(&mut self.registers, there, sites)
    }

    /// What there is where these are present and hold this.
    fn put_present(
        &mut self,
        alloc: Global,
        present: &Present<'_>,
        held: &Held,
    ) -> Result<(), AllocError>
        ensures { let sets = sets_there (record { present = present.now; lists = held.now }) in
            OnOk result (self.new ≡ spec.with_present sets self.old present.now) }
    {
        let (application, scene) = present.parts();
        let sites = sites_of(alloc, present)?;
        let there = There { present, held };
        self.put_parts(alloc, &there, application)?;
        self.put_parts(alloc, &there, scene)?;
        self.put_sites(&there, sites.as_slice())?;
        Ok(())
    }

    /// What there is in a configuration.
    fn put_config(
        &mut self,
        alloc: Global,
        service: &Equipped<'_>,
        flow: &Flow,
        config: &Config,
    ) -> Result<(), AllocError>
        requires { IsFlowOf service.now flow.now }
        ensures { let w = flow_in service.now flow.now in
            OnOk result (self.new ≡ spec.with_config service.now w self.old config.now) }
    {
        let held = flow.held(alloc, service, config)?;
        let present = flow.present(service, config);
        self.put_present(alloc, &present, &held)?;
        Ok(())
    }

    /// What there is in these configurations.
    fn put_configs(
        &mut self,
        alloc: Global,
        service: &Equipped<'_>,
        flow: &Flow,
        configs: &[Config],
    ) -> Result<(), AllocError>
        requires { IsFlowOf service.now flow.now }
        ensures { let w = flow_in service.now flow.now in
            OnOk result (self.new ≡ fold (spec.with_config service.now w) self.old configs.now) }
    {
        for config in configs {
            self.put_config(alloc, service, flow, config)?;
        }
        Ok(())
    }
}

/// What there is in all configurations that are reached.
pub(crate) fn gather(
    alloc: Global,
    service: &Equipped<'_>,
    flow: &Flow,
) -> Result<Gathered, AllocError>
    requires { IsFlowOf service.now flow.now }
    ensures { IfOk result (λ all. all ≡ spec.gathered service.now (flow_in service.now flow.now)) }
{
    let configs = flow.configs(alloc)?;
    let mut gathered = Gathered::new(alloc);
    gathered.put_configs(alloc, service, flow, configs.as_slice())?;
    Ok(gathered)
}
