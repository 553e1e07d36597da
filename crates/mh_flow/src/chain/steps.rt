//! The moves of references in a configuration.
//!
//! Promise: each function puts behind what is there what the definition that its clause names says.
ghost use Rattle.std.specs.Prelude.{◌≡◌, ◌++◌, OnOk};
ghost use Rattle.std.specs.List.{flat_map};
ghost use Rattle.mh_flow.specs.Steps as spec;

use crate::chain::moves::Move;
use crate::chain::searched_config::{SearchedConfig, holder_at, push_stays};
use crate::present::leads_to;
use crate::references::goes_on;
use crate::sites::{Site, sites_of};
use mh_base::ObjRef;
use mh_model::{Config, Fixed, FixedPart, Target};
use std::alloc::{AllocError, Global};
use std::slice;

impl<'a> SearchedConfig<'a> {
    /// That the object takes along to the configuration what it holds of them.
    fn push_kept(&self, moves: &mut Vec<Move>, to: &Config, part: &Fixed) -> Result<(), AllocError>
        ensures { let g = spec.ground_of self.now in
            OnOk result (moves.new.items ≡ moves.old.items ++ spec.kept_moves g to.now part.now) }
    {
        if self.holds(&part.key) {
            push_stays(moves, self.holder_at(&part.key)?, holder_at(to, &part.key)?)?;
        }
        Ok(())
    }

    fn push_all_kept(
        &self,
        moves: &mut Vec<Move>,
        to: &Config,
        parts: &[FixedPart],
    ) -> Result<(), AllocError>
        ensures { let g = spec.ground_of self.now in
            OnOk result (moves.new.items ≡ moves.old.items ++ flat_map (spec.kept_moves g to.now) parts.now) }
    {
        for part in parts {
            self.push_kept(moves, to, part.get())?;
        }
        Ok(())
    }

    /// That the objects of the application take along what they hold, if the configuration has a scene.
    fn push_passed(&self, moves: &mut Vec<Move>, to: &Config) -> Result<(), AllocError>
        ensures { let g = spec.ground_of self.now in
            OnOk result (moves.new.items ≡ moves.old.items ++ spec.passed_moves g to.now to.now.scene) }
    {
        if to.scene.is_some() {
            self.push_all_kept(moves, to, self.service.parts(&self.config.app))?;
        }
        Ok(())
    }

    fn push_led(&self, moves: &mut Vec<Move>, to: &Option<Config>) -> Result<(), AllocError>
        ensures { let g = spec.ground_of self.now in OnOk result (moves.new.items ≡ moves.old.items ++ spec.led_moves g to.now) }
    {
        match to {
            None => Ok(()),
            Some(to) => self.push_passed(moves, to),
        }
    }

    /// What the action does where its target comes to the object.
    fn push_done(
        &self,
        moves: &mut Vec<Move>,
        site: &Site<'_>,
        at: &ObjRef,
    ) -> Result<(), AllocError>
        ensures { let g = spec.ground_of self.now in
            OnOk result (moves.new.items ≡ moves.old.items ++ spec.done_moves g site.now at.now) }
    {
        self.push_given(moves, site, at)?;
        self.push_filled(moves, site, at)?;
        let to = leads_to(self.service, self.config, site.act.name, at)?;
        self.push_led(moves, &to)?;
        Ok(())
    }

    fn push_all_done(
        &self,
        moves: &mut Vec<Move>,
        site: &Site<'_>,
        targets: &[ObjRef],
    ) -> Result<(), AllocError>
        ensures { let g = spec.ground_of self.now in
            OnOk result (moves.new.items ≡ moves.old.items ++ flat_map (spec.done_moves g site.now) targets.now) }
    {
        for at in targets {
            self.push_done(moves, site, at)?;
        }
        Ok(())
    }

    /// The objects to which the target may come.
    fn targets<'b>(&'b self, target: &'b Target) -> &'b [ObjRef]
        ensures { let g = spec.ground_of self.now in result.now ≡ spec.targets g.present g.sets target.now }
    {
        match target {
            Target::Direct(at) => slice::from_ref(at),
            Target::Through(variable) => {
                if self.present.is_reference(variable) {
                    self.held.of(self.present, variable)
                } else {
                    &[]
                }
            }
        }
    }

    /// What the action does wherever its target may come: nothing, if it does not go on.
    fn push_site(&self, moves: &mut Vec<Move>, site: &Site<'_>) -> Result<(), AllocError>
        ensures { let g = spec.ground_of self.now in OnOk result (moves.new.items ≡ moves.old.items ++ spec.site_moves g site.now) }
    {
        if goes_on(site.act) {
            self.push_all_done(moves, site, self.targets(&site.act.target))
        } else {
            Ok(())
        }
    }

    fn push_sites(&self, moves: &mut Vec<Move>, sites: &[Site<'_>]) -> Result<(), AllocError>
        ensures { let g = spec.ground_of self.now in
            OnOk result (moves.new.items ≡ moves.old.items ++ flat_map (spec.site_moves g) sites.now) }
    {
        for site in sites {
            self.push_site(moves, site)?;
        }
        Ok(())
    }

    /// All moves of what is sought in the configuration.
    pub fn push_moves(&self, alloc: Global, moves: &mut Vec<Move>) -> Result<(), AllocError>
        ensures { let g = spec.ground_of self.now in OnOk result (moves.new.items ≡ moves.old.items ++ spec.moves_in g) }
    {
        let (application, scene) = self.present.parts();
        self.push_firsts(moves, application)?;
        self.push_firsts(moves, scene)?;
        let sites = sites_of(alloc, self.present)?;
        self.push_sites(moves, sites.as_slice())?;
        Ok(())
    }
}
