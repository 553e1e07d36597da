//! What objects hold at first, and what an action brings to an object, as moves of what is sought.
//!
//! Promise: each function puts behind what is there what the definition that its clause names says.
ghost use Rattle.std.specs.Prelude.{◌≡◌, ◌++◌, ◌∷◌, [], OnOk};
ghost use Rattle.std.specs.List.{flat_map};
ghost use Rattle.std.specs.Option.{option_copied, option_to_list};
ghost use Rattle.mh_model.specs.Arguments.{receivers};
ghost use Rattle.mh_flow.specs.Steps as spec;

use crate::chain::moves::Move;
use crate::chain::searched_config::{
    SearchedConfig, action_site_at, first_action_site, push_comes, push_goes,
};
use crate::chain::sought::{is_first, is_sought};
use crate::opening::doing::fills;
use crate::references::handed;
use crate::sites::Site;
use mh_base::{ObjRef, Value};
use mh_model::{Argument, Fixed, FixedPart};
use std::alloc::AllocError;

impl<'a> SearchedConfig<'a> {
    /// That the object has one that is sought at first.
    fn push_first(&self, moves: &mut Vec<Move>, part: &Fixed) -> Result<(), AllocError>
        ensures { let g = spec.ground_of self.now in OnOk result (moves.new.items ≡ moves.old.items ++ spec.first_moves g part.now) }
    {
        if is_first(self.sought, part) {
            push_comes(moves, first_action_site(part)?, self.holder_at(&part.key)?)?;
        }
        Ok(())
    }

    pub(crate) fn push_firsts(
        &self,
        moves: &mut Vec<Move>,
        parts: &[FixedPart],
    ) -> Result<(), AllocError>
        ensures { let g = spec.ground_of self.now in
            OnOk result (moves.new.items ≡ moves.old.items ++ flat_map (spec.first_moves g) parts.now) }
    {
        for part in parts {
            self.push_first(moves, part.get())?;
        }
        Ok(())
    }

    /// That the action writes the reference, if it is sought.
    fn push_written(
        &self,
        moves: &mut Vec<Move>,
        site: &Site<'_>,
        at: &ObjRef,
        written: &ObjRef,
    ) -> Result<(), AllocError>
        ensures { let g = spec.ground_of self.now in
            OnOk result (moves.new.items ≡ moves.old.items ++ spec.written_moves g site.now at.now written.now) }
    {
        if is_sought(self.sought, written) {
            push_comes(moves, action_site_at(site)?, self.holder_at(at)?)?;
        }
        Ok(())
    }

    /// That the action hands on what the variable holds.
    fn push_read(
        &self,
        moves: &mut Vec<Move>,
        site: &Site<'_>,
        at: &ObjRef,
        variable: &ObjRef,
    ) -> Result<(), AllocError>
        ensures { let g = spec.ground_of self.now in
            OnOk result (moves.new.items ≡ moves.old.items ++ spec.read_moves g site.now at.now variable.now) }
    {
        if self.is_holding(variable) {
            push_goes(
                moves,
                self.holder_at(variable)?,
                action_site_at(site)?,
                self.holder_at(at)?,
            )?;
        }
        Ok(())
    }

    /// That the argument brings one that is sought to the object.
    fn push_handed(
        &self,
        moves: &mut Vec<Move>,
        site: &Site<'_>,
        at: &ObjRef,
        argument: &Argument,
    ) -> Result<(), AllocError>
        ensures { let g = spec.ground_of self.now in
            OnOk result (moves.new.items ≡ moves.old.items ++ spec.handed_moves g site.now at.now argument.now) }
    {
        match argument {
            Argument::Direct(Value::Object(written)) => self.push_written(moves, site, at, written),
            Argument::Through(variable, _) => self.push_read(moves, site, at, variable),
            _ => Ok(()),
        }
    }

    fn push_argument(
        &self,
        moves: &mut Vec<Move>,
        site: &Site<'_>,
        at: &ObjRef,
        argument: Option<&Argument>,
    ) -> Result<(), AllocError>
        ensures { let g = spec.ground_of self.now in
            OnOk result (moves.new.items ≡ moves.old.items ++ flat_map (spec.handed_moves g site.now at.now)
            (option_to_list (option_copied argument.entry))) }
    {
        match argument {
            None => Ok(()),
            Some(argument) => self.push_handed(moves, site, at, argument),
        }
    }

    /// That the action brings one that is sought to the object.
    pub(crate) fn push_given(
        &self,
        moves: &mut Vec<Move>,
        site: &Site<'_>,
        at: &ObjRef,
    ) -> Result<(), AllocError>
        ensures { let g = spec.ground_of self.now in
            OnOk result (moves.new.items ≡ moves.old.items ++ spec.given_moves g site.now at.now) }
    {
        if self.present.is_given(site.act.name, at) {
            self.push_argument(moves, site, at, handed(site.act))?;
        }
        Ok(())
    }

    /// That the variable receives what the list has.
    fn push_received(
        &self,
        moves: &mut Vec<Move>,
        site: &Site<'_>,
        at: &ObjRef,
        variable: &ObjRef,
    ) -> Result<(), AllocError>
        ensures { let g = spec.ground_of self.now in
            OnOk result (moves.new.items ≡ moves.old.items ++ spec.received_moves g site.now at.now variable.now) }
    {
        if self.present.is_reference(variable) {
            push_goes(
                moves,
                self.holder_at(at)?,
                action_site_at(site)?,
                self.holder_at(variable)?,
            )?;
        }
        Ok(())
    }

    fn push_received_by(
        &self,
        moves: &mut Vec<Move>,
        site: &Site<'_>,
        at: &ObjRef,
        argument: &Argument,
    ) -> Result<(), AllocError>
        ensures { let g = spec.ground_of self.now in
            OnOk result (moves.new.items ≡ moves.old.items ++ flat_map (spec.received_moves g site.now at.now)
            (receivers (argument.now ∷ []))) }
    {
        match argument {
            Argument::Receiver(variable) => self.push_received(moves, site, at, variable),
            _ => Ok(()),
        }
    }

    #[tactic(auto, using(crate::proofs::ChainHoldLemmas::one_receiver))]
    fn push_all_received(
        &self,
        moves: &mut Vec<Move>,
        site: &Site<'_>,
        at: &ObjRef,
        arguments: &[Argument],
    ) -> Result<(), AllocError>
        ensures { let g = spec.ground_of self.now in
            OnOk result (moves.new.items ≡ moves.old.items ++ flat_map (spec.received_moves g site.now at.now)
            (receivers arguments.now)) }
    {
        for argument in arguments {
            self.push_received_by(moves, site, at, argument)?;
        }
        Ok(())
    }

    /// That the action answers one that is sought, where the object is a list that has it.
    pub(crate) fn push_filled(
        &self,
        moves: &mut Vec<Move>,
        site: &Site<'_>,
        at: &ObjRef,
    ) -> Result<(), AllocError>
        ensures { let g = spec.ground_of self.now in
            OnOk result (moves.new.items ≡ moves.old.items ++ spec.filled_moves g site.now at.now) }
    {
        if fills(site.act.name) && self.present.is_list(at) && self.holds(at) {
            self.push_all_received(moves, site, at, site.act.arguments.as_slice())?;
        }
        Ok(())
    }
}
