//! What an action opens where its target comes to an object.
//!
//! Promise: each function puts behind what is there what the definition that its clause names says.
ghost use Rattle.std.specs.Prelude.{◌≡◌, ◌++◌, OnOk};
ghost use Rattle.std.specs.List.{flat_map};
ghost use Rattle.std.specs.Option.{option_copied, option_to_list};
ghost use Rattle.mh_model.specs.Arguments.{receiver_of, receivers};
ghost use Rattle.mh_laws.specs.Active.{leads_to};
ghost use Rattle.mh_laws.specs.Flow.{fills};
ghost use Rattle.mh_flow.specs.Opening as spec;

use crate::fixpoint::constraints::Item;
use crate::opening::numbered_config::{NumberedConfig, push_edge, push_member};
use crate::present::leads_to;
use crate::references::handed;
use mh_base::{ObjRef, Value};
use mh_group::ActionName;
use mh_model::{Act, Argument};
use std::alloc::AllocError;

/// Whether what the action answers is an item of the list that is asked.
pub(crate) fn fills(action: ActionName) -> bool
    ensures { result ≡ fills action }
{
    matches!(action, ActionName::GetListItem | ActionName::GetCellItem)
}

/// The variable that receives something, where the argument is one.
fn received(argument: &Argument) -> Option<&ObjRef>
    ensures { option_copied result ≡ receiver_of argument.now }
{
    match argument {
        Argument::Receiver(variable) => Some(variable),
        _ => None,
    }
}

impl<'a, 's> NumberedConfig<'a, 's> {
    /// What an action does where its target comes to this object.
    pub(crate) fn push_done(
        &self,
        items: &mut Vec<Item>,
        act: &Act,
        at: &ObjRef,
    ) -> Result<(), AllocError>
        ensures { let p = self.now in OnOk result (items.new.items ≡ items.old.items
            ++ spec.does p.service p.chart p.number p.config p.bases act.now at.now) }
    {
        self.push_given(items, act, at)?;
        self.push_filled(items, act, at)?;
        self.push_led_on(items, act, at)?;
        Ok(())
    }

    /// What the action hands on goes to the object.
    fn push_given(&self, items: &mut Vec<Item>, act: &Act, at: &ObjRef) -> Result<(), AllocError>
        ensures { let p = self.now in OnOk result (items.new.items ≡ items.old.items
            ++ spec.given p.service p.chart p.config p.bases act.now at.now) }
    {
        if self.present.is_given(act.name, at) {
            self.push_argument(items, at, handed(act))?;
        }
        Ok(())
    }

    fn push_argument(
        &self,
        items: &mut Vec<Item>,
        at: &ObjRef,
        argument: Option<&Argument>,
    ) -> Result<(), AllocError>
        ensures { let p = self.now in OnOk result (items.new.items ≡ items.old.items
            ++ flat_map (spec.handed_on p.service p.chart p.config p.bases at.now)
            (option_to_list (option_copied argument.entry))) }
    {
        match argument {
            None => Ok(()),
            Some(argument) => self.push_handed(items, at, argument),
        }
    }

    fn push_handed(
        &self,
        items: &mut Vec<Item>,
        at: &ObjRef,
        argument: &Argument,
    ) -> Result<(), AllocError>
        ensures { let p = self.now in OnOk result (items.new.items ≡ items.old.items
            ++ spec.handed_on p.service p.chart p.config p.bases at.now argument.now) }
    {
        match argument {
            Argument::Direct(Value::Object(handed)) => {
                push_member(items, self.node(at), self.chart.member_of(handed))
            }
            Argument::Through(variable, _) => self.push_from(items, variable, at),
            _ => Ok(()),
        }
    }

    /// What the variable holds goes to the object.
    fn push_from(
        &self,
        items: &mut Vec<Item>,
        variable: &ObjRef,
        at: &ObjRef,
    ) -> Result<(), AllocError>
        ensures { let p = self.now in OnOk result (items.new.items ≡ items.old.items
            ++ spec.read_from p.service p.config p.bases at.now variable.now) }
    {
        if self.is_reference(variable) {
            push_edge(items, self.node(variable), self.node(at))?;
        }
        Ok(())
    }

    /// What the list has goes to the variables that receive it.
    fn push_filled(&self, items: &mut Vec<Item>, act: &Act, at: &ObjRef) -> Result<(), AllocError>
        ensures { let p = self.now in OnOk result (items.new.items ≡ items.old.items
            ++ spec.filled p.service p.chart p.config p.bases act.now at.now) }
    {
        if fills(act.name) && self.present.is_list(at) {
            self.push_all_received(items, at, act.arguments.as_slice())?;
        }
        Ok(())
    }

    #[tactic(auto, using(crate::proofs::OpeningLemmas::some_next))]
    fn push_all_received(
        &self,
        items: &mut Vec<Item>,
        at: &ObjRef,
        arguments: &[Argument],
    ) -> Result<(), AllocError>
        ensures { let p = self.now in OnOk result (items.new.items ≡ items.old.items
            ++ flat_map (spec.filled_in p.service p.chart p.config p.bases at.now) (receivers arguments.now)) }
    {
        for argument in arguments {
            self.push_received(items, at, received(argument))?;
        }
        Ok(())
    }

    fn push_received(
        &self,
        items: &mut Vec<Item>,
        at: &ObjRef,
        variable: Option<&ObjRef>,
    ) -> Result<(), AllocError>
        ensures { let p = self.now in OnOk result (items.new.items ≡ items.old.items
            ++ flat_map (spec.filled_in p.service p.chart p.config p.bases at.now)
            (option_to_list (option_copied variable.entry))) }
    {
        match variable {
            None => Ok(()),
            Some(variable) => self.push_into(items, at, variable),
        }
    }

    /// What the list has goes to the variable.
    fn push_into(
        &self,
        items: &mut Vec<Item>,
        at: &ObjRef,
        variable: &ObjRef,
    ) -> Result<(), AllocError>
        ensures { let p = self.now in OnOk result (items.new.items ≡ items.old.items
            ++ spec.filled_in p.service p.chart p.config p.bases at.now variable.now) }
    {
        if self.is_reference(variable) {
            push_edge(items, self.node(at), self.node(variable))?;
        }
        Ok(())
    }

    /// The configuration to which the action leads is among those to which this one does.
    fn push_led_on(&self, items: &mut Vec<Item>, act: &Act, at: &ObjRef) -> Result<(), AllocError>
        ensures { let p = self.now in OnOk result (items.new.items ≡ items.old.items
            ++ spec.led_on p.chart p.number (leads_to p.service p.config act.now.name at.now)) }
    {
        match leads_to(self.service, self.config, act.name, at)? {
            None => Ok(()),
            Some(next) => push_member(items, Some(self.led_set()), self.chart.config_number(&next)),
        }
    }

    /// The number of the set of those to which it leads.
    fn led_set(&self) -> usize
        ensures { result ≡ spec.led_set self.now.number }
    {
        self.number + 1
    }
}
