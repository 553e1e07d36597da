//! `Tracer`: a machine whose steps are told, a line each.

pub(crate) mod calls;
pub(crate) mod commands;
pub(crate) mod picture;
pub(crate) mod places;
pub(crate) mod stepping;
pub(crate) mod until;

ghost use Rattle.std.specs.Prelude.{◌≡◌, ◌++◌, ◌+◌, ◌<◌, OnOk};
ghost use Rattle.mh_model.specs.Step.{obstacle, posted};
ghost use Rattle.mh_script.specs.declared.script.Command.TheVariants as Command;
ghost use Rattle.mh_trace.specs.Form.{tells_behind};
ghost use Rattle.mh_trace.specs.Commands.{show_by};
ghost use Rattle.mh_trace.specs.Trace as spec;

use crate::directory::Directory;
use crate::form::Telling;
use crate::site::Site;
use crate::tracer::calls::{post_copy, preset_copy};
use crate::tracer::commands::{put_did, put_post, put_preset, put_show, put_total};
use indexmap::IndexSet;
use mh_base::GroupName;
use mh_machine::Machine;
use mh_model::{File, Input};
use mh_script::Command;
use mh_told::text::Text;
use std::alloc::{AllocError, Global};
use std::collections::VecDeque;
use std::marker::Model;

/// A machine whose steps are told: with the places of the actions on its work list, the places of those that were
/// done and of those that were faults, the groups that were entered, and a directory of where actions are written.
#[derive(Drop)]
pub struct Tracer {
    pub(crate) alloc: Global,
    pub(crate) machine: Machine,
    pub(crate) places: VecDeque<Site>,
    pub(crate) done: IndexSet<Site>,
    pub(crate) entered: IndexSet<GroupName>,
    pub(crate) faulted: Vec<Option<Site>>,
    pub(crate) directory: Directory,
}

impl Model for Tracer {
    ghost use Rattle.mh_trace.specs.Trace.{Tracing};

    ghost Value = { Tracing };

    ghost view = { λ t. record {
      state = t.machine;
      places = t.places.items;
      done = t.done.keys;
      entered = t.entered.keys;
      faulted = t.faulted.items;
      directory = t.directory;
    } };
}

impl Tracer {
    /// Of a machine that has just begun. What the directory has of the place of an action is told behind it.
    pub fn new(alloc: Global, machine: Machine, directory: Directory) -> Tracer
        ensures { result ≡ spec.untraced directory machine }
    {
        Tracer {
            alloc,
            machine,
            places: VecDeque::new(alloc),
            done: IndexSet::new(alloc),
            entered: IndexSet::new(alloc),
            faulted: Vec::new(alloc),
            directory,
        }
    }

    /// The machine.
    pub fn machine(&self) -> &Machine
        ensures { result.now ≡ self.now.state }
    {
        &self.machine
    }

    /// Where the actions stand that were done, each once.
    pub fn done(&self) -> &[Site]
        ensures { result.now ≡ self.now.done }
    {
        self.done.as_slice()
    }

    /// The groups that were entered, each once.
    pub fn entered(&self) -> &[GroupName]
        ensures { result.now ≡ self.now.entered }
    {
        self.entered.as_slice()
    }

    /// Where the actions stand that were faults, in the order of the faults.
    pub fn faulted(&self) -> &[Option<Site>]
        ensures { result.now ≡ self.now.faulted }
    {
        self.faulted.as_slice()
    }

    /// Where actions are written.
    pub fn directory(&self) -> &Directory
        ensures { result.now ≡ self.now.directory }
    {
        &self.directory
    }

    /// Puts content files there before the first command, and a line on each that is refused.
    pub fn preset_all(
        &mut self,
        telling: &Telling,
        files: &[File],
        text: &mut Text,
    ) -> Result<(), AllocError>
        ensures lines { OnOk result (text.new ≡ text.old ++ spec.presets_text telling.now files.now self.old) }
        ensures left { OnOk result (self.new ≡ spec.preset_all files.now self.old) }
    {
        for file in files {
            self.preset(telling, file, text)?;
        }
        Ok(())
    }

    fn preset(&mut self, telling: &Telling, file: &File, text: &mut Text) -> Result<(), AllocError>
        ensures line { OnOk result (text.new ≡ text.old ++ spec.preset_text telling.now file.now self.old) }
        ensures left { OnOk result (self.new ≡ spec.preset_one file.now self.old) }
    {
        match preset_copy(&mut self.machine, file)? {
            Some(obstacle) => put_preset(telling.form, text, file, obstacle),
            None => Ok(()),
        }
    }

    /// Does the commands of a script in order, and puts their trace.
    pub fn play(
        &mut self,
        telling: &Telling,
        commands: &[Command],
        text: &mut Text,
    ) -> Result<(), AllocError>
        ensures trace { OnOk result (text.new ≡ text.old ++ spec.trace_text telling.now commands.now self.old) }
        ensures left { OnOk result (self.new ≡ spec.traced_all commands.now self.old) }
    {
        for command in commands {
            self.obey(telling, command, text)?;
        }
        put_total(telling.form, text, self.machine.taken())
    }

    /// Does a command, and puts what is told of it.
    pub fn obey(
        &mut self,
        telling: &Telling,
        command: &Command,
        text: &mut Text,
    ) -> Result<(), AllocError>
        ensures lines { OnOk result (text.new ≡ text.old ++ spec.command_text telling.now command.now self.old) }
        ensures left { OnOk result (self.new ≡ spec.traced command.now self.old) }
    {
        match command {
            Command::Post(input) => self.post(telling, input, text),
            Command::Step(most) => self.advance(telling, *most, text),
            Command::Show => put_show_if(telling, self.machine.taken(), text),
        }
    }

    /// Posts a copy of an input, and puts what is told of it.
    fn post(&mut self, telling: &Telling, input: &Input, text: &mut Text) -> Result<(), AllocError>
        ensures line { OnOk result (text.new ≡ text.old ++ spec.command_text telling.now (Command.Post input.now) self.old) }
        ensures posted { OnOk result (self.new ≡ record self.old { state = posted input.now self.old.state }) }
    {
        let told = telling.tells_behind(self.machine.taken());
        let obstacle = post_copy(&mut self.machine, input)?;
        if told {
            return put_post(self.alloc, telling.form, text, input, obstacle);
        }
        Ok(())
    }

    /// Makes so many steps, or as many as there are to make, and puts what is told of each and of all.
    fn advance(&mut self, telling: &Telling, most: u32, text: &mut Text) -> Result<(), AllocError>
        ensures lines { OnOk result (text.new ≡ text.old ++ spec.stepped_text telling.now most self.old) }
        ensures left { OnOk result (self.new ≡ spec.steps most self.old) }
    {
        let before = self.machine.taken();
        self.steps(telling, most, text)?;
        let taken = self.machine.taken();
        if telling.tells_behind(taken) {
            let made = taken.saturating_sub(before);
            return put_did(telling.form, text, made, self.machine.rest());
        }
        Ok(())
    }

    fn steps(&mut self, telling: &Telling, most: u32, text: &mut Text) -> Result<(), AllocError>
        ensures lines { OnOk result (text.new ≡ text.old ++ spec.steps_text telling.now most self.old) }
        ensures left { OnOk result (self.new ≡ spec.steps most self.old) }
    {
        let mut left = most;
        let mut known = None;
        while self.goes_on(left) {
            known = self.step(telling, known, text)?;
            left -= 1;
        }
        Ok(())
    }
}

/// Puts that a picture is shown behind so many steps, where it is told.
fn put_show_if(telling: &Telling, taken: u64, text: &mut Text) -> Result<(), AllocError>
    ensures { OnOk result (text.new
        ≡ text.old ++ spec.told_if (tells_behind telling.now taken) (show_by telling.now.form)) }
{
    if telling.tells_behind(taken) {
        put_show(telling.form, text)
    } else {
        Ok(())
    }
}
