//! `Trial`: a machine on which a script is tried.
use crate::goal::Goal;
use crate::links::hears_timers;
use crate::script_text::{Running, script_text};
use crate::stimulus::{Stimulus, input_of};
use mh_machine::{Judged, Machine, RefusedWhy, Rest};
use mh_model::{File, Input, Timer};
use mh_script::RUN_LIMIT;
use mh_service::Service;
use mh_told::text::Text;
use std::alloc::{AllocError, Global};

/// A machine on which a script is tried.
#[derive(Drop)]
pub struct Trial {
    alloc: Global,
    machine: Machine,
    /// Whether a link of the service waits for a timer, so that timers matter.
    is_timed: bool,
    /// Whether each run so far has come to its end.
    settled: bool,
}

impl Trial {
    /// Of a machine that begins on this service on this day.
    pub fn begin(alloc: Global, service: Service, mjd: u32) -> Result<Trial, AllocError> {
        match Machine::new(alloc, service, mjd) {
            Ok(machine) => Ok(Trial::new(alloc, machine)),
            Err(_) => Err(AllocError),
        }
    }

    fn new(alloc: Global, machine: Machine) -> Trial {
        let is_timed = hears_timers(machine.service());
        Trial {
            alloc,
            machine,
            is_timed,
            settled: true,
        }
    }

    pub fn machine(&self) -> &Machine {
        &self.machine
    }

    /// The timers that are set, in the order in which they are due, as far as they matter to the service.
    pub fn timers(&self) -> Result<Vec<Timer>, AllocError> {
        if self.is_timed {
            self.machine.timers()
        } else {
            Ok(Vec::new(self.alloc))
        }
    }

    /// Whether it is where a script is to lead.
    pub fn is_led(&mut self, goal: &Goal) -> bool {
        goal.is_reached(&mut self.machine)
    }

    /// Whether a further input is taken: the application has not quit, and the last run has come to its end or has
    /// something that waits, so that what is posted has its turn.
    pub fn goes_on(&self) -> bool {
        match self.machine.rest() {
            Rest::Idle => true,
            Rest::More => !self.machine.queue().is_empty(),
            Rest::Ended => false,
        }
    }

    /// Puts the content files there that may be there.
    pub fn preset(&mut self, contents: &[File]) -> Result<(), AllocError> {
        for file in contents {
            preset_to(&mut self.machine, file)?;
        }
        Ok(())
    }

    /// Plays a script, with so many steps at the start and behind each input at most.
    pub fn play(&mut self, script: &[Stimulus], steps: u32) -> Result<(), AllocError> {
        let most = steps.min(RUN_LIMIT);
        self.run(most)?;
        for stimulus in script {
            self.post(*stimulus)?;
            self.run(most)?;
        }
        Ok(())
    }

    /// What was played, as a script.
    pub fn text_of(&self, script: &[Stimulus], steps: u32) -> Result<Text, AllocError> {
        let running = if self.settled {
            Running::Whole
        } else {
            Running::Steps(steps.min(RUN_LIMIT))
        };
        script_text(self.alloc, script, running, self.machine.service())
    }

    fn post(&mut self, stimulus: Stimulus) -> Result<(), AllocError> {
        match input_of(stimulus, self.machine.service())? {
            Some(input) => post_to(&mut self.machine, input),
            None => Ok(()),
        }
    }

    /// Makes so many steps, or as many as there are to make.
    fn run(&mut self, most: u32) -> Result<(), AllocError> {
        advance(&mut self.machine, most)?;
        if !self.machine.is_settled() {
            self.settled = false;
        }
        Ok(())
    }
}

/// Puts a copy of the content file there, if it may be there.
fn preset_to(machine: &mut Machine, file: &File) -> Result<(), AllocError> {
    match machine.preset(file.clone()?) {
        Ok(()) => Ok(()),
        Err(refused) => pass_over(refused.why),
    }
}

fn post_to(machine: &mut Machine, input: Input) -> Result<(), AllocError> {
    match machine.post(input) {
        Ok(()) => Ok(()),
        Err(refused) => pass_over(refused.why),
    }
}

/// What is refused for what the machine is is passed over; want of memory is not.
fn pass_over(why: RefusedWhy) -> Result<(), AllocError> {
    match why {
        RefusedWhy::NoMemory => Err(AllocError),
        _ => Ok(()),
    }
}

fn advance(machine: &mut Machine, most: u32) -> Result<(), AllocError> {
    machine.advance::<Judged>(most)
}
