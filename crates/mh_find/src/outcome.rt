//! `Outcome`: what a script has come to.
use crate::goal::Goal;
use crate::hearing::heard;
use crate::stimulus::Stimulus;
use crate::trial::Trial;
use crate::view::{View, view_of};
use std::alloc::{AllocError, Global};

/// What a script has come to. It holds no machine, so that it can be kept while further memory is wanted.
#[derive(Drop)]
pub struct Outcome {
    /// Whether it has led to the goal.
    pub is_led: bool,
    /// Whether a further input is taken.
    pub goes_on: bool,
    /// The state in which it ends.
    pub view: View,
    /// The inputs for which something listens there, each once.
    pub heard: Vec<Stimulus>,
}

/// What the script has come to that was played in this trial.
pub fn outcome_of(alloc: Global, trial: &mut Trial, goal: &Goal) -> Result<Outcome, AllocError> {
    let timers = trial.timers()?;
    let heard = heard(alloc, trial.machine(), timers.as_slice())?;
    Ok(Outcome {
        is_led: trial.is_led(goal),
        goes_on: trial.goes_on(),
        view: view_of(trial.machine(), timers.as_slice()),
        heard,
    })
}
