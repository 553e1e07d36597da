//! Calls of the machine: what is in the way is answered, and want of memory is an error.
ghost use Rattle.std.specs.Prelude.{◌≡◌, ◌+◌, ◌<◌, ◌^◌, true, IfOk, OnOk};
ghost use Rattle.std.specs.Option.{is_some};
ghost use Rattle.mh_model.specs.Step.{obstacle, posted, preset_obstacle, step};
ghost use Rattle.mh_machine.specs.Refusal.{obstacle_in};
ghost use Rattle.mh_machine.specs.Rest.{answer_of};
ghost use Rattle.mh_trace.specs.Trace.{preset_unless};

use mh_machine::{Judged, Machine, RefusedWhy, StepError, Stepped};
use mh_model::{File, Input, Obstacle};
use std::alloc::AllocError;

/// Presets a copy of the file, if nothing is in the way. What is.
pub fn preset_copy(machine: &mut Machine, file: &File) -> Result<Option<Obstacle>, AllocError>
    ensures barred { IfOk result (λ found. found ≡ preset_obstacle file.now machine.old) }
    ensures preset { OnOk result (machine.new ≡ preset_unless (preset_obstacle file.now machine.old) file.now machine.old) }
{
    match machine.preset(file.clone()?) {
        Ok(()) => Ok(None),
        Err(refused) => in_the_way(refused.why),
    }
}

/// Posts a copy of the input, if nothing is in the way. What is.
pub fn post_copy(machine: &mut Machine, input: &Input) -> Result<Option<Obstacle>, AllocError>
    ensures barred { IfOk result (λ found. found ≡ obstacle input.now machine.old) }
    ensures posted { OnOk result (machine.new ≡ posted input.now machine.old) }
{
    match machine.post(input.clone()?) {
        Ok(()) => Ok(None),
        Err(refused) => in_the_way(refused.why),
    }
}

/// What is in the way of what was refused, unless memory was.
fn in_the_way(why: RefusedWhy) -> Result<Option<Obstacle>, AllocError>
    ensures found { IfOk result (λ found. found ≡ obstacle_in why) }
    ensures one { IfOk result (λ found. is_some found ≡ true) }
{
    match why.obstacle() {
        Some(obstacle) => Ok(Some(obstacle)),
        None => Err(AllocError),
    }
}

/// Makes a step that can be counted.
pub fn step_once(machine: &mut Machine) -> Result<Stepped, AllocError>
    requires { machine.old.taken + 1 < 2 ^ 64 }
    ensures step { OnOk result (machine.new ≡ step machine.old) }
    ensures answer { IfOk result (λ a. a ≡ answer_of machine.old) }
{
    match machine.step::<Judged>() {
        Ok(answer) => Ok(answer),
        Err(StepError::NoMemory) => Err(AllocError),
        Err(StepError::CountFull) => unreachable!(),
    }
}
