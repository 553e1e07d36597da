//! Runs: posts and steps in a given order.
ghost use Rattle.std.specs.Prelude.{◌≡◌, ◌+◌, ◌<◌, ◌≤◌, true, false, None, [], length, take, slice_get, IfErr, OnOk, OnErr, IsErrOf};
ghost use Rattle.std.specs.Option.{option_map_or};
ghost use Rattle.mh_model.specs.Stuck.{front_fault};
ghost use Rattle.mh_model.specs.Step.{stepped, posted, moved, run};
ghost use Rattle.mh_engine.specs.Answer.{is_left, is_counted, are_counted};
ghost use Rattle.mh_engine.specs.Play.{budget_after, budget_behind};

use crate::Engine;
use crate::refusal::RunEnd;
use mh_machine::{Refused, RefusedWhy, StepError};
use mh_model::{Input, Move};

/// One move of a run. A post that is refused for what the state is is passed over.
fn make(engine: &mut Engine, next: &Move) -> Result<(), StepError>
    ensures made { OnOk result (engine.new.state ≡ moved next.now engine.old.state) }
    ensures counted { OnOk result (is_counted next.now engine.old.state ≡ true) }
    ensures budget { OnOk result (engine.new.budget ≡ budget_behind engine.old.bounds next.now engine.old.state engine.old.budget) }
    ensures kept { OnErr result (engine.new ≡ engine.old) }
    ensures same { engine.new.accepted ≡ engine.old.accepted }
    ensures bounds { engine.new.bounds ≡ engine.old.bounds }
    ensures more { OnErr result (is_left next.now engine.old.state ≡ true) }
    ensures full { IfErr result (λ why. why ≡ StepError.CountFull → is_counted next.now engine.old.state ≡ false) }
{
    match next {
        Move::Post(input) => post_copy_or_pass(engine, input),
        Move::Step => step_on(engine),
    }
}

fn step_on(engine: &mut Engine) -> Result<(), StepError>
    ensures made { OnOk result (engine.new.state ≡ stepped engine.old.state) }
    ensures counted { OnOk result (is_counted Move.Step engine.old.state ≡ true) }
    ensures budget { OnOk result (engine.new.budget ≡ budget_behind engine.old.bounds Move.Step engine.old.state engine.old.budget) }
    ensures kept { OnErr result (engine.new ≡ engine.old) }
    ensures same { engine.new.accepted ≡ engine.old.accepted }
    ensures bounds { engine.new.bounds ≡ engine.old.bounds }
    ensures more { OnErr result (is_left Move.Step engine.old.state ≡ true) }
    ensures full { IfErr result (λ why. why ≡ StepError.CountFull → is_counted Move.Step engine.old.state ≡ false) }
{
    let _ = engine.step()?;
    engine.vouch();
    Ok(())
}

/// A copy of an input is posted. One that is refused for what the state is is passed over.
pub(crate) fn post_copy_or_pass(engine: &mut Engine, input: &Input) -> Result<(), StepError>
    ensures made { OnOk result (engine.new.state ≡ posted input.now engine.old.state) }
    ensures budget { OnOk result (engine.new.budget ≡ budget_behind engine.old.bounds (Move.Post input.now) engine.old.state engine.old.budget) }
    ensures kept { OnErr result (engine.new ≡ engine.old) }
    ensures same { engine.new.accepted ≡ engine.old.accepted }
    ensures bounds { engine.new.bounds ≡ engine.old.bounds }
    ensures why { IfErr result (λ why. why ≡ StepError.NoMemory) }
{
    let copy = input.clone()?;
    post_or_pass(engine, copy)
}

fn post_or_pass(engine: &mut Engine, input: Input) -> Result<(), StepError>
    ensures made { OnOk result (engine.new.state ≡ posted input engine.old.state) }
    ensures budget { OnOk result (engine.new.budget ≡ budget_behind engine.old.bounds (Move.Post input) engine.old.state engine.old.budget) }
    ensures kept { OnErr result (engine.new ≡ engine.old) }
    ensures same { engine.new.accepted ≡ engine.old.accepted }
    ensures bounds { engine.new.bounds ≡ engine.old.bounds }
    ensures why { IfErr result (λ why. why ≡ StepError.NoMemory) }
{
    match engine.post(input) {
        Ok(()) => Ok(()),
        Err(refused) => match why_refused(refused) {
            RefusedWhy::NoMemory => Err(StepError::NoMemory),
            RefusedWhy::Ended
            | RefusedWhy::TickRange
            | RefusedWhy::Begun
            | RefusedWhy::NotLate
            | RefusedWhy::Differs
            | RefusedWhy::TooLarge
            | RefusedWhy::TooMany
            | RefusedWhy::ClockFull
            | RefusedWhy::QueueFull => {
                engine.vouch();
                Ok(())
            }
        },
    }
}

/// Why an input was refused, without the input.
fn why_refused(refused: Refused) -> RefusedWhy
    ensures { result ≡ refused.why }
{
    let Refused { why, input: _ } = refused;
    why
}

/// Makes these moves in order. It ends early where memory is refused or the count of steps is full, at a
/// move with which there is something to do, and then says how many moves were made. The move that was
/// refused is none of them, and changed nothing: a run of the moves that are left goes on from there.
pub fn run(engine: &mut Engine, moves: &[Move]) -> Result<(), RunEnd>
    ensures all { OnOk result (engine.new.state ≡ run moves.now engine.old.state) }
    ensures counted { OnOk result (are_counted moves.now engine.old.state ≡ true) }
    ensures budget { OnOk result (engine.new.budget ≡ budget_after engine.old.bounds moves.now engine.old.state engine.old.budget) }
    ensures part { IfErr result (λ end. engine.new.state ≡ run (take end.made moves.now) engine.old.state) }
    ensures paid { IfErr result (λ end.
        engine.new.budget ≡ budget_after engine.old.bounds (take end.made moves.now) engine.old.state engine.old.budget) }
    ensures before { IfErr result (λ end. are_counted (take end.made moves.now) engine.old.state ≡ true) }
    ensures within { IfErr result (λ end. end.made < length moves.now) }
    ensures more { IfErr result (λ end. option_map_or (λ next. is_left next engine.new.state) (slice_get moves.now end.made) false ≡ true) }
    ensures same { engine.new.accepted ≡ engine.old.accepted }
    ensures bounds { engine.new.bounds ≡ engine.old.bounds }
    ensures steps { engine.new.state.taken ≤ engine.new.budget }
    ensures never { engine.old.accepted ≡ true → front_fault engine.new.state ≡ None }
    ensures faultless { engine.old.accepted ≡ true → engine.new.state.faults ≡ [] }
    ensures full { IfErr result (λ end. end.why ≡ StepError.CountFull → are_counted (take (end.made + 1) moves.now) engine.old.state ≡ false) }
{
    for (made, next) in moves.iter().enumerate() {
        if let Err(why) = make(engine, next) {
            engine.vouch();
            return Err(RunEnd { made, why });
        }
    }
    engine.vouch();
    Ok(())
}
