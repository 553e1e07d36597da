//! Runs of a receiver: posts and steps in a given order, by what its programs answer.
ghost use Rattle.std.specs.Prelude.{◌≡◌, ◌<◌, ◌≤◌, true, false, None, [], length, map, take, slice_get, IfErr, OnOk, OnErr, IsErrOf};
ghost use Rattle.std.specs.Option.{option_map_or};
ghost use Rattle.mh_model.specs.Stuck.{front_fault};
ghost use Rattle.mh_model.specs.Receiver.{IsRun};
ghost use Rattle.mh_resident.specs.Coming.{MayCome};
ghost use Rattle.mh_engine.specs.Answer.{is_counted, is_left};
ghost use Rattle.mh_engine.specs.Beside.{IsCountedRun, IsPlayed};

use crate::receiver::Receiver;
use crate::refusal::RunEnd;
use crate::runs::post_copy_or_pass;
use mh_machine::StepError;
use mh_model::Move;
use mh_resident::Resident;

impl<P: Resident> Receiver<P> {
    /// Makes these moves in order, each step by what the program answers that it calls. It ends early where
    /// memory is refused, by a program too, or the count of steps is full, at a move with which there is
    /// something to do, and then says how many moves were made. The move that was refused is none of them,
    /// and changed nothing: a run of the moves that are left goes on from there.
    pub fn run(&mut self, moves: &[Move]) -> Result<(), RunEnd>
        ensures all { let may = MayCome P.signature_of P.may_answer self.old.programs.items in
            let signatures = map P.signature_of self.old.programs.items in
            OnOk result (IsRun signatures may moves.now self.old.engine.state self.new.engine.state) }
        ensures counted { let may = MayCome P.signature_of P.may_answer self.old.programs.items in
            let signatures = map P.signature_of self.old.programs.items in
            OnOk result (IsCountedRun signatures may moves.now self.old.engine self.new.engine) }
        ensures part { let may = MayCome P.signature_of P.may_answer self.old.programs.items in
            let signatures = map P.signature_of self.old.programs.items in
            let before = self.old.engine in
            IfErr result (λ end. IsCountedRun signatures may (take end.made moves.now) before self.new.engine) }
        ensures within { IfErr result (λ end. end.made < length moves.now) }
        ensures more { IfErr result (λ end.
            option_map_or (λ next. is_left next self.new.engine.state) (slice_get moves.now end.made) false ≡ true) }
        ensures full { IfErr result (λ end. end.why ≡ StepError.CountFull →
            option_map_or (λ next. is_counted next self.new.engine.state) (slice_get moves.now end.made) true ≡ false) }
        ensures same { self.new.programs ≡ self.old.programs }
        ensures accepted { self.new.engine.accepted ≡ self.old.engine.accepted }
        ensures bounds { self.new.engine.bounds ≡ self.old.engine.bounds }
        ensures steps { self.new.engine.state.taken ≤ self.new.engine.budget }
        ensures never { self.old.engine.accepted ≡ true → front_fault self.new.engine.state ≡ None }
        ensures faultless { self.old.engine.accepted ≡ true → self.new.engine.state.faults ≡ [] }
    {
        for (made, next) in moves.iter().enumerate() {
            if let Err(why) = self.make(next) {
                self.engine.vouch();
                return Err(RunEnd { made, why });
            }
        }
        self.engine.vouch();
        Ok(())
    }

    /// One move of a run. A post that is refused for what the state is is passed over.
    fn make(&mut self, next: &Move) -> Result<(), StepError>
        ensures made { let may = MayCome P.signature_of P.may_answer self.old.programs.items in
            let signatures = map P.signature_of self.old.programs.items in
            OnOk result (IsPlayed signatures may next.now self.old.engine self.new.engine) }
        ensures counted { OnOk result (is_counted next.now self.old.engine.state ≡ true) }
        ensures kept { OnErr result (self.new.engine ≡ self.old.engine) }
        ensures more { OnErr result (is_left next.now self.old.engine.state ≡ true) }
        ensures full { IfErr result (λ why. why ≡ StepError.CountFull → is_counted next.now self.old.engine.state ≡ false) }
        ensures same { self.new.programs ≡ self.old.programs }
        ensures accepted { self.new.engine.accepted ≡ self.old.engine.accepted }
        ensures bounds { self.new.engine.bounds ≡ self.old.engine.bounds }
    {
        match next {
            Move::Post(input) => post_copy_or_pass(&mut self.engine, input),
            Move::Step => self.step_on(),
        }
    }

    fn step_on(&mut self) -> Result<(), StepError>
        ensures made { let may = MayCome P.signature_of P.may_answer self.old.programs.items in
            let signatures = map P.signature_of self.old.programs.items in
            OnOk result (IsPlayed signatures may Move.Step self.old.engine self.new.engine) }
        ensures counted { OnOk result (is_counted Move.Step self.old.engine.state ≡ true) }
        ensures kept { OnErr result (self.new.engine ≡ self.old.engine) }
        ensures more { OnErr result (is_left Move.Step self.old.engine.state ≡ true) }
        ensures full { IfErr result (λ why. why ≡ StepError.CountFull → is_counted Move.Step self.old.engine.state ≡ false) }
        ensures same { self.new.programs ≡ self.old.programs }
        ensures accepted { self.new.engine.accepted ≡ self.old.engine.accepted }
        ensures bounds { self.new.engine.bounds ≡ self.old.engine.bounds }
    {
        let _ = self.step()?;
        self.engine.vouch();
        Ok(())
    }
}
