//! Many steps at once.
ghost use Rattle.std.specs.Prelude.{◌≡◌, false, true, IfOk, OnOk, OnErr};
ghost use Rattle.mh_model.specs.Stuck.{front_fault};
ghost use Rattle.mh_model.specs.Step.{advanced, is_settled, stepped};
ghost use Rattle.mh_machine.specs.Judging.{AreAllowed};
ghost use Rattle.mh_machine.specs.Working.{IsPartly};

use crate::judging::Judging;
use crate::works::Works;
use std::alloc::AllocError;

impl Works {
    /// Makes so many steps, or as many as there is something to do and as are counted.
    pub(crate) fn advance<J: Judging>(&mut self, most: u32) -> Result<(), AllocError>
        requires { AreAllowed J.allows most self.old.state }
        ensures all { OnOk result (self.new.state ≡ advanced most self.old.state) }
        ensures some { OnErr result (IsPartly most self.old.state self.new.state) }
    {
        for made in 0..most {
            if !self.go_on::<J>()? {
                break;
            }
        }
        Ok(())
    }

    /// Makes a step, if there is something to do and another step is counted, and tells whether one was made.
    #[tactic(auto, using(crate::proofs::StepLemmas::stepped_room, crate::proofs::StepLemmas::stepped_settled, crate::proofs::StepLemmas::stepped_full))]
    fn go_on<J: Judging>(&mut self) -> Result<bool, AllocError>
        requires { J.allows (front_fault self.old.state) }
        ensures made { OnOk result (self.new.state ≡ stepped self.old.state) }
        ensures over { IfOk result (λ more. more ≡ false → stepped self.new.state ≡ self.new.state) }
        ensures kept { OnErr result (self.new.state ≡ self.old.state) }
        ensures more { OnErr result (is_settled self.new.state ≡ false) }
    {
        if self.is_settled() || self.taken == u64::MAX {
            return Ok(false);
        }
        self.step::<J>()?;
        Ok(true)
    }
}
