//! What is handed back where it is refused: memory is asked for a copy.
ghost use Rattle.std.specs.Prelude.{◌≡◌, None, IfErr, OnOk, OnErr, IsErrOf};
ghost use Rattle.mh_model.specs.Step.{posted, obstacle};

use crate::refusal::{Refused, RefusedFile, RefusedWhy};
use crate::works::Works;
use mh_model::{File, Input};
use std::alloc::AllocError;

impl Works {
    /// Posts the input, or hands it back where memory is refused.
    pub(crate) fn post_or_back(&mut self, input: Input) -> Result<(), Refused>
        requires { obstacle input self.old.state ≡ None }
        ensures posted { OnOk result (self.new.state ≡ posted input self.old.state) }
        ensures back { IfErr result (λ refused. refused.input ≡ input) }
        ensures why { IfErr result (λ refused. refused.why ≡ RefusedWhy.NoMemory) }
        ensures kept { OnErr result (self.new.state ≡ self.old.state) }
        ensures marks { self.new.marks ≡ self.old.marks }
    {
        match self.post_copy(&input) {
            Ok(()) => Ok(()),
            Err(_) => refuse(RefusedWhy::NoMemory, input),
        }
    }

    /// Posts a copy of the input, so that a refused one can be handed back.
    fn post_copy(&mut self, input: &Input) -> Result<(), AllocError>
        requires { obstacle input.now self.old.state ≡ None }
        ensures posted { OnOk result (self.new.state ≡ posted input.now self.old.state) }
        ensures kept { OnErr result (self.new.state ≡ self.old.state) }
        ensures marks { self.new.marks ≡ self.old.marks }
    {
        let copy = input.clone()?;
        self.post(copy)
    }
}

pub(crate) fn refuse_file(why: RefusedWhy, file: File) -> Result<(), RefusedFile>
    ensures { IsErrOf result (record { why = why; file = file }) }
{
    Err(RefusedFile { why, file })
}

pub(crate) fn refuse(why: RefusedWhy, input: Input) -> Result<(), Refused>
    ensures { IsErrOf result (record { why = why; input = input }) }
{
    Err(Refused { why, input })
}
