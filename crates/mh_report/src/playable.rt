//! `Playable`: an engine on which the commands of a script are played. One has all files of its service, another goes by a
//! seal.
ghost use Rattle.std.specs.Prelude.{◌≡◌, ◌≢◌, None, Some, Ok, Err, IfOk, OnOk};
ghost use Rattle.mh_report.specs.BySeal.{IsTold};

use crate::report::next_frame;
use mh_engine::{Engine, Refused, RefusedFile, RefusedWhy, SealedEngine};
use mh_machine::Machine;
use mh_model::{File, Input, Picture};
use mh_told::text::Text;
use std::alloc::{AllocError, Global};

/// An engine on which commands are played. A contract sees the state of its machine, and the seal by which it goes, if it
/// goes by one.
pub(crate) trait Playable: Drop {
    ghost use Rattle.std.specs.Prelude.{◌≡◌, Option, None, MatchOption, OnOk, OnErr, IfOk, IfErr, IsErrAnd};
    ghost use Rattle.mh_engine.specs.Posts.{posts_of};
    ghost use Rattle.mh_machine.specs.Refusal.{preset_refusal};
    ghost use Rattle.mh_model.specs.Picture.{shown};
    ghost use Rattle.mh_seal.specs.declared.seal.Seal.{Seal};
    ghost use Rattle.mh_model.specs.State.{State};
    ghost use Rattle.mh_model.specs.Step.{advanced, preset, preset_obstacle};
    ghost use Rattle.mh_told.specs.Frame.{frame_text};

    /// The state of its machine.
    ghost state: { Self → State };

    /// The seal by which it goes, if it goes by one.
    ghost seal: { Self → Option Seal };

    /// The machine, to be looked at.
    fn looked_at(&self) -> &Machine
        ensures { result.now ≡ state self.now };

    /// A content file is there before the first move.
    fn preset_file(&mut self, file: File) -> Result<(), RefusedFile>
        ensures preset { OnOk result (state self.new ≡ preset file (state self.old)) }
        ensures accepted { OnOk result (preset_obstacle file (state self.old) ≡ None) }
        ensures kept { OnErr result (state self.new ≡ state self.old) }
        ensures refused { MatchOption (preset_refusal file (state self.old)) (IfErr result (λ refused. refused.why ≡ RefusedWhy.NoMemory)) (λ why. IsErrAnd result (λ refused. refused.why ≡ why)) }
        ensures same { seal self.new ≡ seal self.old };

    /// Posts an input, and answers why it is refused, if it is.
    fn post_input(&mut self, alloc: Global, input: Input) -> Result<Option<RefusedWhy>, AllocError>
        ensures done { OnOk result (state self.new ≡ (posts_of (seal self.old)).behind input (state self.old)) }
        ensures told { IfOk result (λ why. why ≡ (posts_of (seal self.old)).refusal input (state self.old)) }
        ensures same { seal self.new ≡ seal self.old };

    /// Makes so many steps, or as many as there is something to do.
    fn make_steps(&mut self, most: u32) -> Result<(), AllocError>
        ensures done { OnOk result (state self.new ≡ advanced most (state self.old)) }
        ensures same { seal self.new ≡ seal self.old };

    /// Tells the picture as the frame of this number, behind the one that was shown before; it becomes that one.
    fn show_frame(
        &mut self,
        alloc: Global,
        number: u64,
        frame: &mut Picture,
    ) -> Result<Text, AllocError>
        ensures told { IfOk result (λ text. text ≡ frame_text number frame.old (shown (state self.old))) }
        ensures frame { OnOk result (frame.new ≡ shown (state self.old)) }
        ensures kept { state self.new ≡ state self.old }
        ensures same { seal self.new ≡ seal self.old };
}

impl Playable for Engine {
    ghost state = { λ e. e.state };

    ghost seal = { λ _. None };

    fn looked_at(&self) -> &Machine {
        self.machine()
    }

    fn preset_file(&mut self, file: File) -> Result<(), RefusedFile> {
        match self.preset(file) {
            Ok(()) => Ok(()),
            Err(refused) => Err(refused),
        }
    }

    fn post_input(
        &mut self,
        _alloc: Global,
        input: Input,
    ) -> Result<Option<RefusedWhy>, AllocError> {
        told_of(self.post(input))
    }

    fn make_steps(&mut self, most: u32) -> Result<(), AllocError> {
        match self.advance(most) {
            Ok(()) => Ok(()),
            Err(_) => Err(AllocError),
        }
    }

    fn show_frame(
        &mut self,
        alloc: Global,
        number: u64,
        frame: &mut Picture,
    ) -> Result<Text, AllocError> {
        next_frame(alloc, number, frame, self.picture())
    }
}

impl Playable for SealedEngine {
    ghost state = { λ e. e.state };

    ghost seal = { λ e. Some e.seal };

    fn looked_at(&self) -> &Machine {
        self.machine()
    }

    fn preset_file(&mut self, file: File) -> Result<(), RefusedFile> {
        match self.preset(file) {
            Ok(()) => Ok(()),
            Err(refused) => Err(refused),
        }
    }

    fn post_input(
        &mut self,
        alloc: Global,
        input: Input,
    ) -> Result<Option<RefusedWhy>, AllocError> {
        told_of(self.post(alloc, input))
    }

    fn make_steps(&mut self, most: u32) -> Result<(), AllocError> {
        match self.advance(most) {
            Ok(()) => Ok(()),
            Err(_) => Err(AllocError),
        }
    }

    fn show_frame(
        &mut self,
        alloc: Global,
        number: u64,
        frame: &mut Picture,
    ) -> Result<Text, AllocError> {
        next_frame(alloc, number, frame, self.picture())
    }
}

/// Why a post was refused, if it was. Want of memory is no refusal.
fn told_of(posted: Result<(), Refused>) -> Result<Option<RefusedWhy>, AllocError>
    ensures { IfOk result (IsTold posted) }
{
    match posted {
        Ok(()) => Ok(None),
        Err(refused) => match why_refused(refused) {
            RefusedWhy::NoMemory => Err(AllocError),
            why => Ok(Some(why)),
        },
    }
}

/// Why an input was refused, without the input.
fn why_refused(refused: Refused) -> RefusedWhy
    ensures { result ≡ refused.why }
{
    let Refused { why, input: _ } = refused;
    why
}
