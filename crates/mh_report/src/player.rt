//! `Player`: an engine, and what was shown of it. It does the commands of a script one by one, and writes
//! what the report says of each.
ghost use Rattle.std.specs.Prelude.{◌≡◌, ◌-◌, ◌<◌, ◌^◌, [], Err, IsOk, OnOk, OnErr, IfOk, IfErr, IsErrOf};
ghost use Rattle.std.specs.Io.KnownBytes.{Appends};
ghost use Rattle.mh_report.specs.Sink.{IsBeginning};
ghost use Rattle.mh_report.specs.Report.{played, command_lines, script_lines, ended, status_of};
ghost use Rattle.mh_told.specs.Told.{total_line};
ghost use Rattle.mh_told.specs.Reading.{Gives};
ghost use Rattle.mh_report.specs.Presets.{begins, opened, presets};

use crate::play_error::PlayError;
use crate::playable::Playable;
use crate::preset::preset_all;
use crate::sink::{Sink, write_all};
use crate::status::Status;
use crate::telling::{progress, refusal};
use mh_engine::{Engine, StartError};
use mh_model::{File, Input, Picture};
use mh_script::Command;
use mh_service::Service;
use mh_told::text::Text;
use mh_told::told::put_total;
use mh_told::unplayable::Unplayable;
use mh_verify::Accepted;
use std::alloc::{AllocError, Global};
use std::marker::Model;

/// An engine with the frame that was shown last, and how many were shown.
#[derive(Drop)]
pub(crate) struct Player<E: Playable> {
    alloc: Global,
    engine: E,
    frame: Picture,
    frames: u64,
}

impl<E: Playable> Model for Player<E> {
    ghost use Rattle.mh_report.specs.Report.{Session};

    ghost Value = { Session };

    ghost view = { λ p. record {
      seal = E.seal p.engine;
      state = E.state p.engine;
      frame = p.frame;
      frames = p.frames;
    } };
}

impl Player<Engine> {
    /// A player at the start of this service on this day, with these files there.
    #[tactic(auto, unfolding(crate::specs::Presets::opened))]
    pub fn of_service(
        alloc: Global,
        service: Service,
        mjd: u32,
        files: &[File],
    ) -> Result<Player<Engine>, Unplayable>
        requires plain { service.programs ≡ [] }
        ensures opened { Gives (λ player. player) result (opened service mjd files.now) }
        ensures fresh { IfOk result (λ player. player.frames ≡ 0) }
    {
        match Engine::start_lenient(alloc, service, mjd) {
            Ok(engine) => Player::with_files(alloc, engine, files),
            Err(_) => Err(Unplayable::NoMemory),
        }
    }

    /// A player at the start of a service that the verifier accepts, on this day, with these files
    /// there. The service has no programs but the built-in ones, so that only memory can be refused.
    #[tactic(auto, unfolding(crate::specs::Presets::opened))]
    pub fn of_accepted(
        alloc: Global,
        accepted: Accepted,
        mjd: u32,
        files: &[File],
    ) -> Result<Player<Engine>, Unplayable>
        requires plain { accepted.service.programs ≡ [] }
        ensures opened { Gives (λ player. player) result (opened accepted.service mjd files.now) }
        ensures fresh { IfOk result (λ player. player.frames ≡ 0) }
    {
        match Engine::start(alloc, accepted, mjd) {
            Ok(engine) => Player::with_files(alloc, engine, files),
            Err(refused) => match refused.why {
                StartError::NoMemory => Err(Unplayable::NoMemory),
                StartError::ProgramsDiffer => unreachable!(),
            },
        }
    }
}

impl<E: Playable> Player<E> {
    /// A player with an engine that has just begun, and with these files there. The frame before the
    /// first one is black.
    pub fn with_files(alloc: Global, engine: E, files: &[File]) -> Result<Player<E>, Unplayable>
        ensures opened { Gives (λ player. player) result (begins (E.seal engine) (presets files.now (E.state engine))) }
        ensures fresh { IfOk result (λ player. player.frames ≡ 0) }
    {
        let frame = Picture::black(alloc)?;
        let mut player = Player {
            alloc,
            engine,
            frame,
            frames: 0,
        };
        let set = preset_all(alloc, &mut player.engine, files);
        once_set(set, player)
    }

    /// Does a command, and writes what it prints.
    pub fn obey<S: Sink>(&mut self, command: &Command, sink: &mut S) -> Result<(), PlayError>
        requires count { self.old.frames < 2 ^ 64 - 1 }
        requires room { S.failures sink.old < 2 ^ 64 - 1 }
        ensures done { OnOk result (self.new ≡ played command.now self.old) }
        ensures whole { OnOk result (Appends (S.written sink.old) (S.written sink.new) (command_lines command.now self.old)) }
        ensures good { OnOk result (S.failures sink.new ≡ S.failures sink.old) }
        ensures cut { OnErr result (IsBeginning (S.written sink.old) (S.written sink.new) (command_lines command.now self.old)) }
        ensures write { IsErrOf result PlayError.Write → S.failures sink.old < S.failures sink.new }
    {
        let text = self.told(command)?;
        write_all(sink, text.as_slice())
    }

    /// Does a command, and answers what it prints.
    fn told(&mut self, command: &Command) -> Result<Text, AllocError>
        requires { self.old.frames < 2 ^ 64 - 1 }
        ensures done { OnOk result (self.new ≡ played command.now self.old) }
        ensures whole { IfOk result (λ text. text ≡ command_lines command.now self.old) }
    {
        match command {
            Command::Post(input) => self.post(copied(input)?),
            Command::Step(limit) => self.advance(*limit),
            Command::Show => self.show(),
        }
    }

    #[tactic(auto, using(crate::proofs::SessionLemmas::post_moved, crate::proofs::SessionLemmas::post_told))]
    fn post(&mut self, input: Input) -> Result<Text, AllocError>
        ensures done { OnOk result (self.new ≡ played (Command.Post input) self.old) }
        ensures whole { IfOk result (λ text. text ≡ command_lines (Command.Post input) self.old) }
    {
        let why = self.engine.post_input(self.alloc, input)?;
        refusal(self.alloc, why)
    }

    #[tactic(auto, using(crate::proofs::SessionLemmas::advance_moved, crate::proofs::SessionLemmas::advance_told))]
    fn advance(&mut self, limit: u32) -> Result<Text, AllocError>
        ensures done { OnOk result (self.new ≡ played (Command.Step limit) self.old) }
        ensures whole { IfOk result (λ text. text ≡ command_lines (Command.Step limit) self.old) }
    {
        let before = self.engine.looked_at();
        let steps = before.taken();
        let faults = before.faults().len();
        self.engine.make_steps(limit)?;
        progress(self.alloc, self.engine.looked_at(), steps, faults)
    }

    #[tactic(auto, using(crate::proofs::SessionLemmas::show_moved, crate::proofs::SessionLemmas::show_told))]
    fn show(&mut self) -> Result<Text, AllocError>
        requires { self.old.frames < 2 ^ 64 - 1 }
        ensures done { OnOk result (self.new ≡ played Command.Show self.old) }
        ensures whole { IfOk result (λ text. text ≡ command_lines Command.Show self.old) }
    {
        let number = self.frames + 1;
        let text = self.engine.show_frame(self.alloc, number, &mut self.frame)?;
        self.frames = number;
        Ok(text)
    }

    /// The line at the end: the steps taken.
    fn total(&self) -> Result<Text, AllocError>
        ensures { IfOk result (λ text. text ≡ total_line self.now.state.taken) }
    {
        let mut text = Text::new(self.alloc);
        put_total(&mut text, self.engine.looked_at().taken())?;
        Ok(text)
    }

    /// How the play ended.
    fn status(&self) -> Status
        ensures { result ≡ status_of self.now.state.faults }
    {
        if self.engine.looked_at().faults().is_empty() {
            Status::Good
        } else {
            Status::Faults
        }
    }

    /// Does the commands in order, and tells the steps taken at the end.
    pub fn play<S: Sink>(&mut self, commands: &[Command], sink: &mut S) -> Result<Status, PlayError>
        requires count { self.old.frames ≡ 0 }
        requires room { S.failures sink.old < 2 ^ 64 - 1 }
        ensures whole { OnOk result (Appends (S.written sink.old) (S.written sink.new) (script_lines commands.now self.old)) }
        ensures left { OnOk result (self.new ≡ ended commands.now self.old) }
        ensures status { IfOk result (λ status. status ≡ status_of (ended commands.now self.old).state.faults) }
        ensures cut { OnErr result (IsBeginning (S.written sink.old) (S.written sink.new) (script_lines commands.now self.old)) }
        ensures write { IsErrOf result PlayError.Write → S.failures sink.old < S.failures sink.new }
    {
        for command in commands {
            self.obey(command, sink)?;
        }
        let text = self.total()?;
        write_all(sink, text.as_slice())?;
        Ok(self.status())
    }
}

/// What plays the commands of a script. A contract sees the session. What is generic in it does not
/// speak of how an engine is dropped.
pub(crate) trait Plays: Drop {
    ghost use Rattle.std.specs.Prelude.{◌≡◌, ◌-◌, ◌<◌, ◌^◌, OnOk, OnErr, IfOk, IsErrOf};
    ghost use Rattle.std.specs.Io.KnownBytes.{Appends};
    ghost use Rattle.mh_report.specs.Sink.{IsBeginning};
    ghost use Rattle.mh_report.specs.Report.{Session, script_lines, ended, status_of};

    /// The session.
    ghost session: { Self → Session };

    /// Does the commands in order, and tells the steps taken at the end.
    fn play_all<S: Sink>(&mut self, commands: &[Command], sink: &mut S) -> Result<Status, PlayError>
        requires count { (session self.old).frames ≡ 0 }
        requires room { S.failures sink.old < 2 ^ 64 - 1 }
        ensures whole { let lines = script_lines commands.now (session self.old) in
            OnOk result (Appends (S.written sink.old) (S.written sink.new) lines) }
        ensures status { let after = ended commands.now (session self.old) in
            IfOk result (λ status. status ≡ status_of after.state.faults) }
        ensures cut { let lines = script_lines commands.now (session self.old) in
            OnErr result (IsBeginning (S.written sink.old) (S.written sink.new) lines) }
        ensures write { IsErrOf result PlayError.Write → S.failures sink.old < S.failures sink.new };
}

impl<E: Playable> Plays for Player<E> {
    ghost session = { λ p. p };

    fn play_all<S: Sink>(
        &mut self,
        commands: &[Command],
        sink: &mut S,
    ) -> Result<Status, PlayError> {
        self.play(commands, sink)
    }
}

/// What is handed over, where the files are there. What is generic in it does not speak of how an engine
/// is dropped.
fn once_set<P: Drop>(set: Result<(), Unplayable>, player: P) -> Result<P, Unplayable>
    ensures same { IfOk result (λ given. given ≡ player) }
    ensures good { OnOk result (IsOk set) }
    ensures refused { IfErr result (λ why. set ≡ Err why) }
{
    match set {
        Ok(()) => Ok(player),
        Err(why) => Err(why),
    }
}

fn copied(input: &Input) -> Result<Input, AllocError>
    ensures { IfOk result (λ copy. copy ≡ input.now) }
{
    input.clone()
}
