//! A script that is done where a session stands.
ghost use Rattle.std.specs.Prelude.{◌≡◌, ◌++◌, Ok, OnOk};
ghost use Rattle.mh_codec.specs.Tags.{profile};
ghost use Rattle.mh_told.specs.Reading.{Gives};
ghost use Rattle.mh_trace.specs.Trace.{traced_all};
ghost use Rattle.mh_try.specs.Tried.{commands_of};
ghost use Rattle.redplay_page.specs.Playing.{IsObeyed, ObeysBy, commands_text};

use crate::session::Session;
use mh_base::Seq;
use mh_codec::TagTable;
use mh_crossing::{GOOD, NO_MEMORY, NO_SCRIPT};
use mh_script::Command;
use mh_service::Service;
use mh_told::text::Text;
use mh_told::unplayable::Unplayable;
use mh_trace::{Telling, Tracer};
use mh_try::tried::read_commands;
use std::alloc::{AllocError, Global};

impl Session {
    /// Does the commands of a script, tells what each does, and answers 0 or why it is not done.
    #[tactic(auto, using(crate::proofs::PlayLemmas::obeyed_so, crate::proofs::PlayLemmas::unread_so, crate::proofs::PlayLemmas::starved_so))]
    pub fn obey(&mut self, script: &[u8]) -> u32
        ensures { IsObeyed script.now self.old self.new result }
    {
        match commands_on(self.alloc, self.tracer.machine().service(), script) {
            Ok(commands) => self.obey_all(commands.as_slice()),
            Err(Unplayable::NoMemory) => NO_MEMORY,
            Err(_) => NO_SCRIPT,
        }
    }

    fn obey_all(&mut self, commands: &[Command]) -> u32
        ensures { ObeysBy (Ok commands.now) self.old self.new result }
    {
        match tell_all(&self.telling, &mut self.tracer, commands, &mut self.told) {
            Ok(()) => GOOD,
            Err(_) => NO_MEMORY,
        }
    }
}

/// The commands of a script on this service, with the tags of the profile.
fn commands_on(alloc: Global, service: &Service, script: &[u8]) -> Result<Seq<Command>, Unplayable>
    ensures { Gives (λ found. found) result (commands_of profile service.now.files script.now) }
{
    let tags = TagTable::profile(alloc)?;
    read_commands(alloc, &tags, service, script)
}

/// Does these commands in order, and puts what is told of each.
fn tell_all(
    telling: &Telling,
    tracer: &mut Tracer,
    commands: &[Command],
    text: &mut Text,
) -> Result<(), AllocError>
    ensures lines { OnOk result (text.new ≡ text.old ++ commands_text telling.now commands.now tracer.old) }
    ensures left { OnOk result (tracer.new ≡ traced_all commands.now tracer.old) }
{
    for command in commands {
        tracer.obey(telling, command, text)?;
    }
    Ok(())
}
