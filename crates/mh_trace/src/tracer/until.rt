//! Commands that are done up to so many steps.
ghost use Rattle.std.specs.Prelude.{◌≡◌, ◌-◌, ◌<◌, OnOk};
ghost use Rattle.mh_trace.specs.Run as spec;
ghost use Rattle.mh_trace.specs.Trace.{traced};

use crate::form::Telling;
use crate::tracer::Tracer;
use mh_script::Command;
use mh_told::text::Text;
use std::alloc::AllocError;

impl Tracer {
    /// Does the commands of a script in order until so many steps are made in all, and tells nothing.
    pub fn play_until(&mut self, steps: u64, commands: &[Command]) -> Result<(), AllocError>
        ensures { OnOk result (self.new ≡ spec.all_until steps commands.now self.old) }
    {
        for command in commands {
            self.obey_until(steps, command)?;
        }
        Ok(())
    }

    fn obey_until(&mut self, steps: u64, command: &Command) -> Result<(), AllocError>
        ensures { OnOk result (self.new ≡ spec.traced_until steps command.now self.old) }
    {
        let taken = self.machine.taken();
        if steps <= taken {
            return Ok(());
        }
        self.obey_up_to(steps - taken, command)
    }

    /// Does a command with so many steps at most.
    fn obey_up_to(&mut self, left: u64, command: &Command) -> Result<(), AllocError>
        ensures { OnOk result (self.new ≡ traced (spec.up_to left command.now) self.old) }
    {
        match command {
            Command::Step(most) => self.obey_silently(&Command::Step(least(left, *most))),
            _ => self.obey_silently(command),
        }
    }

    fn obey_silently(&mut self, command: &Command) -> Result<(), AllocError>
        ensures { OnOk result (self.new ≡ traced command.now self.old) }
    {
        let mut text = Text::new(self.alloc);
        self.obey(&Telling::nothing(), command, &mut text)
    }
}

/// The lesser of the two.
fn least(left: u64, most: u32) -> u32
    ensures { result ≡ spec.least left most }
{
    if left < u64::from(most) {
        left as u32
    } else {
        most
    }
}
