//! Scripts that are run on a machine, with nothing told of them.
ghost use Rattle.std.specs.Prelude.{◌≡◌, OnOk};
ghost use Rattle.mh_model.specs.Step.{advanced, posted};
ghost use Rattle.mh_trace.specs.Run.{commanded, commanded_all};
ghost use Rattle.mh_try.specs.Led as spec;

use mh_machine::{Judged, Machine};
use mh_model::{File, Input};
use mh_script::Command;
use mh_trace::{post_copy, preset_copy};
use std::alloc::AllocError;

/// Puts the content files there, and does the commands in order.
pub(crate) fn run(
    machine: &mut Machine,
    contents: &[File],
    commands: &[Command],
) -> Result<(), AllocError>
    ensures { OnOk result (machine.new ≡ spec.run_of contents.now commands.now machine.old) }
{
    preset_all(machine, contents)?;
    run_all(machine, commands)
}

fn preset_all(machine: &mut Machine, contents: &[File]) -> Result<(), AllocError>
    ensures { OnOk result (machine.new ≡ spec.preset_all contents.now machine.old) }
{
    for file in contents {
        preset_one(machine, file)?;
    }
    Ok(())
}

/// Puts a copy of the file there, unless something is in the way.
fn preset_one(machine: &mut Machine, file: &File) -> Result<(), AllocError>
    ensures { OnOk result (machine.new ≡ spec.preset_one file.now machine.old) }
{
    preset_copy(machine, file)?;
    Ok(())
}

fn run_all(machine: &mut Machine, commands: &[Command]) -> Result<(), AllocError>
    ensures { OnOk result (machine.new ≡ commanded_all commands.now machine.old) }
{
    for command in commands {
        run_one(machine, command)?;
    }
    Ok(())
}

fn run_one(machine: &mut Machine, command: &Command) -> Result<(), AllocError>
    ensures { OnOk result (machine.new ≡ commanded command.now machine.old) }
{
    match command {
        Command::Post(input) => post(machine, input),
        Command::Step(most) => advance(machine, *most),
        Command::Show => Ok(()),
    }
}

/// Posts a copy of the input, unless something is in the way.
fn post(machine: &mut Machine, input: &Input) -> Result<(), AllocError>
    ensures { OnOk result (machine.new ≡ posted input.now machine.old) }
{
    post_copy(machine, input)?;
    Ok(())
}

fn advance(machine: &mut Machine, most: u32) -> Result<(), AllocError>
    ensures { OnOk result (machine.new ≡ advanced most machine.old) }
{
    machine.advance::<Judged>(most)
}
