//! The program that turns what `redplay play` prints into something to look at: the command line is
//! read and done by `mh_look`, and here is the exit status.
#![tactic(auto)]

use mh_command::{tell_no_task, words_of};
use mh_exit::Exit;
use mh_look::{Failure, Task, line_of, run_task};
use std::io;
use std::io::IsTerminal;
use std::process::ExitCode;
use std::rt::Runtime;

fn main(rt: HostRuntime) -> ExitCode {
    let is_terminal = rt.stdout().is_terminal();
    ExitCode::from(run(&rt, is_terminal).unwrap_or(Exit::Failed).code())
}

/// Does what the command line asks for.
fn run<R: Runtime + AllocGlobal>(rt: &R, is_terminal: bool) -> io::Result<Exit> {
    let Some(words) = words_of(rt, "redlook")? else {
        return Ok(Exit::Unreadable);
    };
    match line_of(rt.alloc(), words.as_slice()) {
        Ok(task) => perform(rt, &task, is_terminal),
        Err(why) => tell_no_task(rt, &why),
    }
}

/// Does a task, or tells what went wrong.
fn perform<R: Runtime + AllocGlobal>(rt: &R, task: &Task, is_terminal: bool) -> io::Result<Exit> {
    match run_task(rt, task, is_terminal) {
        Ok(outcome) => Ok(outcome.exit()),
        Err(failure) => tell_failure(rt, &failure),
    }
}

fn tell_failure<R: Runtime>(rt: &R, failure: &Failure) -> io::Result<Exit> {
    if failure.exit() != Exit::Failed {
        eprintln!(rt; "redlook: {failure}")?;
    }
    Ok(failure.exit())
}
