//! The program that tries a service: key by key at a terminal, step by step, and which script leads to a fault.
#![tactic(auto)]

mod arriving;
mod clock;
mod command_line;
mod doing;
mod failure;
mod finding;
mod following;
mod keeping;
mod live;
mod notices;
mod parts;
mod program;
mod session;
mod terminal;
mod window;

use command_line::{LineError, Task, line_of};
use doing::run_task;
use failure::Failure;
use mh_command::{tell_no_task, tell_unread, words_of};
use mh_exit::Exit;
use mh_told::unplayable::Unplayable;
use mh_verdict::complaint_text;
use std::io;
use std::io::{IsTerminal, Write};
use std::process::ExitCode;
use std::rt::Runtime;

fn main(rt: HostRuntime) -> ExitCode {
    let is_watched = rt.stderr().is_terminal();
    ExitCode::from(run(&rt, is_watched).unwrap_or(Exit::Failed).code())
}

/// Does what the command line asks for; a terminal at standard error is told how far it is.
fn run<R: Runtime + AllocGlobal>(rt: &R, is_watched: bool) -> io::Result<Exit> {
    let Some(words) = words_of(rt, "redtry")? else {
        return Ok(Exit::Unreadable);
    };
    match line_of(rt.alloc(), words.as_slice()) {
        Ok(task) => perform(rt, &task, is_watched),
        Err(LineError::NoTask(why)) => tell_no_task(rt, &why),
        Err(LineError::NoObject) => {
            eprintln!(rt;
                "redtry: --only and --object want a group and the number of an object, as in --only s 10"
            )?;
            Ok(Exit::Unreadable)
        }
        Err(LineError::NoCell) => {
            eprintln!(rt;
                "redtry: --cell wants a column below 60 and a row below 36, as in --cell 12 5"
            )?;
            Ok(Exit::Unreadable)
        }
        Err(LineError::ManyParts) => {
            eprintln!(rt; "redtry: state tells one thing: --object or --cell")?;
            Ok(Exit::Unreadable)
        }
        Err(LineError::NoForm) => {
            eprintln!(rt; "redtry: --format wants text or json")?;
            Ok(Exit::Unreadable)
        }
        Err(LineError::NoScene) => {
            eprintln!(rt; "redtry: --to wants the path of a scene, as in --to s")?;
            Ok(Exit::Unreadable)
        }
        Err(LineError::ManyAims) => {
            eprintln!(rt; "redtry: find looks for one thing: --endless, --over, --to or --shows")?;
            Ok(Exit::Unreadable)
        }
    }
}

/// Does a task, or tells why nothing was tried.
fn perform<R: Runtime + AllocGlobal>(
    rt: &R,
    task: &Task<'_>,
    is_watched: bool,
) -> io::Result<Exit> {
    match run_task(rt, task, is_watched) {
        Ok(exit) => Ok(exit),
        Err(failure) => tell_failure(rt, &failure),
    }
}

fn tell_failure<R: Runtime + AllocGlobal>(rt: &R, failure: &Failure) -> io::Result<Exit> {
    match failure {
        Failure::Failed => Ok(Exit::Failed),
        Failure::Unread(why) => tell_unread(rt, why),
        Failure::Unplayable(why) => tell_unplayable(rt, why),
        Failure::Unwritable(name) => {
            eprintln!(rt; "redtry: cannot write {name}")?;
            Ok(Exit::Failed)
        }
    }
}

fn tell_unplayable<R: Runtime + AllocGlobal>(rt: &R, why: &Unplayable) -> io::Result<Exit> {
    let text = complaint_text(rt.alloc(), why)?;
    let mut output = io::writer(rt);
    output.write_all(text.as_slice())?;
    output.flush()?;
    Ok(Exit::Unreadable)
}
