//! Doing what the command line asks for.
use crate::command_line::{Asked, Task};
use crate::failure::Failure;
use crate::finding::{find, write_text};
use crate::following::{Given, given_of};
use crate::live::play_live;
use mh_base::ObjRef;
use mh_exit::Exit;
use mh_folder::read_input;
use mh_try::{Part, Telling, cover_of, refusal_of, state_of, trace_of};
use std::rt::Runtime;

/// Tells what is asked for.
pub fn run_task<R: Runtime + AllocGlobal>(
    rt: &R,
    task: &Task<'_>,
    is_watched: bool,
) -> Result<Exit, Failure> {
    if let Asked::Live(options) = &task.asked {
        return play_live(rt, task, options);
    }
    let given = given_of(rt, &task.source, task.mjd)?;
    run_asked(rt, &given, &task.asked, is_watched)
}

fn run_asked<R: Runtime + AllocGlobal>(
    rt: &R,
    given: &Given,
    asked: &Asked<'_>,
    is_watched: bool,
) -> Result<Exit, Failure> {
    match asked {
        Asked::Trace {
            script,
            strict,
            only,
            telling,
        } => run_trace(rt, given, *script, *strict, only.as_ref(), telling),
        Asked::State { script, at, part } => run_state(rt, given, *script, *at, part),
        Asked::Cover { scripts, tap } => run_cover(rt, given, scripts.as_slice(), *tap),
        Asked::Find(options) => find(rt, given, options, is_watched),
        // a play reads its files itself, again and again
        Asked::Live(_) => Ok(Exit::Good),
    }
}

fn run_trace<R: Runtime + AllocGlobal>(
    rt: &R,
    given: &Given,
    script: &str,
    strict: bool,
    only: Option<&ObjRef>,
    telling: &Telling,
) -> Result<Exit, Failure> {
    let script = read_input(rt, script)?;
    if strict && tell_refusal(rt, given)? {
        return Ok(Exit::Otherwise);
    }
    let text = trace_of(
        rt.alloc(),
        given.files.as_slice(),
        script.as_slice(),
        &given.chosen,
        telling,
        only,
    )?;
    write_text(rt, &text)
}

/// Whether the verifier refuses the service, whose lines are written then.
fn tell_refusal<R: Runtime + AllocGlobal>(rt: &R, given: &Given) -> Result<bool, Failure> {
    match refusal_of(rt.alloc(), given.files.as_slice(), &given.chosen)? {
        Some(refusal) => {
            write_text(rt, &refusal)?;
            Ok(true)
        }
        None => Ok(false),
    }
}

fn run_state<R: Runtime + AllocGlobal>(
    rt: &R,
    given: &Given,
    script: &str,
    steps: u64,
    part: &Part,
) -> Result<Exit, Failure> {
    let script = read_input(rt, script)?;
    let text = state_of(
        rt.alloc(),
        given.files.as_slice(),
        script.as_slice(),
        &given.chosen,
        steps,
        part,
    )?;
    write_text(rt, &text)
}

fn run_cover<R: Runtime + AllocGlobal>(
    rt: &R,
    given: &Given,
    names: &[&str],
    tap: bool,
) -> Result<Exit, Failure> {
    let scripts = read_scripts(rt, names)?;
    let text = cover_of(
        rt.alloc(),
        given.files.as_slice(),
        scripts.as_slice(),
        &given.chosen,
        tap,
    )?;
    write_text(rt, &text)
}

fn read_scripts<R: Runtime + AllocGlobal>(rt: &R, names: &[&str]) -> Result<Vec<Vec<u8>>, Failure> {
    let mut scripts = Vec::new(rt.alloc());
    for name in names {
        scripts.push(read_input(rt, *name)?)?;
    }
    Ok(scripts)
}
