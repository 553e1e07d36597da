//! Looking for a script, and telling how much was tried.
use crate::command_line::{Aim, FindOptions};
use crate::failure::Failure;
use crate::following::Given;
use mh_base::GroupName;
use mh_exit::Exit;
use mh_told::text::Text;
use mh_try::{Goal, Watcher, Within, script_to};
use std::alloc::{AllocError, Global};
use std::io;
use std::io::Write;
use std::rt::Runtime;

/// How many plays a search tries at most.
const PLAYS: u32 = 20_000;

/// After how many plays it is told again how many there were.
const TOLD: u32 = 64;

/// Prints a script that leads where it is to, if one is found.
pub fn find<R: Runtime + AllocGlobal>(
    rt: &R,
    given: &Given,
    options: &FindOptions<'_>,
    is_watched: bool,
) -> Result<Exit, Failure> {
    let goal = goal_of(rt.alloc(), options)?;
    let within = Within {
        inputs: options.keys,
        steps: options.steps,
        plays: PLAYS,
    };
    let mut teller = Teller {
        rt,
        is_watched,
        plays: 0,
    };
    let found = script_to(
        rt.alloc(),
        given.files.as_slice(),
        &given.chosen,
        &goal,
        within,
        &mut teller,
    )?;
    teller.end();
    match found {
        Some(script) => write_text(rt, &script),
        None => tell_none(rt, options),
    }
}

/// Whoever looks at a terminal is told how far a search has come, in one line of standard error.
#[derive(Drop)]
struct Teller<'a, R> {
    rt: &'a R,
    is_watched: bool,
    plays: u32,
}

impl<'a, R: Runtime + AllocGlobal> Watcher for Teller<'a, R> {
    fn tell(&mut self, plays: u32, inputs: usize) {
        self.plays = plays;
        if self.is_watched && plays % TOLD == TOLD - 1 {
            let count = plays.saturating_add(1);
            // an error of the terminal says nothing of the search
            let _ = eprint!(self.rt;
                "\rredtry: {count} plays were tried, of up to {inputs} inputs"
            );
        }
    }
}

impl<'a, R: Runtime + AllocGlobal> Teller<'a, R> {
    fn end(&self) {
        if self.is_watched && self.plays >= TOLD - 1 {
            let _ = eprintln!(self.rt; "");
        }
    }
}

/// What a script is to lead to.
fn goal_of(alloc: Global, options: &FindOptions<'_>) -> Result<Goal, AllocError> {
    match &options.aim {
        Aim::Fault => Ok(Goal::Fault),
        Aim::More => Ok(Goal::More),
        Aim::Scene(scene) => Ok(Goal::Scene(scene.clone()?)),
        Aim::Shown(text) => Ok(Goal::Shown(scalars_of(alloc, *text)?)),
    }
}

fn scalars_of(alloc: Global, text: &str) -> Result<Vec<u32>, AllocError> {
    let mut scalars = Vec::new(alloc);
    for character in text.chars() {
        scalars.push(u32::from(character))?;
    }
    Ok(scalars)
}

fn tell_none<R: Runtime + AllocGlobal>(rt: &R, options: &FindOptions<'_>) -> Result<Exit, Failure> {
    let keys = options.keys;
    match &options.aim {
        Aim::Fault => eprintln!(rt;
            "redtry: no script of up to {keys} inputs was found that leads to a fault; that proves nothing"
        )?,
        Aim::More => tell_no_more(rt, options)?,
        Aim::Scene(_) => eprintln!(rt;
            "redtry: no script of up to {keys} inputs was found that leads to the scene; that proves nothing"
        )?,
        Aim::Shown(_) => eprintln!(rt;
            "redtry: no script of up to {keys} inputs was found that shows the text; that proves nothing"
        )?,
    }
    Ok(Exit::Otherwise)
}

fn tell_no_more<R: Runtime + AllocGlobal>(
    rt: &R,
    options: &FindOptions<'_>,
) -> Result<(), Failure> {
    let (keys, steps) = (options.keys, options.steps);
    eprintln!(rt;
        "redtry: no script of up to {keys} inputs was found behind which more than {steps} steps are to be made; that proves nothing"
    )?;
    Ok(())
}

/// Writes a text to standard output.
pub fn write_text<R: Runtime + AllocGlobal>(rt: &R, text: &Text) -> Result<Exit, Failure> {
    let mut output = io::writer(rt);
    output.write_all(text.as_slice())?;
    output.flush()?;
    Ok(Exit::Good)
}
