//! The program of tests of `redplay`, `redtry` and `redlook`: it plays the files of cases that lie where it runs.
#![tactic(auto)]

mod command;
mod looks;
mod plays;
mod tries;

use crate::command::Command;
use mh_case_files::{Answer, Call, Case, Player, play_all};
use std::alloc::Global;
use std::process::ExitCode;

/// The exit status where memory or writing failed.
const FAILED: u8 = 4;

fn main(rt: HostRuntime) -> ExitCode {
    ExitCode::from(play_all::<Programs, _>(&rt).unwrap_or(FAILED))
}

/// The three programs.
struct Programs;

impl Player for Programs {
    fn answer(alloc: Global, case: &Case, call: &Call) -> Option<Answer> {
        let (program, words) = call.text.split_once(' ')?;
        match program {
            "redplay" => plays::answer(alloc, &case.material, &Command::read(words)?),
            "redtry" => tries::answer(alloc, &case.material, &Command::read(words)?),
            "redlook" => looks::answer(alloc, &case.material, call),
            _ => None,
        }
    }
}
