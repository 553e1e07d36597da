//! The words of the command line: what the program is asked to do.
//!
//! What the words mean, which are refused and why are `clap`'s rules over `program`; the texts on a wrong
//! command line are left to it too.
ghost use Rattle.std.specs.Prelude.{◌≡◌, map, true, IfOk, IfErr};
ghost use Rattle.clap.specs.Words.{fault_of, found_of, rows_of, subcommand_of, subcommand_rows_of, takes};
ghost use Rattle.mh_command.specs.Refused.{IsRefusedBy, TellsNoMemory};
ghost use Rattle.mh_command.specs.declared.no_task.NoTask.TheVariants.{NoMemory};
ghost use Rattle.redplay.specs.CommandLine.{HasDay, asked_by, asked_under, said};
ghost use Rattle.redplay.specs.CommandLine as spec;

use crate::program::program;
use clap::ArgMatches;
use mh_command::values::{day_of, file_of, is_set, text_of};
use mh_command::{NoTask, Source, matches_of, source_of};
use mh_report::Notation;
use std::alloc::Global;
use std::convert::AsStr;

/// What is asked for, and what it is done with.
#[derive(Drop)]
pub enum Task<'a> {
    /// What the verifier says of a service.
    Check(Source<'a>),
    /// The seal of a service that the verifier accepts.
    Seal(Source<'a>),
    /// A script, played on a service.
    Play {
        source: Source<'a>,
        /// The file with the script, or `-` for standard input.
        script: &'a str,
        lenient: bool,
        /// The modified Julian day on which the play begins.
        mjd: u32,
        /// The file with the seal by which the service is played, if one is named.
        seal: Option<&'a str>,
    },
    /// The group of a file, in the notation that is wanted.
    Convert {
        file: &'a str,
        to: Notation,
        /// The file that gives the tags of the binary notation, if one is named.
        tags: Option<&'a str>,
    },
}

/// What the words ask for. The first word is the program's own name.
pub fn line_of<'a, S: AsStr>(alloc: Global, words: &'a [S]) -> Result<Task<'a>, NoTask>
    ensures asked { IfOk result (λ task. said task ≡ asked_by (subcommand_of spec.program (map S.text words.entry.now))) }
    ensures day { IfOk result HasDay }
    ensures refused { IsRefusedBy (fault_of spec.program (map S.text words.entry.now)) result }
    ensures memory { IfErr result TellsNoMemory }
    ensures passes { IfErr result (λ why. takes spec.program (map S.text words.entry.now) ≡ true → why ≡ NoMemory) }
{
    let matches = matched(alloc, words)?;
    Ok(task_of(&matches))
}

/// What is found in the words, as they are read against the program.
fn matched<'a, S: AsStr>(alloc: Global, words: &'a [S]) -> Result<ArgMatches<'a>, NoTask>
    ensures found { IfOk result (λ m. subcommand_rows_of m ≡ subcommand_of spec.program (map S.text words.entry.now)) }
    ensures refused { IsRefusedBy (fault_of spec.program (map S.text words.entry.now)) result }
    ensures memory { IfErr result TellsNoMemory }
    ensures passes { IfErr result (λ why. takes spec.program (map S.text words.entry.now) ≡ true → why ≡ NoMemory) }
{
    matches_of(program(alloc)?, words)
}

/// What is asked for. `program` requires a subcommand; were there none, `check` would be meant, of the
/// empty path.
fn task_of<'a>(matches: &ArgMatches<'a>) -> Task<'a>
    ensures asked { said result ≡ asked_by (subcommand_rows_of matches.now) }
    ensures day { HasDay result }
{
    match matches.subcommand() {
        Some((name, given)) => task_under(name, given),
        None => Task::Check(Source {
            folder: "",
            start: "",
            late: None,
            tags: None,
        }),
    }
}

/// What the subcommand of this name asks for.
fn task_under<'a>(name: &str, given: &ArgMatches<'a>) -> Task<'a>
    ensures asked { said result ≡ asked_under name.now (rows_of (found_of given.now)) }
    ensures day { HasDay result }
{
    match name {
        "play" => playing(given),
        "seal" => Task::Seal(source_of(given)),
        "to-der" => converting(given, Notation::Binary),
        "to-text" => converting(given, Notation::Textual),
        _ => Task::Check(source_of(given)),
    }
}

fn playing<'a>(given: &ArgMatches<'a>) -> Task<'a>
    ensures asked { said result ≡ spec.playing (rows_of (found_of given.now)) }
    ensures day { HasDay result }
{
    Task::Play {
        source: source_of(given),
        script: text_of(given, "script"),
        lenient: is_set(given, "lenient"),
        mjd: day_of(given),
        seal: file_of(given, "sealed"),
    }
}

fn converting<'a>(given: &ArgMatches<'a>, to: Notation) -> Task<'a>
    ensures asked { said result ≡ spec.converting (rows_of (found_of given.now)) to }
    ensures day { HasDay result }
{
    Task::Convert {
        file: text_of(given, "FILE"),
        to,
        tags: file_of(given, "tags"),
    }
}
