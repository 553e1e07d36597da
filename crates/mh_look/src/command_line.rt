//! The words of the command line: what the program is asked to do.
//!
//! What the words mean, which are refused and why are `clap`'s rules over `program`; the texts on a
//! wrong command line are left to it too. Where memory was refused there is no text.

pub(crate) mod arguments;
pub(crate) mod linting;
pub(crate) mod program;

ghost use Rattle.std.specs.Prelude.{◌≡◌, [], None, map, true, IfOk, IfErr};
ghost use Rattle.clap.specs.Words.{fault_of, found_of, rows_of, subcommand_of, subcommand_rows_of, takes};
ghost use Rattle.mh_command.specs.Refused.{IsRefusedBy, TellsNoMemory};
ghost use Rattle.mh_command.specs.Values.{named_in};
ghost use Rattle.mh_command.specs.declared.no_task.NoTask.TheVariants.{NoMemory};
ghost use Rattle.mh_look.specs.CommandLine.{asked_by, asked_under, folder_of, frame_of, output_of, paged, said};
ghost use Rattle.mh_look.specs.CommandLine as spec;

use crate::command_line::arguments::LAST_FRAME;
use crate::command_line::linting::{checking, linting};
use crate::command_line::program::program;
use clap::ArgMatches;
use mh_command::values::{file_of, is_set, number_in, text_of};
use mh_command::{NoTask, Source, matches_of};
use mh_lint::Asked;
use std::alloc::Global;
use std::convert::AsStr;

/// What is asked for, and which files it is done with.
#[derive(Drop)]
pub enum Task<'a> {
    /// The report in the terminal, or one frame of it.
    Show {
        report: &'a str,
        frame: Option<u64>,
        plain: bool,
    },
    /// The report as a page, with the script that was played where that is known.
    Page {
        report: &'a str,
        script: Option<&'a str>,
    },
    /// A frame as an image, or all of them, in a folder where one is named.
    Image {
        report: &'a str,
        frame: Option<u64>,
        folder: Option<&'a str>,
    },
    /// Where two reports differ.
    Diff {
        first: &'a str,
        second: &'a str,
        lines: bool,
    },
    /// Why a service is refused, or what `redplay` printed of it.
    Why(Explain<'a>),
    /// What of a service never happens, and what is noted of it.
    Lint(Lint<'a>),
    /// All that is found of a service.
    Check(Check<'a>),
}

/// What is looked for in a service, and in which form it is told.
#[derive(Drop)]
pub struct Check<'a> {
    pub lint: Lint<'a>,
    /// The form.
    pub format: &'a str,
    /// The most refusals that are told.
    pub most: usize,
}

/// What is looked for in a service.
#[derive(Drop)]
pub struct Lint<'a> {
    /// The service, and what is explained of it where it is not accepted.
    pub service: Explain<'a>,
    /// What is told of an accepted one.
    pub asked: Asked,
    /// The first name among the rules that are turned off that no rule has.
    pub unknown: Option<&'a str>,
}

/// What is explained.
#[derive(Drop)]
pub struct Explain<'a> {
    /// The file with what `redplay` printed; without it the service is checked.
    pub output: Option<&'a str>,
    pub source: Source<'a>,
    /// The file with the script that was played, if one is named.
    pub script: Option<&'a str>,
    /// Whether it is told what makes inputs dear.
    pub costs: bool,
    /// When it is written in colours.
    pub color: &'a str,
}

/// What the words ask for. The first word is the program's own name.
pub fn line_of<'a, S: AsStr>(alloc: Global, words: &'a [S]) -> Result<Task<'a>, NoTask>
    ensures asked { IfOk result (λ task. said task ≡ asked_by (subcommand_of spec.program (map S.text words.entry.now))) }
    ensures refused { IsRefusedBy (fault_of spec.program (map S.text words.entry.now)) result }
    ensures memory { IfErr result TellsNoMemory }
    ensures passes { IfErr result (λ why. takes spec.program (map S.text words.entry.now) ≡ true → why ≡ NoMemory) }
{
    let matches = matched(alloc, words)?;
    Ok(task_of(&matches))
}

/// What is found in the words, as they are read against the program.
fn matched<'a, S: AsStr>(alloc: Global, words: &'a [S]) -> Result<ArgMatches<'a>, NoTask>
    ensures found { IfOk result (λ m. subcommand_rows_of m ≡ subcommand_of spec.program (map S.text words.entry.now)) }
    ensures refused { IsRefusedBy (fault_of spec.program (map S.text words.entry.now)) result }
    ensures memory { IfErr result TellsNoMemory }
    ensures passes { IfErr result (λ why. takes spec.program (map S.text words.entry.now) ≡ true → why ≡ NoMemory) }
{
    matches_of(program(alloc)?, words)
}

/// What is asked for. `program` requires a subcommand; were there none, `page` would be meant, of
/// the empty path.
fn task_of<'a>(matches: &ArgMatches<'a>) -> Task<'a>
    ensures { said result ≡ asked_by (subcommand_rows_of matches.now) }
{
    match matches.subcommand() {
        Some((name, given)) => task_under(name, given),
        None => nothing(),
    }
}

/// What the subcommand of this name asks for.
fn task_under<'a>(name: &str, given: &ArgMatches<'a>) -> Task<'a>
    ensures { said result ≡ asked_under name.now (rows_of (found_of given.now)) }
{
    match name {
        "show" => showing(given),
        "image" => drawing(given),
        "diff" => comparing(given),
        "why" => explaining(given),
        "lint" => linting(given),
        "check" => checking(given),
        _ => paging(given),
    }
}

fn nothing<'a>() -> Task<'a>
    ensures { said result ≡ paged [] None }
{
    let script = None;
    Task::Page { report: "", script }
}

fn paging<'a>(given: &ArgMatches<'a>) -> Task<'a>
    ensures { said result ≡ spec.paging (rows_of (found_of given.now)) }
{
    Task::Page {
        report: text_of(given, "REPORT"),
        script: file_of(given, "script"),
    }
}

fn showing<'a>(given: &ArgMatches<'a>) -> Task<'a>
    ensures { said result ≡ spec.showing (rows_of (found_of given.now)) }
{
    Task::Show {
        report: text_of(given, "REPORT"),
        frame: frame_of(given),
        plain: is_set(given, "plain"),
    }
}

fn drawing<'a>(given: &ArgMatches<'a>) -> Task<'a>
    ensures { said result ≡ spec.drawing (rows_of (found_of given.now)) }
{
    Task::Image {
        report: text_of(given, "REPORT"),
        frame: frame_of(given),
        folder: file_of(given, "output"),
    }
}

fn comparing<'a>(given: &ArgMatches<'a>) -> Task<'a>
    ensures { said result ≡ spec.comparing (rows_of (found_of given.now)) }
{
    Task::Diff {
        first: text_of(given, "REPORT"),
        second: text_of(given, "OTHER"),
        lines: is_set(given, "lines"),
    }
}

fn explaining<'a>(given: &ArgMatches<'a>) -> Task<'a>
    ensures { said result ≡ spec.explaining (rows_of (found_of given.now)) }
{
    Task::Why(Explain {
        output: output_of(given),
        source: Source {
            folder: folder_of(given),
            start: text_of(given, "start"),
            late: file_of(given, "late"),
            tags: file_of(given, "tags"),
        },
        script: file_of(given, "script"),
        costs: is_set(given, "costs"),
        color: text_of(given, "color"),
    })
}

/// The file with an output: the first of two paths.
fn output_of<'a>(given: &ArgMatches<'a>) -> Option<&'a str>
    ensures { named_in result ≡ output_of (rows_of (found_of given.now)) }
{
    match file_of(given, "DIR") {
        Some(_) => file_of(given, "PATH"),
        None => None,
    }
}

/// The folder: the second of two paths, or the one that there is.
fn folder_of<'a>(given: &ArgMatches<'a>) -> &'a str
    ensures { result.now ≡ folder_of (rows_of (found_of given.now)) }
{
    match file_of(given, "DIR") {
        Some(folder) => folder,
        None => text_of(given, "PATH"),
    }
}

/// The number of the frame that is asked for.
fn frame_of<'a>(given: &ArgMatches<'a>) -> Option<u64>
    ensures { result ≡ frame_of (rows_of (found_of given.now)) }
{
    match given.get_str("frame") {
        Some(text) => Some(number_in(text, LAST_FRAME, 0)),
        None => None,
    }
}
