//! The program as `clap` sees it: its subcommands and options, with the texts of its help.
use clap::builder::ValueParser;
use clap::{Arg, ArgAction, Command};
use mh_command::arguments::{flag, folder, mjd, named, number, script_to_play};
use mh_command::{bare, described, with_choices};
use std::alloc::{AllocError, Global};

/// What is told of the program.
const ABOUT: &str = "Tries red-button television services: key by key, step by step";

/// What is said of the arguments that other programs have, too.
const FOLDER: &str = "The folder with the files of the service";

const START: &str = "The application to start with";

const TAGS: &str = "The tags of the binary notation, a line each";

const SCRIPT: &str =
    "The script: a command a line (`redplay help play` tells them); `-` is standard input";

const DAY: &str = "The modified Julian day on which the play begins";

/// The most inputs of a script that is looked for, the most steps behind each, and the most reads of a terminal.
pub const MOST_KEYS: u64 = 1000;

pub const MOST_STEPS: u64 = 1_000_000;

pub const MOST_READS: u64 = 10_000_000;

/// The last step that can be told.
pub const MOST_TOLD: u64 = 1_000_000_000_000;

/// What is told behind the help of the program.
const STATUSES: &str = "Exit status:
  0  what was asked for is done; of `find` a script was found
  1  with --strict the verifier refuses the service; `find` found none, which proves nothing
  2  a file, the service, a script or the command line cannot be read; a line tells which
  4  memory or writing failed";

/// What is told behind the help of `live`.
const KEYS: &str = "Keys:
  arrows, 0 to 9  as they are
  Enter           select
  Escape          cancel
  r g y b t       red, green, yellow, blue, text
  s               an event of a stream, the first that a link waits for
  e               an event of the engine, the first that a link waits for
  l               the file of the late scene that is awaited
  f               the next content file of --files
  < and >         a step back and forth: the play up to an input before
  Ctrl-L          draws everything again
  q               ends it

Each second without a key the files of the service are read again; where they have changed, what was pressed is played again.

The program bin/redtry puts the terminal into the mode in which keys come as they are pressed.

Example:
  bin/redtry live examples/first/service --record pressed";

const TRACE: &str = "Examples:
  redtry trace examples/first/service --script examples/first/script
  redtry trace examples/first/service --script examples/first/script --only s 10
  redtry trace examples/first/service --script examples/first/script --from 12 --until 13 --format json";

const STATE: &str = "Examples:
  redtry state examples/first/service --script examples/first/script --at 12
  redtry state examples/first/service --script examples/first/script --object s 10
  redtry state examples/first/service --script examples/first/script --cell 2 1";

const COVER: &str = "Example:
  redtry cover examples/first/service examples/first/script";

const FIND: &str =
    "Where none is found, that proves nothing: `redplay check` says what cannot go wrong.

Examples:
  redtry find examples/broken/service > script && redplay play examples/broken/service --script script --lenient
  redtry find examples/late/service --to help
  redtry find examples/late/service --shows 'Rain, then sun'";

/// The program with all its subcommands.
pub fn program<'a>(alloc: Global) -> Result<Command<'a>, AllocError> {
    with_plays(alloc)?
        .subcommand(state(alloc)?)?
        .subcommand(cover(alloc)?)?
        .subcommand(find(alloc)?)
}

/// The program with the subcommands that tell one play.
fn with_plays<'a>(alloc: Global) -> Result<Command<'a>, AllocError> {
    bare(alloc, "redtry", ABOUT)
        .after_help(STATUSES)
        .subcommand(live(alloc)?)?
        .subcommand(trace(alloc)?)
}

fn live<'a>(alloc: Global) -> Result<Command<'a>, AllocError> {
    of_service(
        alloc,
        "live",
        "Plays a service at the terminal, with its keys and its clock",
        KEYS,
    )?
    .arg(record(alloc))?
    .arg(files(alloc))?
    .arg(window(alloc))?
    .arg(reads(alloc))
}

fn trace<'a>(alloc: Global) -> Result<Command<'a>, AllocError> {
    traced(alloc)?
        .arg(from(alloc))?
        .arg(until(alloc))?
        .arg(format(alloc))
}

fn traced<'a>(alloc: Global) -> Result<Command<'a>, AllocError> {
    of_service(
        alloc,
        "trace",
        "Tells what each step of a script does, a line a step",
        TRACE,
    )?
    .arg(script_to_play(alloc, SCRIPT))?
    .arg(strict(alloc))?
    .arg(only(alloc))
}

fn state<'a>(alloc: Global) -> Result<Command<'a>, AllocError> {
    of_service(
        alloc,
        "state",
        "Tells the state behind some steps of a script",
        STATE,
    )?
    .arg(script_to_play(alloc, SCRIPT))?
    .arg(at(alloc))?
    .arg(object(alloc))?
    .arg(cell(alloc))
}

fn cover<'a>(alloc: Global) -> Result<Command<'a>, AllocError> {
    of_service(
        alloc,
        "cover",
        "Tells which effects and groups scripts have done and entered, and which none has",
        COVER,
    )?
    .arg(scripts(alloc))?
    .arg(tap(alloc))
}

fn find<'a>(alloc: Global) -> Result<Command<'a>, AllocError> {
    of_service(
        alloc,
        "find",
        "Looks for a script that leads to a fault, to work that does not end, to a scene or to a text",
        FIND,
    )?
    .arg(keys(alloc))?
    .arg(steps(alloc))?
    .arg(endless(alloc))?
    .arg(over(alloc))?
    .arg(to(alloc))?
    .arg(shows(alloc))
}

/// A subcommand with what is said of the service.
fn of_service<'a>(
    alloc: Global,
    name: &'a str,
    about: &'a str,
    example: &'a str,
) -> Result<Command<'a>, AllocError> {
    let command = described(alloc, name, about, example).arg(folder(alloc, FOLDER))?;
    with_choices(alloc, command, START, TAGS)?.arg(mjd(alloc, DAY))
}

fn record<'a>(alloc: Global) -> Arg<'a> {
    named(alloc, "record", "FILE").help(
        "Keeps the keys that were pressed in this file, as a script",
    )
}

fn files<'a>(alloc: Global) -> Arg<'a> {
    named(alloc, "files", "FOLDER").help(
        "Content files that are not there at the start: `f` brings them, one at a time",
    )
}

fn window<'a>(alloc: Global) -> Arg<'a> {
    named(alloc, "window", "FILE").help(
        "The file that tells the rows and columns of the window; bin/redtry writes it",
    )
}

fn reads<'a>(alloc: Global) -> Arg<'a> {
    number(alloc, "reads", "864000", MOST_READS).help(
        "How often the terminal is read at most; ten times a second where nothing is pressed",
    )
}

fn strict<'a>(alloc: Global) -> Arg<'a> {
    flag(
        alloc,
        "strict",
        "Does not play a service that the verifier refuses, but says why",
    )
}

fn only<'a>(alloc: Global) -> Arg<'a> {
    named(alloc, "only", "GROUP NUMBER")
        .num_args(2)
        .help("Tells the lines alone that name this object")
}

fn from<'a>(alloc: Global) -> Arg<'a> {
    number(alloc, "from", "1", MOST_TOLD).help("The first step that is told")
}

fn until<'a>(alloc: Global) -> Arg<'a> {
    number(alloc, "until", "1000000000000", MOST_TOLD).help("The last step that is told")
}

fn format<'a>(alloc: Global) -> Arg<'a> {
    named(alloc, "format", "FORM")
        .default_value("text")
        .help("How steps are told: text, or json, an object a line")
}

fn at<'a>(alloc: Global) -> Arg<'a> {
    number(alloc, "at", "1000000000000", MOST_TOLD).help("Behind how many steps of the script")
}

fn object<'a>(alloc: Global) -> Arg<'a> {
    named(alloc, "object", "GROUP NUMBER")
        .num_args(2)
        .help("Tells this object alone, with its attributes as they are")
}

fn cell<'a>(alloc: Global) -> Arg<'a> {
    named(alloc, "cell", "COLUMN ROW").num_args(2).help(
        "Tells what lies at this cell, from the top down, and why what is not seen is not",
    )
}

fn scripts<'a>(alloc: Global) -> Arg<'a> {
    Arg::new(alloc, "SCRIPT")
        .required(true)
        .num_args(1..)
        .action(ArgAction::Append)
        .help("The scripts")
}

fn tap<'a>(alloc: Global) -> Arg<'a> {
    flag(
        alloc,
        "tap",
        "Prints it for test harnesses, in the Test Anything Protocol",
    )
}

fn keys<'a>(alloc: Global) -> Arg<'a> {
    number(alloc, "keys", "6", MOST_KEYS).help("How many inputs the script has at most")
}

fn steps<'a>(alloc: Global) -> Arg<'a> {
    number(alloc, "steps", "10000", MOST_STEPS).help(
        "How many steps are made behind each input at most",
    )
}

fn endless<'a>(alloc: Global) -> Arg<'a> {
    flag(
        alloc,
        "endless",
        "Looks for a script behind which more is to be done than the steps that are made",
    )
}

fn over<'a>(alloc: Global) -> Arg<'a> {
    named(alloc, "over", "N")
        .value_parser(ValueParser::unsigned(0, MOST_STEPS))
        .help("Looks for a script with an input that leads to more than N steps")
}

fn to<'a>(alloc: Global) -> Arg<'a> {
    named(alloc, "to", "GROUP").help("Looks for a script that leads to this scene")
}

fn shows<'a>(alloc: Global) -> Arg<'a> {
    named(alloc, "shows", "TEXT").help("Looks for a script behind which a row shows this text")
}
