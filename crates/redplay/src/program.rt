//! The program as `clap` sees it: its subcommands and options, with the texts of its help.
//!
//! Promise: each function makes what the definition of its name in `specs/CommandLine` says.
ghost use Rattle.std.specs.Prelude.{◌≡◌, false, codes, IfOk};
ghost use Rattle.clap.specs.Words.{app_of, new_app, rule_of, with_rule};
ghost use Rattle.clap.specs.declared.builder.command.Command.TheViews.{out-Command as fields_of};
ghost use Rattle.mh_command.specs.Arguments.{folder};
ghost use Rattle.redplay.specs.CommandLine as spec;

use clap::{Arg, Command};
use mh_command::arguments::{flag, folder, mjd, named, path, script_to_play, tags};
use mh_command::{bare, described, with_choices};
use std::alloc::{AllocError, Global};

/// What is said of the arguments that other programs have, too.
const FOLDER: &str = "The folder with the files of the service";

const START: &str = "The application to start with";

const TAGS: &str =
    "The tags of the binary notation, a line each, such as `class Scene 31`; where none is given, a tag is the profile's";

const SCRIPT: &str =
    "The script: a command a line, such as `run`, `key red`, `step 10`, `show`; `-` is standard input";

const DAY: &str = "The modified Julian day on which the play begins, 0 to 1000000";

const SEAL: &str =
    "The seal by which the service is played, as `seal` prints it: late scenes need not be there; the start, late scenes and bounds are the seal's";

/// What is told of the program.
const ABOUT: &str = "Checks, plays and converts red-button television services";

/// What is told behind the help of the program.
const STATUSES: &str = "Exit status:
  0  the service is accepted or its seal is written, the script was played without a fault, or the group is written
  1  the verifier refuses the service; the lines tell why (`redlook why` explains them)
  2  a file, the service, the script or the command line cannot be read; a line tells which
  3  a lenient play met actions that could not be done; its lines `fault` tell which
  4  memory or writing failed";

/// What is told behind the help of `play`.
const COMMANDS: &str =
    "A script has a command a line. Empty lines and those that begin with # are skipped.
  run           make the steps that there are to make, at most 1000000
  step 10       make so many steps
  show          print the picture
  key red       press a key: up, down, left, right, 0 to 9, select, cancel, red, green, yellow, blue, text
  tick 500      let so many milliseconds pass, 1 to 60000
  stream 7      an event of a stream, by its tag
  engine 3      an event of the engine, by its number
  file x 4869   the content file x comes, with its octets in hexadecimal digits
  scene s       the file of the late scene s comes; octets behind the name are read in its place
  scene s a3..  and beside a seal, where no files are kept, they have to stand there

Examples:
  redplay play examples/first/service --script examples/first/script
  redplay play examples/late/service --script examples/late/script --late examples/late/late
  redplay play examples/late/service --script examples/late/brought --sealed examples/late/seal";

/// The program with all its subcommands.
pub fn program<'a>(alloc: Global) -> Result<Command<'a>, AllocError>
    ensures { IfOk result (λ c. app_of c ≡ spec.program) }
{
    with_services(alloc)?
        .subcommand(to_der(alloc)?)?
        .subcommand(to_text(alloc)?)
}

/// The program with the subcommands that take a service.
fn with_services<'a>(alloc: Global) -> Result<Command<'a>, AllocError>
    ensures { IfOk result (λ c. app_of c ≡ spec.with_services) }
{
    bare(alloc, "redplay", ABOUT)
        .after_help(STATUSES)
        .subcommand(check(alloc)?)?
        .subcommand(seal(alloc)?)?
        .subcommand(play(alloc)?)
}

fn to_der<'a>(alloc: Global) -> Result<Command<'a>, AllocError>
    ensures app { IfOk result (λ c. app_of c ≡ spec.to_der) }
    ensures local { IfOk result (λ c. (fields_of c).has_globals ≡ false) }
{
    described(
        alloc,
        "to-der",
        "Writes the group of a file in the binary notation",
        "Example:\n  redplay to-der examples/menu/service/a > a.der",
    )
    .arg(file(alloc))?
    .arg(tags(alloc, TAGS))
}

fn to_text<'a>(alloc: Global) -> Result<Command<'a>, AllocError>
    ensures app { IfOk result (λ c. app_of c ≡ spec.to_text) }
    ensures local { IfOk result (λ c. (fields_of c).has_globals ≡ false) }
{
    described(
        alloc,
        "to-text",
        "Writes the group of a file in the textual notation",
        "Example:\n  redplay to-text examples/menu/der/a",
    )
    .arg(file(alloc))?
    .arg(tags(alloc, TAGS))
}

fn check<'a>(alloc: Global) -> Result<Command<'a>, AllocError>
    ensures app { IfOk result (λ c. app_of c ≡ spec.check) }
    ensures local { IfOk result (λ c. (fields_of c).has_globals ≡ false) }
{
    with_choices(alloc, check_folder(alloc)?, START, TAGS)
}

/// The subcommand with the folder alone.
fn check_folder<'a>(alloc: Global) -> Result<Command<'a>, AllocError>
    ensures app { IfOk result (λ c. app_of c ≡ with_rule (new_app (codes "check")) folder) }
    ensures local { IfOk result (λ c. (fields_of c).has_globals ≡ false) }
{
    described(
        alloc,
        "check",
        "Says whether a service is accepted: nothing makes it name what is absent or of a wrong class, and each input settles in so many steps",
        "Examples:\n  redplay check examples/first/service\n  redplay check examples/late/service --late examples/late/late",
    )
    .arg(folder(alloc, FOLDER))
}

fn seal<'a>(alloc: Global) -> Result<Command<'a>, AllocError>
    ensures app { IfOk result (λ c. app_of c ≡ spec.seal) }
    ensures local { IfOk result (λ c. (fields_of c).has_globals ≡ false) }
{
    with_choices(alloc, seal_folder(alloc)?, START, TAGS)
}

/// The subcommand with the folder alone.
fn seal_folder<'a>(alloc: Global) -> Result<Command<'a>, AllocError>
    ensures app { IfOk result (λ c. app_of c ≡ with_rule (new_app (codes "seal")) folder) }
    ensures local { IfOk result (λ c. (fields_of c).has_globals ≡ false) }
{
    described(
        alloc,
        "seal",
        "Prints the seal of a service that is accepted: its groups with their digests, which of them come late, and the bounds",
        "Examples:\n  redplay seal examples/first/service\n  redplay seal examples/late/service --late examples/late/late > late.seal",
    )
    .arg(folder(alloc, FOLDER))
}

fn play<'a>(alloc: Global) -> Result<Command<'a>, AllocError>
    ensures app { IfOk result (λ c. app_of c ≡ spec.play) }
    ensures local { IfOk result (λ c. (fields_of c).has_globals ≡ false) }
{
    play_service(alloc)?
        .arg(mjd(alloc, DAY))?
        .arg(lenient(alloc))?
        .arg(seal_file(alloc))
}

/// The subcommand with what has to be given, and what may be said of the service.
fn play_service<'a>(alloc: Global) -> Result<Command<'a>, AllocError>
    ensures app { IfOk result (λ c. app_of c ≡ spec.play_service) }
    ensures local { IfOk result (λ c. (fields_of c).has_globals ≡ false) }
{
    with_choices(alloc, play_required(alloc)?, START, TAGS)
}

/// The subcommand with what has to be given.
fn play_required<'a>(alloc: Global) -> Result<Command<'a>, AllocError>
    ensures app { IfOk result (λ c. app_of c ≡ spec.play_required) }
    ensures local { IfOk result (λ c. (fields_of c).has_globals ≡ false) }
{
    described(
        alloc,
        "play",
        "Plays a script on a service and prints what happens and what is shown",
        COMMANDS,
    )
    .arg(folder(alloc, FOLDER))?
    .arg(script_to_play(alloc, SCRIPT))
}

fn file<'a>(alloc: Global) -> Arg<'a>
    ensures rule { rule_of result ≡ spec.file }
    ensures local { result.global ≡ false }
{
    path(alloc, "FILE", "The file of the group, in either notation")
}

fn lenient<'a>(alloc: Global) -> Arg<'a>
    ensures rule { rule_of result ≡ spec.lenient }
    ensures local { result.global ≡ false }
{
    flag(alloc, "lenient", "Play also a service that `check` refuses")
}

fn seal_file<'a>(alloc: Global) -> Arg<'a>
    ensures rule { rule_of result ≡ spec.seal_file }
    ensures local { result.global ≡ false }
{
    named(alloc, "sealed", "FILE").help(SEAL)
}
