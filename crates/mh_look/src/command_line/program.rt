//! The program as `clap` sees it: its subcommands, with the texts of their help. What they take is left to
//! `arguments`.
//!
//! Promise: each function makes what the definition of its name in `specs/CommandLine` says.
ghost use Rattle.std.specs.Prelude.{◌≡◌, false, codes, IfOk};
ghost use Rattle.clap.specs.Words.{app_of, new_app, with_rule};
ghost use Rattle.clap.specs.declared.builder.command.Command.TheViews.{out-Command as fields_of};
ghost use Rattle.mh_command.specs.Arguments.{folder};
ghost use Rattle.mh_look.specs.CommandLine as spec;

use crate::command_line::arguments::{
    all, allow, color, costs, format, frame, lines, most, other, output, plain, report, script,
    subject, subject_folder,
};
use clap::Command;
use mh_command::arguments::folder;
use mh_command::{bare, described, with_choices};
use std::alloc::{AllocError, Global};

/// What is told of the program.
const ABOUT: &str = "Shows what `redplay` printed; a file `-` is read from standard input";

/// What is said of the arguments that other programs have, too.
const FOLDER: &str = "The folder of the service";

const START: &str = "The path of the application to start with";

const TAGS: &str = "The tags of the binary notation, a line each";

/// What is told behind the help of `diff`.
const DIFF_EXAMPLES: &str = "Exit status:
  0  nothing differs
  1  something does
  2  a report or the command line cannot be read

Example:
  redlook diff examples/page/report other --lines";

/// What is told behind the help of `why`.
const WHY_EXAMPLES: &str = "Exit status of `why DIR`:
  0  the service is accepted
  1  the verifier refuses it
  2  a file, the service or the command line cannot be read

Examples:
  redlook why examples/broken/service
  redlook why examples/late/service --late examples/late/late --costs
  redplay play examples/first/service --script script | redlook why - examples/first/service --script script";

/// What is told behind the help of `lint`.
const LINT_EXAMPLES: &str =
    "A line `never:` is a theorem on all runs, a line `note:` is none. A rule is turned off
for a file by a line of it that ends in `// lint: allow RULE`.

Exit status:
  0  there is no line
  1  there is one, or the verifier refuses the service
  2  a file, the service or the command line cannot be read

Examples:
  redlook lint examples/vote/service
  redlook lint examples/vote/service --allow no-actions";

/// What is told behind the help of `check`.
const CHECK_EXAMPLES: &str =
    "It tells what of the files cannot be read; or else what the verifier refuses, the first of a
place, in its order; or else what never happens, and what seems to be a mistake. Text is that of
`why`, which tells the first refusal alone, or of `lint`.

Exit status:
  0  the service is accepted, and nothing is found
  1  something is found, or the verifier refuses the service
  2  a file, the service or the command line cannot be read

Examples:
  redlook check examples/vote/service
  redlook check examples/broken/service --format short";

/// The program with all its subcommands.
pub fn program<'a>(alloc: Global) -> Result<Command<'a>, AllocError>
    ensures { IfOk result (λ c. app_of c ≡ spec.program) }
{
    with_services(alloc)?.subcommand(check(alloc)?)
}

/// The program with the subcommands that take reports, and with those that tell of a service in words.
fn with_services<'a>(alloc: Global) -> Result<Command<'a>, AllocError>
    ensures { IfOk result (λ c. app_of c ≡ spec.with_services) }
{
    with_reports(alloc)?
        .subcommand(why(alloc)?)?
        .subcommand(lint(alloc)?)
}

/// The program with the subcommands that take reports.
fn with_reports<'a>(alloc: Global) -> Result<Command<'a>, AllocError>
    ensures { IfOk result (λ c. app_of c ≡ spec.with_reports) }
{
    with_views(alloc)?
        .subcommand(image(alloc)?)?
        .subcommand(diff(alloc)?)
}

/// The program with the subcommands that show all of a report.
fn with_views<'a>(alloc: Global) -> Result<Command<'a>, AllocError>
    ensures { IfOk result (λ c. app_of c ≡ spec.with_views) }
{
    bare(alloc, "redlook", ABOUT)
        .subcommand(show(alloc)?)?
        .subcommand(page(alloc)?)
}

fn show<'a>(alloc: Global) -> Result<Command<'a>, AllocError>
    ensures app { IfOk result (λ c. app_of c ≡ spec.show) }
    ensures local { IfOk result (λ c. (fields_of c).has_globals ≡ false) }
{
    described(
        alloc,
        "show",
        "Shows the frames and lines of a report in the terminal",
        "Example:\n  redlook show examples/page/report --frame 2",
    )
    .arg(report(alloc))?
    .arg(frame(alloc))?
    .arg(plain(alloc))
}

fn page<'a>(alloc: Global) -> Result<Command<'a>, AllocError>
    ensures app { IfOk result (λ c. app_of c ≡ spec.page) }
    ensures local { IfOk result (λ c. (fields_of c).has_globals ≡ false) }
{
    described(
        alloc,
        "page",
        "Writes a page for a browser, which steps through the frames",
        "Example:\n  redlook page examples/clock/report --script examples/clock/script > clock.html",
    )
    .arg(report(alloc))?
    .arg(script(alloc))
}

fn image<'a>(alloc: Global) -> Result<Command<'a>, AllocError>
    ensures app { IfOk result (λ c. app_of c ≡ spec.image) }
    ensures local { IfOk result (λ c. (fields_of c).has_globals ≡ false) }
{
    described(
        alloc,
        "image",
        "Writes a frame, or all of them, as images of 720 by 576 points, in the form PNG",
        "Examples:\n  redlook image examples/vote/report --frame 1 > vote.png\n  redlook image examples/vote/report --output pictures",
    )
    .arg(report(alloc))?
    .arg(frame(alloc))?
    .arg(output(alloc))
}

fn diff<'a>(alloc: Global) -> Result<Command<'a>, AllocError>
    ensures app { IfOk result (λ c. app_of c ≡ spec.diff) }
    ensures local { IfOk result (λ c. (fields_of c).has_globals ≡ false) }
{
    described(
        alloc,
        "diff",
        "Says in which frames two reports differ, and in how many cells",
        DIFF_EXAMPLES,
    )
    .arg(report(alloc))?
    .arg(other(alloc))?
    .arg(lines(alloc))
}

fn why<'a>(alloc: Global) -> Result<Command<'a>, AllocError>
    ensures app { IfOk result (λ c. app_of c ≡ spec.why) }
    ensures local { IfOk result (λ c. (fields_of c).has_globals ≡ false) }
{
    why_service(alloc)?
        .arg(script(alloc))?
        .arg(costs(alloc))?
        .arg(color(alloc))
}

fn lint<'a>(alloc: Global) -> Result<Command<'a>, AllocError>
    ensures app { IfOk result (λ c. app_of c ≡ spec.lint) }
    ensures local { IfOk result (λ c. (fields_of c).has_globals ≡ false) }
{
    lint_service(alloc)?
        .arg(all(alloc))?
        .arg(allow(alloc))?
        .arg(color(alloc))
}

fn check<'a>(alloc: Global) -> Result<Command<'a>, AllocError>
    ensures app { IfOk result (λ c. app_of c ≡ spec.check) }
    ensures local { IfOk result (λ c. (fields_of c).has_globals ≡ false) }
{
    check_rules(alloc)?
        .arg(format(alloc))?
        .arg(most(alloc))?
        .arg(color(alloc))
}

/// The subcommand with what is told of an accepted service.
fn check_rules<'a>(alloc: Global) -> Result<Command<'a>, AllocError>
    ensures app { IfOk result (λ c. app_of c ≡ spec.check_rules) }
    ensures local { IfOk result (λ c. (fields_of c).has_globals ≡ false) }
{
    check_service(alloc)?.arg(all(alloc))?.arg(allow(alloc))
}

/// The subcommand with what may be said of the service that is looked at.
fn check_service<'a>(alloc: Global) -> Result<Command<'a>, AllocError>
    ensures app { IfOk result (λ c. app_of c ≡ spec.check_service) }
    ensures local { IfOk result (λ c. (fields_of c).has_globals ≡ false) }
{
    with_choices(alloc, check_folder(alloc)?, START, TAGS)
}

/// The subcommand with the folder that is looked at.
fn check_folder<'a>(alloc: Global) -> Result<Command<'a>, AllocError>
    ensures app { IfOk result (λ c. app_of c ≡ with_rule (new_app (codes "check")) folder) }
    ensures local { IfOk result (λ c. (fields_of c).has_globals ≡ false) }
{
    described(
        alloc,
        "check",
        "Tells all that is found of a service, for readers, editors or build servers: what cannot be read, or is refused, or never happens or seems to be a mistake",
        CHECK_EXAMPLES,
    )
    .arg(folder(alloc, FOLDER))
}

/// The subcommand with what may be said of the service that is looked at.
fn lint_service<'a>(alloc: Global) -> Result<Command<'a>, AllocError>
    ensures app { IfOk result (λ c. app_of c ≡ spec.lint_service) }
    ensures local { IfOk result (λ c. (fields_of c).has_globals ≡ false) }
{
    with_choices(alloc, lint_folder(alloc)?, START, TAGS)
}

/// The subcommand with the folder that is looked at.
fn lint_folder<'a>(alloc: Global) -> Result<Command<'a>, AllocError>
    ensures app { IfOk result (λ c. app_of c ≡ with_rule (new_app (codes "lint")) folder) }
    ensures local { IfOk result (λ c. (fields_of c).has_globals ≡ false) }
{
    described(
        alloc,
        "lint",
        "Tells what of an accepted service never happens, and what seems to be a mistake, with the places in its files",
        LINT_EXAMPLES,
    )
    .arg(folder(alloc, FOLDER))
}

/// The subcommand with what is explained, and what may be said of the service.
fn why_service<'a>(alloc: Global) -> Result<Command<'a>, AllocError>
    ensures app { IfOk result (λ c. app_of c ≡ spec.why_service) }
    ensures local { IfOk result (λ c. (fields_of c).has_globals ≡ false) }
{
    with_choices(alloc, why_paths(alloc)?, START, TAGS)
}

/// The subcommand with what is explained.
fn why_paths<'a>(alloc: Global) -> Result<Command<'a>, AllocError>
    ensures app { IfOk result (λ c. app_of c ≡ spec.why_paths) }
    ensures local { IfOk result (λ c. (fields_of c).has_globals ≡ false) }
{
    described(
        alloc,
        "why",
        "Checks a service, and explains why it is refused, with the places in its files, and how to mend it; of an accepted one its bounds",
        WHY_EXAMPLES,
    )
    .arg(subject(alloc))?
    .arg(subject_folder(alloc))
}
