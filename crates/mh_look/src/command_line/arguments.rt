//! The arguments and options of the subcommands as `clap` sees them, with the texts of their help.
//!
//! Promise: each function makes what the definition of its name in `specs/CommandLine` says.
ghost use Rattle.std.specs.Prelude.{◌≡◌, false};
ghost use Rattle.clap.specs.Words.{rule_of};
ghost use Rattle.mh_command.specs.Arguments.{script};
ghost use Rattle.mh_look.specs.CommandLine as spec;

use clap::builder::ValueParser;
use clap::{Arg, ArgAction};
use mh_command::arguments;
use mh_command::arguments::{flag, named, number, path};
use std::alloc::Global;

/// What is said of the file with a report.
const REPORT: &str = "The file with the report, or `-`";

/// When an explanation is written in colours where nothing is said of it.
const WHEN: &str = "auto";

/// In which form findings are told where nothing is said of it.
const TEXT: &str = "text";

/// The largest number that a frame can be asked for under.
pub const LAST_FRAME: u64 = 1_000_000_000;

/// How many refusals are told where nothing is said of it.
const TWENTY: &str = "20";

/// The most refusals that can be asked for.
pub const MOST_REFUSALS: u64 = 1_000;

pub(crate) fn report<'a>(alloc: Global) -> Arg<'a>
    ensures rule { rule_of result ≡ spec.report }
    ensures local { result.global ≡ false }
{
    path(alloc, "REPORT", REPORT)
}

pub(crate) fn other<'a>(alloc: Global) -> Arg<'a>
    ensures rule { rule_of result ≡ spec.other }
    ensures local { result.global ≡ false }
{
    path(alloc, "OTHER", REPORT)
}

/// What is explained.
pub(crate) fn subject<'a>(alloc: Global) -> Arg<'a>
    ensures rule { rule_of result ≡ spec.subject }
    ensures local { result.global ≡ false }
{
    path(
        alloc,
        "PATH",
        "The folder of the service; in front of DIR the file with what `redplay` printed of it, or `-`",
    )
}

/// The folder of what is explained.
pub(crate) fn subject_folder<'a>(alloc: Global) -> Arg<'a>
    ensures rule { rule_of result ≡ spec.subject_folder }
    ensures local { result.global ≡ false }
{
    Arg::new(alloc, "DIR")
        .action(ArgAction::Set)
        .help("The folder of the service of which PATH was printed")
}

pub(crate) fn frame<'a>(alloc: Global) -> Arg<'a>
    ensures rule { rule_of result ≡ spec.frame }
    ensures local { result.global ≡ false }
{
    named(alloc, "frame", "K")
        .value_parser(ValueParser::unsigned(0, LAST_FRAME))
        .help("The number of a frame, from 1")
}

pub(crate) fn output<'a>(alloc: Global) -> Arg<'a>
    ensures rule { rule_of result ≡ spec.output }
    ensures local { result.global ≡ false }
{
    named(alloc, "output", "FOLDER").help("The folder for images NAME-K.png, of REPORT's name")
}

pub(crate) fn plain<'a>(alloc: Global) -> Arg<'a>
    ensures rule { rule_of result ≡ spec.plain }
    ensures local { result.global ≡ false }
{
    flag(alloc, "plain", "Show characters without colours")
}

pub(crate) fn lines<'a>(alloc: Global) -> Arg<'a>
    ensures rule { rule_of result ≡ spec.lines }
    ensures local { result.global ≡ false }
{
    flag(
        alloc,
        "lines",
        "Tell the lines between the frames that differ, too",
    )
}

pub(crate) fn script<'a>(alloc: Global) -> Arg<'a>
    ensures rule { rule_of result ≡ script }
    ensures local { result.global ≡ false }
{
    arguments::script(alloc, "The script that was played")
}

pub(crate) fn costs<'a>(alloc: Global) -> Arg<'a>
    ensures rule { rule_of result ≡ spec.costs }
    ensures local { result.global ≡ false }
{
    flag(
        alloc,
        "costs",
        "Tell what makes the start and each kind of input dear",
    )
}

pub(crate) fn color<'a>(alloc: Global) -> Arg<'a>
    ensures rule { rule_of result ≡ spec.color }
    ensures local { result.global ≡ false }
{
    named(alloc, "color", "WHEN").default_value(WHEN).help(
        "Write in colours: auto, where a terminal reads it; always; or never",
    )
}

pub(crate) fn all<'a>(alloc: Global) -> Arg<'a>
    ensures rule { rule_of result ≡ spec.all }
    ensures local { result.global ≡ false }
{
    flag(alloc, "all", "Tell what follows from other findings, too")
}

pub(crate) fn allow<'a>(alloc: Global) -> Arg<'a>
    ensures rule { rule_of result ≡ spec.allow }
    ensures local { result.global ≡ false }
{
    Arg::new(alloc, "allow")
        .long("allow")
        .action(ArgAction::Append)
        .value_name("RULE")
        .help("Turn a rule of notes off, for all files")
}

pub(crate) fn format<'a>(alloc: Global) -> Arg<'a>
    ensures rule { rule_of result ≡ spec.format }
    ensures local { result.global ≡ false }
{
    named(alloc, "format", "FORM").default_value(TEXT).help(
        "The form of findings: text; short, a line each as compilers print them; json; or github, annotations",
    )
}

pub(crate) fn most<'a>(alloc: Global) -> Arg<'a>
    ensures rule { rule_of result ≡ spec.most }
    ensures local { result.global ≡ false }
{
    number(alloc, "most", TWENTY, MOST_REFUSALS).help(
        "The most refusals that are told, in any form but text",
    )
}
