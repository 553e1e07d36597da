//! The arguments that several programs have, as `clap` sees them.
//!
//! Promise: each function makes what the definition of its name in `specs/Arguments` says.
ghost use Rattle.std.specs.Prelude.{◌≡◌, false, IfOk};
ghost use Rattle.clap.specs.Words.{app_of, rule_of};
ghost use Rattle.clap.specs.declared.builder.command.Command.TheViews.{out-Command as fields_of};
ghost use Rattle.mh_command.specs.Arguments as spec;

use clap::builder::ValueParser;
use clap::{Arg, ArgAction, Command};
use std::alloc::{AllocError, Global};

/// The application that is started where none is named.
const START: &str = "a";

/// The day on which a play begins where none is named.
const DAY: &str = "60000";

/// The last day on which a play can begin.
pub const LAST_DAY: u64 = 1_000_000;

/// A file or a folder that has to be named.
pub fn path<'a>(alloc: Global, name: &'a str, help: &'a str) -> Arg<'a>
    ensures rule { rule_of result ≡ spec.path name.entry.now }
    ensures local { result.global ≡ false }
{
    Arg::new(alloc, name)
        .required(true)
        .action(ArgAction::Set)
        .help(help)
}

/// An option with a value.
pub fn named<'a>(alloc: Global, name: &'a str, value: &'a str) -> Arg<'a>
    ensures rule { rule_of result ≡ spec.named name.entry.now }
    ensures local { result.global ≡ false }
{
    Arg::new(alloc, name)
        .long(name)
        .action(ArgAction::Set)
        .value_name(value)
}

/// An option without a value.
pub fn flag<'a>(alloc: Global, name: &'a str, help: &'a str) -> Arg<'a>
    ensures rule { rule_of result ≡ spec.flag name.entry.now }
    ensures local { result.global ≡ false }
{
    Arg::new(alloc, name)
        .long(name)
        .action(ArgAction::SetTrue)
        .help(help)
}

/// An option with a number up to this one.
pub fn number<'a>(alloc: Global, name: &'a str, usual: &'a str, most: u64) -> Arg<'a>
    ensures rule { rule_of result ≡ spec.number name.entry.now usual.entry.now most }
    ensures local { result.global ≡ false }
{
    named(alloc, name, "N")
        .default_value(usual)
        .value_parser(ValueParser::unsigned(0, most))
}

/// The folder of a service.
pub fn folder<'a>(alloc: Global, help: &'a str) -> Arg<'a>
    ensures rule { rule_of result ≡ spec.folder }
    ensures local { result.global ≡ false }
{
    path(alloc, "DIR", help)
}

pub fn start<'a>(alloc: Global, help: &'a str) -> Arg<'a>
    ensures rule { rule_of result ≡ spec.start }
    ensures local { result.global ≡ false }
{
    named(alloc, "start", "NAME")
        .default_value(START)
        .help(help)
}

pub fn late<'a>(alloc: Global) -> Arg<'a>
    ensures rule { rule_of result ≡ spec.late }
    ensures local { result.global ≡ false }
{
    named(alloc, "late", "FILE").help("The scenes whose files come late, a name a line")
}

pub fn tags<'a>(alloc: Global, help: &'a str) -> Arg<'a>
    ensures rule { rule_of result ≡ spec.tags }
    ensures local { result.global ≡ false }
{
    named(alloc, "tags", "FILE").help(help)
}

pub fn script<'a>(alloc: Global, help: &'a str) -> Arg<'a>
    ensures rule { rule_of result ≡ spec.script }
    ensures local { result.global ≡ false }
{
    named(alloc, "script", "FILE").help(help)
}

/// The script without which there is nothing to play.
pub fn script_to_play<'a>(alloc: Global, help: &'a str) -> Arg<'a>
    ensures rule { rule_of result ≡ spec.script_to_play }
    ensures local { result.global ≡ false }
{
    script(alloc, help).required(true)
}

/// The modified Julian day on which a play begins.
pub fn mjd<'a>(alloc: Global, help: &'a str) -> Arg<'a>
    ensures rule { rule_of result ≡ spec.mjd }
    ensures local { result.global ≡ false }
{
    number(alloc, "mjd", DAY, LAST_DAY).help(help)
}

/// A subcommand with what may be said of a service, beside its folder.
pub fn with_choices<'a>(
    alloc: Global,
    command: Command<'a>,
    start_help: &'a str,
    tags_help: &'a str,
) -> Result<Command<'a>, AllocError>
    requires { (fields_of command).has_globals ≡ false }
    ensures app { IfOk result (λ c. app_of c ≡ spec.with_choices (app_of command.entry)) }
    ensures local { IfOk result (λ c. (fields_of c).has_globals ≡ false) }
{
    command
        .arg(start(alloc, start_help))?
        .arg(late(alloc))?
        .arg(tags(alloc, tags_help))
}
