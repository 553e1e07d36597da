//! A program and its subcommands, before they have arguments.
ghost use Rattle.std.specs.Prelude.{◌≡◌, false};
ghost use Rattle.clap.specs.Words.{app_of, new_app};
ghost use Rattle.clap.specs.declared.builder.command.Command.TheViews.{out-Command as fields_of};
ghost use Rattle.mh_command.specs.Arguments as spec;

use clap::Command;
use std::alloc::Global;

/// The version that `--version` prints: that of the newest heading of CHANGELOG, to which `dist/build` holds it.
const VERSION: &str = "0.2.0";

/// A program without its subcommands.
pub fn bare<'a>(alloc: Global, name: &'a str, about: &'a str) -> Command<'a>
    ensures { app_of result ≡ spec.bare name.entry.now }
{
    Command::new(alloc, name)
        .version(VERSION)
        .about(about)
        .subcommand_required(true)
}

/// A subcommand with its texts, before it has arguments.
pub fn described<'a>(alloc: Global, name: &'a str, about: &'a str, example: &'a str) -> Command<'a>
    ensures app { app_of result ≡ new_app name.entry.now }
    ensures local { (fields_of result).has_globals ≡ false }
{
    Command::new(alloc, name).about(about).after_help(example)
}
