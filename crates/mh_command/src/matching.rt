//! The words of a command line, read against a program.
ghost use Rattle.std.specs.Prelude.{◌≡◌, map, true, IfOk, IfErr};
ghost use Rattle.clap.specs.Words.{app_of, fault_of, is_simple_and_free, subcommand_of, subcommand_rows_of, takes};
ghost use Rattle.mh_command.specs.Refused.{IsRefusedBy, TellsNoMemory};
ghost use Rattle.mh_command.specs.declared.no_task.NoTask.TheVariants.{NoMemory};

use crate::no_task::NoTask;
use clap::{ArgMatches, Command};
use std::convert::AsStr;

/// What is found in the words. The first word is the program's own name. Which subcommand they name, and which words are
/// refused, is known of a program whose arguments take a value each, or none.
pub fn matches_of<'a, S: AsStr>(
    program: Command<'a>,
    words: &'a [S],
) -> Result<ArgMatches<'a>, NoTask>
    ensures found { is_simple_and_free (app_of program.entry) ≡ true
        → IfOk result (λ m. subcommand_rows_of m ≡ subcommand_of (app_of program.entry) (map S.text words.entry.now)) }
    ensures refused { is_simple_and_free (app_of program.entry) ≡ true
        → IsRefusedBy (fault_of (app_of program.entry) (map S.text words.entry.now)) result }
    ensures memory { IfErr result TellsNoMemory }
    ensures passes { IfErr result (λ why. takes (app_of program.entry) (map S.text words.entry.now) ≡ true → why ≡ NoMemory) }
{
    Ok(program.try_get_matches_from(words)?)
}
