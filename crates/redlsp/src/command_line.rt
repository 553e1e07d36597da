//! The words of the command line: there is nothing to choose, so that they ask for the help, for the version, or for nothing.
use clap::Command;
use mh_command::arguments::flag;
use mh_command::{NoTask, matches_of};
use std::alloc::{AllocError, Global};
use std::convert::AsStr;

/// The version that `--version` prints: that of the newest heading of CHANGELOG, to which `dist/build` holds it.
const VERSION: &str = "0.2.0";

/// What is told of the program.
const ABOUT: &str = "Tells an editor what is wrong with a red-button service as it is typed";

/// What is said of the one option.
const STDIO: &str =
    "Talk over standard input and output, which it does anyway: some editors say so";

/// What is told behind the options.
const STATUSES: &str =
    "An editor starts it; messages of the Language Server Protocol come on standard input, and answers go to standard output.

Exit status:
  0  the editor asked for the end, and left
  1  the editor left without asking for the end
  2  what came is no message of the protocol, or the command line cannot be read
  4  memory, reading or writing failed";

/// Whether the words ask for a conversation; where they do not, why.
pub fn read_words<'a, S: AsStr>(alloc: Global, words: &'a [S]) -> Result<(), NoTask> {
    let matches = matches_of(program(alloc)?, words)?;
    drop(matches);
    Ok(())
}

fn program<'a>(alloc: Global) -> Result<Command<'a>, AllocError> {
    Command::new(alloc, "redlsp")
        .version(VERSION)
        .about(ABOUT)
        .after_help(STATUSES)
        .arg(flag(alloc, "stdio", STDIO))
}
