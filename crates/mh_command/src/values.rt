//! What was found for the arguments of a subcommand.
//!
//! Promise: each function answers what the definition of its name in `specs/Values` says.
ghost use Rattle.std.specs.Prelude.{◌≡◌, ◌≤◌};
ghost use Rattle.clap.specs.Words.{first_of, found_of, rows_of};
ghost use Rattle.mh_command.specs.Arguments.{last_day};
ghost use Rattle.mh_command.specs.Values.{day_of, is_set, named_in, number_in, text_of};

use crate::arguments::LAST_DAY;
use clap::ArgMatches;

/// The day on which a play begins unless another is asked for.
const USUAL_DAY: u64 = 60_000;

/// The file that an option names, if it is given.
pub fn file_of<'a>(given: &ArgMatches<'a>, name: &str) -> Option<&'a str>
    ensures { named_in result ≡ first_of name.now (rows_of (found_of given.now)) }
{
    given.get_str(name)
}

/// The value of an argument that is required or has a default. Were there none, it would be the empty text.
pub fn text_of<'a>(given: &ArgMatches<'a>, name: &str) -> &'a str
    ensures { result.now ≡ text_of name.now (rows_of (found_of given.now)) }
{
    match given.get_str(name) {
        Some(text) => text,
        None => "",
    }
}

/// Whether a flag was given.
pub fn is_set(given: &ArgMatches<'_>, name: &str) -> bool
    ensures { result ≡ is_set name.now (rows_of (found_of given.now)) }
{
    match given.get_str(name) {
        Some(text) => text == "true",
        None => false,
    }
}

/// The day on which a play begins.
pub fn day_of(given: &ArgMatches<'_>) -> u32
    ensures day { result ≡ day_of (rows_of (found_of given.now)) }
    ensures last { result ≤ last_day }
{
    number_in(text_of(given, "mjd"), LAST_DAY, USUAL_DAY) as u32
}

/// The number of an option that has one where it is not given.
pub fn number_of(given: &ArgMatches<'_>, name: &str, most: u64) -> u64
    ensures number { result ≡ number_in most 0 (text_of name.now (rows_of (found_of given.now))) }
    ensures within { result ≤ most }
{
    number_in(text_of(given, name), most, 0)
}

/// The number that a text writes, up to the most. An argument's rule lets no other text through; were there one, the other
/// number would be meant.
pub fn number_in(text: &str, most: u64, other: u64) -> u64
    requires { other ≤ most }
    ensures number { result ≡ number_in most other text.now }
    ensures within { result ≤ most }
{
    match text.parse::<u64>() {
        Ok(number) if number <= most => number,
        _ => other,
    }
}
