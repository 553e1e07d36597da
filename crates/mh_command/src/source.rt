//! `Source`: where a service is read from.
ghost use Rattle.std.specs.Prelude.{◌≡◌, codes};
ghost use Rattle.clap.specs.Words.{first_of, found_of, rows_of};
ghost use Rattle.mh_command.specs.Values.{named_in, text_of};

use crate::values::{file_of, text_of};
use clap::ArgMatches;

/// Where a service is read from.
#[derive(Drop)]
pub struct Source<'a> {
    /// The folder with the files of the service.
    pub folder: &'a str,
    /// The path of the application to start with.
    pub start: &'a str,
    /// The file that names the scenes whose files come late, if one is named.
    pub late: Option<&'a str>,
    /// The file that gives the tags of the binary notation, if one is named.
    pub tags: Option<&'a str>,
}

pub fn source_of<'a>(given: &ArgMatches<'a>) -> Source<'a>
    ensures folder { result.folder.now ≡ text_of (codes "DIR") (rows_of (found_of given.now)) }
    ensures start { result.start.now ≡ text_of (codes "start") (rows_of (found_of given.now)) }
    ensures late { named_in result.late ≡ first_of (codes "late") (rows_of (found_of given.now)) }
    ensures tags { named_in result.tags ≡ first_of (codes "tags") (rows_of (found_of given.now)) }
{
    Source {
        folder: text_of(given, "DIR"),
        start: text_of(given, "start"),
        late: file_of(given, "late"),
        tags: file_of(given, "tags"),
    }
}
