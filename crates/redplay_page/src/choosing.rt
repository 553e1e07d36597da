//! What is chosen beside the files, in the words of the calls that are behind.
ghost use Rattle.std.specs.Prelude.{◌≡◌, IfOk};
ghost use Rattle.redplay_page.specs.Chosen.{AreOptions, IsChosen};

use mh_report::Options;
use mh_try::Chosen;
use std::alloc::{AllocError, Global};

/// The path of the application to start with, the paths of the scenes that come late, a path a line, and the modified Julian
/// day; the tags are the profile's.
pub fn chosen(alloc: Global, start: &[u8], late: &[u8], day: u32) -> Result<Chosen, AllocError>
    ensures { IfOk result (λ chosen. IsChosen start.now late.now day chosen) }
{
    let start = Vec::from_slice(alloc, start)?;
    let late = Vec::from_slice(alloc, late)?;
    Ok(Chosen {
        start,
        late: Some(late),
        tags: None,
        mjd: day,
    })
}

/// The same, and whether a service is played whatever the verifier would say of it.
pub fn options(
    alloc: Global,
    start: &[u8],
    late: &[u8],
    day: u32,
    lenient: bool,
) -> Result<Options, AllocError>
    ensures { IfOk result (λ options. AreOptions start.now late.now day lenient options) }
{
    let start = Vec::from_slice(alloc, start)?;
    let late = Vec::from_slice(alloc, late)?;
    Ok(Options {
        start,
        late: Some(late),
        tags: None,
        mjd: day,
        lenient,
    })
}
