//! The verdict on a service, the report of a script that is played on it, and a group in the other notation.
ghost use Rattle.std.specs.Prelude.{◌≡◌, [], IfOk, IsErrOf, false};
ghost use Rattle.mh_crossing.specs.Files.{have_paths};
ghost use Rattle.mh_crossing.specs.Rooms.{AreMeant};
ghost use Rattle.redplay_page.specs.Reports.{AreChecked, AreReported, IsConverted, notation_of};

use crate::choosing::options;
use crate::told::{Told, ended};
use mh_base::{GroupName, NameError};
use mh_crossing::{Source, owned_files};
use mh_report::{ListSink, Notation, check_bytes, convert_bytes, play_bytes};
use std::alloc::{AllocError, Global};

/// The lines of the verdict on the files that are handed in.
#[tactic(auto, using(mh_crossing::proofs::RoomLemmas::meant_so))]
pub fn checked(
    alloc: Global,
    sources: &[Source],
    start: &[u8],
    late: &[u8],
) -> Result<Told, NameError>
    ensures told { IfOk result (λ told. AreMeant (AreChecked start.now late.now) sources.now told.bytes.items told.number) }
    ensures bad { IsErrOf result NameError.BadName → have_paths sources.now ≡ false }
{
    match owned_files(alloc, sources) {
        Ok(files) => match checked_of(alloc, files.as_slice(), start, late) {
            Ok(told) => Ok(told),
            Err(_) => Err(NameError::NoMemory),
        },
        Err(why) => Err(why),
    }
}

fn checked_of(
    alloc: Global,
    files: &[(GroupName, Vec<u8>)],
    start: &[u8],
    late: &[u8],
) -> Result<Told, AllocError>
    ensures { IfOk result (λ told. AreChecked start.now late.now files.now told.bytes.items told.number) }
{
    let options = options(alloc, start, late, 0, false)?;
    let mut sink = empty(alloc);
    let written = check_bytes(alloc, files, &options, &mut sink);
    ended(written, sink)
}

/// The report of a script that is played on the files that are handed in.
#[tactic(auto, using(mh_crossing::proofs::RoomLemmas::meant_so))]
pub fn reported(
    alloc: Global,
    sources: &[Source],
    start: &[u8],
    late: &[u8],
    script: &[u8],
    day: u32,
    lenient: bool,
) -> Result<Told, NameError>
    ensures told { IfOk result (λ told. AreMeant (AreReported start.now late.now script.now day lenient) sources.now told.bytes.items told.number) }
    ensures bad { IsErrOf result NameError.BadName → have_paths sources.now ≡ false }
{
    match owned_files(alloc, sources) {
        Ok(files) => {
            match reported_of(alloc, files.as_slice(), start, late, script, day, lenient) {
                Ok(told) => Ok(told),
                Err(_) => Err(NameError::NoMemory),
            }
        }
        Err(why) => Err(why),
    }
}

fn reported_of(
    alloc: Global,
    files: &[(GroupName, Vec<u8>)],
    start: &[u8],
    late: &[u8],
    script: &[u8],
    day: u32,
    lenient: bool,
) -> Result<Told, AllocError>
    ensures { IfOk result (λ told. AreReported start.now late.now script.now day lenient files.now told.bytes.items told.number) }
{
    let options = options(alloc, start, late, day, lenient)?;
    let mut sink = empty(alloc);
    let written = play_bytes(alloc, files, script, &options, &mut sink);
    ended(written, sink)
}

/// The group of a file in the notation that is wanted: the binary, or the textual.
pub fn converted(alloc: Global, name: &[u8], bytes: &[u8], binary: bool) -> Result<Told, AllocError>
    ensures { IfOk result (λ told. IsConverted name.now bytes.now binary told.bytes.items told.number) }
{
    let options = options(alloc, &[], &[], 0, false)?;
    let mut sink = empty(alloc);
    let written = convert_bytes(alloc, name, bytes, notation(binary), &options, &mut sink);
    ended(written, sink)
}

fn notation(binary: bool) -> Notation
    ensures { result ≡ notation_of binary }
{
    if binary {
        Notation::Binary
    } else {
        Notation::Textual
    }
}

fn empty(alloc: Global) -> ListSink
    ensures bytes { result.bytes.items ≡ [] }
    ensures failures { result.failures ≡ 0 }
{
    ListSink {
        bytes: Vec::new(alloc),
        failures: 0,
    }
}
