//! What is told of files, without a script.
ghost use Rattle.mh_crossing.specs.Rooms.{Answers, HandsOut};
ghost use Rattle.redplay_page.specs.Findings.{AreFindings};
ghost use Rattle.redplay_page.specs.Reports.{AreChecked, IsConverted};

use crate::listing::listed;
use crate::reporting::{checked, converted};
use mh_crossing::{NO_MEMORY, Source, name_number, put_length};
use std::alloc::Global;

/// The lines that `redplay check` prints.
#[unsafe(no_mangle)]
#[tactic(auto, using(mh_crossing::proofs::RoomLemmas::unanswered_so))]
pub extern "C" fn redpage_check(
    alloc: Global,
    sources: &[Source],
    start: &[u8],
    late: &[u8],
    text: &mut [u8],
    length: &mut usize,
) -> u32
    ensures { Answers (AreChecked start.now late.now) sources.now text.old text.new length.old length.new result }
{
    match checked(alloc, sources, start, late) {
        Ok(told) => {
            put_length(told.bytes.as_slice(), text, length);
            told.number
        }
        Err(why) => name_number(why),
    }
}

/// What `redlook check --format json` prints of a folder of this name; with `all` what follows from other findings, too.
#[unsafe(no_mangle)]
#[tactic(auto, using(mh_crossing::proofs::RoomLemmas::unanswered_so))]
pub extern "C" fn redpage_findings(
    alloc: Global,
    sources: &[Source],
    folder: &[u8],
    start: &[u8],
    late: &[u8],
    all: bool,
    text: &mut [u8],
    length: &mut usize,
) -> u32
    ensures { Answers (AreFindings folder.now start.now late.now all) sources.now text.old text.new length.old length.new result }
{
    match listed(alloc, sources, folder, start, late, all) {
        Ok(told) => {
            put_length(told.bytes.as_slice(), text, length);
            told.number
        }
        Err(why) => name_number(why),
    }
}

/// What `redplay to-der` writes of a file, or `redplay to-text`.
#[unsafe(no_mangle)]
pub extern "C" fn redpage_convert(
    alloc: Global,
    name: &[u8],
    bytes: &[u8],
    binary: bool,
    text: &mut [u8],
    length: &mut usize,
) -> u32
    ensures { HandsOut (IsConverted name.now bytes.now binary) text.old text.new length.old length.new result }
{
    match converted(alloc, name, bytes, binary) {
        Ok(told) => {
            put_length(told.bytes.as_slice(), text, length);
            told.number
        }
        Err(_) => NO_MEMORY,
    }
}
