//! What is told of a script that is played on files.
ghost use Rattle.mh_crossing.specs.Rooms.{Answers};
ghost use Rattle.redplay_page.specs.Reports.{AreReported};
ghost use Rattle.redplay_page.specs.Tried.{AreCovered, AreSought, AreTraced};

use crate::reporting::reported;
use crate::trying::{covered, sought, traced};
use mh_crossing::{Source, name_number, put_length};
use std::alloc::Global;

/// The report that `redplay play` prints.
#[unsafe(no_mangle)]
#[tactic(auto, using(mh_crossing::proofs::RoomLemmas::unanswered_so))]
pub extern "C" fn redpage_report(
    alloc: Global,
    sources: &[Source],
    start: &[u8],
    late: &[u8],
    script: &[u8],
    day: u32,
    lenient: bool,
    text: &mut [u8],
    length: &mut usize,
) -> u32
    ensures { Answers (AreReported start.now late.now script.now day lenient) sources.now text.old text.new length.old length.new result }
{
    match reported(alloc, sources, start, late, script, day, lenient) {
        Ok(told) => {
            put_length(told.bytes.as_slice(), text, length);
            told.number
        }
        Err(why) => name_number(why),
    }
}

/// The trace that `redtry trace` prints, or with `objects` `redtry trace --format json`.
#[unsafe(no_mangle)]
#[tactic(auto, using(mh_crossing::proofs::RoomLemmas::unanswered_so))]
pub extern "C" fn redpage_trace(
    alloc: Global,
    sources: &[Source],
    start: &[u8],
    late: &[u8],
    script: &[u8],
    day: u32,
    objects: bool,
    text: &mut [u8],
    length: &mut usize,
) -> u32
    ensures { Answers (AreTraced start.now late.now script.now day objects) sources.now text.old text.new length.old length.new result }
{
    match traced(alloc, sources, start, late, script, day, objects) {
        Ok(told) => {
            put_length(told.bytes.as_slice(), text, length);
            told.number
        }
        Err(why) => name_number(why),
    }
}

/// The coverage that `redtry cover` prints.
#[unsafe(no_mangle)]
#[tactic(auto, using(mh_crossing::proofs::RoomLemmas::unanswered_so))]
pub extern "C" fn redpage_cover(
    alloc: Global,
    sources: &[Source],
    start: &[u8],
    late: &[u8],
    script: &[u8],
    day: u32,
    text: &mut [u8],
    length: &mut usize,
) -> u32
    ensures { Answers (AreCovered start.now late.now script.now day) sources.now text.old text.new length.old length.new result }
{
    match covered(alloc, sources, start, late, script, day) {
        Ok(told) => {
            put_length(told.bytes.as_slice(), text, length);
            told.number
        }
        Err(why) => name_number(why),
    }
}

/// The script that `redtry find` prints, or nothing with the number 1 where none is found.
#[unsafe(no_mangle)]
#[tactic(auto, using(mh_crossing::proofs::RoomLemmas::unanswered_so))]
pub extern "C" fn redpage_find(
    alloc: Global,
    sources: &[Source],
    start: &[u8],
    late: &[u8],
    inputs: u32,
    steps: u32,
    day: u32,
    text: &mut [u8],
    length: &mut usize,
) -> u32
    ensures { Answers (AreSought start.now late.now day) sources.now text.old text.new length.old length.new result }
{
    match sought(alloc, sources, start, late, inputs, steps, day) {
        Ok(told) => {
            put_length(told.bytes.as_slice(), text, length);
            told.number
        }
        Err(why) => name_number(why),
    }
}
