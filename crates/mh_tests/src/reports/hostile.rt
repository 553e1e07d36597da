//! Hostile input: files that are cut off, too long or without an end, and reads that fail.
use crate::playing::{DAY, File, converted, played, sources};
use crate::reports::cutting_source::{CuttingSource, ZeroSource};
use mh_cases::{are, profile, refusal, said};
use mh_codec::{CodecError, TagTable, decode_group};
use mh_folder::{Tally, Unread, read_short, read_whole};
use mh_report::Notation;
use std::alloc::Global;

/// What is told where a file cannot be read.
fn untold(alloc: Global, why: Unread) -> Option<Vec<u8>> {
    match why {
        Unread::File(name) => Some(format!(in alloc; "read {name}").ok()?.into_bytes()),
        Unread::NoMemory => None,
    }
}

/// What is had of a file `x` with these bytes, of which so many reads are good, of at most so many bytes
/// each: all of it, or what is told.
fn had(alloc: Global, bytes: &[u8], reads: usize, most: usize) -> Option<Vec<u8>> {
    let mut source = CuttingSource {
        bytes: Vec::from_slice(alloc, bytes).ok()?,
        at: 0,
        reads,
        most,
        tally: Tally::new(),
    };
    match read_whole(alloc, "x", &mut source) {
        Ok(bytes) => Some(bytes),
        Err(why) => untold(alloc, why),
    }
}

static TEN: &[u8] = b"ten octets";

#[test]
fn a_failed_read_hands_nothing_out(rt: HostRuntime) {
    for most in 1..12 {
        for reads in 0..13 {
            // all of it, and one more read finds the end
            let is_enough = TEN.len().div_ceil(most) < reads;
            let wanted: &[u8] = if is_enough { TEN } else { b"read x" };
            assert!(rt;
                are(had(rt.alloc(), TEN, reads, most), wanted),
                "{reads} of {most}"
            );
        }
    }
}

/// How many bytes are had of a file of so many zeros, at most so many a read, or none where it cannot be
/// read; by how many reads; and up to which byte one was asked for.
fn length_had(
    alloc: Global,
    zeros: usize,
    most: usize,
    is_named: bool,
) -> Option<(Option<usize>, u64, u64)> {
    let mut source = ZeroSource {
        zeros,
        most,
        tally: Tally::new(),
    };
    let read = if is_named {
        read_short(alloc, "x", &mut source)
    } else {
        read_whole(alloc, "x", &mut source)
    };
    let length = match read {
        Ok(bytes) => Some(bytes.len()),
        Err(Unread::File(_name)) => None,
        Err(Unread::NoMemory) => return None,
    };
    Some((length, source.tally.reads, source.tally.asked))
}

/// How many zeros a file has, how many a read gives at most, whether an option names it, and how many are
/// had, by how many reads, up to which place.
static LENGTHS: [(usize, usize, bool, Option<usize>, u64, u64); 9] = [
    (0, 1, false, Some(0), 1, 4096),
    (3, 1, true, Some(3), 4, 4099),
    (1_048_576, 4096, false, Some(1_048_576), 257, 1_048_577),
    (1_048_576, 4096, true, Some(1_048_576), 257, 1_048_577),
    (1_048_577, 5000, false, Some(1_048_577), 257, 1_048_577),
    (1_048_577, 5000, true, None, 257, 1_048_577),
    (usize::MAX, 1, false, Some(1_048_577), 1_048_577, 1_048_577),
    (usize::MAX, 1, true, None, 1_048_577, 1_048_577),
    (usize::MAX, 100, true, None, 10_486, 1_048_577),
];

#[test]
fn a_long_file_ends(rt: HostRuntime) {
    for (zeros, most, is_named, length, reads, asked) in &LENGTHS {
        let found = length_had(rt.alloc(), *zeros, *most, *is_named);
        assert!(rt;
            found == Some((*length, *reads, *asked)),
            "{zeros} by {most}"
        );
    }
}

/// What is done with the first example.
const MOVES: (&str, &str, bool, u32) = ("a", "run|show|key red|run|show|", false, DAY);

/// The number and the offset of a refusal, as the notation in which the bytes begin says it.
fn refused(alloc: Global, tags: &TagTable, bytes: &[u8]) -> (u32, usize) {
    if !mh_codec::begins_group(tags, bytes) {
        return refusal(alloc, bytes);
    }
    match decode_group(alloc, tags, bytes).err() {
        None => (0, 0),
        Some(CodecError::At { why, offset }) => (why.number(), offset),
        Some(CodecError::NoMemory) => (0, 1),
    }
}

/// The line on a file that cannot be read, and the exit status.
fn line(alloc: Global, name: &str, bytes: &[u8]) -> Option<Vec<u8>> {
    let (number, offset) = refused(alloc, &profile(alloc)?, bytes);
    let line = format!(in alloc; "file {name} {number} {offset}\nexit 2\n").ok()?;
    Some(line.into_bytes())
}

/// What a play writes where the file at this place has these bytes.
fn played_with(alloc: Global, files: &mut [File], at: usize, bytes: Vec<u8>) -> Option<Vec<u8>> {
    let file = files.get_mut(at)?;
    file.1 = bytes;
    played(alloc, files, MOVES)
}

fn begins_group(tags: &TagTable, bytes: &[u8]) -> bool {
    mh_text::begins_group(bytes) || mh_codec::begins_group(tags, bytes)
}

/// Whether a file that is cut off is told by the number and the offset that the notation says, where it is
/// converted and where it is played. One that does not even begin as a group is none of the play's.
fn is_told(alloc: Global, files: &mut [File], at: usize, name: &str, cut: Vec<u8>) -> Option<bool> {
    let line = line(alloc, name, cut.as_slice())?;
    let told = converted(alloc, name.as_bytes(), cut.as_slice(), Notation::Binary);
    let is_group = begins_group(&profile(alloc)?, cut.as_slice());
    let written = played_with(alloc, files, at, cut)?;
    let is_right = if is_group {
        written.as_slice() == line.as_slice()
    } else {
        !written.as_slice().ends_with(b"exit 0\n")
    };
    Some(is_right && are(told, line.as_slice()))
}

/// The first length at which a file that is cut off is not told as it should be; its whole length where
/// there is none and the whole file is played.
fn first_wrong(alloc: Global, names: &str, at: usize, name: &str) -> Option<usize> {
    let mut files = sources(alloc, names)?;
    let whole = said(alloc, files.get(at)?.1.as_slice())?;
    for end in 0..whole.len() {
        let cut = had(alloc, &whole[..end], end + 1, 7)?;
        if is_told(alloc, files.as_mut_slice(), at, name, cut) != Some(true) {
            return Some(end);
        }
    }
    let all = had(alloc, whole.as_slice(), whole.len() + 1, 1)?;
    let written = played_with(alloc, files.as_mut_slice(), at, all)?;
    if written.as_slice().ends_with(b"total 13\nexit 0\n") {
        Some(whole.len())
    } else {
        None
    }
}

/// The files of the first example in both notations: which, at which place, with which name, and how long.
static CUTS: [(&str, usize, &str, usize); 4] = [
    ("application @scene", 0, "a", 66),
    ("application @scene", 1, "s", 274),
    ("application-octets @scene-octets", 0, "a", 29),
    ("application-octets @scene-octets", 1, "s", 101),
];

#[test]
fn a_cut_file_is_told(rt: HostRuntime) {
    for (names, at, name, length) in &CUTS {
        let found = first_wrong(rt.alloc(), *names, *at, *name);
        assert!(rt; found == Some(*length), "{name} of {names}");
    }
}
