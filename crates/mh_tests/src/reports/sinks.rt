//! Sinks that fail, and sinks over writers: what they took is a beginning of what is meant.
use crate::playing::{DAY, File, options, play, sources};
use crate::reports::cutting_sink::CuttingSink;
use mh_report::{Notation, PlayError, Status, WriterSink, convert_bytes};
use std::alloc::Global;

/// The red rectangle that a key moves, what is done with it, and what is written.
const FILES: &str = "application @scene";

const MOVES: (&str, &str, bool, u32) = ("a", "run|show|key red|run|show|", true, DAY);

static REPORT: &[u8] = b"did 11 idle\n\
    frame 1\n\
    row 01: 1-2 000000/ff0000 \"\"\n\
    row 02: 1-2 000000/ff0000 \"\"\n\
    did 2 idle\n\
    frame 2\n\
    row 01: 2-3 000000/ff0000 \"\"\n\
    row 02: 2-3 000000/ff0000 \"\"\n\
    total 13\n";

/// How many bytes were taken. None where they are no beginning of what is meant, or not all of it after a
/// status, or where another than the last write failed.
fn taken(
    ended: Result<Status, PlayError>,
    sink: &CuttingSink,
    meant: &'static [u8],
) -> Option<usize> {
    let count = sink.bytes.len();
    let is_right = match ended {
        Ok(status) => status == Status::Good && count == meant.len() && sink.failures == 0,
        Err(why) => why == PlayError::Write && sink.failures == 1,
    };
    if is_right && meant.starts_with(sink.bytes.as_slice()) {
        Some(count)
    } else {
        None
    }
}

/// Plays into a sink that takes so many writes of so many bytes.
fn taken_of_a_play(alloc: Global, files: &[File], writes: usize, most: usize) -> Option<usize> {
    let mut sink = CuttingSink {
        bytes: Vec::new(alloc),
        failures: 0,
        writes,
        most,
    };
    let ended = play(alloc, files, MOVES, &mut sink)?;
    taken(ended, &sink, REPORT)
}

/// Whether a beginning is taken in any number of writes, and all of it in enough of them.
fn leaves_beginnings(alloc: Global, most: usize) -> Option<bool> {
    let files = sources(alloc, FILES)?;
    for writes in 0..REPORT.len() {
        if taken_of_a_play(alloc, files.as_slice(), writes, most)? == REPORT.len() {
            break;
        }
    }
    let all = taken_of_a_play(alloc, files.as_slice(), REPORT.len(), most)?;
    Some(all == REPORT.len())
}

#[test]
fn a_failed_write_leaves_a_beginning(rt: HostRuntime) {
    for most in [1, 7, 1000] {
        assert!(rt; leaves_beginnings(rt.alloc(), most) == Some(true), "{most}");
    }
}

/// A scene with a variable, as it is printed.
static SMALL: &[u8] =
    b"{ :Scene ( \"~/s\" 0 ) :Items ( { :IntegerVar 1 :OrigValue 128 } ) :InputEventReg 3 }\n";

/// Converts into a sink that takes so many writes of one byte.
fn taken_of_a_conversion(alloc: Global, writes: usize) -> Option<usize> {
    let mut sink = CuttingSink {
        bytes: Vec::new(alloc),
        failures: 0,
        writes,
        most: 1,
    };
    let options = options(alloc, "a", false, DAY)?;
    let ended = convert_bytes(alloc, b"a", SMALL, Notation::Textual, &options, &mut sink);
    taken(ended, &sink, SMALL)
}

#[test]
fn a_conversion_leaves_a_beginning(rt: HostRuntime) {
    for writes in 0..SMALL.len() + 1 {
        assert!(rt;
            taken_of_a_conversion(rt.alloc(), writes) == Some(writes),
            "{writes}"
        );
    }
}

/// Whether a sink over a writer of memory holds the whole report.
fn is_held(alloc: Global) -> Option<bool> {
    let files = sources(alloc, FILES)?;
    let mut sink = WriterSink {
        writer: Vec::new(alloc),
        failures: 0,
    };
    let ended = play(alloc, files.as_slice(), MOVES, &mut sink)?;
    let is_whole = sink.failures == 0 && sink.writer.as_slice() == REPORT;
    Some(ended == Ok(Status::Good) && is_whole)
}

#[test]
fn a_writer_holds_the_report(rt: HostRuntime) {
    assert!(rt; is_held(rt.alloc()) == Some(true));
}
