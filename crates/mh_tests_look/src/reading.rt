//! Small reports, and what is no report.
use crate::examples::FIRST;
use mh_look::{Part, ReadError, Report, read_report};
use mh_model::{Fault, FaultKind, Picture, Rest};
use std::alloc::Global;

/// How many parts a report has, and the steps in all; else the line that is no report's, or 0.
fn outcome(alloc: Global, text: &str) -> Result<(usize, u64), usize> {
    match read_report(alloc, text.as_bytes()) {
        Ok(report) => {
            let found = (report.parts.len(), report.total);
            drop(report);
            Ok(found)
        }
        Err(ReadError::Line(line)) => Err(line),
        Err(ReadError::NoMemory) => Err(0),
    }
}

/// Reports with their parts and steps.
static REPORTS: &[(&str, usize, u64)] = &[
    ("total 0\n", 0, 0),
    ("total 18446744073709551615\n", 0, 18446744073709551615),
    ("fault class SetData a/b c 7\ntotal 1\n", 1, 1),
    ("refused 4294967295\nrefused 0\ntotal 1\n", 2, 1),
    ("did 3 idle\ndid 1 more\ndid 1 ended\ntotal 5\n", 3, 5),
    ("frame 1\ntotal 0\n", 1, 0),
    (
        "frame 1\nframe 2\nrow 35: 0-0 000000/0000ff \"\"\ntotal 0\n",
        2,
        0,
    ),
    (
        "frame 1\nrow 00: 0-1 ffffff/000000 \"a\"\nframe 2\nrow 00:\ntotal 0\n",
        2,
        0,
    ),
    (
        "frame 1\nrow 01: 1-2 000000/ff0000 \"\\\"\\\\\"\ndid 2 idle\ntotal 2\n",
        2,
        2,
    ),
    (FIRST, 4, 13),
];

/// What is no report, with the line that is none of one.
static OTHERS: &[(&str, usize)] = &[
    ("", 1),
    ("total 1", 1),
    ("total 01\n", 1),
    ("total 18446744073709551616\n", 1),
    ("total 1\n\n", 1),
    ("did 1 idle\n", 2),
    ("did 1 idle\ndid 1 never\ntotal 2\n", 2),
    ("refused 4294967296\ntotal 1\n", 1),
    ("refused 007\ntotal 1\n", 1),
    ("fault class SetData a//b 7\ntotal 1\n", 1),
    ("fault class Set a 7\ntotal 1\n", 1),
    ("frame 2\ntotal 0\n", 1),
    ("frame 1\nframe 1\ntotal 0\n", 2),
    ("row 00: 0-0 ffffff/000000 \"a\"\ntotal 0\n", 1),
    ("frame 1\nrow 00:\ntotal 0\n", 2),
    (
        "frame 1\nrow 00: 0-0 ffffff/000000 \"a\"\nframe 2\nrow 00:\nframe 3\nrow 00:\ntotal 0\n",
        6,
    ),
    ("frame 1\nrow 00: 0-0 FFFFFF/000000 \"a\"\ntotal 0\n", 2),
    ("frame 1\nrow 00: 0-60 ffffff/000000 \"a\"\ntotal 0\n", 2),
    (
        "frame 1\nrow 00: 0-0 ffffff/000000 \"a\"\nrow 36:\ntotal 0\n",
        3,
    ),
    (
        "frame 1\nrow 02: 0-0 ffffff/000000 \"a\"\nrow 01: 0-0 ffffff/000000 \"a\"\ntotal 0\n",
        3,
    ),
];

#[test]
fn reads_reports(rt: HostRuntime) {
    for (text, parts, total) in REPORTS {
        assert!(rt; outcome(rt.alloc(), text) == Ok((*parts, *total)), "{text}");
    }
}

#[test]
fn names_the_line_that_is_none(rt: HostRuntime) {
    for (text, line) in OTHERS {
        assert!(rt; outcome(rt.alloc(), text) == Err(*line), "{text}");
    }
}

fn read(alloc: Global, text: &str) -> Option<Report> {
    read_report(alloc, text.as_bytes()).ok()
}

/// A fault, a refusal and steps.
const EVENTS: &str = "fault kind Move a b/c 7\nrefused 12\ndid 3 more\ntotal 4\n";

fn is_fault(fault: &Fault) -> bool {
    fault.what == FaultKind::WrongKind
        && fault.action.word() == b"Move".as_slice()
        && fault.at.group.as_bytes() == b"a b/c".as_slice()
        && fault.at.number == 7
}

fn are_events(parts: &[Part]) -> bool {
    match parts {
        [
            Part::Fault(fault),
            Part::Refused(why),
            Part::Did(steps, rest),
        ] => is_fault(fault) && *why == 12 && *steps == 3 && *rest == Rest::More,
        _ => false,
    }
}

/// Whether the parts are those that are written.
fn tells_events(alloc: Global) -> Option<bool> {
    let report = read(alloc, EVENTS)?;
    let told = are_events(report.parts.as_slice());
    drop(report);
    Some(told)
}

#[test]
fn tells_what_happened(rt: HostRuntime) {
    assert!(rt; tells_events(rt.alloc()) == Some(true));
}

/// Two frames: the second one has a row of its own, and that of the first.
const FRAMES: &str = r#"frame 1
row 01: 2-3 010203/ff0000 "é"
frame 2
row 02: 0-0 000000/00ff00 ""
total 0
"#;

fn is_second(picture: &Picture) -> bool {
    let cell = picture.cell(62);
    cell.scalar == 233
        && cell.fore == 0x01_02_03
        && cell.back == 0xff_00_00
        && picture.cell(63).scalar == 32
        && picture.cell(64).back == 0
        && picture.cell(120).back == 0x00_ff_00
}

fn are_frames(parts: &[Part]) -> bool {
    match parts {
        [Part::Frame(_), Part::Frame(picture)] => is_second(picture),
        _ => false,
    }
}

/// Whether the rows of the first frame stand in the second, too.
fn keeps_rows(alloc: Global) -> Option<bool> {
    let report = read(alloc, FRAMES)?;
    let kept = are_frames(report.parts.as_slice());
    drop(report);
    Some(kept)
}

#[test]
fn keeps_the_rows_of_the_frame_before(rt: HostRuntime) {
    assert!(rt; keeps_rows(rt.alloc()) == Some(true));
}
