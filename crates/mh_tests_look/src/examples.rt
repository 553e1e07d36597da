//! The report of each example: it is read, and shown again.
use crate::stored::{GUIDE, PAGE, VOTE};
use bstr::ByteSlice;
use mh_look::{Part, Report, put_report, read_report};
use mh_told::text::Text;
use std::alloc::Global;

/// What is printed of the example `clock`.
const CLOCK: &str = r#"did 44 idle
did 6 idle
did 6 idle
did 6 idle
frame 1
row 03: 23-29 ffffff/000000 "Station" 31-35 ffffff/000000 "clock"
row 06: 0-2 000000/0080ff ""
row 07: 0-2 000000/0080ff ""
row 08: 0-2 000000/0080ff ""
row 35: 12-15 ffffff/000000 "Red:" 17-21 ffffff/000000 "news." 23-28 ffffff/000000 "Green:" 30-35 ffffff/000000 "clock." 37-41 ffffff/000000 "Blue:" 43-46 ffffff/000000 "off."
did 3 idle
frame 2
row 06: 0-2 000000/ff0000 ""
row 07: 0-2 000000/ff0000 ""
row 08: 0-2 000000/ff0000 ""
did 36 idle
frame 3
row 03:
row 06: 10-12 ffffff/000000 "The" 14-18 ffffff/000000 "10:15" 20-21 ffffff/000000 "to" 23-25 ffffff/000000 "the" 27-31 ffffff/000000 "coast" 33-38 ffffff/000000 "leaves" 40-43 ffffff/000000 "from"
row 07: 10-17 ffffff/000000 "platform" 19-20 ffffff/000000 "3."
row 08:
did 39 idle
frame 4
row 03: 23-29 ffffff/000000 "Station" 31-35 ffffff/000000 "clock"
row 06:
row 07:
did 22 ended
refused 52
total 162
"#;

/// What is printed of the example `first`.
pub const FIRST: &str = r#"did 11 idle
frame 1
row 01: 1-2 000000/ff0000 ""
row 02: 1-2 000000/ff0000 ""
did 2 idle
frame 2
row 01: 2-3 000000/ff0000 ""
row 02: 2-3 000000/ff0000 ""
total 13
"#;

/// What is printed of the example `menu`.
const MENU: &str = r#"did 35 idle
frame 1
row 04: 2-3 000000/ffffff "" 5-14 000000/ff0000 ""
row 05: 2-3 000000/ffffff "" 5-14 000000/ff0000 ""
row 07: 5-14 000000/00ff00 ""
row 08: 5-14 000000/00ff00 ""
row 10: 5-14 000000/ffff00 ""
row 11: 5-14 000000/ffff00 ""
row 13: 5-14 000000/0000ff ""
row 14: 5-14 000000/0000ff ""
did 4 idle
frame 2
row 04: 5-14 000000/ff0000 ""
row 05: 5-14 000000/ff0000 ""
row 13: 2-3 000000/ffffff "" 5-14 000000/0000ff ""
row 14: 2-3 000000/ffffff "" 5-14 000000/0000ff ""
did 55 idle
frame 3
row 04: 2-3 000000/ffffff "" 5-14 000000/ff0000 ""
row 05: 2-3 000000/ffffff "" 5-14 000000/ff0000 ""
row 13: 5-14 000000/0000ff ""
row 14: 5-14 000000/0000ff ""
total 94
"#;

/// What is printed of the example `quiz`.
const QUIZ: &str = r#"did 23 idle
frame 1
row 00: 0-1 000000/ff0000 ""
did 14 idle
frame 2
row 00:
row 01: 4-5 000000/ff0000 ""
did 5 idle
frame 3
row 01: 0-1 000000/ff0000 ""
did 25 idle
frame 4
row 01: 6-7 000000/ff0000 ""
row 04: 2-5 000000/00ff00 ""
row 05: 2-5 000000/00ff00 ""
did 7 idle
frame 5
row 01:
row 07: 2-3 000000/ff0000 ""
total 74
"#;

/// How many frames each report has, its steps, words that a viewer sees, and the report.
static REPORTS: [(usize, u64, &str, &str); 7] = [
    (4, 162, "Station", CLOCK),
    (2, 13, "", FIRST),
    (5, 99, "Programme", GUIDE),
    (3, 94, "", MENU),
    (5, 77, "Town", PAGE),
    (5, 74, "", QUIZ),
    (6, 252, "Vote", VOTE),
];

fn frames(parts: &[Part]) -> usize {
    let frames = parts.iter().filter(|part| matches!(part, Part::Frame(_)));
    frames.count()
}

/// Whether the words are among what is shown of the report.
fn shows(alloc: Global, report: &Report, words: &str) -> Option<bool> {
    let mut text = Text::new(alloc);
    let put = put_report(&mut text, report, true).ok();
    put.and(Some(text.as_slice().contains_str(words.as_bytes())))
}

/// How many frames the report has, its steps, and whether the words are among what is shown of it.
fn read(alloc: Global, printed: &str, words: &str) -> Option<(usize, u64, bool)> {
    let report = read_report(alloc, printed.as_bytes()).ok()?;
    let counts = (frames(report.parts.as_slice()), report.total);
    let shows = shows(alloc, &report, words);
    drop(report);
    Some((counts.0, counts.1, shows?))
}

#[test]
fn reads_the_report_of_each_example(rt: HostRuntime) {
    for (frames, total, words, printed) in &REPORTS {
        let found = read(rt.alloc(), *printed, *words);
        assert!(rt; found == Some((*frames, *total, true)), "{total} steps");
    }
}

#[test]
fn reads_no_report_that_ends_early(rt: HostRuntime) {
    for (_, _, _, printed) in &REPORTS {
        let cut = &printed.as_bytes()[..printed.len().saturating_sub(1)];
        assert!(rt; read_report(rt.alloc(), cut).err().is_some());
    }
}
