//! What no contract says: sums and bytes that others worked out, and small reports as they are
//! shown.
use bstr::ByteSlice;
use mh_look::{
    Adler, Comparison, Crc, Difference, Part, Report, compare, compared, frame_at, image_of,
    is_inked, page_of, put_escaped, put_report, read_report,
};
use mh_model::Picture;
use mh_terminal::put_frame;
use mh_told::text::Text;
use std::alloc::Global;

/// A report with two frames, of which the second is black.
const ONE: &str =
    "did 1 idle\nframe 1\nrow 00: 0-0 ffffff/0000ff \"<\"\nframe 2\nrow 00:\ntotal 1\n";

/// A report with one frame, which has one more cell than the first frame of the other.
const OTHER: &str =
    "did 1 idle\nframe 1\nrow 00: 0-0 ffffff/0000ff \"<\"\nrow 35: 59-59 ff0000/000000 \"a\"\ntotal 1\n";

/// The same with other lines.
const LINES: &str =
    "did 2 idle\nframe 1\nrow 00: 0-0 ffffff/0000ff \"<\"\nrow 35: 59-59 ff0000/000000 \"a\"\nrefused 51\ntotal 3\n";

/// A report with a frame in which coloured cells hold no character.
const COLOURED: &str = "frame 1\nrow 00: 1-3 ffffff/00ff00 \"a\"\ntotal 0\n";

/// A report with a frame in which two orders to a terminal stand, and a character of two bytes.
const ORDERS: &str = "frame 1\nrow 00: 0-2 ffffff/000000 \"\x1b\x07é\"\ntotal 0\n";

fn read(alloc: Global, text: &str) -> Option<Report> {
    read_report(alloc, text.as_bytes()).ok()
}

fn contains(text: &Text, part: &[u8]) -> bool {
    text.as_slice().contains_str(part)
}

/// What is shown of a report, in colours or plainly.
fn shown(alloc: Global, report: &str, is_plain: bool) -> Option<Text> {
    let report = read(alloc, report)?;
    let mut text = Text::new(alloc);
    let put = put_report(&mut text, &report, is_plain).ok();
    drop(report);
    put.and(Some(text))
}

fn frame_shown(alloc: Global, parts: &[Part], number: u64) -> Option<Text> {
    let picture = frame_at(parts, number)?;
    let mut text = Text::new(alloc);
    let put = put_frame(&mut text, number, picture, true).ok();
    put.and(Some(text))
}

/// What is shown of the frame with this number, if the report has one.
fn frame_of(alloc: Global, report: &str, number: u64) -> Option<Text> {
    let report = read(alloc, report)?;
    let text = frame_shown(alloc, report.parts.as_slice(), number);
    drop(report);
    text
}

/// The page of a report, beside its script.
fn page(alloc: Global, report: &str, script: &[u8]) -> Option<Text> {
    let report = read(alloc, report)?;
    let page = page_of(alloc, &report, script).ok();
    drop(report);
    page
}

#[test]
fn sums_are_those_of_others(rt: HostRuntime) {
    let mut crc = Crc::new();
    crc.add(b"1234");
    crc.add(b"56789");
    assert!(rt; crc.sum() == 0xCBF4_3926);
    let mut adler = Adler::new();
    adler.add(b"Wikipedia");
    assert!(rt; adler.sum() == 0x11E6_0398);
}

#[test]
fn an_image_has_its_chunks(rt: HostRuntime) {
    let Ok(file) = Picture::black(rt.alloc()).and_then(|picture| image_of(rt.alloc(), &picture))
    else {
        panic!(rt; "no memory");
    };
    let bytes = file.as_slice();
    assert!(rt; bytes.len() == 1_247_679);
    assert!(rt;
        bytes.starts_with(
            b"\x89PNG\r\n\x1a\n\0\0\0\x0dIHDR\0\0\x02\xd0\0\0\x02\x40\x08\x02\0\0\0\x2b\x53\xc6\x88"
        )
    );
    assert!(rt; bytes.ends_with(b"\0\0\0\0IEND\xae\x42\x60\x82"));
}

/// Points of characters, and whether they are drawn: the bar of a T and the stem below it, a box for
/// what is not there, an accent, and a dash that takes all of its cell.
static POINTS: [(u32, usize, usize, bool); 14] = [
    (84, 0, 0, false),
    (84, 1, 0, true),
    (84, 10, 1, true),
    (84, 11, 0, false),
    (84, 4, 13, false),
    (84, 5, 13, true),
    (84, 7, 13, false),
    (0x2603, 1, 5, true),
    (0x2603, 4, 5, false),
    (32, 4, 4, false),
    (0xE9, 7, 0, true),
    (0xE9, 1, 0, false),
    (0x2014, 0, 6, true),
    (0x2014, 11, 7, true),
];

#[test]
fn letters_look_like_letters(rt: HostRuntime) {
    for (scalar, x, y, is) in &POINTS {
        assert!(rt; is_inked(*scalar, *x, *y) == *is, "at {scalar} {x} {y}");
    }
}

#[test]
fn a_terminal_is_told_colours_only(rt: HostRuntime) {
    let Some(text) = shown(rt.alloc(), ORDERS, false) else {
        panic!(rt; "no report");
    };
    let row =
        "\x1b[38;2;255;255;255m\x1b[48;2;0;0;0m\u{fffd}\u{fffd}é\x1b[38;2;0;0;0m\x1b[48;2;0;0;0m ";
    assert!(rt; contains(&text, row.as_bytes()));
    assert!(rt; contains(&text, b" \x1b[0m\n\x1b[38;2;"));
    assert!(rt;
        text.as_slice().starts_with(b"frame 1\n\x1b")
            && text.as_slice().ends_with(b"\x1b[0m\ntotal 0\n")
    );
}

#[test]
fn a_frame_is_shown_alone(rt: HostRuntime) {
    assert!(rt; frame_of(rt.alloc(), ONE, 0).is_none());
    assert!(rt; frame_of(rt.alloc(), ONE, 3).is_none());
    let Some(text) = frame_of(rt.alloc(), ONE, 1) else {
        panic!(rt; "no frame");
    };
    assert!(rt;
        text.as_slice().starts_with(b"frame 1\n<   ") && text.as_slice().len() == 8 + 36 * 61
    );
}

#[test]
fn coloured_cells_are_seen_without_colours(rt: HostRuntime) {
    let Some(text) = shown(rt.alloc(), COLOURED, true) else {
        panic!(rt; "no report");
    };
    assert!(rt; contains(&text, "frame 1\n a\u{2591}\u{2591}  ".as_bytes()));
}

#[test]
fn a_page_has_text_and_no_tags_of_a_report(rt: HostRuntime) {
    let Some(page) = page(rt.alloc(), ONE, b"key <\nrun\n# behind\nshow\n") else {
        panic!(rt; "no page");
    };
    let cell =
        b"<div><span class=c style=\"color:#ffffff;background:#0000ff\">&lt;</span><span style=";
    assert!(rt; contains(&page, cell));
    let told =
        b"<pre>&gt; key &lt;\n&gt; run\ndid 1 idle\n&gt; # behind\n&gt; show\n</pre>\n<h2>frame 1</h2>";
    assert!(rt; contains(&page, told));
}

#[test]
fn a_text_is_escaped(rt: HostRuntime) {
    let mut text = Text::new(rt.alloc());
    assert!(rt; put_escaped(&mut text, b"<a b=\"c\" d='&'>").is_ok());
    assert!(rt; text.as_slice() == b"&lt;a b=&quot;c&quot; d=&#39;&amp;&#39;&gt;".as_slice());
}

/// What is said of the first report and the other, with lines and without.
static DIFFERENCES: &[(&str, &str, bool, &str)] = &[
    (ONE, ONE, false, "the same frames: 2\n"),
    (ONE, ONE, true, "the same frames: 2\nthe same lines\n"),
    (
        ONE,
        OTHER,
        false,
        "frame 1: 1 cell differs, in row 35 column 59: 000000/000000 \" \" and ff0000/000000 \"a\"\nthe first has more frames than 1\n",
    ),
    (
        OTHER,
        ORDERS,
        false,
        "frame 1: 4 cells differ, the first in row 0 column 0: ffffff/0000ff \"<\" and ffffff/000000 \"\u{fffd}\"\n",
    ),
    (
        OTHER,
        LINES,
        true,
        "the same frames: 1\nthe first before frame 1: did 1 idle\nthe second before frame 1: did 2 idle\nthe second behind frame 1: refused 51\nthe first: total 1\nthe second: total 3\n",
    ),
];

/// What is said of two reports, and whether they differ.
fn said(alloc: Global, first: &str, second: &str, lines: bool) -> Option<(Text, bool)> {
    let (first, second) = read(alloc, first).zip(read(alloc, second))?;
    let compared = compared(alloc, &first, &second, lines);
    drop(first);
    drop(second);
    let Comparison { text, differs } = compared.ok()?;
    Some((text, differs))
}

#[test]
fn differences_are_told(rt: HostRuntime) {
    for (first, second, lines, wanted) in DIFFERENCES {
        let Some((text, differs)) = said(rt.alloc(), first, second, *lines) else {
            panic!(rt; "no report");
        };
        assert!(rt; text.as_slice() == wanted.as_bytes(), "{wanted}");
        assert!(rt;
            differs != wanted.starts_with("the same frames: 2"),
            "{wanted}"
        );
    }
}

/// Where two reports differ first.
fn first_difference(alloc: Global, first: &str, second: &str) -> Option<Difference> {
    let (first, second) = read(alloc, first).zip(read(alloc, second))?;
    let found = compare(first.parts.as_slice(), second.parts.as_slice());
    drop(first);
    drop(second);
    Some(found)
}

#[test]
fn the_first_difference_is_found(rt: HostRuntime) {
    let same = first_difference(rt.alloc(), ONE, ONE);
    assert!(rt; matches!(same, Some(Difference::Nowhere(2))));
    let found = first_difference(rt.alloc(), ONE, OTHER);
    assert!(rt; matches!(found, Some(Difference::At(1, 2159))));
}
