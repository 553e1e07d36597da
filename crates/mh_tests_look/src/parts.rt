//! What a report is made of, read back: numbers, colours and the characters of a run.
use mh_look::{read_characters, read_colour, read_number};
use std::alloc::Global;

static NUMBERS: [(&[u8], Option<(u64, usize)>); 9] = [
    (b"0", Some((0, 1))),
    (b"37 more", Some((37, 2))),
    (b"007", Some((7, 3))),
    (b"18446744073709551615\n", Some((u64::MAX, 20))),
    (b"18446744073709551616", None),
    (b"", None),
    (b" 1", None),
    (b"+1", None),
    (b"-1", None),
];

#[test]
fn numbers_are_read(rt: HostRuntime) {
    for (bytes, number) in &NUMBERS {
        assert!(rt; read_number(bytes) == *number, "at {number:?}");
    }
}

static COLOURS: [(&[u8], Option<u32>); 7] = [
    (b"000000", Some(0)),
    (b"12ab9f/00", Some(0x12AB9F)),
    (b"12AB9F", Some(0x12AB9F)),
    (b"ffffff", Some(0xFFFFFF)),
    (b"fffff", None),
    (b"+fffff", None),
    (b"fffffg", None),
];

#[test]
fn colours_are_read(rt: HostRuntime) {
    for (bytes, colour) in &COLOURS {
        assert!(rt; read_colour(bytes) == *colour, "at {colour:?}");
    }
}

/// How many bytes were read, and the characters, behind a first one that was there.
fn read(alloc: Global, bytes: &[u8]) -> Option<(usize, Vec<u32>)> {
    let mut scalars = Vec::new(alloc);
    scalars.push(7).ok()?;
    let count = read_characters(bytes, &mut scalars).ok()??;
    Some((count, scalars))
}

fn is_read(alloc: Global, bytes: &[u8], count: usize, expected: &[u32]) -> bool {
    match read(alloc, bytes) {
        Some((length, scalars)) => length == count && scalars.as_slice() == expected,
        None => false,
    }
}

#[test]
fn characters_are_read(rt: HostRuntime) {
    let alloc = rt.alloc();
    assert!(rt; is_read(alloc, b" \"\"", 3, &[7]));
    assert!(rt; is_read(alloc, b" \"a\" b\"", 4, &[7, 97]));
    assert!(rt; is_read(alloc, b" \"\\\"\\\\\"", 7, &[7, 34, 92]));
    assert!(rt;
        is_read(
            alloc,
            b" \"\xC3\xA9\xE2\x82\xAC\xF0\x9F\x99\x82\"",
            12,
            &[7, 0xE9, 0x20AC, 0x1F642]
        )
    );
}

static REFUSED: [&[u8]; 10] = [
    b"",
    b"\"a\"",
    b" a",
    b" \"a",
    b" \"a\\",
    b" \"a\\\"",
    b" \"\x80\"",
    b" \"\xC3\"",
    b" \"\xED\xA0\x80\"",
    b" \"\xF4\x90\x80\x80\"",
];

#[test]
fn nothing_else_is_read(rt: HostRuntime) {
    for (at, bytes) in REFUSED.iter().enumerate() {
        assert!(rt; read(rt.alloc(), bytes).is_none(), "at {at}");
    }
}
