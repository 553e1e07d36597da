//! Places in files, as an author is shown them.
use crate::cases::all_hold;
use bstr::ByteSlice;
use mh_cases::{Question, number, repeated, said};
use mh_why::place_text;
use std::alloc::Global;

/// An offset, a size, the name of a file and its bytes, and what is shown.
static PLACES: &str = r#"
0 1 a ab|cd| =>   a, line 1, column 1|  1 \7c\ ab|    \7c\ ^| -- the first character of a line;;
1 1 a ab|cd| =>   a, line 1, column 2|  1 \7c\ ab|    \7c\  ^| -- the last one;;
2 1 a ab|cd| =>   a, line 1, column 3|  1 \7c\ ab|    \7c\   ^| -- the line feed;;
3 2 a ab|cd| =>   a, line 2, column 1|  2 \7c\ cd|    \7c\ ^^|;;
4 1 a ab|cd =>   a, line 2, column 2|  2 \7c\ cd|    \7c\  ^|;;
0 0 a ab| =>   a, line 1, column 1|  1 \7c\ ab|    \7c\ ^| -- no bytes;;
1 5 a ab|cd| =>   a, line 1, column 2|  1 \7c\ ab|    \7c\  ^| -- carets end with the line;;
1 5 a ab\0d0a\cd =>   a, line 1, column 2|  1 \7c\ ab|    \7c\  ^|;;
2 1 a ab||cd| =>   a, line 1, column 3|  1 \7c\ ab|    \7c\   ^|;;
3 1 a ab||cd| =>   a, line 2, column 1|  2 \7c\ |    \7c\ ^| -- a line with nothing in it;;
2 1 a \0909\x =>   a, line 1, column 3|  1 \7c\   x|    \7c\   ^| -- behind tabs;;
9 1 a é€😀x =>   a, line 1, column 4|  1 \7c\ é€😀x|    \7c\    ^| -- behind characters of two to four bytes;;
2 7 a é€😀x =>   a, line 1, column 2|  1 \7c\ é€😀x|    \7c\  ^^|;;
4 2 a ab\0d0a\cd\0d0a\ =>   a, line 2, column 1|  2 \7c\ cd|    \7c\ ^^|;;
1 1 a ab\0d0a\cd\0d0a\ =>   a, line 1, column 2|  1 \7c\ ab|    \7c\  ^|;;
3 1 a ab| =>   a, line 1, column 3|  1 \7c\ ab|    \7c\   ^| -- the end, behind a line feed;;
4 1 a ab\0d0a\ =>   a, line 1, column 3|  1 \7c\ ab|    \7c\   ^| -- and behind that of another system;;
2 1 a ab =>   a, line 1, column 3|  1 \7c\ ab|    \7c\   ^| -- the end with none;;
999 9 a ab|cd =>   a, line 2, column 3|  2 \7c\ cd|    \7c\   ^| -- far behind the end;;
0 1 a  =>   a, line 1, column 1|  1 \7c\ |    \7c\ ^| -- a file with nothing in it;;
6 1 a \1b\[31m\ff\x =>   a, line 1, column 7|  1 \7c\ \efbfbd\[31m\efbfbd\x|    \7c\       ^| -- an order, and a byte of no character;;
2 1 a \c285\x =>   a, line 1, column 2|  1 \7c\ \efbfbd\x|    \7c\  ^| -- an order of two bytes;;
0 1 a|\1b\b x =>   a\efbfbdefbfbd\b, line 1, column 1|  1 \7c\ x|    \7c\ ^| -- orders in a name"#;

/// What is shown of a place, which is told by the first two words of a question.
fn shown(alloc: Global, asked: &str, name: &[u8], file: &[u8]) -> Option<Vec<u8>> {
    let (offset, size) = number(asked, 0).zip(number(asked, 1))?;
    let text = place_text(alloc, name, file, offset as usize, size as usize).ok()?;
    said(alloc, text.as_slice())
}

struct Place;

impl Question for Place {
    fn answer(alloc: Global, asked: &str, bytes: &[u8]) -> Option<Vec<u8>> {
        let (_, behind_offset) = bytes.split_once_str(b" ")?;
        let (_, behind_size) = behind_offset.split_once_str(b" ")?;
        let (name, file) = behind_size.split_once_str(b" ")?;
        shown(alloc, asked, name, file)
    }
}

#[test]
fn places_are_shown(rt: HostRuntime) {
    all_hold::<Place>(&rt, rt.alloc(), PLACES);
}

/// An offset and a size in a file whose first line has 100,008 characters.
static LONG_PLACES: &str = r#"
0 5 =>   a, line 1, column 1|  1 \7c\ begin01234567890123456789012345678901234567890123456789012345678901234 …|    \7c\ ^^^^^|;;
0 5000 =>   a, line 1, column 1|  1 \7c\ begin01234567890123456789012345678901234567890123456789012345678901234 …|    \7c\ ^^^^^^^^^^^^^^^^^^^^^^^^^^^^^^^^^^^^^^^^^^^^^^^^^^^^^^^^^^^^^^^^^^^^^^|;;
50005 3 =>   a, line 1, column 50006|  1 \7c\ … 0123456789012345678901234567890123456789012345678901234567890123456789 …|    \7c\                                           ^^^|;;
50005 99 =>   a, line 1, column 50006|  1 \7c\ … 0123456789012345678901234567890123456789012345678901234567890123456789 …|    \7c\                                           ^^^^^^^^^^^^^^^^^^^^^^^^^^^^^^|;;
100005 3 =>   a, line 1, column 100006|  1 \7c\ … 0123456789012345678901234567890123456789end|    \7c\                                           ^^^|;;
100009 4 =>   a, line 2, column 1|  2 \7c\ next|    \7c\ ^^^^|"#;

struct LongPlace;

impl Question for LongPlace {
    fn answer(alloc: Global, asked: &str, _: &[u8]) -> Option<Vec<u8>> {
        let file = repeated(alloc, b"begin", b"0123456789", 10_000, b"end\nnext\n").ok()?;
        shown(alloc, asked, b"a", file.as_slice())
    }
}

#[test]
fn places_in_long_lines_are_shown(rt: HostRuntime) {
    all_hold::<LongPlace>(&rt, rt.alloc(), LONG_PLACES);
}
