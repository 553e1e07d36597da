//! Elements: octets worked out by hand from ITU-T X.690.
use crate::cases::all_hold;
use mh_cases::{Question, behind, placed, said, word};
use mh_der::{
    DerError, Element, INTEGER, OCTET_STRING, Reader, SEQUENCE, Tag, TagClass, Why, int_of,
};
use std::alloc::{AllocError, Global};

/// What is said of a refusal.
pub fn refusal(alloc: Global, error: DerError) -> Option<Vec<u8>> {
    placed(alloc, error.why.number(), error.offset)
}

fn told<T: Drop>(alloc: Global, found: Result<T, DerError>) -> Option<Vec<u8>> {
    match found {
        Ok(_) => said(alloc, b"read"),
        Err(error) => refusal(alloc, error),
    }
}

/// Sources, and why their first element is refused at its first byte.
static ELEMENTS: &str = r#"
first \a00a 3008 04037e2f61 020100\ => read;; first \a0800000\ => 4 0;; first \a080\ => 4 0;;
first \bf1e00\ => 2 0;; first \bf1f00\ => read;; first \bf0000\ => 2 0;; first \bf800100\ => 2 0;;
first \bf807f00\ => 2 0;; first \bf7e00\ => read;; first \bf810000\ => read;;
first \bf83ff7f00\ => read;; first \bf84800000\ => 2 0;; first \bf8180800000\ => 2 0;;
first \bf\ => 1 0;; first \bf81\ => 1 0;; first \bf8180\ => 1 0;; first \bf8100\ => 1 0;;
first \a0810a 3008 04037e2f61 020100\ => 3 0;; first \04817f\ => 3 0;; first \048180\ => 1 0;;
first \04820080\ => 3 0;; first \04820000\ => 3 0;; first \048201\ => 1 0;; first \0481\ => 1 0;;
first \0483010000\ => 1 0;; first \0488ffffffffffffffff\ => 1 0;;
first \0489010000000000000000\ => 1 0;; first \04ff01\ => 1 0;; first  => 1 0;; first \04\ => 1 0;;
first \0401\ => 1 0;; first \0400\ => read;; first \0400 bf\ => read"#;

/// What is said of the first element, of the first one inside it, or of what stands behind it.
struct Source;

impl Question for Source {
    fn answer(alloc: Global, asked: &str, bytes: &[u8]) -> Option<Vec<u8>> {
        let octets = behind(asked, bytes)?;
        match word(asked, 0) {
            "first" => told(alloc, Reader::new(octets).next()),
            "inside" => told(alloc, first_inside(octets)),
            "behind" => told(alloc, left_behind(octets)),
            _ => None,
        }
    }
}

#[test]
fn reads_and_refuses(rt: HostRuntime) {
    all_hold::<Source>(&rt, rt.alloc(), ELEMENTS);
}

/// The element `a0`, with a sequence of the text `~/a` and the number 0.
static WHOLE: &[u8] = b"\xa0\x0a\x30\x08\x04\x03~/a\x02\x01\x00";

/// Whether the element is refused at its first byte, since it was cut off.
fn is_cut(octets: &[u8]) -> bool {
    match Reader::new(octets).next() {
        Ok(_) => false,
        Err(error) => error.why.number() == 1 && error.offset == 0,
    }
}

/// An element that was cut off is refused at its first byte, wherever it was cut.
#[test]
fn refuses_what_is_cut_off(rt: HostRuntime) {
    for end in 0..WHOLE.len() {
        assert!(rt; is_cut(&WHOLE[..end]), "cut at {end}");
    }
}

/// Sources, and why and where the first element in their first one is refused.
static INSIDE: &str = r#"
inside \a00a 3008 04037e2f61 020100\ => read;; inside \a00a 300904037e2f61020100\ => 1 2;;
inside \bf810002 0481\ => 1 4;; inside \a000\ => 1 2"#;

fn first_inside(source: &[u8]) -> Result<Element<'_>, DerError> {
    let element = Reader::new(source).next()?;
    element.contents().next()
}

/// Sources, and why and where what stands behind their first element is refused.
static BEHIND: &str = r#"
behind \0400\ => read;; behind \0400 00\ => 7 2;; behind \04020102 3000\ => 7 4"#;

fn left_behind(source: &[u8]) -> Result<(), DerError> {
    let mut reader = Reader::new(source);
    let _ = reader.next()?;
    reader.ended()
}

/// Offsets are those of the source.
#[test]
fn refuses_inside_and_behind(rt: HostRuntime) {
    all_hold::<Source>(&rt, rt.alloc(), INSIDE);
    all_hold::<Source>(&rt, rt.alloc(), BEHIND);
}

/// The tag 0 of its own.
pub const CONTEXT: Tag = Tag {
    class: TagClass::Context,
    is_constructed: true,
    number: 0,
};

fn is_at(element: &Element<'_>, offset: usize, tag: Tag) -> bool {
    element.offset() == offset && element.tag() == tag
}

/// Whether these are the text and the number of `WHOLE`, and nothing else.
fn are_fields(fields: Reader<'_>) -> Option<bool> {
    let mut fields = fields;
    let (text, number) = fields.next().ok().zip(fields.next().ok())?;
    let is_text = is_at(&text, 4, OCTET_STRING) && text.contents().bytes() == b"~/a".as_slice();
    let is_number = is_at(&number, 9, INTEGER) && matches!(int_of(&number), Ok(0));
    Some(is_text && is_number && fields.offset() == 12 && fields.is_empty())
}

/// Whether the elements of `WHOLE` are read, one in the other, and nothing behind them.
fn is_whole() -> Option<bool> {
    let mut outer = Reader::new(WHOLE);
    let context = outer.next().ok()?;
    let mut inner = context.contents();
    let is_inner = is_at(&context, 0, CONTEXT) && inner.bytes() == &WHOLE[2..];
    let sequence = inner.next().ok()?;
    let is_sequence = is_at(&sequence, 2, SEQUENCE)
        && are_fields(sequence.contents()) == Some(true);
    Some(is_inner && is_sequence && outer.ended().is_ok() && inner.ended().is_ok())
}

#[test]
fn reads_all_inside(rt: HostRuntime) {
    assert!(rt; is_whole().unwrap_or(false));
}

/// After an error the reader stands where it stood.
#[test]
fn stands_after_an_error(rt: HostRuntime) {
    let source = b"\x04\x00\x04\x05\x01";
    let mut reader = Reader::new(source);
    assert!(rt; reader.next().is_ok() && reader.offset() == 2);
    assert!(rt; reader.next().is_err() && reader.offset() == 2);
    assert!(rt; reader.bytes() == &source[2..] && !reader.is_empty());
}

/// The refusals, in the order of their numbers.
static REFUSALS: [Why; 7] = [
    Why::Truncated,
    Why::BadTag,
    Why::LongLength,
    Why::Indefinite,
    Why::BadInteger,
    Why::BadBoolean,
    Why::Trailing,
];

/// The number of each, and what it says.
static WORDS: &[u8] = b"\
    1 1: the bytes end before the element does (at 9)\n\
    2 2: no tag is written so (at 9)\n\
    3 3: the length is not in its shortest form (at 9)\n\
    4 4: the length is left open (at 9)\n\
    5 5: no integer is written so (at 9)\n\
    6 6: no truth value is written so (at 9)\n\
    7 7: nothing may stand here (at 9)\n\
    ";

fn put_words(alloc: Global, words: &mut Vec<u8>) -> Result<(), AllocError> {
    for why in &REFUSALS {
        let number = why.number();
        let error = DerError {
            why: *why,
            offset: 9,
        };
        let line = format!(in alloc; "{number} {error}\n")?;
        words.extend_from_slice(line.as_bytes())?;
    }
    Ok(())
}

#[test]
fn says_why(rt: HostRuntime) {
    let mut words = Vec::new(rt.alloc());
    let put = put_words(rt.alloc(), &mut words);
    assert!(rt; put.is_ok() && words.as_slice() == WORDS);
}
