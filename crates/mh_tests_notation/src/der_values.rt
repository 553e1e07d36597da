//! Integers, truth values and elements, read and written: octets worked out by hand from ITU-T X.690.
use crate::cases::all_hold;
use crate::der::{CONTEXT, refusal};
use mh_cases::{Question, number, said, word};
use mh_der::{
    BOOLEAN, DerError, OCTET_STRING, Reader, SEQUENCE, Tag, TagClass, bool_of, int_of, write_bool,
    write_element, write_int,
};
use std::alloc::{AllocError, Global};

/// Integers in their one spelling, and what spells none.
static INTEGERS: &str = r#"
\020100\ => 0;; \020101\ => 1;; \02017f\ => 127;; \02020080\ => 128;; \02020100\ => 256;;
\0201ff\ => -1;; \020180\ => -128;; \0202ff7f\ => -129;; \02027fff\ => 32767;;
\02028000\ => -32768;; \0203008000\ => 32768;; \0203ff7fff\ => -32769;; \0203800000\ => -8388608;;
\020400800000\ => 8388608;; \02047fffffff\ => 2147483647;; \020480000000\ => -2147483648;;
\02020000\ => 5 0;; \0202007f\ => 5 0;; \0202ff80\ => 5 0;; \0202ffff\ => 5 0;;
\0203000080\ => 5 0;; \0203ffff7f\ => 5 0;; \0204007fffff\ => 5 0;; \02050080000000\ => 5 0;;
\02050100000000\ => 5 0;; \0200\ => 5 0"#;

fn integer_of(source: &[u8]) -> Result<i32, DerError> {
    int_of(&Reader::new(source).next()?)
}

fn is_written_as(alloc: Global, value: i32, octets: &[u8]) -> Result<bool, AllocError> {
    let mut out = Vec::new(alloc);
    let written = write_int(&mut out, value);
    written.and(Ok(out.as_slice() == octets))
}

struct Integer;

impl Question for Integer {
    fn answer(alloc: Global, _: &str, octets: &[u8]) -> Option<Vec<u8>> {
        match integer_of(octets) {
            Ok(value) if is_written_as(alloc, value, octets).ok()? => {
                Some(format!(in alloc; "{value}").ok()?.into_bytes())
            }
            Ok(_) => said(alloc, b"written otherwise"),
            Err(error) => refusal(alloc, error),
        }
    }
}

#[test]
fn reads_and_writes_integers(rt: HostRuntime) {
    all_hold::<Integer>(&rt, rt.alloc(), INTEGERS);
}

/// Truth values, and what spells none.
static TRUTHS: &str = r#"
\0101ff\ => true;; \010100\ => false;; \010101\ => 6 0;; \0101fe\ => 6 0;; \0100\ => 6 0;;
\0102ffff\ => 6 0"#;

fn truth_of(source: &[u8]) -> Result<bool, DerError> {
    bool_of(&Reader::new(source).next()?)
}

struct Truth;

impl Question for Truth {
    fn answer(alloc: Global, _: &str, octets: &[u8]) -> Option<Vec<u8>> {
        match truth_of(octets) {
            Ok(true) => said(alloc, b"true"),
            Ok(false) => said(alloc, b"false"),
            Err(error) => refusal(alloc, error),
        }
    }
}

#[test]
fn reads_truth_values(rt: HostRuntime) {
    all_hold::<Truth>(&rt, rt.alloc(), TRUTHS);
}

fn write_all(
    fields: &mut Vec<u8>,
    inner: &mut Vec<u8>,
    out: &mut Vec<u8>,
) -> Result<(), AllocError> {
    write_element(fields, OCTET_STRING, b"~/a")?;
    write_int(fields, 0)?;
    write_element(inner, SEQUENCE, fields.as_slice())?;
    write_element(out, CONTEXT, inner.as_slice())?;
    write_bool(out, true)?;
    write_bool(out, false)?;
    write_element(out, BOOLEAN, b"")
}

/// Elements are written behind those that stand there.
#[test]
fn writes_elements(rt: HostRuntime) {
    let wanted = b"\xa0\x0a\x30\x08\x04\x03~/a\x02\x01\x00\x01\x01\xff\x01\x01\x00\x01\x00";
    let mut fields = Vec::new(rt.alloc());
    let mut inner = Vec::new(rt.alloc());
    let mut out = Vec::new(rt.alloc());
    let written = write_all(&mut fields, &mut inner, &mut out);
    assert!(rt; written.is_ok() && out.as_slice() == wanted.as_slice());
}

/// The class, the form and the number of a tag, how many octets of contents there are, and what stands
/// in front of them.
static FRONTS: &str = r#"
context constructed 0 0 => \a000\;; context constructed 30 0 => \be00\;;
context constructed 31 0 => \bf1f00\;; context constructed 126 0 => \bf7e00\;;
context constructed 127 0 => \bf7f00\;; context constructed 128 0 => \bf810000\;;
context constructed 201 0 => \bf814900\;; context constructed 16383 0 => \bfff7f00\;;
context constructed 16384 0 => \bf81800000\;; context constructed 65535 0 => \bf83ff7f00\;;
universal primitive 5 0 => \0500\;; universal constructed 5 0 => \2500\;;
application primitive 5 0 => \4500\;; context primitive 5 0 => \8500\;;
private primitive 5 0 => \c500\;; private constructed 5 0 => \e500\;;
universal primitive 4 1 => \0401\;; universal primitive 4 127 => \047f\;;
universal primitive 4 128 => \048180\;; universal primitive 4 255 => \0481ff\;;
universal primitive 4 256 => \04820100\;; universal primitive 4 65535 => \0482ffff\;;
universal primitive 4 65536 => \0483010000\"#;

/// Whether the element, and nothing else, is read back.
fn is_read_back(octets: &[u8], tag: Tag, contents: &[u8]) -> bool {
    let mut reader = Reader::new(octets);
    match reader.next() {
        Ok(found) => {
            found.tag() == tag && found.contents().bytes() == contents && reader.is_empty()
        }
        Err(_) => false,
    }
}

fn class_of(word: &str) -> Option<TagClass> {
    match word {
        "universal" => Some(TagClass::Universal),
        "application" => Some(TagClass::Application),
        "context" => Some(TagClass::Context),
        "private" => Some(TagClass::Private),
        _ => None,
    }
}

/// What stands in front of so many octets, where the element is read back.
fn front_of(alloc: Global, tag: Tag, size: usize) -> Option<Vec<u8>> {
    let contents = vec![in alloc; 90u8; size].ok()?;
    let mut out = Vec::new(alloc);
    let written = write_element(&mut out, tag, contents.as_slice());
    let is_good = written.is_ok() && is_read_back(out.as_slice(), tag, contents.as_slice());
    match out.as_slice().strip_suffix(contents.as_slice()) {
        Some(front) if is_good => said(alloc, front),
        _ => None,
    }
}

struct Front;

impl Question for Front {
    fn answer(alloc: Global, asked: &str, _: &[u8]) -> Option<Vec<u8>> {
        let tag = Tag {
            class: class_of(word(asked, 0))?,
            is_constructed: word(asked, 1) == "constructed",
            number: word(asked, 2).parse::<u16>().ok()?,
        };
        front_of(alloc, tag, number(asked, 3)? as usize)
    }
}

#[test]
fn writes_tags_and_lengths(rt: HostRuntime) {
    all_hold::<Front>(&rt, rt.alloc(), FRONTS);
}
