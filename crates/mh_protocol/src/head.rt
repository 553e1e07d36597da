//! The header of a message: lines, of which the last is empty.
ghost use Rattle.std.specs.Prelude.{◌≡◌, ◌≤◌, ◌<◌, drop, length, nat_le, take, if◌then◌else◌, option_map, position, IfSome, None, Some};
ghost use Rattle.std.specs.List.{list_all, list_any, prefix_len};
ghost use Rattle.mh_protocol.specs.Heads as spec;

use crate::position::behind;

/// The longest line of a header that is waited for.
const LONGEST_LINE: usize = 1024;

/// The name of the field that says how long a message is.
const LENGTH_FIELD: &[u8] = b"content-length:";

/// What a line of a header says.
#[derive(Clone, Copy)]
enum Line {
    /// Nothing: the header ends with it.
    End,
    /// How long the message is.
    Length(usize),
    /// Something else.
    Other,
    /// It is none.
    Bad,
}

/// What stands at the front.
#[derive(Clone, Copy)]
pub(crate) enum Head {
    /// Not all of a header came yet.
    More,
    /// No header.
    Wrong,
    /// A header, behind which so many bytes came, of a message that has so many.
    Ends { left: usize, length: usize },
}

/// What a line comes to: the header is told, or it goes on behind so many bytes.
#[derive(Clone, Copy)]
enum Step {
    Done(Head),
    On { size: usize, length: Option<usize> },
}

/// The header at the front, which has at most so many lines.
pub(crate) fn head_in(lines: usize, bytes: &[u8]) -> Head
    ensures { result ≡ spec.head_in lines None bytes.now }
{
    let mut length = None;
    let mut rest = bytes;
    for _ in 0..lines {
        match step_on(length, rest) {
            Step::Done(head) => return head,
            Step::On { size, length: told } => {
                length = told;
                rest = behind(rest, size);
            }
        }
    }
    Head::Wrong
}

/// What the first line comes to.
#[tactic(auto, unfolding(crate::specs::Heads::step))]
fn step_on(length: Option<usize>, rest: &[u8]) -> Step
    ensures { result ≡ spec.step length rest.now }
{
    let Some(line) = line_size(rest) else {
        return Step::Done(unended(rest.len()));
    };
    match line_of(front_of(rest, line)) {
        Line::End => Step::Done(ended(behind(rest, line + 1).len(), length)),
        Line::Length(length) => Step::On {
            size: line + 1,
            length: Some(length),
        },
        Line::Other => Step::On {
            size: line + 1,
            length,
        },
        Line::Bad => Step::Done(Head::Wrong),
    }
}

/// How long the first line is, without its line feed, if it ends.
fn line_size(bytes: &[u8]) -> Option<usize>
    ensures is { result ≡ position spec.is_feed bytes.now }
    ensures within { IfSome result (λ n. n < length bytes.now) }
{
    bytes.iter().position(|byte| *byte == b'\n')
}

/// What a line comes to of which so much came and no end.
fn unended(size: usize) -> Head
    ensures { result ≡ spec.unended size }
{
    if size <= LONGEST_LINE {
        Head::More
    } else {
        Head::Wrong
    }
}

/// What a header comes to that ends.
fn ended(left: usize, length: Option<usize>) -> Head
    ensures { result ≡ spec.ended left length }
{
    match length {
        Some(length) => Head::Ends { left, length },
        None => Head::Wrong,
    }
}

#[tactic(auto, unfolding(crate::specs::Heads::line_of))]
fn line_of(line: &[u8]) -> Line
    ensures { result ≡ spec.line_of line.now }
{
    if is_blank(line) {
        return Line::End;
    }
    match behind_name(LENGTH_FIELD, line) {
        Some(value) => length_line(value),
        None => other_line(line),
    }
}

fn length_line(value: &[u8]) -> Line
    ensures { result ≡ spec.length_line value.now }
{
    match number_of(value) {
        Some(length) => Line::Length(length),
        None => Line::Bad,
    }
}

fn other_line(line: &[u8]) -> Line
    ensures { result ≡ spec.other_line line.now }
{
    if has_colon(line) {
        Line::Other
    } else {
        Line::Bad
    }
}

fn has_colon(line: &[u8]) -> bool
    ensures { result ≡ list_any spec.is_colon line.now }
{
    line.iter().any(|byte| *byte == b':')
}

/// What stands behind the name at the front of a line, in whatever case that is written.
fn behind_name<'a>(name: &[u8], line: &'a [u8]) -> Option<&'a [u8]>
    ensures { option_map (λ v. v.now) result ≡ spec.behind_name name.now line.entry.now }
{
    let mut left = name;
    let mut rest = line;
    while let Some((wanted, names)) = left.split_first() {
        let Some((byte, behind)) = rest.split_first() else {
            return None;
        };
        if lower(*byte) != *wanted {
            return None;
        }
        left = names;
        rest = behind;
    }
    Some(rest)
}

fn lower(byte: u8) -> u8
    ensures { result ≡ spec.lower byte }
{
    if matches!(byte, b'A'..=b'Z') {
        byte + 32
    } else {
        byte
    }
}

/// The number that stands alone in a value.
#[tactic(auto, unfolding(crate::specs::Heads::number_of))]
fn number_of(value: &[u8]) -> Option<usize>
    ensures { result ≡ spec.number_of value.now }
{
    let digits = behind(value, blanks_in(value));
    let size = digits_in(digits);
    if size == 0 || !is_blank(behind(digits, size)) {
        return None;
    }
    magnitude(front_of(digits, size))
}

/// The number that digits write, if it is at most 2,147,483,648.
fn magnitude(digits: &[u8]) -> Option<usize>
    ensures { result ≡ (if nat_le (spec.number_behind 0 digits.now) 2147483648 then Some (spec.number_behind 0 digits.now) else None) }
{
    let mut value = 0usize;
    for digit in digits {
        value = value * 10 + usize::from(digit.saturating_sub(b'0'));
        if value > 2147483648 {
            return None;
        }
    }
    Some(value)
}

fn blanks_in(bytes: &[u8]) -> usize
    ensures { result ≡ prefix_len spec.is_space bytes.now }
{
    bytes.iter().take_while(|byte| is_space(**byte)).count()
}

fn digits_in(bytes: &[u8]) -> usize
    ensures { result ≡ prefix_len spec.is_digit bytes.now }
{
    bytes.iter().take_while(|byte| is_digit(**byte)).count()
}

fn is_blank(bytes: &[u8]) -> bool
    ensures { result ≡ list_all spec.is_space bytes.now }
{
    bytes.iter().all(|byte| is_space(*byte))
}

fn is_space(byte: u8) -> bool
    ensures { result ≡ spec.is_space byte }
{
    byte == b' ' || byte == b'\t' || byte == b'\r'
}

fn is_digit(byte: u8) -> bool
    ensures { result ≡ spec.is_digit byte }
{
    byte >= b'0' && byte <= b'9'
}

fn front_of(bytes: &[u8], size: usize) -> &[u8]
    ensures { result.now ≡ take size bytes.now }
{
    bytes.get(..size).unwrap_or(bytes)
}
