//! Names of files, as the protocol writes them: `file://`, and a path in which some bytes are escaped.
ghost use Rattle.std.specs.Prelude.{◌≡◌, ◌++◌, ◌<◌, IfOk, OnOk};
ghost use Rattle.mh_protocol.specs.Uris as spec;

use std::alloc::{AllocError, Global};

/// What is left to read of an escape.
#[derive(Clone, Copy)]
enum Awaited {
    Nothing,
    /// Both digits.
    Both,
    /// The second digit, behind this first one.
    Second(u8),
}

/// The bytes that a text stands for, in which `%` and two digits stand for a byte.
pub fn unescaped(alloc: Global, bytes: &[u8]) -> Result<Vec<u8>, AllocError>
    ensures { IfOk result (λ found. found.items ≡ spec.unescaped bytes.now) }
{
    let mut found = Vec::new(alloc);
    let mut awaited = Awaited::Nothing;
    for byte in bytes {
        if let Some(whole) = whole_byte(awaited, *byte) {
            found.push(whole)?;
        }
        awaited = awaited_behind(awaited, *byte);
    }
    Ok(found)
}

/// The byte that is whole with this one.
fn whole_byte(awaited: Awaited, byte: u8) -> Option<u8>
    ensures { result ≡ spec.whole_byte awaited byte }
{
    match awaited {
        Awaited::Second(first) => Some(joined(first, digit_of(byte))),
        Awaited::Nothing if byte != b'%' => Some(byte),
        _ => None,
    }
}

fn awaited_behind(awaited: Awaited, byte: u8) -> Awaited
    ensures { result ≡ spec.awaited_behind awaited byte }
{
    match awaited {
        Awaited::Both => Awaited::Second(digit_of(byte)),
        Awaited::Nothing if byte == b'%' => Awaited::Both,
        _ => Awaited::Nothing,
    }
}

/// The byte of two digits.
fn joined(first: u8, second: u8) -> u8
    ensures { result ≡ spec.joined first second }
{
    (first % 16) * 16 + second % 16
}

/// The value of a digit from 0 to F; 0 of what is none.
fn digit_of(byte: u8) -> u8
    ensures { result ≡ spec.digit_of byte }
{
    match byte {
        b'0'..=b'9' => byte - 48,
        b'A'..=b'F' => byte - 55,
        b'a'..=b'f' => byte - 87,
        _ => 0,
    }
}

/// The text that stands for these bytes.
pub fn escaped(alloc: Global, bytes: &[u8]) -> Result<Vec<u8>, AllocError>
    ensures { IfOk result (λ found. found.items ≡ spec.escaped bytes.now) }
{
    let mut found = Vec::new(alloc);
    for byte in bytes {
        put_escape(&mut found, *byte)?;
    }
    Ok(found)
}

#[tactic(auto, unfolding(crate::specs::Uris::escape))]
fn put_escape(text: &mut Vec<u8>, byte: u8) -> Result<(), AllocError>
    ensures { OnOk result (text.new.items ≡ text.old.items ++ spec.escape byte) }
{
    if is_plain(byte) {
        text.push(byte)?;
        return Ok(());
    }
    text.push(b'%')?;
    text.push(digit(byte / 16))?;
    text.push(digit(byte % 16))?;
    Ok(())
}

/// Letters, digits and some marks stand for themselves.
fn is_plain(byte: u8) -> bool
    ensures { result ≡ spec.is_plain byte }
{
    matches!(byte, b'-' | b'.' | b'/' | b'0'..=b'9' | b'A'..=b'Z' | b'_' | b'a'..=b'z' | b'~')
}

fn digit(value: u8) -> u8
    requires { value < 16 }
    ensures { result ≡ spec.digit value }
{
    if value < 10 { value + 48 } else { value + 55 }
}
