//! The octets that a quoted string stands for.
ghost use Rattle.std.specs.Prelude.{◌≡◌, ◌<◌, ◌+◌, ◌*◌, IfOk};
ghost use Rattle.mh_text.specs.Bytes.{hexadecimal_value};
ghost use Rattle.mh_text.specs.Escapes.{unescaped};

use std::alloc::{AllocError, Global};

/// How far a `=` with its two digits has been read.
#[derive(Clone, Copy)]
enum Escape {
    Outside,
    /// Behind the `=`.
    Begun,
    /// Behind the first digit, of this value.
    Half(u8),
}

/// The octets of the bytes between the marks of a quoted string: `=` and two hexadecimal digits are
/// one octet, each other byte stands for itself.
pub(crate) fn unescaped(alloc: Global, inner: &[u8]) -> Result<Vec<u8>, AllocError>
    ensures { IfOk result (λ octets. octets.items ≡ unescaped Escape.Outside inner.now) }
{
    let mut octets = Vec::with_capacity(alloc, inner.len())?;
    let mut escape = Escape::Outside;
    for byte in inner {
        match escape {
            Escape::Outside if *byte == b'=' => escape = Escape::Begun,
            Escape::Outside => octets.push(*byte)?,
            Escape::Begun => escape = Escape::Half(hexadecimal_value(*byte)),
            Escape::Half(high) => {
                octets.push(high * 16 + hexadecimal_value(*byte))?;
                escape = Escape::Outside;
            }
        }
    }
    Ok(octets)
}

/// The value of a hexadecimal digit.
fn hexadecimal_value(digit: u8) -> u8
    ensures value { result ≡ hexadecimal_value digit }
    ensures small { result < 16 }
{
    match digit {
        b'0'..=b'9' => digit - b'0',
        b'A'..=b'F' => digit - b'A' + 10,
        b'a'..=b'f' => digit - b'a' + 10,
        _ => 0,
    }
}
