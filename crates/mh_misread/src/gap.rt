//! White space that lacks between two tokens.
ghost use Rattle.std.specs.Prelude.{◌≡◌};
ghost use Rattle.mh_text.specs.Bytes.{is_letter_or_digit};
ghost use Rattle.mh_misread.specs.Misreads.{is_bare, is_bare_byte, ends_bare, lacks_gap};

use crate::piece::Sign;

/// Whether white space lacks between the bytes and the token behind them.
pub(crate) fn lacks_gap(front: &[u8], sign: Option<Sign>) -> bool
    ensures { result ≡ lacks_gap front.now sign }
{
    match sign {
        Some(sign) => is_bare(sign) && ends_bare(front),
        None => false,
    }
}

/// Whether the token is a keyword, a word or an integer.
fn is_bare(sign: Sign) -> bool
    ensures { result ≡ is_bare sign }
{
    matches!(sign, Sign::Name(_) | Sign::Unknown | Sign::Integer)
}

/// Whether the bytes end with a letter or a digit.
fn ends_bare(bytes: &[u8]) -> bool
    ensures { result ≡ ends_bare bytes.now }
{
    is_bare_byte(bytes.last().copied())
}

fn is_bare_byte(byte: Option<u8>) -> bool
    ensures { result ≡ is_bare_byte byte }
{
    match byte {
        Some(byte) => is_letter_or_digit(byte),
        None => false,
    }
}

pub(crate) fn is_letter_or_digit(byte: u8) -> bool
    ensures { result ≡ is_letter_or_digit byte }
{
    matches!(byte, b'A'..=b'Z' | b'a'..=b'z') || matches!(byte, b'0'..=b'9')
}
