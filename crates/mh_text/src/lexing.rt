//! The bytes of tokens and of what lies between them: how long the white space at the front is, and
//! which token begins behind it. Where a token stands is left to `token`.
ghost use Rattle.std.specs.Prelude.{◌≡◌, ◌+◌, ◌≤◌, ◌<◌, ◌==◌, ◌||◌, nat_le, length, IfSome, false};
ghost use Rattle.std.specs.List.{prefix_len};
ghost use Rattle.mh_text.specs.Bytes.{is_space, is_letter, is_hexadecimal, begins_with};
ghost use Rattle.mh_text.specs.ByteSets.{bit_of, bits_of};
ghost use Rattle.mh_text.specs.Lexing.{gap_length, token_at, bare_token_at, number_length, keyword_length, text_length, quoted_length, is_escaped, is_in};

use crate::TokenKind;

pub(crate) fn is_space(byte: u8) -> bool
    ensures { result ≡ is_space byte }
{
    byte == b' ' || byte == b'\t' || byte == b'\r' || byte == b'\n'
}

pub(crate) fn is_letter(byte: u8) -> bool
    ensures { result ≡ is_letter byte }
{
    if byte < b'a' {
        matches!(byte, b'A'..=b'Z')
    } else {
        byte <= b'z'
    }
}

pub(crate) fn is_hexadecimal(byte: u8) -> bool
    ensures { result ≡ is_hexadecimal byte }
{
    matches!(byte, b'0'..=b'9' | b'A'..=b'F' | b'a'..=b'f')
}

/// How many bytes of white space and comments stand at the front. A comment goes from `//` to the end
/// of its line. Mostly there is none, or one space.
#[tactic(auto, using(crate::proofs::GapLemmas::gap_none, crate::proofs::GapLemmas::gap_one))]
pub(crate) fn gap_length(bytes: &[u8]) -> usize
    ensures exact { result ≡ gap_length false bytes.now }
    ensures within { result ≤ length bytes.now }
{
    match bytes {
        [first, ..] if !may_begin_gap(*first) => 0,
        [b' ', second, ..] if !may_begin_gap(*second) => 1,
        _ => long_gap_length(bytes),
    }
}

/// Whether white space or a comment may begin with the byte.
fn may_begin_gap(byte: u8) -> bool
    ensures { result ≡ (nat_le byte 32 || byte == 47) }
{
    byte <= b' ' || byte == b'/'
}

/// The same, byte by byte.
#[inline(never)]
fn long_gap_length(bytes: &[u8]) -> usize
    ensures exact { result ≡ gap_length false bytes.now }
    ensures within { result ≤ length bytes.now }
{
    let mut is_comment = false;
    for (at, byte) in bytes.iter().enumerate() {
        if is_comment {
            is_comment = *byte != b'\n';
        } else if *byte == b'/' && begins_with(&bytes[at + 1..], b'/') {
            is_comment = true;
        } else if !is_space(*byte) {
            return at;
        }
    }
    bytes.len()
}

/// Whether this byte stands at the front.
pub(crate) fn begins_with(bytes: &[u8], wanted: u8) -> bool
    ensures { result ≡ begins_with wanted bytes.now }
{
    match bytes {
        [] => false,
        [byte, ..] => *byte == wanted,
    }
}

/// The kind and the length of the token at the front, or none where no token begins so.
#[tactic(auto, unfolding(crate::specs::Lexing::token_at))]
pub(crate) fn token_at(bytes: &[u8]) -> Option<(TokenKind, usize)>
    ensures exact { result ≡ token_at bytes.now }
    ensures within { IfSome result (λ found. found.1 ≤ length bytes.now) }
    ensures some { IfSome result (λ found. 0 < found.1) }
{
    let (first, rest) = bytes.split_first()?;
    match *first {
        b'{' => Some((TokenKind::OpenBrace, 1)),
        b'}' => Some((TokenKind::CloseBrace, 1)),
        b'(' => Some((TokenKind::OpenParenthesis, 1)),
        b')' => Some((TokenKind::CloseParenthesis, 1)),
        b':' => Some((TokenKind::Keyword, 1 + keyword_length(rest)?)),
        b'-' => Some((TokenKind::Integer, 1 + number_length(rest)?)),
        b'"' => Some((TokenKind::Text, 1 + text_length(rest)?)),
        b'\'' => Some((TokenKind::Quoted, 1 + quoted_length(rest)?)),
        _ => bare_token_at(bytes),
    }
}

/// The token at the front, where it is a word or begins with a digit.
#[tactic(auto, unfolding(crate::specs::Lexing::bare_token_at))]
fn bare_token_at(bytes: &[u8]) -> Option<(TokenKind, usize)>
    ensures exact { result ≡ bare_token_at bytes.now }
    ensures within { IfSome result (λ found. found.1 ≤ length bytes.now) }
    ensures some { IfSome result (λ found. 0 < found.1) }
{
    if let Some(length) = number_length(bytes) {
        return Some((TokenKind::Integer, length));
    }
    let length = prefix_length(ByteSet::Letters, bytes);
    if length == 0 {
        return None;
    }
    Some((TokenKind::Word, length))
}

/// The bytes that may stand in a row in a token.
#[derive(Clone, Copy)]
enum ByteSet {
    Letters,
    Digits,
    LettersAndDigits,
    Text,
    Quoted,
}

/// In which sets each byte is, by their bits.
static SETS: [u8; 256] = [
    0, 0, 0, 0, 0, 0, 0, 0, 0, 0, 0, 0, 0, 0, 0, 0, 0, 0, 0, 0, 0, 0, 0, 0, 0, 0, 0, 0, 0, 0, 0, 0,
    24, 24, 16, 24, 24, 24, 24, 8, 24, 24, 24, 24, 24, 24, 24, 24, 30, 30, 30, 30, 30, 30, 30, 30,
    30, 30, 24, 24, 24, 24, 24, 24, 24, 29, 29, 29, 29, 29, 29, 29, 29, 29, 29, 29, 29, 29, 29, 29,
    29, 29, 29, 29, 29, 29, 29, 29, 29, 29, 29, 24, 24, 24, 24, 24, 24, 29, 29, 29, 29, 29, 29, 29,
    29, 29, 29, 29, 29, 29, 29, 29, 29, 29, 29, 29, 29, 29, 29, 29, 29, 29, 29, 24, 24, 24, 24, 0,
    0, 0, 0, 0, 0, 0, 0, 0, 0, 0, 0, 0, 0, 0, 0, 0, 0, 0, 0, 0, 0, 0, 0, 0, 0, 0, 0, 0, 0, 0, 0, 0,
    0, 0, 0, 0, 0, 0, 0, 0, 0, 0, 0, 0, 0, 0, 0, 0, 0, 0, 0, 0, 0, 0, 0, 0, 0, 0, 0, 0, 0, 0, 0, 0,
    0, 0, 0, 0, 0, 0, 0, 0, 0, 0, 0, 0, 0, 0, 0, 0, 0, 0, 0, 0, 0, 0, 0, 0, 0, 0, 0, 0, 0, 0, 0, 0,
    0, 0, 0, 0, 0, 0, 0, 0, 0, 0, 0, 0, 0, 0, 0, 0, 0, 0, 0, 0, 0, 0, 0, 0, 0, 0, 0, 0, 0, 0, 0, 0,
];

/// The bit of a set.
fn bit_of(set: ByteSet) -> u8
    ensures { result ≡ bit_of set }
{
    match set {
        ByteSet::Letters => 1,
        ByteSet::Digits => 2,
        ByteSet::LettersAndDigits => 4,
        ByteSet::Text => 8,
        ByteSet::Quoted => 16,
    }
}

/// Whether the byte is in the set. Most bytes of a text are asked this, so it is looked up.
#[tactic(auto, using(crate::proofs::ByteSetLemmas::set_told))]
fn is_in(set: ByteSet, byte: u8) -> bool
    ensures { result ≡ is_in set byte }
{
    bits_of(byte) & bit_of(set) != 0
}

/// The bits of a byte.
#[tactic(auto, unfolding(crate::specs::ByteSets::bits_of))]
fn bits_of(byte: u8) -> u8
    ensures { result ≡ bits_of byte }
{
    SETS[usize::from(byte)]
}

/// How many bytes of the set stand at the front.
fn prefix_length(set: ByteSet, bytes: &[u8]) -> usize
    ensures exact { result ≡ prefix_len (is_in set) bytes.now }
    ensures within { result ≤ length bytes.now }
{
    bytes.iter().take_while(|byte| is_in(set, **byte)).count()
}

/// The length of a number at the front, if a digit stands there.
#[tactic(auto, unfolding(crate::specs::Lexing::number_length))]
fn number_length(bytes: &[u8]) -> Option<usize>
    ensures exact { result ≡ number_length bytes.now }
    ensures within { IfSome result (λ found. found ≤ length bytes.now) }
    ensures some { IfSome result (λ found. 0 < found) }
{
    let length = prefix_length(ByteSet::Digits, bytes);
    if length == 0 {
        return None;
    }
    Some(length)
}

/// The length of a name at the front, if a letter stands there.
#[tactic(auto, unfolding(crate::specs::Lexing::keyword_length))]
fn keyword_length(bytes: &[u8]) -> Option<usize>
    ensures exact { result ≡ keyword_length bytes.now }
    ensures within { IfSome result (λ found. found ≤ length bytes.now) }
{
    match bytes {
        [first, ..] if is_letter(*first) => Some(prefix_length(ByteSet::LettersAndDigits, bytes)),
        _ => None,
    }
}

/// The length of what goes to the closing `"` and takes it in, if the string is closed.
#[tactic(auto, unfolding(crate::specs::Lexing::text_length))]
fn text_length(bytes: &[u8]) -> Option<usize>
    ensures exact { result ≡ text_length bytes.now }
    ensures within { IfSome result (λ found. found ≤ length bytes.now) }
{
    let inner = prefix_length(ByteSet::Text, bytes);
    match &bytes[inner..] {
        [b'"', ..] => Some(inner + 1),
        _ => None,
    }
}

/// The length of what goes to the closing `'` and takes it in, if the string is closed and each `=`
/// has its two digits.
#[tactic(auto, unfolding(crate::specs::Lexing::quoted_length))]
fn quoted_length(bytes: &[u8]) -> Option<usize>
    ensures exact { result ≡ quoted_length bytes.now }
    ensures within { IfSome result (λ found. found ≤ length bytes.now) }
{
    let inner = prefix_length(ByteSet::Quoted, bytes);
    match &bytes[inner..] {
        [b'\'', ..] if is_escaped(&bytes[..inner]) => Some(inner + 1),
        _ => None,
    }
}

/// Whether two hexadecimal digits stand behind each `=`.
fn is_escaped(bytes: &[u8]) -> bool
    ensures { result ≡ is_escaped 0 bytes.now }
{
    let mut wanted = 0u8;
    for byte in bytes {
        if wanted == 0 {
            wanted = if *byte == b'=' { 2 } else { 0 };
        } else if !is_hexadecimal(*byte) {
            return false;
        } else {
            wanted = if wanted == 1 { 0 } else { 1 };
        }
    }
    wanted == 0
}
