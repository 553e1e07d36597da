//! The scalars of a text, read off its bytes one by one: they are UTF-8, and what takes no cell is passed over.
ghost use Rattle.std.specs.Prelude.{◌≡◌, ◌∷◌, [], ◌&&◌, MatchOption, drop, nat_le, nat_lt, slice_index};
ghost use Rattle.mh_model.specs.Scalars.{piece, escape_size, kept, takes_no_cell, scalars_of};
ghost use Rattle.mh_layout.specs.Left.{as_list};

use bstr::decode_utf8;

/// The byte before an escape sequence of ETSI ES 202 184.
const ESCAPE: u8 = 0x1B;

/// What stands for a byte at which no scalar begins.
const REPLACEMENT: u32 = 0xFFFD;

/// The scalar that parts two paragraphs.
pub const RETURN: u32 = 0x0D;

/// The first scalar of a text, if there is one, and the bytes behind it. Most are ASCII, and are read at once.
#[tactic(auto, using(crate::proofs::ScalarLemmas::plain_front))]
#[inline(always)]
pub fn first_of(text: &[u8]) -> Option<(u32, &[u8])>
    ensures { MatchOption result (scalars_of text.now ≡ []) (λ f. scalars_of text.now ≡ f.0 ∷ scalars_of f.1.now) }
{
    match text.split_first() {
        Some((byte, behind)) if is_plain(*byte) => Some((u32::from(*byte), behind)),
        _ => first_seen(text),
    }
}

/// Whether the byte is a character by itself that takes a cell.
#[inline(always)]
fn is_plain(byte: u8) -> bool
    ensures { result ≡ (nat_le 0x20 byte && nat_lt byte 0x7F) }
{
    (0x20..0x7F).contains(&byte)
}

/// The same of any text.
fn first_seen(text: &[u8]) -> Option<(u32, &[u8])>
    ensures { MatchOption result (scalars_of text.now ≡ []) (λ f. scalars_of text.now ≡ f.0 ∷ scalars_of f.1.now) }
{
    let mut rest = text;
    while !rest.is_empty() {
        let (scalar, size) = piece(rest);
        rest = behind(rest, size);
        if let Some(seen) = seen_of(scalar) {
            return Some((seen, rest));
        }
    }
    None
}

/// The scalar, if there is one and it takes a cell or parts paragraphs.
fn seen_of(scalar: Option<u32>) -> Option<u32>
    ensures { kept scalar ≡ as_list result }
{
    let scalar = scalar?;
    if takes_no_cell(scalar) {
        None
    } else {
        Some(scalar)
    }
}

/// The bytes behind as many scalars of a text.
pub fn behind_first(text: &[u8], count: usize) -> &[u8]
    ensures { scalars_of result.now ≡ drop count (scalars_of text.now) }
{
    let mut rest = text;
    for _ in 0..count {
        match first_of(rest) {
            Some((_, behind)) => rest = behind,
            None => return rest,
        }
    }
    rest
}

/// What stands at the front of these bytes: the scalar, if there is one, and how many bytes it takes.
#[tactic(auto, unfolding(mh_model::specs::Scalars::piece))]
fn piece(bytes: &[u8]) -> (Option<u32>, usize)
    ensures { result ≡ piece bytes.now }
{
    if bytes.is_empty() {
        return (None, 0);
    }
    if bytes[0] == ESCAPE {
        return (None, escape_size(bytes));
    }
    match decode_utf8(bytes) {
        (Some(scalar), size) => (Some(scalar as u32), size),
        (None, _) => (Some(REPLACEMENT), 1),
    }
}

/// How many bytes the escape sequence at the front takes.
fn escape_size(bytes: &[u8]) -> usize
    ensures { result ≡ escape_size bytes.now }
{
    match byte_at(bytes, 1) {
        0x40..=0x5E => 3 + usize::from(byte_at(bytes, 2)),
        0x60..=0x7E => 2,
        _ => 1,
    }
}

fn byte_at(bytes: &[u8], at: usize) -> u8
    ensures { result ≡ slice_index bytes.now at }
{
    bytes.get(at).copied().unwrap_or(0)
}

/// The bytes behind the first ones, none where there are not as many.
fn behind(bytes: &[u8], size: usize) -> &[u8]
    ensures { result.now ≡ drop size bytes.now }
{
    &bytes[size.min(bytes.len())..]
}

fn takes_no_cell(scalar: u32) -> bool
    ensures { result ≡ takes_no_cell scalar }
{
    scalar != RETURN && (scalar < 0x20 || (0x7F..=0x9F).contains(&scalar))
}
