//! What names are told apart by: a word that is mixed from their bytes, and a look at the bytes one by one.
//!
//! Promise: the same bytes have the same word, and bytes are the same where each is.
ghost use Rattle.std.specs.Prelude.{◌≡◌};
ghost use Rattle.std.specs.Str.{bytes_eq};
ghost use Rattle.mh_base.specs.Mixing.{mixed as mixed_lem, mixed_onto, mixed_with as mixed_with_lem};

/// The prime and the first word of the hash FNV-1 for 64 bits.
const PRIME: u64 = 1099511628211;

const FIRST: u64 = 14695981039346656037;

/// One byte more.
#[inline(always)]
#[tactic(auto, unfolding(crate::specs::Mixing::mixed_with))]
fn mixed_with(word: u64, byte: u8) -> u64
    ensures { result ≡ mixed_with_lem word byte }
{
    word.wrapping_mul(PRIME).wrapping_add(byte as u64)
}

fn mixed_behind(word: u64, bytes: &[u8]) -> u64
    ensures { result ≡ mixed_onto word bytes.now }
{
    let (mut mixed, mut left) = (word, bytes);
    while let [byte, behind @ ..] = left {
        mixed = mixed_with(mixed, *byte);
        left = behind;
    }
    mixed
}

/// The word of these bytes.
pub(crate) fn mixed(bytes: &[u8]) -> u64
    ensures { result ≡ mixed_lem bytes.now }
{
    mixed_behind(FIRST, bytes)
}

/// Whether the bytes are the same. For names and words of a few bytes, where a comparison by blocks costs more than it saves.
pub fn are_same_bytes(one: &[u8], other: &[u8]) -> bool
    ensures { result ≡ bytes_eq one.now other.now }
{
    match (one, other) {
        ([], []) => true,
        ([first, one @ ..], [second, other @ ..]) => {
            first == second && are_same_bytes(one, other)
        }
        _ => false,
    }
}
