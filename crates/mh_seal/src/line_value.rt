//! What a line of a seal says, by type: a name, a number, a digest, a group.
//!
//! Promise: bytes are read just where they spell a good value, and as that value.
ghost use Rattle.std.specs.Prelude.{◌≡◌, ◌^◌, ◌<◌, ℕ, true, IfOk};
ghost use Rattle.std.specs.Fmt.{decimal};
ghost use Rattle.std.specs.Option.{option_map};
ghost use Rattle.hex.specs.Hex.{encode_lower};
ghost use Rattle.mh_base.specs.Path.{is_path};
ghost use Rattle.mh_seal.specs.Text.{as_is, group_value, named_value, presence};
ghost use Rattle.mh_seal.specs.Lines.{IsParted, IsValue};
ghost use Rattle.mh_seal.specs.Octets.{is_digest};
ghost use Rattle.mh_seal.specs.Reading.{is_bound, is_group, is_named};

use crate::{Digest, SealedGroup};
use mh_base::{GroupName, NameError};
use std::alloc::{AllocError, Global};

/// What a line can say.
pub(crate) trait LineValue: Drop + Sized {
    ghost use Rattle.std.specs.Prelude.{ℕ, Bool, List};

    ghost spelling: { Self → List ℕ };

    ghost is_good: { Self → Bool };

    fn read(alloc: Global, value: &[u8]) -> Result<Option<Self>, AllocError>
        ensures { IfOk result (IsValue is_good spelling value.now) };
}

impl LineValue for GroupName {
    ghost use Rattle.mh_base.specs.Path.{is_path};
    ghost use Rattle.mh_seal.specs.Text.{as_is};

    ghost spelling = { as_is };

    ghost is_good = { is_path };

    #[tactic(auto, using(crate::proofs::ValueLemmas::no_path))]
    fn read(alloc: Global, value: &[u8]) -> Result<Option<GroupName>, AllocError> {
        match GroupName::of_path(alloc, value) {
            Ok(name) => Ok(Some(name)),
            Err(NameError::BadName) => Ok(None),
            Err(NameError::NoMemory) => Err(AllocError),
        }
    }
}

impl LineValue for u64 {
    ghost use Rattle.std.specs.Fmt.{decimal};
    ghost use Rattle.mh_seal.specs.Reading.{is_bound};

    ghost spelling = { decimal };

    ghost is_good = { is_bound };

    /// The number is printed again: leading zeros are read, too, and printed by nobody.
    #[tactic(auto, using(crate::proofs::ValueLemmas::unread_number, crate::proofs::ValueLemmas::other_number, crate::proofs::ValueLemmas::bound_fits))]
    fn read(alloc: Global, value: &[u8]) -> Result<Option<u64>, AllocError> {
        let Some(number) = parse(value) else {
            return Ok(None);
        };
        let digits = number.to_string(alloc)?;
        if digits.as_bytes() == value {
            Ok(Some(number))
        } else {
            Ok(None)
        }
    }
}

/// The number that these digits write, where there are some and it fits 64 bits.
fn parse(digits: &[u8]) -> Option<u64>
    ensures { (n : ℕ) → n < 2 ^ 64 → digits.now ≡ decimal n → result ≡ Some n }
{
    let text = str::from_utf8(digits).ok()?;
    text.parse().ok()
}

impl LineValue for Digest {
    ghost use Rattle.hex.specs.Hex.{encode_lower};
    ghost use Rattle.mh_seal.specs.Octets.{is_digest};

    ghost spelling = { encode_lower };

    ghost is_good = { is_digest };

    /// The digits are printed again: those in upper case are decoded, too.
    #[tactic(auto, using(crate::proofs::ValueLemmas::undecoded, crate::proofs::ValueLemmas::other_digits, crate::proofs::ValueLemmas::digest_of_bytes))]
    fn read(alloc: Global, value: &[u8]) -> Result<Option<Digest>, AllocError> {
        let mut bytes = [0u8; 32];
        if hex::decode_to_slice(value, &mut bytes).is_err() {
            return Ok(None);
        }
        let digits = hex::encode(alloc, bytes.as_slice())?;
        if digits.as_bytes() == value {
            Ok(Some(Digest::from_bytes(bytes)))
        } else {
            Ok(None)
        }
    }
}

/// How many digits a digest has, and how many letters a presence.
const DIGITS: usize = 64;

const LETTERS: usize = 4;

impl LineValue for SealedGroup {
    ghost use Rattle.mh_seal.specs.Text.{group_value};
    ghost use Rattle.mh_seal.specs.Reading.{is_group};

    ghost spelling = { group_value };

    ghost is_good = { is_group };

    #[tactic(auto, using(crate::proofs::GroupLemmas::group_ungiven))]
    fn read(alloc: Global, value: &[u8]) -> Result<Option<SealedGroup>, AllocError> {
        let Some((digits, behind)) = parted(value, DIGITS) else {
            return Ok(None);
        };
        let Some(digest) = Digest::read(alloc, digits)? else {
            return Ok(None);
        };
        match read_named(alloc, behind)? {
            Some((is_late, name)) => Ok(Some(SealedGroup {
                name,
                digest,
                is_late,
            })),
            None => Ok(None),
        }
    }
}

/// Whether the group is late, and its name.
#[tactic(auto, using(crate::proofs::GroupLemmas::not_named))]
fn read_named(alloc: Global, value: &[u8]) -> Result<Option<(bool, GroupName)>, AllocError>
    ensures { IfOk result (IsValue is_named named_value value.now) }
{
    let Some((word, name)) = parted(value, LETTERS) else {
        return Ok(None);
    };
    let Some(is_late) = presence_of(word) else {
        return Ok(None);
    };
    match GroupName::read(alloc, name)? {
        Some(name) => Ok(Some((is_late, name))),
        None => Ok(None),
    }
}

/// Whether the word says that a group is late, or that it is here.
#[tactic(auto, using(crate::proofs::GroupLemmas::said_late, crate::proofs::GroupLemmas::said_here, crate::proofs::GroupLemmas::unsaid))]
fn presence_of(word: &[u8]) -> Option<bool>
    ensures { IsValue (λ _. true) presence word.now result }
{
    if word == b"late".as_slice() {
        Some(true)
    } else if word == b"here".as_slice() {
        Some(false)
    } else {
        None
    }
}

/// What stands before a space behind so many bytes, and behind the space.
#[tactic(auto, using(crate::proofs::PartLemmas::parted_so, crate::proofs::PartLemmas::too_short, crate::proofs::PartLemmas::none_behind, crate::proofs::PartLemmas::other_byte))]
fn parted(value: &[u8], count: usize) -> Option<(&[u8], &[u8])>
    ensures { IsParted count value.now (option_map (λ r. (r.0.now, r.1.now)) result) }
{
    let (front, behind) = value.split_at_checked(count)?;
    let (first, back) = behind.split_first()?;
    if *first == b' ' {
        Some((front, back))
    } else {
        None
    }
}
