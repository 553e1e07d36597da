//! The octets in front of an element's contents: its tag and its length. Where an element stands is
//! left to `reader`.
ghost use Rattle.std.specs.Prelude.{◌≡◌, ◌+◌, ◌*◌, ◌<◌, ◌≤◌, ◌^◌, ◌++◌, length, IfOk, IfErr, IfSome, IfNone};
ghost use Rattle.std.specs.Int.Digits.{number_from_digits};
ghost use Rattle.mh_der.specs.Element.{element, begins_with};
ghost use Rattle.mh_der.specs.Laws.{BeginWithNone};
ghost use Rattle.mh_der.specs.Reading.{Gives, class_of, is_constructed, digit, long_enough, long_number, tag_of, begins_with_zero, held, long_length, length_of, parts};

use crate::{Tag, TagClass, Why};

/// The class that the first octet tells.
fn class_of(octet: u8) -> TagClass
    ensures { result ≡ class_of octet }
{
    match octet {
        0..=63 => TagClass::Universal,
        64..=127 => TagClass::Application,
        128..=191 => TagClass::Context,
        _ => TagClass::Private,
    }
}

/// Whether the first octet says that the contents are elements.
fn is_constructed(octet: u8) -> bool
    ensures { result ≡ is_constructed octet }
{
    octet / 32 % 2 == 1
}

/// One more digit of base 128 behind those that wrote the number: the number, whether the digit is
/// the last, and what is left.
#[tactic(auto, unfolding(crate::specs::Reading::digit))]
fn digit(number: u32, bytes: &[u8]) -> Result<(u32, bool, &[u8]), Why>
    requires small { number < 2 ^ 14 }
    ensures exact { Gives (λ x. (x.0, x.1, x.2.now)) result (digit number bytes.now) }
    ensures more { IfOk result (λ x. x.0 < number * 128 + 128) }
    ensures less { IfOk result (λ x. length x.2.now ≤ length bytes.now) }
{
    match bytes {
        [] => Err(Why::Truncated),
        [octet, rest @ ..] => {
            let value = u32::from(*octet % 128);
            Ok((number * 128 + value, *octet < 128, rest))
        }
    }
}

/// A number that wants digits behind the first octet, and that tags may have.
fn long_enough(number: u32, bytes: &[u8]) -> Result<(u16, &[u8]), Why>
    ensures exact { Gives (λ x. (x.0, x.1.now)) result (long_enough number bytes.now) }
    ensures less { IfOk result (λ x. length x.1.now ≤ length bytes.now) }
{
    if number < 31 || 65535 < number {
        Err(Why::BadTag)
    } else {
        Ok((number as u16, bytes))
    }
}

/// The number of a tag in digits: at most three, and the first not zero where others follow.
#[tactic(auto, unfolding(crate::specs::Reading::long_number))]
fn long_number(bytes: &[u8]) -> Result<(u16, &[u8]), Why>
    ensures exact { Gives (λ x. (x.0, x.1.now)) result (long_number bytes.now) }
    ensures less { IfOk result (λ x. length x.1.now ≤ length bytes.now) }
{
    let (number, is_last, rest) = digit(0, bytes)?;
    if is_last {
        return long_enough(number, rest);
    }
    if number == 0 {
        return Err(Why::BadTag);
    }
    let (number, is_last, rest) = digit(number, rest)?;
    if is_last {
        return long_enough(number, rest);
    }
    let (number, is_last, rest) = digit(number, rest)?;
    if is_last {
        long_enough(number, rest)
    } else {
        Err(Why::BadTag)
    }
}

/// The tag at the front, and what is left behind it.
#[tactic(auto, unfolding(crate::specs::Reading::tag_of))]
fn tag_of(bytes: &[u8]) -> Result<(Tag, &[u8]), Why>
    ensures exact { Gives (λ x. (x.0, x.1.now)) result (tag_of bytes.now) }
    ensures less { IfOk result (λ x. length x.1.now ≤ length bytes.now) }
{
    let Some((octet, rest)) = bytes.split_first() else {
        return Err(Why::Truncated);
    };
    let class = class_of(*octet);
    let is_constructed = is_constructed(*octet);
    let low = u16::from(*octet % 32);
    let (number, rest) = if low < 31 {
        (low, rest)
    } else {
        long_number(rest)?
    };
    Ok((
        Tag {
            class,
            is_constructed,
            number,
        },
        rest,
    ))
}

/// Whether the octets begin with the identifier octets of this tag (ITU-T X.690, 8.1.2). What stands
/// behind them is not looked at.
pub fn begins_with(octets: &[u8], tag: Tag) -> bool
    ensures { result ≡ begins_with octets.now tag }
{
    match tag_of(octets) {
        Ok((found, _)) => found == tag,
        Err(_) => false,
    }
}

/// The number that digits of base 256 write; none where 64 bits do not hold it.
fn number_of(digits: &[u8]) -> Option<u64>
    ensures some { IfSome result (λ number. number ≡ number_from_digits 256 digits.now) }
    ensures none { IfNone result (2 ^ 64 ≤ number_from_digits 256 digits.now) }
{
    let mut number: u64 = 0;
    for digit in digits {
        number = number.checked_mul(256)?.checked_add(u64::from(*digit))?;
    }
    Some(number)
}

/// A length that what is left has.
fn held(size: usize, bytes: &[u8]) -> Result<(usize, &[u8]), Why>
    ensures exact { Gives (λ x. (x.0, x.1.now)) result (held size bytes.now) }
    ensures within { IfOk result (λ x. x.0 ≤ length x.1.now) }
    ensures less { IfOk result (λ x. length x.1.now ≤ length bytes.now) }
{
    if bytes.len() < size {
        Err(Why::Truncated)
    } else {
        Ok((size, bytes))
    }
}

/// The length that these digits write, which are as few as there can be.
#[tactic(auto, unfolding(crate::specs::Reading::long_length))]
fn long_length<'a>(digits: &[u8], bytes: &'a [u8]) -> Result<(usize, &'a [u8]), Why>
    ensures exact { Gives (λ x. (x.0, x.1.now)) result (long_length digits.now bytes.now) }
    ensures within { IfOk result (λ x. x.0 ≤ length x.1.now) }
    ensures less { IfOk result (λ x. length x.1.now ≤ length bytes.now) }
{
    if begins_with_zero(digits) {
        return Err(Why::LongLength);
    }
    match number_of(digits) {
        Some(number) if number < 128 => Err(Why::LongLength),
        Some(number) => held(number as usize, bytes),
        None => Err(Why::Truncated),
    }
}

fn begins_with_zero(digits: &[u8]) -> bool
    ensures { result ≡ begins_with_zero digits.now }
{
    match digits {
        [] => false,
        [digit, ..] => *digit == 0,
    }
}

/// The length of the contents, and what is left behind it, which begins with them.
#[tactic(auto, unfolding(crate::specs::Reading::length_of))]
fn length_of(bytes: &[u8]) -> Result<(usize, &[u8]), Why>
    ensures exact { Gives (λ x. (x.0, x.1.now)) result (length_of bytes.now) }
    ensures within { IfOk result (λ x. x.0 ≤ length x.1.now) }
    ensures less { IfOk result (λ x. length x.1.now ≤ length bytes.now) }
{
    let Some((octet, rest)) = bytes.split_first() else {
        return Err(Why::Truncated);
    };
    if *octet < 128 {
        return held(usize::from(*octet), rest);
    }
    if *octet == 128 {
        return Err(Why::Indefinite);
    }
    let count = usize::from(*octet - 128);
    if rest.len() < count {
        return Err(Why::Truncated);
    }
    let (digits, rest) = rest.split_at(count);
    long_length(digits, rest)
}

/// The tag and the contents of the element at the front, and what is left behind it.
#[tactic(auto, unfolding(crate::specs::Reading::parts))]
pub(crate) fn parts(bytes: &[u8]) -> Result<(Tag, &[u8], &[u8]), Why>
    ensures exact { Gives (λ x. (x.0, x.1.now, x.2.now)) result (parts bytes.now) }
    ensures found { IfOk result (λ x. bytes.now ≡ element x.0 x.1.now ++ x.2.now) }
    ensures only { IfErr result (λ why. BeginWithNone bytes.now) }
    ensures less { IfOk result (λ x. length x.1.now + length x.2.now ≤ length bytes.now) }
{
    let (tag, rest) = tag_of(bytes)?;
    let (length, rest) = length_of(rest)?;
    let (contents, behind) = rest.split_at(length);
    Ok((tag, contents, behind))
}
