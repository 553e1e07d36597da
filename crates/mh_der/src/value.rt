//! Integers and truth values, read from the contents of their elements.
ghost use Rattle.std.specs.Prelude.{◌≡◌, ◌≤◌, ◌==◌, ◌||◌, nat_lt, length, IfOk, IfErr};
ghost use Rattle.mh_der.specs.Integer.{integer_octets, boolean_octets, is_padded};
ghost use Rattle.mh_der.specs.Laws.{AreNoInteger, AreNoBoolean};
ghost use Rattle.mh_der.specs.Reading.{Gives, told_at, integer_of, boolean_of, sign_octet, extended};

use crate::{DerError, Element, Why};

/// The integer of 32 bits that the contents write, in two's complement and its shortest form (ITU-T
/// X.690, 8.3); else the element is refused.
pub fn int_of(element: &Element<'_>) -> Result<i32, DerError>
    ensures exact { Gives (λ x. x) result (told_at element.now (integer_of element.now.contents.bytes)) }
    ensures found { IfOk result (λ x. element.now.contents.bytes ≡ integer_octets x) }
    ensures only { IfErr result (λ error. AreNoInteger element.now.contents.bytes) }
{
    match integer_of(element.contents().bytes()) {
        Ok(value) => Ok(value),
        Err(why) => Err(DerError {
            why,
            offset: element.offset(),
        }),
    }
}

#[tactic(auto, unfolding(crate::specs::Reading::integer_of))]
fn integer_of(octets: &[u8]) -> Result<i32, Why>
    ensures exact { Gives (λ x. x) result (integer_of octets.now) }
    ensures found { IfOk result (λ x. octets.now ≡ integer_octets x) }
    ensures only { IfErr result (λ why. AreNoInteger octets.now) }
{
    if is_refused(octets) {
        Err(Why::BadInteger)
    } else {
        Ok(i32::from_be_bytes(extended(octets)))
    }
}

/// Whether the octets are too few, more than 32 bits want, or not as few as there can be.
fn is_refused(octets: &[u8]) -> bool
    ensures { result ≡ (length octets.now == 0 || nat_lt 4 (length octets.now) || is_padded octets.now) }
{
    octets.is_empty() || 4 < octets.len() || is_padded(octets)
}

/// The octets behind as many of the sign as make them four.
fn extended(octets: &[u8]) -> [u8; 4]
    requires { length octets.now ≤ 4 }
    ensures { result ≡ extended octets.now }
{
    let sign = sign_octet(octets);
    match *octets {
        [] => [sign, sign, sign, sign],
        [a] => [sign, sign, sign, a],
        [a, b] => [sign, sign, a, b],
        [a, b, c] => [sign, a, b, c],
        [a, b, c, d] => [a, b, c, d],
        _ => unreachable!(),
    }
}

/// Whether the first nine bits are alike, so that the first octet says nothing.
pub(crate) fn is_padded(octets: &[u8]) -> bool
    ensures { result ≡ is_padded octets.now }
{
    match *octets {
        [a, b, ..] => (a == 0 && b < 128) || (a == 255 && 128 <= b),
        _ => false,
    }
}

/// The octet that a longer form would have in front.
fn sign_octet(octets: &[u8]) -> u8
    ensures { result ≡ sign_octet octets.now }
{
    match *octets {
        [octet, ..] if 128 <= octet => 255,
        _ => 0,
    }
}

/// The truth value that the contents write: 00 or FF (ITU-T X.690, 8.2 and 11.1); else the element is
/// refused.
pub fn bool_of(element: &Element<'_>) -> Result<bool, DerError>
    ensures exact { Gives (λ x. x) result (told_at element.now (boolean_of element.now.contents.bytes)) }
    ensures found { IfOk result (λ x. element.now.contents.bytes ≡ boolean_octets x) }
    ensures only { IfErr result (λ error. AreNoBoolean element.now.contents.bytes) }
{
    match boolean_of(element.contents().bytes()) {
        Ok(value) => Ok(value),
        Err(why) => Err(DerError {
            why,
            offset: element.offset(),
        }),
    }
}

#[tactic(auto, unfolding(crate::specs::Reading::boolean_of))]
fn boolean_of(octets: &[u8]) -> Result<bool, Why>
    ensures exact { Gives (λ x. x) result (boolean_of octets.now) }
    ensures found { IfOk result (λ x. octets.now ≡ boolean_octets x) }
    ensures only { IfErr result (λ why. AreNoBoolean octets.now) }
{
    match *octets {
        [0] => Ok(false),
        [255] => Ok(true),
        _ => Err(Why::BadBoolean),
    }
}
