//! Words: what the names, numbers and octets in a line of a script stand for.
ghost use Rattle.std.specs.Prelude.{◌≡◌, IfOk};
ghost use Rattle.mh_script.specs.Script.{key_name, key_named, integer_of, with_digit, number_of, octets_of};

use hex::FromHexError;
use mh_base::Octets;
use mh_model::{KEYS, Key};
use std::alloc::{AllocError, Global};

/// The key that a script calls so, if there is one.
pub fn key_named(name: &[u8]) -> Option<Key>
    ensures { result ≡ key_named name.now }
{
    KEYS.iter().copied().find(|key| key_name(*key) == name)
}

/// What a script calls the key.
#[tactic(auto, unfolding(crate::specs::Script::key_name))]
pub fn key_name(key: Key) -> &'static [u8]
    ensures { result.now ≡ key_name key }
{
    match key {
        Key::Up => b"up",
        Key::Down => b"down",
        Key::Left => b"left",
        Key::Right => b"right",
        Key::Digit0 => b"0",
        Key::Digit1 => b"1",
        Key::Digit2 => b"2",
        Key::Digit3 => b"3",
        Key::Digit4 => b"4",
        Key::Digit5 => b"5",
        Key::Digit6 => b"6",
        Key::Digit7 => b"7",
        Key::Digit8 => b"8",
        Key::Digit9 => b"9",
        Key::Select => b"select",
        Key::Cancel => b"cancel",
        Key::Red => b"red",
        Key::Green => b"green",
        Key::Yellow => b"yellow",
        Key::Blue => b"blue",
        Key::Text => b"text",
    }
}

/// The number that decimal digits write, if it fits.
pub fn number_of(digits: &[u8]) -> Option<u32>
    ensures { result ≡ number_of digits.now }
{
    if digits.is_empty() {
        return None;
    }
    let mut number = 0;
    for digit in digits {
        match with_digit(number, *digit) {
            Some(longer) => number = longer,
            None => return None,
        }
    }
    Some(number)
}

/// The integer that decimal digits write, if it fits.
pub fn integer_of(digits: &[u8]) -> Option<i32>
    ensures { result ≡ integer_of digits.now }
{
    match number_of(digits) {
        Some(number) if number <= 2_147_483_647 => Some(number as i32),
        _ => None,
    }
}

/// The number with one digit more, if that fits.
fn with_digit(number: u32, digit: u8) -> Option<u32>
    ensures { result ≡ with_digit number digit }
{
    if !digit.is_ascii_digit() {
        return None;
    }
    let longer = u64::from(number) * 10 + u64::from(digit - b'0');
    if longer <= 4_294_967_295 {
        Some(longer as u32)
    } else {
        None
    }
}

/// The octets that pairs of hexadecimal digits write, at least one pair, if they do.
pub fn octets_of(alloc: Global, digits: &[u8]) -> Result<Option<Octets>, AllocError>
    ensures { IfOk result (λ octets. octets ≡ octets_of digits.now) }
{
    if digits.is_empty() {
        return Ok(None);
    }
    match hex::decode(alloc, digits) {
        Ok(octets) => Ok(Some(Octets::from_vec(alloc, octets)?)),
        Err(FromHexError::OutOfMemory) => Err(AllocError),
        Err(_) => Ok(None),
    }
}
