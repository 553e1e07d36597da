//! Elements written behind what a buffer holds. Room is made before the first byte is written, so an
//! error leaves the buffer as it was.
ghost use Rattle.std.specs.Prelude.{◌≡◌, ◌++◌, ◌<◌, ◌≤◌, ◌+◌, ◌-◌, ◌∷◌, [], length, map, take, drop, IfOk, OnOk, OnErr, vec_len, vec_capacity};
ghost use Rattle.std.specs.Int.Digits.{digits_of};
ghost use Rattle.mh_der.specs.Element.{element, identifier, length_octets, begun, ended, class_bits, form_bit};
ghost use Rattle.mh_der.specs.Integer.{integer_octets, boolean_octets, shortest, is_padded};
ghost use Rattle.mh_der.specs.Tags.{integer_tag, boolean_tag};

use crate::value::is_padded;
use crate::{BOOLEAN, Tag, TagClass};
use std::alloc::AllocError;

/// The most octets in front of contents: an octet and three digits of a tag, an octet and eight digits
/// of a length.
const LONGEST_HEADER: usize = 13;

/// Writes the element with this tag and these contents (ITU-T X.690, 8.1 and 10.1).
#[tactic(auto, unfolding(crate::specs::Element::element))]
pub fn write_element(out: &mut Vec<u8>, tag: Tag, contents: &[u8]) -> Result<(), AllocError>
    ensures written { OnOk result (out.new.items ≡ out.old.items ++ element tag contents.now) }
    ensures unchanged { OnErr result (out.new.items ≡ out.old.items) }
{
    out.reserve(contents.len().saturating_add(LONGEST_HEADER))?;
    write_identifier(out, tag);
    write_length(out, contents.len());
    match out.extend_from_slice(contents) {
        Ok(()) => Ok(()),
        Err(_) => unreachable!(),
    }
}

/// Writes what stands in front of the contents of an element with this tag, and answers the offset of the
/// contents. They are written behind it, and `end_element` is told where they begin.
#[tactic(auto, unfolding(crate::specs::Element::begun))]
pub fn begin_element(out: &mut Vec<u8>, tag: Tag) -> Result<usize, AllocError>
    ensures begun { OnOk result (out.new.items ≡ out.old.items ++ begun tag) }
    ensures start { IfOk result (λ start. start ≡ length out.new.items) }
    ensures unchanged { OnErr result (out.new.items ≡ out.old.items) }
{
    out.reserve(LONGEST_HEADER)?;
    write_identifier(out, tag);
    out.push_reserved(0);
    Ok(out.len())
}

/// Ends the element whose contents begin at this offset: it gets its length, as long as all that stands
/// from there on. Where no element can have begun so, all stays.
pub fn end_element(out: &mut Vec<u8>, start: usize) -> Result<(), AllocError>
    ensures ended { OnOk result (out.new.items ≡ ended start out.old.items) }
    ensures unchanged { OnErr result (out.new.items ≡ out.old.items) }
{
    if start == 0 || out.len() < start {
        return Ok(());
    }
    let size = out.len() - start;
    if 127 < size {
        return insert_length(out, start, size);
    }
    out[start - 1] = size as u8;
    Ok(())
}

/// Puts the digits of a length from 128 on in at this offset, behind their count.
#[inline(never)]
fn insert_length(out: &mut Vec<u8>, start: usize, size: usize) -> Result<(), AllocError>
    requires long { 127 < size }
    requires begun { 0 < start }
    requires within { start ≤ vec_len out.old }
    ensures inserted { OnOk result (out.new.items ≡ take (start - 1) out.old.items ++ (length_octets size ++ drop start out.old.items)) }
    ensures unchanged { OnErr result (out.new.items ≡ out.old.items) }
{
    out.reserve(LONGEST_HEADER)?;
    out[start - 1] = 128 + digit_count(size);
    insert_digits(out, start, size);
    Ok(())
}

/// Puts the digits of base 256 in at this offset, as few as there can be. There is room for them.
#[tactic(auto, using(crate::proofs::DigitLemmas::count_more))]
fn insert_digits(out: &mut Vec<u8>, at: usize, number: usize)
    requires within { at ≤ vec_len out.old }
    requires room { vec_len out.old + length (digits_of 256 number) ≤ vec_capacity out.old }
    ensures items { out.new.items ≡ take at out.old.items ++ (digits_of 256 number ++ drop at out.old.items) }
{
    if number > 0 {
        match out.insert(at, (number % 256) as u8) {
            Ok(()) => insert_digits(out, at, number / 256),
            Err(_) => unreachable!(),
        }
    }
}

/// Writes the integer of 32 bits as an element (ITU-T X.690, 8.3).
pub fn write_int(out: &mut Vec<u8>, value: i32) -> Result<(), AllocError>
    ensures written { OnOk result (out.new.items ≡ out.old.items ++ element integer_tag (integer_octets value)) }
    ensures unchanged { OnErr result (out.new.items ≡ out.old.items) }
{
    write_shortest(out, value.to_be_bytes())
}

/// Writes these octets as an integer, without those in front that say nothing.
#[tactic(auto, unfolding(crate::specs::Element::element, crate::specs::Element::identifier, crate::specs::Element::length_octets))]
fn write_shortest(out: &mut Vec<u8>, octets: [u8; 4]) -> Result<(), AllocError>
    ensures written { OnOk result (out.new.items ≡ out.old.items ++ element integer_tag (shortest octets)) }
    ensures unchanged { OnErr result (out.new.items ≡ out.old.items) }
{
    let [first, second, third, fourth] = octets;
    if !is_padded(&[first, second]) {
        out.extend_from_slice(&[2, 4, first, second, third, fourth])
    } else if !is_padded(&[second, third]) {
        out.extend_from_slice(&[2, 3, second, third, fourth])
    } else if !is_padded(&[third, fourth]) {
        out.extend_from_slice(&[2, 2, third, fourth])
    } else {
        out.extend_from_slice(&[2, 1, fourth])
    }
}

/// Writes the truth value as an element (ITU-T X.690, 8.2 and 11.1).
pub fn write_bool(out: &mut Vec<u8>, value: bool) -> Result<(), AllocError>
    ensures written { OnOk result (out.new.items ≡ out.old.items ++ element boolean_tag (boolean_octets value)) }
    ensures unchanged { OnErr result (out.new.items ≡ out.old.items) }
{
    let octets = if value { [255] } else { [0] };
    write_element(out, BOOLEAN, &octets)
}

fn class_bits(class: TagClass) -> u8
    ensures exact { result ≡ class_bits class }
    ensures within { result ≤ 192 }
{
    match class {
        TagClass::Universal => 0,
        TagClass::Application => 64,
        TagClass::Context => 128,
        TagClass::Private => 192,
    }
}

fn form_bit(is_constructed: bool) -> u8
    ensures exact { result ≡ form_bit is_constructed }
    ensures within { result ≤ 32 }
{
    if is_constructed { 32 } else { 0 }
}

/// Writes the identifier octets, for which there is room.
#[tactic(auto, using(crate::proofs::DigitLemmas::few_fronts), unfolding(crate::specs::Element::identifier))]
fn write_identifier(out: &mut Vec<u8>, tag: Tag)
    requires room { vec_len out.old + 4 ≤ vec_capacity out.old }
    ensures items { out.new.items ≡ out.old.items ++ identifier tag }
    ensures len { vec_len out.new ≤ vec_len out.old + 4 }
    ensures capacity { vec_capacity out.new ≡ vec_capacity out.old }
{
    let front = class_bits(tag.class) + form_bit(tag.is_constructed);
    if tag.number < 31 {
        out.push_reserved(front + tag.number as u8);
    } else {
        out.push_reserved(front + 31);
        write_front_digits(out, tag.number / 128);
        out.push_reserved((tag.number % 128) as u8);
    }
}

/// Writes the digits of base 128, as few as there can be, each with its highest bit set.
#[tactic(auto, using(crate::proofs::DigitLemmas::front_count_more))]
fn write_front_digits(out: &mut Vec<u8>, number: u16)
    requires room { vec_len out.old + length (digits_of 128 number) ≤ vec_capacity out.old }
    ensures items { out.new.items ≡ out.old.items ++ map (λ d. 128 + d) (digits_of 128 number) }
    ensures len { vec_len out.new ≡ vec_len out.old + length (digits_of 128 number) }
    ensures capacity { vec_capacity out.new ≡ vec_capacity out.old }
{
    if number > 0 {
        write_front_digits(out, number / 128);
        out.push_reserved(128 + (number % 128) as u8);
    }
}

/// Writes the length octets, for which there is room.
#[tactic(auto, unfolding(crate::specs::Element::length_octets))]
fn write_length(out: &mut Vec<u8>, size: usize)
    requires room { vec_len out.old + 9 ≤ vec_capacity out.old }
    ensures items { out.new.items ≡ out.old.items ++ length_octets size }
    ensures len { vec_len out.new ≤ vec_len out.old + 9 }
    ensures capacity { vec_capacity out.new ≡ vec_capacity out.old }
{
    if size < 128 {
        out.push_reserved(size as u8);
    } else {
        out.push_reserved(128 + digit_count(size));
        write_digits(out, size);
    }
}

/// How many digits of base 256 the number has; none where it is zero.
#[tactic(auto, using(crate::proofs::DigitLemmas::count_more, crate::proofs::DigitLemmas::few_bytes))]
fn digit_count(number: usize) -> u8
    ensures exact { result ≡ length (digits_of 256 number) }
    ensures within { result ≤ 8 }
{
    if number == 0 {
        0
    } else {
        1 + digit_count(number / 256)
    }
}

/// Writes the digits of base 256, as few as there can be.
#[tactic(auto, using(crate::proofs::DigitLemmas::count_more))]
fn write_digits(out: &mut Vec<u8>, number: usize)
    requires room { vec_len out.old + length (digits_of 256 number) ≤ vec_capacity out.old }
    ensures items { out.new.items ≡ out.old.items ++ digits_of 256 number }
    ensures len { vec_len out.new ≡ vec_len out.old + length (digits_of 256 number) }
    ensures capacity { vec_capacity out.new ≡ vec_capacity out.old }
{
    if number > 0 {
        write_digits(out, number / 256);
        out.push_reserved((number % 256) as u8);
    }
}
