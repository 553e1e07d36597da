//! Printers of values that are a word or a few: truth values, numbers, octets, names, references.
ghost use Rattle.std.specs.Prelude.{◌≡◌, ◌<◌, ◌^◌, ◌++◌, ◌∷◌, [], true, OnOk};
ghost use Rattle.std.specs.Fmt.{decimal};
ghost use Rattle.std.specs.List.{flat_map};
ghost use Rattle.mh_group.specs.Holdable.{is_name, is_octets};
ghost use Rattle.mh_text.specs.Printed.{integer, sign, natural, name as name_lem, named, octets, quoted, hexadecimal_digit};

use crate::TextError;
use crate::printing::printable::{Printable, put_closing, put_keyword, put_opening, put_word};
use mh_base::{Colour, Octets};
use mh_group::{Content, EventData, Ref, WrittenName};
use std::alloc::AllocError;

impl Printable for bool {
    ghost use Rattle.mh_text.specs.Printed.{truth as printed_lem};
    ghost use Rattle.mh_group.specs.Holdable.{is_plain as is_good_lem};

    ghost printed = { printed_lem };

    ghost is_good = { is_good_lem };

    #[tactic(auto, unfolding(crate::specs::Printed::truth))]
    fn print(&self, out: &mut Vec<u8>) -> Result<(), TextError> {
        put_word(out, if *self { b"true" } else { b"false" })?;
        Ok(())
    }
}

impl Printable for i32 {
    ghost use Rattle.mh_text.specs.Printed.{integer as printed_lem};
    ghost use Rattle.mh_group.specs.Holdable.{is_integer as is_good_lem};

    ghost printed = { printed_lem };

    ghost is_good = { is_good_lem };

    fn print(&self, out: &mut Vec<u8>) -> Result<(), TextError> {
        put_integer(out, *self)?;
        Ok(())
    }
}

impl Printable for Octets {
    ghost use Rattle.mh_text.specs.Printed.{octets as printed_lem};
    ghost use Rattle.mh_group.specs.Holdable.{is_octets as is_good_lem};

    ghost printed = { printed_lem };

    ghost is_good = { is_good_lem };

    fn print(&self, out: &mut Vec<u8>) -> Result<(), TextError> {
        put_octets(out, self.as_slice())?;
        Ok(())
    }
}

/// A colour, as its four octets.
impl Printable for Colour {
    ghost use Rattle.mh_text.specs.Printed.{colour as printed_lem};
    ghost use Rattle.mh_group.specs.Holdable.{is_octets, colour_octets};

    ghost printed = { printed_lem };

    ghost is_good = { λ c. is_octets (colour_octets c) };

    fn print(&self, out: &mut Vec<u8>) -> Result<(), TextError> {
        put_octets(out, &[self.red, self.green, self.blue, self.transparency])?;
        Ok(())
    }
}

impl Printable for Ref {
    ghost use Rattle.mh_text.specs.Printed.{reference as printed_lem};
    ghost use Rattle.mh_group.specs.Holdable.{is_reference as is_good_lem};

    ghost printed = { printed_lem };

    ghost is_good = { is_good_lem };

    fn print(&self, out: &mut Vec<u8>) -> Result<(), TextError> {
        match self {
            Ref::Here(number) => put_natural(out, number.get())?,
            Ref::In(name, number) => put_named(out, name, number.get())?,
        }
        Ok(())
    }
}

/// The name of a content file.
impl Printable for WrittenName {
    ghost use Rattle.mh_text.specs.Printed.{content_name as printed_lem};
    ghost use Rattle.mh_group.specs.Holdable.{is_name as is_good_lem};

    ghost printed = { printed_lem };

    ghost is_good = { is_good_lem };

    #[tactic(auto, unfolding(crate::specs::Printed::content_name))]
    fn print(&self, out: &mut Vec<u8>) -> Result<(), TextError> {
        put_keyword(out, b"ContentRef")?;
        put_opening(out)?;
        put_name(out, self)?;
        put_closing(out)?;
        Ok(())
    }
}

impl Printable for Content {
    ghost use Rattle.mh_text.specs.Printed.{content_value as printed_lem};
    ghost use Rattle.mh_group.specs.Holdable.{is_content as is_good_lem};

    ghost printed = { printed_lem };

    ghost is_good = { is_good_lem };

    fn print(&self, out: &mut Vec<u8>) -> Result<(), TextError> {
        match self {
            Content::Included(octets) => octets.print(out),
            Content::Referenced(name) => name.print(out),
        }
    }
}

impl Printable for EventData {
    ghost use Rattle.mh_text.specs.Printed.{data_value as printed_lem};
    ghost use Rattle.mh_group.specs.Holdable.{is_data as is_good_lem};

    ghost printed = { printed_lem };

    ghost is_good = { is_good_lem };

    fn print(&self, out: &mut Vec<u8>) -> Result<(), TextError> {
        match self {
            EventData::Bool(truth) => truth.print(out),
            EventData::Int(value) => value.print(out),
        }
    }
}

/// Puts a name and a number between parentheses.
#[tactic(auto, unfolding(crate::specs::Printed::named))]
pub(crate) fn put_named(
    out: &mut Vec<u8>,
    name: &WrittenName,
    number: u32,
) -> Result<(), AllocError>
    requires { number < 2 ^ 31 }
    ensures printed { OnOk result (out.new.items ≡ out.old.items ++ named name.now number) }
    ensures fits { OnOk result (is_name name.now ≡ true) }
{
    put_opening(out)?;
    put_name(out, name)?;
    put_natural(out, number)?;
    put_closing(out)
}

/// Puts a name as a string.
#[tactic(auto, unfolding(crate::specs::Printed::name))]
pub(crate) fn put_name(out: &mut Vec<u8>, name: &WrittenName) -> Result<(), AllocError>
    ensures printed { OnOk result (out.new.items ≡ out.old.items ++ name_lem name.now) }
    ensures fits { OnOk result (is_name name.now ≡ true) }
{
    out.extend_from_slice(b" \"")?;
    out.extend_from_slice(name.as_bytes())?;
    out.push(b'"')?;
    Ok(())
}

/// Puts an integer from 0.
pub(crate) fn put_natural(out: &mut Vec<u8>, number: u32) -> Result<(), AllocError>
    requires { number < 2 ^ 31 }
    ensures { OnOk result (out.new.items ≡ out.old.items ++ natural number) }
{
    put_integer(out, number as i32)
}

pub(crate) fn put_integer(out: &mut Vec<u8>, number: i32) -> Result<(), AllocError>
    ensures { OnOk result (out.new.items ≡ out.old.items ++ integer number) }
{
    put_sign(out, number)?;
    put_decimal(out, number.unsigned_abs())
}

/// Puts the space in front of an integer, and its sign where it has one.
fn put_sign(out: &mut Vec<u8>, number: i32) -> Result<(), AllocError>
    ensures { OnOk result (out.new.items ≡ out.old.items ++ sign number) }
{
    if number < 0 {
        out.extend_from_slice(b" -")
    } else {
        put_byte(out, b' ')
    }
}

/// Puts a number in decimal digits.
fn put_decimal(out: &mut Vec<u8>, number: u32) -> Result<(), AllocError>
    ensures { OnOk result (out.new.items ≡ out.old.items ++ decimal number) }
{
    if number < 10 {
        return put_byte(out, b'0' + number as u8);
    }
    put_decimal(out, number / 10)?;
    put_byte(out, b'0' + (number % 10) as u8)
}

fn put_byte(out: &mut Vec<u8>, byte: u8) -> Result<(), AllocError>
    ensures { OnOk result (out.new.items ≡ out.old.items ++ byte ∷ []) }
{
    out.push(byte)?;
    Ok(())
}

#[tactic(auto, using(mh_group::proofs::WritingLemmas::bytes_are_octets), unfolding(crate::specs::Printed::octets))]
fn put_octets(out: &mut Vec<u8>, bytes: &[u8]) -> Result<(), AllocError>
    ensures printed { OnOk result (out.new.items ≡ out.old.items ++ octets bytes.now) }
    ensures fits { OnOk result (is_octets bytes.now ≡ true) }
{
    out.extend_from_slice(b" '")?;
    put_quoted(out, bytes)?;
    out.push(b'\'')?;
    Ok(())
}

fn put_quoted(out: &mut Vec<u8>, bytes: &[u8]) -> Result<(), AllocError>
    ensures { OnOk result (out.new.items ≡ out.old.items ++ flat_map quoted bytes.now) }
{
    for byte in bytes {
        put_octet(out, *byte)?;
    }
    Ok(())
}

/// Puts an octet as it is, where it may stand so, and else as its two digits.
fn put_octet(out: &mut Vec<u8>, byte: u8) -> Result<(), AllocError>
    ensures { OnOk result (out.new.items ≡ out.old.items ++ quoted byte) }
{
    if (32..=126).contains(&byte) && byte != b'\'' && byte != b'=' {
        out.push(byte)?;
        return Ok(());
    }
    let digits = [
        b'=',
        hexadecimal_digit(byte / 16),
        hexadecimal_digit(byte % 16),
    ];
    out.extend_from_slice(&digits)
}

/// The upper-case digit of this value.
fn hexadecimal_digit(digit: u8) -> u8
    requires { digit < 16 }
    ensures { result ≡ hexadecimal_digit digit }
{
    if digit < 10 {
        b'0' + digit
    } else {
        b'A' + (digit - 10)
    }
}
