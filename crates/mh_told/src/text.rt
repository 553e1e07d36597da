//! `Text`: bytes that are put together before they are written.
ghost use Rattle.std.specs.Prelude.{◌≡◌, ◌++◌, ◌∷◌, [], ◌*◌, ◌/◌, ◌%◌, ◌+◌, ◌<◌, OnOk, encode_utf8};
ghost use Rattle.std.specs.Fmt.{decimal};
ghost use Rattle.std.specs.List.{flat_map};
ghost use Rattle.mh_told.specs.Printing.{hex_digit, hex_colour, quoted, two_digits};

use std::alloc::{AllocError, Global};
use std::marker::Model;

/// What replaces a number that is no character.
const REPLACEMENT: char = '\u{FFFD}';

/// Bytes in the making. A contract sees the list of them.
#[derive(Drop)]
pub struct Text {
    bytes: Vec<u8>,
}

impl Model for Text {
    ghost use Rattle.std.specs.Prelude.{ℕ, List};

    ghost Value = { List ℕ };

    ghost view = { λ t. t.bytes.items };
}

impl Text {
    pub fn new(alloc: Global) -> Text
        ensures { result ≡ [] }
    {
        Text {
            bytes: Vec::new(alloc),
        }
    }

    pub fn as_slice(&self) -> &[u8]
        ensures { result.now ≡ self.now }
    {
        self.bytes.as_slice()
    }

    /// Puts these bytes at the end.
    pub fn put(&mut self, bytes: &[u8]) -> Result<(), AllocError>
        ensures { OnOk result (self.new ≡ self.old ++ bytes.now) }
    {
        self.bytes.extend_from_slice(bytes)
    }

    /// Puts one byte.
    pub fn put_byte(&mut self, byte: u8) -> Result<(), AllocError>
        ensures { OnOk result (self.new ≡ self.old ++ byte ∷ []) }
    {
        self.bytes.push(byte)?;
        Ok(())
    }

    /// Puts a number in decimal digits.
    pub fn put_number(&mut self, number: u64) -> Result<(), AllocError>
        ensures { OnOk result (self.new ≡ self.old ++ decimal number) }
    {
        if number >= 10 {
            self.put_number(number / 10)?;
        }
        self.put_byte(b'0' + (number % 10) as u8)
    }

    /// Puts a number below 100 in two digits.
    pub fn put_two_digits(&mut self, number: u8) -> Result<(), AllocError>
        requires { number < 100 }
        ensures { OnOk result (self.new ≡ self.old ++ two_digits number) }
    {
        self.put(&[b'0' + number / 10, b'0' + number % 10])
    }

    /// Puts a colour of 24 bits in six hexadecimal digits: red, green and blue.
    pub fn put_colour(&mut self, colour: u32) -> Result<(), AllocError>
        ensures { OnOk result (self.new ≡ self.old ++ hex_colour colour) }
    {
        let digits = [
            hex_digit(colour / 1_048_576),
            hex_digit(colour / 65_536),
            hex_digit(colour / 4_096),
            hex_digit(colour / 256),
            hex_digit(colour / 16),
            hex_digit(colour),
        ];
        self.put(&digits)
    }

    /// Puts a character as it stands between quotation marks.
    pub fn put_quoted(&mut self, scalar: u32) -> Result<(), AllocError>
        ensures { OnOk result (self.new ≡ self.old ++ quoted scalar) }
    {
        match scalar {
            34 => self.put(b"\\\""),
            92 => self.put(b"\\\\"),
            0..=127 => self.put_byte(scalar as u8),
            _ => self.put_character(char::from_u32(scalar).unwrap_or(REPLACEMENT)),
        }
    }

    /// Puts characters as they stand between quotation marks.
    pub fn put_all_quoted(&mut self, scalars: &[u32]) -> Result<(), AllocError>
        ensures { OnOk result (self.new ≡ self.old ++ flat_map quoted scalars.now) }
    {
        for scalar in scalars {
            self.put_quoted(*scalar)?;
        }
        Ok(())
    }

    fn put_character(&mut self, character: char) -> Result<(), AllocError>
        ensures { OnOk result (self.new ≡ self.old ++ encode_utf8 character) }
    {
        let mut room = [0; 4];
        let encoded = character.encode_utf8(&mut room);
        self.put(encoded.as_bytes())
    }
}

/// The last hexadecimal digit of a number.
fn hex_digit(number: u32) -> u8
    ensures { result ≡ hex_digit number }
{
    let digit = (number % 16) as u8;
    if digit < 10 {
        b'0' + digit
    } else {
        b'a' + (digit - 10)
    }
}
