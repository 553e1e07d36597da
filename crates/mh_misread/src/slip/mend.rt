//! How a place is mended at which no token begins.
ghost use Rattle.std.specs.Prelude.{◌≡◌, ◌++◌, OnOk};
ghost use Rattle.mh_misread.specs.Mending.{break_mend, separator_mend, string_mend, escape_mend, quote_mend, character_mend, string_byte_mend, slip_mend};

use crate::found::{character_of, put_byte_words, put_escaped, put_marked};
use crate::phrases::{
    BETWEEN_APOSTROPHES, BREAK_WITHIN, BYTE_MEND, COLON_MEND, COMMENT_MEND, ESCAPE_MEND,
    IN_ITS_PLACE, IN_PLACE_OF_BYTE, MINUS_MEND, OPERATOR_MEND, POINT_MEND, WHERE_STRING_ENDS,
};
use crate::slip::Slip;
use crate::span::behind;
use mh_told::text::Text;
use std::alloc::AllocError;

/// Puts that the byte is taken away.
#[tactic(auto, unfolding(crate::specs::Mending::separator_mend))]
fn put_separator_mend(text: &mut Text, byte: u8) -> Result<(), AllocError>
    ensures { OnOk result (text.new ≡ text.old ++ separator_mend byte) }
{
    text.put(b"take ")?;
    put_byte_words(text, byte)?;
    text.put(b" away")
}

/// Puts where the mark is written.
#[tactic(auto, unfolding(crate::specs::Mending::string_mend))]
fn put_string_mend(text: &mut Text, mark: u8) -> Result<(), AllocError>
    ensures { OnOk result (text.new ≡ text.old ++ string_mend mark) }
{
    text.put(b"write ")?;
    put_marked(text, &[mark])?;
    text.put(WHERE_STRING_ENDS)?;
    put_break_mend(text, mark)
}

/// Puts how a line break is written within a string of this mark, if it can have one.
#[tactic(auto, unfolding(crate::specs::Mending::break_mend))]
fn put_break_mend(text: &mut Text, mark: u8) -> Result<(), AllocError>
    ensures { OnOk result (text.new ≡ text.old ++ break_mend mark) }
{
    if mark == b'\'' {
        text.put(BREAK_WITHIN)
    } else {
        Ok(())
    }
}

/// Puts how the byte is written.
#[tactic(auto, unfolding(crate::specs::Mending::escape_mend))]
fn put_escape_mend(text: &mut Text, bytes: &[u8]) -> Result<(), AllocError>
    ensures { OnOk result (text.new ≡ text.old ++ escape_mend bytes.now) }
{
    text.put(b"write ")?;
    put_escaped(text, bytes)?;
    text.put(IN_ITS_PLACE)
}

/// Puts how the byte is written in another string.
#[tactic(auto, unfolding(crate::specs::Mending::quote_mend))]
fn put_quote_mend(text: &mut Text, bytes: &[u8]) -> Result<(), AllocError>
    ensures { OnOk result (text.new ≡ text.old ++ quote_mend bytes.now) }
{
    text.put(BETWEEN_APOSTROPHES)?;
    put_escaped(text, bytes)?;
    text.put(IN_PLACE_OF_BYTE)
}

fn put_character_mend(text: &mut Text, mark: u8, bytes: &[u8]) -> Result<(), AllocError>
    ensures { OnOk result (text.new ≡ text.old ++ character_mend mark bytes.now) }
{
    if mark == b'\'' {
        put_escape_mend(text, bytes)
    } else {
        put_quote_mend(text, bytes)
    }
}

/// Puts how a character is written in a string that begins at the offset, and holds so many bytes in front of it.
#[tactic(auto, unfolding(crate::specs::Mending::string_byte_mend))]
fn put_string_byte_mend(
    text: &mut Text,
    file: &[u8],
    offset: usize,
    mark: u8,
    held: usize,
) -> Result<(), AllocError>
    ensures { OnOk result (text.new ≡ text.old ++ string_byte_mend file.now offset mark held) }
{
    let inner = behind(behind(file, offset), 1);
    put_character_mend(text, mark, character_of(behind(inner, held)))
}

/// Puts the mend where no token begins.
#[tactic(auto, unfolding(crate::specs::Mending::slip_mend))]
pub(crate) fn put_slip_mend(
    text: &mut Text,
    file: &[u8],
    offset: usize,
    slip: Slip,
) -> Result<(), AllocError>
    ensures { OnOk result (text.new ≡ text.old ++ slip_mend file.now offset slip) }
{
    match slip {
        Slip::Comment(_) => text.put(COMMENT_MEND),
        Slip::Separator(byte) => put_separator_mend(text, byte),
        Slip::OpenString(mark) => put_string_mend(text, mark),
        Slip::ByteInString { mark, held, .. } => put_string_byte_mend(
            text, file, offset, mark, held,
        ),
        Slip::Escape => text.put(ESCAPE_MEND),
        Slip::Colon => text.put(COLON_MEND),
        Slip::Minus => text.put(MINUS_MEND),
        Slip::Point => text.put(POINT_MEND),
        Slip::Operator(_) => text.put(OPERATOR_MEND),
        Slip::Byte(_) => text.put(BYTE_MEND),
    }
}
