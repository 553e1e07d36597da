//! What an author is shown of an octet of a file in the binary notation.
ghost use Rattle.std.specs.Prelude.{◌≡◌, ◌++◌, OnOk, IfOk, take, drop};
ghost use Rattle.mh_why.specs.Octets.{hex_text, octet_words, shown_octet};

use crate::place::characters_of;
use crate::place::window::put_window;
use crate::wrap::put_paragraph;
use mh_misread::put_hex_byte;
use mh_told::text::Text;
use std::alloc::{AllocError, Global};

/// Puts the octet with this number, from 0 on, of a file of this name, with some octets before it and behind.
#[tactic(auto, unfolding(crate::specs::Octets::shown_octet))]
pub(crate) fn put_octet(
    alloc: Global,
    text: &mut Text,
    name: &[u8],
    bytes: &[u8],
    offset: usize,
) -> Result<(), AllocError>
    ensures { OnOk result (text.new ≡ text.old ++ shown_octet name.now bytes.now offset) }
{
    put_words(alloc, text, name, offset)?;
    let left_out = offset.saturating_sub(10);
    let digits = hex_text(alloc, octets_from(bytes, left_out, 30))?;
    let characters = characters_of(alloc, digits.as_slice())?;
    let shift = 3 * offset.min(10);
    put_window(
        alloc,
        text,
        offset as u64,
        characters.as_slice(),
        left_out,
        shift,
        2,
    )
}

#[tactic(auto, unfolding(crate::specs::Octets::octet_words))]
fn put_words(alloc: Global, text: &mut Text, name: &[u8], offset: usize) -> Result<(), AllocError>
    ensures { OnOk result (text.new ≡ text.old ++ octet_words name.now offset) }
{
    let mut words = Text::new(alloc);
    words.put(b"  ")?;
    words.put(name)?;
    words.put(b", octet ")?;
    words.put_number(offset as u64)?;
    words.put(b", in hexadecimal digits")?;
    put_paragraph(alloc, text, words.as_slice())
}

/// So many octets at most, behind so many others.
fn octets_from(bytes: &[u8], start: usize, count: usize) -> &[u8]
    ensures { result.now ≡ take count (drop start bytes.now) }
{
    let behind = bytes.get(start..).unwrap_or(&[]);
    behind.get(..count).unwrap_or(behind)
}

/// The octets in hexadecimal digits, each with a space behind it.
fn hex_text(alloc: Global, bytes: &[u8]) -> Result<Text, AllocError>
    ensures { IfOk result (λ text. text ≡ hex_text bytes.now) }
{
    let mut text = Text::new(alloc);
    put_hex_text(&mut text, bytes)?;
    Ok(text)
}

fn put_hex_text(text: &mut Text, bytes: &[u8]) -> Result<(), AllocError>
    ensures { OnOk result (text.new ≡ text.old ++ hex_text bytes.now) }
{
    let mut left = bytes;
    while let [byte, behind @ ..] = left {
        put_hex_byte(text, *byte)?;
        text.put(b" ")?;
        left = behind;
    }
    Ok(())
}
