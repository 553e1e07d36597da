//! Text in a page: what comes from a report is never read as a tag.
ghost use Rattle.std.specs.Prelude.{◌≡◌, ◌++◌, OnOk, true};
ghost use Rattle.std.specs.List.{list_all};
ghost use Rattle.mh_told.specs.Printing.{character};
ghost use Rattle.mh_look.specs.Page.{escape, escaped, is_text};

use mh_told::text::Text;
use std::alloc::AllocError;

/// What replaces a number that is no character.
const REPLACEMENT: char = '\u{FFFD}';

/// Puts bytes as text of a page. No bracket and no quotation mark stands in what is put.
pub fn put_escaped(text: &mut Text, bytes: &[u8]) -> Result<(), AllocError>
    ensures put { OnOk result (text.new ≡ text.old ++ escaped bytes.now) }
    ensures plain { list_all is_text (escaped bytes.now) ≡ true }
{
    for byte in bytes {
        put_escape(text, *byte)?;
    }
    Ok(())
}

fn put_escape(text: &mut Text, byte: u8) -> Result<(), AllocError>
    ensures { OnOk result (text.new ≡ text.old ++ escape byte) }
{
    match byte {
        b'<' => text.put(b"&lt;"),
        b'>' => text.put(b"&gt;"),
        b'&' => text.put(b"&amp;"),
        b'"' => text.put(b"&quot;"),
        b'\'' => text.put(b"&#39;"),
        _ => text.put_byte(byte),
    }
}

/// Puts a character as text of a page.
pub fn put_escaped_character(text: &mut Text, scalar: u32) -> Result<(), AllocError>
    ensures { OnOk result (text.new ≡ text.old ++ escaped (character scalar)) }
{
    let character = char::from_u32(scalar).unwrap_or(REPLACEMENT);
    let mut room = [0; 4];
    put_escaped(text, character.encode_utf8(&mut room).as_bytes())
}
