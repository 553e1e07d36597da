//! Places in a text, as the protocol counts them.
ghost use Rattle.std.specs.Prelude.{◌≡◌, ◌≤◌, ◌<◌, ◌+◌, ◌^◌, drop, length};
ghost use Rattle.mh_protocol.specs.Positions.{PlacesLeadBack, behind_by, ends_line, is_end, line_start, offset_in, position_in, reach, begins_with_feed, units};

/// A place leads back to where it was counted.
pub fn places_lead_back()
    ensures { PlacesLeadBack }
{}

/// What a line is counted in.
#[derive(Clone, Copy, PartialEq, Eq)]
pub enum Unit {
    /// A character beyond U+FFFF counts twice.
    Utf16,
    /// Bytes.
    Utf8,
}

/// A place in a text.
#[derive(Clone, Copy, PartialEq, Eq)]
pub struct Position {
    /// From 0 on. A line ends with a line feed, a carriage return, or both.
    pub line: usize,
    /// How many units of the line stand in front.
    pub character: usize,
}

/// Where the place is, as the number of bytes in front of it. One within a character is at the beginning of that, one behind
/// the end of its line at that end, and one behind the last line at the end of the text.
pub fn offset_at(unit: Unit, text: &[u8], at: Position) -> usize
    ensures is { result ≡ offset_in unit at text.now }
    ensures within { result ≤ length text.now }
{
    let start = line_start(text, at.line);
    start + reach(unit, behind(text, start), at.character)
}

/// How many bytes stand in front of the line.
#[tactic(auto, using(crate::proofs::PositionLemmas::line_start_stops))]
fn line_start(text: &[u8], line: usize) -> usize
    ensures is { result ≡ line_start line text.now }
    ensures within { result ≤ length text.now }
{
    let mut left = line;
    for (index, byte) in text.iter().enumerate() {
        if left == 0 {
            return index;
        }
        if ends_line(*byte, behind(text, index + 1)) {
            left -= 1;
        }
    }
    text.len()
}

/// How many bytes of a line stand before so many units.
fn reach(unit: Unit, line: &[u8], units: usize) -> usize
    ensures is { result ≡ reach unit units line.now }
    ensures within { result ≤ length line.now }
{
    let mut left = units;
    for (index, byte) in line.iter().enumerate() {
        let size = units_of(unit, *byte);
        if is_end(*byte) || left < size {
            return index;
        }
        left -= size;
    }
    line.len()
}

/// The place behind so many bytes.
pub fn position_at(unit: Unit, text: &[u8], offset: usize) -> Position
    ensures { result ≡ position_in unit offset text.now }
{
    let mut at = Position {
        line: 0,
        character: 0,
    };
    let mut left = offset;
    for (index, byte) in text.iter().enumerate() {
        if left == 0 {
            return at;
        }
        at = behind_byte(unit, at, *byte, behind(text, index + 1));
        left -= 1;
    }
    at
}

/// The place behind a byte.
fn behind_byte(unit: Unit, at: Position, byte: u8, behind: &[u8]) -> Position
    requires lines { at.line + 1 < 2 ^ 64 }
    requires units { at.character + 2 < 2 ^ 64 }
    ensures { result ≡ behind_by unit at byte behind.now }
{
    if ends_line(byte, behind) {
        Position {
            line: at.line + 1,
            character: 0,
        }
    } else {
        Position {
            line: at.line,
            character: at.character + units_of(unit, byte),
        }
    }
}

/// How many units of its line a byte counts.
fn units_of(unit: Unit, byte: u8) -> usize
    ensures { result ≡ units unit byte }
{
    match unit {
        Unit::Utf8 => 1,
        Unit::Utf16 => match byte {
            0x80..=0xBF => 0,
            0xF0.. => 2,
            _ => 1,
        },
    }
}

/// Whether a line ends in front of the byte.
fn is_end(byte: u8) -> bool
    ensures { result ≡ is_end byte }
{
    byte == b'\n' || byte == b'\r'
}

/// Whether a line ends behind the byte.
fn ends_line(byte: u8, behind: &[u8]) -> bool
    ensures { result ≡ ends_line byte behind.now }
{
    byte == b'\n' || byte == b'\r' && !begins_with_feed(behind)
}

fn begins_with_feed(bytes: &[u8]) -> bool
    ensures { result ≡ begins_with_feed bytes.now }
{
    matches!(bytes, [b'\n', ..])
}

/// What stands behind so many bytes.
pub(crate) fn behind(bytes: &[u8], size: usize) -> &[u8]
    ensures { result.now ≡ drop size bytes.now }
{
    bytes.get(size..).unwrap_or(&[])
}
