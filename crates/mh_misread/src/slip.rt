//! `Slip`: what is wrong at a place where no token begins.

pub(crate) mod held;
pub(crate) mod mend;

ghost use Rattle.std.specs.Prelude.{◌≡◌, ◌≤◌, length};
ghost use Rattle.std.specs.List.{prefix_len};
ghost use Rattle.mh_text.specs.Bytes.{is_text_byte, is_quoted_byte};
ghost use Rattle.mh_misread.specs.Slips.{slip_of, string_slip};

/// What is wrong at a place where no token begins.
#[derive(Clone, Copy)]
pub enum Slip {
    /// A comment that begins with this byte, and not with two slashes.
    Comment(u8),
    /// A byte that parts items in other notations.
    Separator(u8),
    /// A string of this mark that does not end in its line.
    OpenString(u8),
    /// A byte that stands for itself in no string, in a string of this mark, which holds so many bytes in front of it.
    ByteInString { mark: u8, byte: u8, held: usize },
    /// An `=` without its two digits.
    Escape,
    /// A colon with no name behind it.
    Colon,
    /// A minus sign with no digit behind it.
    Minus,
    /// A full stop, which is part of no number.
    Point,
    /// A sign with which other notations compare or assign.
    Operator(u8),
    /// Any other byte.
    Byte(u8),
}

/// What is wrong with these bytes, of which no token is the beginning.
#[tactic(auto, unfolding(crate::specs::Slips::slip_of))]
pub(crate) fn slip_of(bytes: &[u8]) -> Option<Slip>
    ensures { result ≡ slip_of bytes.now }
{
    let (first, rest) = bytes.split_first()?;
    Some(match *first {
        b'"' => string_slip(b'"', text_length(rest), &rest[text_length(rest)..]),
        b'\'' => string_slip(b'\'', quoted_length(rest), &rest[quoted_length(rest)..]),
        b':' => Slip::Colon,
        b'-' => Slip::Minus,
        b'#' | b'/' => Slip::Comment(*first),
        b',' | b';' => Slip::Separator(*first),
        b'.' => Slip::Point,
        b'<' | b'=' => Slip::Operator(*first),
        b'!' | b'>' => Slip::Operator(*first),
        byte => Slip::Byte(byte),
    })
}

/// What is wrong with a string of this mark, of which these bytes stand behind so many that it may hold.
fn string_slip(mark: u8, held: usize, bytes: &[u8]) -> Slip
    ensures { result ≡ string_slip mark held bytes.now }
{
    match bytes {
        [] | [b'\n' | b'\r', ..] => Slip::OpenString(mark),
        [byte, ..] if *byte == mark => Slip::Escape,
        [byte, ..] => Slip::ByteInString {
            mark,
            byte: *byte,
            held,
        },
    }
}

/// How many bytes at the front a string between `"` may hold.
fn text_length(bytes: &[u8]) -> usize
    ensures exact { result ≡ prefix_len is_text_byte bytes.now }
    ensures within { result ≤ length bytes.now }
{
    bytes.iter().take_while(|byte| is_text_byte(**byte)).count()
}

/// How many bytes at the front a string between `'` may hold.
fn quoted_length(bytes: &[u8]) -> usize
    ensures exact { result ≡ prefix_len is_quoted_byte bytes.now }
    ensures within { result ≤ length bytes.now }
{
    bytes
        .iter()
        .take_while(|byte| is_quoted_byte(**byte))
        .count()
}

fn is_text_byte(byte: u8) -> bool
    ensures { result ≡ is_text_byte byte }
{
    32 <= byte && byte <= 126 && byte != b'"'
}

fn is_quoted_byte(byte: u8) -> bool
    ensures { result ≡ is_quoted_byte byte }
{
    32 <= byte && byte <= 126 && byte != b'\''
}
