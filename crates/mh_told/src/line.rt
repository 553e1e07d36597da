//! The bytes of a run in a buffer of their own, so that they go behind a text at once. Each function puts some
//! at a place, and answers the place behind them.
ghost use Rattle.std.specs.Prelude.{◌≡◌, ◌+◌, ◌<◌, ◌≤◌, ◌++◌, ◌∷◌, [], IfSome, codes, length, take};
ghost use Rattle.std.specs.Fmt.{decimal};
ghost use Rattle.std.specs.List.{flat_map};
ghost use Rattle.mh_told.specs.Printing.{hex_colour, hex_pair, quoted};
ghost use Rattle.mh_told.specs.Hex.{digit_at};

/// How many bytes there is room for: a run has 22 before its characters, and 60 of these at most.
pub(crate) const ROOM: usize = 96;

/// Puts one byte.
#[inline(always)]
pub(crate) fn put_byte(line: &mut [u8; 96], at: usize, byte: u8) -> usize
    requires { at < 96 }
    ensures front { take result line.new ≡ take at line.old ++ byte ∷ [] }
    ensures behind { result ≡ at + 1 }
{
    line[at] = byte;
    at + 1
}

/// Puts the number of a column in decimal digits.
#[inline(always)]
pub(crate) fn put_column(line: &mut [u8; 96], at: usize, column: usize) -> usize
    requires room { at + 2 ≤ 96 }
    requires wide { column < 60 }
    ensures front { take result line.new ≡ take at line.old ++ decimal column }
    ensures behind { result ≤ at + 2 }
{
    if column < 10 {
        return put_byte(line, at, b'0' + column as u8);
    }
    let at = put_byte(line, at, b'0' + (column / 10) as u8);
    put_byte(line, at, b'0' + (column % 10) as u8)
}

/// Puts a colour of 24 bits in six hexadecimal digits: red, green and blue.
#[inline(always)]
pub(crate) fn put_colour(line: &mut [u8; 96], at: usize, colour: u32) -> usize
    requires { at + 6 ≤ 96 }
    ensures front { take result line.new ≡ take at line.old ++ hex_colour colour }
    ensures behind { result ≡ at + 6 }
{
    let at = put_pair(line, at, (colour / 65_536 % 256) as usize);
    let at = put_pair(line, at, (colour / 256 % 256) as usize);
    put_pair(line, at, (colour % 256) as usize)
}

/// Puts the two hexadecimal digits of a byte.
#[inline(always)]
fn put_pair(line: &mut [u8; 96], at: usize, byte: usize) -> usize
    requires room { at + 2 ≤ 96 }
    requires small { byte < 256 }
    ensures front { take result line.new ≡ take at line.old ++ hex_pair byte }
    ensures behind { result ≡ at + 2 }
{
    let high = digit_at(2 * byte);
    let low = digit_at(2 * byte + 1);
    let at = put_byte(line, at, high);
    put_byte(line, at, low)
}

/// The byte of the table of digits at a place.
#[inline(always)]
#[tactic(auto, unfolding(crate::specs::Hex::digit_at))]
fn digit_at(place: usize) -> u8
    requires { place < 512 }
    ensures { result ≡ digit_at place }
{
    DIGITS[place]
}

/// Puts a space and the mark before characters.
#[inline(always)]
pub(crate) fn put_mark(line: &mut [u8; 96], at: usize) -> usize
    requires { at + 2 ≤ 96 }
    ensures front { take result line.new ≡ take at line.old ++ codes " \"" }
    ensures behind { result ≡ at + 2 }
{
    let at = put_byte(line, at, b' ');
    put_byte(line, at, b'"')
}

/// Puts characters from the front on, as long as each is one byte between quotation marks, and answers how many.
#[inline(always)]
pub(crate) fn put_plain(line: &mut [u8; 96], at: usize, scalars: &[u32]) -> usize
    requires { at + length scalars.now ≤ 96 }
    ensures front { take (at + result) line.new ≡ take at line.old ++ flat_map quoted (take result scalars.now) }
    ensures within { result ≤ length scalars.now }
{
    let mut count = 0;
    while count < scalars.len() {
        let Some(byte) = plain_byte(scalars[count]) else {
            return count;
        };
        line[at + count] = byte;
        count += 1;
    }
    count
}

/// The byte as which a character stands between quotation marks, where it is one alone.
#[inline(always)]
fn plain_byte(scalar: u32) -> Option<u8>
    ensures { IfSome result (λ byte. quoted scalar ≡ byte ∷ []) }
{
    match scalar {
        34 | 92 => None,
        0..=127 => Some(scalar as u8),
        _ => None,
    }
}

/// The two hexadecimal digits of each byte.
static DIGITS: [u8; 512] = [
    48, 48, 48, 49, 48, 50, 48, 51, 48, 52, 48, 53, 48, 54, 48, 55, 48, 56, 48, 57, 48, 97, 48, 98,
    48, 99, 48, 100, 48, 101, 48, 102, 49, 48, 49, 49, 49, 50, 49, 51, 49, 52, 49, 53, 49, 54, 49,
    55, 49, 56, 49, 57, 49, 97, 49, 98, 49, 99, 49, 100, 49, 101, 49, 102, 50, 48, 50, 49, 50, 50,
    50, 51, 50, 52, 50, 53, 50, 54, 50, 55, 50, 56, 50, 57, 50, 97, 50, 98, 50, 99, 50, 100, 50,
    101, 50, 102, 51, 48, 51, 49, 51, 50, 51, 51, 51, 52, 51, 53, 51, 54, 51, 55, 51, 56, 51, 57,
    51, 97, 51, 98, 51, 99, 51, 100, 51, 101, 51, 102, 52, 48, 52, 49, 52, 50, 52, 51, 52, 52, 52,
    53, 52, 54, 52, 55, 52, 56, 52, 57, 52, 97, 52, 98, 52, 99, 52, 100, 52, 101, 52, 102, 53, 48,
    53, 49, 53, 50, 53, 51, 53, 52, 53, 53, 53, 54, 53, 55, 53, 56, 53, 57, 53, 97, 53, 98, 53, 99,
    53, 100, 53, 101, 53, 102, 54, 48, 54, 49, 54, 50, 54, 51, 54, 52, 54, 53, 54, 54, 54, 55, 54,
    56, 54, 57, 54, 97, 54, 98, 54, 99, 54, 100, 54, 101, 54, 102, 55, 48, 55, 49, 55, 50, 55, 51,
    55, 52, 55, 53, 55, 54, 55, 55, 55, 56, 55, 57, 55, 97, 55, 98, 55, 99, 55, 100, 55, 101, 55,
    102, 56, 48, 56, 49, 56, 50, 56, 51, 56, 52, 56, 53, 56, 54, 56, 55, 56, 56, 56, 57, 56, 97,
    56, 98, 56, 99, 56, 100, 56, 101, 56, 102, 57, 48, 57, 49, 57, 50, 57, 51, 57, 52, 57, 53, 57,
    54, 57, 55, 57, 56, 57, 57, 57, 97, 57, 98, 57, 99, 57, 100, 57, 101, 57, 102, 97, 48, 97, 49,
    97, 50, 97, 51, 97, 52, 97, 53, 97, 54, 97, 55, 97, 56, 97, 57, 97, 97, 97, 98, 97, 99, 97,
    100, 97, 101, 97, 102, 98, 48, 98, 49, 98, 50, 98, 51, 98, 52, 98, 53, 98, 54, 98, 55, 98, 56,
    98, 57, 98, 97, 98, 98, 98, 99, 98, 100, 98, 101, 98, 102, 99, 48, 99, 49, 99, 50, 99, 51, 99,
    52, 99, 53, 99, 54, 99, 55, 99, 56, 99, 57, 99, 97, 99, 98, 99, 99, 99, 100, 99, 101, 99, 102,
    100, 48, 100, 49, 100, 50, 100, 51, 100, 52, 100, 53, 100, 54, 100, 55, 100, 56, 100, 57, 100,
    97, 100, 98, 100, 99, 100, 100, 100, 101, 100, 102, 101, 48, 101, 49, 101, 50, 101, 51, 101,
    52, 101, 53, 101, 54, 101, 55, 101, 56, 101, 57, 101, 97, 101, 98, 101, 99, 101, 100, 101, 101,
    101, 102, 102, 48, 102, 49, 102, 50, 102, 51, 102, 52, 102, 53, 102, 54, 102, 55, 102, 56, 102,
    57, 102, 97, 102, 98, 102, 99, 102, 100, 102, 101, 102, 102,
];
