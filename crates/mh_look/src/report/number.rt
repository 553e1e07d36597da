//! Numbers and colours, read back.
ghost use Rattle.std.specs.Prelude.{ℕ, ◌≡◌, ◌+◌, ◌*◌, ◌<◌, ◌≤◌, ◌^◌, IfSome, length};
ghost use Rattle.std.specs.Char.{is_ascii_digit, digit_char};
ghost use Rattle.std.specs.Fmt.{decimal};
ghost use Rattle.std.specs.List.{prefix_len};
ghost use Rattle.mh_look.specs.Reading.{IsNumberFound, IsColourFound};

/// The decimal number with which the bytes begin, and how many digits it has; none where there is
/// no digit or the number is larger than all of 64 bits.
pub fn read_number(bytes: &[u8]) -> Option<(u64, usize)>
    ensures found { IsNumberFound bytes.now result }
    ensures within { IfSome result (λ found. found.1 ≤ length bytes.now) }
{
    let count = count_digits(bytes);
    let number = parse(&bytes[..count])?;
    Some((number, count))
}

/// How many digits stand at the front.
fn count_digits(bytes: &[u8]) -> usize
    ensures exact { result ≡ prefix_len is_ascii_digit bytes.now }
    ensures within { result ≤ length bytes.now }
{
    bytes
        .iter()
        .take_while(|byte| byte.is_ascii_digit())
        .count()
}

/// The number that these digits write, where there are some and it fits 64 bits.
fn parse(digits: &[u8]) -> Option<u64>
    ensures { (n : ℕ) → n < 2 ^ 64 → digits.now ≡ decimal n → result ≡ Some n }
{
    let text = str::from_utf8(digits).ok()?;
    text.parse().ok()
}

/// The colour whose six hexadecimal digits the bytes begin with: red, green and blue.
pub fn read_colour(bytes: &[u8]) -> Option<u32>
    ensures found { IsColourFound bytes.now result }
    ensures within { IfSome result (λ colour. colour < 16777216) }
    ensures long { IfSome result (λ colour. 6 ≤ length bytes.now) }
{
    let [
        red_high,
        red_low,
        green_high,
        green_low,
        blue_high,
        blue_low,
        ..
    ] = bytes
    else {
        return None;
    };
    let red = read_octet(*red_high, *red_low)?;
    let green = read_octet(*green_high, *green_low)?;
    let blue = read_octet(*blue_high, *blue_low)?;
    Some(red * 65_536 + green * 256 + blue)
}

/// The number that two hexadecimal digits write.
fn read_octet(high: u8, low: u8) -> Option<u32>
    ensures found { (h l : ℕ) → h < 16 → l < 16 → high ≡ digit_char h → low ≡ digit_char l → result ≡ Some (h * 16 + l) }
    ensures within { IfSome result (λ octet. octet < 256) }
{
    let high = char::from(high).to_digit(16)?;
    let low = char::from(low).to_digit(16)?;
    Some(high * 16 + low)
}
