//! The words of a line, which single spaces part. The name of a group may have spaces in it, so a
//! name is what is left between the words in front and those behind.
ghost use Rattle.std.specs.Prelude.{◌≡◌, ◌≤◌, length};
ghost use Rattle.std.specs.List.{prefix_len};
ghost use Rattle.mh_why.specs.LineWords.{is_in_word, first_word, behind_first, last_word, before_last, with_digit, number_in, number_from};

/// What stands before the first space; all of it where there is none.
#[tactic(auto, unfolding(crate::specs::LineWords::first_word))]
pub(crate) fn first_word(bytes: &[u8]) -> &[u8]
    ensures { result.now ≡ first_word bytes.now }
{
    &bytes[..first_length(bytes)]
}

/// How many bytes the first word has.
fn first_length(bytes: &[u8]) -> usize
    ensures exact { result ≡ prefix_len is_in_word bytes.now }
    ensures within { result ≤ length bytes.now }
{
    bytes.iter().take_while(|byte| is_in_word(**byte)).count()
}

fn is_in_word(byte: u8) -> bool
    ensures { result ≡ is_in_word byte }
{
    byte != b' '
}

/// What stands behind the first space.
pub(crate) fn behind_first(bytes: &[u8]) -> &[u8]
    ensures { result.now ≡ behind_first bytes.now }
{
    let mut rest = bytes;
    while let [byte, behind @ ..] = rest {
        if *byte == b' ' {
            return behind;
        }
        rest = behind;
    }
    &[]
}

/// What stands behind the last space; all of it where there is none.
#[tactic(auto, unfolding(crate::specs::LineWords::last_word))]
pub(crate) fn last_word(bytes: &[u8]) -> &[u8]
    ensures { result.now ≡ last_word bytes.now }
{
    let mut word = bytes;
    let mut rest = bytes;
    while let [byte, behind @ ..] = rest {
        if *byte == b' ' {
            word = behind;
        }
        rest = behind;
    }
    word
}

/// What stands before the last space.
#[tactic(auto, unfolding(crate::specs::LineWords::before_last))]
pub(crate) fn before_last(bytes: &[u8]) -> &[u8]
    ensures { result.now ≡ before_last bytes.now }
{
    let length = bytes.len().saturating_sub(last_word(bytes).len() + 1);
    &bytes[..length]
}

/// The number of 32 bits that the digits write.
pub(crate) fn number_in(word: &[u8]) -> Option<u32>
    ensures { result ≡ number_in word.now }
{
    match word {
        [] => None,
        _ => number_of(word),
    }
}

fn number_of(digits: &[u8]) -> Option<u32>
    ensures { result ≡ number_from (Some 0) digits.now }
{
    let mut number = 0;
    let mut rest = digits;
    while let [digit, behind @ ..] = rest {
        number = with_digit(number, *digit)?;
        rest = behind;
    }
    Some(number)
}

/// The number with one more digit, if it is one and 32 bits hold it.
fn with_digit(number: u32, digit: u8) -> Option<u32>
    ensures { result ≡ with_digit number digit }
{
    if !digit.is_ascii_digit() {
        return None;
    }
    number.checked_mul(10)?.checked_add(u32::from(digit - b'0'))
}
