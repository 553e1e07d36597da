//! The characters of a text's line, one a column of the screen.
ghost use Rattle.std.specs.Prelude.{◌≡◌, ◌<◌, ◌^◌, ◌-ℤ◌, ℕ, Some, None, drop, if◌then◌else◌, nat_lt, pos, slice_index};
ghost use Rattle.std.specs.Option.{option_copied};
ghost use Rattle.mh_model.specs.Boxes.{IsNear, or_zero};
ghost use Rattle.mh_model.specs.Layout.{character_in, unless_space};
ghost use Rattle.mh_model.specs.Scalars.{scalars_of};
ghost use Rattle.mh_display.specs.Places.{behind_at, scalar_at, scalar_now};

use mh_layout::{LaidLine, behind_first, first_of};

/// The scalar that paints nothing.
pub(crate) const SPACE: u32 = 0x20;

/// What a line shows in each column of the screen, if there is a line: its code points, and a space where it shows nothing. Its
/// box begins at this column, on the screen or off it.
pub(crate) fn characters_of(line: Option<&LaidLine>, first: i64) -> [u32; 60]
    requires { IsNear (2 ^ 29) first }
    ensures { (column : ℕ) → column < 60 → unless_space (Some (slice_index result column)) ≡ character_in (option_copied line.entry) (pos column -ℤ first) }
{
    match line {
        Some(line) => characters_in(line, first),
        None => blanks(),
    }
}

/// A space in each column.
fn blanks() -> [u32; 60]
    ensures { (column : ℕ) → column < 60 → unless_space (Some (slice_index result column)) ≡ None }
{
    [SPACE; 60]
}

/// What a line shows in each column of the screen.
fn characters_in(line: &LaidLine, first: i64) -> [u32; 60]
    requires { IsNear (2 ^ 29) first }
    ensures { (column : ℕ) → column < 60 → unless_space (Some (slice_index result column)) ≡ character_in (Some line.now) (pos column -ℤ first) }
{
    let begin = first + i64::from(line.column());
    placed_from(line.text(), line.length(), begin)
}

/// As many scalars of the text as a line has, in their columns, from the one at which it begins on.
fn placed_from(text: &[u8], length: usize, begin: i64) -> [u32; 60]
    requires { IsNear (2 ^ 33) begin }
    ensures { (column : ℕ) → column < 60 → slice_index result column ≡ scalar_at (pos column -ℤ begin) length (scalars_of text.now) }
{
    let mut shown = [SPACE; 60];
    let mut rest = text_from(text, begin);
    for column in 0..60 {
        let (scalar, behind) = take_scalar(rest, column as i64 - begin, length);
        shown[column] = scalar;
        rest = behind;
    }
    shown
}

/// The text without the scalars to the left of the screen, where it begins at this column.
fn text_from(text: &[u8], begin: i64) -> &[u8]
    requires { IsNear (2 ^ 33) begin }
    ensures { scalars_of result.now ≡ drop (or_zero (pos 0 -ℤ begin)) (scalars_of text.now) }
{
    if begin < 0 {
        behind_first(text, (-begin) as usize)
    } else {
        text
    }
}

/// What a line with as many scalars shows at this place, which is the next one of the text, and the text behind it. In front
/// of the line it shows a space, and nothing is taken.
fn take_scalar(text: &[u8], place: i64, length: usize) -> (u32, &[u8])
    ensures scalar { result.0 ≡ scalar_now place length (scalars_of text.now) }
    ensures rest { scalars_of result.1.now ≡ behind_at place (scalars_of text.now) }
{
    if place < 0 {
        return (SPACE, text);
    }
    match first_of(text) {
        Some((scalar, behind)) => (within(scalar, place as usize, length), behind),
        None => (SPACE, text),
    }
}

/// The scalar, if it is one of the line's; else a space.
fn within(scalar: u32, place: usize, length: usize) -> u32
    ensures { result ≡ (if nat_lt place length then scalar else 0x20) }
{
    if place < length { scalar } else { SPACE }
}
