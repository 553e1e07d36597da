//! The frames of a report.
ghost use Rattle.std.specs.Prelude.{◌≡◌, ◌<◌, ◌∷◌, [], MatchOption, length};
ghost use Rattle.std.specs.Option.{option_copied};
ghost use Rattle.mh_look.specs.Frames.{pictures, frame_at};

use crate::report::Part;
use mh_model::Picture;

/// The picture of the first frame among these parts, and the parts behind it.
pub fn next_frame(parts: &[Part]) -> Option<(&Picture, &[Part])>
    ensures { MatchOption result (pictures parts.now ≡ []) (λ found.
        (pictures parts.now ≡ found.0.now ∷ pictures found.1.now) × (length found.1.now < length parts.now)) }
{
    let mut left = parts;
    while let Some((part, behind)) = left.split_first() {
        if let Part::Frame(picture) = part {
            return Some((picture, behind));
        }
        left = behind;
    }
    None
}

/// The picture of the frame with this number, counted from 1.
pub fn frame_at(parts: &[Part], number: u64) -> Option<&Picture>
    ensures { option_copied result ≡ frame_at number parts.now }
{
    let mut left = number.checked_sub(1)?;
    let mut rest = parts;
    while let Some((picture, behind)) = next_frame(rest) {
        if left == 0 {
            return Some(picture);
        }
        left -= 1;
        rest = behind;
    }
    None
}
