//! Numbers that count from 1, and counts as numbers.
ghost use Rattle.std.specs.Prelude.{◌≡◌};
ghost use Rattle.std.specs.Option.{option_copied};
ghost use Rattle.mh_model.specs.Tokens.{numbered};
ghost use Rattle.mh_model.specs.Programs.{counted};

/// A count as a number; past the largest number it is that.
pub fn counted(count: usize) -> i32
    ensures { result ≡ counted count }
{
    if count <= 2147483647 {
        count as i32
    } else {
        i32::MAX
    }
}

/// The member with this number, from 1 on.
pub fn numbered<T>(list: &[T], number: usize) -> Option<&T>
    ensures { option_copied result ≡ numbered list.now number }
{
    match number {
        0 => None,
        _ => list.get(number - 1),
    }
}
