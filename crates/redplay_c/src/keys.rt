//! The keys by their numbers.
ghost use Rattle.std.specs.Prelude.{◌≡◌};
ghost use Rattle.redplay_c.specs.Keys.{key_of};

use mh_model::{KEYS, Key};

/// The key with this number, if there is one.
pub fn key_of(number: u32) -> Option<Key>
    ensures { result ≡ key_of number }
{
    KEYS.iter()
        .copied()
        .find(|key| i64::from(key.number()) == i64::from(number))
}
