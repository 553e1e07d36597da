//! Keys by the names that scripts have for them. A service names a key by its number.
ghost use Rattle.std.specs.Prelude.{◌≡◌};
ghost use Rattle.mh_misread.specs.Keys.{key_named};

use crate::nearest::likeness::is_near;
use mh_model::{KEYS, Key};
use mh_script::key_name;

/// The key with this name; whether letters are small is no matter.
#[tactic(auto, unfolding(crate::specs::Keys::key_named))]
pub(crate) fn key_named(word: &[u8]) -> Option<Key>
    ensures { result ≡ key_named word.now }
{
    KEYS.iter()
        .copied()
        .find(|key| is_near(0, word, key_name(*key)))
}
