//! What the library says of itself: its versions, and what its numbers mean.
ghost use Rattle.std.specs.Prelude.{◌≡◌};
ghost use Rattle.redplay_c.specs.Texts.{IsExplained};

use crate::answer::{GOOD, OUT_OF_RANGE};
use crate::crossing::put;
use crate::texts::text_of;

/// The number of this form of the calls. It changes when a caller has to.
const VERSION: u32 = 1;

/// The version of the engine, 0.2.0: 10,000 times the first number, 100 times the second, and the third. `dist/build` holds it
/// to CHANGELOG.
const ENGINE_VERSION: u32 = 200;

/// The number of this form of the calls.
#[unsafe(no_mangle)]
pub extern "C" fn redplay_version() -> u32
    ensures { result ≡ 1 }
{
    VERSION
}

/// The version of the engine, as one number.
#[unsafe(no_mangle)]
pub extern "C" fn redplay_engine_version() -> u32
    ensures { result ≡ 200 }
{
    ENGINE_VERSION
}

/// Tells what a number means that a call answers.
#[unsafe(no_mangle)]
pub extern "C" fn redplay_why(number: u32, text: &mut [u8], length: &mut usize) -> u32
    ensures { IsExplained number text.old text.new length.old length.new result }
{
    match text_of(number) {
        Some(words) => {
            *length = put(words, text);
            GOOD
        }
        None => OUT_OF_RANGE,
    }
}
