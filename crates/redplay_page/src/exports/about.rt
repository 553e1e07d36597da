//! What the library says of itself.
ghost use Rattle.std.specs.Prelude.{◌≡◌};

/// The number of this form of the calls. It changes when a caller has to.
const VERSION: u32 = 1;

/// The number of this form of the calls.
#[unsafe(no_mangle)]
pub extern "C" fn redpage_version() -> u32
    ensures { result ≡ 1 }
{
    VERSION
}
