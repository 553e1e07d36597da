//! Numbers in octets: how a variable of the one kind is set to a value of the other.
ghost use Rattle.std.specs.Prelude.{◌≡◌, ◌==◌, slice_index, IfOk};
ghost use Rattle.std.specs.Fmt.{signed_decimal};
ghost use Rattle.mh_model.specs.Variables.{number_in};

use mh_base::Octets;
use std::alloc::{AllocError, Global};

/// The number that the octets write: an optional minus and decimal digits. Anything else is 0, and
/// so is a number out of range.
pub fn number_in(octets: &[u8]) -> i32
    ensures { result ≡ number_in octets.now }
{
    if has_plus(octets) {
        return 0;
    }
    match str::from_utf8(octets) {
        Ok(text) => text.parse::<i32>().unwrap_or(0),
        Err(_) => 0,
    }
}

/// A plus stands first.
fn has_plus(octets: &[u8]) -> bool
    ensures { result ≡ (slice_index octets.now 0 == 43) }
{
    matches!(octets, [b'+', ..])
}

/// The octets that write the number.
pub fn decimal(alloc: Global, number: i32) -> Result<Octets, AllocError>
    ensures { IfOk result (λ octets. octets ≡ signed_decimal number) }
{
    let text = format!(in alloc; "{number}")?;
    Octets::from_vec(alloc, text.into_bytes())
}
