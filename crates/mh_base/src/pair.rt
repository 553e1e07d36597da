//! Results joined, by a function that is generic in what they hold: who asks through it whether memory was
//! refused has no large value to drop where it was.
ghost use Rattle.std.specs.Prelude.{◌≡◌, ◌||◌, is_err, true, IfOk, Ok, OnErr};

use std::alloc::AllocError;

/// Both, where neither was refused memory.
#[inline(always)]
pub fn both<A: Drop, B: Drop>(
    first: Result<A, AllocError>,
    second: Result<B, AllocError>,
) -> Result<(A, B), AllocError>
    ensures held { IfOk result (λ pair. (first ≡ Ok pair.0) × (second ≡ Ok pair.1)) }
    ensures refused { OnErr result ((is_err first || is_err second) ≡ true) }
{
    Ok((first?, second?))
}
