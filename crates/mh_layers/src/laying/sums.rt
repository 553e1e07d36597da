//! Sums and maxima of what may not be known yet.
ghost use Rattle.std.specs.Prelude.{◌≡◌, ◌+◌, min, max};
ghost use Rattle.mh_layers.specs.Known.{added, larger, top};

use crate::numbered_node::NumberedNode;

/// What a price comes to, or the first node that it counts whose cost is not known.
pub type CostOrMissing = Result<u64, NumberedNode>;

/// Both, or the first that is waited for.
pub fn plus(first: CostOrMissing, second: CostOrMissing) -> CostOrMissing
    ensures { result ≡ added first second }
{
    match (first, second) {
        (Ok(first), Ok(second)) => Ok(sum(first, second)),
        (Err(node), _) => Err(node),
        (_, Err(node)) => Err(node),
    }
}

fn sum(first: u64, second: u64) -> u64
    ensures { result ≡ min (first + second) top }
{
    match first.checked_add(second) {
        Some(sum) => sum,
        None => u64::MAX,
    }
}

/// The larger of them, or the first that is waited for.
pub fn most(first: CostOrMissing, second: CostOrMissing) -> CostOrMissing
    ensures { result ≡ larger first second }
{
    match (first, second) {
        (Ok(first), Ok(second)) => Ok(first.max(second)),
        (Err(node), _) => Err(node),
        (_, Err(node)) => Err(node),
    }
}
