//! The search for all that follows.
//!
//! Promise: what is found is all that follows from the start, and nothing else.

pub(crate) mod bits;
pub(crate) mod constraints;
pub(crate) mod edges;
pub(crate) mod gathered;
pub(crate) mod members;
pub(crate) mod rows;
pub(crate) mod sets;

ghost use Rattle.std.specs.Prelude.{IfOk};
ghost use Rattle.mh_flow.specs.Constraints.{IsFit};
ghost use Rattle.mh_flow.specs.Sets.{IsLeast};

use crate::fixpoint::constraints::Rules;
use crate::fixpoint::gathered::Gathered;
use crate::fixpoint::sets::Sets;
use std::alloc::{AllocError, Global};

/// All that follows from the start, and nothing else.
pub fn solve<R: Rules>(alloc: Global, rules: &R) -> Result<Sets, AllocError>
    requires { IsFit (R.system rules.now) }
    ensures { IfOk result (λ sets. IsLeast (R.system rules.now) sets) }
{
    let mut gathered = Gathered::nothing(alloc, rules.nodes(), rules.width())?;
    let mut items = Vec::new(alloc);
    rules.starts(&mut items)?;
    gathered.put_each(rules, items.as_slice())?;
    while let Some((node, row)) = gathered.members.take_waiting() {
        gathered.follow(rules, node, &row, &mut items)?;
    }
    Ok(gathered.into_sets())
}
