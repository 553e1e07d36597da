//! The numbers of actions through the effects of their object.
//!
//! Promise: a number is exact. Actions are counted by a list of them, since lists of actions can be shared: nothing but memory
//! bounds how many there are.
ghost use Rattle.std.specs.Prelude.{◌≡◌, ◌+◌, map, length, IfOk, OnOk};
ghost use Rattle.mh_layers.specs.NumberedEffects as spec;

use mh_model::Act;
use std::alloc::{AllocError, Global};

/// Puts these actions behind those.
fn push_acts<'a>(acts: &mut Vec<&'a Act>, more: &'a [Act]) -> Result<(), AllocError>
    ensures { OnOk result (length acts.new.items ≡ length acts.old.items + length more.now) }
{
    for act in more {
        acts.push(act)?;
    }
    Ok(())
}

/// The number of the first action of each of these effects, from 1 on; behind them that of the action that would come next.
pub(crate) fn first_numbers(alloc: Global, effects: &[&[Act]]) -> Result<Vec<usize>, AllocError>
    ensures { IfOk result (λ numbers. numbers.items ≡ spec.first_numbers 1 (map (λ e. e.now) effects.now)) }
{
    let mut acts = Vec::new(alloc);
    let mut numbers = Vec::with_capacity(alloc, effects.len() + 1)?;
    for effect in effects {
        numbers.push(acts.len() + 1)?;
        push_acts(&mut acts, effect)?;
    }
    numbers.push(acts.len() + 1)?;
    Ok(numbers)
}
