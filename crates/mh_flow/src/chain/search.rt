//! The first of the shortest chains of moves.
//!
//! Promise: what is told leads to the holder, nothing shorter does, and nothing as short comes before it.
ghost use Rattle.std.specs.Prelude.{◌≡◌, IfNone, IfOk, IfSome};
ghost use Rattle.mh_flow.specs.Moves.{Follows, IsFirstOf};
ghost use Rattle.mh_flow.specs.Routes.{AreActionSites, holders_met};

use crate::chain::link::Link;
use crate::chain::moves::{ActionSite, Holder, Move};
use crate::chain::routes::{action_sites_of, graph_of, holders_met, links_of, starts_of};
use indexmap::IndexSet;
use mh_paths::first_chain;
use std::alloc::{AllocError, Global};

/// The links of the moves that lead to the holder, the first of the shortest, if any do.
pub(crate) fn first_links(
    alloc: Global,
    moves: &[Move],
    goal: &Holder,
) -> Result<Option<Vec<Link>>, AllocError>
    ensures some { IfOk result (λ found. IfSome found (λ links. IsFirstOf moves.now goal.now links.items)) }
    ensures none { IfOk result (λ found. IfNone found ((ls : _) → Follows moves.now ls goal.now → ⊥)) }
{
    let holders = holders_met(alloc, moves)?;
    let action_sites = action_sites_of(alloc, moves)?;
    links_between(alloc, &holders, &action_sites, moves, goal)
}

/// The same, where these are the holders and the action sites of the moves.
fn links_between(
    alloc: Global,
    holders: &IndexSet<Holder>,
    action_sites: &IndexSet<ActionSite>,
    moves: &[Move],
    goal: &Holder,
) -> Result<Option<Vec<Link>>, AllocError>
    requires holders { holders.now.keys ≡ holders_met moves.now }
    requires action_sites { AreActionSites moves.now action_sites.now.keys }
    ensures some { IfOk result (λ found. IfSome found (λ links. IsFirstOf moves.now goal.now links.items)) }
    ensures none { IfOk result (λ found. IfNone found ((ls : _) → Follows moves.now ls goal.now → ⊥)) }
{
    let Some(number) = holders.get_index_of(goal) else {
        return Ok(None);
    };
    let graph = graph_of(alloc, holders, action_sites, moves)?;
    let starts = starts_of(alloc, holders, action_sites, moves)?;
    let chain = first_chain(alloc, &graph, starts.as_slice(), number)?;
    match chain {
        None => Ok(None),
        Some(trail) => Ok(Some(links_of(alloc, holders, action_sites, trail.as_slice())?)),
    }
}
